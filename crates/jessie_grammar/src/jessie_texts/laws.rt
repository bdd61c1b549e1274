//! That each text comes to one answer, and to no other.
ghost use Rattle.jessie_grammar.specs.Answers.{EachComesToIt, ComesToNoOther};

/// Each text comes to what a reader answers: it is that module, or that is its first refusal.
pub fn comes()
    ensures { EachComesToIt }
{}

/// It comes to nothing else: one that is a module is that one alone, and has no refusal; one that is none
/// has one first refusal, at one place and of one kind.
pub fn one_answer()
    ensures { ComesToNoOther }
{}
