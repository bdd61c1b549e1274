//! The laws of reading the tokens of a contract text.
ghost use Rattle.jessie_grammar.specs.Laws.{ReadsTexts, ReadsEach, OneTree, RefusesFirst, RefusesEach, OneFirstRefusal};

/// What is read is a text of the grammar, within the limits, with that tree.
pub fn reads_texts()
    ensures { ReadsTexts }
{}

/// Each text of the grammar within the limits is read, with its tree.
pub fn reads_each()
    ensures { ReadsEach }
{}

/// No text within the limits has two trees.
pub fn one_tree()
    ensures { OneTree }
{}

/// What is refused is refused as the grammar says, at that place and of that kind: with that token, or
/// the end, no text goes on, whatever limits it breaks; or a text does, and that token is the first that
/// breaks a limit, this one.
pub fn refuses_first()
    ensures { RefusesFirst }
{}

/// What the grammar says is refused at a place and of a kind is refused there, and so.
pub fn refuses_each()
    ensures { RefusesEach }
{}

/// A text has one first refusal at most: one place and one kind.
pub fn one_first_refusal()
    ensures { OneFirstRefusal }
{}
