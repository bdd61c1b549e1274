//! Laws of the sentences of fairness. The bodies are empty: what they state is proved of the definitions.

ghost use Rattle.std.specs.Prelude.{◌↔◌, List};
ghost use Rattle.std.specs.List.{AllByRecursion};
ghost use Rattle.fair_rows.specs.turn_rows.Turns.{Turn};
ghost use Rattle.fair_rows.specs.turn_rows.Texts.{journal_text};
ghost use Rattle.fair_rows.specs.Turns.{AreFair, IsFairJournal};
ghost use Rattle.fair_samples.specs.Claims.{BreaksAlone, IsFairAlone, StoresAddUp};
ghost use Rattle.fair_samples.specs.Example.{example};
ghost use Rattle.fair_samples.specs.Further.{further, large_payments};
ghost use Rattle.fair_samples.specs.Lax.{lax};
ghost use Rattle.fair_samples.specs.Samples.{sample};
ghost use Rattle.fair_samples.specs.Sentences.{Meets, Sentence, supplies_are_bounded};
ghost use Rattle.fair_rows.specs.turn_rows.Editions.{written};
ghost use Rattle.fair_rows.specs.turn_rows.declared.editions.Edition.{Edition};
ghost use Rattle.fair_rows.specs.turn_rows.declared.editions.Edition.TheVariants.{First, Second};

/// A list of turns is fair exactly where it meets each sentence.
pub fn the_sentences_are_fairness()
    ensures { (d : Edition) (ts : List Turn) → AreFair d ts ↔ ((y : Sentence) → Meets d y ts) }
{}

/// No sentence follows from the others: its list of turns breaks it, and meets all others. So do further lists for
/// other parts of sentences, and for each way in which a turn shows a cause for a seat to exit.
pub fn no_sentence_follows()
    ensures each { (x : Sentence) → BreaksAlone written x (sample x) }
    ensures further { AllByRecursion (λ (p : Sentence × List Turn). BreaksAlone written p.0 p.1) further }
{}

/// Two payments that together pass what one may be in the first edition are fair turns of the second, and of the
/// first they break the bound of supplies alone.
pub fn editions_differ()
    ensures second { AreFair Second large_payments }
    ensures first { BreaksAlone First supplies_are_bounded large_payments }
{}

/// What a host keeps to beyond fairness doesn't follow from it: each of these lists of turns is fair, and isn't strict.
pub fn strictness_does_not_follow()
    ensures { AllByRecursion IsFairAlone lax }
{}

/// A list of turns with every kind of row is fair, and so meets each sentence; it is in form, and its text is that of
/// a fair journal.
pub fn every_kind_of_row_is_fair()
    ensures fair { AreFair written example }
    ensures journal { IsFairJournal written (journal_text written example 0) example 0 }
{}

/// Of balance it is the empty hand alone that is asked: where all movements are defined and the hand is empty after
/// each turn, the stores add up to the supply.
pub fn stores_add_up()
    ensures { StoresAddUp }
{}
