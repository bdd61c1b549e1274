//! Laws of runs. The bodies are empty: what they state is proved of the definitions.

ghost use Rattle.std.specs.Prelude.{◌≤◌, ℕ, List};
ghost use Rattle.std.specs.List.{AllByRecursion};
ghost use Rattle.licence_laws.specs.fair_rows.SoFar.{nothing_so_far};
ghost use Rattle.licence_laws.specs.fair_rows.Steps.{Leaves, so_far_after};
ghost use Rattle.licence_laws.specs.fair_rows.Strict.{AreStrict};
ghost use Rattle.licence_laws.specs.fair_rows.Turns.{AreFair, IsFairJournal};
ghost use Rattle.run_laws.specs.FairRuns.{CanBePrinted, TellsLittle};
ghost use Rattle.licence_laws.specs.fair_laws.Views.{world_of};
ghost use Rattle.run_laws.specs.Runs.{journal_of, left_of, most_meter, run_of, turns_of};
ghost use Rattle.licence_laws.specs.rules.Zoe.{ReadsModules, TextReader};
ghost use Rattle.message_lines.specs.turn_rows.Form.{AreInForm};
ghost use Rattle.message_lines.specs.turn_rows.Editions.{written};

/// The turns of a run are fair, where what is read of texts are modules that can be installed; they keep to all
/// that a host keeps to beyond fairness; and one that was refused, or spent its meter, tells little.
pub fn runs_are_fair()
    ensures fair { (read : TextReader) (meter most : ℕ) (input : List ℕ)
        → ReadsModules read → meter ≤ most_meter
        → AreFair written (turns_of read meter most input) }
    ensures strict { (read : TextReader) (meter most : ℕ) (input : List ℕ)
        → ReadsModules read → meter ≤ most_meter
        → AreStrict (turns_of read meter most input) }
    ensures little { (read : TextReader) (meter most : ℕ) (input : List ℕ)
        → ReadsModules read → meter ≤ most_meter
        → AllByRecursion TellsLittle (turns_of read meter most input) }
{}

/// What the rows of a run tell together lies in its host at the end.
pub fn runs_leave_their_worlds()
    ensures leaves { (read : TextReader) (meter most : ℕ) (input : List ℕ)
        → ReadsModules read → meter ≤ most_meter
        → Leaves (so_far_after (turns_of read meter most input) nothing_so_far)
        (world_of (run_of read meter most input).end) }
{}

/// Each turn of a run can be printed.
pub fn turns_of_runs_can_be_printed()
    ensures prints { (read : TextReader) (meter most : ℕ) (input : List ℕ)
        → ReadsModules read → meter ≤ most_meter
        → AllByRecursion CanBePrinted (run_of read meter most input).turns }
{}

/// Where the turns of a run are in form, its journal is the text of a fair journal.
pub fn journals_of_runs_are_fair()
    ensures journal { (read : TextReader) (meter most : ℕ) (input : List ℕ)
        → ReadsModules read → meter ≤ most_meter
        → AreInForm written (turns_of read meter most input) (left_of read meter most input)
        → IsFairJournal written (journal_of read meter most input) (turns_of read meter most input)
        (left_of read meter most input) }
{}
