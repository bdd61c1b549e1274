//! Laws of what a journal can print. The bodies are empty: what they state is proved of the definitions.

ghost use Rattle.std.specs.Prelude.{◌≡◌, false};
ghost use Rattle.turn_records.specs.promise_store.States.{SettlementView};
ghost use Rattle.turn_records.specs.refusals.Codes.{refusal_tree};
ghost use Rattle.turn_records.specs.refusals.declared.codes.Refusal.{Refusal};
ghost use Rattle.turn_records.specs.Endings.{settled_by};
ghost use Rattle.turn_records.specs.Events.{Answer};
ghost use Rattle.turn_records.specs.Printed.{notice_tree, printed};
ghost use Rattle.turn_records.specs.Turns.{Turn};
ghost use Rattle.turn_rows.specs.declared.editions.Edition.{Edition};
ghost use Rattle.turn_writer.specs.Printing.{CanPrintAnswer, CanPrintData, CanPrintSettlement};
ghost use Rattle.turn_writer.specs.ShortRows.{HasDataInOrder, HasShortRows, has_long_row};

/// The data of each refusal can be printed; what an answer settles a promise with can be where the answer can;
/// and what a function is notified of can be where that with which the promise was settled can.
pub fn what_turns_bring_can_be_printed()
    ensures refusals { (r : Refusal) → CanPrintData (refusal_tree r) }
    ensures settled { (a : Answer) → CanPrintAnswer a → CanPrintSettlement (settled_by a) }
    ensures told { (s : SettlementView) → CanPrintSettlement s → CanPrintData (notice_tree s) }
{}

/// Sizes refuse no turn whose rows are short: of data that has its fields in order they count no more bytes
/// than are printed.
pub fn short_rows_pass()
    ensures { (d : Edition) (t : Turn) → HasDataInOrder t → HasShortRows d (printed t)
        → has_long_row t ≡ false }
{}
