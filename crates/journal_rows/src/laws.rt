//! Laws of a journal's rows. The bodies are empty: what they state is proved of the definitions.

ghost use Rattle.journal_rows.specs.Laws.{ACutIsBadThere, BadJournalsAreUnfair, FairTurnsAreGood, GoodRowsAreFair, OneFirstBad, OneRow, RowsAreLines, RowsAreReadBack};

/// A row in form is one line, and the line tells the row.
pub fn rows_are_lines()
    ensures lines { RowsAreLines }
    ensures told { RowsAreReadBack }
    ensures one { OneRow }
{}

/// The rows of a fair journal are good one after another, and the last one closes it.
pub fn fair_turns_are_good()
    ensures { FairTurnsAreGood }
{}

/// Rows that are good one after another, and the last of which closes the journal, are those of fair
/// turns.
pub fn good_rows_are_fair()
    ensures { GoodRowsAreFair }
{}

/// Where a row is bad, the bytes are the text of no fair journal.
pub fn bad_journals_are_unfair()
    ensures { BadJournalsAreUnfair }
{}

/// There is one first bad row.
pub fn one_first_bad()
    ensures { OneFirstBad }
{}

/// Where the text of a fair journal is cut off, the first bad row is the one after those that are
/// whole.
pub fn a_cut_is_bad_there()
    ensures { ACutIsBadThere }
{}
