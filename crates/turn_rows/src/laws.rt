//! Laws of printed turns. The bodies are empty: what they state is proved of the definitions.

ghost use Rattle.std.specs.Prelude.{◌≡◌, ℕ};
ghost use Rattle.rights_model.specs.declared.Sum.{Sum};
ghost use Rattle.turn_rows.specs.Form.{HasEventForm, HasSumForm};
ghost use Rattle.turn_rows.specs.Order.{PutsAmount, PutsPayout};
ghost use Rattle.turn_rows.specs.ReadBack.{closing_in, event_in, sum_in, turn_in};
ghost use Rattle.turn_rows.specs.Rows.{close_row, event_row, sum_row, turn_row};
ghost use Rattle.turn_rows.specs.Texts.{OneText, TextByTurns};
ghost use Rattle.turn_rows.specs.Turns.{Event, Turn};
ghost use Rattle.turn_rows.specs.declared.editions.Edition.{Edition};
ghost use Rattle.turn_rows.specs.Worked.{WorkedTexts};

/// No journal in form has the text of another: the text tells the turns, and how many deliveries are left.
pub fn one_text()
    ensures { OneText }
{}

/// The texts of the turns, one after another, and of the close row are the journal's: with those of the first
/// turn, or of the close row where there is none, stands the version row.
pub fn a_journal_is_written_turn_by_turn()
    ensures { TextByTurns }
{}

/// What a row in form says is read back from it.
pub fn rows_are_read_back()
    ensures events { (d : Edition) (e : Event) → HasEventForm d e → event_in (event_row e) ≡ e }
    ensures sums { (d : Edition) (s : Sum) → HasSumForm s → sum_in (sum_row d s) ≡ s }
    ensures turns { (t : Turn) → turn_in (turn_row t) t.events t.sums ≡ t }
    ensures left { (left turns : ℕ) → (closing_in (close_row left turns)).left ≡ left }
    ensures closed { (left turns : ℕ) → (closing_in (close_row left turns)).turns ≡ turns }
{}

/// A writer that puts amounts and payouts into a map of JSON, one after another, writes them in byte order
/// of their keywords.
pub fn maps_keep_order()
    ensures amounts { PutsAmount }
    ensures payouts { PutsPayout }
{}

/// The texts of rows of the worked examples.
pub fn worked_texts()
    ensures { WorkedTexts }
{}
