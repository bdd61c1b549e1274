//! Laws of turns as they are told. The body is empty: what it states is proved of the definitions.

ghost use Rattle.turn_rows.specs.Form.{IsInForm};
ghost use Rattle.turn_records.specs.Printed.{printed};
ghost use Rattle.turn_records.specs.Tellable.{IsTellable};
ghost use Rattle.turn_records.specs.Turns.{Turn};
ghost use Rattle.turn_rows.specs.Editions.{written};

/// A turn whose texts, numbers, values and data are such as rows may have is printed in form: by whom, on what,
/// with which answer and which rows goes by its kind, and no row nests too deep.
pub fn turns_are_in_form()
    ensures { (t : Turn) → IsTellable t → IsInForm written (printed t) }
{}
