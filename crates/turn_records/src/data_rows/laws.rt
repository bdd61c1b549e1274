//! Laws of what is printed. The bodies are empty: what they state is proved of the definitions.

ghost use Rattle.std.specs.Prelude.{◌≡◌, ◌≤◌, suc};
ghost use Rattle.serde_json.specs.Data.{depth};
ghost use Rattle.refusals.specs.host_data.Tree.{Tree};
ghost use Rattle.turn_rows.specs.amount_math.ValueView.{IsValue, ValueView};
ghost use Rattle.refusals.specs.host_data.Values.{value_tree};
ghost use Rattle.turn_rows.specs.Form.{HasValueForm, IsData};
ghost use Rattle.turn_rows.specs.Rows.{value_json};
ghost use Rattle.turn_records.specs.Printable.{IsPrintable, most_nested};
ghost use Rattle.turn_records.specs.PrintedData.{printed};
ghost use Rattle.turn_records.specs.Values.{HasTexts, printed_value};
ghost use Rattle.turn_rows.specs.Editions.{written};

/// Printable data is printed as rows may have it, a mark of an object or a number one deeper than the data.
pub fn data_is_in_form()
    ensures form { (t : Tree) → IsPrintable t → IsData (printed t) }
    ensures depth { (t : Tree) → IsPrintable t → depth (printed t) ≤ suc most_nested }
{}

/// A value whose keys are texts is printed as rows may have it.
pub fn values_are_in_form()
    ensures { (w : ValueView) → IsValue w.kind w.content → HasTexts w.content → HasValueForm written (printed_value w) }
{}

/// A value is printed alike in a row of its own and as data.
pub fn values_print_alike()
    ensures { (w : ValueView) → value_json (printed_value w) ≡ printed (value_tree w) }
{}
