//! The elements that a printed value lists, one by one.

ghost use Rattle.std.specs.Prelude.{◌≡◌, ◌<◌, length};
ghost use Rattle.row_records.specs.Views.{value_view};
ghost use Rattle.row_records.specs.amount_math.Entries.{entry_at};
ghost use Rattle.told_rights.specs.Listing.{entries_of};

use row_records::rows::{Element, PrintedValue};

/// How many elements a value lists; a number lists its units, if there are some.
pub(crate) fn number_of_elements(value: &PrintedValue) -> usize
    ensures { result ≡ length (entries_of (value_view value.now)) }
{
    match value {
        PrintedValue::Number(number) => { if *number == 0 { 0 } else { 1 } }
        PrintedValue::Elements(elements) => elements.len(),
    }
}

/// The element at an index, with its count.
pub(crate) fn element_at(value: &PrintedValue, index: usize) -> (&str, u128)
    requires { index < length (entries_of (value_view value.now)) }
    ensures { (result.0.now, result.1) ≡ entry_at (entries_of (value_view value.now)) index }
{
    match value {
        PrintedValue::Number(number) => ("", *number),
        PrintedValue::Elements(elements) => match &elements[index] {
            Element::Key(key) => (key.as_str(), 1),
            Element::Counted(key, count) => (key.as_str(), u128::from(*count)),
        },
    }
}
