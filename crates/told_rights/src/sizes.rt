//! How much a value counts, all its elements together.

ghost use Rattle.std.specs.Prelude.{◌≡◌, map};
ghost use Rattle.row_records.specs.Views.{element_view, value_view};
ghost use Rattle.row_records.specs.amount_math.Content.{of_entries};
ghost use Rattle.row_records.specs.amount_math.Counted.{counted as size};
ghost use Rattle.row_records.specs.fair_rows.Values.{content_of, entry_of};
ghost use Rattle.row_records.specs.turn_rows.Form.{AreElements, HasValueForm};
ghost use Rattle.row_records.specs.turn_rows.declared.editions.Edition.{Edition};

use row_records::rows::{Element, PrintedValue};

/// How often an element stands for its key.
fn count_of(element: &Element) -> u64
    ensures { result ≡ (entry_of (element_view element.now)).1 }
{
    match element {
        Element::Key(_) => 1,
        Element::Counted(_, count) => *count,
    }
}

/// How much elements count together.
fn size_of_elements(elements: &[Element]) -> u128
    requires { AreElements (map element_view elements.now) }
    ensures { result ≡ size (of_entries (map entry_of (map element_view elements.now))) }
{
    let mut total = 0u128;
    for element in elements {
        total += u128::from(count_of(element));
    }
    total
}

/// How much a value counts.
pub fn size_of_value(value: &PrintedValue) -> u128
    requires { (e : Edition) × HasValueForm e (value_view value.now) }
    ensures { result ≡ size (content_of (value_view value.now)) }
{
    match value {
        PrintedValue::Number(number) => *number,
        PrintedValue::Elements(elements) => size_of_elements(elements),
    }
}
