//! Data, as rows print it.

ghost use Rattle.std.specs.Prelude.{◌≡◌, ◌↔◌, IsTrue};
ghost use Rattle.serde_json.specs.Data.{Members, member, no_members, object, string};
ghost use Rattle.serde_json.specs.View.{items_view, members_view, number_view, view};
ghost use Rattle.std.specs.List.Sorted.{IsStrictlySortedBy};
ghost use Rattle.turn_rows.specs.amount_math.Content.{key_cmp};
ghost use Rattle.turn_rows.specs.Form.{AreData, AreFields, IsData, IsMark, IsSmallNumber};
ghost use Rattle.turn_rows.specs.Form.{names_of};

use crate::fields::only_member;
use row_forms::names::is_object_name;
use row_forms::numbers::is_wide_text;
use serde_json::{Map, Number, Value};
use turn_rows::host_text_lib::word::is_field_name;

/// Whether the number is one that is printed plainly: a whole one of at most 2^63 - 1 either way.
fn is_small_number(number: &Number) -> bool
    ensures { IsTrue result ↔ IsSmallNumber (number_view number.now) }
{
    match number.as_u64() {
        Some(number) => number <= i64::MAX as u64,
        None => match number.as_i64() {
            Some(number) => i64::MIN < number && number < 0,
            None => false,
        },
    }
}

/// Whether a text stands for an object, a function, or a number that isn't printed plainly, as the
/// mark says.
fn marks(mark: &str, text: &str) -> bool
    ensures { IsTrue result ↔ IsMark (member mark.now (string text.now) no_members) }
{
    match mark {
        "@" => is_object_name(text),
        "=>" => is_field_name(text.as_bytes()),
        "#" => is_wide_text(text),
        _ => false,
    }
}

/// Whether the one member of an object marks another object, a function, or a number that isn't
/// printed plainly.
fn is_mark(value: &Value) -> bool
    ensures { (ms : Members) → view value.now ≡ object ms → IsTrue result ↔ IsMark ms }
{
    let Some((mark, shown)) = only_member(value) else {
        return false;
    };
    match shown.as_str() {
        Some(text) => marks(mark, text),
        None => false,
    }
}

/// Whether the JSON is data as rows print it.
#[cycle(data)]
pub fn is_data(value: &Value) -> bool
    ensures { IsTrue result ↔ IsData (view value.now) }
{
    match value {
        Value::Null => true,
        Value::Bool(_) => true,
        Value::Number(number) => is_small_number(number),
        Value::String(text) => {
            let _text = text.as_str();
            true
        }
        Value::Array(items) => are_data(items.as_slice()),
        Value::Object(members) => is_mark(value) || are_fields(members),
    }
}

/// Whether each of them is data as rows print it.
#[cycle(data)]
pub fn are_data(items: &[Value]) -> bool
    ensures { IsTrue result ↔ AreData (items_view items.now) }
{
    for item in items {
        if !is_data(item) {
            return false;
        }
    }
    true
}

/// Whether the members are the fields of a record, which stand in byte order of their names.
#[cycle(data)]
fn are_fields(members: &Map<String, Value>) -> bool
    ensures { let ms = members_view members.now.entries in
        IsTrue result ↔ (AreFields ms × IsStrictlySortedBy key_cmp (names_of ms)) }
{
    for (name, value) in members.iter() {
        if !is_field_name(name.as_bytes()) {
            return false;
        }
        if !is_data(value) {
            return false;
        }
    }
    true
}
