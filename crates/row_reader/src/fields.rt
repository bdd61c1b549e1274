//! The members of a row's JSON, taken by name.

ghost use Rattle.std.specs.Prelude.{◌≡◌, ◌↔◌, ◌++◌, [], ◌∷◌, IsTrue, MatchResult, map, option_map, option_and_then};
ghost use Rattle.serde_json.specs.Find.{as_array, as_number, as_object, as_str, as_u64, get_member};
ghost use Rattle.serde_json.specs.View.{items_view, members_view, view};
ghost use Rattle.turn_rows.specs.Form.{names_of};
ghost use Rattle.row_reader.specs.Members.{only_in};

use crate::fault::RowFault;
use serde_json::{Map, Value};

/// Whether the members have these names, in this order.
pub fn has_names(members: &Map<String, Value>, names: &[&str]) -> bool
    ensures { IsTrue result
        ↔ (names_of (members_view members.now.entries) ≡ map (λ name. name.now) names.now) }
{
    let mut entries = members.iter();
    for wanted in names {
        match entries.next() {
            Some((name, _)) if name.as_str() == *wanted => {}
            _ => return false,
        }
    }
    entries.next().is_none()
}

/// The member of that name.
pub fn member<'a>(members: &'a Map<String, Value>, name: &str) -> Option<&'a Value>
    ensures { option_map (λ found. view found.now) result
        ≡ get_member name.now (members_view members.now.entries) }
{
    members.get(name)
}

/// The text of that name.
pub fn text_at<'a>(members: &'a Map<String, Value>, name: &str) -> Option<&'a str>
    ensures { option_map (λ text. text.now) result
        ≡ option_and_then as_str (get_member name.now (members_view members.now.entries)) }
{
    member(members, name)?.as_str()
}

/// The array of that name.
pub fn items_at<'a>(members: &'a Map<String, Value>, name: &str) -> Option<&'a Vec<Value>>
    ensures { option_map (λ items. items_view items.now.items) result
        ≡ option_and_then as_array (get_member name.now (members_view members.now.entries)) }
{
    member(members, name)?.as_array()
}

/// The object of that name.
pub fn members_at<'a>(members: &'a Map<String, Value>, name: &str) -> Option<&'a Map<String, Value>>
    ensures { option_map (λ found. members_view found.now.entries) result
        ≡ option_and_then as_object (get_member name.now (members_view members.now.entries)) }
{
    member(members, name)?.as_object()
}

/// The number of that name, which has 64 bits.
pub fn whole_at(members: &Map<String, Value>, name: &str) -> Option<u64>
    ensures { result ≡ option_and_then as_u64 (option_and_then as_number
        (get_member name.now (members_view members.now.entries))) }
{
    member(members, name)?.as_u64()
}

/// The one member of an object.
pub fn only_member(value: &Value) -> Option<(&str, &Value)>
    ensures { option_map (λ m. (m.0.now, view m.1.now)) result ≡ only_in (view value.now) }
{
    let members = value.as_object()?;
    if members.len() != 1 {
        return None;
    }
    let (name, value) = members.iter().next()?;
    Some((name.as_str(), value))
}

/// Adds a value to a list.
pub fn push<T>(list: &mut Vec<T>, value: T) -> Result<(), RowFault>
where
    T: Drop,
    ensures { MatchResult result (λ _. list.new.items ≡ list.old.items ++ value ∷ [])
        (λ fault. fault ≡ RowFault.NoMemory) }
{
    match list.push(value) {
        Ok(()) => Ok(()),
        Err(_) => Err(RowFault::NoMemory),
    }
}
