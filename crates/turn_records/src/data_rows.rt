//! Data and values as a journal prints them, as JSON. Its one contract: what is made of data is what a
//! journal prints of it, and data that has its form at each node (printable names and numbers, at most
//! 32 deep) is printed in the form of rows.

pub mod laws;

ghost use Rattle.std.specs.Prelude.{◌≡◌, IfOk, string_bytes};
ghost use Rattle.serde_json.specs.Data.{array, no_members, object};
ghost use Rattle.serde_json.specs.View.{view};
ghost use Rattle.refusals.specs.host_data.Tree.{function as function_at, object as object_at};
ghost use Rattle.refusals.specs.host_data.View.{fields_of, items_of, named_trees, tree, trees};
ghost use Rattle.turn_rows.specs.Rows.{only};
ghost use Rattle.turn_records.specs.Names.{is_single, object_name, word_of};
ghost use Rattle.turn_records.specs.PrintedData.{printed, printed_fields, printed_items, printed_number};

use refusals::host_data_lib::data::{Data, Obj, ObjKind};
use serde_json::{Map, Value, json, push, put};
use std::alloc::{AllocError, Global};
use turn_rows::host_text_lib::text::Text;

/// The word that the names of a kind begin with.
fn word_of(kind: ObjKind) -> &'static str
    ensures { result.now ≡ word_of kind }
{
    match kind {
        ObjKind::Ertp => "ertp",
        ObjKind::Zoe => "zoe",
        ObjKind::Timer => "timer",
        ObjKind::Brand(_) => "brand",
        ObjKind::Issuer => "issuer",
        ObjKind::Mint => "mint",
        ObjKind::Purse => "purse",
        ObjKind::Deposit => "deposit",
        ObjKind::Payment => "payment",
        ObjKind::Installation => "installation",
        ObjKind::Instance => "instance",
        ObjKind::Zcf => "zcf",
        ObjKind::Seat => "seat",
        ObjKind::Zseat => "zseat",
        ObjKind::Zmint => "zmint",
        ObjKind::Facet => "facet",
        ObjKind::Promise => "promise",
    }
}

/// Whether there is one object alone of the kind.
fn is_single(kind: ObjKind) -> bool
    ensures { result ≡ is_single kind }
{
    match kind {
        ObjKind::Ertp => true,
        ObjKind::Zoe => true,
        ObjKind::Timer => true,
        _ => false,
    }
}

/// An object's name: `ertp`, `brand1`, `purse0`.
#[tactic(auto, unfolding(crate::specs::Names::object_name))]
pub fn object_name(alloc: Global, object: Obj) -> Result<String, AllocError>
    ensures { IfOk result (λ name. string_bytes name ≡ object_name object) }
{
    let word = word_of(object.kind);
    if is_single(object.kind) {
        String::from_str(alloc, word)
    } else {
        format!(in alloc; "{}{}", word, object.number)
    }
}

/// An object of JSON with one member.
fn only(alloc: Global, name: &str, value: Value) -> Result<Value, AllocError>
    ensures { IfOk result (λ v. view v ≡ only name.now (view value)) }
{
    json!(in alloc; {name: value})
}

/// A number, as text where it lies beyond `2^63 - 1` either way.
pub fn number_value(alloc: Global, number: i128) -> Result<Value, AllocError>
    ensures { IfOk result (λ v. view v ≡ printed_number number) }
{
    if -(1 << 63) < number && number < 1 << 63 {
        return Ok(Value::from(number as i64));
    }
    let decimal = format!(in alloc; "{}", number)?;
    only(alloc, "#", Value::String(decimal))
}

/// Data as JSON.
#[cycle(value)]
pub fn data_value(alloc: Global, data: &Data) -> Result<Value, AllocError>
    ensures { IfOk result (λ v. view v ≡ printed (tree «data».now)) }
{
    match data {
        Data::Number(number) => number_value(alloc, *number),
        Data::Text(text) => Value::try_from_str(alloc, text.as_str()),
        Data::Bool(truth) => Ok(Value::Bool(*truth)),
        Data::Null => Ok(Value::Null),
        Data::Array(items) => items_value(alloc, items.as_slice()),
        Data::Record(fields) => fields_value(alloc, fields.as_slice()),
        Data::Object(object) => object_value(alloc, *object),
        Data::Function(name) => function_value(alloc, name.as_str()),
    }
}

/// `{"@":"purse0"}`
fn object_value(alloc: Global, object: Obj) -> Result<Value, AllocError>
    ensures { IfOk result (λ v. view v ≡ printed (object_at object)) }
{
    let name = object_name(alloc, object)?;
    only(alloc, "@", Value::String(name))
}

/// `{"=>":"open"}`
fn function_value(alloc: Global, name: &str) -> Result<Value, AllocError>
    ensures { IfOk result (λ v. view v ≡ printed (function_at name.now)) }
{
    let name = Value::try_from_str(alloc, name)?;
    only(alloc, "=>", name)
}

/// Data in a row, as an array of JSON.
#[cycle(value)]
pub fn items_value(alloc: Global, items: &[Data]) -> Result<Value, AllocError>
    ensures { IfOk result (λ v. view v ≡ array (printed_items (items_of (trees items.now)))) }
{
    let mut values = Vec::with_capacity(alloc, items.len())?;
    for item in items {
        push(&mut values, data_value(alloc, item)?)?;
    }
    Ok(Value::Array(values))
}

#[cycle(value)]
fn fields_value(alloc: Global, fields: &[(Text, Data)]) -> Result<Value, AllocError>
    ensures { IfOk result (λ v. view v ≡ object (printed_fields (fields_of (named_trees fields.now)) no_members)) }
{
    let mut values = Map::new(alloc);
    for (name, item) in fields {
        put(&mut values, alloc, name.as_str(), data_value(alloc, item)?)?;
    }
    Ok(Value::Object(values))
}
