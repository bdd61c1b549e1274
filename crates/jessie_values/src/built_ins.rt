//! The built-in functions that ask nothing of the host; of their arguments a missing one is null,
//! and a surplus one is dropped.
ghost use Rattle.std.specs.Prelude.{◌≡◌, IfOk, Ok, map, pos};
ghost use Rattle.std.specs.Vec.Iter.{into_iter_items};
ghost use Rattle.host_data.specs.Tree.{number, text};
ghost use Rattle.host_data.specs.View.{fields_of, named_trees, tree, trees};
ghost use Rattle.jessie_values.specs.BuiltIns.{after_first, changed_field, changed_item, first, harden, keys, keys_in, len, length_in, push, pushed, put, replaced, replaced_field, replaced_item};
ghost use Rattle.jessie_values.specs.Outcomes.{Gives, seen};

use crate::parts::{into_items, place_in, place_of, set_item, set_second};
use crate::reasons::{Reason, ValueFault};
use crate::records::{array_data, within_depth};
use host_data::data::Data;
use host_data::host_text_lib::text::Text;
use std::alloc::{AllocError, Global};
use std::vec::IntoIter;

/// The next argument, null where it is missing.
pub(crate) fn next_argument(args: &mut IntoIter<Data>) -> Data
    ensures value { tree result ≡ first (trees (into_iter_items args.old)) }
    ensures others { trees (into_iter_items args.new) ≡ after_first (trees (into_iter_items args.old)) }
{
    match args.next() {
        Some(value) => value,
        None => Data::Null,
    }
}

/// `harden(value)`: the value.
pub fn harden(args: Vec<Data>) -> Data
    ensures { harden (trees args.items) ≡ Ok (tree result) }
{
    next_argument(&mut args.into_iter())
}

/// `len(value)`: how many elements, fields or bytes it has.
pub fn len(args: Vec<Data>) -> Result<Data, Reason>
    ensures { seen tree result ≡ len (trees args.items) }
{
    let value = next_argument(&mut args.into_iter());
    length_in(&value)
}

fn length_in(value: &Data) -> Result<Data, Reason>
    ensures { seen tree result ≡ length_in (tree value.now) }
{
    match value {
        Data::Text(text) => Ok(count_data(text.len())),
        Data::Array(items) => Ok(count_data(items.len())),
        Data::Record(fields) => Ok(count_data(fields.len())),
        _ => Err(Reason::WrongKind),
    }
}

fn count_data(count: usize) -> Data
    ensures { tree result ≡ number (pos count) }
{
    Data::Number(count as i128)
}

/// `keys(value)`: the names of a record's fields, in byte order.
pub fn keys(alloc: Global, args: Vec<Data>) -> Result<Data, ValueFault>
    ensures { Gives tree result (keys (trees args.items)) }
{
    let value = next_argument(&mut args.into_iter());
    keys_in(alloc, &value)
}

fn keys_in(alloc: Global, value: &Data) -> Result<Data, ValueFault>
    ensures { Gives tree result (keys_in (tree value.now)) }
{
    match value.fields() {
        Some(fields) => Ok(Data::Array(names_of(alloc, fields)?)),
        None => Err(ValueFault::BadStep(Reason::WrongKind)),
    }
}

fn names_of(alloc: Global, fields: &[(Text, Data)]) -> Result<Vec<Data>, AllocError>
    ensures { IfOk result (λ names. trees names.items ≡ map (λ m. text m.0) (named_trees fields.now)) }
{
    let mut names = Vec::new(alloc);
    for (name, _) in fields {
        names.push(Data::Text(name.copy(alloc)?))?;
    }
    Ok(names)
}

/// `push(array, value)`: the array with one part more.
pub fn push(args: Vec<Data>) -> Result<Data, ValueFault>
    ensures { Gives tree result (push (trees args.items)) }
{
    let mut args = args.into_iter();
    let array = next_argument(&mut args);
    push_value(array, next_argument(&mut args))
}

fn push_value(array: Data, value: Data) -> Result<Data, ValueFault>
    ensures { Gives tree result (pushed (tree array) (tree value)) }
{
    let Some(mut items) = into_items(array) else {
        return Err(ValueFault::BadStep(Reason::WrongKind));
    };
    items.push(value)?;
    match array_data(items) {
        Ok(array) => Ok(array),
        Err(reason) => Err(ValueFault::BadStep(reason)),
    }
}

/// `put(target, index, value)`: the array, or the record, with one part changed that is there.
pub fn put(args: Vec<Data>) -> Result<Data, Reason>
    ensures { seen tree result ≡ put (trees args.items) }
{
    let mut args = args.into_iter();
    let target = next_argument(&mut args);
    let index = next_argument(&mut args);
    replace_part(target, &index, next_argument(&mut args))
}

/// The array, or the record, with one part changed.
fn replace_part(target: Data, index: &Data, value: Data) -> Result<Data, Reason>
    ensures { seen tree result ≡ replaced (tree target) (tree index.now) (tree value) }
{
    match target {
        Data::Array(items) => replace_item(items, index, value),
        Data::Record(fields) => replace_field(fields, index, value),
        _ => Err(Reason::WrongKind),
    }
}

fn replace_item(items: Vec<Data>, index: &Data, value: Data) -> Result<Data, Reason>
    ensures { seen tree result ≡ replaced_item (trees items.items) (tree index.now) (tree value) }
{
    match index.number() {
        Some(index) => set_item_at(items, index, value),
        None => Err(Reason::WrongKind),
    }
}

fn set_item_at(mut items: Vec<Data>, index: i128, value: Data) -> Result<Data, Reason>
    ensures { seen tree result ≡ changed_item (trees items.items) index (tree value) }
{
    match place_in(items.len(), index) {
        Some(place) => {
            set_item(&mut items, place, value);
            array_data(items)
        }
        None => Err(Reason::NoField),
    }
}

fn replace_field(fields: Vec<(Text, Data)>, index: &Data, value: Data) -> Result<Data, Reason>
    ensures { seen tree result
        ≡ replaced_field (fields_of (named_trees fields.items)) (tree index.now) (tree value) }
{
    match index.text() {
        Some(name) => set_field(fields, name.as_str(), value),
        None => Err(Reason::WrongKind),
    }
}

fn set_field(mut fields: Vec<(Text, Data)>, name: &str, value: Data) -> Result<Data, Reason>
    ensures { seen tree result
        ≡ changed_field (fields_of (named_trees fields.items)) name.now (tree value) }
{
    match place_of(fields.as_slice(), name) {
        Some(place) => {
            set_second(&mut fields, place, value);
            within_depth(Data::Record(fields))
        }
        None => Err(Reason::NoField),
    }
}
