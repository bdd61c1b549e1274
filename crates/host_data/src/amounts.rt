//! Values and amounts that are read from data. The one contract of each reader: what it reads is what
//! its definition says that the data stands for.

ghost use Rattle.std.specs.Prelude.{◌≡◌, IfOk, option_and_then, option_map};
ghost use Rattle.host_data.specs.Tree.{number_of, text_of};
ghost use Rattle.host_data.specs.View.{tree, trees};
ghost use Rattle.host_data.specs.Amounts.{IsValueOf, Makes, amount_data, amount_fields, bag_in, kind_of_brand, nat_value, pair_from, pair_in, read_all, set_in, value_in};

use crate::data::{Data, ObjKind};
use amount_math::{AmountKind, BagKind, Key, Kind, MakeFault, NatKind, SetKind, Value};
use std::alloc::Global;

/// A value of the kind (ERTP): a whole number from 0 to 2^120 - 1, for a set an array of texts, for a bag
/// an array of arrays, each of a text and a count from 1 to 2^63 - 1. Texts come in any order, none twice,
/// each of 1 to 64 bytes, at most 4,096 of them (own). Else `BadValue`.
#[tactic(auto, unfolding(crate::specs::Amounts::value_in))]
pub fn read_value(alloc: Global, kind: Kind, given: &Data) -> Result<Value, MakeFault>
    ensures gives { Makes (λ value. value) result (value_in kind (tree given.now)) }
    ensures own { IfOk result (IsValueOf kind) }
{
    match kind {
        Kind::Nat => nat(given.number()),
        Kind::Set => set(alloc, given),
        Kind::Bag => bag(alloc, given),
    }
}

/// A number of units, where it is there.
fn nat(given: Option<i128>) -> Result<Value, MakeFault>
    ensures { Makes (λ value. value) result (option_and_then nat_value given) }
{
    match given {
        Some(number) => nat_of(number),
        None => Err(MakeFault::BadValue),
    }
}

/// So many units.
fn nat_of(number: i128) -> Result<Value, MakeFault>
    ensures { Makes (λ value. value) result (nat_value number) }
{
    match NatKind::make(number) {
        Ok(value) => Ok(value),
        Err(_) => Err(MakeFault::BadValue),
    }
}

/// Texts that are the keys of a set.
#[tactic(auto, unfolding(crate::specs::Amounts::set_in))]
fn set(alloc: Global, given: &Data) -> Result<Value, MakeFault>
    ensures { Makes (λ value. value) result (set_in (tree given.now)) }
{
    let Some(items) = given.items() else {
        return Err(MakeFault::BadValue);
    };
    SetKind::make(keys(alloc, items)?)
}

/// Texts with their counts.
#[tactic(auto, unfolding(crate::specs::Amounts::bag_in))]
fn bag(alloc: Global, given: &Data) -> Result<Value, MakeFault>
    ensures { Makes (λ value. value) result (bag_in (tree given.now)) }
{
    let Some(items) = given.items() else {
        return Err(MakeFault::BadValue);
    };
    BagKind::make(pairs(alloc, items)?)
}

/// The texts of an array, where all its items are texts.
fn keys(alloc: Global, items: &[Data]) -> Result<Vec<Key>, MakeFault>
    ensures { Makes (λ keys. keys.items) result (read_all text_of (trees items.now)) }
{
    let Ok(mut keys) = Vec::with_capacity(alloc, items.len()) else {
        return Err(MakeFault::NoMemory);
    };
    for item in items {
        keys.push_reserved(key(alloc, item)?);
    }
    Ok(keys)
}

/// A text.
fn key(alloc: Global, given: &Data) -> Result<Key, MakeFault>
    ensures { Makes (λ key. key) result (text_of (tree given.now)) }
{
    let Some(text) = given.text() else {
        return Err(MakeFault::BadValue);
    };
    match String::from_str(alloc, text.as_str()) {
        Ok(text) => Ok(Key::new(text)),
        Err(_) => Err(MakeFault::NoMemory),
    }
}

/// The pairs of an array, where all its items are arrays of a text and a number.
fn pairs(alloc: Global, items: &[Data]) -> Result<Vec<(Key, i128)>, MakeFault>
    ensures { Makes (λ pairs. pairs.items) result (read_all pair_in (trees items.now)) }
{
    let Ok(mut pairs) = Vec::with_capacity(alloc, items.len()) else {
        return Err(MakeFault::NoMemory);
    };
    for item in items {
        pairs.push_reserved(pair(alloc, item)?);
    }
    Ok(pairs)
}

/// A text and a number.
fn pair(alloc: Global, given: &Data) -> Result<(Key, i128), MakeFault>
    ensures { Makes (λ pair. pair) result (pair_in (tree given.now)) }
{
    let Some([first, count]) = given.items() else {
        return Err(MakeFault::BadValue);
    };
    let Some(count) = count.number() else {
        return Err(MakeFault::BadValue);
    };
    Ok((key(alloc, first)?, count))
}

/// What stands in an amount: the brand's number and kind, and the data of the value.
#[derive(Clone, Copy)]
pub struct GivenAmount<'a> {
    pub brand: u32,
    pub kind: Kind,
    pub value: &'a Data,
}

/// What stands in a record of exactly brand and value, of which the brand is one.
pub fn amount_fields(given: &Data) -> Option<GivenAmount<'_>>
    ensures { option_map amount_data result ≡ amount_fields (tree given.now) }
{
    if given.field_count() != Some(2) {
        return None;
    }
    let object = given.field("brand")?.object()?;
    let kind = kind_of_brand(object.kind)?;
    let value = given.field("value")?;
    Some(GivenAmount {
        brand: object.number,
        kind,
        value,
    })
}

/// The kind of a brand's values, where the object is a brand.
fn kind_of_brand(kind: ObjKind) -> Option<Kind>
    ensures { result ≡ kind_of_brand kind }
{
    match kind {
        ObjKind::Brand(kind) => Some(kind),
        _ => None,
    }
}
