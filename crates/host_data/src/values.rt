//! Values and amounts as data. Its one contract: the data is what the definition says.

ghost use Rattle.std.specs.Prelude.{◌≡◌, ◌≢◌, ◌++◌, ◌∷◌, [], IfOk, OnOk, map};
ghost use Rattle.host_data.specs.Tree.{array, text};
ghost use Rattle.host_data.specs.View.{items_of, named_trees, tree, trees};
ghost use Rattle.host_data.specs.Values.{amount_tree, counted_tree, key_tree, object_tree, value_tree};

use crate::data::{Data, Obj, ObjKind};
use amount_math::{Entry, Key, Kind, Value};
use host_text::text::Text;
use std::alloc::{AllocError, Global};

/// An object, as data.
pub fn object_data(kind: ObjKind, number: u32) -> Data
    ensures { tree result ≡ object_tree kind number }
{
    Data::Object(Obj { kind, number })
}

/// Puts a field at the end of a record that is being made.
pub fn put(
    alloc: Global,
    fields: &mut Vec<(Text, Data)>,
    name: &str,
    value: Data,
) -> Result<(), AllocError>
    ensures { OnOk result (named_trees fields.new.items ≡ named_trees fields.old.items ++ (name.now, tree value) ∷ []) }
{
    let name = Text::from_str(alloc, name)?;
    fields.push((name, value))?;
    Ok(())
}

/// Two as an array's parts.
pub fn two(alloc: Global, first: Data, second: Data) -> Result<Vec<Data>, AllocError>
    ensures { IfOk result (λ made. trees made.items ≡ tree first ∷ tree second ∷ []) }
{
    let mut made = Vec::with_capacity(alloc, 2)?;
    made.push_reserved(first);
    made.push_reserved(second);
    Ok(made)
}

fn key_data(alloc: Global, key: &Key) -> Result<Data, AllocError>
    ensures { IfOk result (λ made. tree made ≡ text key.now) }
{
    Ok(Data::Text(Text::from_str(alloc, key.as_str())?))
}

/// A key with its count, as a pair.
fn counted_data(alloc: Global, entry: &Entry) -> Result<Data, AllocError>
    ensures { IfOk result (λ made. tree made ≡ counted_tree entry.now) }
{
    let count = Data::Number(i128::from(entry.count()));
    let pair = two(alloc, key_data(alloc, entry.key())?, count)?;
    Ok(Data::Array(pair))
}

/// The keys, in their order.
fn keys_data(alloc: Global, entries: &[Entry]) -> Result<Vec<Data>, AllocError>
    ensures { IfOk result (λ made. trees made.items ≡ map key_tree entries.now) }
{
    let mut made = Vec::new(alloc);
    for entry in entries {
        made.push(key_data(alloc, entry.key())?)?;
    }
    Ok(made)
}

/// The keys with their counts, in their order.
fn counts_data(alloc: Global, entries: &[Entry]) -> Result<Vec<Data>, AllocError>
    ensures { IfOk result (λ made. trees made.items ≡ map counted_tree entries.now) }
{
    let mut made = Vec::new(alloc);
    for entry in entries {
        made.push(counted_data(alloc, entry)?)?;
    }
    Ok(made)
}

/// What a set or a bag has.
fn keyed_data(alloc: Global, value: &Value) -> Result<Vec<Data>, AllocError>
    requires { value.now.kind ≢ Kind.Nat }
    ensures { IfOk result (λ made. array (items_of (trees made.items)) ≡ value_tree value.now) }
{
    let Some(entries) = value.entries() else {
        unreachable!()
    };
    match value.kind() {
        Kind::Set => keys_data(alloc, entries),
        Kind::Bag => counts_data(alloc, entries),
        Kind::Nat => unreachable!(),
    }
}

/// A value: a number, the keys of a set, or the keys of a bag with their counts.
pub fn value_data(alloc: Global, value: &Value) -> Result<Data, AllocError>
    ensures { IfOk result (λ made. tree made ≡ value_tree value.now) }
{
    match value.number() {
        Some(number) => Ok(Data::Number(number as i128)),
        None => Ok(Data::Array(keyed_data(alloc, value)?)),
    }
}

/// An amount: the brand and the value.
#[tactic(auto, unfolding(crate::specs::Values::amount_tree))]
pub fn amount_data(alloc: Global, brand: u16, value: &Value) -> Result<Data, AllocError>
    ensures { IfOk result (λ made. tree made ≡ amount_tree (record { brand = brand; value = value.now })) }
{
    let named = object_data(ObjKind::Brand(value.kind()), u32::from(brand));
    let mut fields = Vec::new(alloc);
    put(alloc, &mut fields, "brand", named)?;
    put(alloc, &mut fields, "value", value_data(alloc, value)?)?;
    Ok(Data::Record(fields))
}
