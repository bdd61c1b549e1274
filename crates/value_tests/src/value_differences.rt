//! What one value has of each element more than another of its kind, where neither needs to contain the
//! other (ERTP's subtraction, cut off at nothing). Its one contract: the content that is left is the
//! difference of the two, element by element.

ghost use Rattle.std.specs.Prelude.{◌≡◌, ◌≢◌, ◌-◌, IfOk, map};
ghost use Rattle.refusals.specs.amount_math.Content.{difference, entries};
ghost use Rattle.refusals.specs.amount_math.Entries.{IsRising, tally};
ghost use Rattle.refusals.specs.amount_math.KindData.{signed};
ghost use Rattle.refusals.specs.amount_math.ValueView.{with_content};
ghost use Rattle.refusals.specs.amount_math.declared.Kind.{Kind};
ghost use Rattle.value_tests.specs.Left.{left_of};

use refusals::amount_math_lib::{AmountKind, BagKind, Entry, Key, Kind, MakeFault, SetKind, Value};
use std::alloc::{AllocError, Global};

/// How many of a key entries have.
fn count_in(entries: &[Entry], key: &Key) -> u64
    requires { IsRising entries.now }
    ensures { result ≡ tally entries.now key.now }
{
    match entries.binary_search_by(|entry| entry.key().compare(key)) {
        Ok(at) => entries[at].count(),
        Err(_) => 0,
    }
}

/// How many of its key an entry has more than others.
fn count_left(entry: &Entry, others: &[Entry]) -> u64
    requires { IsRising others.now }
    ensures { result ≡ (entry.now.1 - tally others.now entry.now.0) }
{
    entry.count().saturating_sub(count_in(others, entry.key()))
}

/// The keys of which entries have more than others.
fn keys_left(alloc: Global, entries: &[Entry], others: &[Entry]) -> Result<Vec<Key>, AllocError>
    requires { IsRising others.now }
    ensures { IfOk result (λ keys. keys.items ≡ map (λ e. e.0) (left_of others.now entries.now)) }
{
    let mut keys = Vec::new(alloc);
    for entry in entries {
        if count_left(entry, others) > 0 {
            keys.push(entry.key().copy()?)?;
        }
    }
    Ok(keys)
}

/// The keys of which entries have more than others, with how many more.
fn pairs_left(
    alloc: Global,
    entries: &[Entry],
    others: &[Entry],
) -> Result<Vec<(Key, i128)>, AllocError>
    requires { IsRising others.now }
    ensures { IfOk result (λ pairs. pairs.items ≡ map signed (left_of others.now entries.now)) }
{
    let mut pairs = Vec::new(alloc);
    for entry in entries {
        let left = count_left(entry, others);
        if left > 0 {
            pairs.push((entry.key().copy()?, i128::from(left)))?;
        }
    }
    Ok(pairs)
}

/// The entries of a value with keys.
fn entries_of(value: &Value) -> &[Entry]
    requires { value.now.kind ≢ Kind.Nat }
    ensures list { result.now ≡ entries value.now.content }
    ensures rising { IsRising result.now }
{
    match value.entries() {
        Some(entries) => entries,
        None => unreachable!(),
    }
}

/// A set less the keys of another.

fn set_left(alloc: Global, value: &Value, less: &Value) -> Result<Value, AllocError>
    requires value { value.now.kind ≡ Kind.Set }
    requires less { less.now.kind ≡ Kind.Set }
    ensures { IfOk result (λ left.
        left ≡ with_content value.now (difference value.now.content less.now.content)) }
{
    let _kind = value.kind();
    let keys = keys_left(alloc, entries_of(value), entries_of(less))?;
    match SetKind::make(keys) {
        Ok(left) => Ok(left),
        Err(MakeFault::NoMemory) => Err(AllocError),
        Err(MakeFault::BadValue) => unreachable!(),
    }
}

/// A bag less what another has of each key.

fn bag_left(alloc: Global, value: &Value, less: &Value) -> Result<Value, AllocError>
    requires value { value.now.kind ≡ Kind.Bag }
    requires less { less.now.kind ≡ Kind.Bag }
    ensures { IfOk result (λ left.
        left ≡ with_content value.now (difference value.now.content less.now.content)) }
{
    let _kind = value.kind();
    let pairs = pairs_left(alloc, entries_of(value), entries_of(less))?;
    match BagKind::make(pairs) {
        Ok(left) => Ok(left),
        Err(MakeFault::NoMemory) => Err(AllocError),
        Err(MakeFault::BadValue) => unreachable!(),
    }
}

/// A number of units less another.
fn nat_left(value: &Value, less: &Value) -> Value
    requires value { value.now.kind ≡ Kind.Nat }
    requires less { less.now.kind ≡ Kind.Nat }
    ensures { result ≡ with_content value.now (difference value.now.content less.now.content) }
{
    match (value.number(), less.number()) {
        (Some(number), Some(other)) => Value::nat(number.saturating_sub(other)),
        _ => unreachable!(),
    }
}

/// What a value has more than another of its kind. Keys take memory.
pub fn difference(alloc: Global, value: &Value, less: &Value) -> Result<Value, AllocError>
    requires { value.now.kind ≡ less.now.kind }
    ensures { IfOk result (λ left.
        left ≡ with_content value.now (difference value.now.content less.now.content)) }
{
    match value.kind() {
        Kind::Nat => Ok(nat_left(value, less)),
        Kind::Set => set_left(alloc, value, less),
        Kind::Bag => bag_left(alloc, value, less),
    }
}
