//! The places of the keys of a brand, in a map that costs its depth for each key.

ghost use Rattle.std.specs.Prelude.{◌≡◌, ◌≢◌, ◌≤◌, ◌<◌, ℕ, List, IfSome, IsNone, IsSome, OnErr, OnOk, length};
ghost use Rattle.std.specs.BTreeMap.{get_by_text};
ghost use Rattle.ertp_mint.specs.Places.{Allows, AllowsEach, AreChanged, AreSame, IsChanged, place_in, together};

use crate::place::{Change, Place};
use amount_math::Entry;
use std::alloc::{AllocError, Global};
use std::collections::BTreeMap;

/// The places by the keys' texts.
pub(crate) type Places = BTreeMap<String, Place>;

/// A key's counts.
pub(crate) fn place_of(places: &Places, key: &str) -> Place
    ensures { result ≡ place_in places.now.entries key.now }
{
    match places.get(key) {
        Some(place) => *place,
        None => Place::empty(),
    }
}

/// The index of the first entry of whose key there would be too many with what is out.
pub(crate) fn first_past(places: &Places, entries: &[Entry], most: u64) -> Option<usize>
    requires within { (k : List ℕ) → (place_in places.now.entries k).out ≤ most }
    ensures none { IsNone result → (j : ℕ) → j < length entries.now → together places.now.entries entries.now j ≤ most }
    ensures found { IfSome result (λ i. i < length entries.now) }
    ensures past { IfSome result (λ i. most < together places.now.entries entries.now i) }
    ensures before { IfSome result (λ i. (j : ℕ) → j < i → together places.now.entries entries.now j ≤ most) }
{
    for (i, entry) in entries.iter().enumerate() {
        let held = place_of(places, entry.key().as_str());
        if held.out + u128::from(entry.count()) > u128::from(most) {
            return Some(i);
        }
    }
    None
}

/// Puts an empty place in for a key that has none.
fn insert_place(places: &mut Places, alloc: Global, key: &str) -> Result<(), AllocError>
    requires absent { get_by_text places.old key.now ≡ None }
    ensures same { AreSame places.old.entries places.new.entries }
    ensures made { OnOk result (IsSome (get_by_text places.new key.now)) }
{
    let text = String::from_str(alloc, key)?;
    match places.insert(text, Place::empty()) {
        Ok(_) => Ok(()),
        Err(_) => Err(AllocError),
    }
}

/// Makes sure that a key has a place. The counts stay.
fn make_place(places: &mut Places, alloc: Global, key: &str) -> Result<(), AllocError>
    ensures same { AreSame places.old.entries places.new.entries }
    ensures made { OnOk result (IsSome (get_by_text places.new key.now)) }
{
    if places.contains_key(key) {
        return Ok(());
    }
    insert_place(places, alloc, key)
}

/// Counts so many of a key in or out. A place that has nothing then goes.
pub(crate) fn change_at(places: &mut Places, change: Change, key: &str, count: u128)
    requires allowed { Allows change count (place_in places.old.entries key.now) }
    requires there { change ≡ Change.Issue → IsSome (get_by_text places.old key.now) }
    ensures { IsChanged change key.now count places.old.entries places.new.entries }
{
    let Some(place) = places.get_mut(key) else {
        return;
    };
    place.change(change, count);
    if place.is_empty() {
        drop(places.remove(key));
    }
}

/// Counts so many of a key as out, or changes nothing.
pub(crate) fn issue_at(
    places: &mut Places,
    alloc: Global,
    key: &str,
    count: u128,
) -> Result<(), AllocError>
    requires fits { Allows Change.Issue count (place_in places.old.entries key.now) }
    ensures ok { OnOk result (IsChanged Change.Issue key.now count places.old.entries places.new.entries) }
    ensures err { OnErr result (AreSame places.old.entries places.new.entries) }
{
    make_place(places, alloc, key)?;
    change_at(places, Change::Issue, key, count);
    Ok(())
}

/// Counts all the entries in or out, which takes no memory.
pub(crate) fn change_all(places: &mut Places, change: Change, entries: &[Entry])
    requires other { change ≢ Change.Issue }
    requires allowed { AllowsEach change entries.now places.old.entries }
    ensures { AreChanged change entries.now places.old.entries places.new.entries }
{
    for entry in entries {
        change_at(
            places,
            change,
            entry.key().as_str(),
            u128::from(entry.count()),
        );
    }
}

/// Counts all the entries as out, or changes nothing.
pub(crate) fn issue_all(
    places: &mut Places,
    alloc: Global,
    entries: &[Entry],
) -> Result<(), AllocError>
    requires fits { AllowsEach Change.Issue entries.now places.old.entries }
    ensures ok { OnOk result (AreChanged Change.Issue entries.now places.old.entries places.new.entries) }
    ensures err { OnErr result (AreSame places.old.entries places.new.entries) }
{
    for (i, entry) in entries.iter().enumerate() {
        let key = entry.key().as_str();
        let Ok(()) = issue_at(places, alloc, key, u128::from(entry.count())) else {
            change_all(places, Change::UndoIssue, &entries[..i]);
            return Err(AllocError);
        };
    }
    Ok(())
}
