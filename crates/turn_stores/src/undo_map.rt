//! A finite map in the order of its keys that can go back to how it was at the start of a turn. It stands
//! on nothing of this repository. Its one contract: contracts see two lists of entries in the order of
//! their keys, that of the turn's start and that of now; a change changes the one of now alone, and takes
//! the room that going back needs, so that `back` and `forget` take no memory, and cost what the turn
//! changed. A key that is taken out keeps its place until the turn's end; then each place has a value.

mod place;

ghost use Rattle.std.specs.Prelude.{◌≡◌, ◌≤◌, ◌+◌, [], Some, None, true, false, cond, is_some, IfErr, IfNone, IfSome, IsSome, OnErr, OnOk, length, vec_capacity};
ghost use Rattle.std.specs.Option.{option_copied};
ghost use Rattle.std.specs.Ordering.{is_le};
ghost use Rattle.std.specs.List.Sorted.{IsStrictlySortedBy};
ghost use Rattle.std.specs.Map.{keys_of, remove_entry};
ghost use Rattle.std.specs.BTreeMap.{IsOrdered, get, insert_entry, is_at};
ghost use Rattle.turn_stores.specs.UndoPlaces.{AreChanged, ArePlaces, empty_place, entries_of, had, has, is_listed, is_unsettled_at, settled, value_now};
ghost use Rattle.turn_stores.specs.UndoTurns.{AbsentBetween, AbsentFrom, Inserts, Updates, first_from, value_at};

use crate::undo_map::place::{End, Place};
use std::alloc::{AllocError, AllocFailed, Global};
use std::collections::BTreeMap;
use std::marker::Model;

/// A map of values by key, now and at the turn's start. Contracts see both, as lists in the order of
/// the keys (specs/UndoTurns.antt).
#[derive(Drop)]
pub struct UndoMap<K: Ord + Copy, V> {
    /// A key's place is there while the key has a value, or since it was changed in this turn.
    places: BTreeMap<K, Place<V>>,
    /// The keys that were changed in this turn.
    changed: Vec<K>,
}

impl<K: Ord + Copy, V> Model for UndoMap<K, V> {
    ghost use Rattle.std.specs.Prelude.{vec_capacity};
    ghost use Rattle.turn_stores.specs.UndoTurns.{Turn};

    ghost Value = { Turn K V };

    ghost use Rattle.turn_stores.specs.UndoPlaces.{AreChanged, ArePlaces, entries_of, had, has};

    ghost view = { λ m. record { start = entries_of had m.places.entries; now = entries_of has m.places.entries } };

    ghost invariant = { λ m. ArePlaces K.cmp m.places.entries m.changed.items (vec_capacity m.changed) };
}

impl<K: Ord + Copy, V: Drop> UndoMap<K, V> {
    /// The empty map.
    pub fn new(alloc: Global) -> UndoMap<K, V>
        ensures start { result.start ≡ [] }
        ensures now { result.now ≡ [] }
    {
        UndoMap {
            places: BTreeMap::new(alloc),
            changed: Vec::new(alloc),
        }
    }

    /// Does nothing: it tells its caller that both lists are in the order of their keys, with each key
    /// once.
    pub fn keeps_order(&self)
        ensures start { IsStrictlySortedBy K.cmp (keys_of self.now.start) }
        ensures now { IsStrictlySortedBy K.cmp (keys_of self.now.now) }
    {
        let _ = &self.places;
    }

    /// What a key has now.
    pub fn get(&self, key: K) -> Option<&V>
        ensures { option_copied result ≡ value_at K.cmp self.now.now key }
    {
        match self.places.get(&key) {
            Some(place) => place.now.as_ref(),
            None => None,
        }
    }

    /// Gives a key a value, in place of what it had. Only a key that has no value, neither now nor at the
    /// turn's start, can want memory: then the value comes back, and all is as before. The list of now is
    /// told whole where the order tells all keys apart, as that of numbers does, and else key by key.
    pub fn put(&mut self, key: K, value: V) -> Result<(), AllocFailed<V>>
        ensures ok { OnOk result (Updates K.cmp self.old.now self.new.now key (Some value)) }
        ensures now { OnOk result (Inserts K.cmp self.old.now self.new.now key value) }
        ensures start { self.new.start ≡ self.old.start }
        ensures absent { OnErr result (value_at K.cmp self.old.now key ≡ None) }
        ensures was_absent { OnErr result (value_at K.cmp self.old.start key ≡ None) }
        ensures returned { IfErr result (λ failed. failed.value ≡ value) }
        ensures err { OnErr result (self.new ≡ self.old) }
    {
        let Ok(()) = ensure_place(&mut self.places, &mut self.changed, key) else {
            return Err(AllocFailed { value });
        };
        change(&mut self.places, &mut self.changed, key, Some(value));
        Ok(())
    }

    /// Takes a key out, and answers whether it had a value. What it had at the turn's start is kept.
    pub fn take_out(&mut self, key: K) -> bool
        ensures now { self.new.now ≡ remove_entry (is_at (K.cmp key)) self.old.now }
        ensures values { Updates K.cmp self.old.now self.new.now key None }
        ensures start { self.new.start ≡ self.old.start }
        ensures was { result ≡ is_some (value_at K.cmp self.old.now key) }
    {
        let had = has_value(&self.places, key);
        if had {
            change(&mut self.places, &mut self.changed, key, None);
        }
        had
    }

    /// The first key that is at least this one and has a value now. It passes over the places of keys
    /// that this turn took out.
    pub fn next(&self, key: K) -> Option<K>
        ensures key { result ≡ first_from K.cmp key self.now.now }
        ensures there { IfSome result (λ found. IsSome (value_at K.cmp self.now.now found)) }
        ensures at_least { IfSome result (λ found. is_le (K.cmp key found) ≡ true) }
        ensures first { IfSome result (λ found. AbsentBetween K.cmp self.now.now key found) }
        ensures none { IfNone result (AbsentFrom K.cmp self.now.now key) }
    {
        first_key(&self.places, key)
    }

    /// Goes back to how the map was at the turn's start.
    pub fn back(&mut self)
        ensures { self.new ≡ record self.old { now = self.old.start } }
    {
        settle_all(&mut self.places, self.changed.as_slice(), End::Back);
        self.changed.clear();
    }

    /// Forgets how the map was: what is now is kept.
    pub fn forget(&mut self)
        ensures { self.new ≡ record self.old { start = self.old.now } }
    {
        settle_all(&mut self.places, self.changed.as_slice(), End::Forget);
        self.changed.clear();
    }
}

fn copied<K: Copy>(key: &K) -> K
    ensures { result ≡ key.now }
{
    *key
}

/// Whether a key has a value now.
fn has_value<K: Ord + Copy, V: Drop>(places: &BTreeMap<K, Place<V>>, key: K) -> bool
    requires ordered { IsOrdered K.cmp places.now }
    ensures has { result ≡ is_some (value_now K.cmp places.now.entries key) }
    ensures made { result ≡ true → IsSome (get K.cmp places.now key) }
{
    match places.get(&key) {
        Some(place) => place.now.is_some(),
        None => false,
    }
}

/// The first key that is at least this one and has a value now.
fn first_key<K: Ord + Copy, V: Drop>(places: &BTreeMap<K, Place<V>>, key: K) -> Option<K>
    ensures { result ≡ first_from K.cmp key (entries_of has places.now.entries) }
{
    for (at, place) in places.range(key..) {
        if place.now.is_some() {
            return Some(copied(at));
        }
    }
    None
}

/// Makes a place for a key that has none yet. On an error there is at most more room.
fn ensure_place<K: Ord + Copy, V: Drop>(
    places: &mut BTreeMap<K, Place<V>>,
    changed: &mut Vec<K>,
    key: K,
) -> Result<(), AllocError>
    requires places { ArePlaces K.cmp places.old.entries changed.old.items (vec_capacity changed.old) }
    ensures places { ArePlaces K.cmp places.new.entries changed.new.items (vec_capacity changed.new) }
    ensures start { entries_of had places.new.entries ≡ entries_of had places.old.entries }
    ensures now { entries_of has places.new.entries ≡ entries_of has places.old.entries }
    ensures made { OnOk result (IsSome (get K.cmp places.new key)) }
    ensures absent { OnErr result (get K.cmp places.old key ≡ None) }
{
    if places.contains_key(&key) {
        return Ok(());
    }
    make_place(places, changed, key)
}

/// Makes a place for a key, without a value, and lists it. On an error there is at most more room.
fn make_place<K: Ord + Copy, V: Drop>(
    places: &mut BTreeMap<K, Place<V>>,
    changed: &mut Vec<K>,
    key: K,
) -> Result<(), AllocError>
    requires places { ArePlaces K.cmp places.old.entries changed.old.items (vec_capacity changed.old) }
    requires absent { get K.cmp places.old key ≡ None }
    ensures places { ArePlaces K.cmp places.new.entries changed.new.items (vec_capacity changed.new) }
    ensures start { entries_of had places.new.entries ≡ entries_of had places.old.entries }
    ensures now { entries_of has places.new.entries ≡ entries_of has places.old.entries }
    ensures made { OnOk result (IsSome (get K.cmp places.new key)) }
{
    let Ok(()) = changed.reserve(places.len() + 1) else {
        return Err(AllocError);
    };
    let Ok(()) = insert_place(places, key) else {
        return Err(AllocError);
    };
    changed.push_reserved(key);
    Ok(())
}

/// Puts in the place of a key that has none.
fn insert_place<K: Ord + Copy, V: Drop>(
    places: &mut BTreeMap<K, Place<V>>,
    key: K,
) -> Result<(), AllocError>
    requires absent { get K.cmp places.old key ≡ None }
    ensures entries { OnOk result (places.new.entries ≡ insert_entry K.cmp places.old.entries key empty_place) }
    ensures looks { OnOk result ((q : K) → get K.cmp places.new q ≡ cond (is_at (K.cmp key) q) (Some empty_place) (get K.cmp places.old q)) }
    ensures len { OnOk result (length places.new.entries ≡ length places.old.entries + 1) }
    ensures ordered { IsOrdered K.cmp places.new }
    ensures err { OnErr result (places.new.entries ≡ places.old.entries) }
{
    let inserted = places.insert(key, Place::empty());
    let is_made = inserted.is_ok();
    drop(inserted);
    if !is_made {
        return Err(AllocError);
    }
    Ok(())
}

/// Gives a key that has a place a value, or none.
fn change<K: Ord + Copy, V: Drop>(
    places: &mut BTreeMap<K, Place<V>>,
    changed: &mut Vec<K>,
    key: K,
    value: Option<V>,
)
    requires places { ArePlaces K.cmp places.old.entries changed.old.items (vec_capacity changed.old) }
    requires made { IsSome (get K.cmp places.old key) }
    ensures places { ArePlaces K.cmp places.new.entries changed.new.items (vec_capacity changed.new) }
    ensures start { entries_of had places.new.entries ≡ entries_of had places.old.entries }
    ensures values { (q : K) → value_now K.cmp places.new.entries q ≡ cond (is_at (K.cmp key) q) value (value_now K.cmp places.old.entries q) }
    ensures now { AreChanged K.cmp key value (entries_of has places.old.entries) (entries_of has places.new.entries) }
{
    let Some(place) = places.get_mut(&key) else {
        return;
    };
    if place.change(value) {
        changed.push_reserved(key);
    }
}

/// Ends the turn at each of these keys, which are all that have changed.
fn settle_all<K: Ord + Copy, V: Drop>(places: &mut BTreeMap<K, Place<V>>, changed: &[K], end: End)
    requires ordered { IsOrdered K.cmp places.old }
    requires listed { (q : K) → is_unsettled_at (get K.cmp places.old q) ≡ true → is_listed K.cmp q changed.now ≡ true }
    ensures ordered { IsOrdered K.cmp places.new }
    ensures entries { entries_of (settled end) places.new.entries ≡ entries_of (settled end) places.old.entries }
    ensures settled { (q : K) → is_unsettled_at (get K.cmp places.new q) ≡ false }
    ensures few { length places.new.entries ≤ length places.old.entries }
{
    for key in changed {
        settle(places, *key, end);
    }
}

/// Ends the turn at one key.
fn settle<K: Ord + Copy, V: Drop>(places: &mut BTreeMap<K, Place<V>>, key: K, end: End)
    requires ordered { IsOrdered K.cmp places.old }
    ensures ordered { IsOrdered K.cmp places.new }
    ensures entries { entries_of (settled end) places.new.entries ≡ entries_of (settled end) places.old.entries }
    ensures settled { (q : K) → is_at (K.cmp key) q ≡ true → is_unsettled_at (get K.cmp places.new q) ≡ false }
    ensures others { (q : K) → is_at (K.cmp key) q ≡ false → get K.cmp places.new q ≡ get K.cmp places.old q }
    ensures few { length places.new.entries ≤ length places.old.entries }
{
    let Some(place) = places.get_mut(&key) else {
        return;
    };
    if !place.settle(end) {
        drop(places.remove(&key));
    }
}
