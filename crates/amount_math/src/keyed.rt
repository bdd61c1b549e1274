//! Keyed contents: what a set or a bag has.

ghost use Rattle.std.specs.Prelude.{◌≡◌, ◌+◌, ◌<◌, ◌≤◌, ◌↔◌, ℕ, List, IfOk, IfErr, IfSome, IsErr, IsNone, IsOk, OnOk, OnErr, IsTrue};
ghost use Rattle.std.specs.List.Sorted.{IsPermutation};
ghost use Rattle.amount_math.specs.Content.{Contains, Content, count, difference, entries, nothing, of_entries, one_of, sum};
ghost use Rattle.amount_math.specs.Counted.{counted};
ghost use Rattle.amount_math.specs.Entries.{AreEntries, IsKey, most_of_key};
ghost use Rattle.amount_math.specs.ValueView.{Fits, IsBag, IsCountRefusal, keys_of, most_keys};
ghost use Rattle.amount_math.specs.declared.Kind.{Kind};

use crate::in_place::put_all;
use crate::made::{are_all, first_unordered};
use crate::merges::{copied, lessen, merge};
use crate::{COUNT_BOUND, Entry, KEYS_BOUND, Key, PutFault, TooMuch, entries};
use std::alloc::{AllocError, Global};
use std::marker::Model;

/// Keys with their counts, as entries in byte order of the keys. It is `None` where nothing was ever
/// put in, so that an empty one wants no allocator. Contracts see the content, and for how many keys
/// there is room.
pub(crate) struct Keyed {
    entries: Option<Vec<Entry>>,
}

impl Drop for Keyed {
    fn drop(self) {
        let Keyed { entries: _ } = self;
    }
}

impl Model for Keyed {
    ghost use Rattle.amount_math.specs.Content.{of_entries};
    ghost use Rattle.amount_math.specs.Entries.{AreEntries, listing, room_of};
    ghost use Rattle.amount_math.specs.Held.{Roomed, coded_roomed};

    ghost Value = { Roomed };

    ghost coded = { coded_roomed };

    ghost view = { λ a. record { content = of_entries (listing a.entries); room = room_of a.entries } };

    ghost invariant = { λ a. AreEntries (listing a.entries) };
}

impl Keyed {
    pub fn empty() -> Keyed
        ensures { result ≡ record { content = nothing; room = 0 } }
    {
        Keyed { entries: None }
    }

    /// One key, once, or the key handed back where memory is wanted.
    pub fn one(alloc: Global, key: Key) -> Result<Keyed, Key>
        requires { IsKey key }
        ensures ok { IfOk result (λ one. one.content ≡ one_of key) }
        ensures back { IfErr result (λ back. back ≡ key) }
    {
        let mut entries = Vec::new(alloc);
        match entries.push(Entry::new(key, 1)) {
            Ok(()) => Ok(Keyed {
                entries: Some(entries),
            }),
            Err(failed) => Err(failed.value.into_key()),
        }
    }

    /// The content of entries in any order, or `None` where they are those of no bag.
    pub fn of(mut given: Vec<Entry>) -> Option<Keyed>
        ensures some { IfSome result (λ keyed. IsPermutation given.items (entries keyed.content)) }
        ensures value { IfSome result (λ keyed. IsBag keyed.content) }
        ensures none { IsNone result → (c : Content) → IsBag c → ¬ IsPermutation given.items (entries c) }
    {
        if given.len() > KEYS_BOUND as usize {
            return None;
        }
        if !are_all(&given) {
            return None;
        }
        given.sort_unstable_by(|left, right| left.order(right));
        match first_unordered(&given) {
            Some(_) => None,
            None => Some(Keyed {
                entries: Some(given),
            }),
        }
    }

    /// The entries, in byte order of their keys.
    pub fn entries(&self) -> &[Entry]
        ensures list { result.now ≡ entries self.now.content }
        ensures entries { AreEntries result.now }
        ensures content { of_entries result.now ≡ self.now.content }
    {
        match &self.entries {
            Some(entries) => entries,
            None => &[],
        }
    }

    /// A second one, which takes memory where there is a key.
    pub fn copy(&self) -> Result<Keyed, AllocError>
        ensures { IfOk result (λ copy. copy.content ≡ self.now.content) }
    {
        let entries = match &self.entries {
            Some(entries) => Some(copied(entries)?),
            None => None,
        };
        Ok(Keyed { entries })
    }

    pub fn is_empty(&self) -> bool
        ensures { IsTrue result ↔ (self.now.content ≡ nothing) }
    {
        self.entries().is_empty()
    }

    pub fn total(&self) -> u128
        ensures { result ≡ counted self.now.content }
    {
        entries::total(self.entries())
    }

    pub fn contains(&self, part: &Keyed) -> bool
        ensures { IsTrue result ↔ Contains self.now.content part.now.content }
    {
        entries::contains(self.entries(), part.entries())
    }

    /// That both have no key in common, or the least that they have.
    pub fn overlap(&self, more: &Keyed) -> Result<(), PutFault>
        requires { Fits Kind.Set self.now.content }
        ensures ok { IsOk result → Fits Kind.Set (sum self.now.content more.now.content) }
        ensures sure { Fits Kind.Set (sum self.now.content more.now.content) → IsOk result }
        ensures refused { IfErr result (IsCountRefusal Kind.Set (sum self.now.content more.now.content)) }
    {
        let others = more.entries();
        let Some(at) = entries::first_past(self.entries(), others, 1) else {
            return Ok(());
        };
        match others[at].key().copy() {
            Ok(key) => Err(PutFault::Overlap(key)),
            Err(_) => Err(PutFault::NoMemory),
        }
    }

    /// That no count of both together passes a bag's bound, or the first that does.
    pub fn excess(&self, more: &Keyed) -> Result<(), PutFault>
        requires { Fits Kind.Bag self.now.content }
        ensures ok { IsOk result → Fits Kind.Bag (sum self.now.content more.now.content) }
        ensures sure { Fits Kind.Bag (sum self.now.content more.now.content) → IsOk result }
        ensures refused { IfErr result (IsCountRefusal Kind.Bag (sum self.now.content more.now.content)) }
    {
        let held = self.entries();
        let others = more.entries();
        let Some(at) = entries::first_past(held, others, COUNT_BOUND) else {
            return Ok(());
        };
        let entry = &others[at];
        let sum = u128::from(entries::count_of(held, entry.key())) + u128::from(entry.count());
        let bound = u128::from(COUNT_BOUND);
        Err(PutFault::TooMuch(TooMuch { sum, bound }))
    }

    /// That both together have few enough keys, or how many they have.
    pub fn few_with(&self, more: &Keyed) -> Result<(), TooMuch>
        ensures ok { IsOk result → keys_of (sum self.now.content more.now.content) ≤ most_keys }
        ensures too_many { IfErr result (λ over. over ≡ record { sum = keys_of (sum self.now.content more.now.content); bound = most_keys }) }
        ensures past { IsErr result → most_keys < keys_of (sum self.now.content more.now.content) }
    {
        let sum = entries::keys_together(self.entries(), more.entries());
        if sum > KEYS_BOUND {
            let bound = KEYS_BOUND;
            return Err(TooMuch { sum, bound });
        }
        Ok(())
    }

    /// Takes over all the other's entries, or leaves both as they were.
    pub fn absorb(&mut self, other: &mut Keyed) -> Result<(), AllocError>
        requires { (k : List ℕ) → count (sum self.old.content other.old.content) k ≤ most_of_key }
        ensures ok { OnOk result (self.new.content ≡ sum self.old.content other.old.content) }
        ensures taken { OnOk result (other.new.content ≡ nothing) }
        ensures err { OnErr result ((self.new ≡ self.old) × (other.new ≡ other.old)) }
    {
        let Some(held) = &mut self.entries else {
            std::mem::swap(self, other);
            return Ok(());
        };
        let Some(more) = &mut other.entries else {
            return Ok(());
        };
        merge(held, more)
    }

    /// Takes away what it is known to contain, which takes no memory.
    pub fn lessen(&mut self, part: &Keyed)
        requires { Contains self.old.content part.now.content }
        ensures { self.new ≡ record self.old { content = difference self.old.content part.now.content } }
    {
        let Some(entries) = &mut self.entries else {
            return;
        };
        lessen(entries, part.entries());
    }

    /// How many keys it has.
    pub fn keys(&self) -> usize
        ensures keys { result ≡ keys_of self.now.content }
        ensures room { result ≤ self.now.room }
    {
        match &self.entries {
            Some(entries) => entries.len(),
            None => 0,
        }
    }

    /// Takes room for so many keys more.
    pub fn reserve(&mut self, alloc: Global, keys: usize) -> Result<(), AllocError>
        ensures same { self.new.content ≡ self.old.content }
        ensures ok { OnOk result (keys_of self.old.content + keys ≤ self.new.room) }
        ensures room { self.old.room ≤ self.new.room }
        ensures there { keys_of self.old.content + keys ≤ self.old.room → IsOk result }
        ensures err { OnErr result (self.new ≡ self.old) }
    {
        let Some(entries) = &mut self.entries else {
            self.entries = Some(Vec::with_capacity(alloc, keys)?);
            return Ok(());
        };
        entries.reserve(keys)
    }

    /// Takes room for another's keys that it hasn't yet.
    pub fn make_room_for(&mut self, alloc: Global, more: &Keyed) -> Result<(), AllocError>
        ensures same { self.new.content ≡ self.old.content }
        ensures ok { OnOk result (keys_of (sum self.old.content more.now.content) ≤ self.new.room) }
        ensures room { self.old.room ≤ self.new.room }
        ensures there { keys_of (sum self.old.content more.now.content) ≤ self.old.room → IsOk result }
        ensures err { OnErr result (self.new ≡ self.old) }
    {
        let keys = entries::new_keys(self.entries(), more.entries());
        self.reserve(alloc, keys)
    }

    /// Adds another within the room, which takes no memory.
    pub fn put_back(&mut self, other: Keyed)
        requires within { (k : List ℕ) → count (sum self.old.content other.content) k ≤ most_of_key }
        requires room { keys_of (sum self.old.content other.content) ≤ self.old.room }
        ensures { self.new ≡ record self.old { content = sum self.old.content other.content } }
    {
        let Keyed { entries } = other;
        let Some(more) = entries else {
            return;
        };
        let Some(held) = &mut self.entries else {
            return;
        };
        put_all(held, more);
    }
}
