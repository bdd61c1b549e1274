//! Keys, and keys with their counts.

ghost use Rattle.std.specs.Prelude.{◌≡◌, ◌+◌, ◌-◌, ◌<◌, ◌≤◌, ◌^◌, ◌↔◌, IfOk, IsTrue, nat_eq, string_bytes};
ghost use Rattle.std.specs.Cmp.{partial_equiv_from_equiv};
ghost use Rattle.std.specs.Cmp.Lexicographic.{nat_list_eq_equiv, pointwise};
ghost use Rattle.amount_math.specs.Content.{key_cmp};
ghost use Rattle.amount_math.specs.Entries.{IsEntry, IsKey};

use std::alloc::AllocError;
use std::cmp::Ordering;
use std::marker::Model;

/// The most bytes of a key (own).
pub const KEY_BYTES: usize = 64;

/// The highest count of a key of a bag.
pub const COUNT_BOUND: u64 = (1 << 63) - 1;

/// A text that may be a key of a set or a bag, as its bytes, by which keys are ordered. One of 1 to
/// 64 bytes is a key.
pub struct Key {
    text: String,
}

impl Drop for Key {
    fn drop(self) {
        let Key { text: _ } = self;
    }
}

impl Model for Key {
    ghost use Rattle.std.specs.Prelude.{ℕ, List, string_bytes};

    ghost Value = { List ℕ };

    ghost view = { λ a. string_bytes a.text };
}

impl Key {
    /// The text as a key.
    pub fn new(text: String) -> Key
        ensures { result ≡ string_bytes text }
    {
        Key { text }
    }

    pub fn as_str(&self) -> &str
        ensures { result.now ≡ self.now }
    {
        self.text.as_str()
    }

    /// Which of the two comes first, by their bytes.
    pub fn compare(&self, other: &Key) -> Ordering
        ensures { result ≡ key_cmp self.now other.now }
    {
        self.text.as_bytes().cmp(other.text.as_bytes())
    }

    /// Whether it has the length of a key, 1 to 64 bytes.
    pub fn is_key(&self) -> bool
        ensures { IsTrue result ↔ IsKey self.now }
    {
        0 < self.text.len() && self.text.len() <= KEY_BYTES
    }

    /// A second one, which takes memory.
    pub fn copy(&self) -> Result<Key, AllocError>
        ensures { IfOk result (λ copy. copy ≡ self.now) }
    {
        Ok(Key {
            text: self.text.clone()?,
        })
    }
}

impl PartialEq for Key {
    ghost eq = { pointwise nat_eq };

    ghost laws = { partial_equiv_from_equiv nat_list_eq_equiv };

    fn eq(&self, other: &Key) -> bool {
        self.as_str() == other.as_str()
    }
}

impl Eq for Key {
    ghost laws = { nat_list_eq_equiv };
}

/// A key with its count, of which a set has 1 each.
pub struct Entry {
    key: Key,
    count: u64,
}

impl Drop for Entry {
    fn drop(self) {
        let Entry { key: _, count: _ } = self;
    }
}

impl Model for Entry {
    ghost use Rattle.std.specs.Prelude.{ℕ, List};

    ghost Value = { List ℕ × ℕ };

    ghost view = { λ a. (a.key, a.count) };
}

impl Entry {
    pub(crate) fn new(key: Key, count: u64) -> Entry
        ensures { result ≡ (key, count) }
    {
        Entry { key, count }
    }

    pub(crate) fn into_key(self) -> Key
        ensures { result ≡ self.0 }
    {
        let Entry { key, count: _ } = self;
        key
    }

    pub fn key(&self) -> &Key
        ensures { result.now ≡ self.now.0 }
    {
        &self.key
    }

    pub fn count(&self) -> u64
        ensures { result ≡ self.now.1 }
    {
        self.count
    }

    /// Which comes first, its key or the other one.
    pub(crate) fn compare(&self, key: &Key) -> Ordering
        ensures { result ≡ key_cmp self.now.0 key.now }
    {
        self.key.compare(key)
    }

    /// Which comes first, by their keys.
    pub(crate) fn order(&self, other: &Entry) -> Ordering
        ensures { result ≡ key_cmp self.now.0 other.now.0 }
    {
        self.key.compare(&other.key)
    }

    pub(crate) fn raise(&mut self, by: u64)
        requires { self.old.1 + by < 2 ^ 64 }
        ensures { self.new ≡ (self.old.0, self.old.1 + by) }
    {
        self.count += by;
    }

    pub(crate) fn lower(&mut self, by: u64)
        requires { by ≤ self.old.1 }
        ensures { self.new ≡ (self.old.0, self.old.1 - by) }
    {
        self.count -= by;
    }

    /// Whether it is an entry: a key, and a count from 1 to the bound.
    pub(crate) fn is_entry(&self) -> bool
        ensures { IsTrue result ↔ IsEntry self.now }
    {
        self.key.is_key() && 0 < self.count && self.count <= COUNT_BOUND
    }

    pub(crate) fn copy(&self) -> Result<Entry, AllocError>
        ensures { IfOk result (λ copy. copy ≡ self.now) }
    {
        Ok(Entry {
            key: self.key.copy()?,
            count: self.count,
        })
    }
}
