//! Lists of entries, in byte order of their keys: what they have, and whether others fit with them.
//! Each goes through the one list in order and looks up in the other by halving.

ghost use Rattle.std.specs.Prelude.{◌≡◌, ◌+◌, ◌<◌, ◌≤◌, ◌↔◌, ℕ, List, length, IsTrue, IsNone, IfSome, IsErr, IfOk, IfErr};
ghost use Rattle.amount_math.specs.Content.{Contains, count, of_entries, sum};
ghost use Rattle.amount_math.specs.Counted.{counted};
ghost use Rattle.amount_math.specs.Entries.{AreEntries, IsGap, IsRising, entry_at, tally};
ghost use Rattle.amount_math.specs.ValueView.{IsFirstPast, keys_of};

use crate::{Entry, Key};

/// Where the key stands, or where it would.
pub(crate) fn place_for(entries: &[Entry], key: &Key) -> Result<usize, usize>
    requires { IsRising entries.now }
    ensures found { IfOk result (λ i. (i < length entries.now) × ((entry_at entries.now i).0 ≡ key.now)) }
    ensures gap { IfErr result (IsGap entries.now key.now) }
    ensures absent { IsErr result → tally entries.now key.now ≡ 0 }
{
    entries.binary_search_by(|entry| entry.compare(key))
}

/// Where the key stands, if it does.
pub(crate) fn place_of(entries: &[Entry], key: &Key) -> Option<usize>
    requires { IsRising entries.now }
    ensures found { IfSome result (λ i. (i < length entries.now) × ((entry_at entries.now i).0 ≡ key.now)) }
    ensures absent { IsNone result → tally entries.now key.now ≡ 0 }
{
    match place_for(entries, key) {
        Ok(at) => Some(at),
        Err(_) => None,
    }
}

/// How many of the key there are.
pub(crate) fn count_of(entries: &[Entry], key: &Key) -> u64
    requires { IsRising entries.now }
    ensures { result ≡ tally entries.now key.now }
{
    match place_of(entries, key) {
        Some(at) => entries[at].count(),
        None => 0,
    }
}

/// The counts of all keys together.
pub(crate) fn total(entries: &[Entry]) -> u128
    requires { AreEntries entries.now }
    ensures { result ≡ counted (of_entries entries.now) }
{
    let mut total = 0;
    for entry in entries {
        total += u128::from(entry.count());
    }
    total
}

/// Whether there is at least what the part has, of each key.
pub(crate) fn contains(entries: &[Entry], part: &[Entry]) -> bool
    requires entries { AreEntries entries.now }
    requires part { AreEntries part.now }
    ensures { IsTrue result ↔ Contains (of_entries entries.now) (of_entries part.now) }
{
    for entry in part {
        if count_of(entries, entry.key()) < entry.count() {
            return false;
        }
    }
    true
}

/// How many keys the others have that the entries haven't.
pub(crate) fn new_keys(entries: &[Entry], more: &[Entry]) -> usize
    requires entries { AreEntries entries.now }
    requires more { AreEntries more.now }
    ensures { length entries.now + result ≡ keys_of (sum (of_entries entries.now) (of_entries more.now)) }
{
    let mut keys = 0;
    for entry in more {
        if count_of(entries, entry.key()) == 0 {
            keys += 1;
        }
    }
    keys
}

/// How many keys both have together.
pub(crate) fn keys_together(entries: &[Entry], more: &[Entry]) -> u128
    requires entries { AreEntries entries.now }
    requires more { AreEntries more.now }
    ensures { result ≡ keys_of (sum (of_entries entries.now) (of_entries more.now)) }
{
    entries.len() as u128 + new_keys(entries, more) as u128
}

/// The first entry of the others, in byte order, of whose key both together have more than the most.
pub(crate) fn first_past(entries: &[Entry], more: &[Entry], most: u64) -> Option<usize>
    requires entries { AreEntries entries.now }
    requires more { AreEntries more.now }
    requires within { (k : List ℕ) → count (of_entries entries.now) k ≤ most }
    ensures none { IsNone result → (k : List ℕ) → count (sum (of_entries entries.now) (of_entries more.now)) k ≤ most }
    ensures found { IfSome result (λ i. i < length more.now) }
    ensures first { IfSome result (λ i. IsFirstPast most (sum (of_entries entries.now) (of_entries more.now)) (entry_at more.now i).0) }
{
    for (i, entry) in more.iter().enumerate() {
        let held = count_of(entries, entry.key());
        if u128::from(held) + u128::from(entry.count()) > u128::from(most) {
            return Some(i);
        }
    }
    None
}
