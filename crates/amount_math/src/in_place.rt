//! Putting entries into their places and taking them out of them, within the room that there is.

ghost use Rattle.std.specs.Prelude.{◌≡◌, ◌≤◌, ◌<◌, ◌+◌, ℕ, List, length, vec_len};
ghost use Rattle.std.specs.Vec.{vec_capacity};
ghost use Rattle.amount_math.specs.Content.{count, of_entries, sum};
ghost use Rattle.amount_math.specs.Entries.{AreEntries, IsEntry, IsGap, at_key, entry_at, most_of_key, tally};
ghost use Rattle.amount_math.specs.ValueView.{keys_of};

use crate::Entry;
use crate::entries::place_for;

/// Puts an entry where its key has its place.
fn insert(entries: &mut Vec<Entry>, at: usize, entry: Entry)
    requires entries { AreEntries entries.old.items }
    requires entry { IsEntry entry }
    requires gap { IsGap entries.old.items entry.0 at }
    requires room { vec_len entries.old < vec_capacity entries.old }
    ensures entries { AreEntries entries.new.items }
    ensures counts { (k : List ℕ) → tally entries.new.items k ≡ tally entries.old.items k + at_key k entry.0 entry.1 }
    ensures capacity { vec_capacity entries.new ≡ vec_capacity entries.old }
{
    match entries.insert(at, entry) {
        Ok(()) => {}
        Err(_) => unreachable!(),
    }
}

/// Adds an entry's count to that of its key.
fn raise(entries: &mut [Entry], at: usize, entry: &Entry)
    requires entries { AreEntries entries.old }
    requires here { (at < length entries.old) × ((entry_at entries.old at).0 ≡ entry.now.0) }
    requires within { tally entries.old entry.now.0 + entry.now.1 ≤ most_of_key }
    ensures entries { AreEntries entries.new }
    ensures counts { (k : List ℕ) → tally entries.new k ≡ tally entries.old k + at_key k entry.now.0 entry.now.1 }
{
    let held = &mut entries[at];
    held.raise(entry.count());
}

/// Puts an entry in: its count goes to its key's, or it takes its key's place.
fn put_entry(entries: &mut Vec<Entry>, entry: Entry)
    requires entries { AreEntries entries.old.items }
    requires entry { IsEntry entry }
    requires within { tally entries.old.items entry.0 + entry.1 ≤ most_of_key }
    requires room { tally entries.old.items entry.0 ≡ 0 → vec_len entries.old < vec_capacity entries.old }
    ensures entries { AreEntries entries.new.items }
    ensures counts { (k : List ℕ) → tally entries.new.items k ≡ tally entries.old.items k + at_key k entry.0 entry.1 }
    ensures capacity { vec_capacity entries.new ≡ vec_capacity entries.old }
{
    match place_for(entries, entry.key()) {
        Ok(at) => raise(entries, at, &entry),
        Err(at) => insert(entries, at, entry),
    }
}

/// Puts all of the others in, the highest key first.
pub(crate) fn put_all(entries: &mut Vec<Entry>, mut more: Vec<Entry>)
    requires entries { AreEntries entries.old.items }
    requires more { AreEntries more.items }
    requires within { (k : List ℕ) → count (sum (of_entries entries.old.items) (of_entries more.items)) k ≤ most_of_key }
    requires room { keys_of (sum (of_entries entries.old.items) (of_entries more.items)) ≤ vec_capacity entries.old }
    ensures content { of_entries entries.new.items ≡ sum (of_entries entries.old.items) (of_entries more.items) }
    ensures entries { AreEntries entries.new.items }
    ensures capacity { vec_capacity entries.new ≡ vec_capacity entries.old }
{
    while let Some(entry) = more.pop() {
        put_entry(entries, entry);
    }
}

/// Takes a count from that of its key, which is more.
fn lower(entries: &mut [Entry], at: usize, count: u64)
    requires entries { AreEntries entries.old }
    requires here { at < length entries.old }
    requires less { count < (entry_at entries.old at).1 }
    ensures entries { AreEntries entries.new }
    ensures counts { (k : List ℕ) → tally entries.new k + at_key k (entry_at entries.old at).0 count ≡ tally entries.old k }
{
    let held = &mut entries[at];
    held.lower(count);
}

/// Takes an entry out, with its place.
fn remove(entries: &mut Vec<Entry>, at: usize)
    requires entries { AreEntries entries.old.items }
    requires here { at < length entries.old.items }
    ensures entries { AreEntries entries.new.items }
    ensures counts { (k : List ℕ) → tally entries.new.items k + at_key k (entry_at entries.old.items at).0 (entry_at entries.old.items at).1 ≡ tally entries.old.items k }
    ensures capacity { vec_capacity entries.new ≡ vec_capacity entries.old }
{
    let _entry = entries.remove(at);
}

/// Takes a part of one key out: its count is lowered, or its place goes where that was all of it.
pub(crate) fn take_entry(entries: &mut Vec<Entry>, part: &Entry)
    requires entries { AreEntries entries.old.items }
    requires some { 0 < part.now.1 }
    requires enough { part.now.1 ≤ tally entries.old.items part.now.0 }
    ensures entries { AreEntries entries.new.items }
    ensures counts { (k : List ℕ) → tally entries.new.items k + at_key k part.now.0 part.now.1 ≡ tally entries.old.items k }
    ensures capacity { vec_capacity entries.new ≡ vec_capacity entries.old }
{
    let Ok(at) = place_for(entries, part.key()) else {
        unreachable!()
    };
    if part.count() < entries[at].count() {
        lower(entries, at, part.count());
    } else {
        remove(entries, at);
    }
}
