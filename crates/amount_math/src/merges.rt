//! Putting entries together and taking them away, in the order of their keys.

ghost use Rattle.std.specs.Prelude.{◌≡◌, ◌≤◌, ◌+◌, ℕ, List, [], IfOk, OnOk, OnErr, IfSome, IsNone, reverse, vec_len};
ghost use Rattle.std.specs.List.{All};
ghost use Rattle.std.specs.Vec.{vec_capacity};
ghost use Rattle.amount_math.specs.Content.{Contains, count, difference, of_entries, sum};
ghost use Rattle.amount_math.specs.Entries.{AreEntries, IsEntry, IsLowered, IsNextPoured, IsRaised, IsRising, at_key, most_of_key, tally};

use crate::Entry;
use crate::entries::place_of;
use crate::in_place::take_entry;
use std::alloc::AllocError;
use std::cmp::Ordering;

/// A second list of the entries.
pub(crate) fn copied(entries: &Vec<Entry>) -> Result<Vec<Entry>, AllocError>
    ensures { IfOk result (λ copy. copy.items ≡ entries.now.items) }
{
    let mut copy = Vec::with_capacity(*entries.allocator(), entries.len())?;
    for entry in entries {
        copy.push_reserved(entry.copy()?);
    }
    Ok(copy)
}

/// Takes the entry of the highest key out of both, where both have the key as one with both counts.
fn take_highest(left: &mut Vec<Entry>, right: &mut Vec<Entry>) -> Option<Entry>
    requires left { All IsEntry left.old.items }
    requires right { All IsEntry right.old.items }
    ensures next { IfSome result (IsNextPoured left.old.items right.old.items left.new.items right.new.items) }
    ensures raised { IfSome result IsRaised }
    ensures counts { IfSome result (λ e. (k : List ℕ) → tally left.new.items k + tally right.new.items k + at_key k e.0 e.1 ≡ tally left.old.items k + tally right.old.items k) }
    ensures less { IfSome result (λ _. vec_len left.new + vec_len right.new + 1 ≤ vec_len left.old + vec_len right.old) }
    ensures left { All IsEntry left.new.items }
    ensures right { All IsEntry right.new.items }
    ensures empty { IsNone result → (left.new.items ≡ []) × (right.new.items ≡ []) }
    ensures kept { IsNone result → (left.old.items ≡ []) × (right.old.items ≡ []) }
{
    let Some(mut entry) = left.pop() else {
        return right.pop();
    };
    let Some(other) = right.pop() else {
        return Some(entry);
    };
    match entry.compare(other.key()) {
        Ordering::Less => {
            left.push_reserved(entry);
            Some(other)
        }
        Ordering::Equal => {
            entry.raise(other.count());
            Some(entry)
        }
        Ordering::Greater => {
            right.push_reserved(other);
            Some(entry)
        }
    }
}

/// Takes all entries out of both, the highest key first.
fn pour(left: &mut Vec<Entry>, right: &mut Vec<Entry>, poured: &mut Vec<Entry>)
    requires left { AreEntries left.old.items }
    requires right { AreEntries right.old.items }
    requires empty { poured.old.items ≡ [] }
    requires room { vec_len left.old + vec_len right.old ≤ vec_capacity poured.old }
    ensures taken { right.new.items ≡ [] }
    ensures rising { IsRising (reverse poured.new.items) }
    ensures raised { All IsRaised (reverse poured.new.items) }
    ensures counts { (k : List ℕ) → tally (reverse poured.new.items) k ≡ tally left.old.items k + tally right.old.items k }
{
    while let Some(entry) = take_highest(left, right) {
        poured.push_reserved(entry);
    }
}

/// Takes all the others over, or leaves both as they were.
pub(crate) fn merge(entries: &mut Vec<Entry>, more: &mut Vec<Entry>) -> Result<(), AllocError>
    requires entries { AreEntries entries.old.items }
    requires more { AreEntries more.old.items }
    requires within { (k : List ℕ) → count (sum (of_entries entries.old.items) (of_entries more.old.items)) k ≤ most_of_key }
    ensures content { OnOk result (of_entries entries.new.items ≡ sum (of_entries entries.old.items) (of_entries more.old.items)) }
    ensures taken { OnOk result (more.new.items ≡ []) }
    ensures entries { AreEntries entries.new.items }
    ensures err { OnErr result ((entries.new ≡ entries.old) × (more.new ≡ more.old)) }
{
    let room = entries.len() + more.len();
    let mut both = Vec::with_capacity(*entries.allocator(), room)?;
    pour(entries, more, &mut both);
    both.reverse();
    *entries = both;
    Ok(())
}

/// Lowers the counts by the part's, to 0 where the part has all.
fn lower_all(entries: &mut [Entry], part: &[Entry])
    requires entries { AreEntries entries.old }
    requires part { AreEntries part.now }
    requires enough { Contains (of_entries entries.old) (of_entries part.now) }
    ensures rising { IsRising entries.new }
    ensures lowered { All IsLowered entries.new }
    ensures counts { (k : List ℕ) → tally entries.new k + tally part.now k ≡ tally entries.old k }
{
    for entry in part {
        if let Some(at) = place_of(entries, entry.key()) {
            let held = &mut entries[at];
            held.lower(entry.count());
        }
    }
}

/// Takes away what they are known to contain, in one pass.
fn lessen_all(entries: &mut Vec<Entry>, part: &[Entry])
    requires entries { AreEntries entries.old.items }
    requires part { AreEntries part.now }
    requires enough { Contains (of_entries entries.old.items) (of_entries part.now) }
    ensures content { of_entries entries.new.items ≡ difference (of_entries entries.old.items) (of_entries part.now) }
    ensures entries { AreEntries entries.new.items }
    ensures capacity { vec_capacity entries.new ≡ vec_capacity entries.old }
{
    lower_all(entries, part);
    entries.retain(|entry| entry.count() > 0);
}

/// Takes away what they are known to contain, which takes no memory. One key costs a search and a move of
/// the entries above it, more keys a pass through all of them.
pub(crate) fn lessen(entries: &mut Vec<Entry>, part: &[Entry])
    requires entries { AreEntries entries.old.items }
    requires part { AreEntries part.now }
    requires enough { Contains (of_entries entries.old.items) (of_entries part.now) }
    ensures content { of_entries entries.new.items ≡ difference (of_entries entries.old.items) (of_entries part.now) }
    ensures entries { AreEntries entries.new.items }
    ensures capacity { vec_capacity entries.new ≡ vec_capacity entries.old }
{
    match part {
        [one] => take_entry(entries, one),
        _ => lessen_all(entries, part),
    }
}
