//! What shares have before and after, but what the two sides have alike.
ghost use Rattle.std.specs.Prelude.{◌≡◌, ◌≤◌, ◌∷◌, ◌↔◌, length, IfOk, IfSome, IsTrue, OnOk};
ghost use Rattle.rearrange.specs.Parts.{HaveEntries, HaveShare, HaveShares};

use crate::parts::{Part, Side, add_entries, add_entry, add_share, add_shares};
use proposals::allocations::Share;
use refusals::amount_math_lib::Entry;
use std::alloc::{AllocError, Global};

/// Whether two entries have one key and one count.
fn is_alike(entry: &Entry, other: &Entry) -> bool
    ensures { IsTrue result ↔ (entry.now ≡ other.now) }
{
    entry.count() == other.count() && entry.key().compare(other.key()).is_eq()
}

/// How many entries come before one, up to the first that doesn't.
fn lower_len(entry: &Entry, entries: &[Entry]) -> usize
    ensures { result ≤ length entries.now }
{
    for (len, other) in entries.iter().enumerate() {
        if !other.key().compare(entry.key()).is_lt() {
            return len;
        }
    }
    entries.len()
}

/// What follows an entry, where it stands first.
fn without_first<'a>(entry: &Entry, entries: &'a [Entry]) -> Option<&'a [Entry]>
    ensures { IfSome result (λ rest. entries.now ≡ entry.now ∷ rest.now) }
{
    let (first, rest) = entries.split_first()?;
    if is_alike(entry, first) {
        Some(rest)
    } else {
        None
    }
}

/// Adds the entries after that come before one, and the one before unless it stands next after as
/// well. What is left of those after.
fn add_unlike_entry<'a>(
    parts: &mut Vec<Part>,
    brand: u16,
    entry: &Entry,
    after: &'a [Entry],
) -> Result<&'a [Entry], AllocError>
    ensures { IfOk result (λ rest. HaveEntries brand (entry.now ∷ rest.now) after.now
        parts.old.items parts.new.items) }
{
    let lower = lower_len(entry, after);
    add_entries(parts, Side::After, brand, &after[..lower])?;
    let rest = &after[lower..];
    if let Some(others) = without_first(entry, rest) {
        return Ok(others);
    }
    add_entry(parts, Side::Before, brand, entry)?;
    Ok(rest)
}

/// Adds the entries of a brand's content before and of that after, but those that both have. Both ascend.
fn add_unlike_entries(
    parts: &mut Vec<Part>,
    brand: u16,
    before: &[Entry],
    after: &[Entry],
) -> Result<(), AllocError>
    ensures { OnOk result (HaveEntries brand before.now after.now parts.old.items parts.new.items) }
{
    let mut rest = after;
    for entry in before {
        rest = add_unlike_entry(parts, brand, entry, rest)?;
    }
    add_entries(parts, Side::After, brand, rest)
}

/// Adds what one share has before and another has after. Of one brand's keys, those that differ.
fn add_pair(
    alloc: Global,
    parts: &mut Vec<Part>,
    before: &Share,
    after: &Share,
) -> Result<(), AllocError>
    ensures { OnOk result (HaveShare before.now after.now parts.old.items parts.new.items) }
{
    let brand = before.amount.brand;
    if brand == after.amount.brand {
        if let Some(entries) = before.amount.value.entries() {
            if let Some(others) = after.amount.value.entries() {
                return add_unlike_entries(parts, brand, entries, others);
            }
        }
    }
    add_share(alloc, parts, Side::Before, before)?;
    add_share(alloc, parts, Side::After, after)
}

/// Adds what a share has before and what the first of the shares after has. What is left of those after.
fn add_unlike_share<'a>(
    alloc: Global,
    parts: &mut Vec<Part>,
    share: &Share,
    after: &'a [Share],
) -> Result<&'a [Share], AllocError>
    ensures { IfOk result (λ rest. HaveShares (share.now ∷ rest.now) after.now
        parts.old.items parts.new.items) }
{
    if let Some((first, rest)) = after.split_first() {
        add_pair(alloc, parts, share, first)?;
        return Ok(rest);
    }
    add_share(alloc, parts, Side::Before, share)?;
    Ok(after)
}

/// Adds what shares have before and what shares have after, but entries that two shares at one place have alike.
pub(crate) fn add_unlike_shares(
    alloc: Global,
    parts: &mut Vec<Part>,
    before: &[Share],
    after: &[Share],
) -> Result<(), AllocError>
    ensures { OnOk result (HaveShares before.now after.now parts.old.items parts.new.items) }
{
    let mut rest = after;
    for share in before {
        rest = add_unlike_share(alloc, parts, share, rest)?;
    }
    add_shares(alloc, parts, Side::After, rest)
}
