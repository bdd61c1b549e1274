//! Keyed contents made from keys or pairs in any order.

ghost use Rattle.std.specs.Prelude.{◌≡◌, ◌≢◌, ◌≤◌, ◌<◌, ◌+◌, ◌↔◌, ℕ, map, length, pos, IfOk, IfErr, IfSome, IsNone, IsTrue};
ghost use Rattle.std.specs.List.{All};
ghost use Rattle.std.specs.List.Sorted.{IsPermutation};
ghost use Rattle.amount_math.specs.Content.{Content, entries, key_cmp};
ghost use Rattle.amount_math.specs.Entries.{IsEntry, IsRising, as_one, entry_at};
ghost use Rattle.amount_math.specs.KindData.{IsPairsOf, signed};
ghost use Rattle.amount_math.specs.ValueView.{IsBag};
ghost use Rattle.std.specs.declared.cmp.Ordering.TheVariants.{Less};

use crate::{COUNT_BOUND, Entry, Key, MakeFault};
use std::alloc::AllocError;
use std::cmp::Ordering;

/// The first entry that isn't before the next one, if there is one.
pub(crate) fn first_unordered(entries: &[Entry]) -> Option<usize>
    ensures none { IsNone result → IsRising entries.now }
    ensures found { IfSome result (λ i. (i + 1 < length entries.now) × (key_cmp (entry_at entries.now i).0 (entry_at entries.now (i + 1)).0 ≢ Less)) }
{
    for i in 1..entries.len() {
        if entries[i - 1].order(&entries[i]) != Ordering::Less {
            return Some(i - 1);
        }
    }
    None
}

/// Whether each is an entry.
pub(crate) fn are_all(entries: &[Entry]) -> bool
    ensures { IsTrue result ↔ All IsEntry entries.now }
{
    entries.iter().all(|entry| entry.is_entry())
}

/// The keys as entries, each once.
pub(crate) fn each_once(mut keys: Vec<Key>) -> Result<Vec<Entry>, AllocError>
    ensures { IfOk result (λ made. IsPermutation (map as_one keys.items) made.items) }
{
    let mut made = Vec::with_capacity(*keys.allocator(), keys.len())?;
    while let Some(key) = keys.pop() {
        made.push_reserved(Entry::new(key, 1));
    }
    Ok(made)
}

/// The number, if it is a whole one within a bound.
pub(crate) fn within_bound(number: i128, most: u128) -> Option<u128>
    ensures some { IfSome result (λ n. (number ≡ pos n) × (n ≤ most)) }
    ensures none { IsNone result → (n : ℕ) → number ≡ pos n → most < n }
{
    let Ok(whole) = u128::try_from(number) else {
        return None;
    };
    if whole > most {
        return None;
    }
    Some(whole)
}

/// The pairs as entries, or `BadValue` where a count can't be one of a bag.
pub(crate) fn each_counted(mut pairs: Vec<(Key, i128)>) -> Result<Vec<Entry>, MakeFault>
    ensures ok { IfOk result (λ made. IsPermutation pairs.items (map signed made.items)) }
    ensures bad_value { IfErr result (λ fault. fault ≢ MakeFault.NoMemory → (c : Content) → IsBag c → ¬ IsPairsOf pairs.items c) }
{
    let Ok(mut made) = Vec::with_capacity(*pairs.allocator(), pairs.len()) else {
        return Err(MakeFault::NoMemory);
    };
    while let Some(pair) = pairs.pop() {
        let (key, number) = pair;
        let Some(count) = within_bound(number, u128::from(COUNT_BOUND)) else {
            return Err(MakeFault::BadValue);
        };
        made.push_reserved(Entry::new(key, count as u64));
    }
    Ok(made)
}
