//! What a seat's slots have once shares become its allocation.

ghost use Rattle.std.specs.Prelude.{◌≡◌, IfOk, map};
ghost use Rattle.proposals.specs.OfferSafety.{MeetSlots, MeetsSlot};
ghost use Rattle.rearrange.specs.Settled as lists;

use proposals::allocations::Share;
use proposals::slots::{amount_of, further};
use refusals::amount_math_lib::{Amount, Value};
use std::alloc::{AllocError, Global};

/// What shares have under a slot's keyword. Keys take memory.
fn value_under(shares: &[Share], slot: &Share) -> Result<Value, AllocError>
    requires { MeetsSlot shares.now slot.now }
    ensures { IfOk result (λ value. value ≡ (lists.filled shares.now slot.now).amount.value) }
{
    match amount_of(shares, &slot.keyword) {
        Some(amount) => amount.value.copy(),
        None => Ok(Value::empty(slot.amount.value.kind())),
    }
}

/// A slot with what shares have under its keyword.
fn filled(alloc: Global, shares: &[Share], slot: &Share) -> Result<Share, AllocError>
    requires { MeetsSlot shares.now slot.now }
    ensures { IfOk result (λ share. share ≡ lists.filled shares.now slot.now) }
{
    let keyword = slot.keyword.copy(alloc)?;
    let value = value_under(shares, slot)?;
    let brand = slot.amount.brand;
    Ok(Share {
        keyword,
        amount: Amount { brand, value },
    })
}

/// Each slot with what shares have under its keyword.
fn all_filled(alloc: Global, slots: &[Share], shares: &[Share]) -> Result<Vec<Share>, AllocError>
    requires { MeetSlots shares.now slots.now }
    ensures { IfOk result (λ after. after.items ≡ map (lists.filled shares.now) slots.now) }
{
    let mut after = Vec::new(alloc);
    for slot in slots {
        after.push(filled(alloc, shares, slot)?)?;
    }
    Ok(after)
}

/// The shares that have something and no slot yet, in byte order of their keywords.
fn opened(alloc: Global, slots: &[Share], shares: &[Share]) -> Result<Vec<Share>, AllocError>
    ensures { IfOk result (λ more. more.items ≡ lists.opened slots.now shares.now) }
{
    let mut more = further(alloc, slots, shares)?;
    more.retain(|share| share.amount.value.total() > 0);
    Ok(more)
}

/// What slots have once shares become the allocation: each what the shares have under its keyword, then, in
/// byte order, the shares that have something and no slot yet (own).
pub fn settled(alloc: Global, slots: &[Share], shares: &[Share]) -> Result<Vec<Share>, AllocError>
    requires { MeetSlots shares.now slots.now }
    ensures { IfOk result (λ after. after.items ≡ lists.settled slots.now shares.now) }
{
    let mut after = all_filled(alloc, slots, shares)?;
    let mut more = opened(alloc, slots, shares)?;
    after.append(&mut more)?;
    Ok(after)
}
