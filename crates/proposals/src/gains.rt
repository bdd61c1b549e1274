//! Adding a record of amounts to slots.

ghost use Rattle.std.specs.Prelude.{◌≡◌, ◌≢◌, All, IfErr, IfOk, IsOk, OnOk, map};
ghost use Rattle.proposals.specs.Gains.{CanGain, CanRaise, IsApart, IsGainsRefusal, IsRefused, raised, with_gains};
ghost use Rattle.host_data.specs.amount_math.Content.{sum};
ghost use Rattle.host_data.specs.amount_math.ValueView.{IsPutRefusal, IsValue, with_content};
ghost use Rattle.host_data.specs.amount_math.declared.TooMuch.{TooMuch};
ghost use Rattle.proposals.specs.OfferSafety.{MeetSlots, MeetsSlot};
ghost use Rattle.proposals.specs.Shares.{AreApart, keyed_share};

use crate::allocations::{Allocation, Share};
use crate::slots::{amount_of, open_further};
use host_data::amount_math_lib::{Amount, PutFault, TooMuch, Value};
use std::alloc::{AllocError, Global};

/// Slots with a record more, those that are further ones last in byte order; or the first refusal: first
/// of all keys that the slots have already, then of counts and numbers of keys.
pub fn with_gains(
    alloc: Global,
    slots: &[Share],
    gains: &Allocation,
) -> Result<Vec<Share>, PutFault>
    requires meet { MeetSlots slots.now gains.now }
    requires apart { AreApart slots.now }
    ensures ok { IfOk result (λ after. after.items ≡ with_gains slots.now gains.now) }
    ensures may { IsOk result → All (CanGain slots.now) gains.now }
    ensures refused { IfErr result (IsGainsRefusal slots.now gains.now) }
    ensures apart { IfOk result (λ after. AreApart after.items) }
{
    let given = gains.shares();
    check_gains(slots, given)?;
    match all_raised(alloc, slots, given) {
        Ok(after) => Ok(after),
        Err(_) => Err(PutFault::NoMemory),
    }
}

/// Whether each share of a record can be added to its slot.
fn check_gains(slots: &[Share], gains: &[Share]) -> Result<(), PutFault>
    requires { MeetSlots slots.now gains.now }
    ensures ok { IsOk result → All (CanGain slots.now) gains.now }
    ensures refused { IfErr result (IsGainsRefusal slots.now gains.now) }
{
    check_apart(slots, gains)?;
    check_sums(slots, gains)
}

/// Whether no share of a record has a key of a set that its slot has already.
fn check_apart(slots: &[Share], gains: &[Share]) -> Result<(), PutFault>
    requires { MeetSlots slots.now gains.now }
    ensures ok { IsOk result → All (IsApart slots.now) gains.now }
    ensures refused { IfErr result (IsGainsRefusal slots.now gains.now) }
{
    for share in gains {
        check_share_apart(slots, share)?;
    }
    Ok(())
}

/// Whether no share of a record makes too much with its slot.
fn check_sums(slots: &[Share], gains: &[Share]) -> Result<(), PutFault>
    requires meet { MeetSlots slots.now gains.now }
    requires apart { All (IsApart slots.now) gains.now }
    ensures ok { IsOk result → All (CanGain slots.now) gains.now }
    ensures refused { IfErr result (IsGainsRefusal slots.now gains.now) }
{
    for share in gains {
        check_share(slots, share)?;
    }
    Ok(())
}

/// Whether a share has no key of a set that its slot has already.
fn check_share_apart(slots: &[Share], share: &Share) -> Result<(), PutFault>
    requires { MeetsSlot slots.now share.now }
    ensures ok { IsOk result → IsApart slots.now share.now }
    ensures refused { IfErr result (λ fault. IsRefused slots.now fault share.now) }
    ensures overlap { IfErr result (λ fault. (over : TooMuch) → fault ≢ PutFault.TooMuch over) }
{
    match check_share(slots, share) {
        Ok(()) => Ok(()),
        Err(PutFault::TooMuch(_most)) => Ok(()),
        Err(fault) => Err(fault),
    }
}

/// Whether a share can be added to its slot.
fn check_share(slots: &[Share], share: &Share) -> Result<(), PutFault>
    requires { MeetsSlot slots.now share.now }
    ensures ok { IsOk result → CanGain slots.now share.now }
    ensures refused { IfErr result (λ fault. IsRefused slots.now fault share.now) }
{
    match amount_of(slots, &share.keyword) {
        Some(slot) => can_absorb(&slot.value, &share.amount.value),
        None => can_absorb(
            &Value::empty(share.amount.value.kind()),
            &share.amount.value,
        ),
    }
}

/// Whether the sum of two values is a value. It is made on a copy, and keys take memory.
fn can_absorb(held: &Value, gain: &Value) -> Result<(), PutFault>
    requires { held.now.kind ≡ gain.now.kind }
    ensures ok { IsOk result → IsValue held.now.kind (sum held.now.content gain.now.content) }
    ensures refused { IfErr result (IsPutRefusal held.now.kind (sum held.now.content gain.now.content)) }
{
    let Ok(mut both) = held.copy() else {
        return Err(PutFault::NoMemory);
    };
    add_copy(&mut both, gain)
}

/// Adds a copy of a value to another. Keys take memory.
fn add_copy(both: &mut Value, gain: &Value) -> Result<(), PutFault>
    requires { both.old.kind ≡ gain.now.kind }
    ensures ok { OnOk result (both.new ≡ with_content both.old (sum both.old.content gain.now.content)) }
    ensures value { IsOk result → IsValue both.old.kind (sum both.old.content gain.now.content) }
    ensures refused { IfErr result (IsPutRefusal both.old.kind (sum both.old.content gain.now.content)) }
{
    let Ok(gain) = gain.copy() else {
        return Err(PutFault::NoMemory);
    };
    match both.absorb(gain) {
        Ok(()) => Ok(()),
        Err((_, fault)) => Err(fault),
    }
}

/// Adds a copy of a value to another, where the sum is known to be a value. Keys take memory.
fn add_known(both: &mut Value, gain: &Value) -> Result<(), AllocError>
    requires kind { both.old.kind ≡ gain.now.kind }
    requires value { IsValue both.old.kind (sum both.old.content gain.now.content) }
    ensures { OnOk result (both.new ≡ with_content both.old (sum both.old.content gain.now.content)) }
{
    match add_copy(both, gain) {
        Ok(()) => Ok(()),
        Err(PutFault::NoMemory) => Err(AllocError),
        Err(PutFault::Overlap(_key)) => unreachable!(),
        Err(PutFault::TooMuch(_most)) => unreachable!(),
    }
}

/// Each slot with what shares have under its keyword, then the further ones.
fn all_raised(alloc: Global, slots: &[Share], gains: &[Share]) -> Result<Vec<Share>, AllocError>
    requires { All (CanRaise gains.now) slots.now }
    ensures { IfOk result (λ after. after.items ≡ with_gains slots.now gains.now) }
{
    let mut after = raised_slots(alloc, slots, gains)?;
    open_further(alloc, &mut after, slots, gains)?;
    Ok(after)
}

/// Each slot with what shares have under its keyword.
pub fn raised_slots(
    alloc: Global,
    slots: &[Share],
    gains: &[Share],
) -> Result<Vec<Share>, AllocError>
    requires { All (CanRaise gains.now) slots.now }
    ensures { IfOk result (λ after. after.items ≡ map (raised gains.now) slots.now) }
{
    let mut after = Vec::new(alloc);
    for slot in slots {
        after.push(raised(alloc, slot, gains)?)?;
    }
    Ok(after)
}

/// A slot with what shares have under its keyword.
fn raised(alloc: Global, slot: &Share, gains: &[Share]) -> Result<Share, AllocError>
    requires { CanRaise gains.now slot.now }
    ensures { IfOk result (λ after. after ≡ raised gains.now slot.now) }
{
    let value = raised_value(slot, gains)?;
    slot_with(alloc, slot, value)
}

/// What a slot has, with what shares have under its keyword. Keys take memory.
fn raised_value(slot: &Share, gains: &[Share]) -> Result<Value, AllocError>
    requires { CanRaise gains.now slot.now }
    ensures { IfOk result (λ value. value ≡ (raised gains.now slot.now).amount.value) }
{
    let mut value = slot.amount.value.copy()?;
    if let Some(gain) = amount_of(gains, &slot.keyword) {
        add_known(&mut value, &gain.value)?;
    }
    Ok(value)
}

/// A slot of the same keyword and brand with another value.
fn slot_with(alloc: Global, slot: &Share, value: Value) -> Result<Share, AllocError>
    ensures { IfOk result (λ after. after ≡ keyed_share slot.now.keyword (record { brand = slot.now.amount.brand; value = value })) }
{
    let keyword = slot.keyword.copy(alloc)?;
    let brand = slot.amount.brand;
    Ok(Share {
        keyword,
        amount: Amount { brand, value },
    })
}
