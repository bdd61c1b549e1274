//! What a slot loses and gains by a change.

ghost use Rattle.std.specs.Prelude.{◌≡◌, IfOk};
ghost use Rattle.refusals.specs.amount_math.ValueView.{with_content};
ghost use Rattle.rearrange.specs.Moves.{from_hand, gained_by, lost_by, to_hand};
ghost use Rattle.rules.specs.proposals.OfferSafety.{MeetsSlot};

use rearrange::rights_model_lib::{Holder, Movement};
use rearrange::value_tests_lib::value_differences::difference;
use refusals::amount_math_lib::Value;
use rules::proposals_lib::allocations::Share;
use rules::proposals_lib::slots::amount_of;
use std::alloc::{AllocError, Global};

/// What the shares before have under a share's keyword more than the share.
#[tactic(auto, using(crate::proofs::Slots::lost_none))]
pub(crate) fn loss_of(alloc: Global, before: &[Share], share: &Share) -> Result<Value, AllocError>
    requires { MeetsSlot before.now share.now }
    ensures { IfOk result (λ value.
        value ≡ with_content share.now.amount.value (lost_by before.now share.now)) }
{
    match amount_of(before, &share.keyword) {
        Some(slot) => difference(alloc, &slot.value, &share.amount.value),
        None => Ok(Value::empty(share.amount.value.kind())),
    }
}

/// What a share has more than the shares before have under its keyword.
#[tactic(auto, using(crate::proofs::Slots::gained_none))]
pub(crate) fn gain_of(alloc: Global, before: &[Share], share: &Share) -> Result<Value, AllocError>
    requires { MeetsSlot before.now share.now }
    ensures { IfOk result (λ value.
        value ≡ with_content share.now.amount.value (gained_by before.now share.now)) }
{
    match amount_of(before, &share.keyword) {
        Some(slot) => difference(alloc, &share.amount.value, &slot.value),
        None => share.amount.value.copy(),
    }
}

/// A value of a share's brand goes from its slot to the hand.
pub(crate) fn to_hand(
    alloc: Global,
    seat: u32,
    share: &Share,
    value: Value,
) -> Result<Movement, AllocError>
    requires { value.kind ≡ share.now.amount.value.kind }
    ensures { IfOk result (λ m. m ≡ to_hand seat share.now value.content) }
{
    let keyword = share.keyword.copy(alloc)?;
    Ok(Movement {
        brand: share.amount.brand,
        from: Holder::Slot(seat, keyword),
        to: Holder::Hand,
        value,
    })
}

/// A value of a share's brand comes from the hand to its slot.
pub(crate) fn from_hand(
    alloc: Global,
    seat: u32,
    share: &Share,
    value: Value,
) -> Result<Movement, AllocError>
    requires { value.kind ≡ share.now.amount.value.kind }
    ensures { IfOk result (λ m. m ≡ from_hand seat share.now value.content) }
{
    let keyword = share.keyword.copy(alloc)?;
    Ok(Movement {
        brand: share.amount.brand,
        from: Holder::Hand,
        to: Holder::Slot(seat, keyword),
        value,
    })
}
