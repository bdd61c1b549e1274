//! What is added to slots and taken from them, with the refusal that a call shows where that fails, and
//! whether an offer would be safe. Its one contract: each change is the one of its definition, and it
//! is refused exactly where the tests of plans say, with what they show.

ghost use Rattle.std.specs.Prelude.{◌≡◌};
ghost use Rattle.rearrange.specs.Slots.{can_give, can_take, each_passes, fits_slot, is_apart, is_safe};
ghost use Rattle.proposals.specs.OfferSafety.{MeetSlots, MeetsSlot};
ghost use Rattle.refusals.specs.Outcomes.{Gives};
ghost use Rattle.rearrange.specs.Covered.{takes_share};

use proposals::allocations::Share;
use proposals::offers::Proposal;
use proposals::slots::{amount_of, is_offer_safe};
use refusals::amount_math_lib::Value;
use refusals::stops::Stop;
use value_tests::pairs::{check_has, check_overlap, check_sum};

/// That a share and the slot of its keyword have no key of a set in common: else `Overlap` with the least (ERTP).
fn check_share_apart(slots: &[Share], share: &Share) -> Result<(), Stop>
    requires { MeetsSlot slots.now share.now }
    ensures { Gives (λ _. tt) result (is_apart slots.now share.now) }
{
    match amount_of(slots, &share.keyword) {
        Some(slot) => check_overlap(&slot.value, &share.amount.value),
        None => check_overlap(
            &Value::empty(share.amount.value.kind()),
            &share.amount.value,
        ),
    }
}

/// That a share and the slot of its keyword are a value together: else `Overlap` or `TooMuch` (ERTP).
fn check_share_fits(slots: &[Share], share: &Share) -> Result<(), Stop>
    requires { MeetsSlot slots.now share.now }
    ensures { Gives (λ _. tt) result (fits_slot slots.now share.now) }
{
    match amount_of(slots, &share.keyword) {
        Some(slot) => check_sum(&slot.value, &share.amount.value),
        None => check_sum(
            &Value::empty(share.amount.value.kind()),
            &share.amount.value,
        ),
    }
}

/// That the slot of a share's keyword has what the share says: else `NotEnough` with both (ERTP).
fn check_share_covered(slots: &[Share], share: &Share) -> Result<(), Stop>
    requires { MeetsSlot slots.now share.now }
    ensures { Gives (λ _. tt) result (takes_share slots.now share.now) }
{
    match amount_of(slots, &share.keyword) {
        Some(slot) => check_has(&slot.value, &share.amount.value),
        None => check_has(
            &Value::empty(share.amount.value.kind()),
            &share.amount.value,
        ),
    }
}

/// That no share has a key of a set that its slot has: else `Overlap` of the first that has (Zoe).
#[tactic(auto, unfolding(refusals::specs::Outcomes::bind))]
fn check_apart(slots: &[Share], gains: &[Share]) -> Result<(), Stop>
    requires { MeetSlots slots.now gains.now }
    ensures { Gives (λ _. tt) result (each_passes (is_apart slots.now) gains.now) }
{
    for share in gains {
        check_share_apart(slots, share)?;
    }
    Ok(())
}

/// That each share is a value together with its slot: else `Overlap` or `TooMuch` of the first that isn't (Zoe).
#[tactic(auto, unfolding(refusals::specs::Outcomes::bind))]
pub fn check_fit(slots: &[Share], gains: &[Share]) -> Result<(), Stop>
    requires { MeetSlots slots.now gains.now }
    ensures { Gives (λ _. tt) result (each_passes (fits_slot slots.now) gains.now) }
{
    for share in gains {
        check_share_fits(slots, share)?;
    }
    Ok(())
}

/// That shares can be added to slots, however many they are: else `Overlap`, then `TooMuch` (Zoe).
#[tactic(auto, unfolding(crate::specs::Slots::can_give, refusals::specs::Outcomes::bind))]
pub fn check_gains(slots: &[Share], gains: &[Share]) -> Result<(), Stop>
    requires { MeetSlots slots.now gains.now }
    ensures { Gives (λ _. tt) result (can_give slots.now gains.now) }
{
    check_apart(slots, gains)?;
    check_fit(slots, gains)
}

/// That the slot of each share has what it says: else `NotEnough` of the first of which the slot has less (Zoe).
#[tactic(auto, unfolding(refusals::specs::Outcomes::bind))]
fn check_covered(slots: &[Share], losses: &[Share]) -> Result<(), Stop>
    requires { MeetSlots slots.now losses.now }
    ensures { Gives (λ _. tt) result (each_passes (takes_share slots.now) losses.now) }
{
    for share in losses {
        check_share_covered(slots, share)?;
    }
    Ok(())
}

/// That shares can be taken from slots, however many they are: else `NotEnough` (Zoe).
pub fn check_losses(slots: &[Share], losses: &[Share]) -> Result<(), Stop>
    requires { MeetSlots slots.now losses.now }
    ensures { Gives (λ _. tt) result (can_take slots.now losses.now) }
{
    check_covered(slots, losses)
}

/// Whether slots cover all that a proposal wants, or all that it gives (Zoe's offer safety).
pub fn is_safe(proposal: &Proposal, slots: &[Share]) -> bool
    requires want { MeetSlots slots.now proposal.now.want }
    requires give { MeetSlots slots.now proposal.now.give }
    ensures { result ≡ is_safe proposal.now slots.now }
{
    is_offer_safe(slots, proposal)
}
