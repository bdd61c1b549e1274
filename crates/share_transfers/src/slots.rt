//! Slots with shares more and with shares less, however many these are.

ghost use Rattle.std.specs.Prelude.{◌≡◌, All, IfOk};
ghost use Rattle.call_arguments.specs.proposals.Gains.{with_gains};
ghost use Rattle.call_arguments.specs.proposals.Losses.{without};
ghost use Rattle.rearrange.specs.Slots.{can_give, can_take};
ghost use Rattle.rearrange.specs.Bounds.{HasValue};
ghost use Rattle.call_arguments.specs.proposals.OfferSafety.{MeetSlots};
ghost use Rattle.call_arguments.specs.proposals.Shares.{AreApart};
ghost use Rattle.refusals.specs.Outcomes.{Gives};

use call_arguments::proposals_lib::allocations::Share;
use call_arguments::proposals_lib::gains::raised_slots;
use call_arguments::proposals_lib::losses::lowered_slots;
use call_arguments::proposals_lib::slots::open_further;
use rearrange::slot_checks::{check_gains, check_losses};
use refusals::stops::Stop;
use std::alloc::Global;

/// That shares have values of their kinds, for a caller's proof.
fn have_values(shares: &[Share])
    ensures { All HasValue shares.now }
{
    for share in shares {
        let _kind = share.amount.value.kind();
    }
}

/// Each slot less what shares have under its keyword: else `NotEnough` of the first of which the slot has less (Zoe).
pub fn slots_less(alloc: Global, slots: &[Share], losses: &[Share]) -> Result<Vec<Share>, Stop>
    requires meet { MeetSlots slots.now losses.now }
    requires apart { AreApart slots.now }
    ensures gives { Gives (λ _. tt) result (can_take slots.now losses.now) }
    ensures after { IfOk result (λ after. after.items ≡ without slots.now losses.now) }
    ensures apart { IfOk result (λ after. AreApart after.items) }
{
    check_losses(slots, losses)?;
    Ok(lowered_slots(alloc, slots, losses)?)
}

/// Slots with shares more, those of keywords that had none last in byte order: else `Overlap`, then `TooMuch` (Zoe).
pub fn slots_more(alloc: Global, slots: &[Share], gains: &[Share]) -> Result<Vec<Share>, Stop>
    requires meet { MeetSlots slots.now gains.now }
    requires apart { AreApart slots.now }
    requires given { AreApart gains.now }
    ensures gives { Gives (λ _. tt) result (can_give slots.now gains.now) }
    ensures after { IfOk result (λ after. after.items ≡ with_gains slots.now gains.now) }
    ensures apart { IfOk result (λ after. AreApart after.items) }
{
    have_values(slots);
    have_values(gains);
    check_gains(slots, gains)?;
    let mut after = raised_slots(alloc, slots, gains)?;
    open_further(alloc, &mut after, slots, gains)?;
    Ok(after)
}
