//! What slots have once shares are taken from them that they have.

ghost use Rattle.std.specs.Prelude.{◌≡◌, IfOk, Ok};
ghost use Rattle.rules.specs.proposals.Losses.{with_losses};
ghost use Rattle.rules.specs.rearrange.Slots.{can_take};
ghost use Rattle.rules.specs.proposals.Shares.{AreApart};
ghost use Rattle.contract_reads.specs.Calls.{FitSlots};

use rules::proposals_lib::allocations::Share;
use rules::proposals_lib::losses::lowered_slots;
use rules::proposals_lib::slots::open_further;
use std::alloc::{AllocError, Global};

/// Slots less shares that they have, and then those of keywords that had no slot, which have nothing, in byte order.
pub fn slots_less(
    alloc: Global,
    slots: &[Share],
    shares: &[Share],
) -> Result<Vec<Share>, AllocError>
    requires apart { AreApart slots.now }
    requires fit { FitSlots slots.now shares.now }
    requires taken { can_take slots.now shares.now ≡ Ok tt }
    ensures after { IfOk result (λ after. after.items ≡ with_losses slots.now shares.now) }
    ensures apart { IfOk result (λ after. AreApart after.items) }
{
    let mut after = lowered_slots(alloc, slots, shares)?;
    open_further(alloc, &mut after, slots, shares)?;
    Ok(after)
}
