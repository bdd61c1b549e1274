//! Slots less shares that they have.

ghost use Rattle.std.specs.Prelude.{◌≡◌, All, IfOk};
ghost use Rattle.proposals.specs.Losses.{CanLower, lowered, without};

use crate::allocations::Share;
use crate::slots::amount_of;
use std::alloc::{AllocError, Global};

/// A slot less what shares have under its keyword.
fn lowered(alloc: Global, slot: &Share, shares: &[Share]) -> Result<Share, AllocError>
    requires { CanLower shares.now slot.now }
    ensures { IfOk result (λ after. after ≡ lowered shares.now slot.now) }
{
    let mut after = slot.copy(alloc)?;
    if let Some(loss) = amount_of(shares, &slot.keyword) {
        after.amount.value.lessen(&loss.value);
    }
    Ok(after)
}

/// Each slot less what shares have under its keyword.
pub fn lowered_slots(
    alloc: Global,
    slots: &[Share],
    shares: &[Share],
) -> Result<Vec<Share>, AllocError>
    requires { All (CanLower shares.now) slots.now }
    ensures { IfOk result (λ after. after.items ≡ without slots.now shares.now) }
{
    let mut after = Vec::new(alloc);
    for slot in slots {
        after.push(lowered(alloc, slot, shares)?)?;
    }
    Ok(after)
}
