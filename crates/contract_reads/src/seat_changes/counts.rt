//! How many slots there are once shares are added or taken, and the room that this needs.

ghost use Rattle.std.specs.Prelude.{◌≡◌, ◌≤◌, ◌+◌, [], ◌∷◌, OnOk, length};
ghost use Rattle.rules.specs.proposals.Gains.{with_gains};
ghost use Rattle.rules.specs.proposals.Losses.{with_losses};
ghost use Rattle.rules.specs.proposals.ChangedShares.{further};
ghost use Rattle.rules.specs.ertp_mint.Stocks.{most_made};
ghost use Rattle.host_world.specs.Worlds.{world_of};
ghost use Rattle.rules.specs.proposals.declared.plans.Touched.{Touched};
ghost use Rattle.refusals.specs.Outcomes.{Gives};
ghost use Rattle.rules.specs.States.{has_room, leaves_room};

use host_world::World;
use host_world::draft_reads_lib::payment_reads::payments_left;
use refusals::codes::NumberCode;
use refusals::stops::Stop;
use rules::proposals_lib::allocations::Share;
use rules::proposals_lib::slots::amount_of;

/// The most slots of a seat (own).
const MOST_SLOTS: usize = 64;

/// How many keywords of shares have no slot.
fn fresh_slots(slots: &[Share], shares: &[Share]) -> usize
    ensures many { result ≡ length (further slots.now shares.now) }
    ensures few { result ≤ length shares.now }
{
    let mut fresh = 0;
    for share in shares {
        if amount_of(slots, &share.keyword).is_none() {
            fresh += 1;
        }
    }
    fresh
}

/// How many slots there are once shares are added to them, or taken from them: a keyword without slot gets one.
#[tactic(auto, using(crate::proofs::Fresh::gains_are, crate::proofs::Fresh::losses_are))]
pub fn slots_after(slots: &[Share], shares: &[Share]) -> usize
    ensures gained { result ≡ length (with_gains slots.now shares.now) }
    ensures lost { result ≡ length (with_losses slots.now shares.now) }
{
    slots.len() + fresh_slots(slots, shares)
}

/// That so many slots may be opened, and so many payments be made, one payment being left for each slot of an open
/// seat: else `Limit` (own).
#[tactic(auto, unfolding(rules::specs::States::leaves_room, refusals::specs::Outcomes::need))]
pub fn check_left(world: &World, opened: usize, payments: usize) -> Result<(), Stop>
    ensures gives { Gives (λ _. tt) result (leaves_room (world_of world.now) (opened + payments)) }
    ensures left { OnOk result (length (world_of world.now).rights.payments + payments ≤ most_made) }
{
    let left = payments_left(&world.draft) as usize;
    if left < opened || left - opened < payments {
        Err(Stop::numbered(NumberCode::Limit, u32::MAX))
    } else {
        Ok(())
    }
}

/// That a seat may have so many slots in place of others, and that so many payments may be made: else `Limit` (own).
#[tactic(auto, unfolding(rules::specs::States::has_room, refusals::specs::Outcomes::bind, refusals::specs::Outcomes::need))]
pub fn check_room(world: &World, before: usize, after: usize, payments: usize) -> Result<(), Stop>
    ensures gives { (t : Touched) → length t.before ≡ before → length t.after ≡ after
        → Gives (λ _. tt) result (has_room (world_of world.now) (t ∷ []) payments) }
    ensures left { OnOk result (length (world_of world.now).rights.payments + payments ≤ most_made) }
{
    if after > MOST_SLOTS {
        return Err(Stop::numbered(NumberCode::Limit, MOST_SLOTS as u32));
    }
    check_left(world, after.saturating_sub(before), payments)
}
