//! Whether a seat's offer stays safe once shares are taken from its slots.

ghost use Rattle.std.specs.Prelude.{◌≡◌, ◌<◌, Ok, length};
ghost use Rattle.rules.specs.proposals.Losses.{with_losses};
ghost use Rattle.rules.specs.States.{allocation_of, seat_of};
ghost use Rattle.host_world.specs.Worlds.{world_of};
ghost use Rattle.rules.specs.rearrange.Slots.{can_take, is_safe};
ghost use Rattle.refusals.specs.Codes.{not_offer_safe};
ghost use Rattle.refusals.specs.Outcomes.{Gives, need};
ghost use Rattle.contract_reads.specs.Calls.{FitSlots};
ghost use Rattle.rules.specs.world_state.Good.{IsGoodWorld};

use crate::seat_changes::losses::slots_less;
use host_world::World;
use host_world::draft_reads_lib::seat_reads::seat_proposal;
use refusals::codes::NumberCode;
use refusals::stops::Stop;
use rules::proposals_lib::allocations::Share;
use rules::rearrange_lib::slot_checks::is_safe;
use std::alloc::Global;

/// That a seat's offer is safe once shares are taken from its slots, which have them: else `NotOfferSafe` (Zoe).
#[tactic(auto, using(crate::proofs::Lessened::give_met, crate::proofs::Lessened::shares_apart, crate::proofs::Lessened::want_met), unfolding(refusals::specs::Outcomes::need))]
pub fn check_safe(
    alloc: Global,
    world: &World,
    seat: u32,
    slots: &[Share],
    shares: &[Share],
) -> Result<(), Stop>
    requires good { IsGoodWorld (world_of world.now) }
    requires made { seat < length (world_of world.now).seats }
    requires slots { slots.now ≡ allocation_of (world_of world.now) seat }
    requires fit { FitSlots slots.now shares.now }
    requires taken { can_take slots.now shares.now ≡ Ok tt }
    ensures { Gives (λ _. tt) result (need
        (is_safe (seat_of (world_of world.now) seat).proposal (with_losses slots.now shares.now))
        (not_offer_safe seat)) }
{
    let after = slots_less(alloc, slots, shares)?;
    if is_safe(seat_proposal(&world.draft, seat), after.as_slice()) {
        Ok(())
    } else {
        Err(Stop::numbered(NumberCode::NotOfferSafe, seat))
    }
}
