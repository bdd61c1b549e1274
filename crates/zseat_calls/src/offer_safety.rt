//! Whether a seat's offer would be safe.

ghost use Rattle.std.specs.Prelude.{◌≡◌};
ghost use Rattle.user_seat_calls.specs.call_outcomes.CallOutcomes.{Reads};
ghost use Rattle.rules.specs.States.{allocation_of};
ghost use Rattle.user_seat_calls.specs.host_world.Worlds.{world_of};
ghost use Rattle.host_data.specs.View.{trees};
ghost use Rattle.contract_reads.specs.Calls.{IsSeatCall};
ghost use Rattle.zseat_calls.specs.StagingParts.{asking};
ghost use Rattle.rules.specs.Zseat.{is_offer_safe};

use crate::slots::open_slots;
use contract_reads::seat_changes::shares::shares_for;
use host_data::data::Data;
use refusals::stops::Stop;
use rules::proposals_lib::allocations::Share;
use rules::rearrange_lib::slot_checks::is_safe;
use std::alloc::Global;
use user_seat_calls::draft_reads_lib::seat_reads::{seat_instance, seat_proposal};
use user_seat_calls::host_world_lib::World;

/// Whether an open seat's offer would be safe with the shares of a record (Zoe).
#[tactic(auto, using(contract_reads::proofs::Fits::hosted), unfolding(crate::specs::StagingParts::asking, refusals::specs::Outcomes::bind))]
fn ask_safe(
    alloc: Global,
    world: &World,
    seat: u32,
    slots: &[Share],
    args: &[Data],
) -> Result<Data, Stop>
    requires call { IsSeatCall (world_of world.now) seat (trees args.now) }
    requires slots { slots.now ≡ allocation_of (world_of world.now) seat }
    ensures { Reads (asking (world_of world.now) seat (trees args.now)) result }
{
    let instance = seat_instance(&world.draft, seat);
    let shares = shares_for(alloc, world, instance, seat, slots, 1, args)?;
    let proposal = seat_proposal(&world.draft, seat);
    Ok(Data::Bool(is_safe(proposal, shares.as_slice())))
}

/// zseat.isOfferSafe(record): a keyword that is missing has nothing (Zoe).
#[tactic(auto, unfolding(rules::specs::Zseat::is_offer_safe, crate::specs::StagingParts::asking, refusals::specs::Outcomes::bind))]
pub fn is_offer_safe(alloc: Global, world: &World, seat: u32, args: &[Data]) -> Result<Data, Stop>
    requires { IsSeatCall (world_of world.now) seat (trees args.now) }
    ensures { Reads (is_offer_safe (world_of world.now) seat (trees args.now)) result }
{
    let slots = open_slots(world, seat)?;
    ask_safe(alloc, world, seat, slots.shares(), args)
}
