//! What is staged of a seat: shares more, shares less, and none.

ghost use Rattle.std.specs.Prelude.{◌≡◌, ◌<◌, length};
ghost use Rattle.user_seat_calls.specs.call_outcomes.CallOutcomes.{GivesOutcome};
ghost use Rattle.rules.specs.States.{allocation_of, seat_of};
ghost use Rattle.rules.specs.Zseat.{clear, decrement_by, increment_by, shares_now};
ghost use Rattle.user_seat_calls.specs.host_world.Worlds.{world_of};
ghost use Rattle.host_data.specs.View.{trees};
ghost use Rattle.contract_reads.specs.Calls.{IsSeatCall};
ghost use Rattle.zseat_calls.specs.StagingParts.{adding, taking};
ghost use Rattle.rules.specs.world_state.Worlds.{IsOpen};

use crate::changes::{stage_less, stage_more};
use crate::slots::open_slots;
use contract_reads::contract_words::allocations::staged_allocation;
use contract_reads::contract_words::own_seats::check_open;
use contract_reads::seat_changes::shares::staged_shares;
use host_data::data::Data;
use refusals::stops::Stop;
use rules::proposals_lib::allocations::Share;
use std::alloc::Global;
use user_seat_calls::call_outcomes_lib::effects::{Effect, RightsEffect};
use user_seat_calls::call_outcomes_lib::outcomes::CallOutcome;
use user_seat_calls::host_world_lib::World;

/// What is staged of a seat, else what it has.
fn shares_now<'a>(world: &'a World, seat: u32, slots: &'a [Share]) -> &'a [Share]
    requires made { seat < length (world_of world.now).seats }
    requires open { IsOpen (seat_of (world_of world.now) seat) }
    requires slots { slots.now ≡ allocation_of (world_of world.now) seat }
    ensures { result.now ≡ shares_now (world_of world.now) seat }
{
    match staged_allocation(world, seat) {
        Some(staged) => staged.shares(),
        None => slots,
    }
}

/// Shares are added to what is staged of an open seat (Zoe).
#[tactic(auto, unfolding(crate::specs::StagingParts::adding, refusals::specs::Outcomes::bind))]
fn add_shares(
    alloc: Global,
    world: &World,
    seat: u32,
    slots: &[Share],
    args: &[Data],
) -> Result<CallOutcome, Stop>
    requires call { IsSeatCall (world_of world.now) seat (trees args.now) }
    requires open { IsOpen (seat_of (world_of world.now) seat) }
    requires slots { slots.now ≡ allocation_of (world_of world.now) seat }
    ensures { GivesOutcome (adding (world_of world.now) seat (trees args.now)) result }
{
    let now = shares_now(world, seat, slots);
    let shares = staged_shares(alloc, world, seat, slots, now, args)?;
    stage_more(alloc, seat, now, shares)
}

/// zseat.incrementBy(record) (Zoe).
#[tactic(auto, unfolding(rules::specs::Zseat::increment_by, crate::specs::StagingParts::adding, crate::specs::StagingParts::can_add, crate::specs::StagingParts::staged_more, refusals::specs::Outcomes::bind))]
pub fn increment_by(
    alloc: Global,
    world: &World,
    seat: u32,
    args: &[Data],
) -> Result<CallOutcome, Stop>
    requires { IsSeatCall (world_of world.now) seat (trees args.now) }
    ensures { GivesOutcome (increment_by (world_of world.now) seat (trees args.now)) result }
{
    let slots = open_slots(world, seat)?;
    add_shares(alloc, world, seat, slots.shares(), args)
}

/// Shares are taken from what is staged of an open seat (Zoe).
#[tactic(auto, unfolding(crate::specs::StagingParts::taking, refusals::specs::Outcomes::bind))]
fn take_shares(
    alloc: Global,
    world: &World,
    seat: u32,
    slots: &[Share],
    args: &[Data],
) -> Result<CallOutcome, Stop>
    requires call { IsSeatCall (world_of world.now) seat (trees args.now) }
    requires open { IsOpen (seat_of (world_of world.now) seat) }
    requires slots { slots.now ≡ allocation_of (world_of world.now) seat }
    ensures { GivesOutcome (taking (world_of world.now) seat (trees args.now)) result }
{
    let now = shares_now(world, seat, slots);
    let shares = staged_shares(alloc, world, seat, slots, now, args)?;
    stage_less(alloc, seat, now, shares.as_slice())
}

/// zseat.decrementBy(record) (Zoe).
#[tactic(auto, unfolding(rules::specs::Zseat::decrement_by, crate::specs::StagingParts::taking, crate::specs::StagingParts::staged_less, refusals::specs::Outcomes::bind))]
pub fn decrement_by(
    alloc: Global,
    world: &World,
    seat: u32,
    args: &[Data],
) -> Result<CallOutcome, Stop>
    requires { IsSeatCall (world_of world.now) seat (trees args.now) }
    ensures { GivesOutcome (decrement_by (world_of world.now) seat (trees args.now)) result }
{
    let slots = open_slots(world, seat)?;
    take_shares(alloc, world, seat, slots.shares(), args)
}

/// zseat.clear(): what is staged of the seat is dropped (Zoe).
#[tactic(auto, unfolding(rules::specs::Zseat::clear, refusals::specs::Outcomes::bind))]
pub fn clear(alloc: Global, world: &World, seat: u32) -> Result<CallOutcome, Stop>
    requires { seat < length (world_of world.now).seats }
    ensures { GivesOutcome (clear (world_of world.now) seat) result }
{
    check_open(world, seat)?;
    let unstage = Effect::Rights(RightsEffect::Unstage(seat));
    Ok(CallOutcome::with_effect(alloc, Data::Null, unstage)?)
}
