//! Seats are rearranged by transfers (Zoe's atomicRearrange).

ghost use Rattle.std.specs.Prelude.{◌≡◌, ◌<◌, All, IfOk, Some, length};
ghost use Rattle.rules.specs.call_arguments.Arguments.{object_in};
ghost use Rattle.host_data.specs.Amounts.{read_all};
ghost use Rattle.world_reads.specs.call_outcomes.Lists.{IsEachShaped};
ghost use Rattle.world_reads.specs.call_outcomes.CallOutcomes.{GivesOutcome, outcome_view};
ghost use Rattle.share_transfers.specs.contract_reads.Known.{AreKnown};
ghost use Rattle.world_reads.specs.host_world.Worlds.{world_of};
ghost use Rattle.host_data.specs.Tree.{null};
ghost use Rattle.host_data.specs.View.{trees};
ghost use Rattle.host_data.specs.declared.data.ObjKind.TheVariants as kinds;
ghost use Rattle.rearrange_calls.specs.TransferStates.{AreStatesFor};
ghost use Rattle.rearrange_calls.specs.Passed.{ArePassed};
ghost use Rattle.rearrange.specs.TestedPlans.{can_take_part};
ghost use Rattle.refusals.specs.Outcomes.{Gives, bind};
ghost use Rattle.rules.specs.Zcf.{atomic_rearrange};
ghost use Rattle.rules.specs.Rearranging.{carried_out, seat_trees};
ghost use Rattle.share_transfers.specs.Views.{parts_views};
ghost use Rattle.rearrange_calls.specs.Steps.{AreFromData, carried, changed, moved, parts_at, seats_moved, tested};
ghost use Rattle.rules.specs.world_state.Good.{IsGoodWorld};

use crate::rearrangement_effects::{check_room, rearrange_effects};
use crate::transfer_changes::changes;
use crate::transfer_states::{check_part, states_for};
use host_data::data::Data;
use rearrange::seat_states::SeatStates;
use refusals::stops::Stop;
use rules::call_arguments_lib::places::list_at;
use rules::proposals_lib::plans::{self, Touched};
use share_transfers::named_seats::seats_named;
use share_transfers::parts::{GivenParts, all_parts};
use std::alloc::{AllocError, Global};
use world_reads::call_outcomes_lib::outcomes::CallOutcome;
use world_reads::host_world_lib::World;
use world_reads::words::runs;

/// The parts of the transfers that the first argument lists: else `BadArgs` 1 (own).
#[tactic(auto, unfolding(crate::specs::Steps::parts_at, refusals::specs::Outcomes::bind))]
fn parts_at(alloc: Global, args: &[Data]) -> Result<Vec<GivenParts<'_>>, Stop>
    ensures { Gives (λ list. parts_views list.items) result (parts_at (trees args.now)) }
{
    let items = list_at(1, args)?;
    all_parts(alloc, items)
}

/// The plan that does what touched seats come to.
fn effects_plan(alloc: Global, touched: &[Touched]) -> Result<CallOutcome, AllocError>
    requires { ArePassed touched.now }
    ensures plan { IfOk result (λ plan. outcome_view plan ≡ (null, carried_out touched.now)) }
    ensures shaped { IfOk result (λ plan. IsEachShaped plan.effects) }
{
    let effects = rearrange_effects(alloc, touched)?;
    Ok(CallOutcome {
        answer: Data::Null,
        effects,
    })
}

/// The plan that does what touched seats come to, where there is room: else `Limit` (own).
#[tactic(auto, unfolding(crate::specs::Steps::carried, refusals::specs::Outcomes::bind))]
fn plan_with_room(alloc: Global, world: &World, touched: &[Touched]) -> Result<CallOutcome, Stop>
    requires { ArePassed touched.now }
    ensures { GivesOutcome (carried (world_of world.now) touched.now) result }
{
    check_room(world, touched)?;
    Ok(effects_plan(alloc, touched)?)
}

/// What the transfers come to between seats in these states: `WrongInstance`, `SeatExited`, then the tests of the changes.
#[tactic(auto, unfolding(refusals::specs::Outcomes::bind))]
fn changes_between(
    alloc: Global,
    world: &World,
    instance: u32,
    states: &SeatStates,
    seats: &[u32],
    list: &[GivenParts],
) -> Result<plans::Plan, Stop>
    requires good { IsGoodWorld (world_of world.now) }
    requires hosted { instance < length (world_of world.now).tables.instances }
    requires source { AreFromData (world_of world.now) (parts_views list.now) }
    requires named { read_all (object_in kinds.Zseat) (seat_trees (parts_views list.now))
        ≡ Some seats.now }
    requires states { AreStatesFor (world_of world.now) seats.now states.now }
    ensures gives { Gives (λ plan. plan) result (bind (can_take_part instance states.now seats.now)
        (λ _. changed (world_of world.now) instance seats.now (parts_views list.now))) }
    ensures passed { IfOk result ArePassed }
{
    check_part(instance, states, seats)?;
    changes(alloc, world, instance, states, seats, list)
}

/// What the transfers come to between their seats, whose states are made once each.
fn tested_changes(
    alloc: Global,
    world: &World,
    instance: u32,
    seats: &[u32],
    list: &[GivenParts],
) -> Result<plans::Plan, Stop>
    requires good { IsGoodWorld (world_of world.now) }
    requires hosted { instance < length (world_of world.now).tables.instances }
    requires source { AreFromData (world_of world.now) (parts_views list.now) }
    requires named { read_all (object_in kinds.Zseat) (seat_trees (parts_views list.now))
        ≡ Some seats.now }
    requires made { All (λ n. n < length (world_of world.now).seats) seats.now }
    ensures gives { Gives (λ plan. plan) result
        (tested (world_of world.now) instance seats.now (parts_views list.now)) }
    ensures passed { IfOk result ArePassed }
{
    let states = states_for(alloc, world, seats)?;
    changes_between(alloc, world, instance, &states, seats, list)
}

/// The plan that moves what the transfers say between their seats.
#[tactic(auto, unfolding(crate::specs::Steps::moved, refusals::specs::Outcomes::bind))]
fn transfers_plan(
    alloc: Global,
    world: &World,
    instance: u32,
    seats: &[u32],
    list: &[GivenParts],
) -> Result<CallOutcome, Stop>
    requires good { IsGoodWorld (world_of world.now) }
    requires hosted { instance < length (world_of world.now).tables.instances }
    requires source { AreFromData (world_of world.now) (parts_views list.now) }
    requires named { read_all (object_in kinds.Zseat) (seat_trees (parts_views list.now))
        ≡ Some seats.now }
    requires made { All (λ n. n < length (world_of world.now).seats) seats.now }
    ensures { GivesOutcome (moved (world_of world.now) instance seats.now (parts_views list.now))
        result }
{
    let plan = tested_changes(alloc, world, instance, seats, list)?;
    plan_with_room(alloc, world, plan.touched())
}

/// The plan for the seats that the transfers name: else `WrongObject` 1 (Zoe).
#[tactic(auto, using(crate::proofs::Seated::seats_read), unfolding(crate::specs::Steps::seats_moved, refusals::specs::Outcomes::bind))]
fn plan_for_seats(
    alloc: Global,
    world: &World,
    instance: u32,
    list: &[GivenParts],
) -> Result<CallOutcome, Stop>
    requires good { IsGoodWorld (world_of world.now) }
    requires hosted { instance < length (world_of world.now).tables.instances }
    requires source { AreFromData (world_of world.now) (parts_views list.now) }
    ensures { GivesOutcome (seats_moved (world_of world.now) instance (parts_views list.now))
        result }
{
    let seats = seats_named(alloc, list)?;
    transfers_plan(alloc, world, instance, seats.as_slice(), list)
}

/// zcf.atomicRearrange(list): what each transfer takes is taken from the seat that gives, and what it gives is given to
/// the one that gets, all together or none (Zoe).
#[tactic(auto, using(crate::proofs::Seated::share_is), unfolding(crate::specs::Steps::rearranged, refusals::specs::Outcomes::bind))]
pub fn atomic_rearrange(
    alloc: Global,
    world: &World,
    instance: u32,
    args: &[Data],
) -> Result<CallOutcome, Stop>
    requires good { IsGoodWorld (world_of world.now) }
    requires hosted { instance < length (world_of world.now).tables.instances }
    requires known { AreKnown (world_of world.now) (trees args.now) }
    ensures { GivesOutcome (atomic_rearrange (world_of world.now) instance (trees args.now))
        result }
{
    runs(world, instance)?;
    let list = parts_at(alloc, args)?;
    plan_for_seats(alloc, world, instance, list.as_slice())
}
