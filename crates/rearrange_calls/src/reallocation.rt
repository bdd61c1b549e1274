//! Seats take over what is staged of them (Zoe's reallocate).

ghost use Rattle.std.specs.Prelude.{◌≡◌, ◌<◌, ◌^◌, All, IfOk, length};
ghost use Rattle.world_reads.specs.call_outcomes.Lists.{IsEachShaped};
ghost use Rattle.world_reads.specs.call_outcomes.CallOutcomes.{GivesOutcome, outcome_view};
ghost use Rattle.share_transfers.specs.contract_reads.Known.{AreKnown};
ghost use Rattle.world_reads.specs.host_world.Worlds.{world_of};
ghost use Rattle.host_data.specs.Tree.{null};
ghost use Rattle.host_data.specs.View.{trees};
ghost use Rattle.host_data.specs.declared.data.ObjKind.TheVariants as kinds;
ghost use Rattle.rearrange_calls.specs.Passed.{ArePassed};
ghost use Rattle.rearrange_calls.specs.Left.{carried, reallocated};
ghost use Rattle.rules.specs.call_arguments.Lists.{each_object};
ghost use Rattle.refusals.specs.Outcomes.{Gives};
ghost use Rattle.rules.specs.Rearranging.{carried_out};
ghost use Rattle.rules.specs.Zcf.{reallocate};
ghost use Rattle.rules.specs.world_state.Good.{IsGoodWorld};

use crate::reallocation_changes::changes;
use crate::rearrangement_effects::{check_room, rearrange_effects};
use host_data::data::{Data, ObjKind};
use refusals::stops::Stop;
use rules::call_arguments_lib::lists::each_object;
use rules::proposals_lib::plans::Touched;
use std::alloc::{AllocError, Global};
use world_reads::call_outcomes_lib::outcomes::CallOutcome;
use world_reads::draft_reads_lib::seat_reads::seats_made;
use world_reads::host_world_lib::World;
use world_reads::words::runs;

/// The seats that the arguments are: else `WrongObject` with the place of the first that is none (Zoe).
#[tactic(auto, using(crate::proofs::SeatsGiven::args_made, crate::proofs::SeatsGiven::few_read))]
fn seats_given(alloc: Global, world: &World, args: &[Data]) -> Result<Vec<u32>, Stop>
    requires known { AreKnown (world_of world.now) (trees args.now) }
    requires few { length args.now < 2 ^ 32 }
    ensures gives { Gives (λ ns. ns.items) result (each_object kinds.Zseat 1 (trees args.now)) }
    ensures made { IfOk result (λ ns. All (λ n. n < length (world_of world.now).seats) ns.items) }
    ensures few { IfOk result (λ ns. length ns.items < 2 ^ 32) }
{
    each_object(alloc, ObjKind::Zseat, seats_made(&world.draft), args)
}

/// The plan that does what touched seats come to.
fn effects_plan(alloc: Global, touched: &[Touched]) -> Result<CallOutcome, AllocError>
    requires { ArePassed touched.now }
    ensures plan { IfOk result (λ plan. outcome_view plan ≡ (null, carried_out touched.now)) }
    ensures shaped { IfOk result (λ plan. IsEachShaped plan.effects) }
{
    let effects = rearrange_effects(alloc, touched)?;
    Ok(CallOutcome {
        answer: Data::Null,
        effects,
    })
}

/// What touched seats come to is done, where the slots that are opened leave room: else `Limit` (own).
#[tactic(auto, unfolding(crate::specs::Left::carried, refusals::specs::Outcomes::bind))]
fn plan_with_room(alloc: Global, world: &World, touched: &[Touched]) -> Result<CallOutcome, Stop>
    requires { ArePassed touched.now }
    ensures { GivesOutcome (carried (world_of world.now) touched.now) result }
{
    check_room(world, touched)?;
    Ok(effects_plan(alloc, touched)?)
}

/// Seats take over what is staged of them.
#[tactic(auto, unfolding(crate::specs::Left::reallocated, refusals::specs::Outcomes::bind))]
fn reallocation_plan(
    alloc: Global,
    world: &World,
    instance: u32,
    seats: &[u32],
) -> Result<CallOutcome, Stop>
    requires good { IsGoodWorld (world_of world.now) }
    requires made { All (λ n. n < length (world_of world.now).seats) seats.now }
    requires few { length seats.now < 2 ^ 32 }
    ensures { GivesOutcome (reallocated (world_of world.now) instance seats.now) result }
{
    let plan = changes(alloc, world, instance, seats)?;
    plan_with_room(alloc, world, plan.touched())
}

/// zcf.reallocate(seat, seat, ..): at most 4,294,967,295 arguments, so that the place of each can be shown (Zoe).
#[tactic(auto, unfolding(rules::specs::Zcf::reallocate, crate::specs::Left::carried, crate::specs::Left::reallocated, refusals::specs::Outcomes::bind))]
pub fn reallocate(
    alloc: Global,
    world: &World,
    instance: u32,
    args: &[Data],
) -> Result<CallOutcome, Stop>
    requires good { IsGoodWorld (world_of world.now) }
    requires hosted { instance < length (world_of world.now).tables.instances }
    requires known { AreKnown (world_of world.now) (trees args.now) }
    requires few { length args.now < 2 ^ 32 }
    ensures { GivesOutcome (reallocate (world_of world.now) instance (trees args.now)) result }
{
    runs(world, instance)?;
    let seats = seats_given(alloc, world, args)?;
    reallocation_plan(alloc, world, instance, seats.as_slice())
}
