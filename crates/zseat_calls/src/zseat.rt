//! The table of a ZCF seat: its methods, by their names.

ghost use Rattle.user_seat_calls.specs.call_outcomes.CallOutcomes.{GivesOutcome};
ghost use Rattle.zseat_calls.specs.TableParts.{of_held, of_own};
ghost use Rattle.user_seat_calls.specs.host_world.Worlds.{world_of};
ghost use Rattle.host_data.specs.View.{trees};
ghost use Rattle.contract_reads.specs.Calls.{IsSeatCall};
ghost use Rattle.rules.specs.Zseat.{of_zseat};

use crate::offer_safety::is_offer_safe;
use crate::staging::{clear, decrement_by, increment_by};
use crate::{amounts, exits};
use host_data::data::Data;
use refusals::stops::Stop;
use std::alloc::Global;
use user_seat_calls::call_outcomes_lib::outcomes::{CallOutcome, outcome_of_reading};
use user_seat_calls::host_world_lib::World;
use user_seat_calls::world_reads_lib::words::without_method;

/// A method that tells or drops what the seat has (Zoe).
fn of_held(
    alloc: Global,
    world: &World,
    seat: u32,
    method: &str,
    args: &[Data],
) -> Result<CallOutcome, Stop>
    requires { IsSeatCall (world_of world.now) seat (trees args.now) }
    ensures { GivesOutcome (of_held (world_of world.now) seat method.now (trees args.now)) result }
{
    match method {
        "getCurrentAllocation" => {
            outcome_of_reading(alloc, amounts::get_current_allocation(alloc, world, seat))
        }
        "getStagedAllocation" => {
            outcome_of_reading(alloc, amounts::get_staged_allocation(alloc, world, seat))
        }
        "getAmountAllocated" => {
            outcome_of_reading(
                alloc,
                amounts::get_amount_allocated(alloc, world, seat, args),
            )
        }
        "clear" => clear(alloc, world, seat),
        _ => without_method(alloc, method),
    }
}

/// A method that leaves the seat, or tells what it has (Zoe).
fn of_own(
    alloc: Global,
    world: &World,
    seat: u32,
    method: &str,
    args: &[Data],
) -> Result<CallOutcome, Stop>
    requires { IsSeatCall (world_of world.now) seat (trees args.now) }
    ensures { GivesOutcome (of_own (world_of world.now) seat method.now (trees args.now)) result }
{
    match method {
        "exit" => exits::leave(alloc, world, seat),
        "fail" => exits::fail(alloc, world, seat, args),
        "hasExited" => outcome_of_reading(alloc, exits::has_exited(world, seat)),
        _ => of_held(alloc, world, seat, method, args),
    }
}

/// A method of a ZCF seat (Zoe).
pub fn of_zseat(
    alloc: Global,
    world: &World,
    seat: u32,
    method: &str,
    args: &[Data],
) -> Result<CallOutcome, Stop>
    requires { IsSeatCall (world_of world.now) seat (trees args.now) }
    ensures { GivesOutcome (of_zseat (world_of world.now) seat method.now (trees args.now)) result }
{
    match method {
        "getProposal" => outcome_of_reading(alloc, amounts::get_proposal(alloc, world, seat)),
        "isOfferSafe" => outcome_of_reading(alloc, is_offer_safe(alloc, world, seat, args)),
        "incrementBy" => increment_by(alloc, world, seat, args),
        "decrementBy" => decrement_by(alloc, world, seat, args),
        _ => of_own(alloc, world, seat, method, args),
    }
}
