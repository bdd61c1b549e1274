//! How a seat is left, and whether it was.

ghost use Rattle.std.specs.Prelude.{◌<◌, length};
ghost use Rattle.user_seat_calls.specs.call_outcomes.CallOutcomes.{GivesOutcome, Reads};
ghost use Rattle.rules.specs.Zseat.{fail, has_exited, leave};
ghost use Rattle.user_seat_calls.specs.host_world.Worlds.{world_of};
ghost use Rattle.host_data.specs.View.{trees};

use contract_reads::contract_words::objects::check_not_local;
use contract_reads::contract_words::own_seats::check_open;
use host_data::data::Data;
use refusals::stops::Stop;
use rules::call_arguments_lib::places::{argument, copy_of};
use rules::turn_records_lib::events::Cause;
use std::alloc::Global;
use user_seat_calls::call_outcomes_lib::effects::{Effect, SeatsEffect};
use user_seat_calls::call_outcomes_lib::outcomes::CallOutcome;
use user_seat_calls::draft_reads_lib::seat_reads::is_open;
use user_seat_calls::host_world_lib::World;

/// zseat.exit(): the seat is left (Zoe).
#[tactic(auto, unfolding(rules::specs::Zseat::leave, refusals::specs::Outcomes::bind))]
pub fn leave(alloc: Global, world: &World, seat: u32) -> Result<CallOutcome, Stop>
    requires { seat < length (world_of world.now).seats }
    ensures { GivesOutcome (leave (world_of world.now) seat) result }
{
    check_open(world, seat)?;
    let exit = Effect::Seats(SeatsEffect::Exit(seat, Cause::Exit));
    Ok(CallOutcome::with_effect(alloc, Data::Null, exit)?)
}

/// zseat.fail(reason): the seat is left, and the reason is answered (Zoe).
#[tactic(auto, unfolding(rules::specs::Zseat::fail, refusals::specs::Outcomes::bind))]
pub fn fail(alloc: Global, world: &World, seat: u32, args: &[Data]) -> Result<CallOutcome, Stop>
    requires { seat < length (world_of world.now).seats }
    ensures { GivesOutcome (fail (world_of world.now) seat (trees args.now)) result }
{
    check_open(world, seat)?;
    check_not_local(1, args)?;
    let reason = copy_of(alloc, argument(args, 1))?;
    let exit = Effect::Seats(SeatsEffect::Exit(seat, Cause::Fail));
    Ok(CallOutcome::with_effect(alloc, reason, exit)?)
}

/// zseat.hasExited() (Zoe).
#[tactic(auto, using(crate::proofs::Exited::exited_is), unfolding(rules::specs::Zseat::has_exited))]
pub fn has_exited(world: &World, seat: u32) -> Result<Data, Stop>
    requires { seat < length (world_of world.now).seats }
    ensures { Reads (has_exited (world_of world.now) seat) result }
{
    Ok(Data::Bool(!is_open(&world.draft, seat)))
}
