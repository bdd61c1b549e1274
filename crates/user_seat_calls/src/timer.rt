//! The method of the timer (Zoe's timer service).

ghost use Rattle.host_data.specs.Tree.{Tree};
ghost use Rattle.rules.specs.Timer.{get_current_timestamp, of_timer};
ghost use Rattle.std.specs.Prelude.{List};
ghost use Rattle.world_reads.specs.call_outcomes.CallOutcomes.{GivesOutcome, Reads};
ghost use Rattle.world_reads.specs.host_world.Worlds.{world_of};

use host_data::data::Data;
use refusals::stops::Stop;
use std::alloc::Global;
use world_reads::call_outcomes_lib::outcomes::{CallOutcome, outcome_of_reading};
use world_reads::host_world_lib::World;
use world_reads::words::without_method;

/// `timer.getCurrentTimestamp()` (Zoe's timer service).
#[tactic(auto, unfolding(rules::specs::Timer::get_current_timestamp))]
pub fn get_current_timestamp(world: &World) -> Result<Data, Stop>
    ensures { Reads (get_current_timestamp (world_of world.now)) result }
{
    Ok(Data::Number(i128::from(world.registers.timer.now())))
}

/// The methods of the timer.
pub fn serve_timer(alloc: Global, world: &World, method: &str) -> Result<CallOutcome, Stop>
    ensures { (args : List Tree) → GivesOutcome (of_timer (world_of world.now) method.now args) result }
{
    match method {
        "getCurrentTimestamp" => outcome_of_reading(alloc, get_current_timestamp(world)),
        _ => without_method(alloc, method),
    }
}
