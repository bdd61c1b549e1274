//! The method of deposit facets: what a facet receives goes to its purse (ERTP).

ghost use Rattle.refusals.specs.host_data.View.{trees};
ghost use Rattle.rules.specs.Deposit.{of_deposit};
ghost use Rattle.rules.specs.world_state.Good.{IsGoodWorld};
ghost use Rattle.std.specs.Prelude.{◌<◌, length};
ghost use Rattle.world_reads.specs.Handed.{AreHanded};
ghost use Rattle.world_reads.specs.call_outcomes.CallOutcomes.{GivesOutcome};
ghost use Rattle.world_reads.specs.host_world.Worlds.{world_of};

use crate::purse::deposit;
use refusals::host_data_lib::data::Data;
use refusals::stops::Stop;
use std::alloc::Global;
use world_reads::call_outcomes_lib::outcomes::CallOutcome;
use world_reads::host_world_lib::World;
use world_reads::words::without_method;

/// The methods of deposit facets.
pub fn serve_deposit(
    alloc: Global,
    world: &World,
    purse: u32,
    method: &str,
    args: &[Data],
) -> Result<CallOutcome, Stop>
    requires good { IsGoodWorld (world_of world.now) }
    requires made { purse < length (world_of world.now).rights.purses }
    requires handed { AreHanded (world_of world.now) (trees args.now) }
    ensures { GivesOutcome (of_deposit (world_of world.now) purse method.now (trees args.now)) result }
{
    match method {
        "receive" => deposit(alloc, world, purse, args),
        _ => without_method(alloc, method),
    }
}
