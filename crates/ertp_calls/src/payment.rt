//! The method of payments (ERTP).

ghost use Rattle.rules.specs.Payment as payment_rules;
ghost use Rattle.refusals.specs.host_data.Tree.{Tree};
ghost use Rattle.rules.specs.Payment.{of_payment};
ghost use Rattle.rules.specs.world_state.Good.{IsGoodWorld};
ghost use Rattle.std.specs.Prelude.{◌<◌, List, length};
ghost use Rattle.world_reads.specs.call_outcomes.CallOutcomes.{GivesOutcome, Reads};
ghost use Rattle.world_reads.specs.host_world.Worlds.{world_of};

use crate::brand::brand_data;
use refusals::host_data_lib::data::Data;
use refusals::stops::Stop;
use std::alloc::Global;
use world_reads::call_outcomes_lib::outcomes::{CallOutcome, outcome_of_reading};
use world_reads::draft_reads_lib::payment_reads::payment_brand;
use world_reads::host_world_lib::World;
use world_reads::words::without_method;

/// `payment.getAllegedBrand()`, of one that was spent too (ERTP).
#[tactic(auto, using(crate::proofs::HeldKinds::payment_brand_made), unfolding(rules::specs::Payment::get_alleged_brand))]
pub fn get_alleged_brand(world: &World, payment: u32) -> Result<Data, Stop>
    requires good { IsGoodWorld (world_of world.now) }
    requires made { payment < length (world_of world.now).rights.payments }
    ensures { Reads (payment_rules.get_alleged_brand (world_of world.now) payment) result }
{
    Ok(brand_data(world, payment_brand(&world.draft, payment)))
}

/// The methods of payments.
pub fn serve_payment(
    alloc: Global,
    world: &World,
    payment: u32,
    method: &str,
) -> Result<CallOutcome, Stop>
    requires good { IsGoodWorld (world_of world.now) }
    requires made { payment < length (world_of world.now).rights.payments }
    ensures { (args : List Tree)
        → GivesOutcome (of_payment (world_of world.now) payment method.now args) result }
{
    match method {
        "getAllegedBrand" => outcome_of_reading(alloc, get_alleged_brand(world, payment)),
        _ => without_method(alloc, method),
    }
}
