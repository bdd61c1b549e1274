//! Numbers of what is made next, and tests of instances and keywords.

ghost use Rattle.std.specs.Prelude.{◌≡◌, ◌≤◌, ◌<◌, ◌+◌, true, IfOk, OnOk, length};
ghost use Rattle.call_outcomes.specs.CallOutcomes.{GivesOutcome};
ghost use Rattle.rules.specs.Words.{is_offered_to, keyword_at, next_of, next_payment, runs, standing_of, without_method};
ghost use Rattle.rules.specs.ertp_mint.Stocks.{most_made};
ghost use Rattle.refusals.specs.host_text.Words.{is_keyword};
ghost use Rattle.host_world.specs.Worlds.{world_of};
ghost use Rattle.refusals.specs.host_data.View.{trees};
ghost use Rattle.refusals.specs.Outcomes.{Gives};
ghost use Rattle.rules.specs.world_state.Good.{open_slots};

use call_outcomes::outcomes::CallOutcome;
use host_world::World;
use host_world::draft_reads_lib::payment_reads::{payments_left, payments_made};
use refusals::codes::{NumberCode, TextCode};
use refusals::host_data_lib::data::Data;
use refusals::host_text_lib::text::Text;
use refusals::stops::Stop;
use rules::actors_lib::instance_store::Standing;
use rules::call_arguments_lib::places;
use std::alloc::Global;

/// The number of the next object, of which so many were made and so many at most can be: else `Limit`.
#[tactic(auto, unfolding(rules::specs::Words::next_of, refusals::specs::Outcomes::bind, refusals::specs::Outcomes::need))]
pub fn next_of(made: u32, most: u32) -> Result<u32, Stop>
    ensures gives { Gives (λ n. n) result (next_of made most) }
    ensures few { OnOk result (made < most) }
{
    if made < most {
        Ok(made)
    } else {
        Err(Stop::numbered(NumberCode::Limit, most))
    }
}

/// The number of the next payment, where one is left for each slot of an open seat: else `Limit`.
#[tactic(auto, unfolding(rules::specs::Words::next_payment, refusals::specs::Outcomes::bind, refusals::specs::Outcomes::need))]
pub fn next_payment(world: &World) -> Result<u32, Stop>
    ensures gives { Gives (λ n. n) result (next_payment (world_of world.now)) }
    ensures is { IfOk result (λ n. n ≡ length (world_of world.now).rights.payments) }
{
    if payments_left(&world.draft) == 0 {
        Err(Stop::numbered(NumberCode::Limit, u32::MAX))
    } else {
        Ok(payments_made(&world.draft))
    }
}

/// That an instance hasn't halted: else `Closed`.
#[tactic(auto, unfolding(rules::specs::Words::runs, refusals::specs::Outcomes::need))]
pub fn runs(world: &World, instance: u32) -> Result<(), Stop>
    requires { instance < length (world_of world.now).tables.instances }
    ensures { Gives (λ _. tt) result (runs (world_of world.now) instance) }
{
    match world.registers.instances.standing(instance) {
        Standing::Halted => Err(Stop::numbered(NumberCode::Closed, instance)),
        Standing::Accepting => Ok(()),
        Standing::Stopped => Ok(()),
    }
}

/// That an instance takes offers: else `Closed`.
#[tactic(auto, unfolding(rules::specs::Words::is_offered_to, refusals::specs::Outcomes::need))]
pub fn is_offered_to(world: &World, instance: u32) -> Result<(), Stop>
    requires { instance < length (world_of world.now).tables.instances }
    ensures { Gives (λ _. tt) result (is_offered_to (world_of world.now) instance) }
{
    match world.registers.instances.standing(instance) {
        Standing::Accepting => Ok(()),
        Standing::Halted => Err(Stop::numbered(NumberCode::Closed, instance)),
        Standing::Stopped => Err(Stop::numbered(NumberCode::Closed, instance)),
    }
}

/// The keyword at a place: else `BadKeyword` with the text that is there, with the empty one where none is (Zoe).
#[tactic(auto, using(crate::proofs::KeywordReads::keyword_same))]
pub fn keyword_at(alloc: Global, place: u32, args: &[Data]) -> Result<&Text, Stop>
    requires { 1 ≤ place }
    ensures gives { Gives (λ name. name.now) result (keyword_at place (trees args.now)) }
    ensures form { IfOk result (λ name. is_keyword name.now ≡ true) }
{
    places::keyword_at(alloc, place, args)
}

/// The target has no such method: `NoMethod`.
pub fn without_method(alloc: Global, method: &str) -> Result<CallOutcome, Stop>
    ensures { GivesOutcome (without_method method.now) result }
{
    Err(Stop::worded(alloc, TextCode::NoMethod, method))
}
