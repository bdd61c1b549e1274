//! Wakeups that an instance asks for.

ghost use Rattle.std.specs.Prelude.{◌≡◌, ◌<◌, ◌∷◌, [], IfOk, Ok, length};
ghost use Rattle.host_data.specs.Amounts.{seen};
ghost use Rattle.escrow_calls.specs.call_outcomes.CallOutcomes.{GivesOutcome};
ghost use Rattle.escrow_calls.specs.contract_reads.Known.{AreKnown};
ghost use Rattle.escrow_calls.specs.host_world.Worlds.{world_of};
ghost use Rattle.host_data.specs.Tree.{null};
ghost use Rattle.host_data.specs.View.{trees};
ghost use Rattle.refusals.specs.Outcomes.{Gives};
ghost use Rattle.rules.specs.Zcf.{wake_at, wakeup_of};
ghost use Rattle.rules.specs.turn_records.Views.{wakeup_view};
ghost use Rattle.rules.specs.world_state.Worlds.{wake};
ghost use Rattle.zcf_calls.specs.Requests.{time_and_function};

use escrow_calls::call_outcomes_lib::effects::{Effect, PromisesEffect};
use escrow_calls::call_outcomes_lib::outcomes::CallOutcome;
use escrow_calls::contract_reads_lib::contract_words::objects::check_timer;
use escrow_calls::host_world_lib::World;
use escrow_calls::world_reads_lib::words::runs;
use host_data::data::Data;
use refusals::host_text_lib::text::Text;
use refusals::stops::Stop;
use rules::call_arguments_lib::places::{argument, copy_of, function_at, number_at};
use rules::turn_records_lib::deliveries::Wakeup;
use std::alloc::{AllocError, Global};

/// The latest time of a timer.
const LATEST: u64 = (1 << 63) - 1;

/// What is kept of a wakeup.
fn wakeup(
    alloc: Global,
    instance: u32,
    function: &Text,
    held: Option<&Data>,
) -> Result<Wakeup, AllocError>
    ensures { IfOk result (λ made. wakeup_view made
        ≡ wakeup_of instance function.now (seen held.entry)) }
{
    let function = function.copy(alloc)?;
    let held = copy_of(alloc, held)?;
    Ok(Wakeup {
        instance,
        function,
        held,
    })
}

/// A function of the instance is called at a time.
fn wakeup_plan(
    alloc: Global,
    instance: u32,
    time: u64,
    function: &Text,
    held: Option<&Data>,
) -> Result<CallOutcome, Stop>
    ensures { GivesOutcome (Ok (null, wake time (wakeup_of instance function.now (seen held.entry)) ∷ []))
        result }
{
    let wakeup = wakeup(alloc, instance, function, held)?;
    let wake = Effect::Promises(PromisesEffect::Wake(time, wakeup));
    Ok(CallOutcome::with_effect(alloc, Data::Null, wake)?)
}

/// The time and the function that a wakeup is asked with.
#[tactic(auto, unfolding(crate::specs::Requests::time_and_function, refusals::specs::Outcomes::bind))]
fn time_and_function(args: &[Data]) -> Result<(u64, &Text), Stop>
    ensures { Gives (λ (time, function). (time, function.now)) result
        (time_and_function (trees args.now)) }
{
    let time = number_at(0, LATEST, 2, args)?;
    Ok((time, function_at(3, args)?))
}

/// zcf.wakeAt(timer, time, function, data) (own).
#[tactic(auto, unfolding(rules::specs::Zcf::wake_at, crate::specs::Requests::time_and_function, refusals::specs::Outcomes::bind))]
pub fn wake_at(
    alloc: Global,
    world: &World,
    instance: u32,
    args: &[Data],
) -> Result<CallOutcome, Stop>
    requires made { instance < length (world_of world.now).tables.instances }
    requires known { AreKnown (world_of world.now) (trees args.now) }
    ensures { GivesOutcome (wake_at (world_of world.now) instance (trees args.now)) result }
{
    runs(world, instance)?;
    check_timer(world, 1, args)?;
    let (time, function) = time_and_function(args)?;
    wakeup_plan(alloc, instance, time, function, argument(args, 4))
}
