//! Requests to be told of a promise (eventual send), as outcomes.

ghost use Rattle.std.specs.Prelude.{◌≡◌, ◌∷◌, [], IfOk};
ghost use Rattle.refusals.specs.host_data.Values.{object_tree};
ghost use Rattle.world_effects.specs.call_outcomes.Lists.{IsEachShaped};
ghost use Rattle.world_effects.specs.call_outcomes.CallOutcomes.{GivesOutcome, outcome_view};
ghost use Rattle.world_effects.specs.call_outcomes.Views.{promises_view};
ghost use Rattle.delivery_laws.specs.rules.PromisesAndFacets.{when_rule};
ghost use Rattle.world_effects.specs.host_world.Worlds.{world_of};
ghost use Rattle.refusals.specs.host_data.View.{tree};
ghost use Rattle.refusals.specs.host_data.declared.data.ObjKind.TheVariants as kinds;
ghost use Rattle.world_effects.specs.world_state.Worlds as worlds;

use refusals::host_data_lib::data::{Data, Obj, ObjKind};
use refusals::host_data_lib::values::object_data;
use refusals::host_text_lib::text::Text;
use refusals::stops::Stop;
use std::alloc::{AllocError, Global};
use world_effects::call_outcomes_lib::effects::{Asking, Effect, PromisesEffect};
use world_effects::call_outcomes_lib::outcomes::CallOutcome;
use world_effects::host_world_lib::World;
use world_effects::world_reads_lib::words::next_of;

/// What asks to be told, each part a copy.
fn request_effect(
    alloc: Global,
    instance: u32,
    promise: u32,
    function: &Text,
    held: &Data,
) -> Result<PromisesEffect, AllocError>
    ensures { IfOk result (λ e. promises_view e
        ≡ worlds.when instance promise function.now (tree held.now)) }
{
    let function = function.copy(alloc)?;
    let held = held.copy(alloc)?;
    Ok(PromisesEffect::When(Asking {
        instance,
        promise,
        function,
        held,
    }))
}

/// A request, which is answered with a promise.
fn when_plan(
    alloc: Global,
    instance: u32,
    answer: u32,
    promise: u32,
    function: &Text,
    held: &Data,
) -> Result<CallOutcome, AllocError>
    ensures plan { IfOk result (λ plan. outcome_view plan ≡ (
      object_tree kinds.Promise answer,
      worlds.when instance promise function.now (tree held.now) ∷ [],
    )) }
    ensures shaped { IfOk result (λ plan. IsEachShaped plan.effects) }
{
    let when = Effect::Promises(request_effect(alloc, instance, promise, function, held)?);
    CallOutcome::with_effect(alloc, object_data(ObjKind::Promise, answer), when)
}

/// `when(promise, function, held)`, which is answered with the promise of the function's answer: else `Limit`.
#[tactic(auto, unfolding(rules::specs::PromisesAndFacets::when_rule, refusals::specs::Outcomes::bind))]
pub fn plan_when(
    alloc: Global,
    world: &World,
    instance: u32,
    promise: Obj,
    function: &Text,
    held: &Data,
) -> Result<CallOutcome, Stop>
    ensures { GivesOutcome
        (when_rule (world_of world.now) instance promise function.now (tree held.now)) result }
{
    let answer = next_of(world.registers.promises.made(), u32::MAX)?;
    let when = when_plan(alloc, instance, answer, promise.number, function, held)?;
    Ok(when)
}
