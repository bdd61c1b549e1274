//! Sends (eventual send), as outcomes.

ghost use Rattle.std.specs.Prelude.{◌≡◌, ◌∷◌, [], IfOk};
ghost use Rattle.refusals.specs.host_data.Values.{object_tree};
ghost use Rattle.world_effects.specs.call_outcomes.Lists.{IsEachShaped};
ghost use Rattle.world_effects.specs.call_outcomes.CallOutcomes.{GivesOutcome, outcome_view};
ghost use Rattle.world_effects.specs.call_outcomes.Views.{promises_view};
ghost use Rattle.delivery_laws.specs.rules.PromisesAndFacets.{send_rule};
ghost use Rattle.world_effects.specs.host_world.Worlds.{world_of};
ghost use Rattle.refusals.specs.host_data.View.{trees};
ghost use Rattle.refusals.specs.host_data.declared.data.ObjKind.TheVariants as kinds;
ghost use Rattle.world_effects.specs.world_state.Worlds as worlds;

use refusals::codes::BareCode;
use refusals::host_data_lib::data::{Data, Obj, ObjKind, copy_items, some_local};
use refusals::host_data_lib::values::object_data;
use refusals::host_text_lib::text::Text;
use refusals::stops::Stop;
use std::alloc::{AllocError, Global};
use world_effects::call_outcomes_lib::effects::{Effect, PromisesEffect, Sending};
use world_effects::call_outcomes_lib::outcomes::CallOutcome;
use world_effects::host_world_lib::World;
use world_effects::world_reads_lib::words::next_of;

/// What is sent, each part a copy.
fn send_effect(
    alloc: Global,
    instance: u32,
    target: Obj,
    method: &Text,
    args: &[Data],
) -> Result<PromisesEffect, AllocError>
    ensures { IfOk result (λ e. promises_view e
        ≡ worlds.send instance target method.now (trees args.now)) }
{
    let method = method.copy(alloc)?;
    let arguments = copy_items(alloc, args)?;
    Ok(PromisesEffect::Send(Sending {
        instance,
        target,
        method,
        arguments,
    }))
}

/// A send, which is answered with a promise.
fn send_plan(
    alloc: Global,
    instance: u32,
    promise: u32,
    target: Obj,
    method: &Text,
    args: &[Data],
) -> Result<CallOutcome, AllocError>
    ensures plan { IfOk result (λ plan. outcome_view plan ≡ (
      object_tree kinds.Promise promise,
      worlds.send instance target method.now (trees args.now) ∷ [],
    )) }
    ensures shaped { IfOk result (λ plan. IsEachShaped plan.effects) }
{
    let send = Effect::Promises(send_effect(alloc, instance, target, method, args)?);
    CallOutcome::with_effect(alloc, object_data(ObjKind::Promise, promise), send)
}

/// `E(target).method(args)`, which is answered with the promise of its answer: `LocalOnly` where what stays with its
/// instance would be sent, or sent to, then `Limit`.
#[tactic(auto, unfolding(rules::specs::PromisesAndFacets::send_rule, refusals::specs::Outcomes::bind, refusals::specs::Outcomes::need))]
pub fn plan_send(
    alloc: Global,
    world: &World,
    instance: u32,
    target: Obj,
    method: &Text,
    args: &[Data],
) -> Result<CallOutcome, Stop>
    ensures { GivesOutcome
        (send_rule (world_of world.now) instance target method.now (trees args.now)) result }
{
    if target.kind.stays() || some_local(args) {
        return Err(Stop::bare(BareCode::LocalOnly));
    }
    let promise = next_of(world.registers.promises.made(), u32::MAX)?;
    let send = send_plan(alloc, instance, promise, target, method, args)?;
    Ok(send)
}
