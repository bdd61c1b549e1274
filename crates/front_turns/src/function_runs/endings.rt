//! How a run ends: what its delivery is answered, and the new state of its instance.

ghost use Rattle.std.specs.Prelude.{◌≡◌, ◌∷◌, [], IfOk, OnOk};
ghost use Rattle.contract_powers.specs.world_effects.CarriedEffects.{AreCarried, IsInTurn};
ghost use Rattle.delivery_tasks.specs.delivery_turns.Tasks.{answer_of_ending};
ghost use Rattle.front_turns.specs.FunctionRuns.{CanEnd, HasEnded};
ghost use Rattle.contract_powers.specs.host_world.Worlds.{IsUndoable, world_of};
ghost use Rattle.jessie_interpreter.specs.Outcomes.{outcome};
ghost use Rattle.jessie_interpreter.specs.jessie_semantics.Play as plays;
ghost use Rattle.jessie_interpreter.specs.jessie_semantics.Play.{Ending};
ghost use Rattle.delivery_tasks.specs.host_data.View.{tree, trees};
ghost use Rattle.contract_powers.specs.refusals.Codes.{local_only, refusal_tree};
ghost use Rattle.contract_powers.specs.turn_records.Views.{answer_view};
ghost use Rattle.contract_powers.specs.turn_records.Events as told;
ghost use Rattle.contract_powers.specs.world_state.Good.{CanKeep};
ghost use Rattle.contract_powers.specs.world_state.Worlds as worlds;

use crate::function_runs::Ran;
use contract_powers::call_outcomes_lib::effects::{Effect, InstancesEffect};
use contract_powers::call_outcomes_lib::lists::Effects;
use contract_powers::host_world_lib::World;
use contract_powers::refusals_lib::codes::{BareCode, Refusal};
use contract_powers::turn_records_lib::events::Answer;
use contract_powers::world_effects_lib::carry_out;
use delivery_tasks::host_data_lib::data::Data;
use jessie_interpreter::evaluation::Outcome;
use std::alloc::{AllocError, Global};

/// What stays with its instance doesn't come out of it: this is thrown in its place (our own).
fn local_only(alloc: Global) -> Result<Answer, AllocError>
    ensures { IfOk result (λ a. answer_view a ≡ told.threw (refusal_tree local_only)) }
{
    let refusal = Refusal::Bare(BareCode::LocalOnly);
    let shown = refusal.data(alloc);
    drop(refusal);
    match shown {
        Ok(thrown) => Ok(Answer::Threw(thrown)),
        Err(fault) => Err(fault),
    }
}

/// What is answered for a value that a function gave.
fn answer_return(alloc: Global, value: Data) -> Result<Answer, AllocError>
    ensures { IfOk result (λ a. answer_view a ≡ answer_of_ending (plays.returned (tree value))) }
{
    if value.is_local() {
        return local_only(alloc);
    }
    Ok(Answer::Given(value))
}

/// What is answered for a value that a function threw.
fn answer_throw(alloc: Global, value: Data) -> Result<Answer, AllocError>
    ensures { IfOk result (λ a. answer_view a ≡ answer_of_ending (plays.threw (tree value))) }
{
    if value.is_local() {
        return local_only(alloc);
    }
    Ok(Answer::Threw(value))
}

/// The instance keeps the values of its state.
#[tactic(auto, using(crate::proofs::TurnEffects::not_moved))]
fn keep_state(
    alloc: Global,
    world: &mut World,
    instance: u32,
    state: Vec<Data>,
) -> Result<(), AllocError>
    requires turn { IsInTurn world.old }
    requires can { CanKeep (world_of world.old) instance (trees state.items) }
    ensures kept { OnOk result (AreCarried world.old world.new
        (worlds.keep_state instance (trees state.items) ∷ [])) }
    ensures back { IsUndoable world.old world.new }
{
    let mut effects = Effects::new(alloc);
    effects.push(Effect::Instances(InstancesEffect::KeepState(instance, state)))?;
    carry_out(world, alloc, effects)
}

/// The instance keeps the values of its state, and its delivery is answered so.
fn keep_and_end(
    alloc: Global,
    world: &mut World,
    instance: u32,
    answer: Answer,
    state: Vec<Data>,
) -> Result<Ran, AllocError>
    requires turn { IsInTurn world.old }
    requires can { CanKeep (world_of world.old) instance (trees state.items) }
    ensures ended { IfOk result (λ ran. (e : Ending) → answer_view answer ≡ answer_of_ending e
        → HasEnded world.old world.new instance (plays.Ends e (trees state.items)) ran) }
    ensures back { IsUndoable world.old world.new }
{
    keep_state(alloc, world, instance, state)?;
    Ok(Ran::Ended(answer))
}

/// The same, where the answer could be made.
#[tactic(auto, using(crate::proofs::TurnEffects::not_moved))]
fn keep_and_answer(
    alloc: Global,
    world: &mut World,
    instance: u32,
    answered: Result<Answer, AllocError>,
    state: Vec<Data>,
) -> Result<Ran, AllocError>
    requires turn { IsInTurn world.old }
    requires can { CanKeep (world_of world.old) instance (trees state.items) }
    ensures ended { IfOk result (λ ran. (e : Ending)
        → IfOk answered (λ a. answer_view a ≡ answer_of_ending e)
        → HasEnded world.old world.new instance (plays.Ends e (trees state.items)) ran) }
    ensures back { IsUndoable world.old world.new }
{
    keep_and_end(alloc, world, instance, answered?, state)
}

/// What a function came to, its state kept where its meter was not spent.
#[tactic(auto, using(crate::proofs::TurnEffects::not_moved))]
pub(crate) fn end_run(
    alloc: Global,
    world: &mut World,
    instance: u32,
    came: Outcome,
    state: Vec<Data>,
) -> Result<Ran, AllocError>
    requires turn { IsInTurn world.old }
    requires can { CanEnd (world_of world.old) instance (outcome came (trees state.items)) }
    ensures ended { IfOk result (HasEnded world.old world.new instance
        (outcome came (trees state.items))) }
    ensures back { IsUndoable world.old world.new }
{
    match came {
        Outcome::Returned(value) => {
            let answered = answer_return(alloc, value);
            keep_and_answer(alloc, world, instance, answered, state)
        }
        Outcome::Threw(value) => {
            let answered = answer_throw(alloc, value);
            keep_and_answer(alloc, world, instance, answered, state)
        }
        Outcome::Spent => {
            drop(state);
            Ok(Ran::Spent)
        }
    }
}
