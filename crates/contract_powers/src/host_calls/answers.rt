//! What a call comes to: what is answered, and its effects, of which the first tells of it.

ghost use Rattle.std.specs.Prelude.{◌≡◌, ◌∷◌, [], Err, IfOk, Ok};
ghost use Rattle.world_effects.specs.call_outcomes.Lists.{IsEachShaped, effects_view};
ghost use Rattle.world_effects.specs.call_outcomes.CallOutcomes.{GivesOutcome, outcome_view};
ghost use Rattle.world_effects.specs.call_outcomes.Views.{IsShaped, effect_view};
ghost use Rattle.delivery_laws.specs.rules.Outcomes.{Outcome};
ghost use Rattle.jessie_machine.specs.Host.{reply_of};
ghost use Rattle.jessie_machine.specs.jessie_semantics.Play as plays;
ghost use Rattle.jessie_machine.specs.jessie_semantics.Play.{Call};
ghost use Rattle.refusals.specs.host_data.View.{tree};
ghost use Rattle.world_effects.specs.turn_records.Views.{answer_view};
ghost use Rattle.world_effects.specs.world_state.Worlds.{note_call};
ghost use Rattle.contract_powers.specs.CallOutcomes.{IsAnswered};
ghost use Rattle.contract_powers.specs.CallNotes.{IsTold, told_view};

use crate::host_calls::told_calls::Told;
use jessie_machine::host;
use refusals::codes::Refusal;
use refusals::host_data_lib::data::Data;
use refusals::stops::Stop;
use std::alloc::{AllocError, Global};
use world_effects::call_outcomes_lib::effects::{Effect, LabelsEffect};
use world_effects::call_outcomes_lib::lists::Effects;
use world_effects::call_outcomes_lib::outcomes::CallOutcome;
use world_effects::turn_records_lib::events::Answer;

/// What a call comes to.
#[derive(Drop)]
pub struct Answered {
    pub reply: host::Reply,
    pub effects: Effects,
}

/// That a call was answered, as an effect.
fn note_of(call: Told, answer: Answer) -> Effect
    ensures view { effect_view result ≡ note_call (told_view call (answer_view answer)) }
    ensures shaped { IsShaped result }
{
    Effect::Labels(LabelsEffect::NoteCall(call.answered(answer)))
}

/// That a call was answered is told, before its effects.
fn put_note_first(note: Effect, effects: Effects) -> Result<Effects, AllocError>
    ensures effects { IfOk result (λ es. effects_view es
        ≡ effect_view note ∷ effects_view effects) }
    ensures shaped { IsShaped note → IsEachShaped effects
        → IfOk result (λ es. IsEachShaped es) }
{
    let mut effects = effects;
    effects.push_first(note)?;
    Ok(effects)
}

/// A call that is told is given an answer.
fn reply_with_plan(note: Effect, plan: CallOutcome) -> Result<Answered, AllocError>
    ensures reply { IfOk result (λ a. reply_of a.reply ≡ plays.given (tree plan.answer)) }
    ensures effects { IfOk result (λ a. effects_view a.effects
        ≡ effect_view note ∷ effects_view plan.effects) }
    ensures shaped { IsShaped note → IsEachShaped plan.effects
        → IfOk result (λ a. IsEachShaped a.effects) }
{
    let CallOutcome { answer, effects } = plan;
    let effects = put_note_first(note, effects)?;
    Ok(Answered {
        reply: host::Reply::Value(answer),
        effects,
    })
}

/// A call that is given an answer.
fn answer_plan(alloc: Global, call: Told, plan: CallOutcome) -> Result<Answered, AllocError>
    ensures { IsEachShaped plan.effects
        → IfOk result (λ a. (c : Call) → IsTold c call → IsAnswered c (Ok (outcome_view plan)) a) }
{
    let told = plan.answer.copy(alloc)?;
    reply_with_plan(note_of(call, Answer::Given(told)), plan)
}

/// A call that is told is refused: this is thrown.
fn reply_with_refusal(alloc: Global, note: Effect, thrown: Data) -> Result<Answered, AllocError>
    ensures reply { IfOk result (λ a. reply_of a.reply ≡ plays.refused (tree thrown)) }
    ensures effects { IfOk result (λ a. effects_view a.effects ≡ effect_view note ∷ []) }
    ensures shaped { IsShaped note → IfOk result (λ a. IsEachShaped a.effects) }
{
    let effects = put_note_first(note, Effects::new(alloc))?;
    Ok(Answered {
        reply: host::Reply::Refused(thrown),
        effects,
    })
}

/// A call that is refused: the refusal is the data that is thrown.
fn answer_refusal(alloc: Global, call: Told, refusal: Refusal) -> Result<Answered, AllocError>
    ensures { IfOk result (λ a. (c : Call) → IsTold c call → IsAnswered c (Err refusal) a) }
{
    let thrown = refusal.data(alloc)?;
    reply_with_refusal(alloc, note_of(call, Answer::Refused(refusal)), thrown)
}

/// What a call comes to, whatever its rule planned.
pub fn answer_call(
    alloc: Global,
    call: Told,
    row: Result<CallOutcome, Stop>,
) -> Result<Answered, AllocError>
    ensures { IfOk result (λ a. (c : Call) (outcome : Outcome) → IsTold c call → GivesOutcome outcome row
        → IsAnswered c outcome a) }
{
    match row {
        Ok(plan) => answer_plan(alloc, call, plan),
        Err(Stop::Refused(refusal)) => answer_refusal(alloc, call, refusal),
        Err(Stop::NoMemory) => Err(AllocError),
    }
}
