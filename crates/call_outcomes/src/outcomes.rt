//! What calls come to: an answer, and the effects that are planned, in their order.

ghost use Rattle.std.specs.Prelude.{◌≡◌, [], ◌∷◌, IfOk};
ghost use Rattle.refusals.specs.host_data.View.{tree};
ghost use Rattle.rules.specs.Outcomes.{Outcome};
ghost use Rattle.refusals.specs.Outcomes.{reading};
ghost use Rattle.call_outcomes.specs.Lists.{IsEachShaped};
ghost use Rattle.call_outcomes.specs.CallOutcomes.{GivesOutcome, Reads, ReadOutcome, outcome_view};
ghost use Rattle.call_outcomes.specs.Views.{IsShaped, effect_view};

use crate::effects::Effect;
use crate::lists::Effects;
use refusals::host_data_lib::data::Data;
use refusals::stops::Stop;
use std::alloc::{AllocError, Global};

/// What a call answers, and what it does to the world, in order.
#[derive(Drop)]
pub struct CallOutcome {
    pub answer: Data,
    pub effects: Effects,
}

impl CallOutcome {
    /// The outcome of a call that only reads.
    pub fn reading(alloc: Global, answer: Data) -> CallOutcome
        ensures plan { outcome_view result ≡ (tree answer, []) }
        ensures shaped { IsEachShaped result.effects }
    {
        CallOutcome {
            answer,
            effects: Effects::new(alloc),
        }
    }

    /// The outcome of a call with one effect.
    pub fn with_effect(
        alloc: Global,
        answer: Data,
        effect: Effect,
    ) -> Result<CallOutcome, AllocError>
        requires { IsShaped effect }
        ensures plan { IfOk result (λ plan. outcome_view plan ≡ (tree answer, effect_view effect ∷ [])) }
        ensures shaped { IfOk result (λ plan. IsEachShaped plan.effects) }
    {
        let mut effects = Effects::new(alloc);
        match effects.push(effect) {
            Ok(()) => Ok(CallOutcome { answer, effects }),
            Err(fault) => {
                drop(answer);
                Err(fault)
            }
        }
    }
}

/// The outcome of a row that only reads.
#[tactic(auto, unfolding(refusals::specs::Outcomes::reading, refusals::specs::Outcomes::bind))]
pub fn outcome_of_reading(alloc: Global, read: Result<Data, Stop>) -> Result<CallOutcome, Stop>
    ensures { (row : ReadOutcome) → Reads row read → GivesOutcome (reading row) result }
{
    match read {
        Ok(answer) => Ok(CallOutcome::reading(alloc, answer)),
        Err(stop) => Err(stop),
    }
}
