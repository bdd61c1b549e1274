//! The plans of calls with one movement.

ghost use Rattle.std.specs.Prelude.{◌≡◌, ◌∷◌, [], IfOk};
ghost use Rattle.refusals.specs.host_data.Values.{amount_tree, object_tree};
ghost use Rattle.call_outcomes.specs.Lists.{IsEachShaped};
ghost use Rattle.call_outcomes.specs.CallOutcomes.{outcome_view};
ghost use Rattle.rules.specs.Words.{one_move};
ghost use Rattle.refusals.specs.host_data.View.{tree};
ghost use Rattle.refusals.specs.host_data.declared.data.ObjKind.TheVariants as kinds;
ghost use Rattle.rules.specs.world_state.Shapes.{IsNoHand};
ghost use Rattle.rules.specs.vault_model.Lists.{amount_of};
ghost use Rattle.rules.specs.rights_model.declared.Holder.TheVariants as holders;
ghost use Rattle.rules.specs.world_state.Worlds.{moves};

use call_outcomes::effects::{Effect, RightsEffect};
use call_outcomes::moves::Moves;
use call_outcomes::outcomes::CallOutcome;
use refusals::amount_math_lib::Value;
use refusals::host_data_lib::data::{Data, ObjKind};
use refusals::host_data_lib::values::{amount_data, object_data};
use rules::rights_model_lib::{Holder, Movement};
use std::alloc::{AllocError, Global};

/// One movement is made, not by way of the hand, and the call answers this.
fn moving(alloc: Global, answer: Data, movement: Movement) -> Result<CallOutcome, AllocError>
    requires from { IsNoHand movement.from }
    requires to { IsNoHand movement.to }
    ensures plan { IfOk result (λ plan. outcome_view plan ≡ (tree answer, moves (movement ∷ []) ∷ [])) }
    ensures shaped { IfOk result (λ plan. IsEachShaped plan.effects) }
{
    let mut movements = Vec::new(alloc);
    movements.push(movement)?;
    let moves = Effect::Rights(RightsEffect::Moves(Moves::Movements(movements)));
    CallOutcome::with_effect(alloc, answer, moves)
}

/// One movement is made, not by way of the hand, and the call answers the amount that moves (ERTP).
pub fn moving_amount(alloc: Global, movement: Movement) -> Result<CallOutcome, AllocError>
    requires from { IsNoHand movement.from }
    requires to { IsNoHand movement.to }
    ensures plan { IfOk result (λ plan. outcome_view plan
        ≡ (amount_tree (amount_of movement.brand movement.value), moves (movement ∷ []) ∷ [])) }
    ensures shaped { IfOk result (λ plan. IsEachShaped plan.effects) }
{
    let answer = amount_data(alloc, movement.brand, &movement.value)?;
    moving(alloc, answer, movement)
}

/// A value of a brand goes from a holder, which isn't the hand, to the payment of a number, which the call answers
/// (ERTP).
pub fn paying(
    alloc: Global,
    brand: u16,
    from: Holder,
    payment: u32,
    value: Value,
) -> Result<CallOutcome, AllocError>
    requires { IsNoHand from }
    ensures plan { IfOk result (λ plan. outcome_view plan
        ≡ (object_tree kinds.Payment payment, one_move brand from (holders.Payment payment) value)) }
    ensures shaped { IfOk result (λ plan. IsEachShaped plan.effects) }
{
    let answer = object_data(ObjKind::Payment, payment);
    let movement = Movement {
        brand,
        from,
        to: Holder::Payment(payment),
        value,
    };
    moving(alloc, answer, movement)
}
