//! The effects of a change of a seat's slots.

ghost use Rattle.std.specs.Prelude.{◌≡◌, [], ◌∷◌, IfOk};
ghost use Rattle.call_outcomes.specs.Lists.{IsEachShaped, effects_view};
ghost use Rattle.rules.specs.world_state.Shapes.{AreMovements};
ghost use Rattle.rules.specs.States.{changing};

use call_outcomes::effects::{Effect, RightsEffect};
use call_outcomes::lists::Effects;
use call_outcomes::moves::Moves;
use rules::rights_model_lib::Movement;
use std::alloc::{AllocError, Global};

/// What is staged of a seat is dropped, then movements are made, each by itself.
pub fn change_effects(alloc: Global, seat: u32, moves: Vec<Movement>) -> Result<Effects, AllocError>
    requires { AreMovements moves.items }
    ensures effects { IfOk result (λ es. effects_view es ≡ changing (seat ∷ []) moves.items) }
    ensures shaped { IfOk result (λ es. IsEachShaped es) }
{
    let mut effects = Effects::new(alloc);
    effects.push(Effect::Rights(RightsEffect::Unstage(seat)))?;
    effects.push(Effect::Rights(RightsEffect::Moves(Moves::Movements(moves))))?;
    Ok(effects)
}
