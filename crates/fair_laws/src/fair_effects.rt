//! Laws of what effects tell. The bodies are empty: what they state is proved of the definitions.

ghost use Rattle.std.specs.Prelude.{List};
ghost use Rattle.fair_rows.specs.ExitCauses.{Owners};
ghost use Rattle.fair_rows.specs.turn_rows.Turns.{Turn};
ghost use Rattle.fair_laws.specs.Accounts.{AreStoredEffects, IsAccounted};
ghost use Rattle.fair_laws.specs.ShownEffects.{AreShown, IsShown, TellsActs};
ghost use Rattle.delivery_laws.specs.world_state.Good.{AreGood, IsGoodEffect, IsGoodWorld};
ghost use Rattle.delivery_laws.specs.world_state.Worlds.{Effect, State, after, after_all};

/// Good effects in a good world, each shown by the rows of the turn so far, tell acts that are in place one
/// after another, from the place of the world to that of the world after them.
pub fn effects_tell_acts()
    ensures one { (owners : Owners) (t : Turn) (w : State) (e : Effect) → IsGoodWorld w
        → IsGoodEffect w e → IsShown owners t w e → TellsActs owners t w (after w e) }
    ensures all { (owners : Owners) (t : Turn) (w : State) (es : List Effect) → IsGoodWorld w
        → AreGood w es → AreShown owners t w es → TellsActs owners t w (after_all w es) }
{}

/// Good effects in a good world account for what they change: each movement can be made of the table, the
/// events told give the new table and totals, and values that they name are of brands and kinds that there are.
pub fn effects_are_accounted_for()
    ensures all { (w : State) (es : List Effect) → IsGoodWorld w
        → AreGood w es → AreStoredEffects es → IsAccounted w (after_all w es) }
{}
