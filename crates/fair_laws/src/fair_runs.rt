//! Laws of what functions show. The bodies are empty: what they state is proved of the definitions.

ghost use Rattle.std.specs.Prelude.{◌≡◌, ◌<◌, ℕ, false, length, []};
ghost use Rattle.delivery_laws.specs.Works.{Evaluates};
ghost use Rattle.delivery_laws.specs.delivery_turns.Functions.{run};
ghost use Rattle.fair_rows.specs.Rows.{is_offer};
ghost use Rattle.fair_laws.specs.ShownRuns.{IsShownRun};
ghost use Rattle.fair_laws.specs.Views.{IsSteady, owners_told};
ghost use Rattle.delivery_laws.specs.jessie_semantics.Play.{Play};
ghost use Rattle.fair_rows.specs.turn_rows.Turns.{Turn};
ghost use Rattle.delivery_laws.specs.world_state.Good.{IsGoodWorld};
ghost use Rattle.delivery_laws.specs.world_state.Worlds.{State};

/// In a turn that is no offer's, all that the function of an instance does is shown by the rows of its calls: seats
/// are left for the first cause that calls show, an empty seat stands right behind the call that opens it, and what
/// calls answer of holdings is held.
pub fn functions_show_what_they_do()
    ensures shown { (t : Turn) (start : State) (i n : ℕ) (p : Play) → is_offer t ≡ false
        → i < length start.tables.instances → Evaluates start i n p
        → IsGoodWorld start → IsSteady start → start.log ≡ []
        → IsShownRun (owners_told start) t start (run start i p) }
{}
