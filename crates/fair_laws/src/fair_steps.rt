//! Laws of what a turn's effects show. The bodies are empty: what they state is proved of the definitions.

ghost use Rattle.std.specs.Prelude.{◌≡◌, ◌+◌, ℕ, List, []};
ghost use Rattle.fair_laws.specs.Accounts.{AreStoredEffects};
ghost use Rattle.fair_laws.specs.ShownEffects.{AreShown};
ghost use Rattle.fair_laws.specs.Steps.{AccountsFor, ShowsSeats, TellsLog};
ghost use Rattle.fair_laws.specs.Views.{owners_told, world_in};
ghost use Rattle.fair_rows.specs.turn_rows.Turns.{Turn};
ghost use Rattle.delivery_laws.specs.world_state.Good.{AreGood, IsGoodWorld};
ghost use Rattle.delivery_laws.specs.world_state.Worlds.{Effect, State, after_all};

/// Good effects of a turn account for all that a step has to show of movements, totals, brands and payments.
pub fn turns_account_for_changes()
    ensures accounts { (n : ℕ) (w : State) (es : List Effect) (t : Turn) → IsGoodWorld w → w.log ≡ []
        → AreGood w es → AreStoredEffects es → TellsLog (after_all w es) t
        → AccountsFor (world_in n w) t (world_in (n + 1) (after_all w es)) }
{}

/// Good effects of a turn that are shown by its rows leave these in their places, and open seats covered.
pub fn shown_turns_show_seats()
    ensures seats { (n : ℕ) (w : State) (es : List Effect) (t : Turn) → IsGoodWorld w → w.log ≡ []
        → AreGood w es → AreShown (owners_told w) t w es → TellsLog (after_all w es) t
        → ShowsSeats (world_in n w) t (world_in (n + 1) (after_all w es)) }
{}
