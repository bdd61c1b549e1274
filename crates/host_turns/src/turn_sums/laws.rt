//! What is told of a turn's good effects. The bodies are empty: what they state is proved of the definitions.

ghost use Rattle.std.specs.Prelude.{◌≡◌, ◌++◌, [], List};
ghost use Rattle.front_turns.specs.escrow.Told.{EscrowState, nothing_told};
ghost use Rattle.run_laws.specs.fair_laws.Accounts.{AreStoredEffects};
ghost use Rattle.host_turns.specs.Totals.{IsTurn, TellsWorld, instances_in, instances_of};
ghost use Rattle.front_turns.specs.world_laws.First.{first_world};
ghost use Rattle.front_turns.specs.world_state.Good.{AreGood, IsGoodWorld};
ghost use Rattle.front_turns.specs.world_state.Worlds.{Effect, State, after_all};

/// Where nothing has happened yet, the log of good effects can be told to the totals of the world before them; and
/// the seats that it opens are those that the world after them has more.
pub fn good_effects_can_be_told()
    ensures turn { (w : State) (es : List Effect) (e : EscrowState) → IsGoodWorld w → AreGood w es
        → AreStoredEffects es → w.log ≡ [] → TellsWorld w e
        → IsTurn w.rights (after_all w es).rights (instances_of w.seats) e (after_all w es).log }
    ensures seats { (w : State) (es : List Effect) → AreGood w es → w.log ≡ []
        → instances_of w.seats ++ instances_in (after_all w es).log
        ≡ instances_of (after_all w es).seats }
{}

/// New totals are those of the world of a new host.
pub fn new_totals_tell_the_first_world()
    ensures { TellsWorld first_world nothing_told }
{}
