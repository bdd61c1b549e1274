//! The laws. The bodies are empty: what they state is proved of the definitions.

ghost use Rattle.std.specs.Prelude.{◌≡◌};
ghost use Rattle.world_state.specs.lemmas.Stable.{IsStable};
ghost use Rattle.world_state.specs.Good.{IsGoodWorld};
ghost use Rattle.world_state.specs.Worlds.{State};

/// Of what was shown to be a good world there is a proof that it is one: so the ghost field of a type, which has to be
/// a fact with one proof at most, can keep that a world is good.
pub fn good_worlds_are_stable()
    ensures { (w : State) → IsStable (IsGoodWorld w) }
{}

/// A world is the same as another in at most one way: so a ghost field can keep that it is.
pub fn worlds_are_a_set()
    ensures { (v w : State) → IsProp (v ≡ w) }
{}
