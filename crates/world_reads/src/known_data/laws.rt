//! The law of the tests. The body is empty: what it states is proved of the definitions.

ghost use Rattle.std.specs.Prelude.{◌≡◌, ◌<◌, ◌↔◌, ℕ, length, true};
ghost use Rattle.refusals.specs.host_data.Tree.{Tree};
ghost use Rattle.world_reads.specs.Tests.{passes};
ghost use Rattle.rules.specs.world_state.Good.{IsGoodWorld};
ghost use Rattle.rules.specs.world_state.Known.{IsKnownTo};
ghost use Rattle.rules.specs.world_state.Worlds.{State};

/// Data passes just where the instance may hold it.
pub fn what_passes_is_known()
    ensures { (w : State) (i : ℕ) (t : Tree) → IsGoodWorld w → i < length w.tables.instances
        → (passes w i t ≡ true) ↔ IsKnownTo w i t }
{}
