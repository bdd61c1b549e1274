//! A draft of a vault in the world's words. Its one contract: the definitions of specs/, and the laws
//! that its functions state of them: what is staged in a draft is staged in the world as effects say.
//! The bodies are empty: what they state is proved of the definitions.

ghost use Rattle.std.specs.Prelude.{◌≡◌, ◌<◌, ℕ, List, [], None, Some, length, map, slice_set};
ghost use Rattle.draft_reads.specs.Views.{staged_from};
ghost use Rattle.world_laws.specs.proposals.declared.allocations.Share.{Share};
ghost use Rattle.world_laws.specs.vault_model.Seats.{KeptSeat};
ghost use Rattle.vault.specs.seats.Staging.{with_staged};
ghost use Rattle.world_laws.specs.world_state.Worlds.{no_shares};

/// What is staged of a seat in place of what was is so in the world, and where all is let go of, no seat
/// has anything staged.
pub fn what_is_staged_is_so_in_the_world()
    ensures staged { (seats : List KeptSeat) (n : ℕ) (shares : List Share)
        → (staging : List (ℕ × List Share))
        → staged_from 0 seats (with_staged n shares staging)
        ≡ slice_set (staged_from 0 seats staging) n (Some shares) }
    ensures ended { (seats : List KeptSeat) (staging : List (ℕ × List Share))
        → staged_from 0 seats [] ≡ map no_shares (staged_from 0 seats staging) }
{}
