//! A rearrangement of what the slots of seats have, in a turn's draft (Zoe): what slots lose goes to
//! the hand, and what slots gain comes from there. Its one contract: it makes of a draft's rights what
//! its movements make together in the world, whatever the hand has between them; where memory is wanted
//! midway, the draft can be undone as before.

ghost use Rattle.std.specs.Prelude.{List, OnOk, Option};
ghost use Rattle.draft_reads.specs.Views.{CanGoBack, HasNow, rights_in, seats_in, staging_in};
ghost use Rattle.draft_reads.specs.world_state.Shapes.{IsRearrangement};
ghost use Rattle.draft_reads.specs.proposals.declared.allocations.Share.{Share};
ghost use Rattle.draft_reads.specs.vault.Drafts.{IsClean};
ghost use Rattle.draft_reads.specs.world_state.Good.{CanMoveTogether};
ghost use Rattle.draft_reads.specs.world_state.Rights.{moved_together};

use crate::stored_parts::move_parts;
use draft_reads::rights_model_lib::Movement;
use draft_reads::vault_lib::draft::Draft;
use std::alloc::AllocError;

/// Makes movements, each of which goes from a slot to the hand, or from the hand to a slot, where a further
/// one is opened if there is none. On an error some may have been made, and the draft is to be undone.
pub fn rearrange(draft: &mut Draft, moves: &[Movement]) -> Result<(), AllocError>
    requires clean { IsClean draft.old }
    requires shape { IsRearrangement moves.now }
    requires can { (staging : List (Option (List Share)))
        × CanMoveTogether (rights_in draft.old) (seats_in draft.old) staging moves.now }
    ensures ok { OnOk result (HasNow draft.new (moved_together (rights_in draft.old) moves.now)
        (seats_in draft.old) (staging_in draft.old)) }
    ensures back { CanGoBack draft.old draft.new }
{
    draft.valid();
    draft.count_anew();
    move_parts(draft, moves)
}
