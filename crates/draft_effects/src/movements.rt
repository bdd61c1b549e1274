//! Written movements in a turn's draft, each of which stands by itself: between purses, payments, slots
//! and what is outside. Its one contract: movements make of a draft's rights what they make together in
//! the world; where memory is wanted midway, the draft can be undone as before.

pub mod halves;

ghost use Rattle.std.specs.Prelude.{List, Option, OnOk};
ghost use Rattle.draft_reads.specs.world_state.Shapes.{AreMovements};
ghost use Rattle.draft_effects.specs.Steps.{CanMoveByHand, CanMoveEach, IsAfter};
ghost use Rattle.draft_reads.specs.Views.{CanGoBack, HasNow, rights_in, seats_in, staging_in};
ghost use Rattle.draft_reads.specs.proposals.declared.allocations.Share.{Share};
ghost use Rattle.draft_reads.specs.world_laws.Views.{all_by_hand, by_hand};
ghost use Rattle.draft_reads.specs.vault.Drafts.{IsClean};
ghost use Rattle.draft_reads.specs.world_state.Good.{CanMoveTogether};
ghost use Rattle.draft_reads.specs.world_state.Rights.{moved_together};

use crate::movements::halves::{put, take};
use draft_reads::rights_model_lib::Movement;
use draft_reads::vault_lib::draft::Draft;
use std::alloc::AllocError;

/// Makes movements, each of which stands by itself, in their order. On an error some may have been made, and
/// the draft is to be undone.
pub fn move_all(draft: &mut Draft, moves: &[Movement]) -> Result<(), AllocError>
    requires clean { IsClean draft.old }
    requires shape { AreMovements moves.now }
    requires can { (staging : List (Option (List Share)))
        × CanMoveTogether (rights_in draft.old) (seats_in draft.old) staging moves.now }
    ensures ok { OnOk result (HasNow draft.new (moved_together (rights_in draft.old) moves.now)
        (seats_in draft.old) (staging_in draft.old)) }
    ensures back { CanGoBack draft.old draft.new }
{
    draft.valid();
    move_each(draft, moves)
}

/// Makes movements that can be made one after another. On an error some may have been made, and the draft is
/// to be undone.
pub fn move_each(draft: &mut Draft, moves: &[Movement]) -> Result<(), AllocError>
    requires clean { IsClean draft.old }
    requires can { CanMoveEach draft.old.now moves.now }
    ensures ok { OnOk result (IsAfter draft.old draft.new
        (all_by_hand draft.old.now moves.now)) }
    ensures back { CanGoBack draft.old draft.new }
{
    draft.valid();
    for movement in moves {
        move_rights(draft, movement)?;
    }
    Ok(())
}

/// Makes a movement, by way of the hand. On an error the draft is to be undone.
pub fn move_rights(draft: &mut Draft, movement: &Movement) -> Result<(), AllocError>
    requires clean { IsClean draft.old }
    requires can { CanMoveByHand draft.old.now movement.now }
    ensures ok { OnOk result (IsAfter draft.old draft.new (by_hand draft.old.now movement.now)) }
    ensures back { CanGoBack draft.old draft.new }
{
    draft.count_anew();
    let parcel = take(draft, movement)?;
    put(draft, &movement.to, parcel)
}
