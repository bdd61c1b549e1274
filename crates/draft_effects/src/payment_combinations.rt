//! Payments that are combined into one in a turn's draft (ERTP's combine): each goes whole to the hand,
//! and all that they have from there to the next payment. Its one contract: it makes of a draft's
//! rights what its movements make together in the world; where memory is wanted midway, the draft can
//! be undone as before.

ghost use Rattle.std.specs.Prelude.{◌≡◌, List, OnOk, Option, IfOk};
ghost use Rattle.draft_reads.specs.amount_math.Content.{Contains, sum};
ghost use Rattle.draft_reads.specs.amount_math.ValueView.{IsValue, with_content};
ghost use Rattle.draft_effects.specs.Steps.{MayReach};
ghost use Rattle.draft_reads.specs.Views.{CanGoBack, HasNow, rights_in, seats_in, staging_in};
ghost use Rattle.draft_reads.specs.world_state.Shapes.{IsCombination};
ghost use Rattle.draft_effects.specs.Sums.{HaveSum, whole_moved};
ghost use Rattle.draft_reads.specs.proposals.declared.allocations.Share.{Share};
ghost use Rattle.draft_reads.specs.vault_model.Lists.{amount_of};
ghost use Rattle.draft_reads.specs.vault_model.Tables.{hand_minus};
ghost use Rattle.draft_reads.specs.world_laws.Views.{put_to};
ghost use Rattle.draft_effects.specs.HandStore.{IsStoring, StoresAll};
ghost use Rattle.draft_reads.specs.vault.Drafts.{IsClean, IsOfBrand, hand_now};
ghost use Rattle.draft_reads.specs.world_state.Good.{CanMoveTogether};
ghost use Rattle.draft_reads.specs.world_state.Rights.{moved_together};

use crate::stored_parts::{put_part, store_parts};
use draft_reads::amount_math_lib::{PutFault, Value};
use draft_reads::rights_model_lib::Movement;
use draft_reads::vault_lib::draft::Draft;
use std::alloc::AllocError;

/// Combines live payments of one brand, at least one and none twice, into the next payment. On an error some
/// may have been taken, and the draft is to be undone.
pub fn combine(draft: &mut Draft, moves: &[Movement]) -> Result<(), AllocError>
    requires clean { IsClean draft.old }
    requires shape { IsCombination moves.now }
    requires can { (staging : List (Option (List Share)))
        × CanMoveTogether (rights_in draft.old) (seats_in draft.old) staging moves.now }
    ensures ok { OnOk result (HasNow draft.new (moved_together (rights_in draft.old) moves.now)
        (seats_in draft.old) (staging_in draft.old)) }
    ensures back { CanGoBack draft.old draft.new }
{
    draft.valid();
    draft.count_anew();
    let Some(first) = moves.first() else {
        unreachable!();
    };
    store_parts(draft, moves)?;
    combine_stored(draft, first, moves)
}

/// Puts all that movements moved from the hand's own store to where the first goes.
fn combine_stored(draft: &mut Draft, first: &Movement, moves: &[Movement]) -> Result<(), AllocError>
    requires stores { StoresAll draft.old }
    requires sum { HaveSum moves.now }
    requires has { Contains (hand_now draft.old first.now.brand) (whole_moved moves.now).content }
    requires brand { IsOfBrand draft.old.now first.now.brand (whole_moved moves.now) }
    requires reach { MayReach draft.old.now first.now.to (amount_of first.now.brand (whole_moved moves.now)) }
    ensures ok { OnOk result (IsStoring draft.old draft.new
        (put_to draft.old.now first.now.to (amount_of first.now.brand (whole_moved moves.now)))
        (hand_minus (hand_now draft.old) first.now.brand (whole_moved moves.now).content)) }
    ensures back { CanGoBack draft.old draft.new }
{
    let whole = whole_value(moves)?;
    put_part(draft, &first.to, first.brand, whole)
}

/// All that movements of values of a kind move together, as one value.
fn whole_value(moves: &[Movement]) -> Result<Value, AllocError>
    requires { HaveSum moves.now }
    ensures { IfOk result (λ whole. whole ≡ whole_moved moves.now) }
{
    let Some((first, others)) = moves.split_first() else {
        unreachable!();
    };
    let mut whole = first.value.copy()?;
    for movement in others {
        let part = movement.value.copy()?;
        add(&mut whole, part)?;
    }
    Ok(whole)
}

/// Adds a value to another, with which it is a value too.
fn add(whole: &mut Value, part: Value) -> Result<(), AllocError>
    requires kind { whole.old.kind ≡ part.kind }
    requires value { IsValue whole.old.kind (sum whole.old.content part.content) }
    ensures { OnOk result (whole.new ≡ with_content whole.old (sum whole.old.content part.content)) }
{
    match whole.absorb(part) {
        Ok(()) => Ok(()),
        Err((_, fault)) => {
            let PutFault::NoMemory = fault else {
                unreachable!();
            };
            Err(AllocError)
        }
    }
}
