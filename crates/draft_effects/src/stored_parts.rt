//! Parts of payments and slots that a turn's draft takes into the hand's own store, and puts from
//! there. Its one contract: what is taken in, or put, is so in the lists and in the hand; all that the
//! hand has stays in its own store, which nothing bounds, so that a draft that is cut off can be undone
//! at each step.

ghost use Rattle.std.specs.Prelude.{OnOk, map};
ghost use Rattle.draft_reads.specs.amount_math.Content.{Contains};
ghost use Rattle.draft_effects.specs.Steps.{MayReach};
ghost use Rattle.draft_reads.specs.Views.{CanGoBack};
ghost use Rattle.draft_reads.specs.vault_model.Lists.{amount_of, taken};
ghost use Rattle.draft_reads.specs.vault_model.Tables.{hand_minus, hand_plus};
ghost use Rattle.draft_reads.specs.world_laws.Views.{put_to};
ghost use Rattle.draft_effects.specs.HandStore.{CanCarry, CanCarryAll, CanStore, IsStoring, StoresAll};
ghost use Rattle.draft_effects.specs.HandStore.{all_carried, carried, hand_after_all, into_hand};
ghost use Rattle.draft_effects.specs.HandStore.{out_of_hand};
ghost use Rattle.draft_reads.specs.vault.Drafts.{IsOfBrand, hand_now};
ghost use Rattle.draft_reads.specs.vault.Asked.{brand_of};
ghost use Rattle.draft_reads.specs.world_state.Rights.{hand_after};

use draft_reads::amount_math_lib::{PutFault, TakeFault, Value};
use draft_reads::rights_model_lib::{Holder, Movement};
use draft_reads::vault_lib::draft::Draft;
use std::alloc::AllocError;

/// Makes movements, each of which goes to the hand or from it, in their order. On an error some may have
/// been made, and the draft is to be undone.
pub fn move_parts(draft: &mut Draft, moves: &[Movement]) -> Result<(), AllocError>
    requires stores { StoresAll draft.old }
    requires can { CanCarryAll draft.old.now (hand_now draft.old) moves.now }
    ensures ok { OnOk result (IsStoring draft.old draft.new (all_carried draft.old.now moves.now)
        (hand_after_all (hand_now draft.old) moves.now)) }
    ensures back { CanGoBack draft.old draft.new }
{
    for movement in moves {
        move_part(draft, movement)?;
    }
    Ok(())
}

/// Makes a movement that goes to the hand or from it. On an error the draft is to be undone.
pub fn move_part(draft: &mut Draft, movement: &Movement) -> Result<(), AllocError>
    requires stores { StoresAll draft.old }
    requires can { CanCarry draft.old.now (hand_now draft.old) movement.now }
    ensures ok { OnOk result (IsStoring draft.old draft.new (carried draft.old.now movement.now)
        (hand_after (hand_now draft.old) movement.now)) }
    ensures back { CanGoBack draft.old draft.new }
{
    match &movement.from {
        Holder::Hand => {
            let part = movement.value.copy()?;
            put_part(draft, &movement.to, movement.brand, part)
        }
        from => store_part(draft, from, &movement.value),
    }
}

/// Takes what movements move into the hand's own store, in their order. On an error some may have been taken,
/// and the draft is to be undone.
pub fn store_parts(draft: &mut Draft, moves: &[Movement]) -> Result<(), AllocError>
    requires stores { StoresAll draft.old }
    requires can { CanCarryAll draft.old.now (hand_now draft.old) (map into_hand moves.now) }
    ensures ok { OnOk result (IsStoring draft.old draft.new
        (all_carried draft.old.now (map into_hand moves.now))
        (hand_after_all (hand_now draft.old) (map into_hand moves.now))) }
    ensures back { CanGoBack draft.old draft.new }
{
    for movement in moves {
        store_part(draft, &movement.from, &movement.value)?;
    }
    Ok(())
}

/// Puts what movements move from the hand's own store, in their order. On an error some may have been put,
/// and the draft is to be undone.
pub fn put_parts(draft: &mut Draft, moves: &[Movement]) -> Result<(), AllocError>
    requires stores { StoresAll draft.old }
    requires can { CanCarryAll draft.old.now (hand_now draft.old) (map out_of_hand moves.now) }
    ensures ok { OnOk result (IsStoring draft.old draft.new
        (all_carried draft.old.now (map out_of_hand moves.now))
        (hand_after_all (hand_now draft.old) (map out_of_hand moves.now))) }
    ensures back { CanGoBack draft.old draft.new }
{
    for movement in moves {
        let part = movement.value.copy()?;
        put_part(draft, &movement.to, movement.brand, part)?;
    }
    Ok(())
}

/// Takes a part of a purse or a slot, or a payment whole, into the hand's own store. On an error all is as
/// before.
pub fn store_part(draft: &mut Draft, from: &Holder, part: &Value) -> Result<(), AllocError>
    requires stores { StoresAll draft.old }
    requires can { CanStore draft.old.now from.now part.now }
    ensures ok { OnOk result (IsStoring draft.old draft.new
        (taken draft.old.now from.now (brand_of draft.old.now from.now) part.now)
        (hand_plus (hand_now draft.old) (brand_of draft.old.now from.now) part.now.content)) }
    ensures back { CanGoBack draft.old draft.new }
{
    draft.valid();
    match draft.take(from, part) {
        Ok(parcel) => {
            draft.hold(parcel);
            Ok(())
        }
        Err(TakeFault::NoMemory) => Err(AllocError),
        Err(TakeFault::NotEnough) => unreachable!(),
    }
}

/// Puts a part that the hand's own store has to a purse, to a slot of an open seat, where a further one is
/// opened if there is none, or to the next payment. On an error it is given up.
pub fn put_part(draft: &mut Draft, to: &Holder, brand: u16, part: Value) -> Result<(), AllocError>
    requires stores { StoresAll draft.old }
    requires has { Contains (hand_now draft.old brand) part.content }
    requires brand { IsOfBrand draft.old.now brand part }
    requires reach { MayReach draft.old.now to.now (amount_of brand part) }
    ensures ok { OnOk result (IsStoring draft.old draft.new
        (put_to draft.old.now to.now (amount_of brand part))
        (hand_minus (hand_now draft.old) brand part.content)) }
    ensures back { CanGoBack draft.old draft.new }
{
    draft.valid();
    let parcel = draft.let_go(brand, part);
    match draft.put(to, parcel) {
        Ok(()) => Ok(()),
        Err((parcel, fault)) => {
            draft.give_up(parcel);
            let PutFault::NoMemory = fault else {
                unreachable!();
            };
            Err(AllocError)
        }
    }
}
