//! The halves of a movement: what it moves is taken to the hand, and put from there.

ghost use Rattle.std.specs.Prelude.{◌≡◌, IfOk, OnErr, OnOk};
ghost use Rattle.draft_reads.specs.amount_math.Content.{Contains};
ghost use Rattle.draft_effects.specs.Steps.{CanMoveByHand, HasInHand, IsAfter, IsCarrying};
ghost use Rattle.draft_effects.specs.Steps.{MayArrive, MayReach, SlotLeaves, moved_amount};
ghost use Rattle.draft_reads.specs.Views.{CanGoBack};
ghost use Rattle.draft_reads.specs.ertp_mint.BrandSupply.{MayIssue, supply_at};
ghost use Rattle.draft_reads.specs.vault_model.Lists.{amount_of, taken};
ghost use Rattle.draft_reads.specs.world_laws.Views.{put_to, taken_by_hand, with_slot_for};
ghost use Rattle.draft_reads.specs.vault.Drafts.{IsClean, IsOfBrand};
ghost use Rattle.draft_reads.specs.vault.Asked.{IsSource, brand_of, held_by};

use draft_reads::amount_math_lib::{PutFault, TakeFault, Value};
use draft_reads::ertp_mint_lib::Parcel;
use draft_reads::host_text_lib::keyword::Keyword;
use draft_reads::rights_model_lib::{Holder, Movement};
use draft_reads::vault_lib::draft::Draft;
use std::alloc::AllocError;

/// Takes what a movement moves to the hand. On an error the draft is as before, but for an empty slot that
/// may have been opened.
pub fn take(draft: &mut Draft, movement: &Movement) -> Result<Parcel, AllocError>
    requires clean { IsClean draft.old }
    requires can { CanMoveByHand draft.old.now movement.now }
    ensures ok { OnOk result (IsCarrying draft.old draft.new
        (taken_by_hand draft.old.now movement.now) (moved_amount movement.now)) }
    ensures parcel { IfOk result (λ parcel. parcel ≡ moved_amount movement.now) }
    ensures back { OnErr result (CanGoBack draft.old draft.new) }
{
    draft.valid();
    match &movement.from {
        Holder::Outside => {
            let value = movement.value.copy()?;
            issue(draft, movement.brand, value)
        }
        Holder::Slot(seat, keyword) => {
            open_slot(draft, *seat, keyword, movement)?;
            take_from_holder(draft, &movement.from, &movement.value)
        }
        Holder::Purse(_) => take_from_holder(draft, &movement.from, &movement.value),
        Holder::Payment(_) => take_from_holder(draft, &movement.from, &movement.value),
        Holder::Hand => unreachable!(),
    }
}

/// Puts a parcel, which is all that the hand has, to a holder. On an error the parcel is given up.
pub fn put(draft: &mut Draft, to: &Holder, parcel: Parcel) -> Result<(), AllocError>
    requires has { HasInHand draft.old parcel }
    requires brand { IsOfBrand draft.old.now parcel.brand parcel.value }
    requires arrives { MayArrive draft.old.now to.now parcel }
    ensures ok { OnOk result (IsAfter draft.old draft.new (put_to draft.old.now to.now parcel)) }
    ensures back { CanGoBack draft.old draft.new }
{
    draft.valid();
    match to {
        Holder::Outside => retire(draft, parcel),
        Holder::Purse(_) => put_to_holder(draft, to, parcel),
        Holder::Payment(_) => put_to_holder(draft, to, parcel),
        Holder::Slot(_, _) => put_to_holder(draft, to, parcel),
        Holder::Hand => unreachable!(),
    }
}

/// Brings a value of a brand out, as a parcel in the hand. On an error all is as before.
pub fn issue(draft: &mut Draft, brand: u16, value: Value) -> Result<Parcel, AllocError>
    requires clean { IsClean draft.old }
    requires brand { IsOfBrand draft.old.now brand value }
    requires may { MayIssue (supply_at draft.old.now.out brand) value }
    ensures ok { OnOk result (IsCarrying draft.old draft.new
        (taken draft.old.now Holder.Outside brand value) (amount_of brand value)) }
    ensures parcel { IfOk result (λ parcel. parcel ≡ amount_of brand value) }
    ensures err { OnErr result (draft.new ≡ draft.old) }
{
    draft.valid();
    match draft.issue(brand, value) {
        Ok(parcel) => Ok(parcel),
        Err((_, fault)) => Err(want_of_memory(fault)),
    }
}

/// The want of memory, for which alone a parcel isn't brought out or put.
fn want_of_memory(_fault: PutFault) -> AllocError
    requires { _fault ≡ PutFault.NoMemory }
{
    AllocError
}

/// Takes what a purse, a payment or a slot has, in the hand. On an error all is as before.
fn take_from_holder(draft: &mut Draft, from: &Holder, value: &Value) -> Result<Parcel, AllocError>
    requires clean { IsClean draft.old }
    requires source { IsSource draft.old.now from.now value.now }
    requires brand { IsOfBrand draft.old.now (brand_of draft.old.now from.now) value.now }
    requires has { Contains (held_by draft.old.now from.now) value.now.content }
    ensures ok { OnOk result (IsCarrying draft.old draft.new
        (taken draft.old.now from.now (brand_of draft.old.now from.now) value.now)
        (amount_of (brand_of draft.old.now from.now) value.now)) }
    ensures parcel { IfOk result (λ parcel.
        parcel ≡ amount_of (brand_of draft.old.now from.now) value.now) }
    ensures err { OnErr result (draft.new ≡ draft.old) }
{
    draft.valid();
    match draft.take(from, value) {
        Ok(parcel) => Ok(parcel),
        Err(TakeFault::NoMemory) => Err(AllocError),
        Err(TakeFault::NotEnough) => unreachable!(),
    }
}

/// Opens an empty slot for a movement, where its seat has none of the keyword.
fn open_slot(
    draft: &mut Draft,
    seat: u32,
    keyword: &Keyword,
    movement: &Movement,
) -> Result<(), AllocError>
    requires clean { IsClean draft.old }
    requires brand { IsOfBrand draft.old.now movement.now.brand movement.now.value }
    requires from { movement.now.from ≡ Holder.Slot seat keyword.now }
    requires slot { SlotLeaves draft.old.now seat keyword.now movement.now.value }
    ensures ok { OnOk result (IsAfter draft.old draft.new
        (with_slot_for draft.old.now (Holder.Slot seat keyword.now) (moved_amount movement.now))) }
    ensures back { CanGoBack draft.old draft.new }
{
    draft.valid();
    if draft.seats().has_slot(seat, keyword) {
        return Ok(());
    }
    let _minted = draft.supply().minted(movement.brand);
    let _fits = draft.supply().kind(movement.brand);
    let parcel = issue(draft, movement.brand, Value::empty(movement.value.kind()))?;
    put_to_holder(draft, &movement.from, parcel)
}

/// Puts a parcel, which is all that the hand has, to a purse, to a slot or to the next payment. On an error
/// it is given up.
fn put_to_holder(draft: &mut Draft, to: &Holder, parcel: Parcel) -> Result<(), AllocError>
    requires has { HasInHand draft.old parcel }
    requires brand { IsOfBrand draft.old.now parcel.brand parcel.value }
    requires reach { MayReach draft.old.now to.now parcel }
    ensures ok { OnOk result (IsAfter draft.old draft.new (put_to draft.old.now to.now parcel)) }
    ensures back { CanGoBack draft.old draft.new }
{
    draft.valid();
    match draft.put(to, parcel) {
        Ok(()) => Ok(()),
        Err((parcel, fault)) => {
            draft.give_up(parcel);
            Err(want_of_memory(fault))
        }
    }
}

/// Ends a parcel, which is all that the hand has. On an error it is given up.
fn retire(draft: &mut Draft, parcel: Parcel) -> Result<(), AllocError>
    requires has { HasInHand draft.old parcel }
    requires brand { IsOfBrand draft.old.now parcel.brand parcel.value }
    ensures ok { OnOk result (IsAfter draft.old draft.new
        (put_to draft.old.now Holder.Outside parcel)) }
    ensures back { CanGoBack draft.old draft.new }
{
    draft.valid();
    match draft.retire(parcel) {
        Ok(()) => Ok(()),
        Err(parcel) => {
            draft.give_up(parcel);
            Err(AllocError)
        }
    }
}
