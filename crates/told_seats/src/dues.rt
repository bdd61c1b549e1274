//! Movements that have to follow a row at once: after an offer's open row the burn of its invitation and the escrows of
//! what it gives, after an exit row a payout of each slot.

ghost use Rattle.std.specs.Prelude.{◌≡◌, ◌↔◌, ◌∷◌, ◌++◌, ℕ, [], IfOk, IsTrue, OnOk, map};
ghost use Rattle.row_records.specs.Views.{amount_view, exit_view, move_view, payout_view};
ghost use Rattle.row_records.specs.fair_rows.Rows.{InTurn, IsBurn, IsDueMove, IsEscrow, IsPayout, burn, escrow, payment_under, payout, payouts_due};
ghost use Rattle.row_records.specs.rights_model.Table.{holds};
ghost use Rattle.row_records.specs.rights_model.declared.Holder.TheVariants.{Payment, Slot};
ghost use Rattle.row_records.specs.turn_rows.Form.{HasValueForm};
ghost use Rattle.row_records.specs.turn_rows.declared.editions.Edition.{Edition as Editions};
ghost use Rattle.told_rights.specs.Rights.{TellsRights};
ghost use Rattle.told_seats.specs.DueViews.{PaysNew, due_view, dues_view, payout_of, slot_contents};
ghost use Rattle.told_seats.specs.SlotViews.{slot_view, slots_view};

use crate::printed::{copy_amount, is_one, is_same_value};
use crate::slots::SlotName;
use row_records::host_text_lib::keyword::Keyword;
use row_records::rows::{ExitRow, KeywordAmount, MoveRow};
use row_records::turn_records_lib::events::Payout as PayoutRow;
use row_records::turn_rows_lib::rights_model_lib::Holder;
use std::alloc::{AllocError, Global};
use std::collections::VecDeque;
use told_rights::contents::Contents;
use told_rights::rights::Rights;

/// What a slot of a seat has goes to the payment, if the exit row names one.
#[derive(Drop)]
pub struct PayoutDue {
    pub seat: u32,
    pub slot: SlotName,
    pub contents: Contents,
    pub payment: Option<u32>,
}

/// A movement that has to come.
pub enum Due {
    /// One invitation is burned.
    Burn,
    /// An amount that an offer gives goes to the slot of its keyword.
    Escrow(u32, KeywordAmount),
    Payout(PayoutDue),
}

impl Drop for Due {
    fn drop(self) {
        match self {
            Due::Burn => {}
            Due::Escrow(_, _) => {}
            Due::Payout(_) => {}
        }
    }
}

// ---- which are due

/// One more, last.
fn push(dues: &mut VecDeque<Due>, due: Due) -> Result<(), AllocError>
    ensures { OnOk result (dues.new.items ≡ dues.old.items ++ due ∷ []) }
{
    match dues.push_back(due) {
        Ok(()) => Ok(()),
        Err(_) => Err(AllocError),
    }
}

/// After an offer's open row.
pub(crate) fn escrows_due(
    alloc: Global,
    seat: u32,
    give: &[KeywordAmount],
) -> Result<VecDeque<Due>, AllocError>
    ensures { IfOk result (λ dues. dues_view dues.items ≡ burn ∷ map (escrow seat) (map amount_view give.now)) }
{
    let mut dues = VecDeque::new(alloc);
    push(&mut dues, Due::Burn)?;
    for amount in give {
        let amount = copy_amount(alloc, amount)?;
        push(&mut dues, Due::Escrow(seat, amount))?;
    }
    Ok(dues)
}

/// The payment that stands under a keyword.
pub(crate) fn payment_under(payouts: &[PayoutRow], keyword: &Keyword) -> Option<u32>
    ensures { result ≡ payment_under keyword.now (map payout_view payouts.now) }
{
    for payout in payouts {
        if keyword.is(&payout.keyword) {
            return Some(payout.payment);
        }
    }
    None
}

/// What a slot of a seat has.
fn contents_at(
    alloc: Global,
    rights: &Rights,
    seat: u32,
    slot: &SlotName,
) -> Result<Contents, AllocError>
    ensures { IfOk result (λ c. (i : InTurn) → TellsRights rights.now i → c ≡ holds i.now.table (Slot seat slot.now.keyword) slot.now.brand) }
{
    let keyword = slot.keyword.copy(alloc)?;
    let holder = Holder::Slot(seat, keyword);
    rights.contents(&holder, slot.brand)
}

/// What each slot of a seat has.
pub(crate) fn contents_of(
    alloc: Global,
    rights: &Rights,
    seat: u32,
    slots: &[SlotName],
) -> Result<Vec<Contents>, AllocError>
    ensures { IfOk result (λ cs. (i : InTurn) → TellsRights rights.now i → cs.items ≡ slot_contents i.now.table seat (slots_view slots.now)) }
{
    let mut all = Vec::new(alloc);
    for slot in slots {
        let contents = contents_at(alloc, rights, seat, slot)?;
        let Ok(()) = all.push(contents) else {
            return Err(AllocError);
        };
    }
    Ok(all)
}

/// What is due of a slot after an exit row.
fn payout_due(
    alloc: Global,
    rights: &Rights,
    row: &ExitRow,
    slot: &SlotName,
) -> Result<Due, AllocError>
    ensures { IfOk result (λ due. (i : InTurn) → TellsRights rights.now i → due_view due ≡ payout_of i.now.table (exit_view row.now) (slot_view slot.now)) }
{
    let contents = contents_at(alloc, rights, row.seat, slot)?;
    let keyword = slot.keyword.copy(alloc)?;
    Ok(Due::Payout(PayoutDue {
        seat: row.seat,
        slot: SlotName {
            keyword,
            brand: slot.brand,
        },
        contents,
        payment: payment_under(row.payouts.as_slice(), &slot.keyword),
    }))
}

/// After an exit row of a seat with these slots.
pub(crate) fn payouts_due(
    alloc: Global,
    rights: &Rights,
    row: &ExitRow,
    slots: &[SlotName],
) -> Result<VecDeque<Due>, AllocError>
    ensures { IfOk result (λ dues. (i : InTurn) → TellsRights rights.now i → dues_view dues.items ≡ payouts_due i.now.table (exit_view row.now) (slots_view slots.now)) }
{
    let mut dues = VecDeque::new(alloc);
    for slot in slots {
        let due = payout_due(alloc, rights, row, slot)?;
        push(&mut dues, due)?;
    }
    Ok(dues)
}

// ---- whether a movement is one

fn is_slot(holder: &Holder, seat: u32, keyword: &Keyword) -> bool
    ensures { IsTrue result ↔ (holder.now ≡ Slot seat keyword.now) }
{
    match holder {
        Holder::Slot(number, named) => *number == seat && keyword.is(named),
        _ => false,
    }
}

fn is_payment(holder: &Holder) -> bool
    ensures { IsTrue result ↔ ((p : ℕ) × (holder.now ≡ Payment p)) }
{
    match holder {
        Holder::Payment(_) => true,
        _ => false,
    }
}

fn is_outside(holder: &Holder) -> bool
    ensures { IsTrue result ↔ (holder.now ≡ Holder.Outside) }
{
    match holder {
        Holder::Outside => true,
        _ => false,
    }
}

fn is_burn(row: &MoveRow) -> bool
    ensures { (e : Editions) → HasValueForm e (move_view row.now).value → IsTrue result ↔ IsBurn (move_view row.now) }
{
    if row.brand != 0 {
        return false;
    }
    if !is_payment(&row.from) {
        return false;
    }
    if !is_outside(&row.to) {
        return false;
    }
    is_one(&row.value)
}

fn is_escrow(seat: u32, amount: &KeywordAmount, row: &MoveRow) -> bool
    ensures { IsTrue result ↔ IsEscrow seat (amount_view amount.now) (move_view row.now) }
{
    row.brand == amount.brand
        && is_payment(&row.from)
        && is_slot(&row.to, seat, &amount.keyword)
        && is_same_value(&row.value, &amount.value)
}

/// Whether it is the payment that the exit row names, if it names one, and no movement has named it.
fn pays_new(rights: &Rights, payment: Option<u32>, to: &Holder) -> bool
    ensures { (i : InTurn) → TellsRights rights.now i → IsTrue result ↔ PaysNew i.now.moves payment to.now }
{
    match (payment, to) {
        (Some(named), Holder::Payment(number)) => named == *number && rights.is_new(named),
        _ => false,
    }
}

fn is_payout(rights: &Rights, due: &PayoutDue, row: &MoveRow) -> bool
    ensures { (e : Editions) → HasValueForm e (move_view row.now).value → (i : InTurn) → TellsRights rights.now i → IsTrue result ↔ IsPayout i.now.moves due.now.seat (slot_view due.now.slot) due.now.contents due.now.payment (move_view row.now) }
{
    if row.brand != due.slot.brand {
        return false;
    }
    if !is_slot(&row.from, due.seat, &due.slot.keyword) {
        return false;
    }
    if !pays_new(rights, due.payment, &row.to) {
        return false;
    }
    due.contents.is(&row.value)
}

/// Whether a movement is the one that is due.
pub(crate) fn is_due_move(rights: &Rights, due: &Due, row: &MoveRow) -> bool
    ensures { (e : Editions) → HasValueForm e (move_view row.now).value → (i : InTurn) → TellsRights rights.now i → IsTrue result ↔ IsDueMove i.now.moves (due_view due.now) (move_view row.now) }
{
    match due {
        Due::Burn => is_burn(row),
        Due::Escrow(seat, amount) => is_escrow(*seat, amount, row),
        Due::Payout(payout) => is_payout(rights, payout, row),
    }
}
