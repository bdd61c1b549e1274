//! Offer safety: whether a seat's slots have all that is wanted, or all that was given.

ghost use Rattle.std.specs.Prelude.{◌↔◌, ◌⊎◌, IfOk, IsTrue, map};
ghost use Rattle.std.specs.List.{AllByRecursion};
ghost use Rattle.row_records.specs.Views.{amount_view};
ghost use Rattle.row_records.specs.fair_rows.Rows.{InTurn};
ghost use Rattle.row_records.specs.fair_rows.Seats.{IsCovered};
ghost use Rattle.row_records.specs.turn_rows.Form.{HasAmountForm};
ghost use Rattle.row_records.specs.turn_rows.declared.editions.Edition.{Edition as Editions};
ghost use Rattle.told_rights.specs.Rights.{TellsRights};

use crate::seats::Promised;
use row_records::rows::KeywordAmount;
use row_records::turn_rows_lib::rights_model_lib::Holder;
use std::alloc::{AllocError, Global};
use told_rights::rights::Rights;

/// Whether the slot of an amount's keyword has it.
fn is_covered(
    alloc: Global,
    rights: &Rights,
    seat: u32,
    amount: &KeywordAmount,
) -> Result<bool, AllocError>
    ensures { (e : Editions) → HasAmountForm e (amount_view amount.now) → IfOk result (λ is. (i : InTurn) → TellsRights rights.now i → IsTrue is ↔ IsCovered i.now.table seat (amount_view amount.now)) }
{
    let keyword = amount.keyword.copy(alloc)?;
    let holder = Holder::Slot(seat, keyword);
    rights.has(&holder, amount.brand, &amount.value)
}

/// Whether the slots of the amounts' keywords have them.
fn are_covered(
    alloc: Global,
    rights: &Rights,
    seat: u32,
    amounts: &[KeywordAmount],
) -> Result<bool, AllocError>
    ensures { IfOk result (λ are. (e : Editions) → AllByRecursion (HasAmountForm e) (map amount_view amounts.now) → (i : InTurn) → TellsRights rights.now i → IsTrue are ↔ AllByRecursion (IsCovered i.now.table seat) (map amount_view amounts.now)) }
{
    for amount in amounts {
        if !is_covered(alloc, rights, seat, amount)? {
            return Ok(false);
        }
    }
    Ok(true)
}

/// Whether the seat has all that is wanted, or all that was given.
pub(crate) fn is_covered_by(
    alloc: Global,
    rights: &Rights,
    seat: u32,
    promised: &Promised,
) -> Result<bool, AllocError>
    ensures { IfOk result (λ is. (e : Editions) → AllByRecursion (HasAmountForm e) (map amount_view promised.now.want.items) → AllByRecursion (HasAmountForm e) (map amount_view promised.now.give.items) → (i : InTurn) → TellsRights rights.now i → IsTrue is ↔ (AllByRecursion (IsCovered i.now.table seat) (map amount_view promised.now.want.items) ⊎ AllByRecursion (IsCovered i.now.table seat) (map amount_view promised.now.give.items))) }
{
    if are_covered(alloc, rights, seat, promised.want.as_slice())? {
        return Ok(true);
    }
    are_covered(alloc, rights, seat, promised.give.as_slice())
}
