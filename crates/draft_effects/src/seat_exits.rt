//! Seats that are left in a turn's draft, any number of them (Zoe: an exiting seat pays each slot out,
//! empty ones too). Its one contract: the seat is closed, nothing is staged of it, and each of its
//! slots, in slot order, goes whole to a payment of its own, as the world's effect of an exit makes of
//! rights and seats; or the draft can be undone as before.

ghost use Rattle.std.specs.Prelude.{◌≡◌, ◌≤◌, ◌+◌, None, length, slice_set, IfOk, OnOk};
ghost use Rattle.draft_effects.specs.Steps.{CanMoveEach, IsAfter};
ghost use Rattle.draft_reads.specs.Views.{CanGoBack, HasNow, rights_in, seats_in, staging_in};
ghost use Rattle.draft_reads.specs.ertp_mint.Stocks.{most_made};
ghost use Rattle.draft_reads.specs.rights_model.Table.{movement};
ghost use Rattle.draft_reads.specs.world_laws.Views.{all_by_hand};
ghost use Rattle.draft_reads.specs.turn_records.Views.{payout_views};
ghost use Rattle.draft_reads.specs.vault.Drafts.{IsClean};
ghost use Rattle.draft_reads.specs.world_state.Good.{AreSharesOf};
ghost use Rattle.draft_reads.specs.world_state.Rights.{slots_at};
ghost use Rattle.draft_reads.specs.world_state.Worlds.{IsOpen, payout_moves, payouts_from, rights_left};
ghost use Rattle.draft_reads.specs.world_state.Worlds.{seat_at, seats_left};

use crate::movements::move_each;
use draft_reads::proposals_lib::allocations::Share;
use draft_reads::rights_model_lib::{Holder, Movement};
use draft_reads::turn_records_lib::events::Payout;
use draft_reads::vault_lib::draft::Draft;
use std::alloc::{AllocError, Global};

/// What a seat that was left is paid out: one payout, and the movement that it is, for each slot, in the
/// order of slots.
#[derive(Drop)]
pub struct PaidOut {
    pub payouts: Vec<Payout>,
    pub moves: Vec<Movement>,
}

/// Leaves an open seat.
pub fn leave(draft: &mut Draft, alloc: Global, seat: u32) -> Result<PaidOut, AllocError>
    requires clean { IsClean draft.old }
    requires is_open { IsOpen (seat_at (seats_in draft.old) seat) }
    requires kinds { AreSharesOf (rights_in draft.old).out (slots_at (rights_in draft.old).slots seat) }
    ensures ok { OnOk result (HasNow draft.new (rights_left (rights_in draft.old) seat)
        (seats_left (seats_in draft.old) seat (slots_at (rights_in draft.old).slots seat))
        (slice_set (staging_in draft.old) seat None)) }
    ensures payouts { IfOk result (λ paid. payout_views paid.payouts.items
        ≡ payouts_from (length (rights_in draft.old).payments) (slots_at (rights_in draft.old).slots seat)) }
    ensures moves { IfOk result (λ paid. paid.moves.items
        ≡ payout_moves seat (length (rights_in draft.old).payments) (slots_at (rights_in draft.old).slots seat)) }
    ensures back { CanGoBack draft.old draft.new }
{
    draft.valid();
    let first = draft.payments().made();
    let last = draft.close(seat)?;
    draft.seats().staged_are_open();
    pay_out(draft, alloc, seat, first, last.shares())
}

/// Pays slots out, to payments of which the first has the number.
fn pay_out(
    draft: &mut Draft,
    alloc: Global,
    seat: u32,
    first: u32,
    shares: &[Share],
) -> Result<PaidOut, AllocError>
    requires clean { IsClean draft.old }
    requires few { first + length shares.now ≤ most_made }
    requires can { CanMoveEach draft.old.now (payout_moves seat first shares.now) }
    ensures ok { OnOk result (IsAfter draft.old draft.new
        (all_by_hand draft.old.now (payout_moves seat first shares.now))) }
    ensures payouts { IfOk result (λ paid.
        payout_views paid.payouts.items ≡ payouts_from first shares.now) }
    ensures moves { IfOk result (λ paid. paid.moves.items ≡ payout_moves seat first shares.now) }
    ensures back { CanGoBack draft.old draft.new }
{
    draft.valid();
    let moves = moves_out(alloc, seat, first, shares)?;
    move_each(draft, &moves)?;
    let payouts = payouts_of(alloc, first, shares)?;
    Ok(PaidOut { payouts, moves })
}

/// The movements of paying slots out, to payments of which the first has the number.
fn moves_out(
    alloc: Global,
    seat: u32,
    first: u32,
    shares: &[Share],
) -> Result<Vec<Movement>, AllocError>
    requires { first + length shares.now ≤ most_made }
    ensures { IfOk result (λ moves. moves.items ≡ payout_moves seat first shares.now) }
{
    let mut moves = Vec::new(alloc);
    let mut next = first;
    for share in shares {
        let payout = move_out(alloc, seat, next, share)?;
        moves.push(payout)?;
        next += 1;
    }
    Ok(moves)
}

/// The movement of paying a slot out.
fn move_out(alloc: Global, seat: u32, payment: u32, share: &Share) -> Result<Movement, AllocError>
    ensures { IfOk result (λ made. made ≡ movement share.now.amount.brand
        (Holder.Slot seat share.now.keyword) (Holder.Payment payment) share.now.amount.value) }
{
    let keyword = share.keyword.copy(alloc)?;
    let value = share.amount.value.copy()?;
    Ok(Movement {
        brand: share.amount.brand,
        from: Holder::Slot(seat, keyword),
        to: Holder::Payment(payment),
        value,
    })
}

/// The payouts of slots, as payments of which the first has the number.
fn payouts_of(alloc: Global, first: u32, shares: &[Share]) -> Result<Vec<Payout>, AllocError>
    requires { first + length shares.now ≤ most_made }
    ensures { IfOk result (λ payouts. payout_views payouts.items ≡ payouts_from first shares.now) }
{
    let mut payouts = Vec::new(alloc);
    let mut payment = first;
    for share in shares {
        payouts.reserve(1)?;
        let keyword = share.keyword.copy(alloc)?;
        payouts.push_reserved(Payout { keyword, payment });
        payment += 1;
    }
    Ok(payouts)
}
