//! Transfers, worked one after the other on a working copy.

ghost use Rattle.std.specs.Prelude.{◌≡◌, All, IfOk, IfSome, OnOk};
ghost use Rattle.rearrange.specs.TestedPlans.{can_lose, can_work, passes_at};
ghost use Rattle.rearrange.specs.Slots.{can_give};
ghost use Rattle.call_arguments.specs.proposals.OfferSafety.{MeetSlots};
ghost use Rattle.call_arguments.specs.proposals.Shares.{AreApart};
ghost use Rattle.rearrange.specs.Seats as given;
ghost use Rattle.rearrange.specs.Transfers as lists;
ghost use Rattle.rearrange.specs.Working as copies;
ghost use Rattle.refusals.specs.Outcomes.{Gives};
ghost use Rattle.share_transfers.specs.Changed.{changed_seats, shares_on};
ghost use Rattle.share_transfers.specs.Tests.{can_move};
ghost use Rattle.share_transfers.specs.Views.{transfer_view, transfer_views};

use crate::slots::{slots_less, slots_more};
use crate::values::ShareTransfer;
use crate::working_copy::WorkingCopy;
use call_arguments::proposals_lib::allocations::Share;
use rearrange::seat_states::SeatStates;
use refusals::stops::Stop;
use std::alloc::Global;

/// What a transfer takes.
fn losses_of(transfer: &ShareTransfer) -> &[Share]
    ensures { result.now ≡ lists.losses_of (transfer_view transfer.now) }
{
    match &transfer.losses {
        Some(shares) => shares.as_slice(),
        None => &[],
    }
}

/// What a transfer gives.
fn gains_of(transfer: &ShareTransfer) -> &[Share]
    ensures { result.now ≡ lists.gains_of (transfer_view transfer.now) }
{
    match &transfer.gains {
        Some(shares) => shares.as_slice(),
        None => losses_of(transfer),
    }
}

/// Takes a transfer's losses from the seat that gives, if there is one: else `NotEnough` (Zoe).
#[tactic(auto, using(crate::proofs::Worked::loses_as, crate::proofs::Worked::loses_none))]
fn take(
    alloc: Global,
    states: &SeatStates,
    copy: &mut WorkingCopy,
    transfer: &ShareTransfer,
) -> Result<(), Stop>
    requires apart { All (λ s. AreApart s.shares.items) (changed_seats copy.old) }
    requires meet { IfSome transfer.now.from (λ seat. MeetSlots
        (shares_on states.now copy.old seat) (lists.losses_of (transfer_view transfer.now))) }
    ensures gives { Gives (λ _. tt) result
        (can_lose (shares_on states.now copy.old) (transfer_view transfer.now)) }
    ensures ok { OnOk result (shares_on states.now copy.new
        ≡ lists.lowered_by (shares_on states.now copy.old) (transfer_view transfer.now)) }
    ensures apart { OnOk result (All (λ s. AreApart s.shares.items) (changed_seats copy.new)) }
{
    let Some(seat) = transfer.from else {
        return Ok(());
    };
    let shares = slots_less(alloc, copy.shares(states, seat), losses_of(transfer))?;
    copy.put(seat, shares)?;
    Ok(())
}

/// Gives a transfer's gains to the seat that gets, if there is one: else `Overlap`, then `TooMuch` (Zoe).
#[tactic(auto, using(crate::proofs::Worked::gains_as, crate::proofs::Worked::gains_none))]
fn give(
    alloc: Global,
    states: &SeatStates,
    copy: &mut WorkingCopy,
    transfer: &ShareTransfer,
) -> Result<(), Stop>
    requires apart { All (λ s. AreApart s.shares.items) (changed_seats copy.old) }
    requires given { IfSome transfer.now.to
        (λ _. AreApart (lists.gains_of (transfer_view transfer.now))) }
    requires meet { IfSome transfer.now.to (λ seat. MeetSlots
        (shares_on states.now copy.old seat)
        (lists.gains_of (transfer_view transfer.now))) }
    ensures gives { Gives (λ _. tt) result (passes_at transfer.now.to (λ seat. can_give
        (shares_on states.now copy.old seat)
        (lists.gains_of (transfer_view transfer.now)))) }
    ensures ok { OnOk result (shares_on states.now copy.new
        ≡ copies.raised_by (shares_on states.now copy.old) (transfer_view transfer.now)) }
    ensures apart { OnOk result (All (λ s. AreApart s.shares.items) (changed_seats copy.new)) }
{
    let Some(seat) = transfer.to else {
        return Ok(());
    };
    let shares = slots_more(alloc, copy.shares(states, seat), gains_of(transfer))?;
    copy.put(seat, shares)?;
    Ok(())
}

/// Works one transfer: first what it takes, then what it gives.
#[tactic(auto, unfolding(refusals::specs::Outcomes::bind))]
fn work(
    alloc: Global,
    states: &SeatStates,
    copy: &mut WorkingCopy,
    transfer: &ShareTransfer,
) -> Result<(), Stop>
    requires apart { All (λ s. AreApart s.shares.items) (changed_seats copy.old) }
    requires given { IfSome transfer.now.to
        (λ _. AreApart (lists.gains_of (transfer_view transfer.now))) }
    requires meet { copies.CanMeet (shares_on states.now copy.old)
        (transfer_view transfer.now) }
    ensures gives { Gives (λ _. tt) result
        (can_move (shares_on states.now copy.old) (transfer_view transfer.now)) }
    ensures ok { OnOk result (shares_on states.now copy.new
        ≡ lists.worked_by (shares_on states.now copy.old) (transfer_view transfer.now)) }
    ensures apart { OnOk result (All (λ s. AreApart s.shares.items) (changed_seats copy.new)) }
{
    take(alloc, states, copy, transfer)?;
    give(alloc, states, copy, transfer)
}

/// Works all transfers, in the order of the list: else the refusal of the first that can't be worked.
pub fn work_all(
    alloc: Global,
    states: &SeatStates,
    list: &[ShareTransfer],
) -> Result<WorkingCopy, Stop>
    requires one { All (lists.HasOneBrand states.now (transfer_views list.now))
        (given.seats_named (transfer_views list.now)) }
    requires given { All (λ t. IfSome t.to
        (λ _. AreApart (lists.gains_of (transfer_view t)))) list.now }
    ensures gives { Gives (λ _. tt) result
        (can_work (given.allocation_of states.now) (transfer_views list.now)) }
    ensures ok { IfOk result (λ now. shares_on states.now now
        ≡ lists.worked (given.allocation_of states.now) (transfer_views list.now)) }
    ensures apart { IfOk result (λ now. All (λ s. AreApart s.shares.items) (changed_seats now)) }
{
    let mut now = WorkingCopy::new(alloc);
    for transfer in list {
        work(alloc, states, &mut now, transfer)?;
    }
    Ok(now)
}
