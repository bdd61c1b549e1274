//! The plan that transfers come to.

ghost use Rattle.std.specs.Prelude.{◌≡◌, ◌≤◌, length, ◌++◌, All, IfOk, IfSome, OnOk, map, option_to_list};
ghost use Rattle.rearrange.specs.TestedPlans.{transfer_changes};
ghost use Rattle.call_arguments.specs.proposals.Shares.{AreApart, most_shares};
ghost use Rattle.rearrange.specs.Safety.{MeetProposal};
ghost use Rattle.rearrange.specs.Seats as given;
ghost use Rattle.rearrange.specs.Staged.{touched_with};
ghost use Rattle.rearrange.specs.Sums.{all_touched, touched_of};
ghost use Rattle.rearrange.specs.Transfers as lists;
ghost use Rattle.rearrange.specs.Working.{CanSettle};
ghost use Rattle.refusals.specs.Outcomes.{Gives};
ghost use Rattle.share_transfers.specs.Changed.{changed_seats, shares_on};
ghost use Rattle.share_transfers.specs.Tests.{kept_plan};
ghost use Rattle.share_transfers.specs.Views.{transfer_view, transfer_views};

use crate::exchanges::work_all;
use crate::seat_lists::once;
use crate::values::ShareTransfer;
use crate::working_copy::WorkingCopy;
use call_arguments::proposals_lib::allocations::Share;
use call_arguments::proposals_lib::plans::Plan;
use rearrange::plan_refusals::plan_told;
use rearrange::plans::plan_of;
use rearrange::seat_states::SeatStates;
use rearrange::settled::settled;
use rearrange::sums::SeatShares;
use refusals::stops::Stop;
use std::alloc::{AllocError, Global};

/// Puts a seat behind the others, if there is one.
fn add_seat(seats: &mut Vec<u32>, seat: Option<u32>) -> Result<(), AllocError>
    ensures { OnOk result (seats.new.items ≡ seats.old.items ++ option_to_list seat) }
{
    if let Some(seat) = seat {
        seats.push(seat)?;
    }
    Ok(())
}

/// The seats that transfers name, each that gives before the one that gets.
fn seats_named(alloc: Global, list: &[ShareTransfer]) -> Result<Vec<u32>, AllocError>
    ensures { IfOk result (λ seats. seats.items ≡ given.seats_named (transfer_views list.now)) }
{
    let mut seats = Vec::new(alloc);
    for transfer in list {
        add_seat(&mut seats, transfer.from)?;
        add_seat(&mut seats, transfer.to)?;
    }
    Ok(seats)
}

/// A seat that takes over shares.
fn settle(
    alloc: Global,
    states: &SeatStates,
    shares: &[Share],
    seat: u32,
) -> Result<SeatShares, AllocError>
    requires can { CanSettle states.now shares.now seat }
    requires apart { AreApart shares.now }
    ensures ok { IfOk result (λ s.
        touched_of states.now s ≡ touched_with states.now seat shares.now) }
    ensures apart { IfOk result (λ s. AreApart s.shares.items) }
    ensures meets { IfOk result (λ s.
        IfSome (given.state_of states.now s.seat) (MeetProposal s.shares.items)) }
{
    let shares = settled(alloc, states.allocation_of(seat), shares)?;
    Ok(SeatShares {
        seat,
        shares: shares,
    })
}

/// Seats that take over what they have on the working copy.
fn settle_all(
    alloc: Global,
    states: &SeatStates,
    copy: &WorkingCopy,
    seats: &[u32],
) -> Result<Vec<SeatShares>, AllocError>
    requires can { All (λ seat.
        CanSettle states.now (shares_on states.now copy.now seat) seat) seats.now }
    requires apart { All (λ s. AreApart s.shares.items) (changed_seats copy.now) }
    ensures ok { IfOk result (λ done. all_touched states.now done.items ≡ map
        (λ seat. touched_with states.now seat (shares_on states.now copy.now seat)) seats.now) }
    ensures apart { IfOk result (λ done. All (λ s. AreApart s.shares.items) done.items) }
    ensures meets { IfOk result (λ done. All
        (λ s. IfSome (given.state_of states.now s.seat) (MeetProposal s.shares.items)) done.items) }
{
    let mut done = Vec::new(alloc);
    for seat in seats {
        done.push(settle(alloc, states, copy.shares(states, *seat), *seat)?)?;
    }
    Ok(done)
}

/// The seats that are named take over what they have on the working copy, each once.
fn settle_named(
    alloc: Global,
    states: &SeatStates,
    copy: &WorkingCopy,
    named: &[u32],
) -> Result<Vec<SeatShares>, AllocError>
    requires can { All (λ seat.
        CanSettle states.now (shares_on states.now copy.now seat) seat) named.now }
    requires apart { All (λ s. AreApart s.shares.items) (changed_seats copy.now) }
    ensures ok { IfOk result (λ done. all_touched states.now done.items ≡ map
        (λ seat. touched_with states.now seat (shares_on states.now copy.now seat))
        (lists.once named.now)) }
    ensures apart { IfOk result (λ done. All (λ s. AreApart s.shares.items) done.items) }
    ensures meets { IfOk result (λ done. All
        (λ s. IfSome (given.state_of states.now s.seat) (MeetProposal s.shares.items)) done.items) }
{
    let seats = once(alloc, named)?;
    settle_all(alloc, states, copy, seats.as_slice())
}

/// The plan by which seats have shares, or the first test that it fails: `NotConserved`, `NotOfferSafe`, `Limit`.
#[tactic(auto, using(rearrange::proofs::Kept::plan_passes, rearrange::proofs::Kept::plan_fails), unfolding(refusals::specs::Outcomes::bind))]
fn tested_plan(alloc: Global, states: &SeatStates, list: Vec<SeatShares>) -> Result<Plan, Stop>
    requires apart { All (λ s. AreApart s.shares.items) list.items }
    requires meets { All
        (λ s. IfSome (given.state_of states.now s.seat) (MeetProposal s.shares.items)) list.items }
    ensures gives { Gives (λ plan. plan) result
        (kept_plan states.now (all_touched states.now list.items)) }
    ensures plan { IfOk result (λ plan. plan ≡ all_touched states.now list.items) }
    ensures small { IfOk result (λ plan. All (λ t. length t.after ≤ most_shares) plan) }
{
    match plan_of(alloc, states, list) {
        Ok(plan) => Ok(plan),
        Err(fault) => Err(plan_told(fault)),
    }
}

/// The plan that transfers come to, worked in the order of the list on a working copy (Zoe's atomicRearrange), or the
/// first test that fails: for each transfer in turn `NotEnough`, `Overlap`, `TooMuch`, each over its shares; then
/// `NotConserved`, `NotOfferSafe` and `Limit`. A record of a transfer may have any number of shares.
#[tactic(auto, using(crate::proofs::Planned::can_settle_all), unfolding(rearrange::specs::TestedPlans::transfer_changes, refusals::specs::Outcomes::bind))]
pub fn plan_transfers(
    alloc: Global,
    states: &SeatStates,
    list: &[ShareTransfer],
) -> Result<Plan, Stop>
    requires one { All (lists.HasOneBrand states.now (transfer_views list.now))
        (given.seats_named (transfer_views list.now)) }
    requires given { All (λ t. IfSome t.to
        (λ _. AreApart (lists.gains_of (transfer_view t)))) list.now }
    ensures gives { Gives (λ plan. plan) result
        (transfer_changes states.now (transfer_views list.now)) }
    ensures plan { IfOk result (λ plan. plan
        ≡ lists.transfers_plan states.now (transfer_views list.now)) }
    ensures small { IfOk result (λ plan. All (λ t. length t.after ≤ most_shares) plan) }
{
    let now = work_all(alloc, states, list)?;
    let named = seats_named(alloc, list)?;
    let done = settle_named(alloc, states, &now, named.as_slice())?;
    tested_plan(alloc, states, done)
}
