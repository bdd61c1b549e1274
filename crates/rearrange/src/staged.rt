//! Reallocation: each listed seat takes over its staging, all together or none (Zoe's reallocate).

ghost use Rattle.std.specs.Prelude.{◌≡◌, ◌≤◌, length, All, IfErr, IfOk, IfSome, IsOk, None, OnOk};
ghost use Rattle.proposals.specs.Shares.{AreApart, most_shares};
ghost use Rattle.rearrange.specs.Safety.{AreSafe, MeetProposal};
ghost use Rattle.rearrange.specs.Seats as given;
ghost use Rattle.rearrange.specs.Staged.{IsOfOneBrand, IsStagedRefusal, shares_staged, staged_plan, touched_with};
ghost use Rattle.rearrange.specs.Sums.{AreConserved, all_touched, touched_of};

use crate::plans::{PlanFault, plan_of};
use crate::seat_states::SeatStates;
use crate::seats::staged_refusal;
use crate::settled::settled;
use crate::sums::SeatShares;
use proposals::allocations::Share;
use proposals::plans::Plan;
use std::alloc::{AllocError, Global};

/// A seat's staging, or where it has none what it has.
fn shares_staged(states: &SeatStates, seat: u32) -> &[Share]
    ensures shares { result.now ≡ shares_staged states.now seat }
    ensures apart { AreApart result.now }
{
    match states.get(seat) {
        Some(state) => match &state.staged {
            Some(staged) => staged.shares(),
            None => state.allocation.shares(),
        },
        None => &[],
    }
}

/// A seat that takes over its staging.
fn with_staging(alloc: Global, states: &SeatStates, seat: u32) -> Result<SeatShares, AllocError>
    requires { All IsOfOneBrand states.now }
    ensures ok { IfOk result (λ s. touched_of states.now s
        ≡ touched_with states.now seat (shares_staged states.now seat)) }
    ensures apart { IfOk result (λ s. AreApart s.shares.items) }
    ensures meets { IfOk result (λ s.
        IfSome (given.state_of states.now s.seat) (MeetProposal s.shares.items)) }
{
    let shares = settled(
        alloc,
        states.allocation_of(seat),
        shares_staged(states, seat),
    )?;
    Ok(SeatShares { seat, shares })
}

/// The listed seats, each with its staging taken over.
fn all_with_staging(
    alloc: Global,
    states: &SeatStates,
    seats: &[u32],
) -> Result<Vec<SeatShares>, AllocError>
    requires { All IsOfOneBrand states.now }
    ensures ok { IfOk result (λ list.
        all_touched states.now list.items ≡ staged_plan states.now seats.now) }
    ensures apart { IfOk result (λ list. All (λ s. AreApart s.shares.items) list.items) }
    ensures meets { IfOk result (λ list. All
        (λ s. IfSome (given.state_of states.now s.seat) (MeetProposal s.shares.items)) list.items) }
{
    let mut list = Vec::new(alloc);
    for seat in seats {
        list.push(with_staging(alloc, states, *seat)?)?;
    }
    Ok(list)
}

/// The tests over the listed seats.
fn check_seats(
    alloc: Global,
    instance: u32,
    states: &SeatStates,
    seats: &[u32],
) -> Result<(), PlanFault>
    ensures ok { OnOk result (given.staged_refusal instance states.now seats.now ≡ None) }
    ensures refused { IfErr result (IsStagedRefusal instance states.now seats.now) }
{
    match staged_refusal(alloc, instance, states, seats) {
        Ok(None) => Ok(()),
        Ok(Some(fault)) => Err(PlanFault::Seats(fault)),
        Err(_) => Err(PlanFault::NoMemory),
    }
}

/// The plan by which each listed seat takes over its staging (Zoe's reallocate; a seat that is listed
/// without staging keeps what it has, own), or the first test that it fails: those over seats, then
/// NotConserved, NotOfferSafe and Limit. The states are those of the listed seats and of every open seat
/// of the instance with staging, for no other can be told as left out; a seat without state fails no test
/// and has nothing. The plan has the seats in the order of the list; who carries it out writes by number.
pub fn plan_staged(
    alloc: Global,
    instance: u32,
    states: &SeatStates,
    seats: &[u32],
) -> Result<Plan, PlanFault>
    requires { All IsOfOneBrand states.now }
    ensures ok { IfOk result (λ plan. plan ≡ staged_plan states.now seats.now) }
    ensures may { IsOk result → given.staged_refusal instance states.now seats.now ≡ None }
    ensures conserved { IfOk result AreConserved }
    ensures safe { IfOk result (AreSafe states.now) }
    ensures few { IfOk result (All (λ t. length t.after ≤ most_shares)) }
    ensures refused { IfErr result (IsStagedRefusal instance states.now seats.now) }
{
    check_seats(alloc, instance, states, seats)?;
    let Ok(list) = all_with_staging(alloc, states, seats) else {
        return Err(PlanFault::NoMemory);
    };
    plan_of(alloc, states, list)
}
