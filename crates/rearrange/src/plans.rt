//! The plan of a change, once it is worked, and the tests that it must pass.

ghost use Rattle.std.specs.Prelude.{◌≡◌, ◌<◌, ◌≤◌, ◌++◌, ◌∷◌, [], All, Any, IfErr, IfOk, IfSome, OnOk, length};
ghost use Rattle.proposals.specs.Shares.{AreApart, most_shares};
ghost use Rattle.rearrange.specs.Plans.{IsPlanRefusal};
ghost use Rattle.rearrange.specs.Safety.{AreSafe, MeetProposal};
ghost use Rattle.rearrange.specs.Seats.{state_of};
ghost use Rattle.rearrange.specs.Sums.{AreConserved, touched_of};
ghost use Rattle.rearrange.specs.Sums as sums;

use crate::safety::least_unsafe;
use crate::seat_states::SeatStates;
use crate::seats::SeatsFault;
use crate::sums::{SeatShares, Unkept, first_unkept};
use proposals::plans::{Plan, Touched};
use proposals::slots::{SlotsFault, allocation_of};
use std::alloc::Global;

/// Why a change of allocations is refused (Zoe; the codes and their order are our own).
#[derive(Drop)]
pub enum PlanFault {
    /// A test over seats fails, before any amount is looked at.
    Seats(SeatsFault),
    /// Of an element of a brand the touched seats would not have as many as before.
    NotConserved(Unkept),
    /// The least seat that would not be offer safe.
    NotOfferSafe(u32),
    /// A seat would have over 64 slots.
    Limit,
    NoMemory,
}

/// Whether of each element of each brand the seats have as many after as before.
fn check_kept(alloc: Global, states: &SeatStates, list: &[SeatShares]) -> Result<(), PlanFault>
    ensures ok { OnOk result (AreConserved (sums.all_touched states.now list.now)) }
    ensures refused { IfErr result
        (IsPlanRefusal states.now (sums.all_touched states.now list.now)) }
{
    match first_unkept(alloc, states, list) {
        Ok(None) => Ok(()),
        Ok(Some(unkept)) => Err(PlanFault::NotConserved(unkept)),
        Err(_) => Err(PlanFault::NoMemory),
    }
}

/// Whether that is so, and each seat is offer safe after.
fn check(alloc: Global, states: &SeatStates, list: &[SeatShares]) -> Result<(), PlanFault>
    requires { All (λ s. IfSome (state_of states.now s.seat) (MeetProposal s.shares.items))
        list.now }
    ensures kept { OnOk result (AreConserved (sums.all_touched states.now list.now)) }
    ensures safe { OnOk result (AreSafe states.now (sums.all_touched states.now list.now)) }
    ensures refused { IfErr result
        (IsPlanRefusal states.now (sums.all_touched states.now list.now)) }
{
    check_kept(alloc, states, list)?;
    match least_unsafe(states, list) {
        None => Ok(()),
        Some(seat) => Err(PlanFault::NotOfferSafe(seat)),
    }
}

/// A seat with what it had and what it has then.
fn touched(alloc: Global, states: &SeatStates, seat: SeatShares) -> Result<Touched, SlotsFault>
    requires { AreApart seat.shares.items }
    ensures ok { IfOk result (λ touched. touched ≡ touched_of states.now seat) }
    ensures few { IfOk result (λ touched. length touched.after ≤ most_shares) }
    ensures limit { IfErr result (λ fault.
        fault ≡ SlotsFault.Limit → most_shares < length seat.shares.items) }
{
    let after = allocation_of(alloc, seat.shares)?;
    match states.allocation_copy(alloc, seat.seat) {
        Ok(before) => Ok(Touched {
            seat: seat.seat,
            before,
            after,
        }),
        Err(_) => Err(SlotsFault::NoMemory),
    }
}

/// Puts a touched seat behind the others.
fn keep(all: &mut Vec<Touched>, one: Touched) -> Result<(), SlotsFault>
    ensures ok { OnOk result (all.new.items ≡ all.old.items ++ one ∷ []) }
    ensures err { IfErr result (λ fault. fault ≡ SlotsFault.NoMemory) }
{
    match all.push(one) {
        Ok(()) => Ok(()),
        Err(_) => Err(SlotsFault::NoMemory),
    }
}

/// All seats with what they had and what they have then, or `Limit` where one has over 64 slots.
fn all_touched(
    alloc: Global,
    states: &SeatStates,
    list: Vec<SeatShares>,
) -> Result<Vec<Touched>, SlotsFault>
    requires { All (λ s. AreApart s.shares.items) list.items }
    ensures ok { IfOk result (λ touched. touched.items ≡ sums.all_touched states.now list.items) }
    ensures few { IfOk result (λ touched. All (λ t. length t.after ≤ most_shares) touched.items) }
    ensures limit { IfErr result (λ fault. fault ≡ SlotsFault.Limit
        → Any (λ t. most_shares < length t.after) (sums.all_touched states.now list.items)) }
{
    let mut all = Vec::new(alloc);
    for seat in list {
        match touched(alloc, states, seat) {
            Ok(one) => keep(&mut all, one)?,
            Err(fault) => return Err(fault),
        }
    }
    Ok(all)
}

/// The plan of a change that was worked, or the first test that it fails.
pub fn plan_of(alloc: Global, states: &SeatStates, list: Vec<SeatShares>) -> Result<Plan, PlanFault>
    requires apart { All (λ s. AreApart s.shares.items) list.items }
    requires meets { All (λ s. IfSome (state_of states.now s.seat) (MeetProposal s.shares.items))
        list.items }
    ensures ok { IfOk result (λ plan. plan ≡ sums.all_touched states.now list.items) }
    ensures conserved { IfOk result AreConserved }
    ensures safe { IfOk result (AreSafe states.now) }
    ensures few { IfOk result (All (λ t. length t.after ≤ most_shares)) }
    ensures refused { IfErr result
        (IsPlanRefusal states.now (sums.all_touched states.now list.items)) }
{
    check(alloc, states, list.as_slice())?;
    match all_touched(alloc, states, list) {
        Ok(touched) => Ok(Plan::from_touched(touched)),
        Err(SlotsFault::Limit) => Err(PlanFault::Limit),
        Err(SlotsFault::NoMemory) => Err(PlanFault::NoMemory),
    }
}
