//! The tests over seats that come before any amount is looked at. Where several seats fail one, the least
//! is shown.

ghost use Rattle.std.specs.Prelude.{◌≡◌, Some, IfOk, IsPermutation};
ghost use Rattle.std.specs.List.Sorted.{IsNonDecreasing};
ghost use Rattle.rearrange.specs.Seats as given;

use crate::listed::{ascending, is_listed, is_repeated};
use crate::seat_states::SeatStates;
use proposals::plans::SeatState;
use std::alloc::{AllocError, Global};

/// Why seats can't take part in a change (Zoe; the codes are our own).
#[derive(Clone, Copy)]
pub enum SeatsFault {
    /// The seat is one of another instance.
    WrongInstance(u32),
    /// Fewer than two seats are listed.
    OneSeat,
    /// The seat is listed twice.
    RepeatedSeat(u32),
    /// The seat has exited.
    SeatExited(u32),
    /// The seat has staging, and isn't listed.
    StagedLeftOut(u32),
}

fn is_foreign(instance: u32, states: &SeatStates, seat: u32) -> bool
    ensures { result ≡ given.is_foreign instance states.now seat }
{
    states
        .get(seat)
        .is_some_and(|state| state.instance != instance)
}

fn has_exited(states: &SeatStates, seat: u32) -> bool
    ensures { result ≡ given.has_exited states.now seat }
{
    states.get(seat).is_some_and(|state| !state.is_open)
}

/// Whether an open seat of the instance with staging isn't among the seats, which ascend.
fn is_left_out(instance: u32, sorted: &[u32], state: &SeatState) -> bool
    requires { IsNonDecreasing sorted.now }
    ensures { result ≡ given.is_left_out instance sorted.now state.now }
{
    state.instance == instance
        && state.is_open
        && state.staged.is_some()
        && !is_listed(sorted, state.seat)
}

/// The lesser of what was the least so far and another seat.
pub(crate) fn lesser(least: Option<u32>, seat: u32) -> u32
    ensures { Some result ≡ given.least_of least (Some seat) }
{
    match least {
        Some(other) => other.min(seat),
        None => seat,
    }
}

#[tactic(auto, using(proposals::proofs::Leasts::least_of_three))]
fn least_foreign(instance: u32, states: &SeatStates, seats: &[u32]) -> Option<u32>
    ensures { result ≡ given.least_such (given.is_foreign instance states.now) seats.now }
{
    let mut least = None;
    for seat in seats {
        if is_foreign(instance, states, *seat) {
            least = Some(lesser(least, *seat));
        }
    }
    least
}

#[tactic(auto, using(proposals::proofs::Leasts::least_of_three))]
fn least_exited(states: &SeatStates, seats: &[u32]) -> Option<u32>
    ensures { result ≡ given.least_such (given.has_exited states.now) seats.now }
{
    let mut least = None;
    for seat in seats {
        if has_exited(states, *seat) {
            least = Some(lesser(least, *seat));
        }
    }
    least
}

/// The least of the seats that stand more than once in the list that ascends.
#[tactic(auto, using(proposals::proofs::Leasts::least_of_three))]
fn least_counted(seats: &[u32], sorted: &[u32]) -> Option<u32>
    requires { IsNonDecreasing sorted.now }
    ensures { result ≡ given.least_such (given.is_repeated sorted.now) seats.now }
{
    let mut least = None;
    for seat in seats {
        if is_repeated(sorted, *seat) {
            least = Some(lesser(least, *seat));
        }
    }
    least
}

fn least_repeated(seats: &[u32], sorted: &[u32]) -> Option<u32>
    requires order { IsNonDecreasing sorted.now }
    requires same { IsPermutation seats.now sorted.now }
    ensures { result ≡ given.least_such (given.is_repeated seats.now) seats.now }
{
    least_counted(seats, sorted)
}

/// The least of the seats that are left out of a list that ascends.
#[tactic(auto, using(proposals::proofs::Leasts::least_of_three))]
fn least_unlisted(instance: u32, states: &SeatStates, sorted: &[u32]) -> Option<u32>
    requires { IsNonDecreasing sorted.now }
    ensures { result
        ≡ given.least (given.seats_such (given.is_left_out instance sorted.now) states.now) }
{
    let mut least = None;
    for state in states.as_slice() {
        if is_left_out(instance, sorted, state) {
            least = Some(lesser(least, state.seat));
        }
    }
    least
}

fn least_left_out(instance: u32, states: &SeatStates, seats: &[u32], sorted: &[u32]) -> Option<u32>
    requires order { IsNonDecreasing sorted.now }
    requires same { IsPermutation seats.now sorted.now }
    ensures { result
        ≡ given.least (given.seats_such (given.is_left_out instance seats.now) states.now) }
{
    least_unlisted(instance, states, sorted)
}

/// The tests over listed seats, where a copy of the list ascends.
#[tactic(auto, unfolding(crate::specs::Seats::staged_refusal))]
fn first_fault(
    instance: u32,
    states: &SeatStates,
    seats: &[u32],
    sorted: &[u32],
) -> Option<SeatsFault>
    requires order { IsNonDecreasing sorted.now }
    requires same { IsPermutation seats.now sorted.now }
    ensures { result ≡ given.staged_refusal instance states.now seats.now }
{
    if let Some(seat) = least_foreign(instance, states, seats) {
        return Some(SeatsFault::WrongInstance(seat));
    }
    if seats.len() < 2 {
        return Some(SeatsFault::OneSeat);
    }
    if let Some(seat) = least_repeated(seats, sorted) {
        return Some(SeatsFault::RepeatedSeat(seat));
    }
    if let Some(seat) = least_exited(states, seats) {
        return Some(SeatsFault::SeatExited(seat));
    }
    least_left_out(instance, states, seats, sorted).map(SeatsFault::StagedLeftOut)
}

/// Why seats can't take over their staging, if they can't: a seat of another instance, fewer than two
/// seats, one that is listed twice, one that has exited, an open one of the instance with staging that
/// isn't listed; in this order, over all seats, each with the least that qualifies. The list is sorted
/// for it, so that a long one costs little more than its length.
pub fn staged_refusal(
    alloc: Global,
    instance: u32,
    states: &SeatStates,
    seats: &[u32],
) -> Result<Option<SeatsFault>, AllocError>
    ensures { IfOk result (λ refusal.
        refusal ≡ given.staged_refusal instance states.now seats.now) }
{
    let sorted = ascending(alloc, seats)?;
    Ok(first_fault(instance, states, seats, sorted.as_slice()))
}

/// Why seats can't take part in transfers, if they can't: a seat of another instance, or one that has
/// exited; in this order, over all seats, each with the least that qualifies.
#[tactic(auto, unfolding(crate::specs::Seats::transfers_refusal))]
pub fn transfers_refusal(instance: u32, states: &SeatStates, seats: &[u32]) -> Option<SeatsFault>
    ensures { result ≡ given.transfers_refusal instance states.now seats.now }
{
    if let Some(seat) = least_foreign(instance, states, seats) {
        return Some(SeatsFault::WrongInstance(seat));
    }
    least_exited(states, seats).map(SeatsFault::SeatExited)
}
