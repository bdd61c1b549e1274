//! Conservation: of each element of each brand the touched seats have as many after as before (Zoe).

ghost use Rattle.std.specs.Prelude.{[], ◌↔◌, IfOk, IsTrue, MatchOption, OnOk};
ghost use Rattle.rearrange.specs.Sums.{AreConserved, IsFirstUnkept, all_touched, touched_of};
ghost use Rattle.rearrange.specs.Parts.{HaveAll, HaveShares, HaveSeat, HaveTouched};
ghost use Rattle.rearrange.specs.Seats as given;

use crate::differences::add_unlike_shares;
use crate::parts::{Part, Side, add_shares, first_uneven, sort};
use crate::seat_states::SeatStates;
use proposals::allocations::Share;
use refusals::amount_math_lib::Key;
use std::alloc::{AllocError, Global};
use value_tests::wide_sums::WideSum;

/// What a seat has while a change is worked. A list that passes the limit of slots is refused last.
#[derive(Drop)]
pub struct SeatShares {
    pub seat: u32,
    pub shares: Vec<Share>,
}

/// A brand's element of which seats would not have as many after a change as before (`NotConserved` shows
/// all four). The element of a nat brand is the empty text.
#[derive(Drop)]
pub struct Unkept {
    pub brand: u16,
    pub element: Key,
    pub before: WideSum,
    pub after: WideSum,
}

/// What a seat has before and after.
fn add_seat(
    alloc: Global,
    parts: &mut Vec<Part>,
    states: &SeatStates,
    seat: &SeatShares,
) -> Result<(), AllocError>
    ensures { OnOk result
        (HaveSeat parts.old.items (touched_of states.now seat.now) parts.new.items) }
{
    add_shares(alloc, parts, Side::Before, states.allocation_of(seat.seat))?;
    add_shares(alloc, parts, Side::After, seat.shares.as_slice())
}

/// What the seats have before and after.
fn parts_of(
    alloc: Global,
    states: &SeatStates,
    list: &[SeatShares],
) -> Result<Vec<Part>, AllocError>
    ensures { IfOk result (λ parts. HaveAll [] (all_touched states.now list.now) parts.items) }
{
    let mut parts = Vec::new(alloc);
    for seat in list {
        add_seat(alloc, &mut parts, states, seat)?;
    }
    Ok(parts)
}

/// What a seat has before and after, but entries that two shares at one place have alike.
fn add_unlike_seat(
    alloc: Global,
    parts: &mut Vec<Part>,
    states: &SeatStates,
    seat: &SeatShares,
) -> Result<(), AllocError>
    ensures { OnOk result (HaveShares (given.allocation_of states.now seat.now.seat)
        seat.now.shares.items parts.old.items parts.new.items) }
{
    add_unlike_shares(
        alloc,
        parts,
        states.allocation_of(seat.seat),
        seat.shares.as_slice(),
    )
}

/// What the seats have before and after, but entries that two shares at one place have alike.
fn unlike_parts_of(
    alloc: Global,
    states: &SeatStates,
    list: &[SeatShares],
) -> Result<Vec<Part>, AllocError>
    ensures { IfOk result (λ parts. HaveTouched (all_touched states.now list.now) [] parts.items) }
{
    let mut parts = Vec::new(alloc);
    for seat in list {
        add_unlike_seat(alloc, &mut parts, states, seat)?;
    }
    Ok(parts)
}

/// Whether of each element of each brand the seats have as many after as before. Entries that two shares
/// at one place have alike are passed over: they are walked once, and only what is left is sorted and
/// added up.
fn are_conserved(
    alloc: Global,
    states: &SeatStates,
    list: &[SeatShares],
) -> Result<bool, AllocError>
    ensures { IfOk result (λ conserved. IsTrue conserved
        ↔ AreConserved (all_touched states.now list.now)) }
{
    let mut parts = unlike_parts_of(alloc, states, list)?;
    sort(&mut parts);
    let uneven = first_uneven(parts.as_slice())?;
    Ok(uneven.is_none())
}

/// The least brand, and of its elements the first in byte order, of which the seats have not as many
/// after as before, if there is one. Both sides are added up whole only where there is one.
pub fn first_unkept(
    alloc: Global,
    states: &SeatStates,
    list: &[SeatShares],
) -> Result<Option<Unkept>, AllocError>
    ensures { IfOk result (λ found. MatchOption found
        (AreConserved (all_touched states.now list.now))
        (IsFirstUnkept (all_touched states.now list.now))) }
{
    let conserved = are_conserved(alloc, states, list)?;
    if conserved {
        return Ok(None);
    }
    let mut parts = parts_of(alloc, states, list)?;
    sort(&mut parts);
    first_uneven(parts.as_slice())
}
