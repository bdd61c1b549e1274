//! Seats by number: what is opened, put in, taken out, staged and closed, and the way back.

ghost use Rattle.std.specs.Prelude.{◌≡◌, ◌<◌, ◌≤◌, IsTrue, length};
ghost use Rattle.seats.specs.amount_math.ValueView.{nat_bound};
ghost use Rattle.seats.specs.proposals.Slots.{FitsSeat};
ghost use Rattle.seats.specs.Seats.{HasPlace, IsOpen};
ghost use Rattle.seats.specs.Store.{HasSlotIn, seat_in, slot_store};

use crate::parts::{MOST, Shares, has_shares, keyword, proposal, shares, token};
use rearrange::ertp_mint_lib::{Balance, Circulations, Parcel};
use seats::amount_math_lib::shortfall::LossFault;
use seats::amount_math_lib::{Kind, NAT_BOUND, PutFault, Value};
use seats::host_text_lib::keyword::Keyword;
use seats::proposals_lib::allocations::MOST_SHARES;
use seats::proposals_lib::offers::Proposal;
use seats::proposals_lib::plans::SeatState;
use seats::seat_slots::CloseFault;
use seats::seats::{SeatExited, Seats, SlotFault, StageFault};
use std::alloc::Global;
use std::process::Abort;

/// What comes of a step.
#[derive(Clone, Copy, PartialEq, Eq)]
enum Did {
    Done,
    SeatExited,
    /// The sum that would be, and the bound.
    TooMuch(u128, u128),
    /// What is there, and what is asked.
    NotEnough(u128, u128),
    Other,
}

#[derive(Clone, Copy)]
enum Step {
    Open(u32, Shares, Shares),
    Put(u32, &'static str, u128),
    Take(u32, &'static str, u128),
    Stage(u32, Shares),
    Unstage(u32),
    EndStaging,
    Close(u32),
}

/// The supply of three brands, of which nothing is out.
fn supply(rt: &impl Abort, alloc: Global) -> Circulations
    ensures { length result ≡ 3 }
{
    let mut supply = Circulations::new(alloc);
    let first = supply.add_brand(Kind::Nat).is_ok();
    let second = supply.add_brand(Kind::Nat).is_ok();
    let third = supply.add_brand(Kind::Nat).is_ok();
    assert!(rt; first);
    assert!(rt; second);
    assert!(rt; third);
    supply
}

/// So many units of brand 2, of a supply of their own.
fn parcel(rt: &impl Abort, alloc: Global, number: u128) -> Parcel
    requires { number ≤ nat_bound }
    ensures brand { result.brand ≡ 2 }
    ensures kind { result.value.kind ≡ Kind.Nat }
{
    let mut supply = supply(rt, alloc);
    let value = Value::nat(number);
    assert!(rt; supply.kind(2) == Kind::Nat);
    supply.issue(2, value).ok().expect(rt, "within the bound")
}

/// Whether a seat can be opened for a proposal: no keyword stands in give and want both, and they have
/// at most 64.
fn fits_seat(proposal: &Proposal) -> bool
    ensures { IsTrue result → FitsSeat proposal.now }
{
    let (give, want) = (proposal.give.shares(), proposal.want.shares());
    for share in give {
        if proposal.want.get(&share.keyword).is_some() {
            return false;
        }
    }
    give.len() + want.len() <= MOST_SHARES
}

/// A proposal that a seat can be opened for.
fn fitting(rt: &impl Abort, alloc: Global, give: Shares, want: Shares) -> Proposal
    ensures { FitsSeat result }
{
    let proposal = proposal(rt, alloc, give, want);
    assert!(rt; fits_seat(&proposal));
    proposal
}

fn open(
    rt: &impl Abort,
    alloc: Global,
    seats: &mut Seats,
    instance: u32,
    shares: (Shares, Shares),
) -> Did {
    let proposal = fitting(rt, alloc, shares.0, shares.1);
    match seats.open(instance, proposal) {
        Ok(_) => Did::Done,
        Err(_) => Did::Other,
    }
}

/// Whether money goes in under a keyword: in the slot that is there, or in a further one.
fn takes_money(seats: &Seats, seat: u32, keyword: &Keyword) -> bool
    requires { seat < length seats.now.seats }
    ensures brand { IsTrue result → HasSlotIn seat keyword.now seats.now
        → (slot_store seat keyword.now seats.now).amount.brand ≡ 2 }
    ensures kind { IsTrue result → HasSlotIn seat keyword.now seats.now
        → (slot_store seat keyword.now seats.now).amount.value.kind ≡ Kind.Nat }
    ensures place { IsTrue result → IsOpen (seat_in seat seats.now)
        → HasPlace keyword.now (seat_in seat seats.now) }
{
    if !seats.has_slot(seat, keyword) {
        return seats.open_slots(seat) < MOST_SHARES;
    }
    seats.brand(seat, keyword) == 2 && seats.holding(seat, keyword).kind() == Kind::Nat
}

fn of_slot(fault: SlotFault) -> Did {
    match fault {
        SlotFault::SeatExited => Did::SeatExited,
        SlotFault::Put(PutFault::TooMuch(over)) => Did::TooMuch(over.sum, over.bound),
        _ => Did::Other,
    }
}

fn of_put(alloc: Global, answer: Result<(), (Parcel, SlotFault)>) -> Did {
    match answer {
        Ok(()) => Did::Done,
        Err((back, fault)) => {
            drop(Balance::of(alloc, back));
            of_slot(fault)
        }
    }
}

fn put(
    rt: &impl Abort,
    alloc: Global,
    seats: &mut Seats,
    seat: u32,
    text: &str,
    number: u128,
) -> Did {
    let keyword = keyword(rt, alloc, text);
    assert!(rt; number <= NAT_BOUND);
    assert!(rt; seat < seats.made() && takes_money(seats, seat, &keyword));
    let parcel = parcel(rt, alloc, number);
    of_put(alloc, seats.put(seat, &keyword, parcel))
}

fn of_take(alloc: Global, answer: Result<Parcel, LossFault>) -> Did {
    match answer {
        Ok(taken) => {
            drop(Balance::of(alloc, taken));
            Did::Done
        }
        Err(LossFault::NotEnough(short)) => Did::NotEnough(short.held.total(), short.asked.total()),
        Err(LossFault::NoMemory) => Did::Other,
    }
}

/// Whether a keyword has a slot, of this kind.
fn has_slot(seats: &Seats, seat: u32, keyword: &Keyword, kind: Kind) -> bool
    ensures made { IsTrue result → seat < length seats.now.seats }
    ensures there { IsTrue result → HasSlotIn seat keyword.now seats.now }
    ensures kind { IsTrue result →
        (slot_store seat keyword.now seats.now).amount.value.kind ≡ kind }
{
    seat < seats.made()
        && seats.has_slot(seat, keyword)
        && seats.holding(seat, keyword).kind() == kind
}

fn take(
    rt: &impl Abort,
    alloc: Global,
    seats: &mut Seats,
    seat: u32,
    text: &str,
    number: u128,
) -> Did {
    let keyword = keyword(rt, alloc, text);
    assert!(rt; number <= NAT_BOUND && has_slot(seats, seat, &keyword, Kind::Nat));
    of_take(alloc, seats.take(seat, &keyword, &Value::nat(number)))
}

fn stage(rt: &impl Abort, alloc: Global, seats: &mut Seats, seat: u32, staged: Shares) -> Did {
    assert!(rt; seat < seats.made());
    match seats.stage(seat, shares(rt, alloc, staged)) {
        Ok(()) => Did::Done,
        Err((_, StageFault::SeatExited)) => Did::SeatExited,
        Err(_) => Did::Other,
    }
}

fn unstage(rt: &impl Abort, seats: &mut Seats, seat: u32) -> Did {
    assert!(rt; seat < seats.made());
    match seats.unstage(seat) {
        Ok(()) => Did::Done,
        Err(SeatExited) => Did::SeatExited,
    }
}

fn close(rt: &impl Abort, seats: &mut Seats, seat: u32) -> Did {
    assert!(rt; seat < seats.made());
    match seats.close(seat) {
        Ok(_) => Did::Done,
        Err(CloseFault::SeatExited) => Did::SeatExited,
        Err(CloseFault::NoMemory) => Did::Other,
    }
}

fn end_staging(seats: &mut Seats) -> Did {
    seats.end_staging();
    Did::Done
}

fn done(rt: &impl Abort, alloc: Global, seats: &mut Seats, step: Step) -> Did {
    match step {
        Step::Open(instance, give, want) => open(rt, alloc, seats, instance, (give, want)),
        Step::Put(seat, text, number) => put(rt, alloc, seats, seat, text, number),
        Step::Take(seat, text, number) => take(rt, alloc, seats, seat, text, number),
        Step::Stage(seat, shares) => stage(rt, alloc, seats, seat, shares),
        Step::Unstage(seat) => unstage(rt, seats, seat),
        Step::EndStaging => end_staging(seats),
        Step::Close(seat) => close(rt, seats, seat),
    }
}

/// Whether the first seat has just these shares.
fn has(seats: &Seats, wanted: Shares) -> bool {
    if seats.made() == 0 {
        return false;
    }
    match seats.allocation(0) {
        Ok(allocation) => has_shares(&allocation, wanted),
        Err(_) => false,
    }
}

/// How many seats have something staged.
fn staged(seats: &Seats) -> Option<usize> {
    match seats.staged_seats() {
        Ok(staged) => Some(staged.len()),
        Err(_) => None,
    }
}

/// A step, what comes of it, what the first seat has then, and how many seats are staged.
type Goes = (Step, Did, Shares, usize);

fn goes(rt: &impl Abort, alloc: Global, seats: &mut Seats, share: &Goes) -> bool {
    let (step, answer, wanted, count) = *share;
    done(rt, alloc, seats, step) == answer && has(seats, wanted) && staged(seats) == Some(count)
}

const FILLED: Shares = &[("A", 2), ("B", 1), ("Price", 0)];

const MORE: Shares = &[("A", 2), ("B", 1), ("Price", 0), ("Extra", 4)];

const LAST: Shares = &[("A", 2), ("B", 1), ("Price", 0), ("Extra", 3)];

/// A seat is opened, filled, staged and closed. Its slots are give's in byte order, then want's, then
/// further ones; it keeps what it had last, is paid out then, and its staging is dropped.
const STEPS: &[Goes] = &[
    (
        Step::Open(1, &[("B", 1), ("A", 2)], &[("Price", 5)]),
        Did::Done,
        &[("A", 0), ("B", 0), ("Price", 0)],
        0,
    ),
    (
        Step::Put(0, "A", 2),
        Did::Done,
        &[("A", 2), ("B", 0), ("Price", 0)],
        0,
    ),
    (Step::Put(0, "B", 1), Did::Done, FILLED, 0),
    (Step::Put(0, "Extra", 4), Did::Done, MORE, 0),
    (Step::Take(0, "Extra", 5), Did::NotEnough(4, 5), MORE, 0),
    (
        Step::Put(0, "A", MOST),
        Did::TooMuch((1 << 120) + 1, MOST),
        MORE,
        0,
    ),
    (
        Step::Take(0, "Extra", 1),
        Did::Done,
        &[("A", 2), ("B", 1), ("Price", 0), ("Extra", 3)],
        0,
    ),
    (Step::Stage(0, &[("Price", 5)]), Did::Done, LAST, 1),
    (Step::Open(2, &[], &[]), Did::Done, LAST, 1),
    (Step::Stage(1, &[]), Did::Done, LAST, 2),
    (Step::Unstage(0), Did::Done, LAST, 1),
    (Step::EndStaging, Did::Done, LAST, 0),
    (Step::Stage(0, &[("Price", 5)]), Did::Done, LAST, 1),
    (Step::Close(0), Did::Done, LAST, 0),
    (Step::Close(0), Did::SeatExited, LAST, 0),
    (Step::Put(0, "A", 1), Did::SeatExited, LAST, 0),
    (Step::Stage(0, &[]), Did::SeatExited, LAST, 0),
    (Step::Unstage(0), Did::SeatExited, LAST, 0),
    (Step::Take(0, "A", 2), Did::Done, LAST, 0),
    (Step::Take(0, "A", 1), Did::NotEnough(0, 1), LAST, 0),
];

#[test]
fn a_seat_is_filled_staged_and_closed(rt: HostRuntime) {
    let mut seats = Seats::new(rt.alloc());
    for share in STEPS {
        assert!(rt; goes(&rt, rt.alloc(), &mut seats, share));
    }
}

/// Whether a seat's state shows the instance 2, that it is open, and these shares in its slots and staged.
fn is_state(seats: &Seats, seat: u32, slots: Shares, staged: Shares) -> bool {
    if seats.made() <= seat {
        return false;
    }
    match seats.state(seat) {
        Ok(state) => shows(&state, slots, staged),
        Err(_) => false,
    }
}

fn shows(state: &SeatState, slots: Shares, staged: Shares) -> bool {
    let is_staged = match &state.staged {
        Some(shares) => has_shares(shares, staged),
        None => false,
    };
    is_staged && state.is_open && state.instance == 2 && has_shares(&state.allocation, slots)
}

#[test]
fn a_state_shows_what_a_seat_has_and_is_to_have(rt: HostRuntime) {
    let mut seats = Seats::new(rt.alloc());
    let opened = open(&rt, rt.alloc(), &mut seats, 2, (&[("Bid", 5)], &[]));
    let filled = put(&rt, rt.alloc(), &mut seats, 0, "Bid", 5);
    let staged = stage(&rt, rt.alloc(), &mut seats, 0, &[("Bid", 3)]);
    let is_state = is_state(&seats, 0, &[("Bid", 5)], &[("Bid", 3)]);
    drop(seats);
    assert!(rt; opened == Did::Done && filled == Did::Done && staged == Did::Done && is_state);
}

/// Takes room for two keys in the slot of a keyword of the first seat.
fn is_reserved(rt: &impl Abort, seats: &mut Seats, keyword: &Keyword) -> bool {
    assert!(rt; has_slot(seats, 0, keyword, Kind::Set));
    seats.reserve(0, keyword, 2).is_ok()
}

/// Takes room for a token there.
fn has_room(rt: &impl Abort, alloc: Global, seats: &mut Seats, keyword: &Keyword) -> bool {
    assert!(rt; has_slot(seats, 0, keyword, Kind::Set));
    seats.make_room_for(0, keyword, &token(rt, alloc)).is_ok()
}

#[test]
fn a_slot_makes_room(rt: HostRuntime) {
    let mut seats = Seats::new(rt.alloc());
    let opened = open(&rt, rt.alloc(), &mut seats, 1, (&[], &[("Nft", 1)]));
    let nft = keyword(&rt, rt.alloc(), "Nft");
    let reserved = is_reserved(&rt, &mut seats, &nft);
    let has_room = has_room(&rt, rt.alloc(), &mut seats, &nft);
    drop(nft);
    drop(seats);
    assert!(rt; opened == Did::Done && reserved && has_room);
}
