//! What changes of seats are planned from, by short tables, and what is told of a plan.

ghost use Rattle.std.specs.Prelude.{◌≡◌, ◌++◌, ◌∷◌, [], All, IfSome};
ghost use Rattle.seat_tests.specs.Brands.{AreOfTheirBrands, HasBrands, brand_of, kind_of};

use rearrange::plans::PlanFault;
use rearrange::seat_states::SeatStates;
use rearrange::seats::SeatsFault;
use seats::amount_math_lib::{Amount, Key, Kind, NAT_BOUND, Value};
use seats::host_text_lib::keyword::Keyword;
use seats::proposals_lib::allocations::{Allocation, MOST_SHARES};
use seats::proposals_lib::offers::{Exit, Proposal};
use seats::proposals_lib::plans::{Plan, SeatState};
use std::alloc::Global;
use std::process::Abort;

/// Keywords with so many units, under `Nft` the token nft-1 or none.
pub type Shares = &'static [(&'static str, u128)];

/// What a seat is.
#[derive(Clone, Copy)]
pub struct Given {
    pub seat: u32,
    pub instance: u32,
    pub is_open: bool,
    pub give: Shares,
    pub want: Shares,
    pub slots: Shares,
    pub staged: Option<Shares>,
}

/// An open seat of instance 1, with nothing.
pub const OPEN: Given = Given {
    seat: 0,
    instance: 1,
    is_open: true,
    give: &[],
    want: &[],
    slots: &[],
    staged: None,
};

/// Seat 5, with as many slots as a seat may have.
pub const FULL: Given = Given {
    seat: 5,
    slots: &[
        ("A", 0),
        ("B", 0),
        ("C", 0),
        ("D", 0),
        ("E", 0),
        ("F", 0),
        ("G", 0),
        ("H", 0),
        ("I", 0),
        ("J", 0),
        ("K", 0),
        ("L", 0),
        ("M", 0),
        ("N", 0),
        ("O", 0),
        ("P", 0),
        ("Q", 0),
        ("R", 0),
        ("S", 0),
        ("T", 0),
        ("U", 0),
        ("V", 0),
        ("W", 0),
        ("Z", 0),
        ("AA", 0),
        ("AB", 0),
        ("AC", 0),
        ("AD", 0),
        ("AE", 0),
        ("AF", 0),
        ("AG", 0),
        ("AH", 0),
        ("AI", 0),
        ("AJ", 0),
        ("AK", 0),
        ("AL", 0),
        ("AM", 0),
        ("AN", 0),
        ("AO", 0),
        ("AP", 0),
        ("AQ", 0),
        ("AR", 0),
        ("AS", 0),
        ("AT", 0),
        ("AU", 0),
        ("AV", 0),
        ("AW", 0),
        ("AX", 0),
        ("AY", 0),
        ("AZ", 0),
        ("BA", 0),
        ("BB", 0),
        ("BC", 0),
        ("BD", 0),
        ("BE", 0),
        ("BF", 0),
        ("BG", 0),
        ("BH", 0),
        ("BI", 0),
        ("BJ", 0),
        ("BK", 0),
        ("BL", 0),
        ("BM", 0),
        ("BN", 0),
    ],
    ..OPEN
};

/// What was planned, or why it wasn't, with what is shown.
#[derive(Clone, Copy, PartialEq, Eq)]
pub enum Said {
    Planned,
    WrongInstance(u32),
    OneSeat,
    RepeatedSeat(u32),
    SeatExited(u32),
    StagedLeftOut(u32),
    /// The brand, and how many there are before and after, as it is shown.
    NotConserved(u16, i128, i128),
    NotOfferSafe(u32),
    Limit,
    Other,
}

/// The most units of a value.
pub const MOST: u128 = (1 << 120) - 1;

fn brand_of(keyword: &Keyword) -> u16
    ensures { result ≡ brand_of keyword.now }
{
    if keyword.as_str() == "Nft" {
        return 3;
    }
    if keyword.as_str() == "Asset" || keyword.as_str() == "Out" || keyword.as_str() == "Y" {
        return 1;
    }
    2
}

fn kind_of(keyword: &Keyword) -> Kind
    ensures { result ≡ kind_of keyword.now }
{
    if keyword.as_str() == "Nft" {
        return Kind::Set;
    }
    Kind::Nat
}

/// The token nft-1.
pub fn token(rt: &impl Abort, alloc: Global) -> Value
    ensures { result.kind ≡ Kind.Set }
{
    let key = Key::new(String::from_str(alloc, "nft-1").expect(rt, "memory for a key"));
    assert!(rt; key.is_key());
    Value::set_of_one(alloc, key)
        .ok()
        .expect(rt, "memory for a set")
}

/// So many units of a kind, or the token.
fn value(rt: &impl Abort, alloc: Global, kind: Kind, number: u128) -> Value
    ensures { result.kind ≡ kind }
{
    assert!(rt; number <= NAT_BOUND);
    match kind {
        Kind::Nat => Value::nat(number),
        Kind::Set if number == 1 => token(rt, alloc),
        _ => Value::empty(kind),
    }
}

pub fn keyword(rt: &impl Abort, alloc: Global, text: &str) -> Keyword {
    let keyword = Keyword::read(alloc, text.as_bytes()).ok();
    keyword.expect(rt, "a keyword, and memory")
}

/// The amount of so many units under a keyword.
fn amount(rt: &impl Abort, alloc: Global, keyword: &Keyword, number: u128) -> Amount
    ensures brand { result.brand ≡ brand_of keyword.now }
    ensures kind { result.value.kind ≡ kind_of keyword.now }
{
    let value = value(rt, alloc, kind_of(keyword), number);
    let brand = brand_of(keyword);
    Amount { brand, value }
}

fn add(rt: &impl Abort, alloc: Global, made: &mut Allocation, text: &str, number: u128)
    requires { AreOfTheirBrands made.old }
    ensures { AreOfTheirBrands made.new }
{
    let keyword = keyword(rt, alloc, text);
    assert!(rt; made.len() < MOST_SHARES);
    assert!(rt; made.get(&keyword).is_none());
    let amount = amount(rt, alloc, &keyword, number);
    let added = made.push(alloc, keyword, amount);
    assert!(rt; added.is_ok());
}

pub fn shares(rt: &impl Abort, alloc: Global, shares: Shares) -> Allocation
    ensures { AreOfTheirBrands result }
{
    let mut made = Allocation::new(alloc);
    for (text, number) in shares {
        add(rt, alloc, &mut made, text, *number);
    }
    made
}

pub fn some_shares(rt: &impl Abort, alloc: Global, given: Option<Shares>) -> Option<Allocation>
    ensures { IfSome result AreOfTheirBrands }
{
    match given {
        Some(given) => Some(shares(rt, alloc, given)),
        None => None,
    }
}

pub fn proposal(rt: &impl Abort, alloc: Global, give: Shares, want: Shares) -> Proposal
    ensures give { AreOfTheirBrands result.give }
    ensures want { AreOfTheirBrands result.want }
{
    let give = shares(rt, alloc, give);
    let want = shares(rt, alloc, want);
    let exit = Exit::OnDemand;
    Proposal { give, want, exit }
}

fn state(rt: &impl Abort, alloc: Global, given: &Given) -> SeatState
    ensures { HasBrands result }
{
    let proposal = proposal(rt, alloc, given.give, given.want);
    let allocation = shares(rt, alloc, given.slots);
    let staged = some_shares(rt, alloc, given.staged);
    SeatState {
        seat: given.seat,
        instance: given.instance,
        proposal,
        allocation,
        staged,
        is_open: given.is_open,
    }
}

/// Adds the state of a seat above the others.
fn add_state(rt: &impl Abort, states: &mut SeatStates, state: SeatState)
    ensures { states.new ≡ states.old ++ state ∷ [] }
{
    assert!(rt; states.can_push(state.seat));
    if let Err(_failed) = states.push(state) {
        panic!(rt; "memory for a seat");
    }
}

/// What seats are, of which each is above those before it.
pub fn states(rt: &impl Abort, alloc: Global, all: &[Given]) -> SeatStates
    ensures { All HasBrands result }
{
    let mut states = SeatStates::new(alloc);
    for given in all {
        add_state(rt, &mut states, state(rt, alloc, given));
    }
    states
}

/// Whether an allocation has just these shares, in this order.
pub fn has_shares(allocation: &Allocation, shares: Shares) -> bool {
    if allocation.len() != shares.len() {
        return false;
    }
    for (share, (text, number)) in allocation.shares().iter().zip(shares) {
        if share.keyword.as_str() != *text || share.amount.value.total() != *number {
            return false;
        }
    }
    true
}

/// Whether a plan touches just these seats, in this order, and brings them to these shares.
fn planned(plan: &Plan, after: &[(u32, Shares)]) -> Said {
    if plan.touched().len() != after.len() {
        return Said::Other;
    }
    for (touched, (seat, shares)) in plan.touched().iter().zip(after) {
        if touched.seat != *seat || !has_shares(&touched.after, *shares) {
            return Said::Other;
        }
    }
    Said::Planned
}

/// What is told of seats that can't take part in a change.
pub fn of_seats(fault: SeatsFault) -> Said {
    match fault {
        SeatsFault::WrongInstance(seat) => Said::WrongInstance(seat),
        SeatsFault::OneSeat => Said::OneSeat,
        SeatsFault::RepeatedSeat(seat) => Said::RepeatedSeat(seat),
        SeatsFault::SeatExited(seat) => Said::SeatExited(seat),
        SeatsFault::StagedLeftOut(seat) => Said::StagedLeftOut(seat),
    }
}

fn of_fault(fault: &PlanFault) -> Said {
    match fault {
        PlanFault::Seats(fault) => of_seats(*fault),
        PlanFault::NotConserved(kept) => {
            Said::NotConserved(kept.brand, kept.before.shown(), kept.after.shown())
        }
        PlanFault::NotOfferSafe(seat) => Said::NotOfferSafe(*seat),
        PlanFault::Limit => Said::Limit,
        _ => Said::Other,
    }
}

fn of_plan(plan: Plan, after: &[(u32, Shares)]) -> Said {
    planned(&plan, after)
}

fn of_refusal(fault: PlanFault) -> Said {
    of_fault(&fault)
}

/// What is told of a plan that is to bring its seats to these shares, or of a refusal.
pub fn told(answer: Result<Plan, PlanFault>, after: &[(u32, Shares)]) -> Said {
    match answer {
        Ok(plan) => of_plan(plan, after),
        Err(fault) => of_refusal(fault),
    }
}
