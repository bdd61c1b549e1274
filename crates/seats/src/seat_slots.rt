//! One seat: what it was opened for, what is stored in its slots, and what they had when it was closed
//! (Zoe). Its one contract: each call gives the whole new seat, in which the slot of one keyword alone
//! has changed; what works a call backwards takes no memory.

mod slot;

ghost use Rattle.std.specs.Prelude.{◌≡◌, ◌<◌, ◌≤◌, ◌↔◌, length, is_none, map, IfErr, IfOk, IsOk, IsSome, IsTrue, OnErr, OnOk};
ghost use Rattle.ertp_mint.specs.amount_math.Amount.{Meet};
ghost use Rattle.ertp_mint.specs.amount_math.Content.{Contains};
ghost use Rattle.ertp_mint.specs.amount_math.Shortfalls.{IsLossFault};
ghost use Rattle.ertp_mint.specs.amount_math.ValueView.{IsPutRefusal, IsValue};
ghost use Rattle.ertp_mint.specs.Balances.{ComesOut, GoesIn, HasRoomFor, HasSpare, held_in};
ghost use Rattle.proposals.specs.Shares.{AreShares, most_shares};
ghost use Rattle.proposals.specs.Slots.{FitsSeat, slots_of};
ghost use Rattle.seats.specs.Seats.{HasPlace, IsOpen, allocation_of, closed_seat, new_seat, open_slots_in, put_in, reopened_seat, stored_in, sum_with, with_less, with_more, with_room, without_last_slot};
ghost use Rattle.seats.specs.Slots.{HasEmptyLast, HasSlot, empty_slot, place_of, shares_in};

use crate::seat_slots::slot::{Slot, empty_slots, place_of, shares_of};
use ertp_mint::amount_math_lib::shortfall::{LossFault, show_shortfall};
use ertp_mint::amount_math_lib::{Holding, PutFault, Value};
use ertp_mint::{Balance, Parcel};
use proposals::allocations::Allocation;
use proposals::host_text_lib::keyword::Keyword;
use proposals::offers::Proposal;
use std::alloc::{AllocError, Global};
use std::marker::Model;

/// Why a seat is not closed.
#[derive(Clone, Copy, PartialEq, Eq)]
pub enum CloseFault {
    /// It was closed before (Zoe: a seat exits once).
    SeatExited,
    NoMemory,
}

/// A seat. Contracts see its instance, its proposal, what is stored in each slot with the room for it, and,
/// once it is closed, the shares that it had then.
pub struct Seat {
    instance: u32,
    proposal: Proposal,
    slots: Vec<Slot>,
    last: Option<Allocation>,
}

impl Drop for Seat {
    fn drop(self) {
        let Seat {
            instance: _,
            proposal: _,
            slots: _,
            last: _,
        } = self;
    }
}

impl Model for Seat {
    ghost use Rattle.proposals.specs.Shares.{AreShares};
    ghost use Rattle.seats.specs.Seats.{SeatView, coded_seat};
    ghost use Rattle.seats.specs.Slots.{shares_in};

    ghost Value = { SeatView };

    ghost coded = { coded_seat };

    ghost view = { λ a. record { instance = a.instance; proposal = a.proposal; slots = a.slots.items; last = a.last } };

    ghost invariant = { λ a. AreShares (shares_in a.slots.items) };
}

/// The slots of a new seat for a proposal, with nothing in them.
fn new_slots(alloc: Global, proposal: &Proposal) -> Result<Vec<Slot>, AllocError>
    ensures slots { IfOk result (λ slots. slots.items ≡ map empty_slot (slots_of proposal.now)) }
    ensures apart { IfOk result (λ slots. FitsSeat proposal.now → AreShares (shares_in slots.items)) }
{
    let shares = proposal.slots(alloc)?;
    empty_slots(alloc, shares.as_slice())
}

impl Seat {
    /// A seat for a proposal, with nothing in its slots, or the proposal handed back for want of memory.
    pub fn new(alloc: Global, instance: u32, proposal: Proposal) -> Result<Seat, Proposal>
        requires { FitsSeat proposal }
        ensures ok { IfOk result (λ seat. seat ≡ new_seat instance proposal) }
        ensures back { IfErr result (λ back. back ≡ proposal) }
    {
        match new_slots(alloc, &proposal) {
            Ok(slots) => Ok(Seat {
                instance,
                proposal,
                slots,
                last: None,
            }),
            Err(_) => Err(proposal),
        }
    }

    pub fn instance(&self) -> u32
        ensures { result ≡ self.now.instance }
    {
        self.instance
    }

    pub fn proposal(&self) -> &Proposal
        ensures { result.now ≡ self.now.proposal }
    {
        &self.proposal
    }

    /// Whether it wasn't closed yet.
    pub fn is_open(&self) -> bool
        ensures { result ≡ is_none self.now.last }
    {
        self.last.is_none()
    }

    /// How many slots are to be paid out: none once it is closed.
    pub fn open_slots(&self) -> usize
        ensures slots { result ≡ open_slots_in self.now }
        ensures few { result ≤ most_shares }
    {
        match self.last {
            Some(_) => 0,
            None => self.slots.len(),
        }
    }

    /// Whether a keyword has a slot.
    pub fn has_slot(&self, keyword: &Keyword) -> bool
        ensures { IsTrue result ↔ HasSlot keyword.now self.now.slots }
    {
        place_of(self.slots.as_slice(), keyword) < self.slots.len()
    }

    /// The brand of the slot of a keyword.
    pub fn brand(&self, keyword: &Keyword) -> u16
        requires { HasSlot keyword.now self.now.slots }
        ensures { result ≡ (stored_in keyword.now self.now).amount.brand }
    {
        let place = place_of(self.slots.as_slice(), keyword);
        let slot = &self.slots[place];
        slot.balance.brand()
    }

    /// What the slot of a keyword has.
    pub fn holding(&self, keyword: &Keyword) -> &Holding
        requires { HasSlot keyword.now self.now.slots }
        ensures holding { result.now ≡ held_in (stored_in keyword.now self.now) }
        ensures value { IsValue result.now.value.kind result.now.value.content }
    {
        let place = place_of(self.slots.as_slice(), keyword);
        let slot = &self.slots[place];
        slot.balance.holding()
    }

    /// What its slots have, or had when it was closed.
    pub fn allocation(&self, alloc: Global) -> Result<Allocation, AllocError>
        ensures { IfOk result (λ allocation. allocation ≡ allocation_of self.now) }
    {
        match &self.last {
            Some(last) => last.copy(alloc),
            None => self.slots_now(alloc),
        }
    }

    /// What its slots have.
    fn slots_now(&self, alloc: Global) -> Result<Allocation, AllocError>
        ensures { IfOk result (λ allocation. allocation ≡ shares_in self.now.slots) }
    {
        let shares = shares_of(alloc, self.slots.as_slice())?;
        Allocation::from_shares(alloc, shares)
    }

    /// Takes away the slot that was opened last, which has nothing.
    pub fn undo_open_slot(&mut self)
        requires { HasEmptyLast self.old.slots }
        ensures { self.new ≡ without_last_slot self.old }
    {
        self.slots.truncate(self.slots.len() - 1);
    }

    /// Takes room in the slot of a keyword for a value's keys that it doesn't have. On an error all is as
    /// before.
    pub fn make_room_for(&mut self, keyword: &Keyword, value: &Value) -> Result<(), AllocError>
        requires there { HasSlot keyword.now self.old.slots }
        requires kind { (stored_in keyword.now self.old).amount.value.kind ≡ value.now.kind }
        ensures same { self.new ≡ with_room keyword.now (stored_in keyword.now self.new).room self.old }
        ensures room { (stored_in keyword.now self.old).room
            ≤ (stored_in keyword.now self.new).room }
        ensures ok { OnOk result (HasRoomFor (stored_in keyword.now self.new) value.now.content) }
        ensures err { OnErr result (self.new ≡ self.old) }
    {
        let place = place_of(self.slots.as_slice(), keyword);
        let slot = &mut self.slots[place];
        slot.balance.make_room_for(value)
    }

    /// Takes room in the slot of a keyword for so many keys more. On an error all is as before.
    pub fn reserve(&mut self, keyword: &Keyword, keys: usize) -> Result<(), AllocError>
        requires { HasSlot keyword.now self.old.slots }
        ensures same { self.new ≡ with_room keyword.now (stored_in keyword.now self.new).room self.old }
        ensures room { (stored_in keyword.now self.old).room
            ≤ (stored_in keyword.now self.new).room }
        ensures ok { OnOk result (HasSpare (stored_in keyword.now self.new) keys) }
        ensures err { OnErr result (self.new ≡ self.old) }
    {
        let place = place_of(self.slots.as_slice(), keyword);
        let slot = &mut self.slots[place];
        slot.balance.reserve(keys)
    }

    /// Puts a parcel in the slot of a keyword, within its room, which takes no memory.
    pub fn put_within(&mut self, keyword: &Keyword, parcel: Parcel)
        requires there { HasSlot keyword.now self.old.slots }
        requires goes { GoesIn (stored_in keyword.now self.old) parcel }
        ensures more { self.new ≡ with_more keyword.now parcel.value.content self.old }
        ensures out { ComesOut (stored_in keyword.now self.new) parcel.value }
    {
        let place = place_of(self.slots.as_slice(), keyword);
        let slot = &mut self.slots[place];
        slot.balance.put_within(parcel);
    }

    /// Takes a part out of the slot of a keyword, which takes no memory: the value becomes the parcel.
    pub fn take_value(&mut self, keyword: &Keyword, part: Value) -> Parcel
        requires there { HasSlot keyword.now self.old.slots }
        requires out { ComesOut (stored_in keyword.now self.old) part }
        ensures parcel { result ≡ record { brand = (stored_in keyword.now self.old).amount.brand; value = part } }
        ensures less { self.new ≡ with_less keyword.now part.content self.old }
        ensures back { GoesIn (stored_in keyword.now self.new) result }
    {
        let place = place_of(self.slots.as_slice(), keyword);
        let slot = &mut self.slots[place];
        slot.balance.take_value(part)
    }

    /// Takes a part out of the slot of a keyword, or leaves it as it was. Keys take memory.
    pub fn take(&mut self, keyword: &Keyword, part: &Value) -> Result<Parcel, LossFault>
        requires there { HasSlot keyword.now self.old.slots }
        requires kind { (stored_in keyword.now self.old).amount.value.kind ≡ part.now.kind }
        ensures ok { OnOk result (self.new ≡ with_less keyword.now part.now.content self.old) }
        ensures part { IfOk result (λ parcel. parcel
            ≡ record { brand = (stored_in keyword.now self.old).amount.brand; value = part.now }) }
        ensures enough { OnOk result (Contains (stored_in keyword.now self.old).amount.value.content part.now.content) }
        ensures back { IfOk result (GoesIn (stored_in keyword.now self.new)) }
        ensures refused { IfErr result (IsLossFault (stored_in keyword.now self.old).amount.value part.now) }
        ensures err { OnErr result (self.new ≡ self.old) }
    {
        if !self.holding(keyword).is_gte(part) {
            return Err(show_shortfall(self.holding(keyword), part));
        }
        let Ok(value) = part.copy() else {
            return Err(LossFault::NoMemory);
        };
        Ok(self.take_value(keyword, value))
    }

    /// Puts a parcel in the slot of a keyword, or in a further slot of the parcel's brand, which stands last
    /// (own), or hands it back, and all is as before.
    pub fn put(&mut self, keyword: &Keyword, parcel: Parcel) -> Result<(), (Parcel, PutFault)>
        requires meet { HasSlot keyword.now self.old.slots
            → Meet (stored_in keyword.now self.old).amount parcel }
        requires place { HasPlace keyword.now self.old }
        ensures ok { OnOk result (self.new
            ≡ put_in keyword.now parcel (stored_in keyword.now self.new).room self.old) }
        ensures value { OnOk result (IsValue parcel.value.kind (sum_with keyword.now parcel self.old)) }
        ensures out { OnOk result (ComesOut (stored_in keyword.now self.new) parcel.value) }
        ensures back { IfErr result (λ (back, _). back ≡ parcel) }
        ensures err { OnErr result (self.new ≡ self.old) }
        ensures refused { IfErr result (λ (_, fault).
            IsPutRefusal parcel.value.kind (sum_with keyword.now parcel self.old) fault) }
    {
        let place = place_of(self.slots.as_slice(), keyword);
        if place < self.slots.len() {
            let slot = &mut self.slots[place];
            return slot.balance.put(parcel);
        }
        match self.put_further(keyword, parcel) {
            Ok(()) => Ok(()),
            Err(parcel) => Err((parcel, PutFault::NoMemory)),
        }
    }

    /// Opens a further slot with a parcel, or hands it back.
    fn put_further(&mut self, keyword: &Keyword, parcel: Parcel) -> Result<(), Parcel>
        requires free { length self.old.slots ≤ place_of keyword.now self.old.slots }
        requires few { length self.old.slots < most_shares }
        ensures ok { OnOk result (self.new
            ≡ put_in keyword.now parcel (stored_in keyword.now self.new).room self.old) }
        ensures value { OnOk result (IsValue parcel.value.kind parcel.value.content) }
        ensures out { OnOk result (ComesOut (stored_in keyword.now self.new) parcel.value) }
        ensures back { IfErr result (λ back. back ≡ parcel) }
        ensures err { OnErr result (self.new ≡ self.old) }
    {
        let alloc = *self.slots.allocator();
        if self.slots.reserve(1).is_err() {
            return Err(parcel);
        }
        let Ok(keyword) = keyword.copy(alloc) else {
            return Err(parcel);
        };
        let _kind = parcel.value().kind();
        let balance = Balance::of(alloc, parcel);
        self.slots.push_reserved(Slot { keyword, balance });
        Ok(())
    }

    /// Works a put in the slot of a keyword backwards: gives the parcel of that value out. A slot that the
    /// put opened stays, and `undo_open_slot` takes it away.
    pub fn undo_put(&mut self, keyword: &Keyword, part: Value) -> Parcel
        requires there { HasSlot keyword.now self.old.slots }
        requires out { ComesOut (stored_in keyword.now self.old) part }
        ensures parcel { result ≡ record { brand = (stored_in keyword.now self.old).amount.brand; value = part } }
        ensures less { self.new ≡ with_less keyword.now part.content self.old }
    {
        self.take_value(keyword, part)
    }

    /// Works a take out of the slot of a keyword backwards: takes the parcel in.
    pub fn undo_take(&mut self, keyword: &Keyword, parcel: Parcel)
        requires there { HasSlot keyword.now self.old.slots }
        requires goes { GoesIn (stored_in keyword.now self.old) parcel }
        ensures { self.new ≡ with_more keyword.now parcel.value.content self.old }
    {
        self.put_within(keyword, parcel);
    }

    /// Closes it: it keeps the allocation that it has, and answers it, or the fault exactly where it was
    /// closed before. What its slots have stays there until it is taken.
    pub fn close(&mut self) -> Result<Allocation, CloseFault>
        ensures ok { OnOk result (self.new ≡ closed_seat self.old) }
        ensures last { IfOk result (λ last. last ≡ shares_in self.old.slots) }
        ensures was_open { IsOk result → IsOpen self.old }
        ensures exited { IfErr result (λ fault. (fault ≡ CloseFault.SeatExited)
            ↔ IsSome self.old.last) }
        ensures err { OnErr result (self.new ≡ self.old) }
    {
        if self.last.is_some() {
            return Err(CloseFault::SeatExited);
        }
        let alloc = *self.slots.allocator();
        let Ok(last) = self.slots_now(alloc) else {
            return Err(CloseFault::NoMemory);
        };
        match self.keep_allocation(alloc) {
            Ok(()) => Ok(last),
            Err(_) => Err(CloseFault::NoMemory),
        }
    }

    /// Keeps what the slots have, which closes the seat. On an error all is as before.
    fn keep_allocation(&mut self, alloc: Global) -> Result<(), AllocError>
        ensures ok { OnOk result (self.new ≡ closed_seat self.old) }
        ensures err { OnErr result (self.new ≡ self.old) }
    {
        let kept = self.slots_now(alloc)?;
        self.last = Some(kept);
        Ok(())
    }

    /// Works a close backwards: the seat is open again.
    pub fn undo_close(&mut self)
        requires { IsSome self.old.last }
        ensures { self.new ≡ reopened_seat self.old }
    {
        self.last = None;
    }
}
