//! Seats by number (Zoe). An opened seat stays for good. Once it is closed it keeps the allocation that
//! it had, while its slots are paid out.

ghost use Rattle.std.specs.Prelude.{◌≡◌, ℕ, List, ◌<◌, ◌≤◌, ◌↔◌, ◌++◌, ◌∷◌, ◌-◌, ◌==◌, [], None, if◌then◌else◌, length, is_none, IfErr, IfOk, IsErr, IsOk, IsSome, IsTrue, OnErr, OnOk};
ghost use Rattle.std.specs.Map.{keys_of};
ghost use Rattle.std.specs.Option.{option_copied};
ghost use Rattle.ertp_mint.specs.amount_math.Amount.{Meet};
ghost use Rattle.ertp_mint.specs.amount_math.Content.{Contains};
ghost use Rattle.ertp_mint.specs.amount_math.declared.Amount.{Amount};
ghost use Rattle.ertp_mint.specs.amount_math.ValueView.{IsValue};
ghost use Rattle.ertp_mint.specs.Stocks.{most_made};
ghost use Rattle.proposals.specs.Shares.{most_shares};
ghost use Rattle.proposals.specs.Slots.{FitsSeat};
ghost use Rattle.proposals.specs.declared.offers.Proposal.{Proposal};
ghost use Rattle.ertp_mint.specs.Balances.{ComesOut, GoesIn, HasRoomFor, HasSpare, held_in};
ghost use Rattle.seats.specs.Seats.{HasPlace, IsOpen, allocation_of, new_seat, open_slots_in, put_in, reopened_seat, sum_with, with_less, with_more, with_room, without_last_slot};
ghost use Rattle.ertp_mint.specs.amount_math.Shortfalls.{IsLossFault};
ghost use Rattle.seats.specs.Slots.{HasEmptyLast, shares_in};
ghost use Rattle.seats.specs.Staging.{staged_at, with_staged, without_staged};
ghost use Rattle.seats.specs.Store.{AreOpen, HasSlotIn, IsNew, IsSlotRefusal, SeatsView, at_seat, seat_in, seats_of, slot_store, state_of, with_closed, without_last};
ghost use Rattle.seats.specs.Undone.{HasClosed, HasOpenedSlot, HasPut, HasTaken, IsOpened};

use crate::by_instance::ByInstance;
use crate::seat_slots::{CloseFault, Seat};
use crate::staging::Staging;
use ertp_mint::Parcel;
use ertp_mint::amount_math_lib::shortfall::LossFault;
use ertp_mint::amount_math_lib::{Holding, PutFault, Value};
use proposals::allocations::Allocation;
use proposals::host_text_lib::keyword::Keyword;
use proposals::offers::Proposal;
use proposals::plans::SeatState;
use std::alloc::{AllocError, Global};
use std::marker::Model;

/// Why no seat is opened.
#[derive(Clone, Copy, PartialEq, Eq)]
pub enum OpenFault {
    /// 4,294,967,295 seats were made.
    Limit,
    NoMemory,
}

/// Why a parcel is not put in a slot.
#[derive(PartialEq, Eq, Drop)]
pub enum SlotFault {
    /// The seat was closed before (Zoe: what has exited takes nothing more).
    SeatExited,
    /// The slot doesn't take it.
    Put(PutFault),
}

/// A seat was closed before (Zoe: what has exited is staged no more).
#[derive(Clone, Copy, PartialEq, Eq)]
pub struct SeatExited;

/// Why nothing is staged.
#[derive(Clone, Copy, PartialEq, Eq)]
pub enum StageFault {
    /// The seat was closed before (Zoe: what has exited is staged no more).
    SeatExited,
    NoMemory,
}

/// All seats. Contracts see each by number, and apart from them what is staged.
#[derive(Drop)]
pub struct Seats {
    seats: Vec<Seat>,
    by_instance: ByInstance,
    staging: Staging,
}

impl Model for Seats {
    ghost use Rattle.seats.specs.Store.{AreListed, SeatsView, coded_seats};

    ghost Value = { SeatsView };

    ghost coded = { coded_seats };

    ghost view = { λ a. record { seats = a.seats.items; staging = a.staging } };

    ghost invariant = { λ a. AreListed a.seats.items a.by_instance a.staging };
}

impl Seats {
    /// No seats.
    pub fn new(alloc: Global) -> Seats
        ensures { result ≡ record { seats = []; staging = [] } }
    {
        Seats {
            seats: Vec::new(alloc),
            by_instance: ByInstance::new(alloc),
            staging: Staging::new(alloc),
        }
    }

    /// How many seats were made: the number that the next one gets.
    pub fn made(&self) -> u32
        ensures made { result ≡ length self.now.seats }
        ensures bounded { result ≤ most_made }
    {
        self.seats.len() as u32
    }

    /// Opens a seat of an instance for a proposal, with a slot for each of its shares and nothing in them,
    /// and answers its number, or hands the proposal back (Zoe's escrow seat).
    pub fn open(&mut self, instance: u32, proposal: Proposal) -> Result<u32, (Proposal, OpenFault)>
        requires { FitsSeat proposal }
        ensures ok { OnOk result (self.new
            ≡ record self.old { seats = self.old.seats ++ new_seat instance proposal ∷ [] }) }
        ensures number { IfOk result (λ seat. seat ≡ length self.old.seats) }
        ensures room { IsOk result → length self.old.seats < most_made }
        ensures limit { IfErr result (λ (_, fault). (fault ≡ OpenFault.Limit)
            ↔ (length self.old.seats ≡ most_made)) }
        ensures back { IfErr result (λ (back, _). back ≡ proposal) }
        ensures err { OnErr result (self.new ≡ self.old) }
    {
        let number = self.made();
        if number == u32::MAX {
            return Err((proposal, OpenFault::Limit));
        }
        match self.add(number, instance, proposal) {
            Ok(()) => Ok(number),
            Err(proposal) => Err((proposal, OpenFault::NoMemory)),
        }
    }

    /// Adds a new seat, whose number this is, or hands the proposal back.
    fn add(&mut self, number: u32, instance: u32, proposal: Proposal) -> Result<(), Proposal>
        requires fits { FitsSeat proposal }
        requires number { number ≡ length self.old.seats }
        requires room { length self.old.seats < most_made }
        ensures ok { OnOk result (self.new
            ≡ record self.old { seats = self.old.seats ++ new_seat instance proposal ∷ [] }) }
        ensures back { IfErr result (λ back. back ≡ proposal) }
        ensures err { OnErr result (self.new ≡ self.old) }
    {
        let alloc = *self.seats.allocator();
        if self.seats.reserve(1).is_err() {
            return Err(proposal);
        }
        if self.by_instance.push(alloc, instance, number).is_err() {
            return Err(proposal);
        }
        match Seat::new(alloc, instance, proposal) {
            Ok(seat) => {
                self.seats.push_reserved(seat);
                Ok(())
            }
            Err(proposal) => {
                self.by_instance.pop(instance);
                Err(proposal)
            }
        }
    }

    /// Works an opening backwards: takes the last seat away, to which nothing was done since. It takes no
    /// memory.
    pub fn undo_open(&mut self)
        requires made { 0 < length self.old.seats }
        requires new { IsNew (seat_in (length self.old.seats - 1) self.old) }
        ensures back { self.new ≡ without_last self.old }
        ensures undone { (instance : ℕ) (proposal : Proposal) (before : SeatsView)
            → IsOpened instance proposal before self.old → self.new.seats ≡ before.seats }
    {
        let number = self.made() - 1;
        self.staging.remove(number);
        let owner = self.seats[number as usize].instance();
        self.by_instance.pop(owner);
        self.seats.truncate(number as usize);
    }

    /// The instance that a seat is of.
    pub fn instance(&self, seat: u32) -> u32
        requires { seat < length self.now.seats }
        ensures { result ≡ (seat_in seat self.now).instance }
    {
        self.seats[seat as usize].instance()
    }

    /// The seats of an instance, in the order of their making.
    pub fn seats_of(&self, instance: u32) -> &[u32]
        ensures { result.now ≡ seats_of instance self.now.seats }
    {
        let _ = &self.seats;
        self.by_instance.seats(instance)
    }

    /// The proposal that a seat was opened for.
    pub fn proposal(&self, seat: u32) -> &Proposal
        requires { seat < length self.now.seats }
        ensures { result.now ≡ (seat_in seat self.now).proposal }
    {
        self.seats[seat as usize].proposal()
    }

    /// Whether a seat wasn't closed yet.
    pub fn is_open(&self, seat: u32) -> bool
        requires { seat < length self.now.seats }
        ensures { result ≡ is_none (seat_in seat self.now).last }
    {
        self.seats[seat as usize].is_open()
    }

    /// How many slots of a seat are to be paid out: none once it is closed.
    pub fn open_slots(&self, seat: u32) -> usize
        requires { seat < length self.now.seats }
        ensures slots { result ≡ open_slots_in (seat_in seat self.now) }
        ensures few { result ≤ most_shares }
    {
        self.seats[seat as usize].open_slots()
    }

    /// Whether a keyword has a slot.
    pub fn has_slot(&self, seat: u32, keyword: &Keyword) -> bool
        requires { seat < length self.now.seats }
        ensures { IsTrue result ↔ HasSlotIn seat keyword.now self.now }
    {
        self.seats[seat as usize].has_slot(keyword)
    }

    /// The brand of the slot of a keyword.
    pub fn brand(&self, seat: u32, keyword: &Keyword) -> u16
        requires made { seat < length self.now.seats }
        requires there { HasSlotIn seat keyword.now self.now }
        ensures { result ≡ (slot_store seat keyword.now self.now).amount.brand }
    {
        self.seats[seat as usize].brand(keyword)
    }

    /// What the slot of a keyword has.
    pub fn holding(&self, seat: u32, keyword: &Keyword) -> &Holding
        requires made { seat < length self.now.seats }
        requires there { HasSlotIn seat keyword.now self.now }
        ensures holding { result.now ≡ held_in (slot_store seat keyword.now self.now) }
        ensures value { IsValue result.now.value.kind result.now.value.content }
    {
        self.seats[seat as usize].holding(keyword)
    }

    /// What the slots of a seat have, or had when it was closed.
    pub fn allocation(&self, seat: u32) -> Result<Allocation, AllocError>
        requires { seat < length self.now.seats }
        ensures { IfOk result (λ allocation. allocation ≡ allocation_of (seat_in seat self.now)) }
    {
        let alloc = *self.seats.allocator();
        self.seats[seat as usize].allocation(alloc)
    }

    /// Works an opening of a slot backwards: takes the slot that stands last away, which has nothing. It
    /// takes no memory.
    pub fn undo_open_slot(&mut self, seat: u32)
        requires made { seat < length self.old.seats }
        requires empty { HasEmptyLast (seat_in seat self.old).slots }
        ensures back { self.new ≡ at_seat seat without_last_slot self.old }
        ensures undone { (keyword : List ℕ) (amount : Amount) (before : SeatsView)
            → HasOpenedSlot seat keyword amount before self.old → self.new ≡ before }
    {
        let seat = &mut self.seats[seat as usize];
        seat.undo_open_slot();
    }

    /// Takes room in the slot of a keyword for a value's keys that it doesn't have. On an error all is as
    /// before.
    pub fn make_room_for(
        &mut self,
        seat: u32,
        keyword: &Keyword,
        value: &Value,
    ) -> Result<(), AllocError>
        requires made { seat < length self.old.seats }
        requires there { HasSlotIn seat keyword.now self.old }
        requires kind { (slot_store seat keyword.now self.old).amount.value.kind ≡ value.now.kind }
        ensures same { self.new ≡ at_seat seat (with_room keyword.now (slot_store seat keyword.now self.new).room) self.old }
        ensures room { (slot_store seat keyword.now self.old).room
            ≤ (slot_store seat keyword.now self.new).room }
        ensures ok { OnOk result (HasRoomFor (slot_store seat keyword.now self.new) value.now.content) }
        ensures err { OnErr result (self.new ≡ self.old) }
    {
        let seat = &mut self.seats[seat as usize];
        seat.make_room_for(keyword, value)
    }

    /// Takes room in the slot of a keyword for so many keys more. On an error all is as before.
    pub fn reserve(&mut self, seat: u32, keyword: &Keyword, keys: usize) -> Result<(), AllocError>
        requires made { seat < length self.old.seats }
        requires there { HasSlotIn seat keyword.now self.old }
        ensures same { self.new ≡ at_seat seat (with_room keyword.now (slot_store seat keyword.now self.new).room) self.old }
        ensures room { (slot_store seat keyword.now self.old).room
            ≤ (slot_store seat keyword.now self.new).room }
        ensures ok { OnOk result (HasSpare (slot_store seat keyword.now self.new) keys) }
        ensures err { OnErr result (self.new ≡ self.old) }
    {
        let seat = &mut self.seats[seat as usize];
        seat.reserve(keyword, keys)
    }

    /// Puts a parcel in the slot of a keyword of an open seat, within its room, which takes no memory.
    pub fn put_within(&mut self, seat: u32, keyword: &Keyword, parcel: Parcel)
        requires made { seat < length self.old.seats }
        requires is_open { IsOpen (seat_in seat self.old) }
        requires there { HasSlotIn seat keyword.now self.old }
        requires goes { GoesIn (slot_store seat keyword.now self.old) parcel }
        ensures more { self.new ≡ at_seat seat (with_more keyword.now parcel.value.content) self.old }
        ensures out { ComesOut (slot_store seat keyword.now self.new) parcel.value }
    {
        let seat = &mut self.seats[seat as usize];
        seat.put_within(keyword, parcel);
    }

    /// Puts a parcel in the slot of a keyword, or in a further slot of the parcel's brand, which stands
    /// last (own), or hands the parcel back: exactly where the seat was closed before, or as the slot
    /// refuses it. Keys and a further slot take memory.
    pub fn put(
        &mut self,
        seat: u32,
        keyword: &Keyword,
        parcel: Parcel,
    ) -> Result<(), (Parcel, SlotFault)>
        requires made { seat < length self.old.seats }
        requires meet { IsOpen (seat_in seat self.old) → HasSlotIn seat keyword.now self.old
            → Meet (slot_store seat keyword.now self.old).amount parcel }
        requires place { IsOpen (seat_in seat self.old)
            → HasPlace keyword.now (seat_in seat self.old) }
        ensures ok { OnOk result (self.new ≡ at_seat seat (put_in keyword.now parcel (slot_store seat keyword.now self.new).room) self.old) }
        ensures value { OnOk result (IsValue parcel.value.kind (sum_with keyword.now parcel (seat_in seat self.old))) }
        ensures out { OnOk result (ComesOut (slot_store seat keyword.now self.new) parcel.value) }
        ensures was_open { IsOk result → IsOpen (seat_in seat self.old) }
        ensures exited { IfErr result (λ (_, fault). (fault ≡ SlotFault.SeatExited)
            ↔ IsSome (seat_in seat self.old).last) }
        ensures back { IfErr result (λ (back, _). back ≡ parcel) }
        ensures err { OnErr result (self.new ≡ self.old) }
        ensures refused { IfErr result (λ (_, fault). IsSlotRefusal parcel.value.kind (sum_with keyword.now parcel (seat_in seat self.old)) fault) }
    {
        let exited = !self.is_open(seat);
        if exited {
            return Err((parcel, SlotFault::SeatExited));
        }
        let seat = &mut self.seats[seat as usize];
        match seat.put(keyword, parcel) {
            Ok(()) => Ok(()),
            Err((parcel, fault)) => Err((parcel, SlotFault::Put(fault))),
        }
    }

    /// Works a put in the slot of a keyword backwards: gives the parcel of that value out, which takes no
    /// memory. A slot that the put opened stays, and `undo_open_slot` takes it away.
    pub fn undo_put(&mut self, seat: u32, keyword: &Keyword, part: Value) -> Parcel
        requires made { seat < length self.old.seats }
        requires there { HasSlotIn seat keyword.now self.old }
        requires out { ComesOut (slot_store seat keyword.now self.old) part }
        ensures parcel { result ≡ record { brand = (slot_store seat keyword.now self.old).amount.brand; value = part } }
        ensures less { self.new ≡ at_seat seat (with_less keyword.now part.content) self.old }
        ensures undone { (before : SeatsView) → HasPut seat keyword.now part.content before self.old
            → self.new ≡ before }
    {
        let seat = &mut self.seats[seat as usize];
        seat.undo_put(keyword, part)
    }

    /// Takes a part out of the slot of a keyword, also of a closed seat, which takes no memory: the value
    /// becomes the parcel.
    pub fn take_value(&mut self, seat: u32, keyword: &Keyword, part: Value) -> Parcel
        requires made { seat < length self.old.seats }
        requires there { HasSlotIn seat keyword.now self.old }
        requires out { ComesOut (slot_store seat keyword.now self.old) part }
        ensures parcel { result ≡ record { brand = (slot_store seat keyword.now self.old).amount.brand; value = part } }
        ensures less { self.new ≡ at_seat seat (with_less keyword.now part.content) self.old }
        ensures back { GoesIn (slot_store seat keyword.now self.new) result }
    {
        let seat = &mut self.seats[seat as usize];
        seat.take_value(keyword, part)
    }

    /// Takes a part out of the slot of a keyword, also of a closed seat, or leaves it as it was. Keys take
    /// memory.
    pub fn take(&mut self, seat: u32, keyword: &Keyword, part: &Value) -> Result<Parcel, LossFault>
        requires made { seat < length self.old.seats }
        requires there { HasSlotIn seat keyword.now self.old }
        requires kind { (slot_store seat keyword.now self.old).amount.value.kind ≡ part.now.kind }
        ensures ok { OnOk result (self.new
            ≡ at_seat seat (with_less keyword.now part.now.content) self.old) }
        ensures part { IfOk result (λ parcel. parcel ≡ record { brand = (slot_store seat keyword.now self.old).amount.brand; value = part.now }) }
        ensures enough { OnOk result (Contains (slot_store seat keyword.now self.old).amount.value.content part.now.content) }
        ensures back { IfOk result (GoesIn (slot_store seat keyword.now self.new)) }
        ensures refused { IfErr result (IsLossFault (slot_store seat keyword.now self.old).amount.value part.now) }
        ensures err { OnErr result (self.new ≡ self.old) }
    {
        let seat = &mut self.seats[seat as usize];
        seat.take(keyword, part)
    }

    /// Works a take out of the slot of a keyword backwards: takes the parcel in, which takes no memory.
    pub fn undo_take(&mut self, seat: u32, keyword: &Keyword, parcel: Parcel)
        requires made { seat < length self.old.seats }
        requires there { HasSlotIn seat keyword.now self.old }
        requires goes { GoesIn (slot_store seat keyword.now self.old) parcel }
        ensures more { self.new ≡ at_seat seat (with_more keyword.now parcel.value.content) self.old }
        ensures undone { (before : SeatsView)
            → HasTaken seat keyword.now parcel.value.content before self.old → self.new ≡ before }
    {
        let seat = &mut self.seats[seat as usize];
        seat.undo_take(keyword, parcel);
    }

    /// Closes a seat, which keeps its allocation, and answers it, or the fault exactly where it was closed
    /// before. What its slots have stays there until it is taken. What was staged of it is let go (own).
    pub fn close(&mut self, seat: u32) -> Result<Allocation, CloseFault>
        requires { seat < length self.old.seats }
        ensures ok { OnOk result (self.new ≡ with_closed seat self.old) }
        ensures last { IfOk result (λ last. last ≡ shares_in (seat_in seat self.old).slots) }
        ensures was_open { IsOk result → IsOpen (seat_in seat self.old) }
        ensures exited { IfErr result (λ fault. (fault ≡ CloseFault.SeatExited)
            ↔ IsSome (seat_in seat self.old).last) }
        ensures err { OnErr result (self.new ≡ self.old) }
    {
        let closing = &mut self.seats[seat as usize];
        let last = closing.close()?;
        self.staging.remove(seat);
        Ok(last)
    }

    /// Works a close backwards: the seat is open again. It takes no memory.
    pub fn undo_close(&mut self, seat: u32)
        requires made { seat < length self.old.seats }
        requires exited { IsSome (seat_in seat self.old).last }
        ensures back { self.new ≡ at_seat seat reopened_seat self.old }
        ensures undone { (before : SeatsView) → HasClosed seat before self.old
            → self.new.seats ≡ before.seats }
    {
        let seat = &mut self.seats[seat as usize];
        seat.undo_close();
    }

    /// Stages what a seat is to have, in place of what was, or hands it back: exactly where the seat was
    /// closed before, or for want of memory.
    pub fn stage(&mut self, seat: u32, shares: Allocation) -> Result<(), (Allocation, StageFault)>
        requires { seat < length self.old.seats }
        ensures ok { OnOk result (self.new
            ≡ record self.old { staging = with_staged seat shares self.old.staging }) }
        ensures was_open { IsOk result → IsOpen (seat_in seat self.old) }
        ensures exited { IfErr result (λ (_, fault). (fault ≡ StageFault.SeatExited)
            ↔ IsSome (seat_in seat self.old).last) }
        ensures back { IfErr result (λ (back, _). back ≡ shares) }
        ensures err { OnErr result (self.new ≡ self.old) }
    {
        if !self.is_open(seat) {
            return Err((shares, StageFault::SeatExited));
        }
        match self.staging.put(seat, shares) {
            Ok(()) => Ok(()),
            Err(shares) => Err((shares, StageFault::NoMemory)),
        }
    }

    /// Lets go of what is staged of a seat, or answers the fault exactly where it was closed before.
    pub fn unstage(&mut self, seat: u32) -> Result<(), SeatExited>
        requires { seat < length self.old.seats }
        ensures ok { OnOk result (self.new
            ≡ record self.old { staging = without_staged seat self.old.staging }) }
        ensures looks { OnOk result ((n : ℕ) → staged_at n self.new.staging
            ≡ (if seat == n then None else staged_at n self.old.staging)) }
        ensures exited { IsErr result ↔ IsSome (seat_in seat self.old).last }
        ensures err { OnErr result (self.new ≡ self.old) }
    {
        if !self.is_open(seat) {
            return Err(SeatExited);
        }
        self.staging.remove(seat);
        Ok(())
    }

    /// What is staged of a seat, or the fault exactly where it was closed before.
    pub fn staged(&self, seat: u32) -> Result<Option<&Allocation>, SeatExited>
        requires { seat < length self.now.seats }
        ensures ok { IfOk result (λ staged. option_copied staged
            ≡ staged_at seat self.now.staging) }
        ensures exited { IsErr result ↔ IsSome (seat_in seat self.now).last }
    {
        if !self.is_open(seat) {
            return Err(SeatExited);
        }
        Ok(self.staging.get(seat))
    }

    /// The seats that have something staged, in the order of their numbers. They are open.
    pub fn staged_seats(&self) -> Result<Vec<u32>, AllocError>
        ensures seats { IfOk result (λ seats. seats.items ≡ keys_of self.now.staging) }
        ensures are_open { AreOpen self.now.seats self.now.staging }
    {
        let alloc = *self.seats.allocator();
        self.staging.seats(alloc)
    }

    /// That what is staged is of open seats, for a caller's proof: it does nothing.
    pub fn staged_are_open(&self)
        ensures { AreOpen self.now.seats self.now.staging }
    {
        let _ = &self.staging;
    }

    /// Lets go of all that is staged (own: staging ends with the turn). It takes no memory, and costs what
    /// was staged.
    pub fn end_staging(&mut self)
        ensures { self.new ≡ record self.old { staging = [] } }
    {
        self.staging.clear();
    }

    /// What a seat is while a change is planned: a closed one has its last allocation, and nothing staged.
    pub fn state(&self, seat: u32) -> Result<SeatState, AllocError>
        requires { seat < length self.now.seats }
        ensures state { IfOk result (λ state. state ≡ state_of seat self.now) }
        ensures exited { IsSome (seat_in seat self.now).last → staged_at seat self.now.staging
            ≡ None }
    {
        let alloc = *self.seats.allocator();
        match self.parts(alloc, seat) {
            Ok((proposal, shares)) => Ok(self.state_with(seat, proposal, shares)),
            Err(fault) => Err(fault),
        }
    }

    /// The state of a seat that has this proposal, and these shares in its slots and staged.
    fn state_with(
        &self,
        seat: u32,
        proposal: Proposal,
        shares: (Allocation, Option<Allocation>),
    ) -> SeatState
        requires made { seat < length self.now.seats }
        requires proposal { proposal ≡ (seat_in seat self.now).proposal }
        requires shares { shares ≡ (allocation_of (seat_in seat self.now), staged_at seat self.now.staging) }
        ensures { result ≡ state_of seat self.now }
    {
        let (allocation, staged) = shares;
        SeatState {
            seat,
            instance: self.instance(seat),
            proposal,
            allocation,
            staged,
            is_open: self.is_open(seat),
        }
    }

    /// Copies of the proposal of a seat, and of what its slots have and what is staged of it.
    fn parts(
        &self,
        alloc: Global,
        seat: u32,
    ) -> Result<(Proposal, (Allocation, Option<Allocation>)), AllocError>
        requires { seat < length self.now.seats }
        ensures proposal { IfOk result (λ parts. parts.0 ≡ (seat_in seat self.now).proposal) }
        ensures shares { IfOk result (λ parts. parts.1
            ≡ (allocation_of (seat_in seat self.now), staged_at seat self.now.staging)) }
    {
        let proposal = self.proposal(seat).copy(alloc)?;
        match self.shares(alloc, seat) {
            Ok(shares) => Ok((proposal, shares)),
            Err(fault) => Err(fault),
        }
    }

    /// What the slots of a seat have, or had when it was closed, and what is staged of it.
    fn shares(
        &self,
        alloc: Global,
        seat: u32,
    ) -> Result<(Allocation, Option<Allocation>), AllocError>
        requires { seat < length self.now.seats }
        ensures { IfOk result (λ shares. shares
            ≡ (allocation_of (seat_in seat self.now), staged_at seat self.now.staging)) }
    {
        let staged = self.staged_copy(alloc, seat)?;
        match self.allocation(seat) {
            Ok(allocation) => Ok((allocation, staged)),
            Err(fault) => Err(fault),
        }
    }

    /// A copy of what is staged of a seat.
    fn staged_copy(&self, alloc: Global, seat: u32) -> Result<Option<Allocation>, AllocError>
        ensures { IfOk result (λ staged. staged ≡ staged_at seat self.now.staging) }
    {
        match self.staging.get(seat) {
            Some(shares) => Ok(Some(shares.copy(alloc)?)),
            None => Ok(None),
        }
    }
}
