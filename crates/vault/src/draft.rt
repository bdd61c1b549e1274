//! The vault, and a turn's draft of it.

ghost use Rattle.std.specs.Prelude.{◌≡◌, ◌<◌, ◌≤◌, ◌+◌, ◌==◌, ◌↔◌, ℕ, [], ◌∷◌, List, None, false, if◌then◌else◌, length, map, reverse, IfErr, IfOk, IsErr, IsOk, IsSome, OnErr, OnOk};
ghost use Rattle.std.specs.Vec.{vec_capacity, vec_len};
ghost use Rattle.vault_model.specs.amount_math.Content.{Contains, nothing};
ghost use Rattle.vault_model.specs.amount_math.Held.{HasRoom, keys_in};
ghost use Rattle.vault_model.specs.amount_math.ValueView.{IsTakeRefusal, keys_of};
ghost use Rattle.vault_model.specs.ertp_mint.BrandSupply.{IsMintRefusal, MayIssue, supply_at};
ghost use Rattle.vault_model.specs.ertp_mint.Stocks.{most_made};
ghost use Rattle.vault_model.specs.proposals.Slots.{FitsSeat};
ghost use Rattle.seats.specs.Staging.{staged_at, with_staged, without_staged};
ghost use Rattle.vault_model.specs.Backwards.{Rooms};
ghost use Rattle.vault_model.specs.Lists.{Lists, amount_of, kind_of, no_lists, with_closed_seat, with_new_purse, with_new_seat, with_new_slot};
ghost use Rattle.vault_model.specs.Seats.{IsOpenSeat, kept_seat_at};
ghost use Rattle.vault_model.specs.Tables.{table_of};
ghost use Rattle.vault_model.specs.rights_model.Table.{movement};
ghost use Rattle.transit.specs.Transit.{in_store};
ghost use Rattle.vault.specs.Drafts.{HandGoes, HandKeeps, IsClean, IsOfBrand, IsStored, IsValid, MayPut, after, begun, given_at, given_up_too, held_too, let_out, opened, slotted, table_now, with_brand, with_staging};
ghost use Rattle.vault.specs.Working.{IsWorking};
ghost use Rattle.vault.specs.Asked.{IsPutFault, IsSeatTooMany, IsSource, IsTarget, MayOpenSlot, TakesIn, brand_of, held_by};
ghost use Rattle.vault.specs.Forgetting.{IsForgetting, IsForgotten};
ghost use Rattle.vault.specs.Memory.{IsRoomed, amount_in, kept_seat, lists_of, rooms_of, store_of, supply_of};

use crate::stores::Stores;
use seats::seats::{OpenFault as SeatFault, SeatExited, Seats, StageFault};
use std::alloc::{AllocError, Global};
use std::marker::Model;
use transit::Transit;
use vault_model::Undo;
use vault_model::amount_math_lib::{Kind, PutFault, TakeFault, Value};
use vault_model::ertp_mint_lib::Parcel;
use vault_model::holders_lib::payments::Payments;
use vault_model::holders_lib::purses::{OpenFault, Purses};
use vault_model::host_text_lib::keyword::Keyword;
use vault_model::proposals_lib::allocations::Allocation;
use vault_model::proposals_lib::offers::Proposal;
use vault_model::rights_model_lib::{Holder, Movement};

/// What all parties and seats have, between turns. Contracts see its lists: purses, payments, seats with
/// their slots, how many payments are owed to open seats, and what is out of each brand.
#[derive(Drop)]
pub struct Vault {
    stores: Stores,
    steps: Vec<Undo>,
    movements: Vec<Movement>,
}

impl Model for Vault {
    ghost use Rattle.vault_model.specs.Lists.{Lists, coded_lists};
    ghost use Rattle.vault.specs.Memory.{lists_of};
    ghost use Rattle.vault.specs.Drafts.{IsVault};

    ghost Value = { Lists };

    ghost coded = { coded_lists };

    ghost view = { λ a. lists_of a.stores };

    ghost invariant = { λ a. IsVault a.stores a.steps.items a.movements.items };
}

/// A turn's changes of a vault, which are to be committed or undone: it can't be dropped.
pub struct Draft {
    stores: Stores,
    steps: Vec<Undo>,
    movements: Vec<Movement>,
    /// At least as many keys as the hand has of any brand.
    keys: usize,
    is_spoiled: bool,
}

impl Model for Draft {
    ghost use Rattle.vault.specs.Drafts.{DraftState, IsDraft, coded_draft, draft_of};

    ghost Value = { DraftState };

    ghost coded = { coded_draft };

    ghost view = { λ a. draft_of a.stores a.steps.items a.movements.items a.is_spoiled };

    ghost invariant = { λ a. IsDraft a.stores a.steps.items a.movements.items a.keys a.is_spoiled };
}

impl Vault {
    /// A vault in which nothing was made.
    pub fn new(alloc: Global) -> Vault
        ensures { result ≡ no_lists }
    {
        Vault {
            stores: Stores::new(alloc),
            steps: Vec::new(alloc),
            movements: Vec::new(alloc),
        }
    }

    /// Starts a turn, which takes no memory: nothing has moved yet, and nothing was given up.
    pub fn begin(self) -> Draft
        ensures begun { result ≡ begun self }
        ensures clean { IsClean result }
        ensures goes { HandGoes result }
    {
        let Vault {
            stores,
            steps,
            movements,
        } = self;
        Draft {
            stores,
            steps,
            movements,
            keys: 0,
            is_spoiled: false,
        }
    }
}

/// Works a step backwards: the last one. It takes no memory.
fn work_back(stores: &mut Stores, movements: &mut Vec<Movement>, step: Undo)
    requires { (rooms : Rooms) × (kept : Lists) × (steps : List Undo) × IsWorking rooms kept stores.old (step ∷ steps) (reverse movements.old.items) }
    ensures { (rooms : Rooms) (kept : Lists) (steps : List Undo) → IsWorking rooms kept stores.old (step ∷ steps) (reverse movements.old.items)
        → IsWorking rooms kept stores.new steps (reverse movements.new.items) }
{
    match step {
        Undo::Moves => {
            let Some(movement) = movements.pop() else {
                unreachable!();
            };
            let Movement {
                brand,
                from,
                to,
                value,
            } = movement;
            let parcel = stores.ungive(&to, brand, value);
            stores.untake(&from, parcel);
        }
        Undo::OpensPurse => stores.unopen_purse(),
        Undo::AddsBrand => stores.unadd_brand(),
        Undo::OpensSeat => stores.unopen_seat(),
        Undo::OpensSlot(seat) => stores.unopen_slot(seat),
        Undo::ClosesSeat(seat) => stores.reopen_seat(seat),
    }
}

/// Keeps what the movements retired no longer, and forgets them. It takes no memory.
fn forget_all(stores: &mut Stores, movements: &mut Vec<Movement>)
    requires { IsForgetting stores.old stores.old (reverse movements.old.items) }
    ensures stores { IsForgotten stores.old stores.new }
    ensures movements { movements.new.items ≡ [] }
{
    while let Some(movement) = movements.pop() {
        stores.forget(&movement);
    }
}

impl Draft {
    /// Ends the turn and keeps what it did, which takes no memory.
    pub fn commit(self) -> Vault
        requires { IsClean self }
        ensures now { result ≡ self.now }
        ensures table { table_of result ≡ table_now self }
    {
        let Draft {
            mut stores,
            mut steps,
            mut movements,
            keys: _,
            is_spoiled: _,
        } = self;
        steps.clear();
        forget_all(&mut stores, &mut movements);
        stores.end_staging();
        Vault {
            stores,
            steps,
            movements,
        }
    }

    /// Ends the turn as if it had not been, which takes no memory.
    pub fn undo(self) -> Vault
        requires { HandGoes self }
        ensures { result ≡ self.kept }
    {
        let Draft {
            mut stores,
            mut steps,
            mut movements,
            keys: _,
            is_spoiled: _,
        } = self;
        while let Some(step) = steps.pop() {
            work_back(&mut stores, &mut movements, step);
        }
        stores.end_staging();
        Vault {
            stores,
            steps,
            movements,
        }
    }

    /// Whether a parcel was given up.
    pub fn is_spoiled(&self) -> bool
        ensures { result ≡ self.now.is_spoiled }
    {
        self.is_spoiled
    }

    /// The movements so far.
    pub fn movements(&self) -> &[Movement]
        ensures { result.now ≡ self.now.movements }
    {
        let _ = &self.stores;
        &self.movements
    }

    /// The purses, to read.
    pub fn purses(&self) -> &Purses
        ensures { map amount_in result.now ≡ self.now.now.purses }
    {
        let _ = &self.steps;
        &self.stores.purses
    }

    /// The payments, to read.
    pub fn payments(&self) -> &Payments
        ensures views { result.now.views ≡ self.now.now.payments }
        ensures owed { result.now.slots ≡ self.now.now.owed }
    {
        let _ = &self.steps;
        &self.stores.payments
    }

    /// The seats, to read.
    pub fn seats(&self) -> &Seats
        ensures seats { map kept_seat result.now.seats ≡ self.now.now.seats }
        ensures staging { result.now.staging ≡ self.now.staging }
    {
        let _ = &self.steps;
        &self.stores.seats
    }

    /// What is out of each brand, to read.
    pub fn supply(&self) -> &Transit
        ensures supply { map supply_of result.now.out ≡ self.now.now.out }
        ensures store { (b : ℕ) → b < length result.now.out → in_store result.now b ≡ given_at self.now b }
    {
        let _ = &self.steps;
        &self.stores.transit
    }

    /// What holds of each draft, for a caller's proof: it does nothing.
    pub fn valid(&self)
        ensures { IsValid self.now }
    {
        let _ = &self.stores;
    }

    /// Takes a part of a purse or of a slot, or a payment whole, in the hand: `NotEnough` exactly where the purse
    /// or the slot has less.
    /// The holder's brand was made, and its values are of the part's kind. On an error all is as before.
    pub fn take(&mut self, from: &Holder, part: &Value) -> Result<Parcel, TakeFault>
        requires sound { self.old.is_spoiled ≡ false }
        requires source { IsSource self.old.now from.now part.now }
        requires brand { IsOfBrand self.old.now (brand_of self.old.now from.now) part.now }
        ensures ok { OnOk result (self.new ≡ after self.old (movement (brand_of self.old.now from.now) from.now Holder.Hand part.now)) }
        ensures parcel { IfOk result (λ parcel. parcel ≡ amount_of (brand_of self.old.now from.now) part.now) }
        ensures enough { OnOk result (Contains (held_by self.old.now from.now) part.now.content) }
        ensures err { OnErr result (self.new ≡ self.old) }
        ensures refused { IfErr result (IsTakeRefusal (held_by self.old.now from.now) part.now.content) }
    {
        if !self.stores.has(from, part) {
            return Err(TakeFault::NotEnough);
        }
        let Ok(value) = part.copy() else {
            return Err(TakeFault::NoMemory);
        };
        match self.take_value(from, value) {
            Ok(parcel) => Ok(parcel),
            Err(_) => Err(TakeFault::NoMemory),
        }
    }

    /// Takes a value that is there of a purse or of a slot, or a payment whole. On an error all is as before.
    fn take_value(&mut self, from: &Holder, value: Value) -> Result<Parcel, AllocError>
        requires sound { self.old.is_spoiled ≡ false }
        requires source { IsSource self.old.now from.now value }
        requires brand { IsOfBrand self.old.now (brand_of self.old.now from.now) value }
        requires has { Contains (held_by self.old.now from.now) value.content }
        ensures ok { OnOk result (self.new ≡ after self.old (movement (brand_of self.old.now from.now) from.now Holder.Hand value)) }
        ensures parcel { IfOk result (λ parcel. parcel ≡ amount_of (brand_of self.old.now from.now) value) }
        ensures err { OnErr result (self.new ≡ self.old) }
    {
        let brand = self.stores.brand(from);
        let Ok(noted) = note_take(
            &mut self.stores,
            &mut self.steps,
            &mut self.movements,
            self.keys,
            brand,
            from,
            &value,
        ) else {
            return Err(AllocError);
        };
        let Noted { movement, keys } = noted;
        let parcel = self.stores.take_from(from, value);
        self.keys = keys;
        self.movements.push_reserved(movement);
        self.steps.push_reserved(Undo::Moves);
        Ok(parcel)
    }

    /// Puts a parcel of the hand in a purse of its brand and kind, or in a slot of an open seat, where a
    /// further slot is opened if there is none, or makes the next payment of it; or hands it back:
    /// `Overlap` or `TooMuch` exactly where the sum isn't a value. On an error all is as before.
    pub fn put(&mut self, to: &Holder, parcel: Parcel) -> Result<(), (Parcel, PutFault)>
        requires sound { self.old.is_spoiled ≡ false }
        requires target { MayPut self.old.now to.now parcel }
        requires hand { HandKeeps self.old parcel }
        ensures ok { OnOk result (self.new ≡ after (opened self.old (slotted self.old.now to.now parcel)) (movement parcel.brand Holder.Hand to.now parcel.value)) }
        ensures value { OnOk result (TakesIn self.old.now to.now parcel) }
        ensures back { IfErr result (λ (back, _). back ≡ parcel) }
        ensures err { OnErr result (self.new ≡ self.old) }
        ensures refused { IfErr result (λ (_, fault). IsPutFault self.old.now to.now parcel fault) }
    {
        match to {
            Holder::Slot(seat, keyword) => {
                if self.stores.has_slot(*seat, keyword) {
                    self.put_there(to, parcel)
                } else {
                    self.put_further(*seat, keyword, parcel)
                }
            }
            _ => self.put_there(to, parcel),
        }
    }

    /// Puts a parcel of the hand in a holder that is there, or makes the next payment of it.
    fn put_there(&mut self, to: &Holder, parcel: Parcel) -> Result<(), (Parcel, PutFault)>
        requires sound { self.old.is_spoiled ≡ false }
        requires target { IsTarget self.old.now to.now parcel }
        requires hand { HandKeeps self.old parcel }
        ensures ok { OnOk result (self.new ≡ after self.old (movement parcel.brand Holder.Hand to.now parcel.value)) }
        ensures value { OnOk result (TakesIn self.old.now to.now parcel) }
        ensures back { IfErr result (λ (back, _). back ≡ parcel) }
        ensures err { OnErr result (self.new ≡ self.old) }
        ensures refused { IfErr result (λ (_, fault). IsPutFault self.old.now to.now parcel fault) }
    {
        let Ok(movement) = note_put(
            &mut self.steps,
            &mut self.movements,
            parcel.brand(),
            to,
            parcel.value(),
        ) else {
            return Err((parcel, PutFault::NoMemory));
        };
        match self.stores.give_to(to, parcel) {
            Ok(()) => {
                self.movements.push_reserved(movement);
                self.steps.push_reserved(Undo::Moves);
                Ok(())
            }
            Err(fault) => Err(fault),
        }
    }

    /// Puts a parcel of the hand in a further slot of an open seat.
    fn put_further(
        &mut self,
        seat: u32,
        keyword: &Keyword,
        parcel: Parcel,
    ) -> Result<(), (Parcel, PutFault)>
        requires sound { self.old.is_spoiled ≡ false }
        requires target { MayOpenSlot self.old.now seat keyword.now }
        requires hand { HandKeeps self.old parcel }
        ensures ok { OnOk result (self.new ≡ after (opened self.old (with_new_slot self.old.now seat keyword.now parcel.brand parcel.value.kind)) (movement parcel.brand Holder.Hand (Holder.Slot seat keyword.now) parcel.value)) }
        ensures value { OnOk result (TakesIn self.old.now (Holder.Slot seat keyword.now) parcel) }
        ensures back { IfErr result (λ (back, _). back ≡ parcel) }
        ensures err { OnErr result (self.new ≡ self.old) }
        ensures refused { IfErr result (λ (_, fault). IsPutFault self.old.now (Holder.Slot seat keyword.now) parcel fault) }
    {
        let Ok(movement) = note_further(
            &mut self.steps,
            &mut self.movements,
            seat,
            keyword,
            parcel.brand(),
            parcel.value(),
        ) else {
            return Err((parcel, PutFault::NoMemory));
        };
        match self.stores.give_further(seat, keyword, parcel) {
            Ok(()) => {
                self.steps.push_reserved(Undo::OpensSlot(seat));
                self.movements.push_reserved(movement);
                self.steps.push_reserved(Undo::Moves);
                Ok(())
            }
            Err(fault) => Err(fault),
        }
    }

    /// Brings a value of a brand out, as a parcel in the hand, or hands it back: `Overlap` or `TooMuch` exactly
    /// where the brand can't have it out too. On an error all is as before.
    pub fn issue(&mut self, brand: u16, value: Value) -> Result<Parcel, (Value, PutFault)>
        requires sound { self.old.is_spoiled ≡ false }
        requires brand { IsOfBrand self.old.now brand value }
        requires empty { given_at self.old brand ≡ nothing }
        ensures ok { OnOk result (self.new ≡ after self.old (movement brand Holder.Outside Holder.Hand value)) }
        ensures parcel { IfOk result (λ parcel. parcel ≡ amount_of brand value) }
        ensures may { OnOk result (MayIssue (supply_at self.old.now.out brand) value) }
        ensures back { IfErr result (λ (back, _). back ≡ value) }
        ensures err { OnErr result (self.new ≡ self.old) }
        ensures refused { IfErr result (λ (_, fault). IsMintRefusal (supply_at self.old.now.out brand) value fault) }
    {
        let Ok(noted) = note_take(
            &mut self.stores,
            &mut self.steps,
            &mut self.movements,
            self.keys,
            brand,
            &Holder::Outside,
            &value,
        ) else {
            return Err((value, PutFault::NoMemory));
        };
        match self.stores.issue(brand, value) {
            Ok(parcel) => {
                let Noted { movement, keys } = noted;
                self.keys = keys;
                self.movements.push_reserved(movement);
                self.steps.push_reserved(Undo::Moves);
                Ok(parcel)
            }
            Err(fault) => Err(fault),
        }
    }

    /// Ends a parcel of the hand, which is out no longer, or hands it back for want of memory.
    pub fn retire(&mut self, parcel: Parcel) -> Result<(), Parcel>
        requires sound { self.old.is_spoiled ≡ false }
        requires hand { HandKeeps self.old parcel }
        ensures ok { OnOk result (self.new ≡ after self.old (movement parcel.brand Holder.Hand Holder.Outside parcel.value)) }
        ensures back { IfErr result (λ back. back ≡ parcel) }
        ensures err { OnErr result (self.new ≡ self.old) }
    {
        let Ok(movement) = note_put(
            &mut self.steps,
            &mut self.movements,
            parcel.brand(),
            &Holder::Outside,
            parcel.value(),
        ) else {
            return Err(parcel);
        };
        self.stores.retire(parcel);
        self.movements.push_reserved(movement);
        self.steps.push_reserved(Undo::Moves);
        Ok(())
    }

    /// Opens a purse of a brand that was made, with nothing, and answers its number: `Limit` exactly where
    /// 4,294,967,295 were made. On an error all is as before.
    pub fn open_purse(&mut self, brand: u16, kind: Kind) -> Result<u32, OpenFault>
        requires made { brand < length self.old.now.out }
        requires kind { kind_of self.old.now brand ≡ kind }
        ensures ok { OnOk result (self.new ≡ opened self.old (with_new_purse self.old.now brand kind)) }
        ensures number { IfOk result (λ purse. purse ≡ length self.old.now.purses) }
        ensures limit { IfErr result (λ fault. fault ≡ OpenFault.Limit → length self.old.now.purses ≡ most_made) }
        ensures room { IsOk result → length self.old.now.purses < most_made }
        ensures err { OnErr result (self.new ≡ self.old) }
    {
        if self.steps.reserve(1).is_err() {
            return Err(OpenFault::NoMemory);
        }
        match self.stores.purses.open(brand, kind) {
            Ok(number) => {
                self.steps.push_reserved(Undo::OpensPurse);
                Ok(number)
            }
            Err(fault) => Err(fault),
        }
    }

    /// Opens a seat of an instance for a proposal, with a slot for each of its shares and nothing in them, and
    /// answers its number, or hands the proposal back: `Limit` only where there may be no more seats, or not
    /// that many payments (Zoe's escrow seat). On an error all is as before.
    pub fn open_seat(
        &mut self,
        instance: u32,
        proposal: Proposal,
    ) -> Result<u32, (Proposal, SeatFault)>
        requires fits { FitsSeat proposal }
        ensures ok { OnOk result (self.new ≡ opened self.old (with_new_seat self.old.now instance proposal)) }
        ensures number { IfOk result (λ seat. seat ≡ length self.old.now.seats) }
        ensures limit { IfErr result (λ (_, fault). fault ≡ SeatFault.Limit → IsSeatTooMany self.old.now proposal) }
        ensures back { IfErr result (λ (back, _). back ≡ proposal) }
        ensures err { OnErr result (self.new ≡ self.old) }
    {
        if self.steps.reserve(1).is_err() {
            return Err((proposal, SeatFault::NoMemory));
        }
        match self.stores.open_seat(instance, proposal) {
            Ok(seat) => {
                self.steps.push_reserved(Undo::OpensSeat);
                Ok(seat)
            }
            Err(fault) => Err(fault),
        }
    }

    /// Closes an open seat, and answers what its slots have, which is left there to be paid out. Its
    /// payments are owed no more. What is staged of it is let go (own). On an error all is as before.
    pub fn close(&mut self, seat: u32) -> Result<Allocation, AllocError>
        requires made { seat < length self.old.now.seats }
        requires is_open { IsOpenSeat (kept_seat_at self.old.now.seats seat) }
        ensures ok { OnOk result (self.new ≡ with_staging (opened self.old (with_closed_seat self.old.now seat)) (without_staged seat self.old.staging)) }
        ensures last { IfOk result (λ last. last ≡ (kept_seat_at self.old.now.seats seat).slots) }
        ensures err { OnErr result (self.new ≡ self.old) }
    {
        let _made = self.stores.payments.made();
        self.steps.reserve(1)?;
        let last = self.stores.close_seat(seat)?;
        self.steps.push_reserved(Undo::ClosesSeat(seat));
        Ok(last)
    }

    /// Stages what a seat is to have, in place of what was, until the turn ends (own), or hands it back:
    /// exactly where the seat was closed before, or for want of memory.
    pub fn stage(&mut self, seat: u32, shares: Allocation) -> Result<(), (Allocation, StageFault)>
        requires { seat < length self.old.now.seats }
        ensures ok { OnOk result (self.new ≡ with_staging self.old (with_staged seat shares self.old.staging)) }
        ensures exited { IfErr result (λ (_, fault). (fault ≡ StageFault.SeatExited) ↔ IsSome (kept_seat_at self.old.now.seats seat).last) }
        ensures back { IfErr result (λ (back, _). back ≡ shares) }
        ensures err { OnErr result (self.new ≡ self.old) }
    {
        self.stores.seats.stage(seat, shares)
    }

    /// Lets go of what is staged of a seat, or answers the fault exactly where it was closed before.
    pub fn unstage(&mut self, seat: u32) -> Result<(), SeatExited>
        requires { seat < length self.old.now.seats }
        ensures ok { OnOk result (self.new ≡ with_staging self.old (without_staged seat self.old.staging)) }
        ensures looks { OnOk result ((n : ℕ) → staged_at n self.new.staging ≡ (if seat == n then None else staged_at n self.old.staging)) }
        ensures exited { IsErr result ↔ IsSome (kept_seat_at self.old.now.seats seat).last }
        ensures err { OnErr result (self.new ≡ self.old) }
    {
        self.stores.seats.unstage(seat)
    }

    /// Lets go of all that is staged, which takes no memory, and costs what was staged.
    pub fn end_staging(&mut self)
        ensures { self.new ≡ with_staging self.old [] }
    {
        self.stores.seats.end_staging();
    }

    /// Counts what the hand is to have room for anew, where it has nothing. What is taken later then asks for
    /// no more room than what is in the hand with it.
    pub fn count_anew(&mut self)
        requires { IsClean self.old }
        ensures { self.new ≡ self.old }
    {
        let _ = &self.stores;
        self.keys = 0;
    }

    /// Takes in a new brand, with the next number, of which nothing was issued. On an error all is as before.
    pub fn add_brand(&mut self, kind: Kind) -> Result<(), AllocError>
        requires sound { self.old.is_spoiled ≡ false }
        ensures ok { OnOk result (self.new ≡ with_brand self.old kind) }
        ensures err { OnErr result (self.new ≡ self.old) }
    {
        self.steps.reserve(1)?;
        self.stores.transit.add_brand(kind)?;
        self.steps.push_reserved(Undo::AddsBrand);
        Ok(())
    }

    /// Takes a parcel of the hand into the hand's own store, which no number of keys bounds, to be let go from
    /// there. It takes no memory.
    pub fn hold(&mut self, parcel: Parcel)
        requires { HandKeeps self.old parcel }
        ensures { self.new ≡ held_too self.old parcel }
    {
        self.stores.transit.hold(parcel);
    }

    /// Gives a value that the hand's own store has as a parcel of the hand. It takes no memory.
    pub fn let_go(&mut self, brand: u16, value: Value) -> Parcel
        requires { IsStored self.old brand value }
        ensures parcel { result ≡ amount_of brand value }
        ensures less { self.new ≡ let_out self.old brand value }
    {
        self.stores.transit.let_go(brand, value)
    }

    /// Gives a parcel of the hand up, which goes to the hand's own store and takes no memory. The draft is
    /// spoiled: it can only be undone.
    pub fn give_up(&mut self, parcel: Parcel)
        requires { HandKeeps self.old parcel }
        ensures { self.new ≡ given_up_too self.old parcel }
    {
        self.stores.transit.hold(parcel);
        self.is_spoiled = true;
    }
}

/// What a take wants kept: its movement, and how many keys the turn took then.
#[derive(Drop)]
struct Noted {
    movement: Movement,
    keys: usize,
}

/// Takes room for one step more.
fn reserve_step(steps: &mut Vec<Undo>, movements: &mut Vec<Movement>) -> Result<(), AllocError>
    ensures steps { steps.new.items ≡ steps.old.items }
    ensures movements { movements.new.items ≡ movements.old.items }
    ensures step_room { OnOk result (vec_len steps.new < vec_capacity steps.new) }
    ensures movement_room { OnOk result (vec_len movements.new < vec_capacity movements.new) }
{
    steps.reserve(1)?;
    movements.reserve(1)?;
    Ok(())
}

/// Takes the room that a take wants: for its step, and in the hand's store for all keys that the turn took,
/// with this value's. On an error room alone was made.
fn room_for_take(
    stores: &mut Stores,
    steps: &mut Vec<Undo>,
    movements: &mut Vec<Movement>,
    brand: u16,
    keys: usize,
) -> Result<(), AllocError>
    requires made { brand < length (lists_of stores.old).out }
    ensures roomed { IsRoomed stores.old stores.new }
    ensures steps { steps.new.items ≡ steps.old.items }
    ensures movements { movements.new.items ≡ movements.old.items }
    ensures step_room { OnOk result (vec_len steps.new < vec_capacity steps.new) }
    ensures movement_room { OnOk result (vec_len movements.new < vec_capacity movements.new) }
    ensures hand_room { OnOk result (HasRoom (kind_of (lists_of stores.old) brand) (keys_of (store_of stores.old brand) + keys) ((rooms_of stores.new).hand brand)) }
{
    stores.transit.make_room(brand, keys)?;
    reserve_step(steps, movements)
}

/// Makes ready for a take of a value: takes its room, and notes it. On an error room alone was made.
fn note_take(
    stores: &mut Stores,
    steps: &mut Vec<Undo>,
    movements: &mut Vec<Movement>,
    keys: usize,
    brand: u16,
    from: &Holder,
    value: &Value,
) -> Result<Noted, AllocError>
    requires made { brand < length (lists_of stores.old).out }
    ensures roomed { IsRoomed stores.old stores.new }
    ensures steps { steps.new.items ≡ steps.old.items }
    ensures movements { movements.new.items ≡ movements.old.items }
    ensures step_room { OnOk result (vec_len steps.new < vec_capacity steps.new) }
    ensures movement_room { OnOk result (vec_len movements.new < vec_capacity movements.new) }
    ensures movement { IfOk result (λ noted. noted.movement ≡ movement brand from.now Holder.Hand value.now) }
    ensures keys { IfOk result (λ noted. noted.keys ≡ keys + keys_in value.now.kind value.now.content) }
    ensures hand_room { IfOk result (λ noted. HasRoom (kind_of (lists_of stores.old) brand) (keys_of (store_of stores.old brand) + noted.keys) ((rooms_of stores.new).hand brand)) }
{
    let Some(keys) = keys.checked_add(value.keys()) else {
        return Err(AllocError);
    };
    room_for_take(stores, steps, movements, brand, keys)?;
    let alloc = *movements.allocator();
    let movement = movement_of(alloc, brand, from, &Holder::Hand, value)?;
    Ok(Noted { movement, keys })
}

/// Makes ready for a put of a value.
fn note_put(
    steps: &mut Vec<Undo>,
    movements: &mut Vec<Movement>,
    brand: u16,
    to: &Holder,
    value: &Value,
) -> Result<Movement, AllocError>
    ensures steps { steps.new.items ≡ steps.old.items }
    ensures movements { movements.new.items ≡ movements.old.items }
    ensures step_room { OnOk result (vec_len steps.new < vec_capacity steps.new) }
    ensures movement_room { OnOk result (vec_len movements.new < vec_capacity movements.new) }
    ensures movement { IfOk result (λ noted. noted ≡ movement brand Holder.Hand to.now value.now) }
{
    reserve_step(steps, movements)?;
    let alloc = *movements.allocator();
    movement_of(alloc, brand, &Holder::Hand, to, value)
}

/// Makes ready for a put of a value in a further slot.
fn note_further(
    steps: &mut Vec<Undo>,
    movements: &mut Vec<Movement>,
    seat: u32,
    keyword: &Keyword,
    brand: u16,
    value: &Value,
) -> Result<Movement, AllocError>
    ensures steps { steps.new.items ≡ steps.old.items }
    ensures movements { movements.new.items ≡ movements.old.items }
    ensures step_room { OnOk result (vec_len steps.new + 2 ≤ vec_capacity steps.new) }
    ensures movement_room { OnOk result (vec_len movements.new < vec_capacity movements.new) }
    ensures movement { IfOk result (λ noted. noted ≡ movement brand Holder.Hand (Holder.Slot seat keyword.now) value.now) }
{
    steps.reserve(2)?;
    movements.reserve(1)?;
    let alloc = *movements.allocator();
    let keyword = keyword.copy(alloc)?;
    let value = value.copy()?;
    Ok(Movement {
        brand,
        from: Holder::Hand,
        to: Holder::Slot(seat, keyword),
        value,
    })
}

/// A movement of a value.
fn movement_of(
    alloc: Global,
    brand: u16,
    from: &Holder,
    to: &Holder,
    value: &Value,
) -> Result<Movement, AllocError>
    ensures { IfOk result (λ made. made ≡ movement brand from.now to.now value.now) }
{
    let from = from.copy(alloc)?;
    let to = to.copy(alloc)?;
    let value = value.copy()?;
    Ok(Movement {
        brand,
        from,
        to,
        value,
    })
}
