//! The store of one holder, which is changed in place.

ghost use Rattle.std.specs.Prelude.{◌≡◌, ◌≤◌, IfOk, IfErr, IsOk, OnOk, OnErr};
ghost use Rattle.amount_math.specs.Amount.{Meet, holding};
ghost use Rattle.amount_math.specs.Content.{Contains, sum};
ghost use Rattle.amount_math.specs.ValueView.{IsPutRefusal, IsTakeRefusal, IsValue};
ghost use Rattle.ertp_mint.specs.Balances.{ComesOut, GoesIn, HasRoomFor, HasSpare, empty_store, held_in, with_put, with_taken};

use crate::Parcel;
use amount_math::{Holding, Kind, PutFault, TakeFault, Value};
use std::alloc::{AllocError, Global};
use std::marker::Model;

/// What one holder has of a brand, in a place of its own. Contracts see its amount, and for how many keys
/// there is room: a call within the room takes no memory, and no call lessens the room, so that a put
/// takes from what is spare just the keys that it adds. It may be dropped, when a run ends.
pub struct Balance {
    brand: u16,
    held: Holding,
}

impl Drop for Balance {
    fn drop(self) {
        let Balance { brand: _, held: _ } = self;
    }
}

impl Model for Balance {
    ghost use Rattle.amount_math.specs.ValueView.{IsValue};
    ghost use Rattle.ertp_mint.specs.Balances.{BalanceView, coded_balance_view};

    ghost Value = { BalanceView };

    ghost coded = { coded_balance_view };

    ghost view = { λ a. record { amount = record { brand = a.brand; value = a.held.value }; room = a.held.room } };

    ghost invariant = { λ a. IsValue a.held.value.kind a.held.value.content };
}

impl Balance {
    /// The store of a holder that has nothing of the brand, which takes no memory yet.
    pub fn empty(alloc: Global, brand: u16, kind: Kind) -> Balance
        ensures { result ≡ empty_store brand kind }
    {
        let held = Holding::empty(alloc, kind);
        Balance { brand, held }
    }

    /// The store of a holder that has a parcel, in the parcel's own place. It takes no memory.
    pub fn of(alloc: Global, parcel: Parcel) -> Balance
        ensures { result.amount ≡ parcel }
    {
        let (brand, value) = parcel.into_parts();
        let _kind = value.kind();
        let held = Holding::of(alloc, value);
        Balance { brand, held }
    }

    /// The parcel of all that it has, in its own place, which ends the store. It takes no memory.
    pub fn into_parcel(self) -> Parcel
        ensures { result ≡ self.amount }
    {
        let Balance { brand, held } = self;
        Parcel::issued(brand, held.into_value())
    }

    /// The number of its brand.
    pub fn brand(&self) -> u16
        ensures { result ≡ self.now.amount.brand }
    {
        self.brand
    }

    /// What is held, to read.
    pub fn holding(&self) -> &Holding
        ensures holding { result.now ≡ held_in self.now }
        ensures value { IsValue self.now.amount.value.kind self.now.amount.value.content }
    {
        &self.held
    }

    /// That the sum with a value would be one, or why it wouldn't, as `put` says it. Nothing changes. To
    /// show a common key takes memory, and nothing else does.
    pub fn can_put(&self, value: &Value) -> Result<(), PutFault>
        requires { self.now.amount.value.kind ≡ value.now.kind }
        ensures ok { IsOk result → IsValue self.now.amount.value.kind (sum self.now.amount.value.content value.now.content) }
        ensures sure { IsValue self.now.amount.value.kind (sum self.now.amount.value.content value.now.content) → IsOk result }
        ensures refused { IfErr result (IsPutRefusal self.now.amount.value.kind (sum self.now.amount.value.content value.now.content)) }
    {
        let _kind = value.kind();
        self.held.can_absorb(value)
    }

    /// Takes room for so many keys more, where there isn't.
    pub fn reserve(&mut self, keys: usize) -> Result<(), AllocError>
        ensures same { self.new.amount ≡ self.old.amount }
        ensures ok { OnOk result (HasSpare self.new keys) }
        ensures room { self.old.room ≤ self.new.room }
        ensures there { HasSpare self.old keys → IsOk result }
        ensures err { OnErr result (self.new ≡ self.old) }
    {
        self.held.reserve(keys)
    }

    /// Takes room for the value's keys that aren't there yet, where there isn't.
    pub fn make_room_for(&mut self, value: &Value) -> Result<(), AllocError>
        requires { self.old.amount.value.kind ≡ value.now.kind }
        ensures same { self.new.amount ≡ self.old.amount }
        ensures ok { OnOk result (HasRoomFor self.new value.now.content) }
        ensures room { self.old.room ≤ self.new.room }
        ensures there { HasRoomFor self.old value.now.content → IsOk result }
        ensures err { OnErr result (self.new ≡ self.old) }
    {
        self.held.make_room_for(value)
    }

    /// Puts a parcel in that goes in within the room, which takes no memory.
    pub fn put_within(&mut self, parcel: Parcel)
        requires { GoesIn self.old parcel }
        ensures put { self.new ≡ with_put self.old parcel.value.content }
        ensures out { ComesOut self.new parcel.value }
        ensures undone { with_taken self.new parcel.value.content ≡ self.old }
    {
        let (_, value) = parcel.into_parts();
        self.held.put_back(value);
    }

    /// Puts a parcel in, or hands it back. Keys that there is no room for take memory.
    pub fn put(&mut self, parcel: Parcel) -> Result<(), (Parcel, PutFault)>
        requires { Meet self.old.amount parcel }
        ensures ok { OnOk result (self.new.amount ≡ holding self.old.amount (sum self.old.amount.value.content parcel.value.content)) }
        ensures value { OnOk result (IsValue self.old.amount.value.kind (sum self.old.amount.value.content parcel.value.content)) }
        ensures room { self.old.room ≤ self.new.room }
        ensures there { IsValue self.old.amount.value.kind (sum self.old.amount.value.content parcel.value.content) → HasRoomFor self.old parcel.value.content → IsOk result }
        ensures out { OnOk result (ComesOut self.new parcel.value) }
        ensures undone { OnOk result ((with_taken self.new parcel.value.content).amount ≡ self.old.amount) }
        ensures back { IfErr result (λ (back, _). back ≡ parcel) }
        ensures err { OnErr result (self.new ≡ self.old) }
        ensures refused { IfErr result (λ (_, fault). IsPutRefusal self.old.amount.value.kind (sum self.old.amount.value.content parcel.value.content) fault) }
    {
        if let Err(fault) = self.can_put(parcel.value()) {
            return Err((parcel, fault));
        }
        let Ok(()) = self.make_room_for(parcel.value()) else {
            return Err((parcel, PutFault::NoMemory));
        };
        self.put_within(parcel);
        Ok(())
    }

    /// Takes a value out that is there. It takes no memory: the value that says how much becomes the
    /// parcel, and its room stays.
    pub fn take_value(&mut self, value: Value) -> Parcel
        requires { ComesOut self.old value }
        ensures parcel { result ≡ record { brand = self.old.amount.brand; value = value } }
        ensures taken { self.new ≡ with_taken self.old value.content }
        ensures back { GoesIn self.new result }
        ensures undone { with_put self.new value.content ≡ self.old }
    {
        self.held.take_out(&value);
        Parcel::issued(self.brand, value)
    }

    /// Takes a part out, or leaves all in. A part with keys takes memory.
    pub fn take(&mut self, part: &Value) -> Result<Parcel, TakeFault>
        requires { self.old.amount.value.kind ≡ part.now.kind }
        ensures ok { OnOk result (self.new ≡ with_taken self.old part.now.content) }
        ensures part { IfOk result (λ parcel. parcel ≡ record { brand = self.old.amount.brand; value = part.now }) }
        ensures enough { OnOk result (Contains self.old.amount.value.content part.now.content) }
        ensures back { IfOk result (GoesIn self.new) }
        ensures undone { OnOk result (with_put self.new part.now.content ≡ self.old) }
        ensures err { OnErr result (self.new ≡ self.old) }
        ensures refused { IfErr result (IsTakeRefusal self.old.amount.value.content part.now.content) }
    {
        if !self.held.is_gte(part) {
            return Err(TakeFault::NotEnough);
        }
        let Ok(value) = part.copy() else {
            return Err(TakeFault::NoMemory);
        };
        Ok(self.take_value(value))
    }

    /// Works a put backwards, which takes no memory: the value, which is that of the parcel, becomes it.
    pub fn undo_put(&mut self, value: Value) -> Parcel
        requires { ComesOut self.old value }
        ensures parcel { result ≡ record { brand = self.old.amount.brand; value = value } }
        ensures taken { self.new ≡ with_taken self.old value.content }
    {
        self.take_value(value)
    }

    /// Works a take backwards, which takes no memory: the parcel goes in again.
    pub fn undo_take(&mut self, parcel: Parcel)
        requires { GoesIn self.old parcel }
        ensures { self.new ≡ with_put self.old parcel.value.content }
    {
        self.put_within(parcel);
    }
}
