//! Purses by number, each of one brand (ERTP). An opened purse stays for good, once its turn is kept.
//! Its one contract: each call answers what stands in the old list of purses and gives the whole new
//! one; and each call that changes it has one that works it backwards, which takes no memory and leaves
//! the list as it was before.

ghost use Rattle.std.specs.Prelude.{◌≡◌, ◌<◌, ◌≤◌, ◌↔◌, ◌-◌, ◌++◌, ◌∷◌, [], length, take, IfOk, IfErr, IsOk, OnOk, OnErr};
ghost use Rattle.ertp_mint.specs.amount_math.Amount.{Meet};
ghost use Rattle.ertp_mint.specs.amount_math.Content.{Contains, nothing};
ghost use Rattle.ertp_mint.specs.amount_math.Shortfalls.{IsLossFault};
ghost use Rattle.ertp_mint.specs.amount_math.ValueView.{IsValue};
ghost use Rattle.ertp_mint.specs.Balances.{ComesOut, GoesIn, HasRoomFor, HasSpare, empty_store, held_in};
ghost use Rattle.ertp_mint.specs.Stocks.{most_made};
ghost use Rattle.holders.specs.Purses.{IsPutFault, TakesIn, content_at, kind_at, put_at, put_in_room, room_at, store_at, taken_at, with_room_at};

use ertp_mint::amount_math_lib::shortfall::{LossFault, show_shortfall};
use ertp_mint::amount_math_lib::{Holding, Kind, PutFault, Value};
use ertp_mint::{Balance, Parcel};
use std::alloc::{AllocError, Global};
use std::marker::Model;

/// Why no purse is opened.
#[derive(Clone, Copy, PartialEq, Eq)]
pub enum OpenFault {
    /// 4,294,967,295 purses were made.
    Limit,
    NoMemory,
}

/// All purses. Contracts see the store of each, by number: its amount, and its room for keys.
#[derive(Drop)]
pub struct Purses {
    balances: Vec<Balance>,
}

impl Model for Purses {
    ghost use Rattle.std.specs.Prelude.{List, length, ◌≤◌};
    ghost use Rattle.std.specs.Coded.{coded_list};
    ghost use Rattle.ertp_mint.specs.Balances.{BalanceView, coded_balance_view};
    ghost use Rattle.ertp_mint.specs.Stocks.{most_made};

    ghost Value = { List BalanceView };

    ghost coded = { coded_list coded_balance_view };

    ghost view = { λ a. a.balances.items };

    ghost invariant = { λ a. length a.balances.items ≤ most_made };
}

impl Purses {
    /// No purses.
    pub fn new(alloc: Global) -> Purses
        ensures { result ≡ [] }
    {
        let balances = Vec::new(alloc);
        Purses { balances }
    }

    /// How many purses were made: the number that the next one gets.
    pub fn made(&self) -> u32
        ensures made { result ≡ length self.now }
        ensures most { length self.now ≤ most_made }
    {
        self.balances.len() as u32
    }

    /// Opens an empty purse of the brand, whose values are of the kind, and answers its number.
    pub fn open(&mut self, brand: u16, kind: Kind) -> Result<u32, OpenFault>
        ensures ok { OnOk result (self.new ≡ self.old ++ empty_store brand kind ∷ []) }
        ensures number { IfOk result (λ purse. purse ≡ length self.old) }
        ensures room { IsOk result → length self.old < most_made }
        ensures limit { IfErr result (λ fault. (fault ≡ OpenFault.Limit) ↔ (length self.old ≡ most_made)) }
        ensures err { OnErr result (self.new ≡ self.old) }
    {
        let number = self.made();
        if number == u32::MAX {
            return Err(OpenFault::Limit);
        }
        if self.balances.reserve(1).is_err() {
            return Err(OpenFault::NoMemory);
        }
        let alloc = *self.balances.allocator();
        self.balances
            .push_reserved(Balance::empty(alloc, brand, kind));
        Ok(number)
    }

    /// Takes the purse that was opened last back, which has nothing.
    pub fn undo_open(&mut self)
        requires made { 0 < length self.old }
        requires empty { content_at self.old (length self.old - 1) ≡ nothing }
        ensures { self.new ≡ take (length self.old - 1) self.old }
    {
        let _last = self.balances.pop();
    }

    /// The brand of a purse.
    pub fn brand(&self, purse: u32) -> u16
        requires { purse < length self.now }
        ensures { result ≡ (store_at self.now purse).amount.brand }
    {
        self.balances[purse as usize].brand()
    }

    /// What a purse has, to read.
    pub fn amount(&self, purse: u32) -> &Holding
        requires { purse < length self.now }
        ensures amount { result.now ≡ held_in (store_at self.now purse) }
        ensures value { IsValue (kind_at self.now purse) (content_at self.now purse) }
    {
        self.balances[purse as usize].holding()
    }

    /// That a purse's sum with a value would be one, or why it wouldn't, as `put` says it. Nothing changes.
    /// To show a common key takes memory, and nothing else does.
    pub fn can_put(&self, purse: u32, value: &Value) -> Result<(), PutFault>
        requires made { purse < length self.now }
        requires kind { kind_at self.now purse ≡ value.now.kind }
        ensures ok { IsOk result → TakesIn self.now purse value.now.content }
        ensures sure { TakesIn self.now purse value.now.content → IsOk result }
        ensures refused { IfErr result (IsPutFault self.now purse value.now.content) }
    {
        self.balances[purse as usize].can_put(value)
    }

    /// Takes room for so many keys more in a purse, where there isn't.
    pub fn reserve(&mut self, purse: u32, keys: usize) -> Result<(), AllocError>
        requires { purse < length self.old }
        ensures same { self.new ≡ with_room_at self.old purse (room_at self.new purse) }
        ensures ok { OnOk result (HasSpare (store_at self.new purse) keys) }
        ensures room { room_at self.old purse ≤ room_at self.new purse }
        ensures there { HasSpare (store_at self.old purse) keys → IsOk result }
        ensures err { OnErr result (self.new ≡ self.old) }
    {
        self.balances[purse as usize].reserve(keys)
    }

    /// Takes room for the value's keys that a purse hasn't yet, where there isn't.
    pub fn make_room_for(&mut self, purse: u32, value: &Value) -> Result<(), AllocError>
        requires made { purse < length self.old }
        requires kind { kind_at self.old purse ≡ value.now.kind }
        ensures same { self.new ≡ with_room_at self.old purse (room_at self.new purse) }
        ensures ok { OnOk result (HasRoomFor (store_at self.new purse) value.now.content) }
        ensures room { room_at self.old purse ≤ room_at self.new purse }
        ensures there { HasRoomFor (store_at self.old purse) value.now.content → IsOk result }
        ensures err { OnErr result (self.new ≡ self.old) }
    {
        self.balances[purse as usize].make_room_for(value)
    }

    /// Puts a parcel in a purse, in which it goes within the room. It takes no memory.
    pub fn put_within(&mut self, purse: u32, parcel: Parcel)
        requires made { purse < length self.old }
        requires goes { GoesIn (store_at self.old purse) parcel }
        ensures put { self.new ≡ put_at self.old purse parcel.value.content }
        ensures out { ComesOut (store_at self.new purse) parcel.value }
        ensures undone { taken_at self.new purse parcel.value.content ≡ self.old }
    {
        self.balances[purse as usize].put_within(parcel);
    }

    /// Puts a parcel of the purse's brand and kind in it, or hands the parcel back. Keys that there is no
    /// room for take memory.
    pub fn put(&mut self, purse: u32, parcel: Parcel) -> Result<(), (Parcel, PutFault)>
        requires made { purse < length self.old }
        requires meet { Meet (store_at self.old purse).amount parcel }
        ensures ok { OnOk result (self.new ≡ put_in_room self.old purse parcel.value.content (room_at self.new purse)) }
        ensures value { OnOk result (TakesIn self.old purse parcel.value.content) }
        ensures room { room_at self.old purse ≤ room_at self.new purse }
        ensures there { TakesIn self.old purse parcel.value.content → HasRoomFor (store_at self.old purse) parcel.value.content → IsOk result }
        ensures out { OnOk result (ComesOut (store_at self.new purse) parcel.value) }
        ensures undone { OnOk result (taken_at self.new purse parcel.value.content ≡ with_room_at self.old purse (room_at self.new purse)) }
        ensures back { IfErr result (λ (back, _). back ≡ parcel) }
        ensures err { OnErr result (self.new ≡ self.old) }
        ensures refused { IfErr result (λ (_, fault). IsPutFault self.old purse parcel.value.content fault) }
    {
        self.balances[purse as usize].put(parcel)
    }

    /// Takes a value out of a purse that has it. It takes no memory: the value becomes the parcel.
    pub fn take_value(&mut self, purse: u32, value: Value) -> Parcel
        requires made { purse < length self.old }
        requires there { ComesOut (store_at self.old purse) value }
        ensures parcel { result ≡ record { brand = (store_at self.old purse).amount.brand; value = value } }
        ensures taken { self.new ≡ taken_at self.old purse value.content }
        ensures back { GoesIn (store_at self.new purse) result }
        ensures undone { put_at self.new purse value.content ≡ self.old }
    {
        self.balances[purse as usize].take_value(value)
    }

    /// Takes a part of a purse out of it, or leaves it as it was. A part with keys takes memory.
    pub fn take(&mut self, purse: u32, part: &Value) -> Result<Parcel, LossFault>
        requires made { purse < length self.old }
        requires kind { kind_at self.old purse ≡ part.now.kind }
        ensures ok { OnOk result (self.new ≡ taken_at self.old purse part.now.content) }
        ensures part { IfOk result (λ parcel. parcel ≡ record { brand = (store_at self.old purse).amount.brand; value = part.now }) }
        ensures enough { OnOk result (Contains (content_at self.old purse) part.now.content) }
        ensures back { IfOk result (GoesIn (store_at self.new purse)) }
        ensures undone { OnOk result (put_at self.new purse part.now.content ≡ self.old) }
        ensures err { OnErr result (self.new ≡ self.old) }
        ensures refused { IfErr result (IsLossFault (store_at self.old purse).amount.value part.now) }
    {
        if !self.amount(purse).is_gte(part) {
            return Err(show_shortfall(self.amount(purse), part));
        }
        let Ok(value) = part.copy() else {
            return Err(LossFault::NoMemory);
        };
        Ok(self.take_value(purse, value))
    }

    /// Works a put backwards, which takes no memory: the value, which is that of the parcel, becomes it.
    pub fn undo_put(&mut self, purse: u32, value: Value) -> Parcel
        requires made { purse < length self.old }
        requires there { ComesOut (store_at self.old purse) value }
        ensures parcel { result ≡ record { brand = (store_at self.old purse).amount.brand; value = value } }
        ensures taken { self.new ≡ taken_at self.old purse value.content }
    {
        self.balances[purse as usize].undo_put(value)
    }

    /// Works a take backwards, which takes no memory: the parcel goes in again.
    pub fn undo_take(&mut self, purse: u32, parcel: Parcel)
        requires made { purse < length self.old }
        requires goes { GoesIn (store_at self.old purse) parcel }
        ensures { self.new ≡ put_at self.old purse parcel.value.content }
    {
        self.balances[purse as usize].undo_take(parcel);
    }
}
