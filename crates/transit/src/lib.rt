//! Rights on their way in a turn: what is out of each brand, and the hand's own store; within the
//! room that was taken before, nothing that undoing needs takes memory.
#![tactic(auto)]

/// What `ertp_mint` gives to those above.
pub mod ertp_mint_lib {
    pub use ertp_mint::{Balance, Circulations, Parcel};
}

ghost use Rattle.std.specs.Prelude.{◌≡◌, ◌<◌, ◌≤◌, ◌+◌, ◌-◌, ◌++◌, ◌∷◌, [], length, take, IfErr, IfOk, IsOk, OnErr, OnOk};
ghost use Rattle.ertp_mint.specs.amount_math.Content.{Contains, count, nothing};
ghost use Rattle.ertp_mint.specs.amount_math.Counted.{counted};
ghost use Rattle.ertp_mint.specs.amount_math.Held.{HasRoom, with_less, with_more};
ghost use Rattle.ertp_mint.specs.amount_math.ValueView.{Fits, keys_of, minted_bound};
ghost use Rattle.ertp_mint.specs.BrandSupply.{AddsUp, IsMintRefusal, MayIssue};
ghost use Rattle.ertp_mint.specs.Circulating.{CanReturn, circulation_at, new_circulation, with_forgotten, with_issued, with_retired, with_unissued, with_unretired};
ghost use Rattle.transit.specs.Transit.{CanHold, IsInStore, IsOnItsWay, empty_hand, held_at, in_store, kind_in, supply_in, with_hand, with_out};

use ertp_mint::amount_math_lib::{Holding, Kind, PutFault, Value};
use ertp_mint::{Circulations, Parcel};
use std::alloc::{AllocError, Global};
use std::marker::Model;

/// What is out of each brand, and the hand's own store of it. Contracts see both by brand: what was retired
/// and is kept, and for how many keys there is room in the hand's store.
#[derive(Drop)]
pub struct Transit {
    out: Circulations,
    hand: Vec<Holding>,
}

impl Model for Transit {
    ghost use Rattle.transit.specs.Transit.{AreKept, TransitView, coded_transit, wholes};

    ghost Value = { TransitView };

    ghost coded = { coded_transit };

    ghost view = { λ a. record { out = wholes a.out a.hand.items; hand = a.hand.items } };

    ghost invariant = { λ a. AreKept a.out a.hand.items };
}

impl Transit {
    /// Nothing is out of any brand, and the hand has nothing.
    pub fn new(alloc: Global) -> Transit
        ensures { result ≡ record { out = []; hand = [] } }
    {
        Transit {
            out: Circulations::new(alloc),
            hand: Vec::new(alloc),
        }
    }

    /// Takes in a new brand, with the next number, of which nothing was issued.
    pub fn add_brand(&mut self, kind: Kind) -> Result<(), AllocError>
        ensures ok { OnOk result (self.new ≡ record { out = self.old.out ++ new_circulation kind ∷ []; hand = self.old.hand ++ empty_hand kind ∷ [] }) }
        ensures same { length self.old.hand ≡ length self.old.out }
        ensures err { OnErr result (self.new ≡ self.old) }
    {
        let alloc = *self.hand.allocator();
        self.hand.reserve(1)?;
        self.out.add_brand(kind)?;
        self.hand.push_reserved(Holding::empty(alloc, kind));
        Ok(())
    }

    /// Takes the last brand back, of which nothing was issued.
    pub fn undo_add_brand(&mut self)
        requires made { 0 < length self.old.out }
        requires fresh { (supply_in self.old (length self.old.out - 1)).minted ≡ 0 }
        ensures out { self.new.out ≡ take (length self.old.out - 1) self.old.out }
        ensures hand { self.new.hand ≡ take (length self.old.out - 1) self.old.hand }
        ensures same { length self.new.hand ≡ length self.new.out }
    {
        self.out.undo_add_brand();
        self.hand.truncate(self.hand.len() - 1);
    }

    /// The counts of all that was ever issued of a brand, together.
    pub fn minted(&self, brand: u16) -> u128
        requires { brand < length self.now.out }
        ensures minted { result ≡ (supply_in self.now brand).minted }
        ensures bounded { result ≤ minted_bound }
    {
        let _ = &self.hand;
        self.out.minted(brand)
    }

    /// The counts of all that was ever retired of a brand, together.
    pub fn burned(&self, brand: u16) -> u128
        requires { brand < length self.now.out }
        ensures { result ≡ (supply_in self.now brand).burned }
    {
        self.out.burned(brand) - self.hand[brand as usize].total()
    }

    /// The counts of all that is out of a brand, together: minted less burned.
    pub fn total(&self, brand: u16) -> u128
        requires { brand < length self.now.out }
        ensures { result ≡ counted (supply_in self.now brand).outstanding.content }
    {
        let _kind = self.kind(brand);
        self.minted(brand) - self.burned(brand)
    }

    /// The kind of a brand's values, and that no count of what is out passes its bound.
    pub fn kind(&self, brand: u16) -> Kind
        requires { brand < length self.now.out }
        ensures kind { result ≡ kind_in self.now brand }
        ensures fits { Fits (kind_in self.now brand) (supply_in self.now brand).outstanding.content }
        ensures adds_up { AddsUp (supply_in self.now brand) }
    {
        let _ = &self.hand;
        self.out.kind(brand)
    }

    /// How many of a key are out of a brand of which the hand's store has nothing, or how many units, which are
    /// those of the empty key.
    pub fn count_out(&self, brand: u16, key: &str) -> u128
        requires made { brand < length self.now.out }
        requires empty { in_store self.now brand ≡ nothing }
        ensures { result ≡ count (supply_in self.now brand).outstanding.content key.now }
    {
        let _ = &self.hand;
        self.out.count_out(brand, key)
    }

    /// That a value may come out too of a brand of which the hand's store has nothing, or why it mayn't, as
    /// `issue` says it. Nothing changes. To show a key that is out already takes memory, and nothing else
    /// does.
    pub fn can_issue(&self, brand: u16, value: &Value) -> Result<(), PutFault>
        requires made { brand < length self.now.out }
        requires kind { kind_in self.now brand ≡ value.now.kind }
        requires empty { in_store self.now brand ≡ nothing }
        ensures ok { IsOk result → MayIssue (supply_in self.now brand) value.now }
        ensures sure { MayIssue (supply_in self.now brand) value.now → IsOk result }
        ensures refused { IfErr result (IsMintRefusal (supply_in self.now brand) value.now) }
    {
        let _ = &self.hand;
        self.out.can_issue(brand, value)
    }

    /// Takes room in the hand's store for so many keys more of a brand.
    pub fn make_room(&mut self, brand: u16, keys: usize) -> Result<(), AllocError>
        requires { brand < length self.old.out }
        ensures same { self.new ≡ with_hand self.old brand (record { value = (held_at self.old.hand brand).value; room = (held_at self.new.hand brand).room }) }
        ensures room { (held_at self.old.hand brand).room ≤ (held_at self.new.hand brand).room }
        ensures ok { OnOk result (HasRoom (kind_in self.old brand) (keys_of (in_store self.old brand) + keys) (held_at self.new.hand brand).room) }
        ensures err { OnErr result (self.new ≡ self.old) }
    {
        let _ = &self.out;
        self.hand[brand as usize].reserve(keys)
    }

    /// Brings a value out as a parcel, or hands it back, of a brand of which the hand's store has nothing.
    pub fn issue(&mut self, brand: u16, value: Value) -> Result<Parcel, (Value, PutFault)>
        requires made { brand < length self.old.out }
        requires kind { kind_in self.old brand ≡ value.kind }
        requires empty { in_store self.old brand ≡ nothing }
        ensures ok { OnOk result (self.new ≡ with_out self.old brand (with_issued (circulation_at self.old.out brand) value.content)) }
        ensures parcel { IfOk result (λ parcel. parcel ≡ record { brand = brand; value = value }) }
        ensures may { OnOk result (MayIssue (supply_in self.old brand) value) }
        ensures back { IfErr result (λ (back, _). back ≡ value) }
        ensures err { OnErr result (self.new ≡ self.old) }
        ensures refused { IfErr result (λ (_, fault). IsMintRefusal (supply_in self.old brand) value fault) }
    {
        let _ = &self.hand;
        match self.out.issue(brand, value) {
            Ok(parcel) => return Ok(parcel),
            Err(fault) => return Err(fault),
        }
    }

    /// Works an issue backwards, which takes no memory and ends its parcel.
    pub fn undo_issue(&mut self, parcel: Parcel)
        requires { IsOnItsWay self.old parcel }
        ensures { self.new ≡ with_out self.old parcel.brand (with_unissued (circulation_at self.old.out parcel.brand) parcel.value.content) }
    {
        let _ = &self.hand;
        self.out.undo_issue(parcel);
    }

    /// Ends a parcel that is on its way, which takes no memory, and gives its value back, for working it
    /// backwards.
    pub fn retire(&mut self, parcel: Parcel) -> Value
        requires { IsOnItsWay self.old parcel }
        ensures value { result ≡ parcel.value }
        ensures retired { self.new ≡ with_out self.old parcel.brand (with_retired (circulation_at self.old.out parcel.brand) parcel.value.content) }
        ensures back { CanReturn (circulation_at self.new.out parcel.brand) parcel.value }
    {
        let _ = &self.hand;
        self.out.retire(parcel)
    }

    /// Works a retirement backwards, which takes no memory.
    pub fn undo_retire(&mut self, brand: u16, value: Value) -> Parcel
        requires made { brand < length self.old.out }
        requires back { CanReturn (circulation_at self.old.out brand) value }
        ensures parcel { result ≡ record { brand = brand; value = value } }
        ensures unretired { self.new ≡ with_out self.old brand (with_unretired (circulation_at self.old.out brand) value.content) }
    {
        let _ = &self.hand;
        let _kind = self.out.kind(brand);
        self.out.undo_retire(brand, value)
    }

    /// Keeps a retired value no longer, which takes no memory.
    pub fn forget(&mut self, brand: u16, value: &Value)
        requires made { brand < length self.old.out }
        requires kept { Contains (circulation_at self.old.out brand).kept value.now.content }
        ensures { self.new ≡ with_out self.old brand (with_forgotten (circulation_at self.old.out brand) value.now.content) }
    {
        let _ = &self.hand;
        self.out.forget(brand, value);
    }

    /// Takes a parcel that is on its way into the hand's store, within its room, which takes no memory.
    pub fn hold(&mut self, parcel: Parcel)
        requires { CanHold self.old parcel }
        ensures held { self.new ≡ with_hand self.old parcel.brand (with_more (held_at self.old.hand parcel.brand) parcel.value.content) }
        ensures made { parcel.brand < length self.old.hand }
    {
        let brand = parcel.brand();
        let value = self.out.retire(parcel);
        self.hand[brand as usize].put_back(value);
    }

    /// Gives a parcel out of the hand's store, which takes no memory.
    pub fn let_go(&mut self, brand: u16, value: Value) -> Parcel
        requires { IsInStore self.old brand value }
        ensures parcel { result ≡ record { brand = brand; value = value } }
        ensures made { brand < length self.old.hand }
        ensures less { self.new ≡ with_hand self.old brand (with_less (held_at self.old.hand brand) value.content) }
    {
        self.hand[brand as usize].take_out(&value);
        self.out.undo_retire(brand, value)
    }
}
