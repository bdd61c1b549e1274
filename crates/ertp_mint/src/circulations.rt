//! The supply of each brand, which is changed in place.

ghost use Rattle.std.specs.Prelude.{[], ◌≡◌, ◌<◌, ◌≤◌, ◌-◌, ◌++◌, ◌∷◌, length, slice_set, take, IfOk, IfErr, IsOk, OnOk, OnErr};
ghost use Rattle.amount_math.specs.Content.{Contains, count};
ghost use Rattle.amount_math.specs.Counted.{counted};
ghost use Rattle.amount_math.specs.ValueView.{minted_bound};
ghost use Rattle.ertp_mint.specs.BrandSupply.{IsMintRefusal, MayIssue};
ghost use Rattle.ertp_mint.specs.Circulating.{CanReturn, Circulates, IsOut, circulation_at, new_circulation, with_forgotten, with_issued, with_retired, with_unissued, with_unretired};

use crate::Parcel;
use crate::circulation::Circulation;
use amount_math::{Kind, PutFault, Value};
use std::alloc::{AllocError, Global};
use std::marker::Model;

/// What is out of each brand, by its number, with the totals of counts minted and burned. It finds a key at
/// a cost of the logarithm of how many are out. Contracts see what is kept too: what was retired and may
/// come out again, which takes no memory until it is forgotten.
#[derive(Drop)]
pub struct Circulations {
    brands: Vec<Circulation>,
}

impl Model for Circulations {
    ghost use Rattle.std.specs.Prelude.{List};
    ghost use Rattle.std.specs.Coded.{coded_list};
    ghost use Rattle.ertp_mint.specs.Circulating.{CirculationView, coded_circulation};

    ghost Value = { List CirculationView };

    ghost coded = { coded_list coded_circulation };

    ghost view = { λ a. a.brands.items };
}

impl Circulations {
    /// The supply of no brand.
    pub fn new(alloc: Global) -> Circulations
        ensures { result ≡ [] }
    {
        Circulations {
            brands: Vec::new(alloc),
        }
    }

    /// Takes in a new brand, with the next number, of which nothing was issued.
    pub fn add_brand(&mut self, kind: Kind) -> Result<(), AllocError>
        ensures ok { OnOk result (self.new ≡ self.old ++ new_circulation kind ∷ []) }
        ensures err { OnErr result (self.new ≡ self.old) }
    {
        let alloc = *self.brands.allocator();
        self.brands.reserve(1)?;
        self.brands.push_reserved(Circulation::empty(alloc, kind));
        Ok(())
    }

    /// Takes the last brand back, of which nothing was issued.
    pub fn undo_add_brand(&mut self)
        requires made { 0 < length self.old }
        requires fresh { (circulation_at self.old (length self.old - 1)).supply.minted ≡ 0 }
        ensures { self.new ≡ take (length self.old - 1) self.old }
    {
        let _last = self.brands.pop();
    }

    /// The kind of a brand's values, and that what is out, what was burned and what was minted add up.
    pub fn kind(&self, brand: u16) -> Kind
        requires { brand < length self.now }
        ensures kind { result ≡ (circulation_at self.now brand).supply.outstanding.kind }
        ensures circulates { Circulates (circulation_at self.now brand) }
    {
        self.brands[brand as usize].kind()
    }

    /// The counts of all that is out of a brand, together: minted less burned.
    pub fn total(&self, brand: u16) -> u128
        requires { brand < length self.now }
        ensures { result ≡ counted (circulation_at self.now brand).supply.outstanding.content }
    {
        self.brands[brand as usize].total()
    }

    /// The counts of all that was ever issued of a brand, together.
    pub fn minted(&self, brand: u16) -> u128
        requires { brand < length self.now }
        ensures minted { result ≡ (circulation_at self.now brand).supply.minted }
        ensures bounded { result ≤ minted_bound }
    {
        self.brands[brand as usize].minted()
    }

    /// The counts of all that was ever retired of a brand, together.
    pub fn burned(&self, brand: u16) -> u128
        requires { brand < length self.now }
        ensures { result ≡ (circulation_at self.now brand).supply.burned }
    {
        self.brands[brand as usize].burned()
    }

    /// How many of a key are out of a brand, or how many units, which are those of the empty key.
    pub fn count_out(&self, brand: u16, key: &str) -> u128
        requires { brand < length self.now }
        ensures { result
            ≡ count (circulation_at self.now brand).supply.outstanding.content key.now }
    {
        self.brands[brand as usize].count_out(key)
    }

    /// That a value may come out too, or why it mayn't, as `issue` says it. Nothing changes. To show a key
    /// that is out already takes memory, and nothing else does.
    pub fn can_issue(&self, brand: u16, value: &Value) -> Result<(), PutFault>
        requires made { brand < length self.now }
        requires kind { (circulation_at self.now brand).supply.outstanding.kind ≡ value.now.kind }
        ensures ok { IsOk result → MayIssue (circulation_at self.now brand).supply value.now }
        ensures sure { MayIssue (circulation_at self.now brand).supply value.now → IsOk result }
        ensures refused { IfErr result
            (IsMintRefusal (circulation_at self.now brand).supply value.now) }
    {
        self.brands[brand as usize].can_issue(value)
    }

    /// Brings a value out as a parcel, or hands it back: `Overlap` where a key of a set is out already,
    /// `TooMuch` where a count would pass its bound, or else the minted total its own. How many keys are out
    /// is not bounded. Keys of which nothing is out or kept yet take memory.
    pub fn issue(&mut self, brand: u16, value: Value) -> Result<Parcel, (Value, PutFault)>
        requires made { brand < length self.old }
        requires kind { (circulation_at self.old brand).supply.outstanding.kind ≡ value.kind }
        ensures ok { OnOk result (self.new ≡ slice_set self.old brand
            (with_issued (circulation_at self.old brand) value.content)) }
        ensures parcel { IfOk result (λ parcel. parcel ≡ record { brand = brand; value = value }) }
        ensures may { OnOk result (MayIssue (circulation_at self.old brand).supply value) }
        ensures out { OnOk result (IsOut (circulation_at self.new brand) value) }
        ensures undone { OnOk result (with_unissued (circulation_at self.new brand) value.content
            ≡ circulation_at self.old brand) }
        ensures back { IfErr result (λ (back, _). back ≡ value) }
        ensures err { OnErr result (self.new ≡ self.old) }
        ensures refused { IfErr result (λ (_, fault).
            IsMintRefusal (circulation_at self.old brand).supply value fault) }
    {
        match self.brands[brand as usize].issue(&value) {
            Ok(()) => Ok(Parcel::issued(brand, value)),
            Err(fault) => Err((value, fault)),
        }
    }

    /// Works an issue backwards, which takes no memory and ends its parcel.
    pub fn undo_issue(&mut self, parcel: Parcel)
        requires made { parcel.brand < length self.old }
        requires out { IsOut (circulation_at self.old parcel.brand) parcel.value }
        ensures { self.new ≡ slice_set self.old parcel.brand
            (with_unissued (circulation_at self.old parcel.brand) parcel.value.content) }
    {
        let (brand, value) = parcel.into_parts();
        self.brands[brand as usize].undo_issue(&value);
    }

    /// Ends a parcel that is out, which takes no memory, and gives its value back, for working it backwards.
    pub fn retire(&mut self, parcel: Parcel) -> Value
        requires made { parcel.brand < length self.old }
        requires out { IsOut (circulation_at self.old parcel.brand) parcel.value }
        ensures value { result ≡ parcel.value }
        ensures retired { self.new ≡ slice_set self.old parcel.brand
            (with_retired (circulation_at self.old parcel.brand) parcel.value.content) }
        ensures back { CanReturn (circulation_at self.new parcel.brand) parcel.value }
        ensures undone { with_unretired (circulation_at self.new parcel.brand) parcel.value.content
            ≡ circulation_at self.old parcel.brand }
    {
        let (brand, value) = parcel.into_parts();
        self.brands[brand as usize].retire(&value);
        value
    }

    /// Works a retirement backwards, which takes no memory: the value becomes the parcel again.
    pub fn undo_retire(&mut self, brand: u16, value: Value) -> Parcel
        requires made { brand < length self.old }
        requires back { CanReturn (circulation_at self.old brand) value }
        ensures parcel { result ≡ record { brand = brand; value = value } }
        ensures unretired { self.new ≡ slice_set self.old brand
            (with_unretired (circulation_at self.old brand) value.content) }
    {
        self.brands[brand as usize].undo_retire(&value);
        Parcel::issued(brand, value)
    }

    /// Keeps a retired value no longer, which takes no memory: what it takes to come out again goes.
    pub fn forget(&mut self, brand: u16, value: &Value)
        requires made { brand < length self.old }
        requires kept { Contains (circulation_at self.old brand).kept value.now.content }
        ensures { self.new ≡ slice_set self.old brand
            (with_forgotten (circulation_at self.old brand) value.now.content) }
    {
        self.brands[brand as usize].forget(value);
    }
}
