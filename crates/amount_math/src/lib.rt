//! The algebra of amounts (ERTP's AmountMath): a value is a kind and a finite map from element to
//! count, and each call is the operation on these, or the refusal that its clause names.
#![tactic(auto)]

ghost use Rattle.std.specs.Prelude.{◌≡◌, ◌≢◌, ◌≤◌, ◌↔◌, IsTrue, IsNone, IsOk, IsErr, IsSome, IfSome, IfOk, IfErr, OnOk, OnErr};
ghost use Rattle.amount_math.specs.Content.{Contains, difference, entries, nothing, of_nat, one_of, sum};
ghost use Rattle.amount_math.specs.Counted.{counted};
ghost use Rattle.amount_math.specs.Entries.{IsKey};
ghost use Rattle.amount_math.specs.Held.{keys_in};
ghost use Rattle.amount_math.specs.ValueView.{IsGreatest, IsIncomparable, IsLeast, IsNat, IsPutRefusal, IsTakeRefusal, IsValue, PassesBound, most_counted, nat_bound};

mod amounts;
mod entries;
mod handed;
mod holding;
mod in_place;
mod keyed;
mod keys;
mod kinds;
mod made;
mod merges;
mod shape;
pub mod shortfall;

pub use amounts::{AddFault, CoerceFault, CompareFault, WrongBrand, coerce, make};
use handed::{choose, or_back};
pub use holding::Holding;
use keyed::Keyed;
pub use keys::{COUNT_BOUND, Entry, KEY_BYTES, Key};
pub use kinds::{AmountKind, BadValue, BagKind, MakeFault, NatKind, SetKind};
use shape::{Shape, nat_sum};
use std::alloc::{AllocError, Global};
use std::marker::Model;

/// The highest number of a nat value.
pub const NAT_BOUND: u128 = (1 << 120) - 1;

/// The highest total of the counts that were ever issued of a brand.
pub const MINTED_BOUND: u128 = (1 << 126) - 1;

/// The most keys that a set or a bag may have (own).
pub const KEYS_BOUND: u128 = 4096;

/// The kind of a brand's values.
#[derive(Clone, Copy, PartialEq, Eq)]
pub enum Kind {
    /// Whole numbers from 0 to the bound.
    Nat,
    /// Keys, each at most once (ERTP's copySet).
    Set,
    /// Keys with counts (ERTP's copyBag).
    Bag,
}

/// A count, or a number of keys, that would pass its bound: what the sum would have, and the bound.
#[derive(Clone, Copy, PartialEq, Eq)]
pub struct TooMuch {
    pub sum: u128,
    pub bound: u128,
}

/// Why a value isn't added to another: the least key that two sets have in common, or the count or the
/// number of keys that passes its bound (a count is tested first), or memory is wanted.
#[derive(Drop, PartialEq, Eq)]
pub enum PutFault {
    Overlap(Key),
    TooMuch(TooMuch),
    NoMemory,
}

/// Why a part isn't taken out of a value: the value has less, or memory is wanted for the part.
#[derive(Clone, Copy, PartialEq, Eq)]
pub enum TakeFault {
    NotEnough,
    NoMemory,
}

/// A value of a kind. Contracts see its kind and its content.
#[derive(Drop)]
pub struct Value {
    shape: Shape,
}

impl Model for Value {
    ghost use Rattle.amount_math.specs.ValueView.{ValueView, coded_value_view};
    ghost use Rattle.amount_math.specs.Shapes.{value_view, IsShape};

    ghost Value = { ValueView };

    ghost coded = { coded_value_view };

    ghost view = { λ a. value_view a.shape };

    ghost invariant = { λ a. IsShape a.shape };
}

/// A value of a brand, which goes by its number.
pub struct Amount {
    pub brand: u16,
    pub value: Value,
}

impl Drop for Amount {
    fn drop(self) {
        let Amount { brand: _, value: _ } = self;
    }
}

impl Value {
    /// So many units.
    pub fn nat(number: u128) -> Value
        requires { number ≤ nat_bound }
        ensures { result ≡ record { kind = Kind.Nat; content = of_nat number } }
    {
        Value {
            shape: Shape::Nat(number),
        }
    }

    /// The value of a kind that has nothing.
    pub fn empty(kind: Kind) -> Value
        ensures { result ≡ record { kind = kind; content = nothing } }
    {
        Value {
            shape: Shape::empty(kind),
        }
    }

    /// The set of one key, or the key handed back where memory is wanted.
    pub fn set_of_one(alloc: Global, key: Key) -> Result<Value, Key>
        requires { IsKey key }
        ensures ok { IfOk result (λ value. value ≡ record { kind = Kind.Set; content = one_of key }) }
        ensures back { IfErr result (λ back. back ≡ key) }
    {
        match Keyed::one(alloc, key) {
            Ok(keyed) => Ok(Value {
                shape: Shape::Set(keyed),
            }),
            Err(key) => Err(key),
        }
    }

    /// Its kind, of which it is a value.
    pub fn kind(&self) -> Kind
        ensures kind { result ≡ self.now.kind }
        ensures value { IsValue self.now.kind self.now.content }
    {
        self.shape.kind()
    }

    /// How many units it is, or `None` if its kind isn't nat.
    pub fn number(&self) -> Option<u128>
        ensures number { IfSome result (λ n. self.now ≡ record { kind = Kind.Nat; content = of_nat n }) }
        ensures bounded { IfSome result (λ n. n ≤ nat_bound) }
        ensures none { IsNone result → self.now.kind ≢ Kind.Nat }
    {
        match &self.shape {
            Shape::Nat(number) => Some(*number),
            Shape::Set(_) | Shape::Bag(_) => None,
        }
    }

    /// The keys with their counts, in byte order of the keys, or `None` if its kind is nat. Each count
    /// of a set is 1.
    pub fn entries(&self) -> Option<&[Entry]>
        ensures entries { IfSome result (λ list. list.now ≡ entries self.now.content) }
        ensures keyed { IsSome result → self.now.kind ≢ Kind.Nat }
        ensures none { IsNone result → self.now.kind ≡ Kind.Nat }
    {
        match &self.shape {
            Shape::Nat(_) => None,
            Shape::Set(keyed) => Some(keyed.entries()),
            Shape::Bag(keyed) => Some(keyed.entries()),
        }
    }

    /// The counts of all its elements together.
    pub fn total(&self) -> u128
        ensures total { result ≡ counted self.now.content }
        ensures bounded { result ≤ most_counted self.now.kind }
    {
        self.shape.total()
    }

    /// How many keys it has; units are none.
    pub fn keys(&self) -> usize
        ensures { result ≡ keys_in self.now.kind self.now.content }
    {
        self.shape.keys()
    }

    /// A second one. Keys take memory.
    pub fn copy(&self) -> Result<Value, AllocError>
        ensures { IfOk result (λ copy. copy ≡ self.now) }
    {
        let shape = self.shape.copy()?;
        Ok(Value { shape })
    }

    /// Whether it has at least what the other has, of each element.
    pub fn is_gte(&self, other: &Value) -> bool
        requires { self.now.kind ≡ other.now.kind }
        ensures { IsTrue result ↔ Contains self.now.content other.now.content }
    {
        self.shape.is_gte(&other.shape)
    }

    /// Whether the two are one value: kind and content.
    pub fn is_equal(&self, other: &Value) -> bool
        ensures { IsTrue result ↔ (self.now ≡ other.now) }
    {
        if self.kind() != other.kind() {
            return false;
        }
        if !self.is_gte(other) {
            return false;
        }
        other.is_gte(self)
    }

    /// Whether it has nothing.
    pub fn is_empty(&self) -> bool
        ensures { IsTrue result ↔ (self.now.content ≡ nothing) }
    {
        match &self.shape {
            Shape::Nat(number) => *number == 0,
            Shape::Set(keyed) | Shape::Bag(keyed) => keyed.is_empty(),
        }
    }

    /// That the sum with the other would be a value, or why it wouldn't, as `absorb` says it. Nothing
    /// changes. To show a common key takes memory, and nothing else does.
    pub fn can_absorb(&self, other: &Value) -> Result<(), PutFault>
        requires { self.now.kind ≡ other.now.kind }
        ensures ok { IsOk result → IsValue self.now.kind (sum self.now.content other.now.content) }
        ensures sure { IsValue self.now.kind (sum self.now.content other.now.content) → IsOk result }
        ensures refused { IfErr result (IsPutRefusal self.now.kind (sum self.now.content other.now.content)) }
    {
        self.shape.check_sum(&other.shape)
    }

    /// Adds the other to it, or hands the other back and stays as it was. Keys take memory.
    pub fn absorb(&mut self, mut other: Value) -> Result<(), (Value, PutFault)>
        requires { self.old.kind ≡ other.kind }
        ensures ok { OnOk result (self.new ≡ record self.old { content = sum self.old.content other.content }) }
        ensures value { OnOk result (IsValue self.old.kind (sum self.old.content other.content)) }
        ensures back { IfErr result (λ (back, _). back ≡ other) }
        ensures err { OnErr result (self.new ≡ self.old) }
        ensures refused { IfErr result (λ (_, fault). IsPutRefusal self.old.kind (sum self.old.content other.content) fault) }
    {
        let done = self.put(&mut other);
        or_back(done, other)
    }

    /// Takes over all that the other has, or leaves both as they were. Keys take memory.
    pub(crate) fn put(&mut self, other: &mut Value) -> Result<(), PutFault>
        requires { self.old.kind ≡ other.old.kind }
        ensures ok { OnOk result (self.new ≡ record self.old { content = sum self.old.content other.old.content }) }
        ensures value { OnOk result (IsValue self.old.kind (sum self.old.content other.old.content)) }
        ensures err { OnErr result ((self.new ≡ self.old) × (other.new ≡ other.old)) }
        ensures refused { IfErr result (IsPutRefusal self.old.kind (sum self.old.content other.old.content)) }
    {
        self.shape.put(&mut other.shape)
    }

    /// `put` at nat values, which takes no memory and leaves the other as it was.
    pub(crate) fn put_nat(&mut self, other: &Value) -> Result<(), TooMuch>
        requires nat { self.old.kind ≡ Kind.Nat }
        requires kinds { self.old.kind ≡ other.now.kind }
        ensures ok { OnOk result (self.new ≡ record self.old { content = sum self.old.content other.now.content }) }
        ensures value { OnOk result (IsNat (sum self.old.content other.now.content)) }
        ensures err { OnErr result (self.new ≡ self.old) }
        ensures too_much { IfErr result (PassesBound Kind.Nat (sum self.old.content other.now.content)) }
    {
        let Some(number) = other.number() else {
            unreachable!()
        };
        self.add_number(number)
    }

    fn add_number(&mut self, number: u128) -> Result<(), TooMuch>
        requires nat { self.old.kind ≡ Kind.Nat }
        requires bounded { number ≤ nat_bound }
        ensures ok { OnOk result (self.new ≡ record self.old { content = sum self.old.content (of_nat number) }) }
        ensures value { OnOk result (IsNat (sum self.old.content (of_nat number))) }
        ensures err { OnErr result (self.new ≡ self.old) }
        ensures too_much { IfErr result (PassesBound Kind.Nat (sum self.old.content (of_nat number))) }
    {
        match &mut self.shape {
            Shape::Nat(held) => {
                match nat_sum(*held, number) {
                    Ok(sum) => *held = sum,
                    Err(over) => return Err(over),
                }
                Ok(())
            }
            Shape::Set(_) | Shape::Bag(_) => unreachable!(),
        }
    }

    /// Takes a part out of it, or stays as it was. A part with keys takes memory.
    pub fn split(&mut self, part: &Value) -> Result<Value, TakeFault>
        requires { self.old.kind ≡ part.now.kind }
        ensures ok { OnOk result (self.new ≡ record self.old { content = difference self.old.content part.now.content }) }
        ensures part { IfOk result (λ taken. taken ≡ part.now) }
        ensures enough { OnOk result (Contains self.old.content part.now.content) }
        ensures err { OnErr result (self.new ≡ self.old) }
        ensures refused { IfErr result (IsTakeRefusal self.old.content part.now.content) }
    {
        if !self.is_gte(part) {
            return Err(TakeFault::NotEnough);
        }
        let Ok(taken) = part.copy() else {
            return Err(TakeFault::NoMemory);
        };
        self.lessen(part);
        Ok(taken)
    }

    /// Takes away what it is known to contain.
    pub fn lessen(&mut self, part: &Value)
        requires kind { self.old.kind ≡ part.now.kind }
        requires enough { Contains self.old.content part.now.content }
        ensures { self.new ≡ record self.old { content = difference self.old.content part.now.content } }
    {
        self.shape.lessen(&part.shape);
    }

    /// It less the part, or itself handed back where it has less. The program doesn't use it.
    pub fn subtract(mut self, part: &Value) -> Result<Value, Value>
        requires { self.kind ≡ part.now.kind }
        ensures ok { IfOk result (λ rest. rest ≡ record self { content = difference self.content part.now.content }) }
        ensures enough { IsOk result → Contains self.content part.now.content }
        ensures back { IfErr result (λ back. back ≡ self) }
        ensures not_enough { IsErr result → ¬ Contains self.content part.now.content }
    {
        if !self.is_gte(part) {
            return Err(self);
        }
        self.lessen(part);
        Ok(self)
    }

    /// The one of the two that both contain, or both handed back where neither contains the other.
    /// The program doesn't use it.
    pub fn min(self, other: Value) -> Result<Value, (Value, Value)>
        requires { self.kind ≡ other.kind }
        ensures ok { IfOk result (IsLeast self other) }
        ensures back { IfErr result (λ (left, right). (left ≡ self) × (right ≡ other)) }
        ensures not_enough { IsErr result → IsIncomparable self.content other.content }
    {
        choose(other.is_gte(&self), self.is_gte(&other), self, other)
    }

    /// The one of the two that contains both, or both handed back where neither contains the other.
    /// The program doesn't use it.
    pub fn max(self, other: Value) -> Result<Value, (Value, Value)>
        requires { self.kind ≡ other.kind }
        ensures ok { IfOk result (IsGreatest self other) }
        ensures back { IfErr result (λ (left, right). (left ≡ self) × (right ≡ other)) }
        ensures not_enough { IsErr result → IsIncomparable self.content other.content }
    {
        choose(self.is_gte(&other), other.is_gte(&self), self, other)
    }
}
