//! What is held in a place of its own, with room for keys, so that what was there can be put back without
//! memory.

ghost use Rattle.std.specs.Prelude.{◌≡◌, ◌≢◌, ◌≤◌, ◌+◌, ◌↔◌, IfSome, IfErr, IfOk, IsNone, IsOk, IsSome, IsTrue, OnErr, OnOk};
ghost use Rattle.amount_math.specs.Content.{Contains, entries, nothing, of_nat, sum};
ghost use Rattle.amount_math.specs.Counted.{counted};
ghost use Rattle.amount_math.specs.Held.{ComesOut, GoesIn, HasRoom, IsHeld, keys_in, with_less, with_more};
ghost use Rattle.amount_math.specs.ValueView.{Fits, HasFew, IsPutRefusal, keys_of, nat_bound};

use crate::shape::Shape;
use crate::{Entry, Kind, PutFault, Value};
use std::alloc::{AllocError, Global};
use std::marker::Model;

/// A content of a kind in a place of its own, which is changed in place. It may have any number of keys, so
/// it serves what is out of a brand as well as one holder's store. Contracts see its value, and for how
/// many keys there is room: a call within the room takes no memory, and no call lessens the room.
pub struct Holding {
    alloc: Global,
    shape: Shape,
}

impl Drop for Holding {
    fn drop(self) {
        let Holding { alloc: _, shape: _ } = self;
    }
}

impl Model for Holding {
    ghost use Rattle.amount_math.specs.Held.{Held, coded_held};
    ghost use Rattle.amount_math.specs.Shapes.{IsCounted, held_by};

    ghost Value = { Held };

    ghost coded = { coded_held };

    ghost view = { λ a. held_by a.shape };

    ghost invariant = { λ a. IsCounted a.shape };
}

impl Holding {
    /// Nothing of a kind, which takes no memory yet.
    pub fn empty(alloc: Global, kind: Kind) -> Holding
        ensures { result ≡ record { value = record { kind = kind; content = nothing }; room = 0 } }
    {
        let shape = Shape::empty(kind);
        Holding { alloc, shape }
    }

    /// A value in its own place.
    pub fn of(alloc: Global, value: Value) -> Holding
        ensures { result.value ≡ value }
    {
        let Value { shape } = value;
        Holding { alloc, shape }
    }

    /// The value of all that is held, in its own place.
    pub fn into_value(self) -> Value
        requires { HasFew self.value.kind self.value.content }
        ensures { result ≡ self.value }
    {
        let Holding { alloc: _, shape } = self;
        Value { shape }
    }

    /// A value of all that is held. Keys take memory.
    pub fn copy(&self) -> Result<Value, AllocError>
        requires { HasFew self.now.value.kind self.now.value.content }
        ensures { IfOk result (λ copy. copy ≡ self.now.value) }
    {
        let shape = self.shape.copy()?;
        Ok(Value { shape })
    }

    /// The kind, and that what is held fits and has room.
    pub fn kind(&self) -> Kind
        ensures kind { result ≡ self.now.value.kind }
        ensures held { IsHeld self.now }
    {
        let _keys = self.shape.keys();
        self.shape.kind()
    }

    /// How many units are held, or `None` if the kind isn't nat.
    pub fn number(&self) -> Option<u128>
        ensures number { IfSome result (λ n. self.now.value ≡ record { kind = Kind.Nat; content = of_nat n }) }
        ensures bounded { IfSome result (λ n. n ≤ nat_bound) }
        ensures none { IsNone result → self.now.value.kind ≢ Kind.Nat }
    {
        match &self.shape {
            Shape::Nat(number) => Some(*number),
            Shape::Set(_) | Shape::Bag(_) => None,
        }
    }

    /// The keys that are held with their counts, in byte order of the keys, or `None` if the kind is nat.
    pub fn entries(&self) -> Option<&[Entry]>
        ensures entries { IfSome result (λ list. list.now ≡ entries self.now.value.content) }
        ensures keyed { IsSome result → self.now.value.kind ≢ Kind.Nat }
        ensures none { IsNone result → self.now.value.kind ≡ Kind.Nat }
    {
        match &self.shape {
            Shape::Nat(_) => None,
            Shape::Set(keyed) => Some(keyed.entries()),
            Shape::Bag(keyed) => Some(keyed.entries()),
        }
    }

    /// How many keys are held; units are none.
    pub fn keys(&self) -> usize
        ensures { result ≡ keys_in self.now.value.kind self.now.value.content }
    {
        self.shape.keys()
    }

    /// The counts of all elements together.
    pub fn total(&self) -> u128
        ensures { result ≡ counted self.now.value.content }
    {
        self.shape.total()
    }

    /// Whether there is at least what the value has, of each element.
    pub fn is_gte(&self, value: &Value) -> bool
        requires { self.now.value.kind ≡ value.now.kind }
        ensures { IsTrue result ↔ Contains self.now.value.content value.now.content }
    {
        self.shape.is_gte(&value.shape)
    }

    /// That the sum with a value would be one, or why it wouldn't: a count that would pass its bound, for a
    /// set the least common key, before the number of keys. Nothing changes. To show a key takes memory, and
    /// nothing else does.
    pub fn can_absorb(&self, value: &Value) -> Result<(), PutFault>
        requires { self.now.value.kind ≡ value.now.kind }
        ensures fits { IsOk result → Fits self.now.value.kind (sum self.now.value.content value.now.content) }
        ensures few { IsOk result → HasFew self.now.value.kind (sum self.now.value.content value.now.content) }
        ensures sure { Fits self.now.value.kind (sum self.now.value.content value.now.content) → HasFew self.now.value.kind (sum self.now.value.content value.now.content) → IsOk result }
        ensures refused { IfErr result (IsPutRefusal self.now.value.kind (sum self.now.value.content value.now.content)) }
    {
        self.shape.check_sum(&value.shape)
    }

    /// Takes room for so many keys more, where there isn't.
    pub fn reserve(&mut self, keys: usize) -> Result<(), AllocError>
        ensures same { self.new.value ≡ self.old.value }
        ensures ok { OnOk result (HasRoom self.old.value.kind (keys_of self.old.value.content + keys) self.new.room) }
        ensures room { self.old.room ≤ self.new.room }
        ensures there { HasRoom self.old.value.kind (keys_of self.old.value.content + keys) self.old.room → IsOk result }
        ensures err { OnErr result (self.new ≡ self.old) }
    {
        self.shape.reserve(self.alloc, keys)
    }

    /// Takes room for the value's keys that aren't held yet, where there isn't.
    pub fn make_room_for(&mut self, value: &Value) -> Result<(), AllocError>
        requires { self.old.value.kind ≡ value.now.kind }
        ensures same { self.new.value ≡ self.old.value }
        ensures ok { OnOk result (HasRoom self.old.value.kind (keys_of (sum self.old.value.content value.now.content)) self.new.room) }
        ensures room { self.old.room ≤ self.new.room }
        ensures there { HasRoom self.old.value.kind (keys_of (sum self.old.value.content value.now.content)) self.old.room → IsOk result }
        ensures err { OnErr result (self.new ≡ self.old) }
    {
        self.shape.make_room_for(self.alloc, &value.shape)
    }

    /// Adds a value that goes in, which takes no memory.
    pub fn put_back(&mut self, value: Value)
        requires { GoesIn self.old value }
        ensures more { self.new ≡ with_more self.old value.content }
        ensures out { ComesOut self.new value }
    {
        let Value { shape } = value;
        self.shape.put_back(shape);
    }

    /// Takes a part out that is there, which takes no memory and leaves its room.
    pub fn take_out(&mut self, part: &Value)
        requires { ComesOut self.old part.now }
        ensures less { self.new ≡ with_less self.old part.now.content }
        ensures back { GoesIn self.new part.now }
    {
        let _keys = self.shape.keys();
        self.shape.lessen(&part.shape);
    }
}
