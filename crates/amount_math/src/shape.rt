//! What a value has, by its kind. It doesn't know how many keys a value may have.

ghost use Rattle.std.specs.Prelude.{◌≡◌, ◌≢◌, ◌<◌, ◌≤◌, ◌+◌, ◌↔◌, IfOk, IfErr, IsErr, IsOk, OnOk, OnErr, IsTrue};
ghost use Rattle.amount_math.specs.Content.{Contains, difference, nothing, of_nat, sum};
ghost use Rattle.amount_math.specs.Counted.{counted};
ghost use Rattle.amount_math.specs.Held.{GoesIn, HasRoom, keys_in, with_more};
ghost use Rattle.amount_math.specs.Shapes.{IsCounted, IsShape, held_by, room_in, value_view};
ghost use Rattle.amount_math.specs.ValueView.{Fits, HasFew, IsCountRefusal, IsPutRefusal, IsValue, PassesKeys, keys_of, nat_bound, with_content};

use crate::keyed::Keyed;
use crate::{Kind, NAT_BOUND, PutFault, TooMuch};
use std::alloc::{AllocError, Global};

#[derive(Drop)]
pub(crate) enum Shape {
    Nat(u128),
    Set(Keyed),
    Bag(Keyed),
}

/// The sum of two numbers within the bound, if it is within too.
pub(crate) fn nat_sum(held: u128, more: u128) -> Result<u128, TooMuch>
    requires held { held ≤ nat_bound }
    requires more { more ≤ nat_bound }
    ensures ok { IfOk result (λ sum. (sum ≡ held + more) × (sum ≤ nat_bound)) }
    ensures too_much { IfErr result (λ over. (over ≡ record { sum = held + more; bound = nat_bound }) × (nat_bound < held + more)) }
{
    let sum = held + more;
    if sum > NAT_BOUND {
        let bound = NAT_BOUND;
        return Err(TooMuch { sum, bound });
    }
    Ok(sum)
}

/// That the sum of two numbers within the bound is within too.
fn check_nat(held: u128, more: u128) -> Result<(), PutFault>
    requires held { held ≤ nat_bound }
    requires more { more ≤ nat_bound }
    ensures ok { IsOk result → Fits Kind.Nat (sum (of_nat held) (of_nat more)) }
    ensures sure { Fits Kind.Nat (sum (of_nat held) (of_nat more)) → IsOk result }
    ensures refused { IfErr result (IsCountRefusal Kind.Nat (sum (of_nat held) (of_nat more))) }
{
    match nat_sum(held, more) {
        Ok(_) => Ok(()),
        Err(over) => Err(PutFault::TooMuch(over)),
    }
}

impl Shape {
    pub(crate) fn empty(kind: Kind) -> Shape
        ensures empty { value_view result ≡ record { kind = kind; content = nothing } }
        ensures room { room_in result ≡ 0 }
    {
        match kind {
            Kind::Nat => Shape::Nat(0),
            Kind::Set => Shape::Set(Keyed::empty()),
            Kind::Bag => Shape::Bag(Keyed::empty()),
        }
    }

    pub(crate) fn kind(&self) -> Kind
        ensures { result ≡ (value_view self.now).kind }
    {
        match self {
            Shape::Nat(_) => Kind::Nat,
            Shape::Set(_) => Kind::Set,
            Shape::Bag(_) => Kind::Bag,
        }
    }

    pub(crate) fn total(&self) -> u128
        ensures { result ≡ counted (value_view self.now).content }
    {
        match self {
            Shape::Nat(number) => *number,
            Shape::Set(keyed) | Shape::Bag(keyed) => keyed.total(),
        }
    }

    pub(crate) fn copy(&self) -> Result<Shape, AllocError>
        ensures { IfOk result (λ copy. value_view copy ≡ value_view self.now) }
    {
        Ok(match self {
            Shape::Nat(number) => Shape::Nat(*number),
            Shape::Set(keyed) => Shape::Set(keyed.copy()?),
            Shape::Bag(keyed) => Shape::Bag(keyed.copy()?),
        })
    }

    pub(crate) fn is_gte(&self, part: &Shape) -> bool
        requires { (value_view self.now).kind ≡ (value_view part.now).kind }
        ensures { IsTrue result ↔ Contains (value_view self.now).content (value_view part.now).content }
    {
        match (self, part) {
            (Shape::Nat(held), Shape::Nat(number)) => *held >= *number,
            (Shape::Set(held), Shape::Set(part)) => held.contains(part),
            (Shape::Bag(held), Shape::Bag(part)) => held.contains(part),
            _ => unreachable!(),
        }
    }

    /// Whether no count of the sum passes the kind's bound.
    pub(crate) fn check_counts(&self, more: &Shape) -> Result<(), PutFault>
        requires kinds { (value_view self.now).kind ≡ (value_view more.now).kind }
        requires held { IsCounted self.now }
        requires more { IsCounted more.now }
        ensures ok { IsOk result → Fits (value_view self.now).kind (sum (value_view self.now).content (value_view more.now).content) }
        ensures sure { Fits (value_view self.now).kind (sum (value_view self.now).content (value_view more.now).content) → IsOk result }
        ensures refused { IfErr result (IsCountRefusal (value_view self.now).kind (sum (value_view self.now).content (value_view more.now).content)) }
    {
        match (self, more) {
            (Shape::Nat(held), Shape::Nat(number)) => check_nat(*held, *number),
            (Shape::Set(held), Shape::Set(more)) => held.overlap(more),
            (Shape::Bag(held), Shape::Bag(more)) => held.excess(more),
            _ => unreachable!(),
        }
    }

    /// Whether the sum has few enough keys.
    pub(crate) fn check_keys(&self, more: &Shape) -> Result<(), TooMuch>
        requires kinds { (value_view self.now).kind ≡ (value_view more.now).kind }
        requires fits { Fits (value_view self.now).kind (sum (value_view self.now).content (value_view more.now).content) }
        ensures ok { IsOk result → HasFew (value_view self.now).kind (sum (value_view self.now).content (value_view more.now).content) }
        ensures too_many { IfErr result (PassesKeys (value_view self.now).kind (sum (value_view self.now).content (value_view more.now).content)) }
        ensures sure { HasFew (value_view self.now).kind (sum (value_view self.now).content (value_view more.now).content) → IsOk result }
        ensures keyed { IsErr result → (value_view self.now).kind ≢ Kind.Nat }
    {
        match (self, more) {
            (Shape::Nat(_), Shape::Nat(_)) => Ok(()),
            (Shape::Set(held), Shape::Set(more)) => held.few_with(more),
            (Shape::Bag(held), Shape::Bag(more)) => held.few_with(more),
            _ => unreachable!(),
        }
    }

    /// Whether no count of the sum passes the kind's bound, and it has few enough keys.
    pub(crate) fn check_sum(&self, more: &Shape) -> Result<(), PutFault>
        requires kinds { (value_view self.now).kind ≡ (value_view more.now).kind }
        requires held { IsCounted self.now }
        requires more { IsCounted more.now }
        ensures fits { IsOk result → Fits (value_view self.now).kind (sum (value_view self.now).content (value_view more.now).content) }
        ensures few { IsOk result → HasFew (value_view self.now).kind (sum (value_view self.now).content (value_view more.now).content) }
        ensures sure { Fits (value_view self.now).kind (sum (value_view self.now).content (value_view more.now).content) → HasFew (value_view self.now).kind (sum (value_view self.now).content (value_view more.now).content) → IsOk result }
        ensures refused { IfErr result (IsPutRefusal (value_view self.now).kind (sum (value_view self.now).content (value_view more.now).content)) }
    {
        self.check_counts(more)?;
        if let Err(over) = self.check_keys(more) {
            return Err(PutFault::TooMuch(over));
        }
        Ok(())
    }

    /// Takes over all that the other has, so that it is a value too, or leaves both as they were.
    pub(crate) fn put(&mut self, more: &mut Shape) -> Result<(), PutFault>
        requires kinds { (value_view self.old).kind ≡ (value_view more.old).kind }
        requires held { IsShape self.old }
        requires more { IsShape more.old }
        ensures ok { OnOk result (value_view self.new ≡ with_content (value_view self.old) (sum (value_view self.old).content (value_view more.old).content)) }
        ensures value { OnOk result (IsValue (value_view self.old).kind (sum (value_view self.old).content (value_view more.old).content)) }
        ensures shapes { IsShape self.new × IsShape more.new }
        ensures err { OnErr result ((self.new ≡ self.old) × (more.new ≡ more.old)) }
        ensures refused { IfErr result (IsPutRefusal (value_view self.old).kind (sum (value_view self.old).content (value_view more.old).content)) }
    {
        self.check_sum(more)?;
        match self.add(more) {
            Ok(()) => Ok(()),
            Err(_) => Err(PutFault::NoMemory),
        }
    }

    /// Takes over all that the other has, or leaves both as they were.
    fn add(&mut self, more: &mut Shape) -> Result<(), AllocError>
        requires kinds { (value_view self.old).kind ≡ (value_view more.old).kind }
        requires fits { Fits (value_view self.old).kind (sum (value_view self.old).content (value_view more.old).content) }
        ensures ok { OnOk result (value_view self.new ≡ with_content (value_view self.old) (sum (value_view self.old).content (value_view more.old).content)) }
        ensures taken { OnOk result (value_view more.new ≡ with_content (value_view more.old) nothing) }
        ensures err { OnErr result ((self.new ≡ self.old) × (more.new ≡ more.old)) }
    {
        match (self, more) {
            (Shape::Nat(held), Shape::Nat(number)) => {
                *held += *number;
                *number = 0;
                Ok(())
            }
            (Shape::Set(held), Shape::Set(more)) => held.absorb(more),
            (Shape::Bag(held), Shape::Bag(more)) => held.absorb(more),
            _ => unreachable!(),
        }
    }

    /// Takes away what it is known to contain. The room stays.
    pub(crate) fn lessen(&mut self, part: &Shape)
        requires kinds { (value_view self.old).kind ≡ (value_view part.now).kind }
        requires enough { Contains (value_view self.old).content (value_view part.now).content }
        ensures less { value_view self.new ≡ with_content (value_view self.old) (difference (value_view self.old).content (value_view part.now).content) }
        ensures room { room_in self.new ≡ room_in self.old }
    {
        match (self, part) {
            (Shape::Nat(held), Shape::Nat(number)) => {
                *held -= *number;
            }
            (Shape::Set(held), Shape::Set(part)) => held.lessen(part),
            (Shape::Bag(held), Shape::Bag(part)) => held.lessen(part),
            _ => unreachable!(),
        }
    }

    /// How many keys it has; units are none.
    pub(crate) fn keys(&self) -> usize
        ensures keys { result ≡ keys_in (value_view self.now).kind (value_view self.now).content }
        ensures room { HasRoom (value_view self.now).kind (keys_of (value_view self.now).content) (room_in self.now) }
    {
        match self {
            Shape::Nat(_) => 0,
            Shape::Set(keyed) | Shape::Bag(keyed) => keyed.keys(),
        }
    }

    /// Takes room for so many keys more.
    pub(crate) fn reserve(&mut self, alloc: Global, keys: usize) -> Result<(), AllocError>
        ensures same { value_view self.new ≡ value_view self.old }
        ensures ok { OnOk result (HasRoom (value_view self.old).kind (keys_of (value_view self.old).content + keys) (room_in self.new)) }
        ensures room { room_in self.old ≤ room_in self.new }
        ensures there { HasRoom (value_view self.old).kind (keys_of (value_view self.old).content + keys) (room_in self.old) → IsOk result }
        ensures err { OnErr result (self.new ≡ self.old) }
    {
        match self {
            Shape::Nat(_) => Ok(()),
            Shape::Set(keyed) => keyed.reserve(alloc, keys),
            Shape::Bag(keyed) => keyed.reserve(alloc, keys),
        }
    }

    /// Takes room for the other's keys that it hasn't yet.
    pub(crate) fn make_room_for(&mut self, alloc: Global, more: &Shape) -> Result<(), AllocError>
        requires { (value_view self.old).kind ≡ (value_view more.now).kind }
        ensures same { value_view self.new ≡ value_view self.old }
        ensures ok { OnOk result (HasRoom (value_view self.old).kind (keys_of (sum (value_view self.old).content (value_view more.now).content)) (room_in self.new)) }
        ensures room { room_in self.old ≤ room_in self.new }
        ensures there { HasRoom (value_view self.old).kind (keys_of (sum (value_view self.old).content (value_view more.now).content)) (room_in self.old) → IsOk result }
        ensures err { OnErr result (self.new ≡ self.old) }
    {
        match (self, more) {
            (Shape::Nat(_), Shape::Nat(_)) => Ok(()),
            (Shape::Set(held), Shape::Set(more)) => held.make_room_for(alloc, more),
            (Shape::Bag(held), Shape::Bag(more)) => held.make_room_for(alloc, more),
            _ => unreachable!(),
        }
    }

    /// Adds the other within the room, which takes no memory.
    pub(crate) fn put_back(&mut self, more: Shape)
        requires { GoesIn (held_by self.old) (value_view more) }
        ensures { held_by self.new ≡ with_more (held_by self.old) (value_view more).content }
    {
        match (self, more) {
            (Shape::Nat(held), Shape::Nat(number)) => {
                *held += number;
            }
            (Shape::Set(held), Shape::Set(more)) => held.put_back(more),
            (Shape::Bag(held), Shape::Bag(more)) => held.put_back(more),
            _ => unreachable!(),
        }
    }
}
