//! Parcels and the stores of one holder.

ghost use Rattle.std.specs.Prelude.{◌≡◌, IfOk, IfErr, OnOk, OnErr};
ghost use Rattle.amount_math.specs.Amount.{Meet, holding};
ghost use Rattle.amount_math.specs.Content.{Contains, difference, sum};
ghost use Rattle.amount_math.specs.ValueView.{IsPutRefusal, IsTakeRefusal, IsValue};

use amount_math::{PutFault, TakeFault, Value};
use std::marker::Model;

/// A right in transit: a value of a brand, on its way from one holder to another (own; ERTP's payment
/// without its identity). It can't be copied, made elsewhere or dropped. `Circulations::issue`, `cut`,
/// `merge` and what takes out of a store (`Balance::take`, `take_value`, `into_parcel`) alone make one,
/// and so do the calls that work a put or a retirement backwards (`undo_put`, `undo_retire`). `retire`,
/// `put`, `put_within`, `Balance::of`, `cut` and `merge` alone end one, and so do `undo_issue` and
/// `undo_take`.
pub struct Parcel {
    brand: u16,
    value: Value,
}

impl Model for Parcel {
    ghost use Rattle.amount_math.specs.declared.Amount.{Amount};
    ghost use Rattle.amount_math.specs.Amount.{coded_amount};

    ghost Value = { Amount };

    ghost coded = { coded_amount };

    ghost view = { λ a. record { brand = a.brand; value = a.value } };
}

impl Parcel {
    /// The parcel of a value that was just issued, or taken out of a store of this crate, which alone call it.
    pub(crate) fn issued(brand: u16, value: Value) -> Parcel
        ensures { result ≡ record { brand = brand; value = value } }
    {
        Parcel { brand, value }
    }

    /// The parcel's brand and value, which ends it. Only the supply and the stores of this crate call it.
    pub(crate) fn into_parts(self) -> (u16, Value)
        ensures { result ≡ (self.brand, self.value) }
    {
        let Parcel { brand, value } = self;
        (brand, value)
    }

    /// The number of its brand.
    pub fn brand(&self) -> u16
        ensures { result ≡ self.now.brand }
    {
        self.brand
    }

    /// The value on its way.
    pub fn value(&self) -> &Value
        ensures { result.now ≡ self.now.value }
    {
        &self.value
    }

    /// Cuts a part off it as a parcel of its own, or leaves it whole. A part with keys takes memory.
    /// The program doesn't use it.
    pub fn cut(&mut self, part: &Value) -> Result<Parcel, TakeFault>
        requires { self.old.value.kind ≡ part.now.kind }
        ensures ok { OnOk result (self.new ≡ holding self.old (difference self.old.value.content part.now.content)) }
        ensures part { IfOk result (λ parcel. parcel ≡ record { brand = self.old.brand; value = part.now }) }
        ensures enough { OnOk result (Contains self.old.value.content part.now.content) }
        ensures err { OnErr result (self.new ≡ self.old) }
        ensures refused { IfErr result (IsTakeRefusal self.old.value.content part.now.content) }
    {
        let value = self.value.split(part)?;
        Ok(Parcel {
            brand: self.brand,
            value,
        })
    }

    /// Makes one of the two, or hands the other back. Keys take memory. The program doesn't use it.
    pub fn merge(&mut self, other: Parcel) -> Result<(), (Parcel, PutFault)>
        requires { Meet self.old other }
        ensures ok { OnOk result (self.new ≡ holding self.old (sum self.old.value.content other.value.content)) }
        ensures value { OnOk result (IsValue self.old.value.kind (sum self.old.value.content other.value.content)) }
        ensures back { IfErr result (λ (back, _). back ≡ other) }
        ensures err { OnErr result (self.new ≡ self.old) }
        ensures refused { IfErr result (λ (_, fault). IsPutRefusal self.old.value.kind (sum self.old.value.content other.value.content) fault) }
    {
        let Parcel { brand, value } = other;
        match self.value.absorb(value) {
            Ok(()) => Ok(()),
            Err((value, fault)) => Err((Parcel { brand, value }, fault)),
        }
    }
}
