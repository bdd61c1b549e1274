//! Operations on the amounts of one brand, refused for two.

ghost use Rattle.std.specs.Prelude.{◌≡◌, ◌↔◌, IsTrue, IsOk, IfOk, IfErr, OnOk, OnErr};
ghost use Rattle.amount_math.specs.Content.{Content, Contains, difference, nothing, sum};
ghost use Rattle.amount_math.specs.ValueView.{IsGreatest, IsIncomparable, IsLeast};
ghost use Rattle.amount_math.specs.Amount.{OneKind, holding};
ghost use Rattle.amount_math.specs.Brands.{IsAddRefusal, IsCoerceRefusal, IsCompareRefusal, IsWrongBrand};

use crate::handed::{choose, or_both};
use crate::{Amount, AmountKind, Key, Kind, PutFault, TooMuch, Value};

/// Two brands meet: the number of the brand that was given.
#[derive(Clone, Copy, PartialEq, Eq)]
pub struct WrongBrand {
    pub given: u16,
}

/// Why an amount isn't added to another: two brands, or as `PutFault`.
#[derive(Drop, PartialEq, Eq)]
pub enum AddFault {
    WrongBrand(WrongBrand),
    Overlap(Key),
    TooMuch(TooMuch),
    NoMemory,
}

/// Why an amount isn't taken from another, or neither is the lesser or the greater.
#[derive(Clone, Copy, PartialEq, Eq)]
pub enum CompareFault {
    WrongBrand(WrongBrand),
    NotEnough,
}

/// Why an amount isn't one of the brand.
#[derive(Clone, Copy, PartialEq, Eq)]
pub enum CoerceFault {
    WrongBrand(WrongBrand),
    BadValue,
}

/// The brand's amount of the value that the data stands for, or `BadValue` where it stands for none. Keys
/// take memory. The program doesn't use it.
pub fn make<K: AmountKind>(brand: u16, from: K::Data) -> Result<Amount, K::MakeFault>
    ensures ok { IfOk result (λ amount. (amount.brand ≡ brand) × (amount.value.kind ≡ K.own_kind) × K.stands_for from amount.value.content) }
    ensures value { IfOk result (λ amount. K.is_value amount.value.content) }
    ensures bad_value { IfErr result (λ fault. ¬ K.wants_memory fault → (c : Content) → K.is_value c → ¬ K.stands_for from c) }
{
    match K::make(from) {
        Ok(value) => Ok(Amount { brand, value }),
        Err(fault) => Err(fault),
    }
}

/// The alleged amount as one of the brand, whose values are of the kind, or handed back.
/// The program doesn't use it.
pub fn coerce(brand: u16, kind: Kind, alleged: Amount) -> Result<Amount, (Amount, CoerceFault)>
    ensures ok { IfOk result (λ own. own ≡ alleged) }
    ensures own { IsOk result → (brand ≡ alleged.brand) × (kind ≡ alleged.value.kind) }
    ensures back { IfErr result (λ (back, _). back ≡ alleged) }
    ensures refused { IfErr result (λ (_, fault). IsCoerceRefusal brand kind alleged fault) }
{
    if brand != alleged.brand {
        let given = alleged.brand;
        return Err((alleged, CoerceFault::WrongBrand(WrongBrand { given })));
    }
    if kind != alleged.value.kind() {
        return Err((alleged, CoerceFault::BadValue));
    }
    Ok(alleged)
}

impl Amount {
    fn one_brand(&self, other: &Amount) -> Result<(), WrongBrand>
        ensures ok { IsOk result → self.now.brand ≡ other.now.brand }
        ensures wrong_brand { IfErr result (IsWrongBrand self.now.brand other.now) }
    {
        if self.brand == other.brand {
            Ok(())
        } else {
            Err(WrongBrand { given: other.brand })
        }
    }

    /// Whether it has nothing.
    pub fn is_empty(&self) -> bool
        ensures { IsTrue result ↔ (self.now.value.content ≡ nothing) }
    {
        self.value.is_empty()
    }

    /// Whether it has at least what the other has, of each element. The program doesn't use it.
    pub fn is_gte(&self, other: &Amount) -> Result<bool, WrongBrand>
        requires { OneKind self.now other.now }
        ensures ok { IfOk result (λ is. IsTrue is ↔ Contains self.now.value.content other.now.value.content) }
        ensures one_brand { IsOk result → self.now.brand ≡ other.now.brand }
        ensures wrong_brand { IfErr result (IsWrongBrand self.now.brand other.now) }
    {
        self.one_brand(other)?;
        Ok(self.value.is_gte(&other.value))
    }

    /// Whether the two are one value. The program doesn't use it.
    pub fn is_equal(&self, other: &Amount) -> Result<bool, WrongBrand>
        requires { OneKind self.now other.now }
        ensures ok { IfOk result (λ is. IsTrue is ↔ (self.now ≡ other.now)) }
        ensures one_brand { IsOk result → self.now.brand ≡ other.now.brand }
        ensures wrong_brand { IfErr result (IsWrongBrand self.now.brand other.now) }
    {
        self.one_brand(other)?;
        Ok(self.value.is_equal(&other.value))
    }

    /// The sum, or both handed back. The program doesn't use it.
    pub fn add(mut self, mut other: Amount) -> Result<Amount, (Amount, Amount, AddFault)>
        requires { OneKind self other }
        ensures ok { IfOk result (λ both. both ≡ holding self (sum self.value.content other.value.content)) }
        ensures one_brand { IsOk result → self.brand ≡ other.brand }
        ensures back { IfErr result (λ (left, right, _). (left ≡ self) × (right ≡ other)) }
        ensures refused { IfErr result (λ (_, _, fault). IsAddRefusal self other fault) }
    {
        let done = self.put(&mut other);
        or_both(done, self, other)
    }

    /// Takes over all that the other has, or leaves both as they were.
    fn put(&mut self, other: &mut Amount) -> Result<(), AddFault>
        requires { OneKind self.old other.old }
        ensures ok { OnOk result (self.new ≡ holding self.old (sum self.old.value.content other.old.value.content)) }
        ensures one_brand { OnOk result (self.old.brand ≡ other.old.brand) }
        ensures err { OnErr result ((self.new ≡ self.old) × (other.new ≡ other.old)) }
        ensures refused { IfErr result (IsAddRefusal self.old other.old) }
    {
        if let Err(wrong) = self.one_brand(other) {
            return Err(AddFault::WrongBrand(wrong));
        }
        match self.value.put(&mut other.value) {
            Ok(()) => Ok(()),
            Err(PutFault::Overlap(key)) => Err(AddFault::Overlap(key)),
            Err(PutFault::TooMuch(over)) => Err(AddFault::TooMuch(over)),
            Err(PutFault::NoMemory) => Err(AddFault::NoMemory),
        }
    }

    /// It less the other, or both handed back. The program doesn't use it.
    pub fn subtract(mut self, other: Amount) -> Result<Amount, (Amount, Amount, CompareFault)>
        requires { OneKind self other }
        ensures ok { IfOk result (λ rest. rest ≡ holding self (difference self.value.content other.value.content)) }
        ensures enough { IsOk result → (self.brand ≡ other.brand) × Contains self.value.content other.value.content }
        ensures back { IfErr result (λ (left, right, _). (left ≡ self) × (right ≡ other)) }
        ensures refused { IfErr result (λ (_, _, fault). IsCompareRefusal self other (¬ Contains self.value.content other.value.content) fault) }
    {
        let done = self.take_away(&other);
        or_both(done, self, other)
    }

    /// Takes away what the other has, or stays as it was.
    fn take_away(&mut self, other: &Amount) -> Result<(), CompareFault>
        requires { OneKind self.old other.now }
        ensures ok { OnOk result (self.new ≡ holding self.old (difference self.old.value.content other.now.value.content)) }
        ensures enough { OnOk result ((self.old.brand ≡ other.now.brand) × Contains self.old.value.content other.now.value.content) }
        ensures err { OnErr result (self.new ≡ self.old) }
        ensures refused { IfErr result (IsCompareRefusal self.old other.now (¬ Contains self.old.value.content other.now.value.content)) }
    {
        if let Err(wrong) = self.one_brand(other) {
            return Err(CompareFault::WrongBrand(wrong));
        }
        if !self.value.is_gte(&other.value) {
            return Err(CompareFault::NotEnough);
        }
        self.value.lessen(&other.value);
        Ok(())
    }

    /// The one of the two that both contain, or both handed back. The program doesn't use it.
    pub fn min(self, other: Amount) -> Result<Amount, (Amount, Amount, CompareFault)>
        requires { OneKind self other }
        ensures ok { IfOk result (λ least. (least.brand ≡ self.brand) × IsLeast self.value other.value least.value) }
        ensures one_brand { IsOk result → self.brand ≡ other.brand }
        ensures back { IfErr result (λ (left, right, _). (left ≡ self) × (right ≡ other)) }
        ensures refused { IfErr result (λ (_, _, fault). IsCompareRefusal self other (IsIncomparable self.value.content other.value.content) fault) }
    {
        if let Err(wrong) = self.one_brand(&other) {
            return Err((self, other, CompareFault::WrongBrand(wrong)));
        }
        let is_least = other.value.is_gte(&self.value);
        let is_other = self.value.is_gte(&other.value);
        match choose(is_least, is_other, self, other) {
            Ok(least) => Ok(least),
            Err((left, right)) => Err((left, right, CompareFault::NotEnough)),
        }
    }

    /// The one of the two that contains both, or both handed back. The program doesn't use it.
    pub fn max(self, other: Amount) -> Result<Amount, (Amount, Amount, CompareFault)>
        requires { OneKind self other }
        ensures ok { IfOk result (λ greatest. (greatest.brand ≡ self.brand) × IsGreatest self.value other.value greatest.value) }
        ensures one_brand { IsOk result → self.brand ≡ other.brand }
        ensures back { IfErr result (λ (left, right, _). (left ≡ self) × (right ≡ other)) }
        ensures refused { IfErr result (λ (_, _, fault). IsCompareRefusal self other (IsIncomparable self.value.content other.value.content) fault) }
    {
        if let Err(wrong) = self.one_brand(&other) {
            return Err((self, other, CompareFault::WrongBrand(wrong)));
        }
        let is_greatest = self.value.is_gte(&other.value);
        let is_other = other.value.is_gte(&self.value);
        match choose(is_greatest, is_other, self, other) {
            Ok(greatest) => Ok(greatest),
            Err((left, right)) => Err((left, right, CompareFault::NotEnough)),
        }
    }
}
