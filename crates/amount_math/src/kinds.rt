//! The kinds of value: which contents are values of each, and the laws of their operations.

ghost use Rattle.std.specs.Prelude.{◌≡◌, ◌≢◌, ◌↔◌, IsTrue, IsOk, IsErr, IfOk, IfErr};
ghost use Rattle.amount_math.specs.Content.{Content, Contains, difference, nothing, sum};
ghost use Rattle.amount_math.specs.ValueView.{IsGreatest, IsIncomparable, IsLeast};
ghost use Rattle.amount_math.specs.declared.Kind.{Kind};

use crate::handed::or_both;
use crate::keyed::Keyed;
use crate::made::{each_counted, each_once, within_bound};
use crate::shape::Shape;
use crate::{Key, Kind, NAT_BOUND, PutFault, TooMuch, Value};

/// The data isn't a value of the kind.
#[derive(Clone, Copy, PartialEq, Eq)]
pub struct BadValue;

/// Why no value with keys is made: the data isn't a value of the kind (a key twice, a key of 0 or over
/// 64 bytes, over 4,096 keys, a count of 0 or over the bound), or memory is wanted.
#[derive(Clone, Copy, PartialEq, Eq)]
pub enum MakeFault {
    BadValue,
    NoMemory,
}

/// A kind of value (ERTP's AmountMath, a kind at a time). Of its calls the program uses `make` alone.
pub trait AmountKind {
    /// What a value is made from.
    type Data;

    /// Why none is made.
    type MakeFault;

    /// Why an add is refused.
    type Fault;

    /// The kind's name.
    ghost own_kind: { Kind };

    /// The contents that are values of the kind.
    ghost is_value: { Content → Type 0 };

    /// The content that data stands for.
    ghost stands_for: { Self.Data → Content → Type 0 };

    /// That nothing is made for want of memory alone.
    ghost wants_memory: { Self.MakeFault → Type 0 };

    /// That a fault is the one that an add with this sum is refused for.
    ghost is_refusal: { Content → Self.Fault → Type 0 };

    /// The value that the data stands for, or `BadValue` where it stands for none. The data is let go.
    fn make(from: Self::Data) -> Result<Value, Self::MakeFault>
        ensures ok { IfOk result (λ value. (value.kind ≡ own_kind) × stands_for from value.content) }
        ensures value { IfOk result (λ value. is_value value.content) }
        ensures bad_value { IfErr result (λ fault. ¬ wants_memory fault → (c : Content) → is_value c → ¬ stands_for from c) };

    /// The value as one of the kind, or handed back where it is none (`BadValue`).
    fn coerce(value: Value) -> Result<Value, Value>
        ensures ok { IfOk result (λ own. own ≡ value) }
        ensures value { IsOk result → (value.kind ≡ own_kind) × is_value value.content }
        ensures back { IfErr result (λ back. back ≡ value) }
        ensures bad_value { IsErr result → value.kind ≢ own_kind };

    /// The sum, or both handed back.
    fn add(left: Value, right: Value) -> Result<Value, (Value, Value, Self::Fault)>
        requires left { left.kind ≡ own_kind }
        requires right { right.kind ≡ own_kind }
        ensures ok { IfOk result (λ both. both ≡ record left { content = sum left.content right.content }) }
        ensures value { IsOk result → is_value (sum left.content right.content) }
        ensures back { IfErr result (λ (back, other, _). (back ≡ left) × (other ≡ right)) }
        ensures refused { IfErr result (λ (_, _, fault). is_refusal (sum left.content right.content) fault) };

    /// The left less the right, or the left handed back where it has less (`NotEnough`).
    fn subtract(left: Value, right: &Value) -> Result<Value, Value>
        requires left { left.kind ≡ own_kind }
        requires right { right.now.kind ≡ own_kind }
        ensures ok { IfOk result (λ rest. rest ≡ record left { content = difference left.content right.now.content }) }
        ensures enough { IsOk result → Contains left.content right.now.content }
        ensures back { IfErr result (λ back. back ≡ left) }
        ensures not_enough { IsErr result → ¬ Contains left.content right.now.content }
    {
        left.subtract(right)
    }

    /// Whether the left has at least what the right has, of each element.
    fn is_gte(left: &Value, right: &Value) -> bool
        requires left { left.now.kind ≡ own_kind }
        requires right { right.now.kind ≡ own_kind }
        ensures { IsTrue result ↔ Contains left.now.content right.now.content }
    {
        left.is_gte(right)
    }

    /// Whether the two are one value.
    fn is_equal(left: &Value, right: &Value) -> bool
        requires left { left.now.kind ≡ own_kind }
        requires right { right.now.kind ≡ own_kind }
        ensures { IsTrue result ↔ (left.now ≡ right.now) }
    {
        left.is_equal(right)
    }

    /// Whether it has nothing.
    fn is_empty(value: &Value) -> bool
        requires { value.now.kind ≡ own_kind }
        ensures { IsTrue result ↔ (value.now.content ≡ nothing) }
    {
        value.is_empty()
    }

    /// The one that both contain, or both handed back where neither contains the other (`NotEnough`).
    fn min(left: Value, right: Value) -> Result<Value, (Value, Value)>
        requires left { left.kind ≡ own_kind }
        requires right { right.kind ≡ own_kind }
        ensures ok { IfOk result (IsLeast left right) }
        ensures back { IfErr result (λ (back, other). (back ≡ left) × (other ≡ right)) }
        ensures not_enough { IsErr result → IsIncomparable left.content right.content }
    {
        left.min(right)
    }

    /// The one that contains both, or both handed back where neither contains the other (`NotEnough`).
    fn max(left: Value, right: Value) -> Result<Value, (Value, Value)>
        requires left { left.kind ≡ own_kind }
        requires right { right.kind ≡ own_kind }
        ensures ok { IfOk result (IsGreatest left right) }
        ensures back { IfErr result (λ (back, other). (back ≡ left) × (other ≡ right)) }
        ensures not_enough { IsErr result → IsIncomparable left.content right.content }
    {
        left.max(right)
    }

    ghost empty_is_value: { is_value nothing };

    ghost add_commutes: { (a b : Content) → is_value a → is_value b → sum a b ≡ sum b a };

    ghost add_associates: { (a b c : Content) → is_value a → is_value b → is_value c → sum (sum a b) c ≡ sum a (sum b c) };

    ghost empty_is_neutral: { (a : Content) → is_value a → sum a nothing ≡ a };

    ghost subtract_undoes_add: { (a b : Content) → is_value a → is_value b → difference (sum a b) b ≡ a };

    ghost gte_is_reflexive: { (a : Content) → is_value a → Contains a a };

    ghost gte_is_antisymmetric: { (a b : Content) → is_value a → is_value b → Contains a b → Contains b a → a ≡ b };

    ghost gte_is_transitive: { (a b c : Content) → is_value a → is_value b → is_value c → Contains a b → Contains b c → Contains a c };
}

/// Whole numbers.
pub struct NatKind;

impl AmountKind for NatKind {
    type Data = i128;

    type MakeFault = BadValue;

    type Fault = TooMuch;

    ghost use Rattle.amount_math.specs.Content.{sum-comm, sum-assoc, sum-nothing, difference-sum, Contains-refl, Contains-trans, Contains-antisym};
    ghost use Rattle.amount_math.specs.ValueView.{IsNat, IsNumber, PassesBound};
    ghost use Rattle.amount_math.specs.NatLaws.{nothing_is_nat};

    ghost own_kind = { Kind.Nat };

    ghost is_value = { IsNat };

    ghost stands_for = { IsNumber };

    ghost wants_memory = { λ _. ⊥ };

    ghost is_refusal = { PassesBound Kind.Nat };

    ghost empty_is_value = { nothing_is_nat };

    ghost add_commutes = { λ a b _ _. sum-comm a b };

    ghost add_associates = { λ a b c _ _ _. sum-assoc a b c };

    ghost empty_is_neutral = { λ a _. sum-nothing a };

    ghost subtract_undoes_add = { λ a b _ _. difference-sum a b };

    ghost gte_is_reflexive = { λ a _. Contains-refl a };

    ghost gte_is_antisymmetric = { λ a b _ _. Contains-antisym a b };

    ghost gte_is_transitive = { λ a b c _ _ _. Contains-trans a b c };

    fn make(from: i128) -> Result<Value, BadValue> {
        match within_bound(from, NAT_BOUND) {
            Some(number) => Ok(Value::nat(number)),
            None => Err(BadValue),
        }
    }

    fn coerce(value: Value) -> Result<Value, Value> {
        match value.kind() {
            Kind::Nat => Ok(value),
            Kind::Set | Kind::Bag => Err(value),
        }
    }

    fn add(mut left: Value, right: Value) -> Result<Value, (Value, Value, TooMuch)> {
        let done = left.put_nat(&right);
        or_both(done, left, right)
    }
}

/// Sets of keys.
pub struct SetKind;

impl AmountKind for SetKind {
    type Data = Vec<Key>;

    type MakeFault = MakeFault;

    type Fault = PutFault;

    ghost use Rattle.amount_math.specs.Content.{sum-comm, sum-assoc, sum-nothing, difference-sum, Contains-refl, Contains-trans, Contains-antisym};
    ghost use Rattle.amount_math.specs.ValueView.{IsPutRefusal, IsSet};
    ghost use Rattle.amount_math.specs.declared.kinds.MakeFault.TheVariants.{NoMemory};
    ghost use Rattle.amount_math.specs.KindData.{IsKeysOf};
    ghost use Rattle.amount_math.specs.KindLaws.{nothing_is_set};

    ghost own_kind = { Kind.Set };

    ghost is_value = { IsSet };

    ghost stands_for = { λ from c. IsKeysOf from.items c };

    ghost wants_memory = { λ fault. fault ≡ NoMemory };

    ghost is_refusal = { IsPutRefusal Kind.Set };

    ghost empty_is_value = { nothing_is_set };

    ghost add_commutes = { λ a b _ _. sum-comm a b };

    ghost add_associates = { λ a b c _ _ _. sum-assoc a b c };

    ghost empty_is_neutral = { λ a _. sum-nothing a };

    ghost subtract_undoes_add = { λ a b _ _. difference-sum a b };

    ghost gte_is_reflexive = { λ a _. Contains-refl a };

    ghost gte_is_antisymmetric = { λ a b _ _. Contains-antisym a b };

    ghost gte_is_transitive = { λ a b c _ _ _. Contains-trans a b c };

    fn make(from: Vec<Key>) -> Result<Value, MakeFault> {
        let Ok(once) = each_once(from) else {
            return Err(MakeFault::NoMemory);
        };
        match Keyed::of(once) {
            Some(keyed) => Ok(Value {
                shape: Shape::Set(keyed),
            }),
            None => Err(MakeFault::BadValue),
        }
    }

    fn coerce(value: Value) -> Result<Value, Value> {
        match value.kind() {
            Kind::Set => Ok(value),
            Kind::Nat | Kind::Bag => Err(value),
        }
    }

    fn add(mut left: Value, mut right: Value) -> Result<Value, (Value, Value, PutFault)> {
        let done = left.put(&mut right);
        or_both(done, left, right)
    }
}

/// Bags: keys with counts.
pub struct BagKind;

impl AmountKind for BagKind {
    type Data = Vec<(Key, i128)>;

    type MakeFault = MakeFault;

    type Fault = PutFault;

    ghost use Rattle.amount_math.specs.Content.{sum-comm, sum-assoc, sum-nothing, difference-sum, Contains-refl, Contains-trans, Contains-antisym};
    ghost use Rattle.amount_math.specs.ValueView.{IsBag, IsPutRefusal};
    ghost use Rattle.amount_math.specs.declared.kinds.MakeFault.TheVariants.{NoMemory};
    ghost use Rattle.amount_math.specs.KindData.{IsPairsOf};
    ghost use Rattle.amount_math.specs.KindLaws.{nothing_is_bag};

    ghost own_kind = { Kind.Bag };

    ghost is_value = { IsBag };

    ghost stands_for = { λ from c. IsPairsOf from.items c };

    ghost wants_memory = { λ fault. fault ≡ NoMemory };

    ghost is_refusal = { IsPutRefusal Kind.Bag };

    ghost empty_is_value = { nothing_is_bag };

    ghost add_commutes = { λ a b _ _. sum-comm a b };

    ghost add_associates = { λ a b c _ _ _. sum-assoc a b c };

    ghost empty_is_neutral = { λ a _. sum-nothing a };

    ghost subtract_undoes_add = { λ a b _ _. difference-sum a b };

    ghost gte_is_reflexive = { λ a _. Contains-refl a };

    ghost gte_is_antisymmetric = { λ a b _ _. Contains-antisym a b };

    ghost gte_is_transitive = { λ a b c _ _ _. Contains-trans a b c };

    fn make(from: Vec<(Key, i128)>) -> Result<Value, MakeFault> {
        let counted = each_counted(from)?;
        match Keyed::of(counted) {
            Some(keyed) => Ok(Value {
                shape: Shape::Bag(keyed),
            }),
            None => Err(MakeFault::BadValue),
        }
    }

    fn coerce(value: Value) -> Result<Value, Value> {
        match value.kind() {
            Kind::Bag => Ok(value),
            Kind::Nat | Kind::Set => Err(value),
        }
    }

    fn add(mut left: Value, mut right: Value) -> Result<Value, (Value, Value, PutFault)> {
        let done = left.put(&mut right);
        or_both(done, left, right)
    }
}
