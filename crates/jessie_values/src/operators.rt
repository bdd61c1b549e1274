//! What operators make of values of the kinds that they take.
ghost use Rattle.std.specs.Prelude.{◌≡◌, ◌+◌, ◌+ℤ◌, ◌≤◌, ◌++◌, ◌↔◌, IfOk, IsTrue, length};
ghost use Rattle.host_data.specs.View.{tree};
ghost use Rattle.jessie_values.specs.Operators.{at_least, at_most, difference_of, equality, greater, has_parts, in_range, in_size, inequality, is_same, less, logical_not, most_bytes, opposite, order_of, product_of, quotient_of, rest_of, sameness, sum_of, truth};
ghost use Rattle.jessie_values.specs.Outcomes.{Gives, seen};

use crate::reasons::{Reason, ValueFault};
use host_data::data::Data;
use host_data::host_text_lib::text::Text;
use std::alloc::{AllocError, Global};
use std::cmp::Ordering;

/// The most bytes that a text may have.
pub const MOST_BYTES: usize = 65_536;

/// The truth value that a condition, or a side of `&&` or `||`, has to be.
pub fn truth(value: &Data) -> Result<bool, Reason>
    ensures { result ≡ truth (tree value.now) }
{
    match value.boolean() {
        Some(truth) => Ok(truth),
        None => Err(Reason::WrongKind),
    }
}

/// `!`
pub fn logical_not(value: &Data) -> Result<Data, Reason>
    ensures { seen tree result ≡ logical_not (tree value.now) }
{
    Ok(Data::Bool(!truth(value)?))
}

/// `-` before a value.
pub fn opposite(value: &Data) -> Result<Data, Reason>
    ensures { seen tree result ≡ opposite (tree value.now) }
{
    let Some(number) = value.number() else {
        return Err(Reason::WrongKind);
    };
    match number.checked_neg() {
        Some(number) => Ok(Data::Number(number)),
        None => Err(Reason::OutOfRange),
    }
}

/// `+`: two numbers, or two texts, of which the second is appended to the first.
pub fn sum_of(alloc: Global, left: Data, right: &Data) -> Result<Data, ValueFault>
    ensures { Gives tree result (sum_of (tree left) (tree right.now)) }
{
    match left {
        Data::Number(a) => match right.number() {
            Some(b) => Ok(number_sum(a, b)?),
            None => Err(ValueFault::BadStep(Reason::WrongKind)),
        },
        Data::Text(text) => match right.text() {
            Some(more) => joint_text(alloc, text, more),
            None => Err(ValueFault::BadStep(Reason::WrongKind)),
        },
        _ => Err(ValueFault::BadStep(Reason::WrongKind)),
    }
}

fn number_sum(a: i128, b: i128) -> Result<Data, Reason>
    ensures { seen tree result ≡ in_range (a +ℤ b) }
{
    match a.checked_add(b) {
        Some(number) => Ok(Data::Number(number)),
        None => Err(Reason::OutOfRange),
    }
}

/// Both texts as one. The length is tested first.
fn joint_text(alloc: Global, text: Text, more: &Text) -> Result<Data, ValueFault>
    ensures { Gives tree result (in_size (text ++ more.now)) }
{
    let Some(room) = MOST_BYTES.checked_sub(text.len()) else {
        return Err(ValueFault::BadStep(Reason::TooLarge));
    };
    if more.len() > room {
        return Err(ValueFault::BadStep(Reason::TooLarge));
    }
    Ok(Data::Text(append(alloc, text, more)?))
}

/// Both texts as one new text, since a text that is made can't be appended to.
fn append(alloc: Global, text: Text, more: &Text) -> Result<Text, AllocError>
    requires { length text + length more.now ≤ most_bytes }
    ensures { IfOk result (λ both. both ≡ text ++ more.now) }
{
    let mut both = String::with_capacity(alloc, text.len() + more.len())?;
    both.push_str(text.as_str())?;
    both.push_str(more.as_str())?;
    Ok(Text::from_string(both))
}

/// `-`
pub fn difference_of(left: &Data, right: &Data) -> Result<Data, Reason>
    ensures { seen tree result ≡ difference_of (tree left.now) (tree right.now) }
{
    let Some(a) = left.number() else {
        return Err(Reason::WrongKind);
    };
    let Some(b) = right.number() else {
        return Err(Reason::WrongKind);
    };
    match a.checked_sub(b) {
        Some(number) => Ok(Data::Number(number)),
        None => Err(Reason::OutOfRange),
    }
}

/// `*`
pub fn product_of(left: &Data, right: &Data) -> Result<Data, Reason>
    ensures { seen tree result ≡ product_of (tree left.now) (tree right.now) }
{
    let Some(a) = left.number() else {
        return Err(Reason::WrongKind);
    };
    let Some(b) = right.number() else {
        return Err(Reason::WrongKind);
    };
    match a.checked_mul(b) {
        Some(number) => Ok(Data::Number(number)),
        None => Err(Reason::OutOfRange),
    }
}

/// `/`, cut towards 0.
pub fn quotient_of(left: &Data, right: &Data) -> Result<Data, Reason>
    ensures { seen tree result ≡ quotient_of (tree left.now) (tree right.now) }
{
    let Some(a) = left.number() else {
        return Err(Reason::WrongKind);
    };
    let Some(b) = right.number() else {
        return Err(Reason::WrongKind);
    };
    if b == 0 {
        return Err(Reason::DivisionByZero);
    }
    match a.checked_div(b) {
        Some(number) => Ok(Data::Number(number)),
        None => Err(Reason::OutOfRange),
    }
}

/// `%`, with the sign of the left side.
pub fn rest_of(left: &Data, right: &Data) -> Result<Data, Reason>
    ensures { seen tree result ≡ rest_of (tree left.now) (tree right.now) }
{
    let Some(a) = left.number() else {
        return Err(Reason::WrongKind);
    };
    let Some(b) = right.number() else {
        return Err(Reason::WrongKind);
    };
    if b == 0 {
        return Err(Reason::DivisionByZero);
    }
    Ok(Data::Number(a.wrapping_rem(b)))
}

/// How two numbers stand to one another, or two texts by their bytes.
pub fn order_of(left: &Data, right: &Data) -> Result<Ordering, Reason>
    ensures { result ≡ order_of (tree left.now) (tree right.now) }
{
    match (left.number(), right.number()) {
        (Some(a), Some(b)) => Ok(a.cmp(&b)),
        _ => match (left.text(), right.text()) {
            (Some(s), Some(t)) => Ok(s.as_str().cmp(t.as_str())),
            _ => Err(Reason::WrongKind),
        },
    }
}

/// `<`
pub fn less(left: &Data, right: &Data) -> Result<Data, Reason>
    ensures { seen tree result ≡ less (tree left.now) (tree right.now) }
{
    Ok(Data::Bool(order_of(left, right)?.is_lt()))
}

/// `<=`
pub fn at_most(left: &Data, right: &Data) -> Result<Data, Reason>
    ensures { seen tree result ≡ at_most (tree left.now) (tree right.now) }
{
    Ok(Data::Bool(order_of(left, right)?.is_le()))
}

/// `>`
pub fn greater(left: &Data, right: &Data) -> Result<Data, Reason>
    ensures { seen tree result ≡ greater (tree left.now) (tree right.now) }
{
    Ok(Data::Bool(order_of(left, right)?.is_gt()))
}

/// `>=`
pub fn at_least(left: &Data, right: &Data) -> Result<Data, Reason>
    ensures { seen tree result ≡ at_least (tree left.now) (tree right.now) }
{
    Ok(Data::Bool(order_of(left, right)?.is_ge()))
}

/// Whether it is an array or a record.
fn has_parts(value: &Data) -> bool
    ensures { result ≡ has_parts (tree value.now) }
{
    match value {
        Data::Array(_) => true,
        Data::Record(_) => true,
        _ => false,
    }
}

/// Whether two values without parts are one.
fn is_same(left: &Data, right: &Data) -> bool
    ensures { result ≡ is_same (tree left.now) (tree right.now) }
{
    match left {
        Data::Null => right.is_null(),
        Data::Bool(a) => match right.boolean() {
            Some(b) => *a == b,
            None => false,
        },
        Data::Number(a) => match right.number() {
            Some(b) => *a == b,
            None => false,
        },
        Data::Text(s) => match right.text() {
            Some(t) => s.is(t),
            None => false,
        },
        Data::Object(o) => match right.object() {
            Some(p) => *o == p,
            None => false,
        },
        Data::Function(f) => match right.function() {
            Some(g) => f.is(g),
            None => false,
        },
        Data::Array(_) => false,
        Data::Record(_) => false,
    }
}

/// Whether two values are one, neither of which may be an array or a record.
fn sameness(left: &Data, right: &Data) -> Result<bool, Reason>
    ensures gives { result ≡ sameness (tree left.now) (tree right.now) }
    ensures one { IfOk result (λ same. IsTrue same ↔ (tree left.now ≡ tree right.now)) }
{
    if has_parts(left) || has_parts(right) {
        return Err(Reason::WrongKind);
    }
    Ok(is_same(left, right))
}

/// `===`
pub fn equality(left: &Data, right: &Data) -> Result<Data, Reason>
    ensures { seen tree result ≡ equality (tree left.now) (tree right.now) }
{
    Ok(Data::Bool(sameness(left, right)?))
}

/// `!==`
pub fn inequality(left: &Data, right: &Data) -> Result<Data, Reason>
    ensures { seen tree result ≡ inequality (tree left.now) (tree right.now) }
{
    Ok(Data::Bool(!sameness(left, right)?))
}
