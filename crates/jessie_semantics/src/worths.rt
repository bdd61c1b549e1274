//! What AmountMath makes of two values of one kind.

ghost use Rattle.std.specs.Prelude.{◌≡◌, ◌↔◌, IfOk, IsTrue};
ghost use Rattle.host_data.specs.amount_math.Content.{Contains};
ghost use Rattle.refusals.specs.Codes.{not_enough};
ghost use Rattle.refusals.specs.Outcomes.{Gives};
ghost use Rattle.jessie_semantics.specs.Worths.{difference_in, greatest_in, has, is_nothing, least_in, sum_in, value_of_two};

use crate::amount_arguments::TwoAmounts;
use host_data::amount_math_lib::Value;
use host_data::amount_math_lib::shortfall::Shortfall;
use refusals::codes::Refusal;
use refusals::stops::Stop;

/// What is made of two values.
#[derive(Clone, Copy)]
pub enum Operation {
    Sum,
    Difference,
    Least,
    Greatest,
}

/// The value that the operation makes of two.
pub(crate) fn value_of_two(operation: Operation, two: TwoAmounts) -> Result<Value, Stop>
    requires { two.left.kind ≡ two.right.kind }
    ensures { Gives (λ value. value) result (value_of_two operation two.left two.right) }
{
    let TwoAmounts {
        brand: _,
        left,
        right,
    } = two;
    match operation {
        Operation::Sum => sum_in(left, right),
        Operation::Difference => difference_in(left, right),
        Operation::Least => least_in(left, right),
        Operation::Greatest => greatest_in(left, right),
    }
}

/// Whether the value has nothing.
pub(crate) fn is_nothing(value: &Value) -> bool
    ensures { result ≡ is_nothing value.now.content }
{
    value.is_empty()
}

/// Whether the left has at least what the right has, of each element.
pub(crate) fn has(left: &Value, right: &Value) -> bool
    requires { left.now.kind ≡ right.now.kind }
    ensures test { result ≡ has left.now right.now }
    ensures contains { IsTrue result → Contains left.now.content right.now.content }
{
    left.is_gte(right)
}

/// That neither value is enough, with both.
fn not_enough(held: Value, asked: Value) -> Stop
    ensures { result ≡ Stop.Refused (not_enough held asked) }
{
    Stop::Refused(Refusal::NotEnough(Shortfall { held, asked }))
}

/// The sum.
fn sum_in(mut left: Value, right: Value) -> Result<Value, Stop>
    requires { left.kind ≡ right.kind }
    ensures { Gives (λ sum. sum) result (sum_in left right) }
{
    let _kind = left.kind();
    let _other = right.kind();
    match left.absorb(right) {
        Ok(()) => Ok(left),
        Err((_, fault)) => Err(Stop::of_put(fault)),
    }
}

/// The left less the right.
fn difference_in(mut left: Value, right: Value) -> Result<Value, Stop>
    requires { left.kind ≡ right.kind }
    ensures { Gives (λ rest. rest) result (difference_in left right) }
{
    if !has(&left, &right) {
        return Err(not_enough(left, right));
    }
    left.lessen(&right);
    Ok(left)
}

/// The one of the two that the other has.
fn least_in(left: Value, right: Value) -> Result<Value, Stop>
    requires { left.kind ≡ right.kind }
    ensures { Gives (λ least. least) result (least_in left right) }
{
    if has(&right, &left) {
        Ok(left)
    } else if has(&left, &right) {
        Ok(right)
    } else {
        Err(not_enough(left, right))
    }
}

/// The one of the two that has the other.
fn greatest_in(left: Value, right: Value) -> Result<Value, Stop>
    requires { left.kind ≡ right.kind }
    ensures { Gives (λ greatest. greatest) result (greatest_in left right) }
{
    if has(&left, &right) {
        Ok(left)
    } else if has(&right, &left) {
        Ok(right)
    } else {
        Err(not_enough(left, right))
    }
}
