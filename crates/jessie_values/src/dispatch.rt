//! Operators as the syntax names them.

ghost use Rattle.std.specs.Prelude.{◌≡◌, ◌≢◌};
ghost use Rattle.host_data.specs.View.{tree};
ghost use Rattle.jessie_values.specs.Dispatch.{operate, right_side, skips, unary};
ghost use Rattle.jessie_values.specs.Outcomes.{Gives, seen};

use crate::operators::{
    at_least, at_most, difference_of, equality, greater, inequality, less, logical_not, opposite,
    product_of, quotient_of, rest_of, sum_of, truth,
};
use crate::reasons::{Reason, ValueFault};
use host_data::data::Data;
use jessie_grammar::syntax::{Operator, Unary};
use std::alloc::Global;

/// What an operator before a value makes of it.
pub fn unary(operator: Unary, value: &Data) -> Result<Data, Reason>
    ensures { seen tree result ≡ unary operator (tree value.now) }
{
    match operator {
        Unary::Not => logical_not(value),
        Unary::Negate => opposite(value),
    }
}

/// Whether the left side alone decides: of `||` and `&&` it may.
pub fn skips(operator: Operator, left: &Data) -> Result<bool, Reason>
    ensures { result ≡ skips operator (tree left.now) }
{
    match operator {
        Operator::Or => truth(left),
        Operator::And => Ok(!truth(left)?),
        _ => Ok(false),
    }
}

/// What an operator between two values makes of them; of `||` and `&&` where the left side doesn't
/// decide.
pub fn operate(
    alloc: Global,
    operator: Operator,
    left: Data,
    right: &Data,
) -> Result<Data, ValueFault>
    ensures { Gives tree result (operate operator (tree left) (tree right.now)) }
{
    match operator {
        Operator::Add => sum_of(alloc, left, right),
        _ => {
            let made = operate_on(operator, &left, right);
            let_go(left);
            Ok(made?)
        }
    }
}

fn let_go<T: Drop>(_value: T) {}

/// The right side of `||` or `&&`, which has to be a truth value.
fn right_side(value: &Data) -> Result<Data, Reason>
    ensures { seen tree result ≡ right_side (tree value.now) }
{
    Ok(Data::Bool(truth(value)?))
}

/// `operate` of all but `+`.
fn operate_on(operator: Operator, left: &Data, right: &Data) -> Result<Data, Reason>
    requires { operator ≢ Operator.Add }
    ensures { seen tree result ≡ operate operator (tree left.now) (tree right.now) }
{
    match operator {
        Operator::Or | Operator::And => right_side(right),
        Operator::Equal => equality(left, right),
        Operator::Unequal => inequality(left, right),
        Operator::Less => less(left, right),
        Operator::AtMost => at_most(left, right),
        Operator::Greater => greater(left, right),
        Operator::AtLeast => at_least(left, right),
        Operator::Subtract => difference_of(left, right),
        Operator::Multiply => product_of(left, right),
        Operator::Divide => quotient_of(left, right),
        Operator::Remainder => rest_of(left, right),
        Operator::Add => unreachable!(),
    }
}
