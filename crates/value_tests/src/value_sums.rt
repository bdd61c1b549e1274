//! The whole sum of a list of values of one kind, as a value. Its one contract: where the test of the
//! whole sum passes, the sum is what the values have together, and nothing is wanted for it but memory;
//! where it fails, that refusal is told.

ghost use Rattle.std.specs.Prelude.{◌≡◌, All, map, IfOk, OnOk};
ghost use Rattle.refusals.specs.amount_math.Content.{sum};
ghost use Rattle.refusals.specs.amount_math.ValueView.{Fits, HasFew, with_content};
ghost use Rattle.value_tests.specs.Totals.{total_of};
ghost use Rattle.refusals.specs.Outcomes.{Gives};
ghost use Rattle.value_tests.specs.Sums.{CanAdd, sum_value, whole_sum};

use crate::wholes::check_total;
use refusals::amount_math_lib::{Kind, PutFault, Value};
use refusals::stops::Stop;
use std::alloc::{AllocError, Global};

/// Adds a value, of which the sum is one.
fn put(whole: &mut Value, part: Value) -> Result<(), AllocError>
    requires kinds { whole.old.kind ≡ part.kind }
    requires can { CanAdd whole.old part }
    ensures { OnOk result (whole.new ≡ with_content whole.old (sum whole.old.content part.content)) }
{
    match whole.absorb(part) {
        Ok(()) => Ok(()),
        Err((_, PutFault::NoMemory)) => Err(AllocError),
        Err((_, PutFault::Overlap(_))) => unreachable!(),
        Err((_, PutFault::TooMuch(_))) => unreachable!(),
    }
}

/// Adds a copy of a value, of which the sum is one.
fn add(whole: &mut Value, value: &Value) -> Result<(), AllocError>
    requires kinds { whole.old.kind ≡ value.now.kind }
    requires can { CanAdd whole.old value.now }
    ensures { OnOk result (whole.new ≡ with_content whole.old (sum whole.old.content value.now.content)) }
{
    put(whole, value.copy()?)
}

/// The sum of values of one kind, of which the whole sum is a value.
fn sum_of(kind: Kind, values: &[&Value]) -> Result<Value, AllocError>
    requires kinds { All (λ v. v.now.kind ≡ kind) values.now }
    requires fits { Fits kind (total_of (map (λ v. v.now) values.now)) }
    requires few { HasFew kind (total_of (map (λ v. v.now) values.now)) }
    ensures { IfOk result (λ whole. whole ≡ sum_value kind (map (λ v. v.now) values.now)) }
{
    let mut whole = Value::empty(kind);
    for value in values {
        add(&mut whole, *value)?;
    }
    Ok(whole)
}

/// The whole sum of values of one kind: else `Overlap` with the least key that two sets have in common, or
/// `TooMuch` with what the whole sum would have and the bound, counts before the number of keys (ERTP).
#[tactic(auto, unfolding(crate::specs::Sums::whole_sum, refusals::specs::Outcomes::bind))]
pub fn whole_sum(alloc: Global, kind: Kind, values: &[&Value]) -> Result<Value, Stop>
    requires { All (λ v. v.now.kind ≡ kind) values.now }
    ensures { Gives (λ whole. whole) result (whole_sum kind (map (λ v. v.now) values.now)) }
{
    check_total(alloc, kind, values)?;
    Ok(sum_of(kind, values)?)
}
