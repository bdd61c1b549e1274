//! Tests of a value beside another, or beside what is out of its brand.

ghost use Rattle.std.specs.Prelude.{◌≡◌, IsTrue, OnOk};
ghost use Rattle.refusals.specs.amount_math.Content.{Contains, sum};
ghost use Rattle.refusals.specs.amount_math.ValueView.{IsValue};
ghost use Rattle.refusals.specs.Codes.{not_enough};
ghost use Rattle.refusals.specs.Outcomes.{Gives, need};
ghost use Rattle.value_tests.specs.Tests.{has, overlap_free, sum_fits};

use refusals::amount_math_lib::{PutFault, Value};
use refusals::codes::Refusal;
use refusals::stops::{Stop, not_enough};

/// Whether the one has at least what the other has, of each element.
fn has(held: &Value, asked: &Value) -> bool
    requires { held.now.kind ≡ asked.now.kind }
    ensures test { result ≡ has held.now asked.now }
    ensures contains { IsTrue result → Contains held.now.content asked.now.content }
{
    held.is_gte(asked)
}

/// That a value has what is asked: else `NotEnough` with both (ERTP).
#[tactic(auto, unfolding(refusals::specs::Outcomes::need))]
pub fn check_has(held: &Value, asked: &Value) -> Result<(), Stop>
    requires { held.now.kind ≡ asked.now.kind }
    ensures gives { Gives (λ _. tt) result (need (has held.now asked.now) (not_enough held.now asked.now)) }
    ensures contains { OnOk result (Contains held.now.content asked.now.content) }
{
    if has(held, asked) {
        Ok(())
    } else {
        Err(not_enough(held, asked))
    }
}

/// That two sets have no key in common: else `Overlap` with the least (ERTP). Values of another kind pass.
pub fn check_overlap(held: &Value, given: &Value) -> Result<(), Stop>
    requires { held.now.kind ≡ given.now.kind }
    ensures { Gives (λ _. tt) result (overlap_free held.now.kind (sum held.now.content given.now.content)) }
{
    match held.can_absorb(given) {
        Err(PutFault::Overlap(key)) => Err(Stop::Refused(Refusal::Overlap(key))),
        Err(PutFault::NoMemory) => Err(Stop::NoMemory),
        Err(PutFault::TooMuch(_)) => Ok(()),
        Ok(()) => Ok(()),
    }
}

/// That the sum of two values would be one: else `Overlap` with the least common key of two sets, or
/// `TooMuch` with what the sum would have and the bound, counts before the number of keys (ERTP).
pub fn check_sum(held: &Value, given: &Value) -> Result<(), Stop>
    requires { held.now.kind ≡ given.now.kind }
    ensures gives { Gives (λ _. tt) result (sum_fits held.now given.now) }
    ensures value { OnOk result (IsValue held.now.kind (sum held.now.content given.now.content)) }
{
    let _kind = held.kind();
    let _other = given.kind();
    match held.can_absorb(given) {
        Ok(()) => Ok(()),
        Err(fault) => Err(Stop::of_put(fault)),
    }
}
