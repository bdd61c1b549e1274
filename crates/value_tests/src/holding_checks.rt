//! Tests of what stores hold, each with the refusal that a call shows where it fails: that a holding
//! has what is asked, that its sum with a value would be a value, that a value may come out of its
//! brand beside what is out of it. Its one contract: each test fails exactly where the definition of
//! the test of values does, and shows what that says. Nothing is copied but what a refusal shows.

ghost use Rattle.std.specs.Prelude.{◌≡◌, ◌<◌, true, length, OnOk};
ghost use Rattle.refusals.specs.amount_math.Content.{Contains, nothing, sum};
ghost use Rattle.refusals.specs.amount_math.ValueView.{IsValue};
ghost use Rattle.refusals.specs.Codes.{not_enough};
ghost use Rattle.refusals.specs.Outcomes.{Gives, Refuses, need};
ghost use Rattle.transit.specs.Transit.{in_store};
ghost use Rattle.transit.specs.ertp_mint.BrandSupply.{MayIssue};
ghost use Rattle.value_tests.specs.Tests.{can_come_out, has, sum_fits};
ghost use Rattle.value_tests.specs.Supplies.{listed_supply};

use refusals::amount_math_lib::{Holding, Value};
use refusals::stops::{Stop, not_enough};
use transit::Transit;

/// Whether a holding has at least what the value has, of each element.
pub fn has(held: &Holding, asked: &Value) -> bool
    requires { held.now.value.kind ≡ asked.now.kind }
    ensures test { result ≡ has held.now.value asked.now }
    ensures contains { result ≡ true → Contains held.now.value.content asked.now.content }
{
    held.is_gte(asked)
}

/// What a holding has is less than what is asked. The keys of values take memory.
fn lacks(held: &Holding, asked: &Value) -> Stop
    requires { IsValue held.now.value.kind held.now.value.content }
    ensures { Refuses result (not_enough held.now.value asked.now) }
{
    match held.copy() {
        Ok(held) => not_enough(&held, asked),
        Err(_) => Stop::NoMemory,
    }
}

/// That a holding has what is asked: else `NotEnough` with both (ERTP).
#[tactic(auto, unfolding(refusals::specs::Outcomes::need))]
pub fn check_has(held: &Holding, asked: &Value) -> Result<(), Stop>
    requires value { IsValue held.now.value.kind held.now.value.content }
    requires kind { held.now.value.kind ≡ asked.now.kind }
    ensures gives { Gives (λ _. tt) result
        (need (has held.now.value asked.now) (not_enough held.now.value asked.now)) }
    ensures contains { OnOk result (Contains held.now.value.content asked.now.content) }
{
    if has(held, asked) {
        Ok(())
    } else {
        Err(lacks(held, asked))
    }
}

/// That the sum of what is held and a value would be a value: else `Overlap` with the least common key of two
/// sets, or `TooMuch` with what the sum would have and the bound, counts before the number of keys (ERTP).
pub fn check_sum(held: &Holding, given: &Value) -> Result<(), Stop>
    requires value { IsValue held.now.value.kind held.now.value.content }
    requires kind { held.now.value.kind ≡ given.now.kind }
    ensures gives { Gives (λ _. tt) result (sum_fits held.now.value given.now) }
    ensures value { OnOk result
        (IsValue held.now.value.kind (sum held.now.value.content given.now.content)) }
{
    let _other = given.kind();
    match held.can_absorb(given) {
        Ok(()) => Ok(()),
        Err(fault) => Err(Stop::of_put(fault)),
    }
}

/// That a value may come out of its brand beside what is out of it, where the hand's store has nothing of the
/// brand: else `Overlap` with the least key of a set that is out already, `TooMuch` with the count that would be
/// out and its bound, or `TooMuch` with what would be minted in all and its bound (ERTP).
pub fn check_out(supply: &Transit, brand: u16, given: &Value) -> Result<(), Stop>
    requires made { brand < length supply.now.out }
    requires kind { (listed_supply supply.now brand).outstanding.kind ≡ given.now.kind }
    requires empty { in_store supply.now brand ≡ nothing }
    ensures gives { Gives (λ _. tt) result
        (can_come_out (listed_supply supply.now brand) given.now.content) }
    ensures may { OnOk result (MayIssue (listed_supply supply.now brand) given.now) }
{
    match supply.can_issue(brand, given) {
        Ok(()) => Ok(()),
        Err(fault) => Err(Stop::of_put(fault)),
    }
}
