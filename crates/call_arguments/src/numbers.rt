//! Lists of numbers of objects, as of payments.

ghost use Rattle.std.specs.Prelude.{◌≡◌, ℕ, Bool, true, All, Some, IfErr, IfOk, OnOk};
ghost use Rattle.refusals.specs.Codes.{dead_payment, repeated_payment, wrong_brand};
ghost use Rattle.refusals.specs.Outcomes.{Gives, none_such};
ghost use Rattle.call_arguments.specs.Arguments.{IsRefusal};
ghost use Rattle.call_arguments.specs.Numbers.{AreApart, first_repeated, least, least_failing, least_of};

use refusals::codes::NumberCode;
use refusals::stops::Stop;
use std::alloc::{AllocError, Global};
use std::collections::BTreeSet;

/// A test of objects by their numbers, as whether a payment is live.
pub trait NumberTest {
    /// The numbers that may be tested: of objects that were made.
    ghost may_test: { Self → ℕ → Type 0 };

    ghost does_pass: { Self → ℕ → Bool };

    /// Whether the object of the number passes.
    fn passes(&self, number: u32) -> bool
        requires { may_test self.now number }
        ensures { result ≡ does_pass self.now number };
}

/// The lesser of a number, where there is one, and another.
fn lesser(number: Option<u32>, other: u32) -> Option<u32>
    ensures { result ≡ least_of number (Some other) }
{
    match number {
        Some(number) => Some(number.min(other)),
        None => Some(other),
    }
}

/// The least number that fails the test.
#[tactic(auto, using(crate::proofs::ArgumentLists::least_of_three), unfolding(crate::specs::Numbers::least_failing))]
pub fn least_failing<T: NumberTest>(test: &T, numbers: &[u32]) -> Option<u32>
    requires { All (T.may_test test.now) numbers.now }
    ensures { result ≡ least_failing (T.does_pass test.now) numbers.now }
{
    let mut least = None;
    for number in numbers {
        if !test.passes(*number) {
            least = lesser(least, *number);
        }
    }
    least
}

/// The first that stands before it already. The numbers before it are kept in a set.
#[tactic(auto, unfolding(crate::specs::Numbers::first_repeated))]
pub fn first_repeated(alloc: Global, numbers: &[u32]) -> Result<Option<u32>, AllocError>
    ensures { IfOk result (λ first. first ≡ first_repeated numbers.now) }
{
    let mut seen = BTreeSet::new(alloc);
    for number in numbers {
        if !seen.insert(*number)? {
            return Ok(Some(*number));
        }
    }
    Ok(None)
}

/// That no payment stands twice: else `RepeatedPayment` with the first that does (ERTP).
#[tactic(auto, using(crate::proofs::ArgumentLists::apart), unfolding(refusals::specs::Outcomes::none_such))]
pub fn check_apart(alloc: Global, payments: &[u32]) -> Result<(), Stop>
    ensures gives { Gives (λ _. tt) result (none_such (first_repeated payments.now) repeated_payment) }
    ensures apart { OnOk result (AreApart payments.now) }
{
    match first_repeated(alloc, payments)? {
        Some(payment) => Err(Stop::numbered(NumberCode::RepeatedPayment, payment)),
        None => Ok(()),
    }
}

/// The least of numbers.
#[tactic(auto, using(crate::proofs::ArgumentLists::least_of_three))]
pub fn least(numbers: &[u32]) -> Option<u32>
    ensures { result ≡ least numbers.now }
{
    let mut least = None;
    for number in numbers {
        least = lesser(least, *number);
    }
    least
}

/// That each payment is live: else `DeadPayment` with the least that isn't (ERTP).
#[tactic(auto, using(crate::proofs::ArgumentLists::all_passed), unfolding(refusals::specs::Outcomes::none_such))]
pub fn check_live<T: NumberTest>(live: &T, payments: &[u32]) -> Result<(), Stop>
    requires { All (T.may_test live.now) payments.now }
    ensures gives { Gives (λ _. tt) result (none_such (least_failing (T.does_pass live.now) payments.now) dead_payment) }
    ensures told { IfErr result IsRefusal }
    ensures live { OnOk result (All (λ n. T.does_pass live.now n ≡ true) payments.now) }
{
    match least_failing(live, payments) {
        Some(payment) => Err(Stop::numbered(NumberCode::DeadPayment, payment)),
        None => Ok(()),
    }
}

/// That each brand is known: else `WrongBrand` with the least that isn't (ERTP, Zoe).
#[tactic(auto, using(crate::proofs::ArgumentLists::all_passed), unfolding(refusals::specs::Outcomes::none_such))]
pub fn check_brands<T: NumberTest>(known: &T, brands: &[u32]) -> Result<(), Stop>
    requires { All (T.may_test known.now) brands.now }
    ensures gives { Gives (λ _. tt) result (none_such (least_failing (T.does_pass known.now) brands.now) wrong_brand) }
    ensures told { IfErr result IsRefusal }
    ensures known { OnOk result (All (λ n. T.does_pass known.now n ≡ true) brands.now) }
{
    match least_failing(known, brands) {
        Some(brand) => Err(Stop::numbered(NumberCode::WrongBrand, brand)),
        None => Ok(()),
    }
}
