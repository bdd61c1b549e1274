//! Tests of a whole list of values of one kind, as one sum.

ghost use Rattle.std.specs.Prelude.{◌≡◌, ◌<◌, length, map};
ghost use Rattle.refusals.specs.amount_math.Content.{Content, nothing, sum};
ghost use Rattle.refusals.specs.amount_math.Counted.{counted};
ghost use Rattle.refusals.specs.Outcomes.{Gives};
ghost use Rattle.transit.specs.Transit.{in_store, kind_in, supply_in};
ghost use Rattle.value_tests.specs.Listing.{most_added};
ghost use Rattle.value_tests.specs.Supplies.{listed_supply};
ghost use Rattle.value_tests.specs.Tests.{can_come_out, counts_fit, minted_fits, total_fits};
ghost use Rattle.value_tests.specs.Totals.{total_of};

use crate::past::{check_keys, most, too_many};
use crate::value_totals::Total;
use crate::wide_sums::WideSum;
use refusals::amount_math_lib::{Kind, MINTED_BOUND, Value};
use refusals::codes::Refusal;
use refusals::faults::capped;
use refusals::stops::Stop;
use std::alloc::Global;
use transit::Transit;

/// That no count of a total passes its kind's bound: else `Overlap` with the least key of a set that is
/// there twice, or `TooMuch` with the first count that does and its bound.
#[tactic(auto, unfolding(crate::specs::Tests::counts_fit, refusals::specs::Outcomes::none_such))]
fn check_counts(alloc: Global, kind: Kind, total: &Total) -> Result<(), Stop>
    ensures { Gives (λ _. tt) result (counts_fit kind total.now) }
{
    match total.first_past(most(kind)) {
        Some((element, number)) => Err(too_many(alloc, kind, element, &number)),
        None => Ok(()),
    }
}

/// That the whole sum of values of one kind would be a value: else `Overlap` with the least key that two
/// sets have in common, or `TooMuch` with what the whole sum would have and the bound, counts before the
/// number of keys (ERTP).
#[tactic(auto, unfolding(crate::specs::Tests::value_fits, refusals::specs::Outcomes::bind))]
pub fn check_total(alloc: Global, kind: Kind, values: &[&Value]) -> Result<(), Stop>
    ensures gives { Gives (λ _. tt) result (total_fits kind (map (λ v. v.now) values.now)) }
{
    let total = Total::of(alloc, values)?;
    check_counts(alloc, kind, &total)?;
    check_keys(kind, total.keys())
}

// ---- what comes out of a brand

/// That no count of a total passes its kind's bound beside what is out of a brand: else `Overlap` with the least key
/// of a set that would be out twice, or `TooMuch` with the count that would be out and its bound.
#[tactic(auto, unfolding(crate::specs::Tests::counts_fit, refusals::specs::Outcomes::none_such))]
fn check_counts_out(alloc: Global, supply: &Transit, brand: u16, total: &Total) -> Result<(), Stop>
    requires made { brand < length supply.now.out }
    requires empty { in_store supply.now brand ≡ nothing }
    ensures { Gives (λ _. tt) result (counts_fit (kind_in supply.now brand)
        (sum (supply_in supply.now brand).outstanding.content total.now)) }
{
    let kind = supply.kind(brand);
    match total.first_past_beside(supply, brand, most(kind)) {
        Some((element, number)) => Err(too_many(alloc, kind, element, &number)),
        None => Ok(()),
    }
}

/// What values have together, all elements counted.
fn counted_together(values: &[&Value]) -> WideSum
    ensures counted { result ≡ counted (total_of (map (λ v. v.now) values.now)) }
    ensures small { result < most_added }
{
    let mut together = WideSum::of(0);
    for value in values {
        together.add(value.total());
    }
    together
}

/// That so much more may be minted of a brand: else `TooMuch` with what would be minted in all and the bound.
#[tactic(auto, unfolding(crate::specs::Tests::minted_fits, refusals::specs::Outcomes::need))]
fn check_minted(supply: &Transit, brand: u16, more: &WideSum) -> Result<(), Stop>
    requires made { brand < length supply.now.out }
    requires small { more.now < most_added }
    ensures { (c : Content) → more.now ≡ counted c
        → Gives (λ _. tt) result (minted_fits (supply_in supply.now brand) c) }
{
    let total = more.with(supply.minted(brand));
    if total.passes(MINTED_BOUND) {
        Err(Stop::Refused(Refusal::TooMuch(total.shown(), capped(MINTED_BOUND))))
    } else {
        Ok(())
    }
}

/// That values may come out of a brand together, of which the hand's store has nothing: else `Overlap` with the least
/// key of a set that would be out twice, `TooMuch` with the count that would be out and its bound, or `TooMuch` with
/// what would be minted in all and its bound (ERTP).
#[tactic(auto, unfolding(crate::specs::Tests::can_come_out, refusals::specs::Outcomes::bind))]
pub fn check_all_out(
    alloc: Global,
    supply: &Transit,
    brand: u16,
    values: &[&Value],
) -> Result<(), Stop>
    requires made { brand < length supply.now.out }
    requires empty { in_store supply.now brand ≡ nothing }
    ensures { Gives (λ _. tt) result
        (can_come_out (listed_supply supply.now brand) (total_of (map (λ v. v.now) values.now))) }
{
    let total = Total::of(alloc, values)?;
    check_counts_out(alloc, supply, brand, &total)?;
    check_minted(supply, brand, &counted_together(values))
}
