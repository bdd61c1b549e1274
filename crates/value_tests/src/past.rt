//! What a call is refused for where a total passes a bound.

ghost use Rattle.std.specs.Prelude.{◌≡◌};
ghost use Rattle.refusals.specs.amount_math.Content.{Content, count};
ghost use Rattle.refusals.specs.amount_math.ValueView.{bound, keys_of};
ghost use Rattle.refusals.specs.Outcomes.{Gives, Refuses};
ghost use Rattle.refusals.specs.declared.codes.Refusal.TheVariants as refusals;
ghost use Rattle.value_tests.specs.Tests.{has_few, keys_fit, past_refusal};

use crate::wide_sums::WideSum;
use refusals::amount_math_lib::{COUNT_BOUND, Key, Kind, NAT_BOUND};
use refusals::codes::Refusal;
use refusals::faults::capped;
use refusals::stops::Stop;
use std::alloc::Global;

/// The most keys of a set or a bag (own).
const MOST_KEYS: usize = 4096;

/// How many of an element a value of the kind may have.
pub(crate) fn most(kind: Kind) -> u128
    ensures { result ≡ bound kind }
{
    match kind {
        Kind::Nat => NAT_BOUND,
        Kind::Set => 1,
        Kind::Bag => u128::from(COUNT_BOUND),
    }
}

/// A key of a set is there twice, which takes memory.
fn overlap(alloc: Global, element: &str) -> Stop
    ensures { Refuses result (refusals.Overlap element.now) }
{
    match String::from_str(alloc, element) {
        Ok(text) => Stop::Refused(Refusal::Overlap(Key::new(text))),
        Err(_) => Stop::NoMemory,
    }
}

/// There are too many of an element.
pub(crate) fn too_many(alloc: Global, kind: Kind, element: &str, number: &WideSum) -> Stop
    ensures { (c : Content) → number.now ≡ count c element.now
        → Refuses result (past_refusal kind c element.now) }
{
    match kind {
        Kind::Nat | Kind::Bag => {
            Stop::Refused(Refusal::TooMuch(number.shown(), capped(most(kind))))
        }
        Kind::Set => overlap(alloc, element),
    }
}

/// That a set or a bag has no more keys than it may have: else `TooMuch` with their number and its bound.
#[tactic(auto, unfolding(refusals::specs::Outcomes::need))]
pub(crate) fn check_keys(kind: Kind, keys: usize) -> Result<(), Stop>
    ensures { (c : Content) → keys ≡ keys_of c → Gives (λ _. tt) result (keys_fit kind c (has_few kind c)) }
{
    let is_keyed = match kind {
        Kind::Nat => false,
        Kind::Set | Kind::Bag => true,
    };
    if is_keyed && keys > MOST_KEYS {
        let sum = capped(keys as u128);
        Err(Stop::Refused(Refusal::TooMuch(sum, capped(MOST_KEYS as u128))))
    } else {
        Ok(())
    }
}
