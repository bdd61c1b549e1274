//! Amounts that a call is given (ERTP).

ghost use Rattle.std.specs.Prelude.{◌≡◌, IfOk};
ghost use Rattle.refusals.specs.host_data.View.{tree};
ghost use Rattle.refusals.specs.host_data.Amounts.{IsValueOf, amount_data, amount_fields, seen, value_in};
ghost use Rattle.refusals.specs.Codes.{bad_args, bad_value, wrong_amount};
ghost use Rattle.refusals.specs.Outcomes.{Gives, need, wanted};
ghost use Rattle.call_arguments.specs.Amounts.{amount_in, held_in, is_same};

use crate::places::is_missing;
use refusals::amount_math_lib::{Kind, Value};
use refusals::codes::NumberCode;
use refusals::host_data_lib::amounts::{GivenAmount, amount_fields, read_value};
use refusals::host_data_lib::data::Data;
use refusals::stops::{Stop, wrong_amount};
use std::alloc::Global;

/// A value of the kind (ERTP): else `BadValue`. A number from 0 to 2^120 - 1, an array of texts, or an array
/// of pairs of a text and a count from 1 to 2^63 - 1; texts in any order, none twice, each of 1 to 64 bytes,
/// at most 4,096 (own).
#[tactic(auto, unfolding(refusals::specs::Outcomes::wanted))]
pub fn value(alloc: Global, kind: Kind, given: &Data) -> Result<Value, Stop>
    ensures gives { Gives (λ value. value) result (wanted (value_in kind (tree given.now)) bad_value) }
    ensures own { IfOk result (IsValueOf kind) }
{
    Ok(read_value(alloc, kind, given)?)
}

/// What stands in an amount: else `BadArgs` with the place.
#[tactic(auto, unfolding(refusals::specs::Outcomes::wanted))]
fn fields(place: u32, given: Option<&Data>) -> Result<GivenAmount<'_>, Stop>
    ensures { Gives amount_data result (wanted (amount_fields (seen given.entry)) (bad_args place)) }
{
    let Some(given) = given else {
        return Err(Stop::numbered(NumberCode::BadArgs, place));
    };
    match amount_fields(given) {
        Some(amount) => Ok(amount),
        None => Err(Stop::numbered(NumberCode::BadArgs, place)),
    }
}

/// An amount of the brand, of which the values are of the kind (ERTP): `BadArgs` with the place where it is
/// no record of exactly brand and value, `WrongBrand` with the brand that is named, `BadValue`.
#[tactic(auto, unfolding(crate::specs::Amounts::amount_in, refusals::specs::Outcomes::bind, refusals::specs::Outcomes::need))]
pub fn amount(
    alloc: Global,
    brand: u16,
    kind: Kind,
    place: u32,
    given: Option<&Data>,
) -> Result<Value, Stop>
    ensures gives { Gives (λ value. value) result (amount_in brand kind place (seen given.entry)) }
    ensures own { IfOk result (IsValueOf kind) }
{
    let amount = fields(place, given)?;
    if amount.brand != u32::from(brand) {
        return Err(Stop::numbered(NumberCode::WrongBrand, amount.brand));
    }
    value(alloc, kind, amount.value)
}

/// Whether two values of one kind are one.
#[tactic(auto, unfolding(crate::specs::Amounts::is_same))]
fn is_same(held: &Value, named: &Value) -> bool
    requires { held.now.kind ≡ named.now.kind }
    ensures { result ≡ is_same held.now named.now }
{
    held.is_equal(named)
}

/// Null, or the amount that is held (ERTP): else the refusals of an amount, then `WrongAmount` with what is
/// held and what is named (own).
#[tactic(auto, unfolding(crate::specs::Amounts::held_in, refusals::specs::Outcomes::bind, refusals::specs::Outcomes::need))]
pub fn check_held(
    alloc: Global,
    brand: u16,
    held: &Value,
    place: u32,
    given: Option<&Data>,
) -> Result<(), Stop>
    ensures { Gives (λ _. tt) result (held_in brand held.now place (seen given.entry)) }
{
    if is_missing(given) {
        return Ok(());
    }
    let named = amount(alloc, brand, held.kind(), place, given)?;
    check_same(held, &named)
}

/// That a value is the one that is named for it: else `WrongAmount` with both (own).
#[tactic(auto, unfolding(refusals::specs::Outcomes::need))]
pub fn check_same(held: &Value, named: &Value) -> Result<(), Stop>
    requires { held.now.kind ≡ named.now.kind }
    ensures { Gives (λ _. tt) result (need (is_same held.now named.now) (wrong_amount held.now named.now)) }
{
    if is_same(held, named) {
        Ok(())
    } else {
        Err(wrong_amount(held, named))
    }
}
