//! Lists that a call is given: amounts of one brand, and objects of one kind by their numbers.

ghost use Rattle.std.specs.Prelude.{◌≡◌, ◌<◌, ◌^◌, All, IfOk, Some, length, map};
ghost use Rattle.refusals.specs.host_data.View.{tree, trees};
ghost use Rattle.refusals.specs.host_data.Amounts.{amount_data};
ghost use Rattle.refusals.specs.Outcomes.{Gives};
ghost use Rattle.call_arguments.specs.Arguments.{IsMade};
ghost use Rattle.call_arguments.specs.Numbers.{least_of};
ghost use Rattle.call_arguments.specs.Lists.{amounts_listed, brand_values, each_object, least_other, listed_in, objects_in};

use crate::amounts::value;
use crate::places::object_in;
use refusals::amount_math_lib::{Kind, Value};
use refusals::codes::NumberCode;
use refusals::host_data_lib::amounts::{GivenAmount, amount_fields};
use refusals::host_data_lib::data::{Data, ObjKind};
use refusals::stops::Stop;
use std::alloc::Global;

// ---- amounts

/// The amounts in an array: else `BadArgs` with the place.
#[tactic(auto, unfolding(crate::specs::Lists::listed_in, refusals::specs::Outcomes::wanted))]
pub fn amounts(alloc: Global, place: u32, items: &[Data]) -> Result<Vec<GivenAmount<'_>>, Stop>
    ensures { Gives (λ amounts. map amount_data amounts.items) result (listed_in place (trees items.now)) }
{
    let mut amounts = Vec::new(alloc);
    for item in items {
        let Some(amount) = amount_fields(item) else {
            return Err(Stop::numbered(NumberCode::BadArgs, place));
        };
        amounts.push(amount)?;
    }
    Ok(amounts)
}

/// The lesser of a number, where there is one, and another.
fn lesser(number: Option<u32>, other: u32) -> Option<u32>
    ensures { result ≡ least_of number (Some other) }
{
    match number {
        Some(number) => Some(number.min(other)),
        None => Some(other),
    }
}

/// The least number of a brand that amounts name and that is another one.
#[tactic(auto, using(crate::proofs::ArgumentLists::least_of_three), unfolding(crate::specs::Numbers::least_failing))]
fn least_other(brand: u32, amounts: &[GivenAmount]) -> Option<u32>
    ensures { result ≡ least_other brand (map amount_data amounts.now) }
{
    let mut least = None;
    for amount in amounts {
        if amount.brand != brand {
            least = lesser(least, amount.brand);
        }
    }
    least
}

/// The values of amounts, of the kind: else `BadValue`.
#[tactic(auto, unfolding(crate::specs::Lists::brand_values, refusals::specs::Outcomes::wanted))]
fn values(alloc: Global, kind: Kind, amounts: &[GivenAmount]) -> Result<Vec<Value>, Stop>
    ensures { Gives (λ values. values.items) result (brand_values kind (map amount_data amounts.now)) }
{
    let mut values = Vec::with_capacity(alloc, amounts.len())?;
    for amount in amounts {
        values.push_reserved(value(alloc, kind, amount.value)?);
    }
    Ok(values)
}

/// The values of an array of amounts of the brand, of which the values are of the kind (ERTP): `BadArgs`
/// with the place where an item is no amount, `WrongBrand` with the least other brand, `BadValue`.
#[tactic(auto, unfolding(crate::specs::Lists::amounts_listed, refusals::specs::Outcomes::bind, refusals::specs::Outcomes::none_such))]
pub fn amounts_of(
    alloc: Global,
    brand: u16,
    kind: Kind,
    place: u32,
    items: &[Data],
) -> Result<Vec<Value>, Stop>
    ensures { Gives (λ values. values.items) result (amounts_listed brand kind place (trees items.now)) }
{
    let amounts = amounts(alloc, place, items)?;
    if let Some(other) = least_other(u32::from(brand), amounts.as_slice()) {
        return Err(Stop::numbered(NumberCode::WrongBrand, other));
    }
    values(alloc, kind, amounts.as_slice())
}

// ---- objects

/// The objects of one kind in an array, by their numbers, of which so many were made: else `WrongObject` with
/// the place.
#[tactic(auto, unfolding(crate::specs::Lists::objects_in, refusals::specs::Outcomes::wanted))]
pub fn objects_in(
    alloc: Global,
    kind: ObjKind,
    made: u32,
    place: u32,
    items: &[Data],
) -> Result<Vec<u32>, Stop>
    requires { All (λ d. IsMade kind made (tree d)) items.now }
    ensures gives { Gives (λ numbers. numbers.items) result (objects_in kind place (trees items.now)) }
    ensures made { IfOk result (λ numbers. All (λ n. n < made) numbers.items) }
{
    let mut numbers = Vec::new(alloc);
    for item in items {
        let Some(number) = object_in(kind, item) else {
            return Err(Stop::numbered(NumberCode::WrongObject, place));
        };
        prove!(number < made);
        numbers.push(number)?;
    }
    Ok(numbers)
}

/// Arguments that are each an object of one kind, by their numbers, of which so many were made: else
/// `WrongObject` with the place of the first that isn't, from 1.
#[tactic(auto, unfolding(refusals::specs::Outcomes::wanted, refusals::specs::Outcomes::bind))]
pub fn each_object(alloc: Global, kind: ObjKind, made: u32, args: &[Data]) -> Result<Vec<u32>, Stop>
    requires known { All (λ d. IsMade kind made (tree d)) args.now }
    requires places { length args.now < 2 ^ 32 }
    ensures gives { Gives (λ numbers. numbers.items) result (each_object kind 1 (trees args.now)) }
    ensures made { IfOk result (λ numbers. All (λ n. n < made) numbers.items) }
{
    let mut numbers = Vec::new(alloc);
    for (i, arg) in args.iter().enumerate() {
        let Some(number) = object_in(kind, arg) else {
            return Err(Stop::numbered(NumberCode::WrongObject, i as u32 + 1));
        };
        prove!(number < made);
        numbers.push(number)?;
    }
    Ok(numbers)
}
