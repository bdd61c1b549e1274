//! The functions of AmountMath, by their names.

ghost use Rattle.std.specs.Prelude.{◌≡◌, Err, IfOk, Ok, OnErr};
ghost use Rattle.host_data.specs.Tree.{null};
ghost use Rattle.host_data.specs.View.{tree, trees};
ghost use Rattle.jessie_semantics.specs.AmountMath.{amount_call, answer, argument, coerced, containment, emptied, emptiness, equality, function_named, made, made_empty, shown, value_of, worked};
ghost use Rattle.refusals.specs.Outcomes.{Gives};
ghost use Rattle.jessie_semantics.specs.Worths.{value_of_two};

use crate::amount_arguments::{
    amount_of_brand, amount_of_value, given_amount, two_amounts, wanted_brand,
};
use crate::worths::{Operation, has, is_nothing, value_of_two};
use host_data::amount_math_lib::Value;
use host_data::data::{Data, ObjKind};
use host_data::values::{object_data, put, value_data};
use refusals::codes::TextCode;
use refusals::stops::Stop;
use std::alloc::{AllocError, Global};

/// A function of AmountMath.
#[derive(Clone, Copy, PartialEq, Eq)]
pub enum AmountFunction {
    Make,
    MakeEmpty,
    MakeEmptyFromAmount,
    IsEmpty,
    IsGte,
    IsEqual,
    Add,
    Subtract,
    Min,
    Max,
    Coerce,
    GetValue,
}

/// The function of that name.
fn function_named(name: &str) -> Option<AmountFunction>
    ensures { result ≡ function_named name.now }
{
    match name {
        "make" => Some(AmountFunction::Make),
        "makeEmpty" => Some(AmountFunction::MakeEmpty),
        "makeEmptyFromAmount" => Some(AmountFunction::MakeEmptyFromAmount),
        "isEmpty" => Some(AmountFunction::IsEmpty),
        "isGTE" => Some(AmountFunction::IsGte),
        "isEqual" => Some(AmountFunction::IsEqual),
        "add" => Some(AmountFunction::Add),
        "subtract" => Some(AmountFunction::Subtract),
        "min" => Some(AmountFunction::Min),
        "max" => Some(AmountFunction::Max),
        "coerce" => Some(AmountFunction::Coerce),
        "getValue" => Some(AmountFunction::GetValue),
        _ => None,
    }
}

/// `AmountMath.name(arguments)`. `NoMethod` for another name; else, in this order, `BadArgs` with the place
/// of what is no brand or amount, `WrongBrand` with the brand of the second amount, `BadValue`, and then
/// what the kind of the values refuses: `Overlap`, `TooMuch`, `NotEnough`. Values are shown in byte order.
#[tactic(auto, unfolding(crate::specs::AmountMath::amount_call))]
pub fn call_amount_math(alloc: Global, name: &str, args: &[Data]) -> Result<Data, Stop>
    ensures { Gives tree result (amount_call name.now (trees args.now)) }
{
    let null = Data::Null;
    match function_named(name) {
        Some(function) => answer(
            alloc,
            function,
            argument(args, 0, &null),
            argument(args, 1, &null),
        ),
        None => Err(Stop::worded(alloc, TextCode::NoMethod, name)),
    }
}

/// An argument, null where it is missing.
fn argument<'a>(args: &'a [Data], place: usize, missing: &'a Data) -> &'a Data
    requires { tree missing.now ≡ null }
    ensures { tree result.now ≡ argument place (trees args.now) }
{
    if place < args.len() {
        &args[place]
    } else {
        missing
    }
}

/// What a function answers.
fn answer(
    alloc: Global,
    function: AmountFunction,
    first: &Data,
    second: &Data,
) -> Result<Data, Stop>
    ensures { Gives tree result (answer function (tree first.now) (tree second.now)) }
{
    match function {
        AmountFunction::Make => make(alloc, first, second),
        AmountFunction::MakeEmpty => make_empty(alloc, first),
        AmountFunction::MakeEmptyFromAmount => make_empty_from(alloc, first),
        AmountFunction::IsEmpty => emptiness(alloc, first),
        AmountFunction::IsGte => containment(alloc, first, second),
        AmountFunction::IsEqual => equality(alloc, first, second),
        AmountFunction::Add => amount_of_two(alloc, Operation::Sum, first, second),
        AmountFunction::Subtract => amount_of_two(alloc, Operation::Difference, first, second),
        AmountFunction::Min => amount_of_two(alloc, Operation::Least, first, second),
        AmountFunction::Max => amount_of_two(alloc, Operation::Greatest, first, second),
        AmountFunction::Coerce => coerce(alloc, first, second),
        AmountFunction::GetValue => value_of(alloc, first, second),
    }
}

/// What was made, unless memory ran out.
fn or_no_memory(made: Result<Data, AllocError>) -> Result<Data, Stop>
    ensures ok { IfOk made (λ value. result ≡ Ok value) }
    ensures err { OnErr made (result ≡ Err Stop.NoMemory) }
{
    match made {
        Ok(value) => Ok(value),
        Err(_) => Err(Stop::NoMemory),
    }
}

/// An amount, as data.
#[tactic(auto, unfolding(host_data::specs::Values::amount_tree))]
fn amount_data(alloc: Global, brand: u32, value: &Value) -> Result<Data, AllocError>
    ensures { IfOk result (λ made. tree made ≡ shown brand value.now) }
{
    let named = object_data(ObjKind::Brand(value.kind()), brand);
    let mut fields = Vec::new(alloc);
    put(alloc, &mut fields, "brand", named)?;
    put(alloc, &mut fields, "value", value_data(alloc, value)?)?;
    Ok(Data::Record(fields))
}

#[tactic(auto, unfolding(refusals::specs::Outcomes::bind))]
fn make(alloc: Global, brand: &Data, value: &Data) -> Result<Data, Stop>
    ensures { Gives tree result (made (tree brand.now) (tree value.now)) }
{
    let amount = amount_of_value(alloc, brand, value)?;
    or_no_memory(amount_data(alloc, amount.brand, &amount.value))
}

#[tactic(auto, unfolding(refusals::specs::Outcomes::bind))]
fn make_empty(alloc: Global, brand: &Data) -> Result<Data, Stop>
    ensures { Gives tree result (made_empty (tree brand.now)) }
{
    let own = wanted_brand(brand)?;
    or_no_memory(amount_data(alloc, own.number, &Value::empty(own.kind)))
}

#[tactic(auto, unfolding(refusals::specs::Outcomes::bind))]
fn make_empty_from(alloc: Global, given: &Data) -> Result<Data, Stop>
    ensures { Gives tree result (emptied (tree given.now)) }
{
    let amount = given_amount(alloc, given)?;
    or_no_memory(amount_data(alloc, amount.brand, &Value::empty(amount.value.kind())))
}

#[tactic(auto, unfolding(refusals::specs::Outcomes::bind))]
fn emptiness(alloc: Global, given: &Data) -> Result<Data, Stop>
    ensures { Gives tree result (emptiness (tree given.now)) }
{
    let amount = given_amount(alloc, given)?;
    Ok(Data::Bool(is_nothing(&amount.value)))
}

#[tactic(auto, unfolding(refusals::specs::Outcomes::bind))]
fn containment(alloc: Global, first: &Data, second: &Data) -> Result<Data, Stop>
    ensures { Gives tree result (containment (tree first.now) (tree second.now)) }
{
    let two = two_amounts(alloc, first, second)?;
    Ok(Data::Bool(has(&two.left, &two.right)))
}

#[tactic(auto, unfolding(refusals::specs::Outcomes::bind))]
fn equality(alloc: Global, first: &Data, second: &Data) -> Result<Data, Stop>
    ensures { Gives tree result (equality (tree first.now) (tree second.now)) }
{
    let two = two_amounts(alloc, first, second)?;
    Ok(Data::Bool(has(&two.left, &two.right) && has(&two.right, &two.left)))
}

/// The amount of the brand of two that a function makes of their values.
#[tactic(auto, unfolding(refusals::specs::Outcomes::bind))]
fn amount_of_two(
    alloc: Global,
    operation: Operation,
    first: &Data,
    second: &Data,
) -> Result<Data, Stop>
    ensures { Gives tree result (worked (value_of_two operation) (tree first.now) (tree second.now)) }
{
    let two = two_amounts(alloc, first, second)?;
    let brand = two.brand;
    let value = value_of_two(operation, two)?;
    or_no_memory(amount_data(alloc, brand, &value))
}

#[tactic(auto, unfolding(refusals::specs::Outcomes::bind))]
fn coerce(alloc: Global, brand: &Data, given: &Data) -> Result<Data, Stop>
    ensures { Gives tree result (coerced (tree brand.now) (tree given.now)) }
{
    let amount = amount_of_brand(alloc, brand, given)?;
    or_no_memory(amount_data(alloc, amount.brand, &amount.value))
}

#[tactic(auto, unfolding(refusals::specs::Outcomes::bind))]
fn value_of(alloc: Global, brand: &Data, given: &Data) -> Result<Data, Stop>
    ensures { Gives tree result (value_of (tree brand.now) (tree given.now)) }
{
    let amount = amount_of_brand(alloc, brand, given)?;
    or_no_memory(value_data(alloc, &amount.value))
}
