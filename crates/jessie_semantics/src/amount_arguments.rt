//! Brands and amounts read from the arguments of AmountMath.
ghost use Rattle.std.specs.Prelude.{◌≡◌, IfOk};
ghost use Rattle.host_data.specs.View.{tree};
ghost use Rattle.host_data.specs.Amounts.{amount_data, amount_fields};
ghost use Rattle.refusals.specs.Codes.{bad_args};
ghost use Rattle.refusals.specs.Outcomes.{Gives, wanted};
ghost use Rattle.jessie_semantics.specs.Given.{amount_given, amount_made, amount_of_brand, brand_in, two_amounts, two_values, worth_in};

use host_data::amount_math_lib::{Kind, Value};
use host_data::amounts::{GivenAmount, amount_fields, read_value};
use host_data::data::{Data, ObjKind};
use refusals::codes::NumberCode;
use refusals::stops::Stop;
use std::alloc::Global;

/// A brand: its number, and the kind of its values.
#[derive(Clone, Copy)]
pub struct GivenBrand {
    pub number: u32,
    pub kind: Kind,
}

/// A value of a brand, which goes by its number.
#[derive(Drop)]
pub struct OneAmount {
    pub brand: u32,
    pub value: Value,
}

/// Two values of one brand.
#[derive(Drop)]
pub struct TwoAmounts {
    pub brand: u32,
    pub left: Value,
    pub right: Value,
}

/// The brand, where the data is one.
pub fn brand_in(given: &Data) -> Option<GivenBrand>
    ensures { result ≡ brand_in (tree given.now) }
{
    let object = given.object()?;
    match object.kind {
        ObjKind::Brand(kind) => Some(GivenBrand {
            number: object.number,
            kind,
        }),
        _ => None,
    }
}

/// The brand that the first argument has to be.
#[tactic(auto, unfolding(refusals::specs::Outcomes::wanted))]
pub fn wanted_brand(given: &Data) -> Result<GivenBrand, Stop>
    ensures { Gives (λ own. own) result (wanted (brand_in (tree given.now)) (bad_args 1)) }
{
    match brand_in(given) {
        Some(own) => Ok(own),
        None => Err(Stop::numbered(NumberCode::BadArgs, 1)),
    }
}

/// What stands in the amount that an argument has to be.
#[tactic(auto, unfolding(refusals::specs::Outcomes::wanted))]
fn wanted_amount(given: &Data, place: u32) -> Result<GivenAmount<'_>, Stop>
    ensures { Gives amount_data result (wanted (amount_fields (tree given.now)) (bad_args place)) }
{
    match amount_fields(given) {
        Some(parts) => Ok(parts),
        None => Err(Stop::numbered(NumberCode::BadArgs, place)),
    }
}

/// A value of the kind.
#[tactic(auto, unfolding(refusals::specs::Outcomes::wanted))]
fn worth_in(alloc: Global, kind: Kind, given: &Data) -> Result<Value, Stop>
    ensures gives { Gives (λ value. value) result (worth_in kind (tree given.now)) }
    ensures kind { IfOk result (λ value. value.kind ≡ kind) }
{
    Ok(read_value(alloc, kind, given)?)
}

/// A value of a brand.
#[tactic(auto, unfolding(crate::specs::Given::amount_made, refusals::specs::Outcomes::bind))]
pub fn amount_of_value(alloc: Global, brand: &Data, value: &Data) -> Result<OneAmount, Stop>
    ensures { Gives (λ amount. amount) result (amount_made (tree brand.now) (tree value.now)) }
{
    let own = wanted_brand(brand)?;
    let value = worth_in(alloc, own.kind, value)?;
    Ok(OneAmount {
        brand: own.number,
        value,
    })
}

/// An amount.
#[tactic(auto, unfolding(crate::specs::Given::amount_given, refusals::specs::Outcomes::bind))]
pub fn given_amount(alloc: Global, given: &Data) -> Result<OneAmount, Stop>
    ensures { Gives (λ amount. amount) result (amount_given (tree given.now)) }
{
    let parts = wanted_amount(given, 1)?;
    let value = worth_in(alloc, parts.kind, parts.value)?;
    Ok(OneAmount {
        brand: parts.brand,
        value,
    })
}

/// An amount of a brand.
#[tactic(auto, unfolding(crate::specs::Given::amount_of_brand, refusals::specs::Outcomes::bind, refusals::specs::Outcomes::need))]
pub fn amount_of_brand(alloc: Global, brand: &Data, given: &Data) -> Result<OneAmount, Stop>
    ensures { Gives (λ amount. amount) result (amount_of_brand (tree brand.now) (tree given.now)) }
{
    let own = wanted_brand(brand)?;
    let parts = wanted_amount(given, 2)?;
    if parts.brand != own.number {
        return Err(Stop::numbered(NumberCode::WrongBrand, parts.brand));
    }
    let value = worth_in(alloc, own.kind, parts.value)?;
    Ok(OneAmount {
        brand: parts.brand,
        value,
    })
}

/// Two amounts of one brand.
#[tactic(auto, unfolding(crate::specs::Given::two_amounts, refusals::specs::Outcomes::bind, refusals::specs::Outcomes::need))]
pub fn two_amounts(alloc: Global, first: &Data, second: &Data) -> Result<TwoAmounts, Stop>
    ensures gives { Gives (λ two. two) result (two_amounts (tree first.now) (tree second.now)) }
    ensures kinds { IfOk result (λ two. two.left.kind ≡ two.right.kind) }
{
    let held = wanted_amount(first, 1)?;
    let other = wanted_amount(second, 2)?;
    if other.brand != held.brand {
        return Err(Stop::numbered(NumberCode::WrongBrand, other.brand));
    }
    two_values(alloc, held, other.value)
}

/// The values of two amounts of one brand.
#[tactic(auto, unfolding(crate::specs::Given::two_values, refusals::specs::Outcomes::bind))]
fn two_values(alloc: Global, held: GivenAmount<'_>, other: &Data) -> Result<TwoAmounts, Stop>
    ensures gives { Gives (λ two. two) result (two_values (amount_data held.entry) (tree other.now)) }
    ensures kinds { IfOk result (λ two. two.left.kind ≡ two.right.kind) }
{
    let left = worth_in(alloc, held.kind, held.value)?;
    let right = worth_in(alloc, held.kind, other)?;
    Ok(TwoAmounts {
        brand: held.brand,
        left,
        right,
    })
}
