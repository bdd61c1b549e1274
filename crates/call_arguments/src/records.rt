//! Records that a call is given: amounts under keywords, objects under keywords or in an array.

ghost use Rattle.std.specs.Prelude.{◌≡◌, ◌<◌, All, None, IfOk, OnOk, option_map};
ghost use Rattle.refusals.specs.host_text.Words.{is_keyword};
ghost use Rattle.refusals.specs.host_data.View.{named_trees, tree};
ghost use Rattle.refusals.specs.Outcomes.{Gives, wanted};
ghost use Rattle.call_arguments.specs.Arguments.{IsMade};
ghost use Rattle.call_arguments.specs.Records.{amounts_under, are_keywords, first_ill, keywords, names, objects_under, shares_data, shares_in};

use crate::places::object_in;
use refusals::codes::{NumberCode, TextCode};
use refusals::host_data_lib::amounts::{GivenAmount, amount_fields};
use refusals::host_data_lib::data::{Data, ObjKind};
use refusals::host_text_lib::keyword::Keyword;
use refusals::host_text_lib::text::Text;
use refusals::stops::Stop;
use std::alloc::Global;

/// A share as it was given: a keyword, and what stands in the amount under it.
#[derive(Clone, Copy)]
pub struct GivenShare<'a> {
    pub keyword: &'a Text,
    pub amount: GivenAmount<'a>,
}

/// Whether the share is under a keyword.
fn is_named(share: &GivenShare) -> bool
    ensures { result ≡ is_keyword share.now.keyword.now }
{
    Keyword::is_keyword(share.keyword.as_str().as_bytes())
}

/// The first name of a share that is no keyword.
#[tactic(auto, unfolding(crate::specs::Records::first_ill))]
fn first_ill<'a>(shares: &[GivenShare<'a>]) -> Option<&'a Text>
    ensures { option_map (λ name. name.now) result ≡ first_ill (keywords (shares_data shares.now)) }
{
    for share in shares {
        if !is_named(share) {
            return Some(share.keyword);
        }
    }
    None
}

/// The amounts in a record's fields: else `BadArgs` with the place.
#[tactic(auto, unfolding(crate::specs::Records::amounts_under, refusals::specs::Outcomes::wanted))]
pub fn amounts<'a>(
    alloc: Global,
    place: u32,
    fields: &'a [(Text, Data)],
) -> Result<Vec<GivenShare<'a>>, Stop>
    ensures { Gives (λ shares. shares_data shares.items) result (amounts_under place (named_trees fields.now)) }
{
    let mut shares = Vec::new(alloc);
    for (keyword, data) in fields {
        let Some(amount) = amount_fields(data) else {
            return Err(Stop::numbered(NumberCode::BadArgs, place));
        };
        shares.push(GivenShare { keyword, amount })?;
    }
    Ok(shares)
}

/// That each share is under a keyword: else `BadKeyword` with the first name that is none (Zoe).
#[tactic(auto, unfolding(refusals::specs::Outcomes::none_such))]
pub fn check_keywords(alloc: Global, shares: &[GivenShare]) -> Result<(), Stop>
    ensures gives { Gives (λ _. tt) result (are_keywords (keywords (shares_data shares.now))) }
    ensures named { OnOk result (first_ill (keywords (shares_data shares.now)) ≡ None) }
{
    match first_ill(shares) {
        Some(name) => Err(Stop::worded(alloc, TextCode::BadKeyword, name.as_str())),
        None => Ok(()),
    }
}

/// The first name of a field that is no keyword.
#[tactic(auto, unfolding(crate::specs::Records::first_ill))]
fn first_ill_name(fields: &[(Text, Data)]) -> Option<&Text>
    ensures { option_map (λ name. name.now) result ≡ first_ill (names (named_trees fields.now)) }
{
    for (name, _) in fields {
        if !Keyword::is_keyword(name.as_str().as_bytes()) {
            return Some(name);
        }
    }
    None
}

/// That each field's name is a keyword: else `BadKeyword` with the first that is none (Zoe).
#[tactic(auto, unfolding(refusals::specs::Outcomes::none_such))]
pub fn check_names(alloc: Global, fields: &[(Text, Data)]) -> Result<(), Stop>
    ensures gives { Gives (λ _. tt) result (are_keywords (names (named_trees fields.now))) }
    ensures named { OnOk result (first_ill (names (named_trees fields.now)) ≡ None) }
{
    match first_ill_name(fields) {
        Some(name) => Err(Stop::worded(alloc, TextCode::BadKeyword, name.as_str())),
        None => Ok(()),
    }
}

/// The amounts in a record's fields, each under a keyword: `BadArgs` with the place where a field is no
/// amount, then `BadKeyword` with the first name that is no keyword.
#[tactic(auto, unfolding(crate::specs::Records::shares_in, refusals::specs::Outcomes::bind, refusals::specs::Outcomes::none_such))]
pub fn shares<'a>(
    alloc: Global,
    place: u32,
    fields: &'a [(Text, Data)],
) -> Result<Vec<GivenShare<'a>>, Stop>
    ensures gives { Gives (λ shares. shares_data shares.items) result (shares_in place (named_trees fields.now)) }
    ensures named { IfOk result (λ shares. first_ill (keywords (shares_data shares.items)) ≡ None) }
{
    let shares = amounts(alloc, place, fields)?;
    check_keywords(alloc, shares.as_slice())?;
    Ok(shares)
}

// ---- objects

/// The objects of one kind under names, by their numbers, of which so many were made: else `WrongObject` with
/// the place.
#[tactic(auto, unfolding(crate::specs::Records::objects_under, refusals::specs::Outcomes::wanted))]
pub fn objects_under(
    alloc: Global,
    kind: ObjKind,
    made: u32,
    place: u32,
    fields: &[(Text, Data)],
) -> Result<Vec<u32>, Stop>
    requires { All (λ f. IsMade kind made (tree f.1)) fields.now }
    ensures gives { Gives (λ numbers. numbers.items) result (objects_under kind place (named_trees fields.now)) }
    ensures made { IfOk result (λ numbers. All (λ n. n < made) numbers.items) }
{
    let mut numbers = Vec::new(alloc);
    for (_, part) in fields {
        let Some(number) = object_in(kind, part) else {
            return Err(Stop::numbered(NumberCode::WrongObject, place));
        };
        prove!(number < made);
        numbers.push(number)?;
    }
    Ok(numbers)
}
