//! Keywords of two records beside each other: that none stands in both, that the same stand in both. It stands
//! on the records that a call is given. Its one contract: each test fails exactly where its definition does,
//! with the keyword that it shows. The names of one record are looked up in a set of the other's.

ghost use Rattle.std.specs.Prelude.{◌≡◌, ℕ, List, IfOk};
ghost use Rattle.std.specs.Borrow.{Bor};
ghost use Rattle.std.specs.BTreeSet.{contains};
ghost use Rattle.refusals.specs.host_data.View.{named_trees};
ghost use Rattle.refusals.specs.Outcomes.{Gives};
ghost use Rattle.call_arguments.specs.Records.{has_name, keywords, names, shares_data};
ghost use Rattle.call_arguments.specs.Keywords.{are_apart, are_same, by_text, first_alone, first_shared, lesser, text_in, texts};

use crate::records::GivenShare;
use refusals::codes::TextCode;
use refusals::host_data_lib::data::Data;
use refusals::host_text_lib::text::Text;
use refusals::stops::Stop;
use std::alloc::{AllocError, Global};
use std::collections::BTreeSet;

/// The keywords of shares, in their order.
pub fn share_names<'a>(alloc: Global, shares: &[GivenShare<'a>]) -> Result<Vec<&'a str>, AllocError>
    ensures { IfOk result (λ names. texts names.items ≡ keywords (shares_data shares.now)) }
{
    let mut names = Vec::new(alloc);
    for share in shares {
        names.push(share.keyword.as_str())?;
    }
    Ok(names)
}

/// The names of fields, in their order.
pub fn field_names(alloc: Global, fields: &[(Text, Data)]) -> Result<Vec<&str>, AllocError>
    ensures { IfOk result (λ found. texts found.items ≡ names (named_trees fields.now)) }
{
    let mut names = Vec::new(alloc);
    for (name, _) in fields {
        names.push(name.as_str())?;
    }
    Ok(names)
}

/// The names as a set.
fn set_of<'a>(alloc: Global, names: &[&'a str]) -> Result<BTreeSet<&'a str>, AllocError>
    ensures { IfOk result (λ set. (q : Bor (List ℕ)) → contains by_text set q ≡ has_name q.now (texts names.now)) }
{
    let mut set = BTreeSet::new(alloc);
    for name in names {
        set.insert(*name)?;
    }
    Ok(set)
}

/// The first of the names that is among the others.
#[tactic(auto, unfolding(crate::specs::Keywords::first_shared))]
fn first_shared<'a>(
    alloc: Global,
    names: &[&'a str],
    others: &[&str],
) -> Result<Option<&'a str>, AllocError>
    ensures { IfOk result (λ found. text_in found ≡ first_shared (texts names.now) (texts others.now)) }
{
    let set = set_of(alloc, others)?;
    for name in names {
        if set.contains(*name) {
            return Ok(Some(*name));
        }
    }
    Ok(None)
}

/// The first of the names that isn't among the others.
#[tactic(auto, unfolding(crate::specs::Keywords::first_alone))]
fn first_alone<'a>(
    alloc: Global,
    names: &[&'a str],
    others: &[&str],
) -> Result<Option<&'a str>, AllocError>
    ensures { IfOk result (λ found. text_in found ≡ first_alone (texts names.now) (texts others.now)) }
{
    let set = set_of(alloc, others)?;
    for name in names {
        if !set.contains(*name) {
            return Ok(Some(*name));
        }
    }
    Ok(None)
}

/// The one that comes first in byte order.
fn lesser<'a>(one: Option<&'a str>, other: Option<&'a str>) -> Option<&'a str>
    ensures { text_in result ≡ lesser (text_in one.entry) (text_in other.entry) }
{
    let Some(first) = one else {
        return other;
    };
    let Some(second) = other else {
        return one;
    };
    if second.cmp(first).is_lt() {
        other
    } else {
        one
    }
}

/// That no keyword stands in both: else `KeywordMismatch` with the first that does (Zoe).
#[tactic(auto, unfolding(refusals::specs::Outcomes::none_such))]
pub fn check_apart(alloc: Global, names: &[&str], others: &[&str]) -> Result<(), Stop>
    ensures { Gives (λ _. tt) result (are_apart (texts names.now) (texts others.now)) }
{
    match first_shared(alloc, names, others)? {
        Some(name) => Err(Stop::worded(alloc, TextCode::KeywordMismatch, name)),
        None => Ok(()),
    }
}

/// That the same keywords stand in both: else `KeywordMismatch` with the least that stands in one alone (Zoe).
#[tactic(auto, unfolding(refusals::specs::Outcomes::none_such))]
pub fn check_same(alloc: Global, names: &[&str], others: &[&str]) -> Result<(), Stop>
    ensures { Gives (λ _. tt) result (are_same (texts names.now) (texts others.now)) }
{
    let one = first_alone(alloc, names, others)?;
    let other = first_alone(alloc, others, names)?;
    match lesser(one, other) {
        Some(name) => Err(Stop::worded(alloc, TextCode::KeywordMismatch, name)),
        None => Ok(()),
    }
}
