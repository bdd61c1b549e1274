//! Keywords and brands of what is offered.

ghost use Rattle.std.specs.Prelude.{◌≡◌, ◌<◌, ◌^◌, All, IsNone, IsTrue, OnOk};
ghost use Rattle.call_arguments.specs.Numbers.{least_of};
ghost use Rattle.refusals.specs.host_data.View.{named_trees};
ghost use Rattle.call_arguments.specs.Records.{keywords, names, shares_data};
ghost use Rattle.refusals.specs.Codes.{keyword_mismatch, wrong_brand};
ghost use Rattle.refusals.specs.Outcomes.{Gives, none_such};
ghost use Rattle.rules.specs.Proposals.{first_shared, is_known, least_alone, least_strange};

use call_arguments::keyword_arguments::{check_apart, check_same, field_names, share_names};
use call_arguments::records::GivenShare;
use refusals::codes::NumberCode;
use refusals::host_data_lib::data::Data;
use refusals::host_text_lib::text::Text;
use refusals::stops::Stop;
use rules::brands_lib::issuer_record::Issuer;
use std::alloc::Global;

/// That no keyword stands in both: else `KeywordMismatch` with the first that does (Zoe).
#[tactic(auto, using(crate::proofs::KeywordTests::shared_same))]
pub fn check_shared(alloc: Global, give: &[GivenShare], want: &[GivenShare]) -> Result<(), Stop>
    ensures { Gives (λ _. tt) result (none_such
        (first_shared (keywords (shares_data give.now)) (keywords (shares_data want.now)))
        keyword_mismatch) }
{
    let names = share_names(alloc, give)?;
    let others = share_names(alloc, want)?;
    check_apart(alloc, names.as_slice(), others.as_slice())
}

/// That the same keywords stand in both: else `KeywordMismatch` with the least that stands in one alone (Zoe).
#[tactic(auto, using(crate::proofs::KeywordTests::alone_same))]
pub fn check_paid(alloc: Global, give: &[GivenShare], given: &[(Text, Data)]) -> Result<(), Stop>
    ensures { Gives (λ _. tt) result (none_such
        (least_alone (keywords (shares_data give.now)) (names (named_trees given.now)))
        keyword_mismatch) }
{
    let keywords = share_names(alloc, give)?;
    let names = field_names(alloc, given)?;
    check_same(alloc, keywords.as_slice(), names.as_slice())
}

/// Whether a brand is in an issuer record.
fn is_known(issuers: &[Issuer], brand: u32) -> bool
    ensures is { result ≡ is_known issuers.now brand }
    ensures small { IsTrue result → brand < 2 ^ 16 }
{
    for issuer in issuers {
        if u32::from(issuer.brand) == brand {
            return true;
        }
    }
    false
}

/// The lesser of two numbers, where there are.
fn least_of(one: Option<u32>, other: Option<u32>) -> Option<u32>
    ensures { result ≡ least_of one other }
{
    let Some(first) = one else {
        return other;
    };
    match other {
        Some(second) => Some(first.min(second)),
        None => one,
    }
}

/// The least brand of shares that isn't in the issuer record.
#[tactic(auto, using(call_arguments::proofs::ArgumentLists::least_of_three), unfolding(rules::specs::Proposals::least_strange))]
fn least_strange(issuers: &[Issuer], shares: &[GivenShare]) -> Option<u32>
    ensures is { result ≡ least_strange issuers.now (shares_data shares.now) }
    ensures small { IsNone result → All (λ r. r.amount.brand < 2 ^ 16) shares.now }
{
    let mut least = None;
    for share in shares {
        if !is_known(issuers, share.amount.brand) {
            least = least_of(least, Some(share.amount.brand));
        }
    }
    least
}

/// That each brand of shares is in the issuer record: else `WrongBrand` with the least that isn't (Zoe).
#[tactic(auto, unfolding(refusals::specs::Outcomes::none_such))]
pub fn check_known(issuers: &[Issuer], give: &[GivenShare], want: &[GivenShare]) -> Result<(), Stop>
    ensures gives { Gives (λ _. tt) result (none_such
        (least_of (least_strange issuers.now (shares_data give.now))
        (least_strange issuers.now (shares_data want.now)))
        wrong_brand) }
    ensures give { OnOk result (All (λ r. r.amount.brand < 2 ^ 16) give.now) }
    ensures want { OnOk result (All (λ r. r.amount.brand < 2 ^ 16) want.now) }
{
    let given = least_strange(issuers, give);
    let wanted = least_strange(issuers, want);
    match least_of(given, wanted) {
        Some(brand) => Err(Stop::numbered(NumberCode::WrongBrand, brand)),
        None => Ok(()),
    }
}
