//! Shares of amounts, as they are read of a record.

ghost use Rattle.std.specs.Prelude.{◌≡◌, ◌≤◌, All, IfOk, None, OnOk, [], filter, true};
ghost use Rattle.rules.specs.call_arguments.Numbers.{least};
ghost use Rattle.refusals.specs.host_text.Words.{is_keyword};
ghost use Rattle.host_data.specs.View.{trees};
ghost use Rattle.rules.specs.call_arguments.Records.{brands_in, first_ill, keywords, share_data, shares_data};
ghost use Rattle.refusals.specs.Codes.{bad_value, wrong_brand};
ghost use Rattle.refusals.specs.Outcomes.{Gives, none_such, wanted};
ghost use Rattle.contract_reads.specs.Brands.{HasSmallBrand};
ghost use Rattle.contract_reads.specs.Valued.{valued_share};
ghost use Rattle.rules.specs.Proposals.{valued};
ghost use Rattle.rules.specs.Given.{shares_at};

use crate::keywords::keyword_of;
use crate::misfits::ShareTest;
use host_data::data::Data;
use refusals::amount_math_lib::Amount;
use refusals::codes::NumberCode;
use refusals::stops::Stop;
use rules::call_arguments_lib::amounts::value;
use rules::call_arguments_lib::numbers::least;
use rules::call_arguments_lib::places::record_at;
use rules::call_arguments_lib::records::{GivenShare, shares};
use rules::proposals_lib::allocations::Share;
use std::alloc::{AllocError, Global};

/// The brands of the shares that fail a test.
fn misfit_brands<T: ShareTest>(
    alloc: Global,
    test: &T,
    shares: &[GivenShare],
) -> Result<Vec<u32>, AllocError>
    ensures brands { IfOk result (λ brands. brands.items
        ≡ brands_in (filter (T.is_misfit test.now) (shares_data shares.now))) }
    ensures small { IfOk result (λ brands. brands.items ≡ [] → All HasSmallBrand shares.now) }
{
    let mut brands = Vec::new(alloc);
    for share in shares {
        if test.fails(share) {
            brands.push(share.amount.brand)?;
        }
    }
    Ok(brands)
}

/// That no share fails a test: else `WrongBrand` with the least brand of those that do (Zoe).
#[tactic(auto, using(crate::proofs::Failing::none_least), unfolding(refusals::specs::Outcomes::none_such))]
fn check_misfits<T: ShareTest>(alloc: Global, test: &T, shares: &[GivenShare]) -> Result<(), Stop>
    ensures gives { Gives (λ _. tt) result
        (none_such (least (brands_in (filter (T.is_misfit test.now) (shares_data shares.now)))) wrong_brand) }
    ensures small { OnOk result (All HasSmallBrand shares.now) }
{
    let brands = misfit_brands(alloc, test, shares)?;
    match least(brands.as_slice()) {
        Some(brand) => Err(Stop::numbered(NumberCode::WrongBrand, brand)),
        None => Ok(()),
    }
}

/// A share with the value that its data stands for: else `BadValue` (ERTP).
#[tactic(auto, unfolding(refusals::specs::Outcomes::wanted))]
fn valued_share(alloc: Global, given: &GivenShare) -> Result<Share, Stop>
    requires named { is_keyword given.now.keyword.now ≡ true }
    requires small { HasSmallBrand given.now }
    ensures { Gives (λ share. share) result (wanted (valued_share (share_data given.now)) bad_value) }
{
    let value = value(alloc, given.amount.kind, given.amount.value)?;
    let keyword = keyword_of(alloc, given.keyword)?;
    let brand = given.amount.brand as u16;
    Ok(Share {
        keyword,
        amount: Amount { brand, value },
    })
}

/// Shares with the values that their data stands for: else `BadValue` (ERTP).
#[tactic(auto, using(crate::proofs::Values::valued_is), unfolding(refusals::specs::Outcomes::wanted))]
pub fn valued_shares(alloc: Global, shares: &[GivenShare]) -> Result<Vec<Share>, Stop>
    requires named { first_ill (keywords (shares_data shares.now)) ≡ None }
    requires small { All HasSmallBrand shares.now }
    ensures { Gives (λ shares. shares.items) result (valued (shares_data shares.now)) }
{
    let mut made = Vec::new(alloc);
    for share in shares {
        made.push(valued_share(alloc, share)?)?;
    }
    Ok(made)
}

/// A record at a place, of amounts under keywords: `BadArgs` with the place, `BadKeyword`, `WrongBrand` with the least
/// brand of the shares that fail a test, `BadValue`, each tested over all shares before the next (Zoe).
#[tactic(auto, unfolding(rules::specs::Given::shares_at, refusals::specs::Outcomes::bind))]
pub fn shares_at<T: ShareTest>(
    alloc: Global,
    test: &T,
    place: u32,
    args: &[Data],
) -> Result<Vec<Share>, Stop>
    requires { 1 ≤ place }
    ensures { Gives (λ shares. shares.items) result (shares_at (T.is_misfit test.now) place (trees args.now)) }
{
    let fields = record_at(place, args)?;
    let read = shares(alloc, place, fields)?;
    check_misfits(alloc, test, read.as_slice())?;
    valued_shares(alloc, read.as_slice())
}
