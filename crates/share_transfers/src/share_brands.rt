//! The brands of shares that are given for seats.

ghost use Rattle.std.specs.Prelude.{◌≡◌, ◌<◌, ◌^◌, [], All, IfOk, List, None, OnOk, Some, false};
ghost use Rattle.call_arguments.specs.Numbers.{least, least_of};
ghost use Rattle.rearrange.specs.Seats as given;
ghost use Rattle.refusals.specs.Codes.{wrong_brand};
ghost use Rattle.refusals.specs.Outcomes.{Gives, none_such};
ghost use Rattle.rules.specs.Rearranging.{SeatShare};
ghost use Rattle.share_transfers.specs.Brands.{HasBrand, is_wrong_at, wrong_at};
ghost use Rattle.share_transfers.specs.BrandsSeen.{HaveSeen};
ghost use Rattle.share_transfers.specs.Views.{seat_share, seat_shares};

use crate::brands_seen::{Brands, is_against_any, see};
use crate::shares::GivenSeatShare;
use contract_reads::misfits::{Foreign, ShareTest};
use rearrange::seat_states::SeatStates;
use refusals::codes::NumberCode;
use refusals::stops::Stop;
use rules::brands_lib::issuer_record::Issuer;
use std::alloc::{AllocError, Global};
use std::collections::BTreeMap;

/// Whether a share is of a brand that the instance doesn't keep, or of another than the slot of its keyword has, or a
/// share before for the seat and the keyword. A share that isn't has a brand of 16 bits.
fn is_wrong<'a>(
    issuers: &[Issuer],
    states: &SeatStates,
    seen: &BTreeMap<(u32, &'a str), Brands>,
    share: &GivenSeatShare<'a>,
) -> bool
    ensures is { (before : List SeatShare) → HaveSeen seen.now before →
        result ≡ is_wrong_at issuers.now (given.allocation_of states.now)
        before (seat_share share.now) }
    ensures small { result ≡ false → HasBrand share.now }
{
    let slots = states.allocation_of(share.seat);
    let test = Foreign { issuers, slots };
    test.fails(&share.share) || is_against_any(seen, share)
}

/// The lesser of a number, where there is one, and another.
fn lesser(number: Option<u32>, other: u32) -> Option<u32>
    ensures { result ≡ least_of number (Some other) }
{
    match number {
        Some(number) => Some(number.min(other)),
        None => Some(other),
    }
}

/// The least brand of the shares that are wrong.
#[tactic(auto, using(call_arguments::proofs::ArgumentLists::least_of_three))]
fn least_wrong(
    alloc: Global,
    issuers: &[Issuer],
    states: &SeatStates,
    shares: &[GivenSeatShare],
) -> Result<Option<u32>, AllocError>
    ensures is { IfOk result (λ found. found ≡ least (wrong_at issuers.now
        (given.allocation_of states.now) [] (seat_shares shares.now))) }
    ensures small { IfOk result (λ found. found ≡ None → All HasBrand shares.now) }
{
    let mut seen = BTreeMap::new(alloc);
    let mut least = None;
    for share in shares {
        let is_wrong = is_wrong(issuers, states, &seen, share);
        see(&mut seen, share)?;
        if is_wrong {
            least = lesser(least, share.share.amount.brand);
        }
    }
    Ok(least)
}

/// That no share is wrong: else `WrongBrand` with the least brand of those that are (Zoe; the order is our own).
#[tactic(auto, unfolding(refusals::specs::Outcomes::none_such))]
pub fn check_brands(
    alloc: Global,
    issuers: &[Issuer],
    states: &SeatStates,
    shares: &[GivenSeatShare],
) -> Result<(), Stop>
    ensures gives { Gives (λ _. tt) result (none_such
        (least (wrong_at issuers.now (given.allocation_of states.now) [] (seat_shares shares.now)))
        wrong_brand) }
    ensures small { OnOk result (All HasBrand shares.now) }
{
    match least_wrong(alloc, issuers, states, shares)? {
        Some(brand) => Err(Stop::numbered(NumberCode::WrongBrand, brand)),
        None => Ok(()),
    }
}
