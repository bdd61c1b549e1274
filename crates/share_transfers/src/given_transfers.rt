//! Transfers, as they are read of their parts.

ghost use Rattle.std.specs.Prelude.{All, OnOk, flat_map};
ghost use Rattle.std.specs.List.{AllByRecursion};
ghost use Rattle.rearrange.specs.Seats as given;
ghost use Rattle.refusals.specs.Outcomes.{Gives};
ghost use Rattle.rules.specs.Rearranging.{shares_asked};
ghost use Rattle.share_transfers.specs.Fine.{IsFine};
ghost use Rattle.share_transfers.specs.Reading.{HasSeats, IsSeated, share_tests, transfers_at};
ghost use Rattle.share_transfers.specs.Views.{asked_views, parts_views, transfer_views};

use crate::keywords::check_keywords;
use crate::parts::GivenParts;
use crate::share_brands::check_brands;
use crate::shares::{GivenTransfer, shares_asked, transfers_asked};
use crate::values::{ShareTransfer, transfers_of};
use rearrange::seat_states::SeatStates;
use refusals::stops::Stop;
use rules::brands_lib::issuer_record::Issuer;
use std::alloc::Global;

/// That each share is under a keyword, else `BadKeyword`; then that none is of a wrong brand, else `WrongBrand` (Zoe).
#[tactic(auto, unfolding(crate::specs::Reading::share_tests, refusals::specs::Outcomes::bind))]
fn check_shares(
    alloc: Global,
    issuers: &[Issuer],
    states: &SeatStates,
    read: &[GivenTransfer],
) -> Result<(), Stop>
    requires { AllByRecursion HasSeats (asked_views read.now) }
    ensures gives { Gives (λ _. tt) result (share_tests issuers.now (given.allocation_of states.now)
        (flat_map shares_asked (asked_views read.now))) }
    ensures fine { OnOk result (All IsFine read.now) }
{
    let shares = shares_asked(alloc, read)?;
    check_keywords(alloc, shares.as_slice())?;
    check_brands(alloc, issuers, states, shares.as_slice())
}

/// The transfers that parts stand for, each test over all of them before the next: `BadArgs` 1, `BadKeyword`,
/// `WrongBrand`, `BadValue` (Zoe; the order is our own). The states are those of the seats that are named.
#[tactic(auto, using(crate::proofs::FineShares::seats_asked), unfolding(crate::specs::Reading::transfers_at, refusals::specs::Outcomes::bind, refusals::specs::Outcomes::wanted))]
pub fn transfers_at(
    alloc: Global,
    issuers: &[Issuer],
    states: &SeatStates,
    list: &[GivenParts],
) -> Result<Vec<ShareTransfer>, Stop>
    requires { AllByRecursion IsSeated (parts_views list.now) }
    ensures { Gives (λ list. transfer_views list.items) result
        (transfers_at issuers.now (given.allocation_of states.now) (parts_views list.now)) }
{
    let read = transfers_asked(alloc, list)?;
    check_shares(alloc, issuers, states, read.as_slice())?;
    transfers_of(alloc, read.as_slice())
}
