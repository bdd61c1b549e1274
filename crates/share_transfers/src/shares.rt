//! The shares that transfers ask for.

ghost use Rattle.std.specs.Prelude.{◌≡◌, ◌++◌, IfOk, OnOk, flat_map};
ghost use Rattle.host_data.specs.Amounts.{read_all, seen};
ghost use Rattle.call_arguments.specs.Arguments.{object_in};
ghost use Rattle.host_data.specs.declared.data.ObjKind.TheVariants as kinds;
ghost use Rattle.host_data.specs.View.{tree};
ghost use Rattle.call_arguments.specs.Records.{shares_data};
ghost use Rattle.refusals.specs.Codes.{bad_args};
ghost use Rattle.refusals.specs.Outcomes.{Gives, wanted};
ghost use Rattle.rules.specs.Rearranging.{asked_in, gains_of, losses_of, shares_asked, shares_for, shares_of, shares_or_none};
ghost use Rattle.share_transfers.specs.Views.{asked_view, asked_views, parts_view, parts_views, shares_view, seat_shares};

use crate::parts::GivenParts;
use call_arguments::places::object_in;
use call_arguments::records::{GivenShare, amounts};
use host_data::data::{Data, ObjKind};
use refusals::codes::NumberCode;
use refusals::stops::Stop;
use std::alloc::{AllocError, Global};

/// A transfer as it is asked for, its values not read yet.
#[derive(Drop)]
pub struct GivenTransfer<'a> {
    pub from: Option<u32>,
    pub to: Option<u32>,
    pub losses: Option<Vec<GivenShare<'a>>>,
    pub gains: Option<Vec<GivenShare<'a>>>,
}

/// A share that is given for a seat.
#[derive(Clone, Copy)]
pub struct GivenSeatShare<'a> {
    pub seat: u32,
    pub share: GivenShare<'a>,
}

/// The number of the ZCF seat that is there, if there is one.
#[tactic(auto, unfolding(call_arguments::specs::Arguments::object_in))]
fn seat_in(given: Option<&Data>) -> Option<u32>
    ensures { result ≡ object_in kinds.Zseat (seen given.entry) }
{
    match given {
        Some(given) => object_in(ObjKind::Zseat, given),
        None => None,
    }
}

/// The shares of a record that is there: else `BadArgs` 1.
#[tactic(auto, unfolding(call_arguments::specs::Records::amounts_under, refusals::specs::Outcomes::wanted))]
fn record_shares(alloc: Global, given: &Data) -> Result<Vec<GivenShare<'_>>, Stop>
    ensures { Gives (λ shares. shares_data shares.items) result
        (wanted (shares_of (tree given.now)) (bad_args 1)) }
{
    match given.fields() {
        Some(fields) => amounts(alloc, 1, fields),
        None => Err(Stop::numbered(NumberCode::BadArgs, 1)),
    }
}

/// The shares of a record, none where it is null or missing: else `BadArgs` 1.
#[tactic(auto, unfolding(refusals::specs::Outcomes::wanted))]
fn shares_or_none<'a>(
    alloc: Global,
    given: Option<&'a Data>,
) -> Result<Option<Vec<GivenShare<'a>>>, Stop>
    ensures { Gives shares_view result (wanted (shares_or_none (seen given.entry)) (bad_args 1)) }
{
    let Some(given) = given else {
        return Ok(None);
    };
    if given.is_null() {
        return Ok(None);
    }
    let shares = record_shares(alloc, given)?;
    Ok(Some(shares))
}

/// What parts ask for: else `BadArgs` 1.
#[tactic(auto, unfolding(refusals::specs::Outcomes::wanted))]
fn transfer_asked<'a>(alloc: Global, parts: &GivenParts<'a>) -> Result<GivenTransfer<'a>, Stop>
    ensures { Gives asked_view result (wanted (asked_in (parts_view parts.now)) (bad_args 1)) }
{
    let losses = shares_or_none(alloc, parts.losses)?;
    let gains = shares_or_none(alloc, parts.gains)?;
    Ok(GivenTransfer {
        from: seat_in(parts.from),
        to: seat_in(parts.to),
        losses,
        gains,
    })
}

/// What all transfers ask for: else `BadArgs` 1 (own).
#[tactic(auto, unfolding(refusals::specs::Outcomes::wanted))]
pub fn transfers_asked<'a>(
    alloc: Global,
    list: &[GivenParts<'a>],
) -> Result<Vec<GivenTransfer<'a>>, Stop>
    ensures { Gives (λ read. asked_views read.items) result
        (wanted (read_all asked_in (parts_views list.now)) (bad_args 1)) }
{
    let mut read = Vec::new(alloc);
    for parts in list {
        read.push(transfer_asked(alloc, parts)?)?;
    }
    Ok(read)
}

// ---- all shares

/// What a transfer takes.
fn losses_of<'b, 'a>(given: &'b GivenTransfer<'a>) -> &'b [GivenShare<'a>]
    ensures { shares_data result.now ≡ losses_of (asked_view given.now) }
{
    match &given.losses {
        Some(shares) => shares.as_slice(),
        None => &[],
    }
}

/// What a transfer gives.
fn gains_of<'b, 'a>(given: &'b GivenTransfer<'a>) -> &'b [GivenShare<'a>]
    ensures { shares_data result.now ≡ gains_of (asked_view given.now) }
{
    match &given.gains {
        Some(shares) => shares.as_slice(),
        None => losses_of(given),
    }
}

/// Puts shares for a seat behind others, if there is one.
fn add_shares<'a>(
    all: &mut Vec<GivenSeatShare<'a>>,
    seat: Option<u32>,
    shares: &[GivenShare<'a>],
) -> Result<(), AllocError>
    ensures { OnOk result (seat_shares all.new.items
        ≡ seat_shares all.old.items ++ shares_for seat (shares_data shares.now)) }
{
    let Some(seat) = seat else {
        return Ok(());
    };
    for share in shares {
        all.push(GivenSeatShare {
            seat,
            share: *share,
        })?;
    }
    Ok(())
}

/// The shares that transfers ask for, each with its seat, in the order of the list.
pub fn shares_asked<'a>(
    alloc: Global,
    read: &[GivenTransfer<'a>],
) -> Result<Vec<GivenSeatShare<'a>>, AllocError>
    ensures { IfOk result (λ shares.
        seat_shares shares.items ≡ flat_map shares_asked (asked_views read.now)) }
{
    let mut all = Vec::new(alloc);
    for given in read {
        add_shares(&mut all, given.from, losses_of(given))?;
        add_shares(&mut all, given.to, gains_of(given))?;
    }
    Ok(all)
}
