//! The table of a zcf: its methods, by their names.

ghost use Rattle.std.specs.Prelude.{◌<◌, length};
ghost use Rattle.escrow_calls.specs.call_outcomes.CallOutcomes.{GivesOutcome};
ghost use Rattle.zcf_calls.specs.TableParts.{of_end, of_goods, of_kept, of_own};
ghost use Rattle.escrow_calls.specs.contract_reads.Known.{AreKnown};
ghost use Rattle.escrow_calls.specs.host_world.Worlds.{world_of};
ghost use Rattle.host_data.specs.View.{trees};
ghost use Rattle.rules.specs.Zcf as rearranging;
ghost use Rattle.rules.specs.Zcf.{of_zcf};
ghost use Rattle.rules.specs.world_state.Good.{IsGoodWorld};

use crate::instances::{get_instance, get_invitation_issuer, get_zoe_service};
use crate::invitations::make_invitation;
use crate::issuers;
use crate::new_issuers::{make_zcf_mint, save_issuer};
use crate::seat_kits::make_empty_seat_kit;
use crate::shutdowns::{shutdown, stop_accepting_offers};
use crate::wakeups::wake_at;
use escrow_calls::call_outcomes_lib::outcomes::{CallOutcome, outcome_of_reading};
use escrow_calls::deposits::deposit_to_seat;
use escrow_calls::host_world_lib::World;
use escrow_calls::withdrawals::withdraw_from_seat;
use escrow_calls::world_reads_lib::words::without_method;
use host_data::data::Data;
use rearrange_calls::atomic_rearrange::atomic_rearrange;
use rearrange_calls::reallocation::reallocate;
use refusals::stops::Stop;
use std::alloc::Global;

/// A method of the zcf by which an instance ends (Zoe).
fn of_end(
    alloc: Global,
    world: &World,
    instance: u32,
    method: &str,
    args: &[Data],
) -> Result<CallOutcome, Stop>
    requires { instance < length (world_of world.now).tables.instances }
    ensures { GivesOutcome (of_end (world_of world.now) instance method.now (trees args.now)) result }
{
    match method {
        "stopAcceptingOffers" => stop_accepting_offers(alloc, instance),
        "shutdown" => shutdown(alloc, world, instance, args),
        "shutdownWithFailure" => shutdown(alloc, world, instance, args),
        _ => without_method(alloc, method),
    }
}

/// A method of the zcf that makes invitations, or tells or ends what the instance is (Zoe).
fn of_own(
    alloc: Global,
    world: &World,
    instance: u32,
    method: &str,
    args: &[Data],
) -> Result<CallOutcome, Stop>
    requires { instance < length (world_of world.now).tables.instances }
    ensures { GivesOutcome (of_own (world_of world.now) instance method.now (trees args.now)) result }
{
    match method {
        "makeInvitation" => make_invitation(alloc, world, instance, args),
        "getInstance" => outcome_of_reading(alloc, get_instance(instance)),
        "getZoeService" => outcome_of_reading(alloc, get_zoe_service()),
        "getInvitationIssuer" => outcome_of_reading(alloc, get_invitation_issuer()),
        _ => of_end(alloc, world, instance, method, args),
    }
}

/// A method by which the instance asks for a wakeup, by which goods come to seats from payments or leave them, or another
/// one (Zoe).
fn of_goods(
    alloc: Global,
    world: &World,
    instance: u32,
    method: &str,
    args: &[Data],
) -> Result<CallOutcome, Stop>
    requires good { IsGoodWorld (world_of world.now) }
    requires hosted { instance < length (world_of world.now).tables.instances }
    requires known { AreKnown (world_of world.now) (trees args.now) }
    ensures { GivesOutcome (of_goods (world_of world.now) instance method.now (trees args.now)) result }
{
    match method {
        "wakeAt" => wake_at(alloc, world, instance, args),
        "depositToSeat" => deposit_to_seat(alloc, world, instance, args),
        "withdrawFromSeat" => withdraw_from_seat(alloc, world, instance, args),
        _ => of_own(alloc, world, instance, method, args),
    }
}

/// A method that tells of the issuers that the instance keeps, or another one (Zoe).
fn of_kept(
    alloc: Global,
    world: &World,
    instance: u32,
    method: &str,
    args: &[Data],
) -> Result<CallOutcome, Stop>
    requires good { IsGoodWorld (world_of world.now) }
    requires hosted { instance < length (world_of world.now).tables.instances }
    requires known { AreKnown (world_of world.now) (trees args.now) }
    ensures { GivesOutcome (of_kept (world_of world.now) instance method.now (trees args.now)) result }
{
    match method {
        "getTerms" => outcome_of_reading(alloc, issuers::get_terms(alloc, world, instance)),
        "getBrandForIssuer" => {
            outcome_of_reading(alloc, issuers::get_brand_for_issuer(world, instance, args))
        }
        "getIssuerForBrand" => {
            outcome_of_reading(alloc, issuers::get_issuer_for_brand(world, instance, args))
        }
        "getAssetKind" => outcome_of_reading(alloc, issuers::get_asset_kind(alloc, world, args)),
        "assertUniqueKeyword" => {
            outcome_of_reading(
                alloc,
                issuers::assert_unique_keyword(alloc, world, instance, args),
            )
        }
        _ => of_goods(alloc, world, instance, method, args),
    }
}

/// Takes over what is staged of seats. The place of an argument has 32 bits, and memory holds no more than these.
fn of_staged(
    alloc: Global,
    world: &World,
    instance: u32,
    args: &[Data],
) -> Result<CallOutcome, Stop>
    requires good { IsGoodWorld (world_of world.now) }
    requires hosted { instance < length (world_of world.now).tables.instances }
    requires known { AreKnown (world_of world.now) (trees args.now) }
    ensures { GivesOutcome (rearranging.reallocate (world_of world.now) instance (trees args.now)) result }
{
    if args.len() > u32::MAX as usize {
        return Err(Stop::NoMemory);
    }
    reallocate(alloc, world, instance, args)
}

/// A method of the zcf (Zoe).
pub fn of_zcf(
    alloc: Global,
    world: &World,
    instance: u32,
    method: &str,
    args: &[Data],
) -> Result<CallOutcome, Stop>
    requires good { IsGoodWorld (world_of world.now) }
    requires hosted { instance < length (world_of world.now).tables.instances }
    requires known { AreKnown (world_of world.now) (trees args.now) }
    ensures { GivesOutcome (of_zcf (world_of world.now) instance method.now (trees args.now)) result }
{
    match method {
        "makeEmptySeatKit" => make_empty_seat_kit(alloc, world, instance, args),
        "reallocate" => of_staged(alloc, world, instance, args),
        "atomicRearrange" => atomic_rearrange(alloc, world, instance, args),
        "makeZCFMint" => make_zcf_mint(alloc, world, instance, args),
        "saveIssuer" => save_issuer(alloc, world, instance, args),
        _ => of_kept(alloc, world, instance, method, args),
    }
}
