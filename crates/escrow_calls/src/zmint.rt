//! The table of a ZCF mint: its methods, by their names, and its record of a brand with its issuer.

ghost use Rattle.std.specs.Prelude.{◌≡◌, ◌<◌, IfOk, length};
ghost use Rattle.ertp_calls.specs.call_outcomes.CallOutcomes.{GivesOutcome, Reads};
ghost use Rattle.contract_reads.specs.Known.{AreKnown};
ghost use Rattle.ertp_calls.specs.host_world.Worlds.{world_of};
ghost use Rattle.host_data.specs.View.{tree, trees};
ghost use Rattle.rules.specs.Records.{issuer_record};
ghost use Rattle.rules.specs.Zmint.{get_issuer_record, minting, of_zmint};
ghost use Rattle.ertp_calls.specs.vault.Drafts.{IsClean};
ghost use Rattle.rules.specs.world_state.Good.{IsGoodWorld};

use crate::burns::burn_losses;
use crate::mints::mint_gains;
use ertp_calls::brand::brand_data;
use ertp_calls::call_outcomes_lib::outcomes::{CallOutcome, outcome_of_reading};
use ertp_calls::host_world_lib::World;
use ertp_calls::world_reads_lib::record_data::put;
use ertp_calls::world_reads_lib::words::without_method;
use host_data::data::{Data, ObjKind};
use host_data::values::object_data;
use refusals::stops::Stop;
use std::alloc::{AllocError, Global};

/// A brand with its issuer.
pub fn issuer_record(alloc: Global, world: &World, brand: u16) -> Result<Data, AllocError>
    requires { brand < length (world_of world.now).brands }
    ensures { IfOk result (λ made. tree made ≡ issuer_record (world_of world.now) brand) }
{
    let mut fields = Vec::new(alloc);
    put(alloc, &mut fields, "brand", brand_data(world, brand))?;
    let issuer = object_data(ObjKind::Issuer, u32::from(brand));
    put(alloc, &mut fields, "issuer", issuer)?;
    Ok(Data::Record(fields))
}

/// zmint.getIssuerRecord() (Zoe).
#[tactic(auto, unfolding(rules::specs::Zmint::get_issuer_record))]
pub fn get_issuer_record(alloc: Global, world: &World, brand: u16) -> Result<Data, Stop>
    requires { brand < length (world_of world.now).brands }
    ensures { Reads (get_issuer_record (world_of world.now) brand) result }
{
    Ok(issuer_record(alloc, world, brand)?)
}

/// A method of a ZCF mint (Zoe).
#[tactic(auto, using(crate::proofs::MintBrands::few_makers, crate::proofs::MintBrands::maker_brand))]
pub fn of_zmint(
    alloc: Global,
    world: &World,
    number: u32,
    method: &str,
    args: &[Data],
) -> Result<CallOutcome, Stop>
    requires good { IsGoodWorld (world_of world.now) }
    requires clean { IsClean world.now.draft }
    requires made { number < length (world_of world.now).makers }
    requires hosted { minting (world_of world.now) number < length (world_of world.now).tables.instances }
    requires known { AreKnown (world_of world.now) (trees args.now) }
    ensures { GivesOutcome (of_zmint (world_of world.now) number method.now (trees args.now)) result }
{
    let brand = number as u16;
    match method {
        "mintGains" => mint_gains(alloc, world, brand, args),
        "burnLosses" => burn_losses(alloc, world, brand, args),
        "getIssuerRecord" => outcome_of_reading(alloc, get_issuer_record(alloc, world, brand)),
        _ => without_method(alloc, method),
    }
}
