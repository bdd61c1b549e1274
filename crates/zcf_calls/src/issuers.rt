//! What is asked of the issuers that an instance keeps.

ghost use Rattle.std.specs.Prelude.{◌≡◌, ◌<◌, ◌≤◌, IfOk, is_some, length, true};
ghost use Rattle.rules.specs.brands.IssuerRecords.{brand_under};
ghost use Rattle.escrow_calls.specs.call_outcomes.CallOutcomes.{Reads};
ghost use Rattle.escrow_calls.specs.contract_reads.Known.{AreKnown};
ghost use Rattle.refusals.specs.host_text.Words.{is_keyword};
ghost use Rattle.escrow_calls.specs.host_world.Worlds.{world_of};
ghost use Rattle.zcf_calls.specs.IssuerParts.{free_keyword};
ghost use Rattle.host_data.specs.View.{trees};
ghost use Rattle.refusals.specs.Outcomes.{Gives};
ghost use Rattle.rules.specs.Zcf.{assert_unique_keyword, get_asset_kind, get_brand_for_issuer, get_issuer_for_brand, get_terms, is_free, is_kept, keeps_more};
ghost use Rattle.rules.specs.world_state.Good.{IsGoodWorld};

use escrow_calls::contract_reads_lib::contract_words::objects::{brand_number, issuer_number};
use escrow_calls::ertp_calls_lib::brand;
use escrow_calls::ertp_calls_lib::brand::brand_data;
use escrow_calls::ertp_calls_lib::terms::terms_data;
use escrow_calls::host_world_lib::World;
use escrow_calls::world_reads_lib::words::keyword_at;
use host_data::data::{Data, ObjKind};
use host_data::values::object_data;
use refusals::codes::{NumberCode, TextCode};
use refusals::host_text_lib::text::Text;
use refusals::stops::Stop;
use rules::brands_lib::issuer_record::Issuer;
use std::alloc::Global;

/// How many issuers an instance keeps at most.
const MOST_ISSUERS: usize = 64;

/// Whether an issuer stands under a keyword.
fn is_taken(issuers: &[Issuer], keyword: &Text) -> bool
    ensures { result ≡ is_some (brand_under keyword.now issuers.now) }
{
    for issuer in issuers {
        if keyword.as_str() == issuer.keyword.as_str() {
            return true;
        }
    }
    false
}

/// That no issuer of an instance stands under a keyword: else `KeywordTaken` (Zoe).
#[tactic(auto, using(crate::proofs::Strangers::free_is), unfolding(rules::specs::Zcf::is_free, refusals::specs::Outcomes::need))]
pub fn check_free(alloc: Global, world: &World, instance: u32, keyword: &Text) -> Result<(), Stop>
    requires { instance < length (world_of world.now).tables.instances }
    ensures { Gives (λ _. tt) result (is_free (world_of world.now) instance keyword.now) }
{
    let issuers = world.registers.instances.issuers(instance).issuers();
    if is_taken(issuers, keyword) {
        Err(Stop::worded(alloc, TextCode::KeywordTaken, keyword.as_str()))
    } else {
        Ok(())
    }
}

/// That there is room for one issuer more: else `Limit`.
#[tactic(auto, unfolding(rules::specs::Zcf::keeps_more, refusals::specs::Outcomes::need))]
pub fn check_keeps_more(world: &World, instance: u32) -> Result<(), Stop>
    requires { instance < length (world_of world.now).tables.instances }
    ensures { Gives (λ _. tt) result (keeps_more (world_of world.now) instance) }
{
    if world.registers.instances.issuers(instance).len() < MOST_ISSUERS {
        Ok(())
    } else {
        Err(Stop::numbered(NumberCode::Limit, MOST_ISSUERS as u32))
    }
}

/// A keyword at a place under which the instance keeps no issuer: else `BadKeyword`, then
/// `KeywordTaken` (Zoe).
#[tactic(auto, unfolding(crate::specs::IssuerParts::free_keyword, refusals::specs::Outcomes::bind))]
pub fn free_keyword<'a>(
    alloc: Global,
    world: &World,
    instance: u32,
    place: u32,
    args: &'a [Data],
) -> Result<&'a Text, Stop>
    requires place { 1 ≤ place }
    requires hosted { instance < length (world_of world.now).tables.instances }
    ensures gives { Gives (λ k. k.now) result
        (free_keyword (world_of world.now) instance place (trees args.now)) }
    ensures named { IfOk result (λ k. is_keyword k.now ≡ true) }
{
    let keyword = keyword_at(alloc, place, args)?;
    check_free(alloc, world, instance, keyword)?;
    Ok(keyword)
}

/// zcf.assertUniqueKeyword(keyword) (Zoe).
#[tactic(auto, unfolding(rules::specs::Zcf::assert_unique_keyword, crate::specs::IssuerParts::free_keyword, refusals::specs::Outcomes::bind))]
pub fn assert_unique_keyword(
    alloc: Global,
    world: &World,
    instance: u32,
    args: &[Data],
) -> Result<Data, Stop>
    requires { instance < length (world_of world.now).tables.instances }
    ensures { Reads (assert_unique_keyword (world_of world.now) instance (trees args.now)) result }
{
    free_keyword(alloc, world, instance, 1, args)?;
    Ok(Data::Null)
}

/// zcf.getTerms(): with the brands and the issuers that the instance keeps now (Zoe).
#[tactic(auto, unfolding(rules::specs::Zcf::get_terms))]
pub fn get_terms(alloc: Global, world: &World, instance: u32) -> Result<Data, Stop>
    requires good { IsGoodWorld (world_of world.now) }
    requires made { instance < length (world_of world.now).tables.instances }
    ensures { Reads (get_terms (world_of world.now) instance) result }
{
    Ok(terms_data(alloc, world, instance)?)
}

/// That an instance keeps the issuer of a brand: else `WrongBrand` (Zoe).
#[tactic(auto, using(crate::proofs::Strangers::unknown_is), unfolding(refusals::specs::Outcomes::need))]
fn check_kept(world: &World, instance: u32, brand: u16) -> Result<(), Stop>
    requires { instance < length (world_of world.now).tables.instances }
    ensures { Gives (λ _. tt) result (is_kept (world_of world.now) instance brand) }
{
    if world.registers.instances.issuers(instance).has_brand(brand) {
        Ok(())
    } else {
        Err(Stop::numbered(NumberCode::WrongBrand, u32::from(brand)))
    }
}

/// zcf.getBrandForIssuer(issuer) (Zoe).
#[tactic(auto, unfolding(rules::specs::Zcf::get_brand_for_issuer, refusals::specs::Outcomes::bind))]
pub fn get_brand_for_issuer(world: &World, instance: u32, args: &[Data]) -> Result<Data, Stop>
    requires made { instance < length (world_of world.now).tables.instances }
    requires known { AreKnown (world_of world.now) (trees args.now) }
    ensures { Reads (get_brand_for_issuer (world_of world.now) instance (trees args.now)) result }
{
    let brand = issuer_number(world, 1, args)?;
    check_kept(world, instance, brand)?;
    Ok(brand_data(world, brand))
}

/// zcf.getIssuerForBrand(brand) (Zoe).
#[tactic(auto, unfolding(rules::specs::Zcf::get_issuer_for_brand, refusals::specs::Outcomes::bind))]
pub fn get_issuer_for_brand(world: &World, instance: u32, args: &[Data]) -> Result<Data, Stop>
    requires made { instance < length (world_of world.now).tables.instances }
    requires known { AreKnown (world_of world.now) (trees args.now) }
    ensures { Reads (get_issuer_for_brand (world_of world.now) instance (trees args.now)) result }
{
    let brand = brand_number(world, 1, args)?;
    check_kept(world, instance, brand)?;
    Ok(object_data(ObjKind::Issuer, u32::from(brand)))
}

/// zcf.getAssetKind(brand) (Zoe).
#[tactic(auto, unfolding(rules::specs::Zcf::get_asset_kind, rules::specs::Issuer::get_asset_kind, refusals::specs::Outcomes::bind))]
pub fn get_asset_kind(alloc: Global, world: &World, args: &[Data]) -> Result<Data, Stop>
    requires { AreKnown (world_of world.now) (trees args.now) }
    ensures { Reads (get_asset_kind (world_of world.now) (trees args.now)) result }
{
    let number = brand_number(world, 1, args)?;
    brand::get_asset_kind(alloc, world, number)
}
