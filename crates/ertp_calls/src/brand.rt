//! Brands: what is read of them, and their methods (ERTP).

ghost use Rattle.refusals.specs.host_data.View.{tree, trees};
ghost use Rattle.rules.specs.Issuer.{get_alleged_name, get_asset_kind};
ghost use Rattle.rules.specs.Brand.{is_my_issuer, of_brand};
ghost use Rattle.rules.specs.Records.{brand_object, kind_word};
ghost use Rattle.rules.specs.world_state.Good.{IsGoodWorld};
ghost use Rattle.std.specs.Prelude.{◌≡◌, ◌<◌, length};
ghost use Rattle.world_reads.specs.Handed.{AreHanded};
ghost use Rattle.world_reads.specs.call_outcomes.CallOutcomes.{GivesOutcome, Reads};
ghost use Rattle.world_reads.specs.host_world.Worlds.{world_of};

use refusals::amount_math_lib::Kind;
use refusals::host_data_lib::data::{Data, ObjKind};
use refusals::host_data_lib::values::object_data;
use refusals::host_text_lib::text::Text;
use refusals::stops::Stop;
use std::alloc::Global;
use world_reads::call_outcomes_lib::outcomes::{CallOutcome, outcome_of_reading};
use world_reads::given::issuer_number;
use world_reads::host_world_lib::World;
use world_reads::words::without_method;

/// The brand of a number, which carries its kind (ERTP).
pub fn brand_data(world: &World, brand: u16) -> Data
    requires { brand < length (world_of world.now).brands }
    ensures { tree result ≡ brand_object (world_of world.now) brand }
{
    let kind = world.registers.brands.kind(brand);
    object_data(ObjKind::Brand(kind), u32::from(brand))
}

/// `issuer.getAllegedName()` and `brand.getAllegedName()` (ERTP).
#[tactic(auto, unfolding(rules::specs::Issuer::get_alleged_name))]
pub fn get_alleged_name(alloc: Global, world: &World, brand: u16) -> Result<Data, Stop>
    requires { brand < length (world_of world.now).brands }
    ensures { Reads (get_alleged_name (world_of world.now) brand) result }
{
    Ok(Data::Text(world.registers.brands.name(brand).copy(alloc)?))
}

/// The word for a kind (ERTP).
fn kind_word(kind: Kind) -> &'static str
    ensures { result.now ≡ kind_word kind }
{
    match kind {
        Kind::Nat => "nat",
        Kind::Set => "set",
        Kind::Bag => "bag",
    }
}

/// `issuer.getAssetKind()` (ERTP).
#[tactic(auto, unfolding(rules::specs::Issuer::get_asset_kind))]
pub fn get_asset_kind(alloc: Global, world: &World, brand: u16) -> Result<Data, Stop>
    requires { brand < length (world_of world.now).brands }
    ensures { Reads (get_asset_kind (world_of world.now) brand) result }
{
    let word = kind_word(world.registers.brands.kind(brand));
    Ok(Data::Text(Text::from_str(alloc, word)?))
}

/// `brand.isMyIssuer(issuer)`: it has the brand's number (ERTP).
#[tactic(auto, unfolding(rules::specs::Brand::is_my_issuer, refusals::specs::Outcomes::bind))]
pub fn is_my_issuer(world: &World, brand: u16, args: &[Data]) -> Result<Data, Stop>
    requires { AreHanded (world_of world.now) (trees args.now) }
    ensures { Reads (is_my_issuer brand (trees args.now)) result }
{
    let issuer = issuer_number(world, 1, args)?;
    Ok(Data::Bool(issuer == u32::from(brand)))
}

/// The methods of brands.
#[tactic(auto, using(crate::proofs::HeldKinds::few_brands))]
pub fn serve_brand(
    alloc: Global,
    world: &World,
    number: u32,
    method: &str,
    args: &[Data],
) -> Result<CallOutcome, Stop>
    requires good { IsGoodWorld (world_of world.now) }
    requires made { number < length (world_of world.now).brands }
    requires handed { AreHanded (world_of world.now) (trees args.now) }
    ensures { GivesOutcome (of_brand (world_of world.now) number method.now (trees args.now)) result }
{
    let brand = number as u16;
    match method {
        "getAllegedName" => outcome_of_reading(alloc, get_alleged_name(alloc, world, brand)),
        "isMyIssuer" => outcome_of_reading(alloc, is_my_issuer(world, brand, args)),
        _ => without_method(alloc, method),
    }
}
