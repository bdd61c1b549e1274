//! The method of ERTP's service, which makes a brand with its issuer and its mint.

ghost use Rattle.rules.specs.Ertp as ertp_rules;
ghost use Rattle.refusals.specs.host_data.View.{tree, trees};
ghost use Rattle.rules.specs.Ertp.{kit_tree, make_issuer_kit};
ghost use Rattle.rules.specs.brands.Brands.{brand_of};
ghost use Rattle.rules.specs.world_state.Worlds.{new_brand, of_kit};
ghost use Rattle.std.specs.Prelude.{◌≡◌, ◌∷◌, [], IfOk};
ghost use Rattle.world_reads.specs.call_outcomes.Lists.{IsEachShaped};
ghost use Rattle.world_reads.specs.call_outcomes.CallOutcomes.{GivesOutcome, outcome_view};
ghost use Rattle.world_reads.specs.host_world.Worlds.{world_of};

use call_arguments::places::{kind_at, text_at};
use refusals::amount_math_lib::Kind;
use refusals::host_data_lib::data::{Data, ObjKind};
use refusals::host_data_lib::values::object_data;
use refusals::host_text_lib::text::Text;
use refusals::stops::Stop;
use rules::brands_lib::{Brand, MOST_BRANDS};
use std::alloc::{AllocError, Global};
use world_reads::call_outcomes_lib::effects::{Effect, SeatsEffect};
use world_reads::call_outcomes_lib::outcomes::CallOutcome;
use world_reads::host_world_lib::World;
use world_reads::record_data::put;
use world_reads::registers_lib::brand_makers::Maker;
use world_reads::words::{next_of, without_method};

/// A new brand with its issuer and its mint, which have its number (ERTP).
fn kit_data(alloc: Global, kind: Kind, brand: u32) -> Result<Data, AllocError>
    ensures { IfOk result (λ made. tree made ≡ kit_tree kind brand) }
{
    let mut fields = Vec::new(alloc);
    put(
        alloc,
        &mut fields,
        "brand",
        object_data(ObjKind::Brand(kind), brand),
    )?;
    put(
        alloc,
        &mut fields,
        "issuer",
        object_data(ObjKind::Issuer, brand),
    )?;
    put(
        alloc,
        &mut fields,
        "mint",
        object_data(ObjKind::Mint, brand),
    )?;
    Ok(Data::Record(fields))
}

/// A brand is made by the kit that the call answers (ERTP).
fn kit_plan(alloc: Global, name: &Text, kind: Kind, brand: u32) -> Result<CallOutcome, AllocError>
    ensures plan { IfOk result (λ plan. outcome_view plan
        ≡ (kit_tree kind brand, new_brand (brand_of name.now kind) of_kit ∷ [])) }
    ensures shaped { IfOk result (λ plan. IsEachShaped plan.effects) }
{
    let answer = kit_data(alloc, kind, brand)?;
    let name = name.copy(alloc)?;
    let makes = SeatsEffect::NewBrand(Brand { name, kind }, Maker::Kit);
    CallOutcome::with_effect(alloc, answer, Effect::Seats(makes))
}

/// `ertp.makeIssuerKit(name, kind)` (ERTP).
#[tactic(auto, unfolding(rules::specs::Ertp::make_issuer_kit, refusals::specs::Outcomes::bind, call_arguments::specs::Arguments::kind_at, call_arguments::specs::Arguments::kind_in))]
pub fn make_issuer_kit(alloc: Global, world: &World, args: &[Data]) -> Result<CallOutcome, Stop>
    ensures { GivesOutcome (make_issuer_kit (world_of world.now) (trees args.now)) result }
{
    let name = text_at(1, 64, 1, args)?;
    let kind = kind_at(2, args)?;
    let brand = next_of(world.registers.brands.made(), MOST_BRANDS as u32)?;
    Ok(kit_plan(alloc, name, kind, brand)?)
}

/// The methods of ERTP's service.
pub fn serve_ertp(
    alloc: Global,
    world: &World,
    method: &str,
    args: &[Data],
) -> Result<CallOutcome, Stop>
    ensures { GivesOutcome (ertp_rules.of_ertp (world_of world.now) method.now (trees args.now)) result }
{
    match method {
        "makeIssuerKit" => make_issuer_kit(alloc, world, args),
        _ => without_method(alloc, method),
    }
}
