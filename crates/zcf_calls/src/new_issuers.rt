//! Issuers that an instance makes and keeps.

ghost use Rattle.std.specs.Prelude.{◌≡◌, ◌<◌, ◌++◌, ◌∷◌, [], true, IfOk, OnOk, length};
ghost use Rattle.rules.specs.brands.Brands.{brand_of, most_brands};
ghost use Rattle.rules.specs.brands.IssuerRecords.{issuer_of};
ghost use Rattle.escrow_calls.specs.call_outcomes.Lists.{IsEachShaped, effects_view};
ghost use Rattle.escrow_calls.specs.call_outcomes.CallOutcomes.{GivesOutcome, outcome_view};
ghost use Rattle.escrow_calls.specs.call_outcomes.Views.{IsShaped, effect_view};
ghost use Rattle.rules.specs.Words.{next_of};
ghost use Rattle.escrow_calls.specs.contract_reads.Known.{AreKnown};
ghost use Rattle.refusals.specs.host_text.Words.{is_keyword};
ghost use Rattle.escrow_calls.specs.host_world.Worlds.{world_of};
ghost use Rattle.zcf_calls.specs.IssuerParts.{minted, saved};
ghost use Rattle.host_data.specs.View.{trees};
ghost use Rattle.refusals.specs.Outcomes.{Gives};
ghost use Rattle.rules.specs.Records.{issuer_record};
ghost use Rattle.rules.specs.Zcf.{make_zcf_mint, save_issuer};
ghost use Rattle.rules.specs.world_state.Worlds as worlds;

use crate::issuers::{check_keeps_more, free_keyword};
use escrow_calls::call_outcomes_lib::effects::{Effect, InstancesEffect, SeatsEffect};
use escrow_calls::call_outcomes_lib::lists::Effects;
use escrow_calls::call_outcomes_lib::outcomes::CallOutcome;
use escrow_calls::contract_reads_lib::contract_words::objects::issuer_number;
use escrow_calls::contract_reads_lib::keywords::keyword_of;
use escrow_calls::host_world_lib::World;
use escrow_calls::registers_lib::brand_makers::Maker;
use escrow_calls::world_reads_lib::words::{next_of, runs};
use escrow_calls::zmint::issuer_record;
use host_data::data::{Data, ObjKind};
use host_data::values::object_data;
use refusals::amount_math_lib::Kind;
use refusals::host_text_lib::text::Text;
use refusals::stops::Stop;
use rules::brands_lib::Brand;
use rules::call_arguments_lib::places::kind_at;
use std::alloc::{AllocError, Global};

/// How many brands there are at most.
const MOST_BRANDS: u32 = 65535;

/// The number of the next brand: else `Limit`.
#[tactic(auto, unfolding(rules::specs::Words::next_of, refusals::specs::Outcomes::bind, refusals::specs::Outcomes::need))]
fn next_brand(world: &World) -> Result<u16, Stop>
    ensures { Gives (λ n. n) result (next_of (length (world_of world.now).brands) most_brands) }
{
    let made = world.registers.brands.made();
    next_of(made, MOST_BRANDS)?;
    Ok(made as u16)
}

/// A brand is made that is named by a keyword.
fn new_brand(alloc: Global, instance: u32, keyword: &Text, kind: Kind) -> Result<Effect, AllocError>
    ensures effect { IfOk result (λ e. effect_view e
        ≡ worlds.new_brand (brand_of keyword.now kind) (worlds.of_instance instance)) }
    ensures shaped { IfOk result IsShaped }
{
    let name = keyword.copy(alloc)?;
    let made = Brand { name, kind };
    Ok(Effect::Seats(SeatsEffect::NewBrand(made, Maker::Instance(instance))))
}

/// An issuer is kept under a keyword.
fn keep_effect(
    alloc: Global,
    instance: u32,
    keyword: &Text,
    brand: u16,
) -> Result<Effect, AllocError>
    requires { is_keyword keyword.now ≡ true }
    ensures effect { IfOk result (λ e. effect_view e
        ≡ worlds.add_issuer instance (issuer_of keyword.now brand)) }
    ensures shaped { IfOk result IsShaped }
{
    let keyword = keyword_of(alloc, keyword)?;
    Ok(Effect::Instances(InstancesEffect::AddIssuer(instance, keyword, brand)))
}

/// Adds that a brand is made that is named by a keyword.
fn add_brand(
    alloc: Global,
    effects: &mut Effects,
    instance: u32,
    keyword: &Text,
    kind: Kind,
) -> Result<(), AllocError>
    requires { IsEachShaped effects.old }
    ensures effects { OnOk result (effects_view effects.new ≡ effects_view effects.old
        ++ worlds.new_brand (brand_of keyword.now kind) (worlds.of_instance instance) ∷ []) }
    ensures shaped { OnOk result (IsEachShaped effects.new) }
{
    effects.push(new_brand(alloc, instance, keyword, kind)?)
}

/// Adds that an issuer is kept under a keyword.
fn add_keep(
    alloc: Global,
    effects: &mut Effects,
    instance: u32,
    keyword: &Text,
    brand: u16,
) -> Result<(), AllocError>
    requires named { is_keyword keyword.now ≡ true }
    requires shaped { IsEachShaped effects.old }
    ensures effects { OnOk result (effects_view effects.new ≡ effects_view effects.old
        ++ worlds.add_issuer instance (issuer_of keyword.now brand) ∷ []) }
    ensures shaped { OnOk result (IsEachShaped effects.new) }
{
    effects.push(keep_effect(alloc, instance, keyword, brand)?)
}

/// A brand is made that is named by a keyword, and its issuer is kept under that.
fn make_effects(
    alloc: Global,
    instance: u32,
    keyword: &Text,
    kind: Kind,
    brand: u16,
) -> Result<Effects, AllocError>
    requires { is_keyword keyword.now ≡ true }
    ensures effects { IfOk result (λ es. effects_view es
        ≡ worlds.new_brand (brand_of keyword.now kind) (worlds.of_instance instance)
        ∷ worlds.add_issuer instance (issuer_of keyword.now brand) ∷ []) }
    ensures shaped { IfOk result (λ es. IsEachShaped es) }
{
    let mut effects = Effects::new(alloc);
    add_brand(alloc, &mut effects, instance, keyword, kind)?;
    add_keep(alloc, &mut effects, instance, keyword, brand)?;
    Ok(effects)
}

/// What is left of making a mint once the keyword and the kind are read.
#[tactic(auto, unfolding(crate::specs::IssuerParts::minted, refusals::specs::Outcomes::bind))]
fn mint_plan(
    alloc: Global,
    world: &World,
    instance: u32,
    keyword: &Text,
    kind: Kind,
) -> Result<CallOutcome, Stop>
    requires named { is_keyword keyword.now ≡ true }
    requires hosted { instance < length (world_of world.now).tables.instances }
    ensures { GivesOutcome (minted (world_of world.now) instance keyword.now kind) result }
{
    check_keeps_more(world, instance)?;
    let brand = next_brand(world)?;
    let effects = make_effects(alloc, instance, keyword, kind, brand)?;
    Ok(CallOutcome {
        answer: object_data(ObjKind::Zmint, u32::from(brand)),
        effects,
    })
}

/// zcf.makeZCFMint(keyword, kind) (Zoe).
#[tactic(auto, unfolding(rules::specs::Zcf::make_zcf_mint, crate::specs::IssuerParts::free_keyword, crate::specs::IssuerParts::minted, refusals::specs::Outcomes::bind))]
pub fn make_zcf_mint(
    alloc: Global,
    world: &World,
    instance: u32,
    args: &[Data],
) -> Result<CallOutcome, Stop>
    requires { instance < length (world_of world.now).tables.instances }
    ensures { GivesOutcome (make_zcf_mint (world_of world.now) instance (trees args.now)) result }
{
    runs(world, instance)?;
    let keyword = free_keyword(alloc, world, instance, 1, args)?;
    let kind = kind_at(2, args)?;
    mint_plan(alloc, world, instance, keyword, kind)
}

/// The effect by which an issuer is kept under a keyword.
fn keep_effects(
    alloc: Global,
    instance: u32,
    keyword: &Text,
    brand: u16,
) -> Result<Effects, AllocError>
    requires { is_keyword keyword.now ≡ true }
    ensures effects { IfOk result (λ es. effects_view es
        ≡ worlds.add_issuer instance (issuer_of keyword.now brand) ∷ []) }
    ensures shaped { IfOk result (λ es. IsEachShaped es) }
{
    let mut effects = Effects::new(alloc);
    add_keep(alloc, &mut effects, instance, keyword, brand)?;
    Ok(effects)
}

/// The outcome by which an issuer is kept, which the call answers with its brand.
fn save_plan(
    alloc: Global,
    world: &World,
    instance: u32,
    keyword: &Text,
    brand: u16,
) -> Result<CallOutcome, AllocError>
    requires named { is_keyword keyword.now ≡ true }
    requires made { brand < length (world_of world.now).brands }
    ensures plan { IfOk result (λ plan. outcome_view plan ≡ (
      issuer_record (world_of world.now) brand,
      worlds.add_issuer instance (issuer_of keyword.now brand) ∷ [],
    )) }
    ensures shaped { IfOk result (λ plan. IsEachShaped plan.effects) }
{
    let effects = keep_effects(alloc, instance, keyword, brand)?;
    let answer = issuer_record(alloc, world, brand)?;
    Ok(CallOutcome { answer, effects })
}

/// What is left of saving an issuer once it and the keyword are read.
#[tactic(auto, unfolding(crate::specs::IssuerParts::saved, refusals::specs::Outcomes::bind))]
fn save(
    alloc: Global,
    world: &World,
    instance: u32,
    keyword: &Text,
    brand: u16,
) -> Result<CallOutcome, Stop>
    requires named { is_keyword keyword.now ≡ true }
    requires hosted { instance < length (world_of world.now).tables.instances }
    requires made { brand < length (world_of world.now).brands }
    ensures { GivesOutcome (saved (world_of world.now) instance keyword.now brand) result }
{
    check_keeps_more(world, instance)?;
    Ok(save_plan(alloc, world, instance, keyword, brand)?)
}

/// zcf.saveIssuer(issuer, keyword) (Zoe).
#[tactic(auto, unfolding(rules::specs::Zcf::save_issuer, crate::specs::IssuerParts::free_keyword, crate::specs::IssuerParts::saved, refusals::specs::Outcomes::bind))]
pub fn save_issuer(
    alloc: Global,
    world: &World,
    instance: u32,
    args: &[Data],
) -> Result<CallOutcome, Stop>
    requires made { instance < length (world_of world.now).tables.instances }
    requires known { AreKnown (world_of world.now) (trees args.now) }
    ensures { GivesOutcome (save_issuer (world_of world.now) instance (trees args.now)) result }
{
    runs(world, instance)?;
    let brand = issuer_number(world, 1, args)?;
    let keyword = free_keyword(alloc, world, instance, 2, args)?;
    save(alloc, world, instance, keyword, brand)
}
