//! The methods of issuers: here are those that name one payment at most (ERTP).

ghost use Rattle.rules.specs.rights_model.declared.Holder.TheVariants as holders;
ghost use Rattle.issuer_calls.specs.Parts.{of_plain_issuer};
ghost use Rattle.ertp_calls.specs.call_outcomes.Lists.{IsEachShaped};
ghost use Rattle.ertp_calls.specs.call_outcomes.CallOutcomes.{GivesOutcome, Reads, outcome_view};
ghost use Rattle.ertp_calls.specs.host_world.Worlds.{world_of};
ghost use Rattle.ertp_calls.specs.world_reads.Handed.{AreHanded};
ghost use Rattle.issuer_calls.specs.Methods.{of_paying_issuer};
ghost use Rattle.refusals.specs.host_data.Values.{amount_tree};
ghost use Rattle.refusals.specs.host_data.View.{trees};
ghost use Rattle.rules.specs.Issuer.{burn, claim, get_amount_of, get_brand, is_live, make_empty_purse, of_issuer};
ghost use Rattle.rules.specs.Words.{one_move};
ghost use Rattle.rules.specs.vault_model.Lists.{amount_of};
ghost use Rattle.rules.specs.world_state.Good.{IsGoodWorld};
ghost use Rattle.std.specs.Prelude.{◌<◌, ◌≡◌, IfOk, length};

use crate::combination::combine;
use crate::split::{split, split_many};
use ertp_calls::brand::{brand_data, get_alleged_name, get_asset_kind};
use ertp_calls::call_outcomes_lib::effects::{Effect, RightsEffect};
use ertp_calls::call_outcomes_lib::outcomes::{CallOutcome, outcome_of_reading};
use ertp_calls::draft_reads_lib::payment_reads;
use ertp_calls::draft_reads_lib::purse_reads::purses_made;
use ertp_calls::host_world_lib::World;
use ertp_calls::live_payments::{LivePayment, live_at, payment_at};
use ertp_calls::world_reads_lib::moves::{moving_amount, paying};
use ertp_calls::world_reads_lib::words::{next_of, next_payment, without_method};
use refusals::host_data_lib::data::{Data, ObjKind};
use refusals::host_data_lib::values::{amount_data, object_data};
use refusals::stops::Stop;
use rules::call_arguments_lib::amounts::check_held;
use rules::call_arguments_lib::places::argument;
use rules::rights_model_lib::{Holder, Movement};
use std::alloc::{AllocError, Global};

/// `issuer.getBrand()` (ERTP).
#[tactic(auto, unfolding(rules::specs::Issuer::get_brand))]
pub fn get_brand(world: &World, brand: u16) -> Result<Data, Stop>
    requires { brand < length (world_of world.now).brands }
    ensures { Reads (get_brand (world_of world.now) brand) result }
{
    Ok(brand_data(world, brand))
}

/// `issuer.makeEmptyPurse()` (ERTP).
#[tactic(auto, unfolding(rules::specs::Issuer::make_empty_purse, refusals::specs::Outcomes::bind))]
pub fn make_empty_purse(alloc: Global, world: &World, brand: u16) -> Result<CallOutcome, Stop>
    ensures { GivesOutcome (make_empty_purse (world_of world.now) brand) result }
{
    let purse = next_of(purses_made(&world.draft), u32::MAX)?;
    let answer = object_data(ObjKind::Purse, purse);
    let opens = Effect::Rights(RightsEffect::NewPurse(brand));
    Ok(CallOutcome::with_effect(alloc, answer, opens)?)
}

/// `issuer.isLive(payment)` (ERTP).
#[tactic(auto, unfolding(rules::specs::Issuer::is_live, refusals::specs::Outcomes::bind))]
pub fn is_live(world: &World, brand: u16, args: &[Data]) -> Result<Data, Stop>
    requires { AreHanded (world_of world.now) (trees args.now) }
    ensures { Reads (is_live (world_of world.now) brand (trees args.now)) result }
{
    let payment = payment_at(world, brand, 1, args)?;
    Ok(Data::Bool(payment_reads::is_live(&world.draft, payment)))
}

/// `issuer.getAmountOf(payment)` (ERTP).
#[tactic(auto, unfolding(rules::specs::Issuer::get_amount_of, refusals::specs::Outcomes::bind))]
pub fn get_amount_of(alloc: Global, world: &World, brand: u16, args: &[Data]) -> Result<Data, Stop>
    requires good { IsGoodWorld (world_of world.now) }
    requires handed { AreHanded (world_of world.now) (trees args.now) }
    ensures { Reads (get_amount_of (world_of world.now) brand (trees args.now)) result }
{
    let given = live_at(world, brand, 1, args)?;
    Ok(amount_data(alloc, brand, &given.value)?)
}

/// The value of a live payment goes outside.
fn burn_plan(alloc: Global, brand: u16, given: LivePayment) -> Result<CallOutcome, AllocError>
    ensures plan { IfOk result (λ plan. outcome_view plan ≡ (
      amount_tree (amount_of brand given.value),
      one_move brand (holders.Payment given.number) holders.Outside given.value,
    )) }
    ensures shaped { IfOk result (λ plan. IsEachShaped plan.effects) }
{
    let burns = Movement {
        brand,
        from: Holder::Payment(given.number),
        to: Holder::Outside,
        value: given.value,
    };
    moving_amount(alloc, burns)
}

/// `issuer.burn(payment, amount)` (ERTP).
#[tactic(auto, unfolding(rules::specs::Issuer::burn, refusals::specs::Outcomes::bind))]
pub fn burn(alloc: Global, world: &World, brand: u16, args: &[Data]) -> Result<CallOutcome, Stop>
    requires good { IsGoodWorld (world_of world.now) }
    requires handed { AreHanded (world_of world.now) (trees args.now) }
    ensures { GivesOutcome (burn (world_of world.now) brand (trees args.now)) result }
{
    let given = live_at(world, brand, 1, args)?;
    check_held(alloc, brand, &given.value, 2, argument(args, 2))?;
    Ok(burn_plan(alloc, brand, given)?)
}

/// `issuer.claim(payment, amount)` (ERTP).
#[tactic(auto, unfolding(rules::specs::Issuer::claim, refusals::specs::Outcomes::bind))]
pub fn claim(alloc: Global, world: &World, brand: u16, args: &[Data]) -> Result<CallOutcome, Stop>
    requires good { IsGoodWorld (world_of world.now) }
    requires handed { AreHanded (world_of world.now) (trees args.now) }
    ensures { GivesOutcome (claim (world_of world.now) brand (trees args.now)) result }
{
    let given = live_at(world, brand, 1, args)?;
    check_held(alloc, brand, &given.value, 2, argument(args, 2))?;
    let payment = next_payment(world)?;
    let from = Holder::Payment(given.number);
    Ok(paying(alloc, brand, from, payment, given.value)?)
}

/// The methods of issuers that tell of brands, open purses and burn.
fn serve_plain_issuer(
    alloc: Global,
    world: &World,
    brand: u16,
    method: &str,
    args: &[Data],
) -> Result<CallOutcome, Stop>
    requires good { IsGoodWorld (world_of world.now) }
    requires made { brand < length (world_of world.now).brands }
    requires handed { AreHanded (world_of world.now) (trees args.now) }
    ensures { GivesOutcome
        (of_plain_issuer (world_of world.now) brand method.now (trees args.now)) result }
{
    match method {
        "getBrand" => outcome_of_reading(alloc, get_brand(world, brand)),
        "makeEmptyPurse" => make_empty_purse(alloc, world, brand),
        "isLive" => outcome_of_reading(alloc, is_live(world, brand, args)),
        "burn" => burn(alloc, world, brand, args),
        _ => without_method(alloc, method),
    }
}

/// The methods of issuers that make payments of payments, and then the plain ones.
fn serve_paying_issuer(
    alloc: Global,
    world: &World,
    brand: u16,
    method: &str,
    args: &[Data],
) -> Result<CallOutcome, Stop>
    requires good { IsGoodWorld (world_of world.now) }
    requires made { brand < length (world_of world.now).brands }
    requires handed { AreHanded (world_of world.now) (trees args.now) }
    ensures { GivesOutcome
        (of_paying_issuer (world_of world.now) brand method.now (trees args.now)) result }
{
    match method {
        "claim" => claim(alloc, world, brand, args),
        "combine" => combine(alloc, world, brand, args),
        "split" => split(alloc, world, brand, args),
        "splitMany" => split_many(alloc, world, brand, args),
        _ => serve_plain_issuer(alloc, world, brand, method, args),
    }
}

/// The methods of issuers.
#[tactic(auto, using(ertp_calls::proofs::HeldKinds::few_brands))]
pub fn serve_issuer(
    alloc: Global,
    world: &World,
    number: u32,
    method: &str,
    args: &[Data],
) -> Result<CallOutcome, Stop>
    requires good { IsGoodWorld (world_of world.now) }
    requires made { number < length (world_of world.now).brands }
    requires handed { AreHanded (world_of world.now) (trees args.now) }
    ensures { GivesOutcome (of_issuer (world_of world.now) number method.now (trees args.now)) result }
{
    let brand = number as u16;
    match method {
        "getAllegedName" => outcome_of_reading(alloc, get_alleged_name(alloc, world, brand)),
        "getAssetKind" => outcome_of_reading(alloc, get_asset_kind(alloc, world, brand)),
        "getAmountOf" => outcome_of_reading(alloc, get_amount_of(alloc, world, brand, args)),
        _ => serve_paying_issuer(alloc, world, brand, method, args),
    }
}
