//! The methods of purses (ERTP).

ghost use Rattle.rules.specs.Purse as purse_rules;
ghost use Rattle.ertp_calls.specs.Parts.{of_plain_purse};
ghost use Rattle.refusals.specs.host_data.Values.{amount_tree};
ghost use Rattle.refusals.specs.host_data.View.{tree, trees};
ghost use Rattle.rules.specs.Purse.{deposit, get_alleged_brand, get_current_amount, of_purse, purse_of, withdraw};
ghost use Rattle.rules.specs.Words.{one_move};
ghost use Rattle.rules.specs.vault_model.Lists.{amount_of};
ghost use Rattle.rules.specs.rights_model.declared.Holder.TheVariants.{Payment, Purse};
ghost use Rattle.rules.specs.world_state.Good.{IsGoodWorld};
ghost use Rattle.std.specs.Prelude.{◌≡◌, ◌<◌, IfOk, length};
ghost use Rattle.world_reads.specs.Handed.{AreHanded};
ghost use Rattle.world_reads.specs.call_outcomes.Lists.{IsEachShaped};
ghost use Rattle.world_reads.specs.call_outcomes.CallOutcomes.{GivesOutcome, Reads, outcome_view};
ghost use Rattle.world_reads.specs.host_world.Worlds.{world_of};

use crate::brand::brand_data;
use crate::live_payments::{LivePayment, live_at};
use call_arguments::amounts::{amount, check_held};
use call_arguments::places::argument;
use refusals::host_data_lib::data::{Data, ObjKind};
use refusals::host_data_lib::values::{amount_data, object_data};
use refusals::stops::Stop;
use rules::rights_model_lib::{Holder, Movement};
use rules::value_tests_lib::holding_checks::{check_has, check_sum};
use std::alloc::{AllocError, Global};
use world_reads::call_outcomes_lib::outcomes::{CallOutcome, outcome_of_reading};
use world_reads::draft_reads_lib::purse_reads::{purse_amount, purse_brand};
use world_reads::host_world_lib::World;
use world_reads::moves::{moving_amount, paying};
use world_reads::words::{next_payment, without_method};

/// `purse.getAllegedBrand()` (ERTP).
#[tactic(auto, using(crate::proofs::HeldKinds::purse_brand_made), unfolding(rules::specs::Purse::get_alleged_brand))]
pub fn get_alleged_brand(world: &World, purse: u32) -> Result<Data, Stop>
    requires good { IsGoodWorld (world_of world.now) }
    requires made { purse < length (world_of world.now).rights.purses }
    ensures { Reads (get_alleged_brand (world_of world.now) purse) result }
{
    Ok(brand_data(world, purse_brand(&world.draft, purse)))
}

/// The amount that a purse has, as data.
fn purse_record(alloc: Global, world: &World, purse: u32) -> Result<Data, AllocError>
    requires { purse < length (world_of world.now).rights.purses }
    ensures { IfOk result (λ made. tree made ≡ amount_tree (purse_of (world_of world.now) purse)) }
{
    let held = purse_amount(&world.draft, purse).copy()?;
    amount_data(alloc, purse_brand(&world.draft, purse), &held)
}

/// `purse.getCurrentAmount()` (ERTP).
#[tactic(auto, unfolding(rules::specs::Purse::get_current_amount))]
pub fn get_current_amount(alloc: Global, world: &World, purse: u32) -> Result<Data, Stop>
    requires { purse < length (world_of world.now).rights.purses }
    ensures { Reads (get_current_amount (world_of world.now) purse) result }
{
    Ok(purse_record(alloc, world, purse)?)
}

/// All that a payment has goes to a purse, and is answered (ERTP).
fn deposit_plan(
    alloc: Global,
    purse: u32,
    brand: u16,
    given: LivePayment,
) -> Result<CallOutcome, AllocError>
    ensures plan { IfOk result (λ plan. outcome_view plan ≡ (
      amount_tree (amount_of brand given.value),
      one_move brand (Payment given.number) (Purse purse) given.value,
    )) }
    ensures shaped { IfOk result (λ plan. IsEachShaped plan.effects) }
{
    let LivePayment { number, value } = given;
    let deposits = Movement {
        brand,
        from: Holder::Payment(number),
        to: Holder::Purse(purse),
        value,
    };
    moving_amount(alloc, deposits)
}

/// `purse.deposit(payment, amount)`, and `deposit.receive(payment, amount)` (ERTP).
#[tactic(auto, using(crate::proofs::HeldKinds::purse_kind), unfolding(rules::specs::Purse::deposit, refusals::specs::Outcomes::bind))]
pub fn deposit(alloc: Global, world: &World, purse: u32, args: &[Data]) -> Result<CallOutcome, Stop>
    requires good { IsGoodWorld (world_of world.now) }
    requires made { purse < length (world_of world.now).rights.purses }
    requires handed { AreHanded (world_of world.now) (trees args.now) }
    ensures { GivesOutcome (deposit (world_of world.now) purse (trees args.now)) result }
{
    let brand = purse_brand(&world.draft, purse);
    let given = live_at(world, brand, 1, args)?;
    check_held(alloc, brand, &given.value, 2, argument(args, 2))?;
    check_sum(purse_amount(&world.draft, purse), &given.value)?;
    Ok(deposit_plan(alloc, purse, brand, given)?)
}

/// `purse.withdraw(amount)` (ERTP).
#[tactic(auto, unfolding(rules::specs::Purse::withdraw, refusals::specs::Outcomes::bind))]
pub fn withdraw(
    alloc: Global,
    world: &World,
    purse: u32,
    args: &[Data],
) -> Result<CallOutcome, Stop>
    requires { purse < length (world_of world.now).rights.purses }
    ensures { GivesOutcome (withdraw (world_of world.now) purse (trees args.now)) result }
{
    let brand = purse_brand(&world.draft, purse);
    let held = purse_amount(&world.draft, purse);
    let value = amount(alloc, brand, held.kind(), 1, argument(args, 1))?;
    check_has(held, &value)?;
    let payment = next_payment(world)?;
    Ok(paying(alloc, brand, Holder::Purse(purse), payment, value)?)
}

/// `purse.getDepositFacet()`: it has the purse's number (ERTP).
#[tactic(auto, unfolding(rules::specs::Purse::get_deposit_facet))]
pub fn get_deposit_facet(purse: u32) -> Result<Data, Stop>
    ensures { Reads (purse_rules.get_deposit_facet purse) result }
{
    Ok(object_data(ObjKind::Deposit, purse))
}

/// The methods of purses that tell what they have, take and give.
fn serve_plain_purse(
    alloc: Global,
    world: &World,
    purse: u32,
    method: &str,
    args: &[Data],
) -> Result<CallOutcome, Stop>
    requires good { IsGoodWorld (world_of world.now) }
    requires made { purse < length (world_of world.now).rights.purses }
    requires handed { AreHanded (world_of world.now) (trees args.now) }
    ensures { GivesOutcome
        (of_plain_purse (world_of world.now) purse method.now (trees args.now)) result }
{
    match method {
        "getAllegedBrand" => outcome_of_reading(alloc, get_alleged_brand(world, purse)),
        "getCurrentAmount" => outcome_of_reading(alloc, get_current_amount(alloc, world, purse)),
        "deposit" => deposit(alloc, world, purse, args),
        "withdraw" => withdraw(alloc, world, purse, args),
        _ => without_method(alloc, method),
    }
}

/// The methods of purses.
pub fn serve_purse(
    alloc: Global,
    world: &World,
    purse: u32,
    method: &str,
    args: &[Data],
) -> Result<CallOutcome, Stop>
    requires good { IsGoodWorld (world_of world.now) }
    requires made { purse < length (world_of world.now).rights.purses }
    requires handed { AreHanded (world_of world.now) (trees args.now) }
    ensures { GivesOutcome (of_purse (world_of world.now) purse method.now (trees args.now)) result }
{
    match method {
        "getDepositFacet" => outcome_of_reading(alloc, get_deposit_facet(purse)),
        _ => serve_plain_purse(alloc, world, purse, method, args),
    }
}
