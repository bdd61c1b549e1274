//! The methods of mints (ERTP).

ghost use Rattle.refusals.specs.Outcomes.{Gives};
ghost use Rattle.refusals.specs.host_data.View.{trees};
ghost use Rattle.rules.specs.Mint.{get_issuer, mint_payment, of_mint};
ghost use Rattle.rules.specs.ertp_mint.BrandSupply.{supply_at};
ghost use Rattle.rules.specs.value_tests.Tests.{can_come_out};
ghost use Rattle.rules.specs.world_state.Good.{IsGoodWorld};
ghost use Rattle.rules.specs.world_state.Rights.{kind_at};
ghost use Rattle.std.specs.Prelude.{◌≡◌, ◌<◌, length};
ghost use Rattle.world_reads.specs.call_outcomes.CallOutcomes.{GivesOutcome, Reads};
ghost use Rattle.world_reads.specs.host_world.Worlds.{world_of};
ghost use Rattle.world_reads.specs.vault.Drafts.{IsClean};

use call_arguments::amounts::amount;
use call_arguments::places::argument;
use refusals::amount_math_lib::Value;
use refusals::host_data_lib::data::{Data, ObjKind};
use refusals::host_data_lib::values::object_data;
use refusals::stops::Stop;
use rules::rights_model_lib::Holder;
use rules::value_tests_lib::holding_checks::check_out;
use std::alloc::Global;
use world_reads::call_outcomes_lib::outcomes::{CallOutcome, outcome_of_reading};
use world_reads::host_world_lib::World;
use world_reads::moves::paying;
use world_reads::vault_lib::draft::Draft;
use world_reads::words::{next_payment, without_method};

/// `mint.getIssuer()`: it has the mint's number (ERTP).
#[tactic(auto, unfolding(rules::specs::Mint::get_issuer))]
pub fn get_issuer(brand: u16) -> Result<Data, Stop>
    ensures { Reads (get_issuer brand) result }
{
    Ok(object_data(ObjKind::Issuer, u32::from(brand)))
}

/// That a value may come out of its brand beside what is out of it: else the refusals of what is out, then of what
/// was minted (ERTP).
#[tactic(auto, using(crate::proofs::Supplies::supplies_counted, crate::proofs::Supplies::nothing_stored))]
fn check_comes_out(draft: &Draft, brand: u16, given: &Value) -> Result<(), Stop>
    requires clean { IsClean draft.now }
    requires made { brand < length draft.now.now.out }
    requires kind { given.now.kind ≡ kind_at draft.now.now.out brand }
    ensures { Gives (λ _. tt) result
        (can_come_out (supply_at draft.now.now.out brand) given.now.content) }
{
    draft.valid();
    check_out(draft.supply(), brand, given)
}

/// `mint.mintPayment(amount)` (ERTP).
#[tactic(auto, using(crate::proofs::HeldKinds::brand_kind, crate::proofs::HeldKinds::supply_made), unfolding(rules::specs::Mint::mint_payment, refusals::specs::Outcomes::bind))]
pub fn mint_payment(
    alloc: Global,
    world: &World,
    brand: u16,
    args: &[Data],
) -> Result<CallOutcome, Stop>
    requires good { IsGoodWorld (world_of world.now) }
    requires clean { IsClean world.now.draft }
    requires made { brand < length (world_of world.now).brands }
    ensures { GivesOutcome (mint_payment (world_of world.now) brand (trees args.now)) result }
{
    let kind = world.registers.brands.kind(brand);
    let value = amount(alloc, brand, kind, 1, argument(args, 1))?;
    check_comes_out(&world.draft, brand, &value)?;
    let payment = next_payment(world)?;
    Ok(paying(alloc, brand, Holder::Outside, payment, value)?)
}

/// The methods of mints.
#[tactic(auto, using(crate::proofs::HeldKinds::few_brands))]
pub fn serve_mint(
    alloc: Global,
    world: &World,
    number: u32,
    method: &str,
    args: &[Data],
) -> Result<CallOutcome, Stop>
    requires good { IsGoodWorld (world_of world.now) }
    requires clean { IsClean world.now.draft }
    requires made { number < length (world_of world.now).brands }
    ensures { GivesOutcome (of_mint (world_of world.now) number method.now (trees args.now)) result }
{
    let brand = number as u16;
    match method {
        "getIssuer" => outcome_of_reading(alloc, get_issuer(brand)),
        "mintPayment" => mint_payment(alloc, world, brand, args),
        _ => without_method(alloc, method),
    }
}
