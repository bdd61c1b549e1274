//! What a seat was opened for, what it has, and what is staged of it.

ghost use Rattle.std.specs.Prelude.{◌≡◌, ◌<◌, IfOk, length};
ghost use Rattle.std.specs.Option.{option_copied};
ghost use Rattle.user_seat_calls.specs.call_outcomes.CallOutcomes.{Reads};
ghost use Rattle.rules.specs.States.{allocation_of, seat_of};
ghost use Rattle.rules.specs.Zseat.{get_amount_allocated, get_current_allocation, get_proposal, get_staged_allocation};
ghost use Rattle.contract_reads.specs.Known.{AreKnown};
ghost use Rattle.user_seat_calls.specs.host_world.Worlds.{world_of};
ghost use Rattle.host_data.specs.View.{trees};
ghost use Rattle.rules.specs.proposals.Shares.{amount_under};
ghost use Rattle.rules.specs.world_state.Worlds.{IsOpen};
ghost use Rattle.zseat_calls.specs.Shown.{amount_shown};

use contract_reads::contract_words::allocations::{current_allocation, staged_allocation};
use contract_reads::contract_words::objects::brand_number;
use contract_reads::contract_words::own_seats::check_open;
use contract_reads::keywords::keyword_of;
use host_data::data::Data;
use host_data::values::amount_data;
use refusals::amount_math_lib::{Amount, Value};
use refusals::codes::NumberCode;
use refusals::host_text_lib::keyword::Keyword;
use refusals::stops::Stop;
use std::alloc::{AllocError, Global};
use user_seat_calls::draft_reads_lib::seat_reads::seat_proposal;
use user_seat_calls::host_world_lib::World;
use user_seat_calls::proposal::proposal_data;
use user_seat_calls::world_reads_lib::record_data::allocation_data;
use user_seat_calls::world_reads_lib::words::keyword_at;

/// zseat.getProposal() (Zoe).
#[tactic(auto, unfolding(rules::specs::Zseat::get_proposal))]
pub fn get_proposal(alloc: Global, world: &World, seat: u32) -> Result<Data, Stop>
    requires { seat < length (world_of world.now).seats }
    ensures { Reads (get_proposal (world_of world.now) seat) result }
{
    Ok(proposal_data(alloc, seat_proposal(&world.draft, seat))?)
}

/// zseat.getCurrentAllocation() (Zoe).
#[tactic(auto, unfolding(rules::specs::Zseat::get_current_allocation, refusals::specs::Outcomes::bind))]
pub fn get_current_allocation(alloc: Global, world: &World, seat: u32) -> Result<Data, Stop>
    requires { seat < length (world_of world.now).seats }
    ensures { Reads (get_current_allocation (world_of world.now) seat) result }
{
    check_open(world, seat)?;
    let allocation = current_allocation(world, seat)?;
    Ok(allocation_data(alloc, allocation.shares())?)
}

/// zseat.getStagedAllocation(): what is staged, else what the seat has (Zoe).
#[tactic(auto, unfolding(rules::specs::Zseat::get_staged_allocation, refusals::specs::Outcomes::bind))]
pub fn get_staged_allocation(alloc: Global, world: &World, seat: u32) -> Result<Data, Stop>
    requires { seat < length (world_of world.now).seats }
    ensures { Reads (get_staged_allocation (world_of world.now) seat) result }
{
    check_open(world, seat)?;
    if let Some(staged) = staged_allocation(world, seat) {
        return Ok(allocation_data(alloc, staged.shares())?);
    }
    let allocation = current_allocation(world, seat)?;
    Ok(allocation_data(alloc, allocation.shares())?)
}

/// zseat.getAmountAllocated(keyword, brand): nothing of the brand where the keyword has no slot (Zoe).
#[tactic(auto, unfolding(rules::specs::Zseat::get_amount_allocated, crate::specs::Shown::amount_shown, refusals::specs::Outcomes::bind))]
pub fn get_amount_allocated(
    alloc: Global,
    world: &World,
    seat: u32,
    args: &[Data],
) -> Result<Data, Stop>
    requires made { seat < length (world_of world.now).seats }
    requires known { AreKnown (world_of world.now) (trees args.now) }
    ensures { Reads (get_amount_allocated (world_of world.now) seat (trees args.now)) result }
{
    check_open(world, seat)?;
    let keyword = keyword_of(alloc, keyword_at(alloc, 1, args)?)?;
    let brand = brand_number(world, 2, args)?;
    let held = slot_amount(world, seat, &keyword)?;
    amount_shown(alloc, world, brand, held.as_ref())
}

/// What the slot of a keyword of an open seat has, which alone is copied; nothing where there is no such slot.
fn slot_amount(world: &World, seat: u32, keyword: &Keyword) -> Result<Option<Amount>, AllocError>
    requires made { seat < length (world_of world.now).seats }
    requires open { IsOpen (seat_of (world_of world.now) seat) }
    ensures { IfOk result (λ held. held
        ≡ amount_under keyword.now (allocation_of (world_of world.now) seat)) }
{
    let seats = world.draft.seats();
    if !seats.has_slot(seat, keyword) {
        return Ok(None);
    }
    let value = seats.holding(seat, keyword).copy()?;
    let brand = seats.brand(seat, keyword);
    Ok(Some(Amount { brand, value }))
}

/// An amount of a brand that is held, or nothing of it: else `WrongBrand`.
#[tactic(auto, unfolding(crate::specs::Shown::amount_shown, refusals::specs::Outcomes::bind, refusals::specs::Outcomes::need))]
fn amount_shown(
    alloc: Global,
    world: &World,
    brand: u16,
    held: Option<&Amount>,
) -> Result<Data, Stop>
    requires { brand < length (world_of world.now).brands }
    ensures { Reads (amount_shown (world_of world.now) brand (option_copied held.entry)) result }
{
    let Some(held) = held else {
        let nothing = Value::empty(world.registers.brands.kind(brand));
        return Ok(amount_data(alloc, brand, &nothing)?);
    };
    if held.brand != brand {
        return Err(Stop::numbered(NumberCode::WrongBrand, u32::from(brand)));
    }
    Ok(amount_data(alloc, brand, &held.value)?)
}
