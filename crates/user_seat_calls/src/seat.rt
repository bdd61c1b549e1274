//! The methods of users' seats (Zoe).

ghost use Rattle.user_seat_calls.specs.Parts.{of_plain_seat};
ghost use Rattle.host_data.specs.Amounts.{seen};
ghost use Rattle.host_data.specs.Tree.{field_of};
ghost use Rattle.host_data.specs.View.{tree, trees};
ghost use Rattle.refusals.specs.Codes.{keyword_mismatch};
ghost use Rattle.refusals.specs.Outcomes.{wanted};
ghost use Rattle.rules.specs.Seat.{get_final_allocation, get_offer_result, get_payout, get_payouts, get_proposal, has_exited, of_seat, payouts_of, try_exit};
ghost use Rattle.rules.specs.Records.{allocation_tree};
ghost use Rattle.rules.specs.promise_store.Views.{state_view};
ghost use Rattle.rules.specs.world_state.Good.{IsGoodWorld};
ghost use Rattle.std.specs.Prelude.{◌≡◌, ◌<◌, IfOk, length, option_map};
ghost use Rattle.user_seat_calls.specs.Fulfilment.{fulfilment};
ghost use Rattle.world_reads.specs.call_outcomes.CallOutcomes.{GivesOutcome, Reads};
ghost use Rattle.world_reads.specs.host_world.Worlds.{world_of};

use crate::proposal::proposal_data;
use host_data::data::{Data, ObjKind};
use host_data::values::object_data;
use refusals::codes::{BareCode, NumberCode, TextCode};
use refusals::host_text_lib::text::Text;
use refusals::stops::Stop;
use rules::promise_store_lib::{Settlement, State};
use rules::proposals_lib::allocations::Allocation;
use rules::proposals_lib::offers::Exit;
use rules::turn_records_lib::events::Cause;
use std::alloc::{AllocError, Global};
use world_reads::call_outcomes_lib::effects::{Effect, SeatsEffect};
use world_reads::call_outcomes_lib::outcomes::{CallOutcome, outcome_of_reading};
use world_reads::draft_reads_lib::seat_reads::{is_open, last_allocation, seat_proposal};
use world_reads::host_world_lib::World;
use world_reads::record_data::allocation_data;
use world_reads::words::{keyword_at, without_method};

/// `seat.hasExited()` (Zoe).
#[tactic(auto, using(crate::proofs::SeatFacts::left_or_open), unfolding(rules::specs::Seat::has_exited))]
pub fn has_exited(world: &World, seat: u32) -> Result<Data, Stop>
    requires { seat < length (world_of world.now).seats }
    ensures { Reads (has_exited (world_of world.now) seat) result }
{
    Ok(Data::Bool(!is_open(&world.draft, seat)))
}

/// `seat.getPayouts()` (Zoe).
#[tactic(auto, using(crate::proofs::SeatFacts::seat_paired), unfolding(rules::specs::Seat::get_payouts))]
pub fn get_payouts(world: &World, seat: u32) -> Result<Data, Stop>
    requires good { IsGoodWorld (world_of world.now) }
    requires made { seat < length (world_of world.now).seats }
    ensures { Reads (get_payouts (world_of world.now) seat) result }
{
    let pair = world.registers.pairs.of(seat);
    Ok(object_data(ObjKind::Promise, pair.payouts))
}

/// `seat.getOfferResult()` (Zoe).
#[tactic(auto, using(crate::proofs::SeatFacts::seat_paired), unfolding(rules::specs::Seat::get_offer_result))]
pub fn get_offer_result(world: &World, seat: u32) -> Result<Data, Stop>
    requires good { IsGoodWorld (world_of world.now) }
    requires made { seat < length (world_of world.now).seats }
    ensures { Reads (get_offer_result (world_of world.now) seat) result }
{
    let pair = world.registers.pairs.of(seat);
    Ok(object_data(ObjKind::Promise, pair.result))
}

/// What a promise was fulfilled with, as its state says, where it was.
fn fulfilment(state: State<'_>) -> Option<&Data>
    ensures { seen result ≡ fulfilment (state_view state.entry) }
{
    match state {
        State::Settled(Settlement::Ok(given)) => Some(given),
        State::Settled(Settlement::Broken(_)) => None,
        State::Pending => None,
        State::Follows(_) => None,
    }
}

/// The payment of a keyword, of a seat that was paid out.
#[tactic(auto, using(crate::proofs::SeatFacts::seat_paired, crate::proofs::SeatFacts::payouts_made, crate::proofs::SeatFacts::fulfilled_is))]
fn payout_under<'a>(world: &'a World, seat: u32, keyword: &str) -> Option<&'a Data>
    requires good { IsGoodWorld (world_of world.now) }
    requires made { seat < length (world_of world.now).seats }
    ensures { option_map (λ payment. tree payment.now) result
        ≡ field_of keyword.now (payouts_of (world_of world.now) seat) }
{
    let pair = world.registers.pairs.of(seat);
    fulfilment(world.registers.promises.state(pair.payouts))?.field(keyword)
}

/// A copy of the payment of a keyword, of a seat that was paid out: else `KeywordMismatch`.
#[tactic(auto, unfolding(refusals::specs::Outcomes::wanted))]
fn payout_copy(alloc: Global, world: &World, seat: u32, keyword: &Text) -> Result<Data, Stop>
    requires good { IsGoodWorld (world_of world.now) }
    requires made { seat < length (world_of world.now).seats }
    ensures { Reads (wanted (field_of keyword.now (payouts_of (world_of world.now) seat))
        (keyword_mismatch keyword.now)) result }
{
    match payout_under(world, seat, keyword.as_str()) {
        Some(payment) => Ok(payment.copy(alloc)?),
        None => Err(Stop::worded(alloc, TextCode::KeywordMismatch, keyword.as_str())),
    }
}

/// `seat.getPayout(keyword)` (Zoe; `Pending` is our own).
#[tactic(auto, using(crate::proofs::SeatFacts::left_or_open), unfolding(rules::specs::Seat::get_payout, refusals::specs::Outcomes::bind, refusals::specs::Outcomes::need))]
pub fn get_payout(alloc: Global, world: &World, seat: u32, args: &[Data]) -> Result<Data, Stop>
    requires good { IsGoodWorld (world_of world.now) }
    requires made { seat < length (world_of world.now).seats }
    ensures { Reads (get_payout (world_of world.now) seat (trees args.now)) result }
{
    let keyword = keyword_at(alloc, 1, args)?;
    if is_open(&world.draft, seat) {
        Err(Stop::bare(BareCode::Pending))
    } else {
        payout_copy(alloc, world, seat, keyword)
    }
}

/// `seat.tryExit()` (Zoe).
#[tactic(auto, unfolding(rules::specs::Seat::try_exit, refusals::specs::Outcomes::bind, refusals::specs::Outcomes::need))]
pub fn try_exit(alloc: Global, world: &World, seat: u32) -> Result<CallOutcome, Stop>
    requires { seat < length (world_of world.now).seats }
    ensures { GivesOutcome (try_exit (world_of world.now) seat) result }
{
    if !is_open(&world.draft, seat) {
        return Err(Stop::numbered(NumberCode::SeatExited, seat));
    }
    match seat_proposal(&world.draft, seat).exit {
        Exit::OnDemand => (),
        Exit::Waived => return Err(Stop::numbered(NumberCode::NotOnDemand, seat)),
        Exit::AfterDeadline(_) => return Err(Stop::numbered(NumberCode::NotOnDemand, seat)),
    }
    let leaves = Effect::Seats(SeatsEffect::Exit(seat, Cause::Asked));
    Ok(CallOutcome::with_effect(alloc, Data::Null, leaves)?)
}

/// `seat.getProposal()` (Zoe).
#[tactic(auto, unfolding(rules::specs::Seat::get_proposal))]
pub fn get_proposal(alloc: Global, world: &World, seat: u32) -> Result<Data, Stop>
    requires { seat < length (world_of world.now).seats }
    ensures { Reads (get_proposal (world_of world.now) seat) result }
{
    Ok(proposal_data(alloc, seat_proposal(&world.draft, seat))?)
}

/// The record from keyword to amount of an allocation that is used up.
fn allocation_record(alloc: Global, shares: Allocation) -> Result<Data, AllocError>
    ensures { IfOk result (λ made. tree made ≡ allocation_tree shares) }
{
    allocation_data(alloc, shares.shares())
}

/// `seat.getFinalAllocation()` (Zoe; `Pending` is our own).
#[tactic(auto, unfolding(rules::specs::Seat::get_final_allocation, refusals::specs::Outcomes::bind, refusals::specs::Outcomes::wanted))]
pub fn get_final_allocation(alloc: Global, world: &World, seat: u32) -> Result<Data, Stop>
    requires { seat < length (world_of world.now).seats }
    ensures { Reads (get_final_allocation (world_of world.now) seat) result }
{
    match last_allocation(&world.draft, seat)? {
        Some(shares) => Ok(allocation_record(alloc, shares)?),
        None => Err(Stop::bare(BareCode::Pending)),
    }
}

/// The methods of users' seats that tell of what is left of an offer, and leave.
fn serve_plain_seat(
    alloc: Global,
    world: &World,
    seat: u32,
    method: &str,
    args: &[Data],
) -> Result<CallOutcome, Stop>
    requires good { IsGoodWorld (world_of world.now) }
    requires made { seat < length (world_of world.now).seats }
    ensures { GivesOutcome
        (of_plain_seat (world_of world.now) seat method.now (trees args.now)) result }
{
    match method {
        "hasExited" => outcome_of_reading(alloc, has_exited(world, seat)),
        "getPayouts" => outcome_of_reading(alloc, get_payouts(world, seat)),
        "getPayout" => outcome_of_reading(alloc, get_payout(alloc, world, seat, args)),
        "getOfferResult" => outcome_of_reading(alloc, get_offer_result(world, seat)),
        "tryExit" => try_exit(alloc, world, seat),
        _ => without_method(alloc, method),
    }
}

/// The methods of users' seats.
pub fn serve_seat(
    alloc: Global,
    world: &World,
    seat: u32,
    method: &str,
    args: &[Data],
) -> Result<CallOutcome, Stop>
    requires good { IsGoodWorld (world_of world.now) }
    requires made { seat < length (world_of world.now).seats }
    ensures { GivesOutcome (of_seat (world_of world.now) seat method.now (trees args.now)) result }
{
    match method {
        "getProposal" => outcome_of_reading(alloc, get_proposal(alloc, world, seat)),
        "getFinalAllocation" => outcome_of_reading(alloc, get_final_allocation(alloc, world, seat)),
        _ => serve_plain_seat(alloc, world, seat, method, args),
    }
}
