//! What seats are while transfers between them are planned.

ghost use Rattle.std.specs.Prelude.{◌≡◌, ◌<◌, All, IfOk, length};
ghost use Rattle.std.specs.List.{AllPairs};
ghost use Rattle.world_reads.specs.host_world.Worlds.{world_of};
ghost use Rattle.rearrange.specs.TestedPlans.{can_take_part};
ghost use Rattle.rearrange_calls.specs.TransferStates.{AreStatesFor};
ghost use Rattle.refusals.specs.Outcomes.{Gives};
ghost use Rattle.rules.specs.Rearranging.{states_for};
ghost use Rattle.rules.specs.States.{state_of, unstaged};

use rearrange::plan_refusals::seats_told;
use rearrange::seat_states::{SeatStates, each_once};
use rearrange::seats::transfers_refusal;
use refusals::stops::Stop;
use rules::proposals_lib::plans::SeatState;
use std::alloc::{AllocError, Global};
use world_reads::host_world_lib::World;

/// What a seat is while a change is planned.
fn state(world: &World, seat: u32) -> Result<SeatState, AllocError>
    requires { seat < length (world_of world.now).seats }
    ensures { IfOk result (λ state. state ≡ state_of (world_of world.now) seat) }
{
    world.draft.seats().state(seat)
}

/// The same with nothing staged: transfers take no account of that (Zoe).
fn unstaged_state(world: &World, seat: u32) -> Result<SeatState, AllocError>
    requires { seat < length (world_of world.now).seats }
    ensures { IfOk result (λ state. state ≡ unstaged (state_of (world_of world.now) seat)) }
{
    let mut state = state(world, seat)?;
    state.staged = None;
    Ok(state)
}

/// What seats, listed once each in ascending order, are while transfers between them are planned.
fn states_of(alloc: Global, world: &World, once: &[u32]) -> Result<SeatStates, AllocError>
    requires made { All (λ n. n < length (world_of world.now).seats) once.now }
    requires order { AllPairs (λ m n. m < n) once.now }
    ensures { IfOk result (λ states. states ≡ states_for (world_of world.now) once.now) }
{
    let mut states = SeatStates::new(alloc);
    for seat in once {
        states.push(unstaged_state(world, *seat)?)?;
    }
    Ok(states)
}

/// What the seats are that transfers name, one state for each, while the transfers are planned.
pub fn states_for(alloc: Global, world: &World, seats: &[u32]) -> Result<SeatStates, AllocError>
    requires { All (λ n. n < length (world_of world.now).seats) seats.now }
    ensures { IfOk result (AreStatesFor (world_of world.now) seats.now) }
{
    let listed = seats.to_vec(alloc)?;
    let once = each_once(listed);
    states_of(alloc, world, once.as_slice())
}

/// That seats can take part in transfers: else `WrongInstance`, then `SeatExited`, with the least (Zoe).
#[tactic(auto, using(rearrange::proofs::TestedSeats::transfers_tests), unfolding(refusals::specs::Outcomes::none_such))]
pub fn check_part(instance: u32, states: &SeatStates, seats: &[u32]) -> Result<(), Stop>
    ensures { Gives (λ _. tt) result (can_take_part instance states.now seats.now) }
{
    match transfers_refusal(instance, states, seats) {
        Some(fault) => Err(Stop::Refused(seats_told(fault))),
        None => Ok(()),
    }
}
