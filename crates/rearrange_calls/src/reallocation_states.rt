//! What seats are while a reallocation is planned.

ghost use Rattle.std.specs.Prelude.{◌≡◌, ◌<◌, All, IfOk, length, map};
ghost use Rattle.std.specs.List.{AllPairs};
ghost use Rattle.world_reads.specs.host_world.Worlds.{world_of};
ghost use Rattle.rearrange_calls.specs.Among.{HaveAll};
ghost use Rattle.rules.specs.States.{state_of};

use rearrange::seat_states::{SeatStates, each_once};
use rules::proposals_lib::plans::SeatState;
use std::alloc::{AllocError, Global};
use world_reads::host_world_lib::World;

/// What a seat is while a change is planned.
fn state(world: &World, seat: u32) -> Result<SeatState, AllocError>
    requires { seat < length (world_of world.now).seats }
    ensures { IfOk result (λ state. state ≡ state_of (world_of world.now) seat) }
{
    world.draft.seats().state(seat)
}

/// What seats, listed once each in ascending order, are while a change is planned.
pub fn states(alloc: Global, world: &World, once: &[u32]) -> Result<SeatStates, AllocError>
    requires made { All (λ n. n < length (world_of world.now).seats) once.now }
    requires order { AllPairs (λ m n. m < n) once.now }
    ensures { IfOk result (λ states. states ≡ map (state_of (world_of world.now)) once.now) }
{
    let mut states = SeatStates::new(alloc);
    for seat in once {
        states.push(state(world, *seat)?)?;
    }
    Ok(states)
}

/// A second list of seats.
fn copy_of_seats(alloc: Global, seats: &[u32]) -> Result<Vec<u32>, AllocError>
    ensures { IfOk result (λ all. all.items ≡ seats.now) }
{
    seats.to_vec(alloc)
}

/// Listed seats, and those of which something is staged.
fn with_staged(alloc: Global, world: &World, seats: &[u32]) -> Result<Vec<u32>, AllocError>
    requires { All (λ n. n < length (world_of world.now).seats) seats.now }
    ensures { IfOk result (λ all. HaveAll (world_of world.now) seats.now all.items) }
{
    let mut all = copy_of_seats(alloc, seats)?;
    let mut staged = world.draft.seats().staged_seats()?;
    all.append(&mut staged)?;
    Ok(all)
}

/// Listed seats, and those of which something is staged, each once.
pub fn all_once(alloc: Global, world: &World, seats: &[u32]) -> Result<Vec<u32>, AllocError>
    requires { All (λ n. n < length (world_of world.now).seats) seats.now }
    ensures all { IfOk result (λ once. HaveAll (world_of world.now) seats.now once.items) }
    ensures order { IfOk result (λ once. AllPairs (λ m n. m < n) once.items) }
{
    let all = with_staged(alloc, world, seats)?;
    Ok(each_once(all))
}
