//! What open seats have, and what is staged of them.

ghost use Rattle.std.specs.Prelude.{◌≡◌, ◌<◌, IfOk, length};
ghost use Rattle.std.specs.Option.{option_copied};
ghost use Rattle.rules.specs.States.{allocation_of, seat_of};
ghost use Rattle.host_world.specs.Worlds.{world_of};
ghost use Rattle.rules.specs.world_state.Worlds.{IsOpen, staged_at};

use host_world::World;
use rules::proposals_lib::allocations::Allocation;
use std::alloc::AllocError;

/// What the slots of an open seat have (Zoe's current allocation). It is copied.
pub fn current_allocation(world: &World, seat: u32) -> Result<Allocation, AllocError>
    requires made { seat < length (world_of world.now).seats }
    requires open { IsOpen (seat_of (world_of world.now) seat) }
    ensures { IfOk result (λ allocation. allocation ≡ allocation_of (world_of world.now) seat) }
{
    world.draft.seats().allocation(seat)
}

/// What is staged of an open seat (Zoe's staged allocation).
pub fn staged_allocation(world: &World, seat: u32) -> Option<&Allocation>
    requires made { seat < length (world_of world.now).seats }
    requires open { IsOpen (seat_of (world_of world.now) seat) }
    ensures { option_copied result ≡ staged_at (world_of world.now).staging seat }
{
    match world.draft.seats().staged(seat) {
        Ok(staged) => staged,
        Err(_) => unreachable!(),
    }
}
