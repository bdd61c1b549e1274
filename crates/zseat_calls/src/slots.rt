//! The slots of an open seat.

ghost use Rattle.std.specs.Prelude.{◌≡◌, ◌<◌, IfOk, OnOk, length};
ghost use Rattle.rules.specs.States.{allocation_of, is_open, seat_of};
ghost use Rattle.user_seat_calls.specs.host_world.Worlds.{world_of};
ghost use Rattle.refusals.specs.Outcomes.{Gives};
ghost use Rattle.rules.specs.world_state.Worlds.{IsOpen};

use contract_reads::contract_words::allocations::current_allocation;
use contract_reads::contract_words::own_seats::check_open;
use refusals::stops::Stop;
use rules::proposals_lib::allocations::Allocation;
use user_seat_calls::host_world_lib::World;

/// What the slots of a seat have, which is open: else `SeatExited` (Zoe).
pub(crate) fn open_slots(world: &World, seat: u32) -> Result<Allocation, Stop>
    requires { seat < length (world_of world.now).seats }
    ensures gives { Gives (λ _. tt) result (is_open (world_of world.now) seat) }
    ensures open { OnOk result (IsOpen (seat_of (world_of world.now) seat)) }
    ensures slots { IfOk result (λ slots. slots ≡ allocation_of (world_of world.now) seat) }
{
    check_open(world, seat)?;
    Ok(current_allocation(world, seat)?)
}
