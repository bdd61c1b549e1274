//! Seats of an instance.

ghost use Rattle.std.specs.Prelude.{◌≡◌, ◌<◌, ◌≤◌, IfOk, OnOk, length};
ghost use Rattle.rules.specs.States.{is_open, seat_of};
ghost use Rattle.contract_reads.specs.Known.{AreKnown};
ghost use Rattle.host_world.specs.Worlds.{world_of};
ghost use Rattle.host_data.specs.View.{trees};
ghost use Rattle.refusals.specs.Outcomes.{Gives};
ghost use Rattle.rules.specs.Given.{own_seat};
ghost use Rattle.rules.specs.world_state.Worlds.{IsOpen};

use crate::contract_words::objects::seat_number;
use host_data::data::Data;
use host_world::World;
use host_world::draft_reads_lib::seat_reads::{is_open, seat_instance};
use refusals::codes::NumberCode;
use refusals::stops::Stop;

/// That a seat wasn't left: else `SeatExited` (Zoe).
#[tactic(auto, using(crate::proofs::Opened::open_is), unfolding(rules::specs::States::is_open, refusals::specs::Outcomes::need))]
pub fn check_open(world: &World, seat: u32) -> Result<(), Stop>
    requires { seat < length (world_of world.now).seats }
    ensures gives { Gives (λ _. tt) result (is_open (world_of world.now) seat) }
    ensures open { OnOk result (IsOpen (seat_of (world_of world.now) seat)) }
{
    if is_open(&world.draft, seat) {
        Ok(())
    } else {
        Err(Stop::numbered(NumberCode::SeatExited, seat))
    }
}

/// The open seat of an instance that stands at a place: else `WrongObject` with the place, `WrongInstance`,
/// `SeatExited` (Zoe).
#[tactic(auto, unfolding(rules::specs::Given::own_seat, refusals::specs::Outcomes::bind, refusals::specs::Outcomes::need))]
pub fn own_seat(world: &World, instance: u32, place: u32, args: &[Data]) -> Result<u32, Stop>
    requires place { 1 ≤ place }
    requires known { AreKnown (world_of world.now) (trees args.now) }
    ensures gives { Gives (λ n. n) result
        (own_seat (world_of world.now) instance place (trees args.now)) }
    ensures made { IfOk result (λ n. n < length (world_of world.now).seats) }
    ensures open { IfOk result (λ n. IsOpen (seat_of (world_of world.now) n)) }
{
    let seat = seat_number(world, place, args)?;
    if seat_instance(&world.draft, seat) != instance {
        return Err(Stop::numbered(NumberCode::WrongInstance, seat));
    }
    check_open(world, seat)?;
    Ok(seat)
}
