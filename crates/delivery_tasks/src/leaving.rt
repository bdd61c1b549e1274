//! Seats that are left because a function threw, and instances that halt because their start did (Zoe).

ghost use Rattle.std.specs.Prelude.{◌≡◌, ◌++◌, OnOk};
ghost use Rattle.world_reads.specs.call_outcomes.Lists.{effects_view};
ghost use Rattle.delivery_turns.specs.Endings.{departs};
ghost use Rattle.world_reads.specs.host_world.Worlds.{world_of};
ghost use Rattle.host_data.specs.Tree.{Tree};
ghost use Rattle.delivery_turns.specs.turn_records.Views.{answer_view, delivery_view};
ghost use Rattle.delivery_turns.specs.turn_records.Events.{threw};
ghost use Rattle.delivery_turns.specs.world_state.Good.{IsGoodWorld};
ghost use Rattle.delivery_turns.specs.world_state.Worlds.{in_front};

use crate::open_seats::{add_exit, add_halt};
use delivery_turns::turn_records_lib::deliveries::Delivery;
use delivery_turns::turn_records_lib::events::{Answer, Cause};
use std::alloc::AllocError;
use world_reads::call_outcomes_lib::lists::Effects;
use world_reads::host_world_lib::World;

/// Adds what leaves because the function of a delivery threw.
fn add_thrown(world: &World, delivery: &Delivery, effects: &mut Effects) -> Result<(), AllocError>
    requires { IsGoodWorld (in_front (delivery_view delivery.now) (world_of world.now)) }
    ensures { (t : Tree) → OnOk result (effects_view effects.new
        ≡ effects_view effects.old
        ++ departs (delivery_view delivery.now) (threw t) (world_of world.now)) }
{
    match delivery {
        Delivery::Offer(offer) => add_exit(world, offer.seat, Cause::Threw, effects),
        Delivery::Start(start) => add_halt(world, start.instance, Cause::Halted, effects),
        _ => Ok(()),
    }
}

/// Adds what leaves at the end of a turn.
pub(crate) fn add_departures(
    world: &World,
    delivery: &Delivery,
    answer: &Answer,
    effects: &mut Effects,
) -> Result<(), AllocError>
    requires { IsGoodWorld (in_front (delivery_view delivery.now) (world_of world.now)) }
    ensures { OnOk result (effects_view effects.new ≡ effects_view effects.old
        ++ departs (delivery_view delivery.now) (answer_view answer.now) (world_of world.now)) }
{
    match answer {
        Answer::Threw(_) => add_thrown(world, delivery, effects),
        _ => Ok(()),
    }
}
