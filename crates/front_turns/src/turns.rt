//! The turn of the delivery in front.

ghost use Rattle.std.specs.Prelude.{◌≡◌, ◌<◌, IfOk, IfSome, length};
ghost use Rattle.delivery_tasks.specs.Views.{IsTaskShaped, beginning_view};
ghost use Rattle.delivery_tasks.specs.delivery_turns.Tasks.{beginning};
ghost use Rattle.contract_powers.specs.host_world.Worlds.{IsUndoable, world_now, world_of};
ghost use Rattle.contract_powers.specs.world_state.Good.{IsGoodWorld};
ghost use Rattle.front_turns.specs.FrontTurns.{IsBegun, IsDelivered, front};

use crate::ends::{carry_end, front};
use crate::tasks::work_task;
use contract_powers::host_world_lib::World;
use contract_powers::planner::Planner;
use contract_powers::turn_records_lib::deliveries::Reading;
use contract_powers::turn_records_lib::events::Answer;
use delivery_tasks::beginnings::delivery_beginning;
use delivery_tasks::tasks::Beginning;
use std::alloc::{AllocError, Global};

/// What was read for a delivery, and what it is answered.
#[derive(Drop)]
pub struct Delivered {
    pub reading: Reading,
    pub answer: Answer,
}

/// What is read for the delivery in front, and what is then to be done.
fn begin_delivery(alloc: Global, world: &World) -> Result<Beginning, AllocError>
    requires waits { 0 < length (world_now world.now).waiting }
    requires good { IsGoodWorld (world_now world.now) }
    ensures begins { IfOk result (λ b. beginning_view b ≡ beginning (world_of world.now) (front world.now)) }
    ensures shaped { IfOk result (λ b. IsTaskShaped b.task) }
{
    delivery_beginning(alloc, world, front(world))
}

/// The turn of a delivery for which all is read.
fn work_delivery<P: Planner>(
    alloc: Global,
    world: World,
    meter: u32,
    begun: Beginning,
) -> (World, Option<Delivered>)
    requires begun { IsBegun world }
    requires begins { beginning_view begun ≡ beginning (world_of world) (front world) }
    requires shaped { IsTaskShaped begun.task }
    ensures done { IfSome result.1 (IsDelivered meter world result.0) }
    ensures back { IsUndoable world result.0 }
{
    let Beginning { reading, task } = begun;
    let (mut world, done) = work_task::<P>(alloc, world, meter, task);
    let Ok(answer) = done else {
        drop(reading);
        return (world, None);
    };
    match carry_end(alloc, &mut world, &answer) {
        Ok(()) => (world, Some(Delivered { reading, answer })),
        Err(_) => {
            drop(reading);
            drop(answer);
            (world, None)
        }
    }
}

/// The turn of the delivery in front is worked on the world, where functions of instances run under the meter. The world
/// comes back, since what runs functions holds it while they run. For want of memory, where nothing is answered, some of
/// the turn may have been worked, and it is to be undone.
pub fn deliver<P: Planner>(alloc: Global, world: World, meter: u32) -> (World, Option<Delivered>)
    requires { IsBegun world }
    ensures done { IfSome result.1 (IsDelivered meter world result.0) }
    ensures back { IsUndoable world result.0 }
{
    match begin_delivery(alloc, &world) {
        Ok(begun) => work_delivery::<P>(alloc, world, meter, begun),
        Err(_) => (world, None),
    }
}
