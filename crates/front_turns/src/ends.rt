//! What ends a turn, carried out.

ghost use Rattle.std.specs.Prelude.{◌≡◌, ◌<◌, OnOk, length};
ghost use Rattle.contract_powers.specs.world_effects.CarriedEffects.{AreCarried, IsInTurn};
ghost use Rattle.fair_laws.specs.delivery_laws.Works.{IsOut, LabelIsFree};
ghost use Rattle.delivery_tasks.specs.delivery_turns.Endings.{ending};
ghost use Rattle.contract_powers.specs.host_world.Worlds.{IsUndoable, world_now, world_of};
ghost use Rattle.contract_powers.specs.turn_records.Views.{answer_view, delivery_view};
ghost use Rattle.contract_powers.specs.world_state.Good.{IsGoodWorld};
ghost use Rattle.contract_powers.specs.world_state.Worlds.{in_front};
ghost use Rattle.front_turns.specs.FrontTurns.{front};

use contract_powers::host_world_lib::World;
use contract_powers::turn_records_lib::deliveries::Delivery;
use contract_powers::turn_records_lib::events::Answer;
use contract_powers::world_effects_lib::carry_out;
use delivery_tasks::endings::ending;
use std::alloc::{AllocError, Global};

/// The delivery that the turn is about.
#[tactic(auto, using(crate::proofs::TurnEffects::front_is))]
pub(crate) fn front(world: &World) -> &Delivery
    requires { 0 < length (world_now world.now).waiting }
    ensures { delivery_view result.now ≡ front world.now }
{
    match world.registers.queue.front() {
        Some(delivery) => delivery,
        None => unreachable!(),
    }
}

/// The end of the turn of the delivery in front, which is answered so. For want of memory some effects may have been
/// carried out, and the turn is to be undone.
pub(crate) fn carry_end(alloc: Global, world: &mut World, answer: &Answer) -> Result<(), AllocError>
    requires turn { IsInTurn world.old }
    requires fronted { IsGoodWorld (in_front (front world.old) (world_of world.old)) }
    requires out { IsOut (world_of world.old) (answer_view answer.now) }
    requires free { LabelIsFree (world_of world.old) (front world.old) (answer_view answer.now) }
    ensures ok { OnOk result (AreCarried world.old world.new
        (ending (front world.old) (answer_view answer.now) (world_of world.old))) }
    ensures back { IsUndoable world.old world.new }
{
    let effects = ending(alloc, world, front(world), answer)?;
    carry_out(world, alloc, effects)
}
