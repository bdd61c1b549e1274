//! Effects carried out on the world of a turn: good effects, carried out in order, make of it just
//! what their definitions say, and whatever a call answers the turn can be undone.
#![tactic(auto)]

pub mod rights_effects;
pub mod seat_effects;

ghost use Rattle.std.specs.Prelude.{◌≡◌, OnOk};
ghost use Rattle.register_effects.specs.call_outcomes.Lists.{IsEachShaped, effects_view};
ghost use Rattle.register_effects.specs.call_outcomes.Views.{AreShaped, IsShaped, effect_view, effect_views};
ghost use Rattle.register_effects.specs.host_world.Worlds.{IsUndoable, world_of};
ghost use Rattle.world_effects.specs.CarriedEffects.{AreCarried, IsCarried, IsInTurn};
ghost use Rattle.world_laws.specs.world_state.Good.{AreGood, IsGoodEffect};

use crate::rights_effects::carry_rights;
use crate::seat_effects::carry_seats;
use register_effects::call_outcomes_lib::effects::Effect;
use register_effects::call_outcomes_lib::lists::Effects;
use register_effects::carry::{carry_instances, carry_labels, carry_promises};
use register_effects::host_world_lib::World;
pub use register_effects::{call_outcomes_lib, escrow_lib, host_world_lib, world_reads_lib};
use std::alloc::{AllocError, Global};
pub use world_laws::{actors_lib, rights_model_lib, turn_records_lib};

/// A good effect is carried out.
fn carry_one(world: &mut World, alloc: Global, effect: Effect) -> Result<(), AllocError>
    requires turn { IsInTurn world.old }
    requires shape { IsShaped effect }
    requires can { IsGoodEffect (world_of world.old) (effect_view effect) }
    ensures ok { OnOk result (IsCarried world.old world.new (effect_view effect)) }
    ensures back { IsUndoable world.old world.new }
{
    match effect {
        Effect::Rights(effect) => carry_rights(world, effect),
        Effect::Seats(effect) => carry_seats(world, alloc, effect),
        Effect::Promises(effect) => carry_promises(&mut world.registers, alloc, effect),
        Effect::Instances(effect) => carry_instances(&mut world.registers, effect),
        Effect::Labels(effect) => carry_labels(&mut world.registers, effect),
    }
}

/// Effects are carried out one by one, in order.
fn carry_all(world: &mut World, alloc: Global, effects: Vec<Effect>) -> Result<(), AllocError>
    requires turn { IsInTurn world.old }
    requires shaped { AreShaped effects.items }
    requires good { AreGood (world_of world.old) (effect_views effects.items) }
    ensures ok { OnOk result (AreCarried world.old world.new (effect_views effects.items)) }
    ensures back { IsUndoable world.old world.new }
{
    for effect in effects {
        carry_one(world, alloc, effect)?;
    }
    Ok(())
}

/// Effects of which each is good after those before it are carried out, in order. For want of memory some
/// may have been, and the turn is to be undone.
pub fn carry_out(world: &mut World, alloc: Global, effects: Effects) -> Result<(), AllocError>
    requires turn { IsInTurn world.old }
    requires shaped { IsEachShaped effects }
    requires good { AreGood (world_of world.old) (effects_view effects) }
    ensures ok { OnOk result (AreCarried world.old world.new (effects_view effects)) }
    ensures back { IsUndoable world.old world.new }
{
    carry_all(world, alloc, effects.into_vec())
}
