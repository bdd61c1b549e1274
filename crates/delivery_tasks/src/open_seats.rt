//! How all open seats of an instance are left, by number, as effects. Its one contract: the exits are
//! just those of the seats that the world has open, each with the cause that is given; where the
//! instance halts, that comes last.

ghost use Rattle.std.specs.Prelude.{◌≡◌, ◌++◌, ◌<◌, IfOk, OnOk, length};
ghost use Rattle.world_reads.specs.call_outcomes.Lists.{IsEachShaped, effects_view};
ghost use Rattle.delivery_turns.specs.rules.Traces.{all_open};
ghost use Rattle.delivery_turns.specs.Tasks.{exit_if_open, exits_with, halt_with};
ghost use Rattle.world_reads.specs.host_world.Worlds.{world_of};
ghost use Rattle.delivery_turns.specs.turn_records.Views.{cause_view};

use delivery_turns::turn_records_lib::events::Cause;
use std::alloc::{AllocError, Global};
use world_reads::call_outcomes_lib::effects::{Effect, InstancesEffect, SeatsEffect};
use world_reads::call_outcomes_lib::lists::Effects;
use world_reads::draft_reads_lib::seat_reads::is_open;
use world_reads::host_world_lib::World;

/// Adds that a seat is left with a cause, if it is still open.
pub fn add_exit(
    world: &World,
    seat: u32,
    cause: Cause,
    effects: &mut Effects,
) -> Result<(), AllocError>
    requires { seat < length (world_of world.now).seats }
    ensures { OnOk result (effects_view effects.new ≡ effects_view effects.old
        ++ exit_if_open (world_of world.now) seat (cause_view cause)) }
{
    if is_open(&world.draft, seat) {
        effects.push(Effect::Seats(SeatsEffect::Exit(seat, cause)))?;
    }
    Ok(())
}

/// Adds the exits of all open seats of an instance with a cause, by number.
pub fn add_exits(
    world: &World,
    instance: u32,
    cause: Cause,
    effects: &mut Effects,
) -> Result<(), AllocError>
    ensures { OnOk result (effects_view effects.new ≡ effects_view effects.old
        ++ exits_with (cause_view cause) (all_open (world_of world.now) instance)) }
{
    for seat in world.draft.seats().seats_of(instance) {
        add_exit(world, *seat, cause, effects)?;
    }
    Ok(())
}

/// Adds that all open seats of an instance are left with a cause, and then the instance halts (Zoe's shutdown; that a
/// throwing start and a spent meter halt is our own).
pub fn add_halt(
    world: &World,
    instance: u32,
    cause: Cause,
    effects: &mut Effects,
) -> Result<(), AllocError>
    ensures { OnOk result (effects_view effects.new ≡ effects_view effects.old
        ++ halt_with (cause_view cause) (world_of world.now) instance) }
{
    add_exits(world, instance, cause, effects)?;
    effects.push(Effect::Instances(InstancesEffect::Halt(instance)))?;
    Ok(())
}

/// The effects by which an instance halts with a cause.
pub fn halt_with(
    alloc: Global,
    world: &World,
    instance: u32,
    cause: Cause,
) -> Result<Effects, AllocError>
    ensures effects { IfOk result (λ es. effects_view es
        ≡ halt_with (cause_view cause) (world_of world.now) instance) }
    ensures shaped { IfOk result (λ es. IsEachShaped es) }
{
    let mut effects = Effects::new(alloc);
    add_halt(world, instance, cause, &mut effects)?;
    Ok(effects)
}
