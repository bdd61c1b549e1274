//! How an instance ends: no offers more, and the shutdown.

ghost use Rattle.std.specs.Prelude.{◌≡◌, ◌<◌, ◌++◌, IfOk, OnOk, length};
ghost use Rattle.escrow_calls.specs.call_outcomes.Lists.{IsEachShaped, effects_view};
ghost use Rattle.escrow_calls.specs.call_outcomes.CallOutcomes.{GivesOutcome};
ghost use Rattle.rules.specs.Traces.{all_open};
ghost use Rattle.rules.specs.Zcf.{exits_of, halting, shutdown, stop_accepting_offers};
ghost use Rattle.escrow_calls.specs.host_world.Worlds.{world_of};
ghost use Rattle.host_data.specs.View.{trees};
ghost use Rattle.zcf_calls.specs.Exits.{exit_if_open};

use escrow_calls::call_outcomes_lib::effects::{Effect, InstancesEffect, SeatsEffect};
use escrow_calls::call_outcomes_lib::lists::Effects;
use escrow_calls::call_outcomes_lib::outcomes::CallOutcome;
use escrow_calls::contract_reads_lib::contract_words::objects::check_not_local;
use escrow_calls::draft_reads_lib::seat_reads::is_open;
use escrow_calls::host_world_lib::World;
use escrow_calls::world_reads_lib::words::runs;
use host_data::data::Data;
use refusals::stops::Stop;
use rules::turn_records_lib::events::Cause;
use std::alloc::{AllocError, Global};

/// zcf.stopAcceptingOffers() (Zoe).
#[tactic(auto, unfolding(rules::specs::Zcf::stop_accepting_offers))]
pub fn stop_accepting_offers(alloc: Global, instance: u32) -> Result<CallOutcome, Stop>
    ensures { GivesOutcome (stop_accepting_offers instance) result }
{
    let stop = Effect::Instances(InstancesEffect::Stop(instance));
    Ok(CallOutcome::with_effect(alloc, Data::Null, stop)?)
}

/// Adds that a seat is left, if it is still open.
fn add_exit(world: &World, seat: u32, effects: &mut Effects) -> Result<(), AllocError>
    requires { seat < length (world_of world.now).seats }
    ensures exits { OnOk result (effects_view effects.new ≡ effects_view effects.old
        ++ exit_if_open (world_of world.now) seat) }
    ensures shaped { IsEachShaped effects.old → OnOk result (IsEachShaped effects.new) }
{
    if is_open(&world.draft, seat) {
        effects.push(Effect::Seats(SeatsEffect::Exit(seat, Cause::Halted)))?;
    }
    Ok(())
}

/// All open seats of an instance are left, by number.
fn exits(alloc: Global, world: &World, instance: u32) -> Result<Effects, AllocError>
    ensures exits { IfOk result (λ es. effects_view es
        ≡ exits_of (all_open (world_of world.now) instance)) }
    ensures shaped { IfOk result (λ es. IsEachShaped es) }
{
    let seats = world.draft.seats().seats_of(instance);
    let mut effects = Effects::new(alloc);
    for seat in seats {
        add_exit(world, *seat, &mut effects)?;
    }
    Ok(effects)
}

/// All open seats of an instance are left, by number, then it halts.
fn halt_effects(alloc: Global, world: &World, instance: u32) -> Result<Effects, AllocError>
    ensures effects { IfOk result (λ es. effects_view es ≡ halting (world_of world.now) instance) }
    ensures shaped { IfOk result (λ es. IsEachShaped es) }
{
    let mut effects = exits(alloc, world, instance)?;
    effects.push(Effect::Instances(InstancesEffect::Halt(instance)))?;
    Ok(effects)
}

/// zcf.shutdown(completion), zcf.shutdownWithFailure(reason): all open seats are left, then the instance halts
/// (Zoe).
#[tactic(auto, unfolding(rules::specs::Zcf::shutdown, refusals::specs::Outcomes::bind))]
pub fn shutdown(
    alloc: Global,
    world: &World,
    instance: u32,
    args: &[Data],
) -> Result<CallOutcome, Stop>
    requires { instance < length (world_of world.now).tables.instances }
    ensures { GivesOutcome (shutdown (world_of world.now) instance (trees args.now)) result }
{
    runs(world, instance)?;
    check_not_local(1, args)?;
    let effects = halt_effects(alloc, world, instance)?;
    Ok(CallOutcome {
        answer: Data::Null,
        effects,
    })
}
