//! Effects that touch no rights, whichever they are.

ghost use Rattle.std.specs.Prelude.{◌≡◌, OnOk};
ghost use Rattle.world_reads.specs.call_outcomes.Views.{instances_view, labels_view, promises_view};
ghost use Rattle.register_effects.specs.StoreEffects.{Becomes};
ghost use Rattle.register_effects.specs.Conditions.{CanInstances, CanPromises};
ghost use Rattle.world_reads.specs.registers.Stores.{registers_at_start, registers_now};

use crate::{instances, labels, promises};
use std::alloc::{AllocError, Global};
use world_reads::call_outcomes_lib::effects::{InstancesEffect, LabelsEffect, PromisesEffect};
use world_reads::registers_lib::Registers;

/// An effect on promises, on what waits and on the timer.
pub fn carry_promises(
    stores: &mut Registers,
    alloc: Global,
    effect: PromisesEffect,
) -> Result<(), AllocError>
    requires { CanPromises (registers_now stores.old) effect }
    ensures ok { OnOk result (Becomes stores.old stores.new (promises_view effect)) }
    ensures start { registers_at_start stores.new ≡ registers_at_start stores.old }
{
    match effect {
        PromisesEffect::Resolve(promise, settlement) => {
            promises::resolve(stores, promise, settlement)
        }
        PromisesEffect::Send(sending) => promises::send(stores, sending),
        PromisesEffect::When(asking) => promises::when(stores, asking),
        PromisesEffect::Wake(time, wakeup) => promises::wake(stores, time, wakeup),
        PromisesEffect::SetTime(time) => promises::set_time(stores, alloc, time),
    }
}

/// An effect on installations and instances.
pub fn carry_instances(stores: &mut Registers, effect: InstancesEffect) -> Result<(), AllocError>
    requires { CanInstances (registers_now stores.old) effect }
    ensures ok { OnOk result (Becomes stores.old stores.new (instances_view effect)) }
    ensures start { registers_at_start stores.new ≡ registers_at_start stores.old }
{
    match effect {
        InstancesEffect::Install(module) => instances::install(stores, module),
        InstancesEffect::Start(starting) => instances::start(stores, starting),
        InstancesEffect::AddIssuer(instance, keyword, brand) => {
            instances::enter_issuer(stores, instance, keyword, brand)
        }
        InstancesEffect::Publish(instance, facet) => instances::publish(stores, instance, facet),
        InstancesEffect::KeepState(instance, values) => {
            instances::keep_state(stores, instance, values)
        }
        InstancesEffect::Stop(instance) => instances::stop(stores, instance),
        InstancesEffect::Halt(instance) => instances::halt(stores, instance),
    }
}

/// An effect on facets, on labels and on the log.
pub fn carry_labels(stores: &mut Registers, effect: LabelsEffect) -> Result<(), AllocError>
    ensures ok { OnOk result (Becomes stores.old stores.new (labels_view effect)) }
    ensures start { registers_at_start stores.new ≡ registers_at_start stores.old }
{
    match effect {
        LabelsEffect::MakeFacet(facet) => labels::make_facet(stores, facet),
        LabelsEffect::BindLabel(party, label, value) => {
            labels::bind_label(stores, &party, &label, value)
        }
        LabelsEffect::NoteCall(call) => labels::note_call(stores, call),
    }
}
