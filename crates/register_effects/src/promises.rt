//! Promises, what waits, and the timer.

ghost use Rattle.std.specs.Prelude.{◌≡◌, ◌<◌, length, IfSome, OnOk};
ghost use Rattle.world_laws.specs.host_data.View.{tree, trees};
ghost use Rattle.register_effects.specs.StoreEffects.{Becomes};
ghost use Rattle.world_reads.specs.registers.Stores.{registers_at_start, registers_now};
ghost use Rattle.world_laws.specs.promise_store.States.{settlement_view};
ghost use Rattle.world_laws.specs.turn_records.Views.{notice_view, wakeup_view};
ghost use Rattle.world_laws.specs.world_state.Promises.{IsPending, target_of};
ghost use Rattle.world_laws.specs.world_state.Worlds as worlds;

use std::alloc::{AllocError, Global};
use world_laws::promise_store_lib::Settlement;
use world_laws::turn_records_lib::deliveries::{Notice, Send, Wakeup};
use world_reads::call_outcomes_lib::effects::{Asking, Sending};
use world_reads::registers_lib::Registers;
use world_reads::registers_lib::time_effects::{Timed, deliver_at};

/// A promise is resolved.
pub fn resolve(
    stores: &mut Registers,
    promise: u32,
    settlement: Settlement,
) -> Result<(), AllocError>
    requires pending { IsPending (registers_now stores.old).promises promise }
    requires target { IfSome (target_of (settlement_view settlement))
        (λ target. target < length (registers_now stores.old).promises.settled) }
    ensures ok { OnOk result (Becomes stores.old stores.new
        (worlds.resolve promise (settlement_view settlement))) }
    ensures start { registers_at_start stores.new ≡ registers_at_start stores.old }
{
    match stores
        .promises
        .resolve(promise, settlement, &mut stores.queue, &mut stores.log)
    {
        Ok(()) => Ok(()),
        Err(_) => Err(AllocError),
    }
}

/// An instance sends a call, for the next promise.
pub fn send(stores: &mut Registers, sending: Sending) -> Result<(), AllocError>
    ensures ok { OnOk result (Becomes stores.old stores.new (worlds.send sending.instance
        sending.target sending.method (trees sending.arguments.items))) }
    ensures start { registers_at_start stores.new ≡ registers_at_start stores.old }
{
    let Sending {
        instance,
        target,
        method,
        arguments,
    } = sending;
    let call = Send {
        instance,
        target,
        method,
        arguments,
        promise: stores.promises.made(),
    };
    match stores.promises.send(call, &mut stores.queue) {
        Ok(()) => Ok(()),
        Err(_) => Err(AllocError),
    }
}

/// A function of an instance is to be told of a promise that was made, for the next promise.
pub fn when(stores: &mut Registers, asking: Asking) -> Result<(), AllocError>
    requires { asking.promise < length (registers_now stores.old).promises.settled }
    ensures ok { OnOk result (Becomes stores.old stores.new (worlds.when asking.instance
        asking.promise asking.function (tree asking.held))) }
    ensures start { registers_at_start stores.new ≡ registers_at_start stores.old }
{
    let request = notice_of(asking, stores.promises.made());
    stores.promises.ask(request, &mut stores.queue)?;
    match stores.promises.make() {
        Ok(_) => Ok(()),
        Err(_) => Err(AllocError),
    }
}

/// What is told of a promise that a function asks for, with the promise of what it answers.
fn notice_of(asking: Asking, answer: u32) -> Notice
    ensures { notice_view result ≡ record {
      instance = asking.instance;
      promise = asking.promise;
      function = asking.function;
      held = tree asking.held;
      answer = answer;
    } }
{
    let Asking {
        instance,
        promise,
        function,
        held,
    } = asking;
    Notice {
        instance,
        promise,
        function,
        held,
        answer,
    }
}

/// A function is to be called at a time.
pub fn wake(stores: &mut Registers, time: u64, wakeup: Wakeup) -> Result<(), AllocError>
    ensures ok { OnOk result (Becomes stores.old stores.new (worlds.wake time (wakeup_view wakeup))) }
    ensures start { registers_at_start stores.new ≡ registers_at_start stores.old }
{
    deliver_at(
        &mut stores.timer,
        &mut stores.queue,
        time,
        Timed::Wake(wakeup),
    )
}

/// The timer is set to a time that isn't earlier, and what is due is to be delivered.
pub fn set_time(stores: &mut Registers, alloc: Global, time: u64) -> Result<(), AllocError>
    ensures ok { OnOk result (Becomes stores.old stores.new (worlds.set_time time)) }
    ensures start { registers_at_start stores.new ≡ registers_at_start stores.old }
{
    match world_reads::registers_lib::time_effects::set_time(
        alloc,
        &mut stores.timer,
        &mut stores.queue,
        time,
    ) {
        Ok(()) => Ok(()),
        Err(_) => Err(AllocError),
    }
}
