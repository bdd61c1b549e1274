//! Deliveries that wait for a time: functions that are to be woken, and deadlines of seats. Its one
//! contract: what is asked for a time waits in the timer, or in the queue where the time has come;
//! setting the timer queues what is due then, in its order; and what the turn's start was stays, so
//! that all can be worked back, whatever a call came to.

ghost use Rattle.std.specs.Prelude.{◌≡◌, ◌<◌, ◌↔◌, ◌++◌, [], Err, IfErr, IfOk, OnErr, OnOk, length};
ghost use Rattle.std.specs.Bool.{OnFalse, OnTrue};
ghost use Rattle.registers.specs.PromiseTables.{waiting_of};
ghost use Rattle.world_state.specs.turn_stores.Schedules.{due_after, woken_at};
ghost use Rattle.world_state.specs.turn_records.Views.{delivery_view, wakeup_view};
ghost use Rattle.world_state.specs.Worlds.{due_at, due_now, scheduled, set_to};
ghost use Rattle.registers.specs.Timed.{queue_after, schedule_of, timed_view};
ghost use Rattle.registers.specs.declared.time_effects.TimeFault.TheVariants as faults;

use crate::promise_table::waiting::queue_delivery;
use std::alloc::{AllocError, Global};
use world_state::turn_records_lib::deliveries::{Delivery, Wakeup};
use world_state::turn_stores_lib::timer::{Backwards, Timer};
use world_state::turn_stores_lib::turn_queue::TurnQueue;

/// What waits for a time.
#[derive(Drop)]
pub enum Timed {
    /// A function is to be woken.
    Wake(Wakeup),
    /// The deadline of a seat, by its number.
    Deadline(u32),
}

impl Timed {
    /// It, as what waits in the queue.
    pub fn into_delivery(self) -> Delivery
        ensures { delivery_view result ≡ timed_view self }
    {
        match self {
            Timed::Wake(wakeup) => Delivery::Wake(wakeup),
            Timed::Deadline(seat) => Delivery::Deadline(seat),
        }
    }

    /// A copy of it, as what waits in the queue.
    pub fn copy_delivery(&self, alloc: Global) -> Result<Delivery, AllocError>
        ensures { IfOk result (λ copy. delivery_view copy ≡ timed_view self.now) }
    {
        match self {
            Timed::Wake(wakeup) => Ok(Delivery::Wake(copy_wakeup(alloc, wakeup)?)),
            Timed::Deadline(seat) => Ok(Delivery::Deadline(*seat)),
        }
    }
}

/// Why the timer isn't set.
#[derive(Clone, Copy)]
pub enum TimeFault {
    /// It doesn't go backwards.
    Backwards(Backwards),
    NoMemory,
}

/// Something is to be delivered at a time: it waits in the timer, or in the queue where the time has come. For
/// want of memory all is as before.
pub fn deliver_at(
    timer: &mut Timer<Timed>,
    queue: &mut TurnQueue<Delivery>,
    time: u64,
    entry: Timed,
) -> Result<(), AllocError>
    ensures timer { OnOk result (schedule_of timer.new.now ≡ scheduled time (timed_view entry) (schedule_of timer.old.now)) }
    ensures queue { OnOk result (waiting_of queue.new.now
        ≡ waiting_of queue.old.now ++ due_now time (timed_view entry) (schedule_of timer.old.now)) }
    ensures start { timer.new.start ≡ timer.old.start }
    ensures queue_start { queue.new.start ≡ queue.old.start }
    ensures err { OnErr result (timer.new ≡ timer.old) }
    ensures queue_err { OnErr result (queue.new ≡ queue.old) }
{
    if timer.now() < time {
        wake_at(timer, time, entry)
    } else {
        queue_delivery(queue, entry.into_delivery())
    }
}

/// Sets the timer, and queues what is due then, in its order. It doesn't go backwards: then all is as before. For
/// want of memory all can be worked back.
pub fn set_time(
    alloc: Global,
    timer: &mut Timer<Timed>,
    queue: &mut TurnQueue<Delivery>,
    time: u64,
) -> Result<(), TimeFault>
    ensures timer { OnOk result (schedule_of timer.new.now ≡ set_to time (schedule_of timer.old.now)) }
    ensures queue { OnOk result (waiting_of queue.new.now
        ≡ waiting_of queue.old.now ++ due_at time (schedule_of timer.old.now)) }
    ensures backwards { (result ≡ Err (faults.Backwards (record { now = timer.old.now.time; asked = time })))
        ↔ time < timer.old.now.time }
    ensures shown { IfErr result (λ f. (b : Backwards) → f ≡ faults.Backwards b → b ≡ record { now = timer.old.now.time; asked = time }) }
    ensures refused { time < timer.old.now.time → timer.new ≡ timer.old }
    ensures queue_refused { time < timer.old.now.time → queue.new ≡ queue.old }
    ensures start { timer.new.start ≡ timer.old.start }
    ensures queue_start { queue.new.start ≡ queue.old.start }
{
    if let Err(fault) = timer.set_to(time) {
        return Err(TimeFault::Backwards(fault));
    }
    match queue_due(alloc, timer, queue) {
        Ok(()) => Ok(()),
        Err(_) => Err(TimeFault::NoMemory),
    }
}

/// Queues all that is due, in its order.
fn queue_due(
    alloc: Global,
    timer: &mut Timer<Timed>,
    queue: &mut TurnQueue<Delivery>,
) -> Result<(), AllocError>
    ensures queue { OnOk result (waiting_of queue.new.now ≡ queue_after timer.old.now queue.old.now) }
    ensures left { OnOk result (timer.new.now ≡ record timer.old.now { waiting = due_after timer.old.now.time timer.old.now.waiting }) }
    ensures start { timer.new.start ≡ timer.old.start }
    ensures queue_start { queue.new.start ≡ queue.old.start }
{
    while queue_first_due(alloc, timer, queue)? {}
    Ok(())
}

/// Queues the first that is due, and answers whether one was due.
fn queue_first_due(
    alloc: Global,
    timer: &mut Timer<Timed>,
    queue: &mut TurnQueue<Delivery>,
) -> Result<bool, AllocError>
    ensures queue { OnOk result (queue_after timer.new.now queue.new.now ≡ queue_after timer.old.now queue.old.now) }
    ensures left { OnOk result (due_after timer.new.now.time timer.new.now.waiting ≡ due_after timer.old.now.time timer.old.now.waiting) }
    ensures fewer { IfOk result (λ moved. OnTrue moved (length timer.new.now.waiting < length timer.old.now.waiting)) }
    ensures none { IfOk result (λ moved. OnFalse moved (queue_after timer.new.now queue.new.now ≡ waiting_of queue.new.now)) }
    ensures rest { IfOk result (λ moved. OnFalse moved (due_after timer.new.now.time timer.new.now.waiting ≡ timer.new.now.waiting)) }
    ensures time { timer.new.now.time ≡ timer.old.now.time }
    ensures made { timer.new.now.made ≡ timer.old.now.made }
    ensures start { timer.new.start ≡ timer.old.start }
    ensures queue_start { queue.new.start ≡ queue.old.start }
{
    let Some(entry) = timer.due() else {
        return Ok(false);
    };
    let copy = entry.copy_delivery(alloc)?;
    queue_delivery(queue, copy)?;
    Ok(timer.take_due())
}

/// Something waits in the timer. For want of memory all is as before.
fn wake_at(timer: &mut Timer<Timed>, time: u64, entry: Timed) -> Result<(), AllocError>
    ensures ok { OnOk result (timer.new.now ≡ woken_at time entry timer.old.now) }
    ensures start { timer.new.start ≡ timer.old.start }
    ensures err { OnErr result (timer.new ≡ timer.old) }
{
    timer.wake_at(time, entry)?;
    Ok(())
}

/// A copy of a function that is to be woken.
fn copy_wakeup(alloc: Global, wakeup: &Wakeup) -> Result<Wakeup, AllocError>
    ensures { IfOk result (λ copy. wakeup_view copy ≡ wakeup_view wakeup.now) }
{
    let function = wakeup.function.copy(alloc)?;
    let held = wakeup.held.copy(alloc)?;
    Ok(Wakeup {
        instance: wakeup.instance,
        function,
        held,
    })
}
