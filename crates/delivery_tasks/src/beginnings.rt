//! What is read for a delivery, and what is then to be done: all kinds of deliveries.

ghost use Rattle.std.specs.Prelude.{◌≡◌, ◌<◌, ◌∷◌, [], Ok, IfOk, length};
ghost use Rattle.world_reads.specs.call_outcomes.Lists.{IsEachShaped, effects_view};
ghost use Rattle.delivery_turns.specs.Tasks as tasks;
ghost use Rattle.delivery_turns.specs.Tasks.{beginning, gift_beginning, notice_beginning, run_task, unread};
ghost use Rattle.world_reads.specs.host_world.Worlds.{world_of};
ghost use Rattle.host_data.specs.View.{tree};
ghost use Rattle.delivery_turns.specs.promise_store.States.{settlement_view};
ghost use Rattle.delivery_turns.specs.turn_records.Views.{delivery_view, line_call_view, line_gift_view, notice_view, offer_view, send_view, start_view, wakeup_view};
ghost use Rattle.delivery_turns.specs.turn_records.Deliveries as deliveries;
ghost use Rattle.delivery_turns.specs.world_state.Good.{IsGoodWorld};
ghost use Rattle.delivery_turns.specs.world_state.Worlds.{bind_label, in_front};
ghost use Rattle.delivery_tasks.specs.Views.{IsTaskShaped, RefusedBy, beginning_view, function_call_view, task_view};

use crate::calls::method_beginning;
use crate::effects::{binding, exit_if_open, one_effect};
use crate::functions::{handler_call, notice_call, run_task, start_call, wakeup_call};
use crate::notices::settlement_of;
use crate::tasks::{Beginning, FunctionCall, Task};
use delivery_reads::messages::{addressed_call, gift_of, sent_to};
use delivery_turns::promise_store_lib::Settlement;
use delivery_turns::turn_records_lib::deliveries::{
    Delivery, Notice, Offer, Reading, Send, Start, Wakeup,
};
use delivery_turns::turn_records_lib::events::Cause;
use delivery_turns::turn_records_lib::messages::{LineCall, LineGift};
use host_data::data::Data;
use refusals::codes::Refusal;
use refusals::stops::Stop;
use std::alloc::{AllocError, Global};
use world_reads::call_outcomes_lib::effects::{Effect, PromisesEffect};
use world_reads::call_outcomes_lib::lists::Effects;
use world_reads::host_world_lib::World;

/// What is read, and what is then to be done.
pub(crate) fn with_reading(reading: Reading, task: Task) -> Beginning
    ensures reading { result.reading ≡ reading }
    ensures task { result.task ≡ task }
{
    Beginning { reading, task }
}

/// Nothing is read.
fn without_reading(task: Task) -> Beginning
    ensures view { beginning_view result ≡ unread (task_view task) }
    ensures task { result.task ≡ task }
{
    with_reading(Reading::Nothing, task)
}

/// What is refused, if it is.
fn refuse(stop: Stop) -> Result<Beginning, AllocError>
    ensures refused { IfOk result (λ b. RefusedBy stop (beginning_view b)) }
    ensures shaped { IfOk result (λ b. IsTaskShaped b.task) }
{
    match stop {
        Stop::Refused(refusal) => Ok(without_reading(Task::Refuse(refusal))),
        Stop::NoMemory => Err(AllocError),
    }
}

// ---- messages

/// A call that a party asks for.
#[tactic(auto, using(crate::proofs::ReadMessages::addressed_is), unfolding(delivery_turns::specs::Tasks::beginning))]
fn call_beginning(alloc: Global, world: &World, call: &LineCall) -> Result<Beginning, AllocError>
    requires { IsGoodWorld (in_front (deliveries.call (line_call_view call.now)) (world_of world.now)) }
    ensures begins { IfOk result (λ b. beginning_view b
        ≡ beginning (world_of world.now) (deliveries.call (line_call_view call.now))) }
    ensures shaped { IfOk result (λ b. IsTaskShaped b.task) }
{
    match addressed_call(
        alloc,
        &world.registers.parties,
        &world.registers.promises,
        call,
    ) {
        Ok(to) => method_beginning(alloc, world, &call.method, to),
        Err(stop) => refuse(stop),
    }
}

/// A call that an instance sent.
#[tactic(auto, using(crate::proofs::ReadMessages::sent_is), unfolding(delivery_turns::specs::Tasks::beginning))]
fn send_beginning(alloc: Global, world: &World, send: &Send) -> Result<Beginning, AllocError>
    requires { IsGoodWorld (in_front (deliveries.send (send_view send.now)) (world_of world.now)) }
    ensures begins { IfOk result (λ b. beginning_view b
        ≡ beginning (world_of world.now) (deliveries.send (send_view send.now))) }
    ensures shaped { IfOk result (λ b. IsTaskShaped b.task) }
{
    match sent_to(alloc, &world.registers.promises, send) {
        Ok(to) => method_beginning(alloc, world, &send.method, to),
        Err(stop) => refuse(stop),
    }
}

/// That the receiver has what is given under its label.
fn gift_effects(alloc: Global, gift: &LineGift, given: &Data) -> Result<Effects, AllocError>
    ensures effects { IfOk result (λ es. effects_view es
        ≡ bind_label gift.now.to gift.now.label (tree given.now) ∷ []) }
    ensures shaped { IfOk result (λ es. IsEachShaped es) }
{
    let binding = binding(alloc, &gift.to, &gift.label, given)?;
    one_effect(alloc, binding)
}

/// What is given is under the receiver's label.
fn bind_gift(alloc: Global, gift: &LineGift, given: Data) -> Result<Beginning, AllocError>
    ensures begins { IfOk result (λ b. beginning_view b
        ≡ gift_beginning (line_gift_view gift.now) (Ok (tree given))) }
    ensures shaped { IfOk result (λ b. IsTaskShaped b.task) }
{
    let effects = gift_effects(alloc, gift, &given)?;
    Ok(with_reading(Reading::Gift(given), Task::DoAll(effects)))
}

/// What a party gives.
#[tactic(auto, using(crate::proofs::ReadMessages::gift_is), unfolding(delivery_turns::specs::Tasks::beginning))]
fn give_beginning(alloc: Global, world: &World, gift: &LineGift) -> Result<Beginning, AllocError>
    ensures begins { IfOk result (λ b. beginning_view b
        ≡ beginning (world_of world.now) (deliveries.give (line_gift_view gift.now))) }
    ensures shaped { IfOk result (λ b. IsTaskShaped b.task) }
{
    match gift_of(
        alloc,
        &world.registers.parties,
        &world.registers.promises,
        gift,
    ) {
        Ok(found) => bind_gift(alloc, gift, found),
        Err(stop) => refuse(stop),
    }
}

/// The timer is set to a time that isn't before its own: else `Backwards` with both.
#[tactic(auto, unfolding(delivery_turns::specs::Tasks::beginning))]
fn tick_beginning(alloc: Global, world: &World, time: u64) -> Result<Beginning, AllocError>
    ensures begins { IfOk result (λ b. beginning_view b
        ≡ beginning (world_of world.now) (deliveries.tick time)) }
    ensures shaped { IfOk result (λ b. IsTaskShaped b.task) }
{
    let now = world.registers.timer.now();
    if time < now {
        return Ok(without_reading(Task::Refuse(Refusal::Backwards(now, time))));
    }
    let set = Effect::Promises(PromisesEffect::SetTime(time));
    Ok(without_reading(Task::DoAll(one_effect(alloc, set)?)))
}

/// A line that is refused.
#[tactic(auto, unfolding(delivery_turns::specs::Tasks::beginning))]
fn bad_beginning(alloc: Global, refusal: &Refusal) -> Result<Beginning, AllocError>
    ensures begins { IfOk result (λ b. beginning_view b ≡ unread (tasks.refuse refusal.now)) }
    ensures shaped { IfOk result (λ b. IsTaskShaped b.task) }
{
    Ok(without_reading(Task::Refuse(refusal.copy(alloc)?)))
}

// ---- functions

/// A function is run once something is read for it.
fn read_and_run(world: &World, reading: Reading, call: FunctionCall) -> Beginning
    requires { call.instance < length (world_of world.now).tables.instances }
    ensures reading { result.reading ≡ reading }
    ensures task { task_view result.task ≡ run_task (world_of world.now) (function_call_view call) }
    ensures shaped { IsTaskShaped result.task }
{
    with_reading(reading, run_task(world, call))
}

/// An instance starts.
#[tactic(auto, unfolding(delivery_turns::specs::Tasks::beginning))]
fn start_beginning(alloc: Global, world: &World, start: &Start) -> Result<Beginning, AllocError>
    requires { IsGoodWorld (in_front (deliveries.start (start_view start.now)) (world_of world.now)) }
    ensures begins { IfOk result (λ b. beginning_view b
        ≡ beginning (world_of world.now) (deliveries.start (start_view start.now))) }
    ensures shaped { IfOk result (λ b. IsTaskShaped b.task) }
{
    let call = start_call(alloc, start)?;
    Ok(without_reading(run_task(world, call)))
}

/// An offer comes to its handler.
#[tactic(auto, unfolding(delivery_turns::specs::Tasks::beginning))]
fn offer_beginning(alloc: Global, world: &World, offer: &Offer) -> Result<Beginning, AllocError>
    requires { IsGoodWorld (in_front (deliveries.offer (offer_view offer.now)) (world_of world.now)) }
    ensures begins { IfOk result (λ b. beginning_view b
        ≡ beginning (world_of world.now) (deliveries.offer (offer_view offer.now))) }
    ensures shaped { IfOk result (λ b. IsTaskShaped b.task) }
{
    let call = handler_call(alloc, offer)?;
    Ok(without_reading(run_task(world, call)))
}

/// A function is woken.
#[tactic(auto, unfolding(delivery_turns::specs::Tasks::beginning))]
fn wake_beginning(alloc: Global, world: &World, wakeup: &Wakeup) -> Result<Beginning, AllocError>
    requires { IsGoodWorld (in_front (deliveries.wake (wakeup_view wakeup.now)) (world_of world.now)) }
    ensures begins { IfOk result (λ b. beginning_view b
        ≡ beginning (world_of world.now) (deliveries.wake (wakeup_view wakeup.now))) }
    ensures shaped { IfOk result (λ b. IsTaskShaped b.task) }
{
    let now = world.registers.timer.now();
    let call = wakeup_call(alloc, wakeup, now)?;
    Ok(read_and_run(world, Reading::Time(now), call))
}

/// A function is notified of what a promise was settled with.
fn notice_beginning(
    alloc: Global,
    world: &World,
    notice: &Notice,
    settlement: Settlement,
) -> Result<Beginning, AllocError>
    requires { notice.now.instance < length (world_of world.now).tables.instances }
    ensures begins { IfOk result (λ b. beginning_view b
        ≡ notice_beginning (world_of world.now) (notice_view notice.now) (settlement_view settlement)) }
    ensures shaped { IfOk result (λ b. IsTaskShaped b.task) }
{
    let call = notice_call(alloc, notice, &settlement)?;
    Ok(read_and_run(world, Reading::Settlement(settlement), call))
}

/// A function is notified.
#[tactic(auto, unfolding(delivery_turns::specs::Tasks::beginning))]
fn notify_beginning(alloc: Global, world: &World, notice: &Notice) -> Result<Beginning, AllocError>
    requires { IsGoodWorld (in_front (deliveries.notify (notice_view notice.now)) (world_of world.now)) }
    ensures begins { IfOk result (λ b. beginning_view b
        ≡ beginning (world_of world.now) (deliveries.notify (notice_view notice.now))) }
    ensures shaped { IfOk result (λ b. IsTaskShaped b.task) }
{
    let settlement = settlement_of(alloc, world, notice.promise)?;
    notice_beginning(alloc, world, notice, settlement)
}

/// The deadline of a seat has come: it is left, if it is still open.
#[tactic(auto, unfolding(delivery_turns::specs::Tasks::beginning))]
fn deadline_beginning(alloc: Global, world: &World, seat: u32) -> Result<Beginning, AllocError>
    requires { IsGoodWorld (in_front (deliveries.deadline seat) (world_of world.now)) }
    ensures begins { IfOk result (λ b. beginning_view b
        ≡ beginning (world_of world.now) (deliveries.deadline seat)) }
    ensures shaped { IfOk result (λ b. IsTaskShaped b.task) }
{
    let exits = exit_if_open(alloc, world, seat, Cause::Deadline)?;
    Ok(without_reading(Task::DoAll(exits)))
}

// ---- all

/// What is read for a delivery that waits in front, and what is then to be done for it. Its data is copied: for want of
/// memory nothing has changed.
#[tactic(auto, unfolding(delivery_turns::specs::Tasks::beginning))]
pub fn delivery_beginning(
    alloc: Global,
    world: &World,
    delivery: &Delivery,
) -> Result<Beginning, AllocError>
    requires { IsGoodWorld (in_front (delivery_view delivery.now) (world_of world.now)) }
    ensures begins { IfOk result (λ b. beginning_view b
        ≡ beginning (world_of world.now) (delivery_view delivery.now)) }
    ensures shaped { IfOk result (λ b. IsTaskShaped b.task) }
{
    match delivery {
        Delivery::Call(call) => call_beginning(alloc, world, call),
        Delivery::Give(gift) => give_beginning(alloc, world, gift),
        Delivery::Tick(time) => tick_beginning(alloc, world, *time),
        Delivery::Bad(refusal) => bad_beginning(alloc, refusal),
        Delivery::Send(send) => send_beginning(alloc, world, send),
        Delivery::Start(start) => start_beginning(alloc, world, start),
        Delivery::Offer(offer) => offer_beginning(alloc, world, offer),
        Delivery::Wake(wakeup) => wake_beginning(alloc, world, wakeup),
        Delivery::Notify(notice) => notify_beginning(alloc, world, notice),
        Delivery::Deadline(seat) => deadline_beginning(alloc, world, *seat),
    }
}
