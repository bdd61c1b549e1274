//! Functions of instances that deliveries call, with their arguments (Zoe).

ghost use Rattle.std.specs.Prelude.{◌≡◌, ◌++◌, ◌∷◌, [], ◌<◌, IfOk, OnOk, length};
ghost use Rattle.delivery_turns.specs.rules.Words.{has_halted, standing_of};
ghost use Rattle.delivery_turns.specs.Tasks.{handler_call, notice_call, run_task, start_call, wakeup_call};
ghost use Rattle.world_reads.specs.host_world.Worlds.{world_of};
ghost use Rattle.host_data.specs.View.{tree, trees};
ghost use Rattle.delivery_turns.specs.promise_store.States.{settlement_view};
ghost use Rattle.delivery_turns.specs.turn_records.Views.{notice_view, offer_view, start_view, wakeup_view};
ghost use Rattle.delivery_tasks.specs.Views.{IsTaskShaped, function_call_view, task_view};

use crate::notices::notice_data;
use crate::tasks::{FunctionCall, Task};
use delivery_turns::actors_lib::instance_store::Standing;
use delivery_turns::promise_store_lib::Settlement;
use delivery_turns::turn_records_lib::deliveries::{Notice, Offer, Start, Wakeup};
use host_data::data::{Data, ObjKind};
use host_data::values::object_data;
use refusals::codes::{NumberCode, Refusal};
use refusals::host_text_lib::text::Text;
use std::alloc::{AllocError, Global};
use world_reads::host_world_lib::World;

/// Whether an instance has halted.
pub(crate) fn has_halted(world: &World, instance: u32) -> bool
    requires { instance < length (world_of world.now).tables.instances }
    ensures { result ≡ has_halted (standing_of (world_of world.now) instance) }
{
    match world.registers.instances.standing(instance) {
        Standing::Halted => true,
        Standing::Stopped => false,
        Standing::Accepting => false,
    }
}

/// A function is run, where its instance has not halted: else the delivery is refused with `Closed`.
pub(crate) fn run_task(world: &World, call: FunctionCall) -> Task
    requires { call.instance < length (world_of world.now).tables.instances }
    ensures task { task_view result ≡ run_task (world_of world.now) (function_call_view call) }
    ensures shaped { IsTaskShaped result }
{
    if has_halted(world, call.instance) {
        return Task::Refuse(Refusal::Numbered(NumberCode::Closed, call.instance));
    }
    Task::Run(call)
}

/// Adds a copy of data, last.
fn push_copy(alloc: Global, made: &mut Vec<Data>, value: &Data) -> Result<(), AllocError>
    ensures { OnOk result (trees made.new.items ≡ trees made.old.items ++ tree value.now ∷ []) }
{
    let copy = value.copy(alloc)?;
    made.push(copy)?;
    Ok(())
}

/// Copies of data, and one more behind them.
fn first_and(alloc: Global, first: &Data, last: Data) -> Result<Vec<Data>, AllocError>
    ensures { IfOk result (λ made. trees made.items ≡ tree first.now ∷ tree last ∷ []) }
{
    let mut made = Vec::new(alloc);
    push_copy(alloc, &mut made, first)?;
    made.push(last)?;
    Ok(made)
}

/// An object of a number, and a copy of data behind it.
fn object_and(alloc: Global, object: Data, value: &Data) -> Result<Vec<Data>, AllocError>
    ensures { IfOk result (λ made. trees made.items ≡ tree object ∷ tree value.now ∷ []) }
{
    let mut made = Vec::new(alloc);
    made.push(object)?;
    push_copy(alloc, &mut made, value)?;
    Ok(made)
}

/// `start(zcf, privateArgs)`.
pub(crate) fn start_call(alloc: Global, start: &Start) -> Result<FunctionCall, AllocError>
    ensures { IfOk result (λ call. function_call_view call ≡ start_call (start_view start.now)) }
{
    let function = Text::from_str(alloc, "start")?;
    let zcf = object_data(ObjKind::Zcf, start.instance);
    let arguments = object_and(alloc, zcf, &start.private_arguments)?;
    Ok(FunctionCall {
        instance: start.instance,
        function,
        arguments,
    })
}

/// `f(seat, offerArgs, held)`.
pub(crate) fn handler_call(alloc: Global, offer: &Offer) -> Result<FunctionCall, AllocError>
    ensures { IfOk result (λ call. function_call_view call ≡ handler_call (offer_view offer.now)) }
{
    let function = offer.function.copy(alloc)?;
    let seat = object_data(ObjKind::Zseat, offer.seat);
    let mut arguments = object_and(alloc, seat, &offer.offer_arguments)?;
    push_copy(alloc, &mut arguments, &offer.held)?;
    Ok(FunctionCall {
        instance: offer.instance,
        function,
        arguments,
    })
}

/// `f(held, now)`.
pub(crate) fn wakeup_call(
    alloc: Global,
    wakeup: &Wakeup,
    now: u64,
) -> Result<FunctionCall, AllocError>
    ensures { IfOk result (λ call. function_call_view call
        ≡ wakeup_call (wakeup_view wakeup.now) now) }
{
    let function = wakeup.function.copy(alloc)?;
    let arguments = first_and(alloc, &wakeup.held, Data::Number(i128::from(now)))?;
    Ok(FunctionCall {
        instance: wakeup.instance,
        function,
        arguments,
    })
}

/// `f(held, {ok, value})`.
pub(crate) fn notice_call(
    alloc: Global,
    notice: &Notice,
    settlement: &Settlement,
) -> Result<FunctionCall, AllocError>
    ensures { IfOk result (λ call. function_call_view call
        ≡ notice_call (notice_view notice.now) (settlement_view settlement.now)) }
{
    let function = notice.function.copy(alloc)?;
    let told = notice_data(alloc, settlement)?;
    let arguments = first_and(alloc, &notice.held, told)?;
    Ok(FunctionCall {
        instance: notice.instance,
        function,
        arguments,
    })
}
