//! Calls of parties, and calls that were sent: what is to be done for the object that they are of.

ghost use Rattle.std.specs.Prelude.{◌≡◌, ◌<◌, ◌∷◌, Ok, IfOk, length, option_map};
ghost use Rattle.std.specs.Map.{lookup};
ghost use Rattle.std.specs.Str.{bytes_eq};
ghost use Rattle.delivery_turns.specs.Tasks.{call_beginning, facet_task, method_task, task_on};
ghost use Rattle.world_reads.specs.host_world.Worlds.{world_of};
ghost use Rattle.delivery_turns.specs.actors.Facets.{facet_view};
ghost use Rattle.host_data.specs.Tree.{object};
ghost use Rattle.host_data.specs.View.{tree, trees};
ghost use Rattle.delivery_reads.specs.MessageViews.{addressed_view};
ghost use Rattle.delivery_turns.specs.world_state.Good.{IsGoodWorld};
ghost use Rattle.delivery_turns.specs.world_state.Known.{IsHanded};
ghost use Rattle.delivery_turns.specs.Tasks as tasks;
ghost use Rattle.delivery_tasks.specs.Views.{IsTaskShaped, beginning_view, function_call_view, task_view};

use crate::functions::has_halted;
use crate::tasks::{Beginning, FunctionCall, Task};
use delivery_reads::messages::Addressed;
use delivery_turns::actors_lib::instance_store::facets::Facet;
use delivery_turns::turn_records_lib::deliveries::Reading;
use host_data::data::{Data, Obj, ObjKind, copy_items};
use refusals::codes::{NumberCode, Refusal, TextCode};
use refusals::host_text_lib::text::Text;
use std::alloc::{AllocError, Global};
use world_reads::host_world_lib::World;

/// The function behind a method.
fn function_behind<'a>(methods: &'a [(Text, Text)], method: &Text) -> Option<&'a Text>
    ensures { option_map (λ function. function.now) result
        ≡ lookup (bytes_eq method.now) methods.now }
{
    for (name, function) in methods {
        if method.is(name) {
            return Some(function);
        }
    }
    None
}

/// What is held for a function, and then the arguments, each a copy.
fn with_held(alloc: Global, held: &Data, args: &[Data]) -> Result<Vec<Data>, AllocError>
    ensures { IfOk result (λ made. trees made.items ≡ tree held.now ∷ trees args.now) }
{
    let mut made = copy_items(alloc, args)?;
    let held = held.copy(alloc)?;
    made.insert(0, held)?;
    Ok(made)
}

/// `f(held, args)`: the function behind a facet's method.
fn behind_method(
    alloc: Global,
    facet: &Facet,
    function: &Text,
    args: &[Data],
) -> Result<FunctionCall, AllocError>
    ensures { IfOk result (λ call. function_call_view call ≡ record {
      instance = facet.now.instance;
      function = function.now;
      arguments = tree facet.now.held ∷ trees args.now;
    }) }
{
    let function = function.copy(alloc)?;
    let arguments = with_held(alloc, &facet.held, args)?;
    Ok(FunctionCall {
        instance: facet.instance,
        function,
        arguments,
    })
}

/// A method of a facet: `NoMethod` where it has none of the name.
fn method_task(
    alloc: Global,
    facet: &Facet,
    method: &Text,
    args: &[Data],
) -> Result<Task, AllocError>
    ensures task { IfOk result (λ task. task_view task ≡ method_task (facet_view facet.now) method.now
        (trees args.now) (lookup (bytes_eq method.now) facet.now.methods.items)) }
    ensures shaped { IfOk result IsTaskShaped }
{
    match function_behind(facet.methods.as_slice(), method) {
        Some(function) => Ok(Task::Run(behind_method(alloc, facet, function, args)?)),
        None => Ok(Task::Refuse(Refusal::Worded(TextCode::NoMethod, method.copy(alloc)?))),
    }
}

/// A call of a facet: `Closed` where its instance has halted.
fn facet_task(
    alloc: Global,
    world: &World,
    facet: &Facet,
    method: &Text,
    args: &[Data],
) -> Result<Task, AllocError>
    requires { facet.now.instance < length (world_of world.now).tables.instances }
    ensures task { IfOk result (λ task. task_view task
        ≡ facet_task (world_of world.now) (facet_view facet.now) method.now (trees args.now)) }
    ensures shaped { IfOk result IsTaskShaped }
{
    if has_halted(world, facet.instance) {
        return Ok(Task::Refuse(Refusal::Numbered(NumberCode::Closed, facet.instance)));
    }
    method_task(alloc, facet, method, args)
}

/// A call of one of the host's own objects.
fn serve_task(alloc: Global, target: Obj, method: &Text, args: &[Data]) -> Result<Task, AllocError>
    ensures task { IfOk result (λ task. task_view task
        ≡ tasks.serve target method.now (trees args.now)) }
    ensures shaped { IfOk result IsTaskShaped }
{
    let method = method.copy(alloc)?;
    let arguments = copy_items(alloc, args)?;
    Ok(Task::Serve(target, method, arguments))
}

/// A call of an object that can be handed out.
fn task_on(
    alloc: Global,
    world: &World,
    target: Obj,
    method: &Text,
    args: &[Data],
) -> Result<Task, AllocError>
    requires good { IsGoodWorld (world_of world.now) }
    requires handed { IsHanded (world_of world.now) (object target) }
    ensures task { IfOk result (λ task. task_view task
        ≡ task_on target.kind (world_of world.now) target method.now (trees args.now)) }
    ensures shaped { IfOk result IsTaskShaped }
{
    match target.kind {
        ObjKind::Facet => {
            let facet = world.registers.facets.facet(target.number);
            facet_task(alloc, world, facet, method, args)
        }
        _ => serve_task(alloc, target, method, args),
    }
}

/// What is read for a call, once its paths are resolved, and what is then to be done.
pub(crate) fn method_beginning(
    alloc: Global,
    world: &World,
    method: &Text,
    to: Addressed,
) -> Result<Beginning, AllocError>
    requires good { IsGoodWorld (world_of world.now) }
    requires handed { IsHanded (world_of world.now) (object to.target) }
    ensures begins { IfOk result (λ b. beginning_view b
        ≡ call_beginning (world_of world.now) method.now (Ok (addressed_view to))) }
    ensures shaped { IfOk result (λ b. IsTaskShaped b.task) }
{
    let Addressed { target, arguments } = to;
    let task = task_on(alloc, world, target, method, arguments.as_slice())?;
    Ok(Beginning {
        reading: Reading::Target(target, arguments),
        task,
    })
}
