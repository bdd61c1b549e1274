//! The work on a delivery's task: effects are carried out, a call is served, a function is run; where its meter is spent,
//! all is undone and its instance halts.

ghost use Rattle.std.specs.Prelude.{◌≡◌, ◌<◌, IfOk, OnOk, length};
ghost use Rattle.contract_powers.specs.call_outcomes.Lists.{IsEachShaped, effects_view};
ghost use Rattle.contract_powers.specs.call_outcomes.CallOutcomes.{GivesOutcome};
ghost use Rattle.contract_powers.specs.rules.Outcomes.{Outcome};
ghost use Rattle.contract_powers.specs.world_effects.CarriedEffects.{AreCarried, IsInTurn};
ghost use Rattle.contract_powers.specs.contract_texts.Reader.{reader};
ghost use Rattle.delivery_tasks.specs.Views.{IsTaskShaped, function_call_view, task_view};
ghost use Rattle.delivery_tasks.specs.delivery_turns.HostCalls.{effects_of};
ghost use Rattle.delivery_tasks.specs.delivery_turns.Tasks.{halt_with, outcome_work, run};
ghost use Rattle.contract_powers.specs.host_world.Worlds.{IsUndoable, world_at_start, world_now, world_of};
ghost use Rattle.delivery_tasks.specs.host_data.View.{trees};
ghost use Rattle.contract_powers.specs.turn_rows.Causes as causes;
ghost use Rattle.contract_powers.specs.vault.Drafts.{HandGoes, IsClean};
ghost use Rattle.contract_powers.specs.world_state.Good.{AreGood, IsGoodWorld};
ghost use Rattle.contract_powers.specs.rules.Methods.{serve};
ghost use Rattle.front_turns.specs.KnownTasks.{IsCallable, IsServed, IsThere};
ghost use Rattle.front_turns.specs.FrontTurns.{IsBegun, IsDone, work_of};

use crate::function_runs::{Ran, run_function};
use contract_powers::call_outcomes_lib::lists::Effects;
use contract_powers::call_outcomes_lib::outcomes::CallOutcome;
use contract_powers::host_world_lib::World;
use contract_powers::planner::Planner;
use contract_powers::refusals_lib::stops::Stop;
use contract_powers::turn_records_lib::events::{Answer, Cause};
use contract_powers::world_effects_lib::carry_out;
use delivery_tasks::host_data_lib::data::{Data, Obj};
use delivery_tasks::open_seats::halt_with;
use delivery_tasks::tasks::{FunctionCall, Task};
use jessie_interpreter::host_text_lib::text::Text;
use std::alloc::{AllocError, Global};

/// Effects are carried out, and then it is answered.
fn carry_and_answer(
    alloc: Global,
    world: &mut World,
    effects: Effects,
    answer: Answer,
) -> Result<Answer, AllocError>
    requires turn { IsInTurn world.old }
    requires shaped { IsEachShaped effects }
    requires good { AreGood (world_of world.old) (effects_view effects) }
    ensures answer { IfOk result (λ a. a ≡ answer) }
    ensures ok { OnOk result (AreCarried world.old world.new (effects_view effects)) }
    ensures back { IsUndoable world.old world.new }
{
    carry_out(world, alloc, effects)?;
    Ok(answer)
}

// ---- calls of the host's own objects

/// A rule's plan is carried out.
fn carry_plan(
    alloc: Global,
    world: &mut World,
    row: Result<CallOutcome, Stop>,
) -> Result<Answer, AllocError>
    requires turn { IsInTurn world.old }
    requires shaped { IfOk row (λ plan. IsEachShaped plan.effects) }
    requires good { IfOk row (λ plan. AreGood (world_of world.old) (effects_view plan.effects)) }
    ensures done { (outcome : Outcome) → GivesOutcome outcome row
        → IfOk result (λ a. IsDone world.old world.new a (outcome_work outcome)) }
    ensures back { IsUndoable world.old world.new }
{
    match row {
        Ok(plan) => {
            let CallOutcome { answer, effects } = plan;
            carry_and_answer(alloc, world, effects, Answer::Given(answer))
        }
        Err(Stop::Refused(refusal)) => Ok(Answer::Refused(refusal)),
        Err(Stop::NoMemory) => Err(AllocError),
    }
}

/// A method of one of the host's own objects is called.
fn serve_call<P: Planner>(
    alloc: Global,
    world: &mut World,
    target: Obj,
    method: Text,
    args: Vec<Data>,
) -> Result<Answer, AllocError>
    requires turn { IsInTurn world.old }
    requires there { IsServed (world_of world.old) target (trees args.items) }
    requires good { AreGood (world_of world.old)
        (effects_of (serve reader (world_of world.old) target method (trees args.items))) }
    ensures done { IfOk result (λ a. IsDone world.old world.new a
        (outcome_work (serve reader (world_of world.old) target method (trees args.items)))) }
    ensures back { IsUndoable world.old world.new }
{
    let row = P::plan_service(alloc, world, target, method.as_str(), args.as_slice());
    carry_plan(alloc, world, row)
}

// ---- functions

/// The turn begins again: nothing was done in it.
fn begin_again(world: World) -> World
    requires { HandGoes world.draft }
    ensures now { world_now result ≡ world_at_start world }
    ensures clean { IsClean result.draft }
    ensures back { IsUndoable world result }
{
    let World {
        draft,
        mut registers,
        sums,
    } = world;
    registers.back();
    let draft = draft.undo().begin();
    draft.valid();
    World {
        draft,
        registers,
        sums,
    }
}

/// All open seats of an instance are left because a meter was spent, and it halts.
fn halt_instance(alloc: Global, world: &mut World, instance: u32) -> Result<(), AllocError>
    requires turn { IsInTurn world.old }
    requires made { instance < length (world_of world.old).tables.instances }
    ensures ok { OnOk result
        (AreCarried world.old world.new (halt_with causes.spent (world_of world.old) instance)) }
    ensures back { IsUndoable world.old world.new }
{
    let effects = halt_with(alloc, world, instance, Cause::Spent)?;
    carry_out(world, alloc, effects)
}

/// A function spent its meter: nothing of what it did stands, and from the world at the turn's start its instance halts
/// (our own).
fn undo_and_halt(
    alloc: Global,
    world: World,
    instance: u32,
    meter: u32,
) -> (World, Result<Answer, AllocError>)
    requires goes { HandGoes world.draft }
    requires good { IsGoodWorld (world_at_start world) }
    requires waits { 0 < length (world_at_start world).waiting }
    requires made { instance < length (world_at_start world).tables.instances }
    ensures done { (old : World) → world_now old ≡ world_at_start world
        → IfOk result.1 (λ a. (a ≡ Answer.Spent meter)
        × AreCarried old result.0 (halt_with causes.spent (world_of old) instance)) }
    ensures back { IsUndoable world result.0 }
{
    let mut world = begin_again(world);
    match halt_instance(alloc, &mut world, instance) {
        Ok(()) => (world, Ok(Answer::Spent(meter))),
        Err(fault) => (world, Err(fault)),
    }
}

/// A function of an instance is run under the meter.
fn run_task<P: Planner>(
    alloc: Global,
    world: World,
    meter: u32,
    call: FunctionCall,
) -> (World, Result<Answer, AllocError>)
    requires begun { IsBegun world }
    requires there { IsCallable (world_of world) (function_call_view call) }
    ensures done { IfOk result.1 (λ a. IsDone world result.0 a
        (work_of meter world (run (function_call_view call)))) }
    ensures back { IsUndoable world result.0 }
{
    let FunctionCall {
        instance,
        function,
        arguments,
    } = call;
    let most = u64::from(meter);
    let (world, ran) = run_function::<P>(alloc, world, instance, &function, arguments, most);
    match ran {
        Ok(Ran::Ended(answer)) => (world, Ok(answer)),
        Ok(Ran::Spent) => undo_and_halt(alloc, world, instance, meter),
        Err(fault) => (world, Err(fault)),
    }
}

// ---- tasks

/// What a delivery's task comes to, before its turn is ended. For want of memory some effects may have been carried out,
/// and the turn is to be undone.
pub(crate) fn work_task<P: Planner>(
    alloc: Global,
    world: World,
    meter: u32,
    task: Task,
) -> (World, Result<Answer, AllocError>)
    requires begun { IsBegun world }
    requires shaped { IsTaskShaped task }
    requires there { IsThere (world_of world) (task_view task) }
    requires good { AreGood (world_of world) (work_of meter world (task_view task)).effects }
    ensures done { IfOk result.1 (λ a. IsDone world result.0 a (work_of meter world (task_view task))) }
    ensures back { IsUndoable world result.0 }
{
    let mut world = world;
    match task {
        Task::Refuse(refusal) => (world, Ok(Answer::Refused(refusal))),
        Task::DoAll(effects) => {
            let done = carry_and_answer(alloc, &mut world, effects, Answer::Given(Data::Null));
            (world, done)
        }
        Task::Serve(target, method, args) => {
            let done = serve_call::<P>(alloc, &mut world, target, method, args);
            (world, done)
        }
        Task::Run(call) => run_task::<P>(alloc, world, meter, call),
    }
}
