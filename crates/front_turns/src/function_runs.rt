//! A function of an instance that is run over the world of a turn: what it asks of the host is carried
//! out at once, and its state is kept. Its one contract: a run comes to what the definition says
//! (`function_run`, `run_work` of delivery_turns), and whatever it comes to, the turn can be undone.

ghost use Rattle.std.specs.Prelude.{◌<◌, ◌*◌, ◌^◌, IfOk, length};
ghost use Rattle.contract_powers.specs.world_effects.CarriedEffects.{IsInTurn};
ghost use Rattle.front_turns.specs.FunctionRuns.{CameTo};
ghost use Rattle.contract_powers.specs.host_world.Worlds.{IsUndoable, world_of};
ghost use Rattle.jessie_interpreter.specs.jessie_semantics.Keeping.{AllHave};
ghost use Rattle.delivery_tasks.specs.host_data.View.{trees};
ghost use Rattle.contract_powers.specs.world_state.Known.{IsKnownTo};

mod endings;
mod running;

use contract_powers::host_world_lib::World;
use contract_powers::planner::Planner;
use contract_powers::turn_records_lib::events::Answer;
use delivery_tasks::host_data_lib::data::Data;
use endings::end_run;
use jessie_interpreter::host_text_lib::text::Text;
use running::{prepare_run, run_in};
use std::alloc::{AllocError, Global};
use std::marker::Brand;

/// What a function came to.
#[derive(Drop)]
pub enum Ran {
    /// It returned or threw: what its calls did stands, and its state is kept. Its delivery is answered this.
    Ended(Answer),
    /// Its meter was spent: the turn is to be undone.
    Spent,
}

/// Runs a function of an instance's module with these arguments, over the world: a missing argument is null, surplus
/// ones are dropped. `meter` has what the run may cost at most. `P` plans the calls of methods that the function makes.
/// The world comes back: where the meter was spent, and for want of memory, the turn is to be undone.
pub fn run_function<P: Planner>(
    alloc: Global,
    world: World,
    instance: u32,
    function: &Text,
    arguments: Vec<Data>,
    meter: u64,
) -> (World, Result<Ran, AllocError>)
    requires turn { IsInTurn world }
    requires made { instance < length (world_of world).tables.instances }
    requires known { AllHave (IsKnownTo (world_of world) instance) (trees arguments.items) }
    ensures came { IfOk result.1 (CameTo meter (record {
      instance = instance;
      function = function.now;
      arguments = trees arguments.items;
    }) world result.0) }
    ensures back { IsUndoable world result.0 }
{
    let (module, mut state) = match prepare_run(alloc, &world, instance) {
        Ok(prepared) => prepared,
        Err(fault) => return (world, Err(fault)),
    };
    let (mut world, outcome) = run_in::<Brand, P>(
        alloc,
        world,
        instance,
        module.as_ref(),
        function,
        arguments,
        &mut state,
        meter,
    );
    let ran = match outcome {
        Ok(outcome) => end_run(alloc, &mut world, instance, outcome, state),
        Err(fault) => {
            drop(state);
            Err(fault)
        }
    };
    (world, ran)
}
