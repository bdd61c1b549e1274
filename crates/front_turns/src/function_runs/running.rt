//! A function of a module that is evaluated over the world.

ghost use Rattle.std.specs.Prelude.{◌≡◌, ◌<◌, ◌*◌, ◌^◌, IfOk, length};
ghost use Rattle.contract_powers.specs.world_effects.CarriedEffects.{IsInTurn};
ghost use Rattle.contract_powers.specs.TurnStarts.{start_of};
ghost use Rattle.delivery_tasks.specs.delivery_turns.Functions.{module_play};
ghost use Rattle.front_turns.specs.FunctionRuns.{WentOn};
ghost use Rattle.contract_powers.specs.host_world.Worlds.{IsUndoable, world_of};
ghost use Rattle.contract_powers.specs.actors.Tables.{instance_at};
ghost use Rattle.jessie_interpreter.specs.Outcomes.{outcome};
ghost use Rattle.jessie_interpreter.specs.jessie_semantics.Keeping.{AllHave};
ghost use Rattle.delivery_tasks.specs.host_data.View.{trees};
ghost use Rattle.contract_powers.specs.world_state.Good.{IsGoodWorld};
ghost use Rattle.contract_powers.specs.world_state.Known.{IsKnownTo, module_of};

use contract_powers::host_world_lib::World;
use contract_powers::planner::Planner;
use contract_powers::powers::{ContractPowers, Turn};
use delivery_tasks::host_data_lib::data::{Data, copy_items};
use jessie_interpreter::evaluation::{Outcome, evaluate};
use jessie_interpreter::host_text_lib::text::Text;
use jessie_interpreter::jessie_index_lib::jessie_module_index::IndexedModule;
use std::alloc::{AllocError, Global};
use std::marker::PhantomData;
use std::rc::Rc;

/// The module of an instance, shared, and a copy of the values of its state.
#[tactic(auto, using(crate::proofs::TurnEffects::is_installed))]
pub(crate) fn prepare_run(
    alloc: Global,
    world: &World,
    instance: u32,
) -> Result<(Rc<IndexedModule>, Vec<Data>), AllocError>
    requires good { IsGoodWorld (world_of world.now) }
    requires made { instance < length (world_of world.now).tables.instances }
    ensures shared { IfOk result (λ p. p.0.value ≡ module_of (world_of world.now).tables instance) }
    ensures state { IfOk result (λ p. trees p.1.items
        ≡ (instance_at (world_of world.now).tables.instances instance).state) }
{
    let instances = &world.registers.instances;
    let state = copy_items(alloc, instances.kept(instance))?;
    let module = instances.shared_module(instances.installation(instance))?;
    Ok((module, state))
}

/// Evaluates a function of the instance's module in a turn that goes back to `T.base`. `state` holds the values of the
/// instance's state variables: afterwards those that were assigned, where the function returned or threw.
pub(crate) fn run_in<T: Turn, P: Planner>(
    alloc: Global,
    world: World,
    instance: u32,
    module: &IndexedModule,
    function: &Text,
    arguments: Vec<Data>,
    state: &mut Vec<Data>,
    meter: u64,
) -> (World, Result<Outcome, AllocError>)
    requires base { start_of world ≡ T.base }
    requires turn { IsInTurn world }
    requires made { instance < length (world_of world).tables.instances }
    requires shared { «module».now ≡ module_of (world_of world).tables instance }
    requires kept { trees state.old.items
        ≡ (instance_at (world_of world).tables.instances instance).state }
    requires known { AllHave (IsKnownTo (world_of world) instance) (trees arguments.items) }
    ensures went { IfOk result.1 (λ came. WentOn instance
        (module_play (module_of (world_of world).tables instance) function.now (trees arguments.items)
        (instance_at (world_of world).tables.instances instance).state meter)
        world result.0 (outcome came (trees state.new.items))) }
    ensures back { IsUndoable world result.0 }
{
    let mut powers = ContractPowers::<T, P> {
        alloc,
        world,
        instance,
        failed: false,
        turn: PhantomData,
        planner: PhantomData,
    };
    let came = evaluate(
        alloc,
        &mut powers,
        module,
        function,
        arguments,
        state,
        meter,
    );
    let ContractPowers {
        alloc: _,
        world,
        instance: _,
        failed: _,
        turn: _,
        planner: _,
    } = powers;
    (world, came)
}
