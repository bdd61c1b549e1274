//! What plans the calls of all methods.

ghost use Rattle.std.specs.Prelude.{Some};
ghost use Rattle.contract_texts.specs.Reader.{reader};
ghost use Rattle.delivery_laws.specs.rules.Methods as methods;
ghost use Rattle.delivery_laws.specs.rules.Obligations.{CanCall};
ghost use Rattle.refusals.specs.host_data.View.{trees};
ghost use Rattle.world_effects.specs.call_outcomes.CallOutcomes.{GivesOutcome};
ghost use Rattle.world_effects.specs.host_world.Worlds.{world_of};
ghost use Rattle.world_effects.specs.vault.Drafts.{IsClean};
ghost use Rattle.world_effects.specs.world_reads.Handed.{AreHanded};
ghost use Rattle.world_effects.specs.world_state.Good.{IsGoodWorld};
ghost use Rattle.world_effects.specs.world_state.Known.{IsMade};

use refusals::host_data_lib::data::{Data, Obj};
use refusals::stops::Stop;
use std::alloc::Global;
use world_effects::call_outcomes_lib::outcomes::CallOutcome;
use world_effects::host_world_lib::World;

/// The methods of all objects, as outcomes. The rooms of the host ask for them by this trait alone, so that they and the
/// code of methods are proved side by side.
pub trait Planner {
    /// A call of a method of one of the host's own objects: its plan, or its first refusal.
    fn plan_service(
        alloc: Global,
        world: &World,
        target: Obj,
        method: &str,
        args: &[Data],
    ) -> Result<CallOutcome, Stop>
        requires good { IsGoodWorld (world_of world.now) }
        requires clean { IsClean world.now.draft }
        requires made { IsMade (world_of world.now) target }
        requires handed { AreHanded (world_of world.now) (trees args.now) }
        ensures { GivesOutcome (methods.serve reader (world_of world.now) target method.now
            (trees args.now)) result };

    /// A call of a method by a contract's function, of an object that the instance may name and with arguments that it
    /// may hold: its plan, or its refusal (Zoe).
    fn plan_call(
        alloc: Global,
        world: &World,
        instance: u32,
        target: Obj,
        method: &str,
        args: &[Data],
    ) -> Result<CallOutcome, Stop>
        requires clean { IsClean world.now.draft }
        requires can { CanCall (world_of world.now) (Some instance) target (trees args.now) }
        ensures { GivesOutcome (methods.serve_own (world_of world.now) target method.now
            (trees args.now)) result };
}
