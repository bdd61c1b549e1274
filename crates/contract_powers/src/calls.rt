//! Calls that an instance makes of the host, each carried out at once on the world.

ghost use Rattle.std.specs.Prelude.{◌<◌, IfOk, length};
ghost use Rattle.world_effects.specs.call_outcomes.Lists.{IsEachShaped, effects_view};
ghost use Rattle.world_effects.specs.CarriedEffects.{IsInTurn};
ghost use Rattle.contract_powers.specs.CallReplies.{IsCallAnswered};
ghost use Rattle.contract_powers.specs.Admission.{CanCarry, Happened, WasCarried};
ghost use Rattle.world_effects.specs.host_world.Worlds.{IsUndoable, world_of};
ghost use Rattle.jessie_machine.specs.Host.{reply_of};
ghost use Rattle.jessie_machine.specs.jessie_semantics.Play as plays;
ghost use Rattle.refusals.specs.host_data.View.{tree, trees};
ghost use Rattle.world_effects.specs.world_state.Good.{AreGood};

use crate::admission::{admit_call, admit_far, admit_send, admit_when};
use crate::host_calls::answers::Answered;
use crate::planner::Planner;
use jessie_machine::host::Reply;
use refusals::host_data_lib::data::{Data, Obj};
use refusals::host_text_lib::text::Text;
use std::alloc::{AllocError, Global};
use world_effects::carry_out;
use world_effects::host_world_lib::World;

/// A call is told, and has its effects; what is answered comes back. For want of memory some effects may have been
/// carried out, and the turn is to be undone.
fn carry_call(alloc: Global, world: &mut World, done: Answered) -> Result<Reply, AllocError>
    requires turn { IsInTurn world.old }
    requires shaped { IsEachShaped done.effects }
    requires good { AreGood (world_of world.old) (effects_view done.effects) }
    ensures happened { IfOk result (Happened world.old world.new done) }
    ensures back { IsUndoable world.old world.new }
{
    let Answered { reply, effects } = done;
    carry_out(world, alloc, effects)?;
    Ok(reply)
}

/// What was planned is carried out. Where nothing was, null is thrown.
#[tactic(auto, using(world_effects::proofs::EffectSequences::not_moved))]
fn carry(alloc: Global, world: &mut World, planned: Option<Answered>) -> Result<Reply, AllocError>
    requires turn { IsInTurn world.old }
    requires can { CanCarry (world_of world.old) planned }
    ensures was { IfOk result (WasCarried world.old world.new planned) }
    ensures back { IsUndoable world.old world.new }
{
    match planned {
        Some(done) => carry_call(alloc, world, done),
        None => Ok(Reply::Refused(Data::Null)),
    }
}

/// A call of a method of an object (Zoe).
#[tactic(auto, using(world_effects::proofs::EffectSequences::not_moved))]
pub fn call<P: Planner>(
    alloc: Global,
    world: &mut World,
    instance: u32,
    target: Obj,
    method: &str,
    args: Vec<Data>,
) -> Result<Reply, AllocError>
    requires turn { IsInTurn world.old }
    requires made { instance < length (world_of world.old).tables.instances }
    ensures answered { IfOk result (λ a. IsCallAnswered world.old world.new instance
        (plays.call target method.now (trees args.items)) (reply_of a)) }
    ensures back { IsUndoable world.old world.new }
{
    let planned = admit_call::<P>(alloc, world, instance, target, method, args)?;
    carry(alloc, world, planned)
}

/// A call of a method of an object, to be delivered later (eventual send).
#[tactic(auto, using(world_effects::proofs::EffectSequences::not_moved))]
pub fn send(
    alloc: Global,
    world: &mut World,
    instance: u32,
    target: Obj,
    method: &str,
    args: Vec<Data>,
) -> Result<Reply, AllocError>
    requires turn { IsInTurn world.old }
    requires made { instance < length (world_of world.old).tables.instances }
    ensures answered { IfOk result (λ a. IsCallAnswered world.old world.new instance
        (plays.send target method.now (trees args.items)) (reply_of a)) }
    ensures back { IsUndoable world.old world.new }
{
    let planned = admit_send(alloc, world, instance, target, method, args)?;
    carry(alloc, world, planned)
}

/// A request to be told of a promise (eventual send).
#[tactic(auto, using(world_effects::proofs::EffectSequences::not_moved))]
pub fn when(
    alloc: Global,
    world: &mut World,
    instance: u32,
    promise: Obj,
    function: &str,
    held: Data,
) -> Result<Reply, AllocError>
    requires turn { IsInTurn world.old }
    requires made { instance < length (world_of world.old).tables.instances }
    ensures answered { IfOk result (λ a. IsCallAnswered world.old world.new instance
        (plays.when promise function.now (tree held)) (reply_of a)) }
    ensures back { IsUndoable world.old world.new }
{
    let planned = admit_when(alloc, world, instance, promise, function, held)?;
    carry(alloc, world, planned)
}

/// A facet that is made (Endo's Far).
#[tactic(auto, using(world_effects::proofs::EffectSequences::not_moved))]
pub fn far(
    alloc: Global,
    world: &mut World,
    instance: u32,
    name: &str,
    methods: Vec<(Text, Text)>,
    held: Data,
) -> Result<Reply, AllocError>
    requires turn { IsInTurn world.old }
    requires made { instance < length (world_of world.old).tables.instances }
    ensures answered { IfOk result (λ a. IsCallAnswered world.old world.new instance
        (plays.far name.now methods.items (tree held)) (reply_of a)) }
    ensures back { IsUndoable world.old world.new }
{
    let planned = admit_far(alloc, world, instance, name, methods, held)?;
    carry(alloc, world, planned)
}
