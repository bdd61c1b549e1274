//! Whether an instance may name all that a call of its functions names.

ghost use Rattle.std.specs.Prelude.{◌≡◌, ◌<◌, ℕ, List, length};
ghost use Rattle.contract_powers.specs.NameTests.{call_passes};
ghost use Rattle.world_effects.specs.host_world.Worlds.{world_of};
ghost use Rattle.jessie_machine.specs.jessie_semantics.Play as plays;
ghost use Rattle.refusals.specs.host_data.View.{tree, trees};
ghost use Rattle.jessie_machine.specs.jessie_values.Requests.{is_promise};
ghost use Rattle.world_effects.specs.world_reads.Tests.{passes};
ghost use Rattle.refusals.specs.host_data.Tree as nodes;
ghost use Rattle.world_effects.specs.world_state.Good.{IsGoodWorld};

use refusals::host_data_lib::data::{Data, Obj, ObjKind};
use refusals::host_text_lib::text::Text;
use refusals::host_text_lib::word::is_field_name;
use world_effects::host_world_lib::World;
use world_effects::world_reads_lib::known_data::objects::knows_object;
use world_effects::world_reads_lib::known_data::{may_hold, may_hold_all, names_function};

/// Whether an instance may name the target of a call or of a send, and hold its arguments.
pub fn knows_call(world: &World, instance: u32, target: Obj, args: &[Data]) -> bool
    requires good { IsGoodWorld (world_of world.now) }
    requires made { instance < length (world_of world.now).tables.instances }
    ensures calls { (method : List ℕ) → result ≡ call_passes (world_of world.now) instance
        (plays.call target method (trees args.now)) }
    ensures sends { (method : List ℕ) → result ≡ call_passes (world_of world.now) instance
        (plays.send target method (trees args.now)) }
{
    knows_object(world, instance, target) && may_hold_all(world, instance, args)
}

/// Whether the object is a promise.
fn is_promise(object: Obj) -> bool
    ensures { result ≡ is_promise object.kind }
{
    match object.kind {
        ObjKind::Promise => true,
        _ => false,
    }
}

/// Whether the instance may name a function of its module.
fn knows_function(world: &World, instance: u32, function: &Text) -> bool
    requires good { IsGoodWorld (world_of world.now) }
    requires made { instance < length (world_of world.now).tables.instances }
    ensures { result ≡ passes (world_of world.now) instance (nodes.function function.now) }
{
    is_field_name(function.as_str().as_bytes()) && names_function(world, instance, function)
}

/// Whether an instance may ask to be told of a promise, by the function and with the data.
pub fn knows_request(
    world: &World,
    instance: u32,
    promise: Obj,
    function: &Text,
    held: &Data,
) -> bool
    requires good { IsGoodWorld (world_of world.now) }
    requires made { instance < length (world_of world.now).tables.instances }
    ensures { result ≡ call_passes (world_of world.now) instance
        (plays.when promise function.now (tree held.now)) }
{
    is_promise(promise)
        && knows_object(world, instance, promise)
        && knows_function(world, instance, function)
        && may_hold(world, instance, held)
}
