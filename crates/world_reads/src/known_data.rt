//! Whether an instance may hold data: whether all that the data names was made and is the instance's to
//! name, fields and functions have names of their form, the fields of records stand in order, and it
//! nests at most 32 deep. Its one contract: data passes just where the world says that the instance may
//! hold it, at the cost of the data's own size.

ghost use Rattle.std.specs.Prelude.{◌≡◌, ◌<◌, length};
ghost use Rattle.host_world.specs.Worlds.{world_of};
ghost use Rattle.refusals.specs.host_data.View.{fields_of, items_of, named_trees, tree, trees};
ghost use Rattle.world_reads.specs.Tests.{all_pass, before, in_order, names_function, passes};
ghost use Rattle.world_reads.specs.Tests.{knows, knows_fields, knows_items, knows_record};
ghost use Rattle.rules.specs.world_state.Good.{IsGoodWorld};

pub mod laws;
pub mod objects;

use host_world::World;
use objects::knows_object;
use refusals::host_data_lib::data::Data;
use refusals::host_text_lib::text::Text;
use refusals::host_text_lib::word::is_field_name;
use std::cmp::Ordering;

/// How deep arrays and records nest at most (our own).
const MOST_NESTED: u32 = 32;

/// Whether the module of an instance has a function of the name.
#[tactic(auto, using(crate::proofs::Installed::installed_in))]
pub fn names_function(world: &World, instance: u32, name: &Text) -> bool
    requires good { IsGoodWorld (world_of world.now) }
    requires made { instance < length (world_of world.now).tables.instances }
    ensures { result ≡ names_function (world_of world.now) instance name.now }
{
    let instances = &world.registers.instances;
    let module = instances.module(instances.installation(instance));
    module.function(name.as_str()).is_some()
}

/// Whether a name stands before that of the first field, in byte order.
fn is_before(name: &Text, fields: &[(Text, Data)]) -> bool
    ensures { result ≡ before name.now (fields_of (named_trees fields.now)) }
{
    match fields {
        [] => true,
        [next, ..] => name.as_str().cmp(next.0.as_str()) == Ordering::Less,
    }
}

/// Whether the fields stand in byte order of their names, each name once.
fn are_in_order(fields: &[(Text, Data)]) -> bool
    ensures { result ≡ in_order (fields_of (named_trees fields.now)) }
{
    let mut rest = fields;
    while let [first, others @ ..] = rest {
        if !is_before(&first.0, others) {
            return false;
        }
        rest = others;
    }
    true
}

/// Whether each node of the data is known to the instance.
#[cycle(knowing)]
fn knows(world: &World, instance: u32, value: &Data) -> bool
    requires good { IsGoodWorld (world_of world.now) }
    requires made { instance < length (world_of world.now).tables.instances }
    ensures { result ≡ knows (world_of world.now) instance (tree value.now) }
{
    match value {
        Data::Array(items) => knows_all(world, instance, items.as_slice()),
        Data::Record(fields) => knows_record(world, instance, fields.as_slice()),
        Data::Object(object) => knows_object(world, instance, *object),
        Data::Function(name) => {
            is_field_name(name.as_str().as_bytes()) && names_function(world, instance, name)
        }
        _ => true,
    }
}

/// Whether each of them is known to the instance.
#[cycle(knowing)]
fn knows_all(world: &World, instance: u32, items: &[Data]) -> bool
    requires good { IsGoodWorld (world_of world.now) }
    requires made { instance < length (world_of world.now).tables.instances }
    ensures { result ≡ knows_items (world_of world.now) instance (items_of (trees items.now)) }
{
    for item in items {
        if !knows(world, instance, item) {
            return false;
        }
    }
    true
}

/// Whether the fields of a record stand in order, and each has a name of its form and is known to the instance.
#[cycle(knowing)]
fn knows_record(world: &World, instance: u32, fields: &[(Text, Data)]) -> bool
    requires good { IsGoodWorld (world_of world.now) }
    requires made { instance < length (world_of world.now).tables.instances }
    ensures { result ≡ knows_record (world_of world.now) instance
        (fields_of (named_trees fields.now)) }
{
    are_in_order(fields) && knows_each(world, instance, fields)
}

/// Whether each field has a name of its form and is known to the instance.
#[cycle(knowing)]
fn knows_each(world: &World, instance: u32, fields: &[(Text, Data)]) -> bool
    requires good { IsGoodWorld (world_of world.now) }
    requires made { instance < length (world_of world.now).tables.instances }
    ensures { result ≡ knows_fields (world_of world.now) instance
        (fields_of (named_trees fields.now)) }
{
    for (name, item) in fields {
        if !is_field_name(name.as_str().as_bytes()) || !knows(world, instance, item) {
            return false;
        }
    }
    true
}

/// Whether the instance may hold the data.
pub fn may_hold(world: &World, instance: u32, value: &Data) -> bool
    requires good { IsGoodWorld (world_of world.now) }
    requires made { instance < length (world_of world.now).tables.instances }
    ensures { result ≡ passes (world_of world.now) instance (tree value.now) }
{
    value.nests_within(MOST_NESTED) && knows(world, instance, value)
}

/// Whether the instance may hold each of them.
pub fn may_hold_all(world: &World, instance: u32, items: &[Data]) -> bool
    requires good { IsGoodWorld (world_of world.now) }
    requires made { instance < length (world_of world.now).tables.instances }
    ensures { result ≡ all_pass (world_of world.now) instance (trees items.now) }
{
    for item in items {
        if !may_hold(world, instance, item) {
            return false;
        }
    }
    true
}
