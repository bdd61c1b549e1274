//! Objects that a call names, which were made: read by their places.

ghost use Rattle.std.specs.Prelude.{◌≡◌, ◌<◌, ◌≤◌, All, IfOk, Ok, length};
ghost use Rattle.rules.specs.call_arguments.Arguments.{list_at, object_at};
ghost use Rattle.world_reads.specs.Handed.{AreHanded};
ghost use Rattle.host_world.specs.Worlds.{world_of};
ghost use Rattle.refusals.specs.host_data.View.{trees};
ghost use Rattle.refusals.specs.host_data.declared.data.ObjKind.TheVariants as kinds;
ghost use Rattle.rules.specs.call_arguments.Lists.{objects_in};
ghost use Rattle.refusals.specs.Outcomes.{Gives};

use host_world::World;
use host_world::draft_reads_lib::payment_reads::payments_made;
use refusals::host_data_lib::data::{Data, ObjKind};
use refusals::stops::Stop;
use rules::call_arguments_lib::lists::objects_in;
use rules::call_arguments_lib::places::object_at;
use std::alloc::Global;

/// The number of the payment at a place: else `WrongObject` with the place.
pub fn payment_number(world: &World, place: u32, args: &[Data]) -> Result<u32, Stop>
    requires place { 1 ≤ place }
    requires handed { AreHanded (world_of world.now) (trees args.now) }
    ensures gives { Gives (λ n. n) result (object_at kinds.Payment place (trees args.now)) }
    ensures made { IfOk result (λ n. n < length (world_of world.now).rights.payments) }
{
    object_at(ObjKind::Payment, payments_made(&world.draft), place, args)
}

/// The number of the issuer at a place, which is its brand's: else `WrongObject` with the place.
pub fn issuer_number(world: &World, place: u32, args: &[Data]) -> Result<u32, Stop>
    requires place { 1 ≤ place }
    requires handed { AreHanded (world_of world.now) (trees args.now) }
    ensures gives { Gives (λ n. n) result (object_at kinds.Issuer place (trees args.now)) }
    ensures made { IfOk result (λ n. n < length (world_of world.now).brands) }
{
    object_at(ObjKind::Issuer, world.registers.brands.made(), place, args)
}

/// The number of the installation at a place: else `WrongObject` with the place.
pub fn installation_number(world: &World, place: u32, args: &[Data]) -> Result<u32, Stop>
    requires place { 1 ≤ place }
    requires handed { AreHanded (world_of world.now) (trees args.now) }
    ensures gives { Gives (λ n. n) result (object_at kinds.Installation place (trees args.now)) }
    ensures made { IfOk result (λ n. n < length (world_of world.now).tables.installations) }
{
    object_at(
        ObjKind::Installation,
        world.registers.instances.installations(),
        place,
        args,
    )
}

/// The number of the instance at a place: else `WrongObject` with the place.
pub fn instance_number(world: &World, place: u32, args: &[Data]) -> Result<u32, Stop>
    requires place { 1 ≤ place }
    requires handed { AreHanded (world_of world.now) (trees args.now) }
    ensures gives { Gives (λ n. n) result (object_at kinds.Instance place (trees args.now)) }
    ensures made { IfOk result (λ n. n < length (world_of world.now).tables.instances) }
{
    object_at(
        ObjKind::Instance,
        world.registers.instances.made(),
        place,
        args,
    )
}

/// The numbers of the payments in an array that stands at a place: else `WrongObject` with the place.
pub fn payments_listed(
    alloc: Global,
    world: &World,
    place: u32,
    args: &[Data],
    items: &[Data],
) -> Result<Vec<u32>, Stop>
    requires handed { AreHanded (world_of world.now) (trees args.now) }
    requires listed { list_at place (trees args.now) ≡ Ok (trees items.now) }
    ensures gives { Gives (λ ns. ns.items) result (objects_in kinds.Payment place (trees items.now)) }
    ensures made { IfOk result (λ ns.
        All (λ n. n < length (world_of world.now).rights.payments) ns.items) }
{
    let made = payments_made(&world.draft);
    objects_in(alloc, ObjKind::Payment, made, place, items)
}
