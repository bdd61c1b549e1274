//! Whether an instance may name an object: it was made, and is not another instance's own.

ghost use Rattle.std.specs.Prelude.{◌≡◌, ◌<◌, length};
ghost use Rattle.host_world.specs.Worlds.{world_of};
ghost use Rattle.world_reads.specs.Tests.{is_brand, is_made_by, is_made_by_kit, is_seat_of};
ghost use Rattle.world_reads.specs.Tests.{knows_object, same_kind};
ghost use Rattle.rules.specs.world_state.Good.{IsGoodWorld};

use call_outcomes::registers_lib::brand_makers::Maker;
use host_world::World;
use host_world::draft_reads_lib::payment_reads::payments_made;
use host_world::draft_reads_lib::purse_reads::purses_made;
use host_world::draft_reads_lib::seat_reads::{seat_instance, seats_made};
use refusals::amount_math_lib::Kind;
use refusals::host_data_lib::data::{Obj, ObjKind};

fn same_kind(one: Kind, other: Kind) -> bool
    ensures { result ≡ same_kind one other }
{
    match (one, other) {
        (Kind::Nat, Kind::Nat) => true,
        (Kind::Set, Kind::Set) => true,
        (Kind::Bag, Kind::Bag) => true,
        _ => false,
    }
}

/// Whether a brand of the kind was made.
fn is_brand(world: &World, kind: Kind, brand: u32) -> bool
    ensures { result ≡ is_brand (world_of world.now).brands kind brand }
{
    let brands = &world.registers.brands;
    brand < brands.made() && same_kind(brands.kind(brand as u16), kind)
}

/// Whether a call that makes an issuer kit made the brand, so that its mint is given out.
fn is_made_by_kit(world: &World, brand: u32) -> bool
    requires { IsGoodWorld (world_of world.now) }
    ensures { result ≡ is_made_by_kit (world_of world.now).makers brand }
{
    if world.registers.brands.made() <= brand {
        return false;
    }
    match world.registers.makers.maker(brand as u16) {
        Maker::Kit => true,
        _ => false,
    }
}

/// Whether the instance made the brand, so that its mint is its own.
fn is_made_by(world: &World, instance: u32, brand: u32) -> bool
    requires { IsGoodWorld (world_of world.now) }
    ensures { result ≡ is_made_by (world_of world.now).makers instance brand }
{
    if world.registers.brands.made() <= brand {
        return false;
    }
    match world.registers.makers.maker(brand as u16) {
        Maker::Instance(maker) => maker == instance,
        _ => false,
    }
}

/// Whether the seat was opened for the instance.
fn is_seat_of(world: &World, instance: u32, seat: u32) -> bool
    ensures { result ≡ is_seat_of (world_of world.now).seats instance seat }
{
    seat < seats_made(&world.draft) && seat_instance(&world.draft, seat) == instance
}

/// Whether the instance may name the object.
pub fn knows_object(world: &World, instance: u32, object: Obj) -> bool
    requires { IsGoodWorld (world_of world.now) }
    ensures { result ≡ knows_object (world_of world.now) instance object.kind object.number }
{
    let number = object.number;
    match object.kind {
        ObjKind::Ertp | ObjKind::Zoe | ObjKind::Timer => number == 0,
        ObjKind::Brand(kind) => is_brand(world, kind, number),
        ObjKind::Issuer => number < world.registers.brands.made(),
        ObjKind::Mint => is_made_by_kit(world, number),
        ObjKind::Purse | ObjKind::Deposit => number < purses_made(&world.draft),
        ObjKind::Payment => number < payments_made(&world.draft),
        ObjKind::Installation => number < world.registers.instances.installations(),
        ObjKind::Instance => number < world.registers.instances.made(),
        ObjKind::Zcf => number == instance,
        ObjKind::Seat => number < seats_made(&world.draft),
        ObjKind::Zseat => is_seat_of(world, instance, number),
        ObjKind::Zmint => is_made_by(world, instance, number),
        ObjKind::Facet => number < world.registers.facets.made(),
        ObjKind::Promise => number < world.registers.promises.made(),
    }
}
