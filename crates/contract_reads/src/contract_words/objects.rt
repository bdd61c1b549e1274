//! Objects that a contract's call names, which were made: read by their places.

ghost use Rattle.std.specs.Prelude.{◌≡◌, ◌<◌, ◌≤◌, IfOk, length, not};
ghost use Rattle.refusals.specs.amount_math.declared.Kind.TheVariants.{Nat};
ghost use Rattle.rules.specs.call_arguments.Arguments.{arg, object_at};
ghost use Rattle.contract_reads.specs.Known.{AreKnown};
ghost use Rattle.host_world.specs.Worlds.{world_of};
ghost use Rattle.host_data.specs.Tree.{is_local};
ghost use Rattle.host_data.specs.View.{trees};
ghost use Rattle.host_data.specs.declared.data.ObjKind.TheVariants as kinds;
ghost use Rattle.refusals.specs.Codes.{local_only};
ghost use Rattle.refusals.specs.Outcomes.{Gives, need};

use host_data::data::{Data, ObjKind};
use host_world::World;
use host_world::draft_reads_lib::seat_reads::seats_made;
use refusals::amount_math_lib::Kind;
use refusals::codes::BareCode;
use refusals::stops::Stop;
use rules::call_arguments_lib::places::{argument, object_at};

/// The number of the ZCF seat at a place: else `WrongObject` with the place.
pub fn seat_number(world: &World, place: u32, args: &[Data]) -> Result<u32, Stop>
    requires place { 1 ≤ place }
    requires known { AreKnown (world_of world.now) (trees args.now) }
    ensures gives { Gives (λ n. n) result (object_at kinds.Zseat place (trees args.now)) }
    ensures made { IfOk result (λ n. n < length (world_of world.now).seats) }
{
    object_at(ObjKind::Zseat, seats_made(&world.draft), place, args)
}

/// The number of the issuer at a place, which is its brand's: else `WrongObject` with the place.
pub fn issuer_number(world: &World, place: u32, args: &[Data]) -> Result<u16, Stop>
    requires place { 1 ≤ place }
    requires known { AreKnown (world_of world.now) (trees args.now) }
    ensures gives { Gives (λ n. n) result (object_at kinds.Issuer place (trees args.now)) }
    ensures made { IfOk result (λ n. n < length (world_of world.now).brands) }
{
    let brand = object_at(ObjKind::Issuer, world.registers.brands.made(), place, args)?;
    Ok(brand as u16)
}

/// The number of the brand at a place: else `WrongObject` with the place.
pub fn brand_number(world: &World, place: u32, args: &[Data]) -> Result<u16, Stop>
    requires place { 1 ≤ place }
    requires known { AreKnown (world_of world.now) (trees args.now) }
    ensures gives { Gives (λ n. n) result (object_at (kinds.Brand Nat) place (trees args.now)) }
    ensures made { IfOk result (λ n. n < length (world_of world.now).brands) }
{
    let kind = ObjKind::Brand(Kind::Nat);
    let brand = object_at(kind, world.registers.brands.made(), place, args)?;
    Ok(brand as u16)
}

/// That the timer stands at a place: else `WrongObject` with the place.
pub fn check_timer(world: &World, place: u32, args: &[Data]) -> Result<u32, Stop>
    requires place { 1 ≤ place }
    requires known { AreKnown (world_of world.now) (trees args.now) }
    ensures gives { Gives (λ n. n) result (object_at kinds.Timer place (trees args.now)) }
{
    let _ = &world.draft;
    object_at(ObjKind::Timer, 1, place, args)
}

/// That an argument names nothing that stays with its instance: else `LocalOnly` (own).
#[tactic(auto, unfolding(refusals::specs::Outcomes::need))]
pub fn check_not_local(place: u32, args: &[Data]) -> Result<(), Stop>
    requires { 1 ≤ place }
    ensures { Gives (λ _. tt) result
        (need (not (is_local (arg place (trees args.now)))) local_only) }
{
    match argument(args, place) {
        Some(given) if given.is_local() => Err(Stop::bare(BareCode::LocalOnly)),
        Some(_) => Ok(()),
        None => Ok(()),
    }
}
