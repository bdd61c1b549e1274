//! Invitations that payments are of.

ghost use Rattle.rules.specs.Zoe.{invitation_in, named_by, only_key};
ghost use Rattle.rules.specs.world_state.Good.{IsGoodWorld};
ghost use Rattle.rules.specs.world_state.Rights.{kind_at};
ghost use Rattle.std.specs.Prelude.{◌≡◌, ◌<◌, IfSome, length, option_map};
ghost use Rattle.world_reads.specs.host_world.Worlds.{world_of};

use refusals::amount_math_lib::{Entry, Holding, Key};
use rules::turn_stores_lib::invitations::element::number_of_element;
use world_reads::host_world_lib::World;

/// The invitation, of the first so many, that a key names.
fn named_by(key: &str, made: u32) -> Option<u32>
    ensures is { result ≡ named_by made key.now }
    ensures made { IfSome result (λ n. n < made) }
{
    let number = number_of_element(key.as_bytes())?;
    if number < made { Some(number) } else { None }
}

/// The key of what has just one.
fn only_key(entries: &[Entry]) -> Option<&Key>
    ensures { option_map (λ key. key.now) result ≡ only_key entries.now }
{
    match entries {
        [entry] => Some(entry.key()),
        _ => None,
    }
}

/// The invitation that a holding of a brand is, where it is one (Zoe).
#[tactic(auto, using(crate::proofs::HeldKinds::first_kind), unfolding(rules::specs::Zoe::invitation_in))]
pub fn invitation_in(world: &World, brand: u16, held: &Holding) -> Option<u32>
    requires good { IsGoodWorld (world_of world.now) }
    requires kind { held.now.value.kind ≡ kind_at (world_of world.now).rights.out brand }
    ensures is { result ≡ invitation_in (world_of world.now) brand held.now.value }
    ensures made { IfSome result (λ n. n < length (world_of world.now).invitations) }
{
    if brand != 0 {
        return None;
    }
    let Some(entries) = held.entries() else {
        unreachable!()
    };
    let key = only_key(entries)?;
    named_by(key.as_str(), world.registers.invitations.made())
}
