//! What a rearrangement that passed its tests does to the world: the room that it needs, and its
//! effects.

ghost use Rattle.std.specs.Prelude.{◌≡◌, IfOk, map};
ghost use Rattle.world_reads.specs.call_outcomes.Lists.{IsEachShaped, effects_view};
ghost use Rattle.world_reads.specs.host_world.Worlds.{world_of};
ghost use Rattle.rearrange.specs.Moves.{opened_by};
ghost use Rattle.rearrange_calls.specs.Passed.{ArePassed};
ghost use Rattle.refusals.specs.Outcomes.{Gives};
ghost use Rattle.rules.specs.Rearranging.{carried_out, seats_of};
ghost use Rattle.rules.specs.States.{has_room};
ghost use Rattle.rules.specs.world_state.Worlds.{unstage};

use crate::moves::moves_of;
use refusals::stops::Stop;
use rules::proposals_lib::plans::Touched;
use share_transfers::contract_reads_lib::seat_changes::counts::check_left;
use std::alloc::{AllocError, Global};
use world_reads::call_outcomes_lib::effects::{Effect, RightsEffect};
use world_reads::call_outcomes_lib::lists::Effects;
use world_reads::call_outcomes_lib::moves::Moves;
use world_reads::host_world_lib::World;

/// How many slots are opened.
fn slots_opened(touched: &[Touched]) -> usize
    requires { ArePassed touched.now }
    ensures { result ≡ opened_by touched.now }
{
    let mut opened = 0;
    for one in touched {
        opened += one.after.len().saturating_sub(one.before.len());
    }
    opened
}

/// That the slots which are opened leave room for a payment each: else `Limit` (own).
#[tactic(auto, using(crate::proofs::Room::room_is))]
pub fn check_room(world: &World, touched: &[Touched]) -> Result<(), Stop>
    requires { ArePassed touched.now }
    ensures { Gives (λ _. tt) result (has_room (world_of world.now) touched.now 0) }
{
    check_left(world, slots_opened(touched), 0)
}

/// What is staged of the seats is dropped.
fn unstage_effects(alloc: Global, touched: &[Touched]) -> Result<Effects, AllocError>
    ensures effects { IfOk result (λ es. effects_view es
        ≡ map (λ seat. unstage seat) (seats_of touched.now)) }
    ensures shaped { IfOk result (λ es. IsEachShaped es) }
{
    let mut effects = Effects::new(alloc);
    for one in touched {
        effects.push(Effect::Rights(RightsEffect::Unstage(one.seat)))?;
    }
    Ok(effects)
}

/// What is staged of the seats is dropped, then their slots are rearranged (Zoe).
pub fn rearrange_effects(alloc: Global, touched: &[Touched]) -> Result<Effects, AllocError>
    requires { ArePassed touched.now }
    ensures effects { IfOk result (λ es. effects_view es ≡ carried_out touched.now) }
    ensures shaped { IfOk result (λ es. IsEachShaped es) }
{
    let moves = moves_of(alloc, touched)?;
    let mut effects = unstage_effects(alloc, touched)?;
    effects.push(Effect::Rights(RightsEffect::Moves(Moves::Rearrangement(moves))))?;
    Ok(effects)
}
