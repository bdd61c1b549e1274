//! What the promise of a delivery is resolved to (eventual send; that a promise which would follow itself is broken is
//! our own).

ghost use Rattle.std.specs.Prelude.{◌≡◌, ◌==◌, ◌<◌, ◌++◌, IfOk, IfSome, OnOk, length};
ghost use Rattle.world_reads.specs.call_outcomes.Lists.{effects_view};
ghost use Rattle.delivery_laws.specs.Works.{IsOut};
ghost use Rattle.delivery_turns.specs.Endings.{last_followed, leads_back, settles, without_cycle};
ghost use Rattle.world_reads.specs.host_world.Worlds.{world_of};
ghost use Rattle.delivery_turns.specs.promise_store.States.{broken, settlement_view};
ghost use Rattle.refusals.specs.Codes.{promise_cycle, refusal_tree};
ghost use Rattle.delivery_turns.specs.turn_records.Settlements.{settled_after};
ghost use Rattle.delivery_turns.specs.turn_records.Views.{answer_view, delivery_view};
ghost use Rattle.delivery_turns.specs.turn_records.Deliveries.{promise_of};
ghost use Rattle.delivery_turns.specs.world_state.Good.{IsGoodWorld};
ghost use Rattle.delivery_turns.specs.world_state.Promises.{IsPending, state_of, target_of};
ghost use Rattle.delivery_turns.specs.world_state.Worlds.{in_front, promises_made};
ghost use Rattle.delivery_tasks.specs.Leaders.{followed_in};

use delivery_turns::promise_store_lib::{Settlement, State};
use delivery_turns::turn_records_lib::deliveries::Delivery;
use delivery_turns::turn_records_lib::events::Answer;
use delivery_turns::turn_records_lib::turn_answers::settlements::settlement_of;
use host_data::data::{Data, ObjKind};
use refusals::codes::{NumberCode, Refusal};
use std::alloc::{AllocError, Global};
use world_reads::call_outcomes_lib::effects::{Effect, PromisesEffect};
use world_reads::call_outcomes_lib::lists::Effects;
use world_reads::host_world_lib::World;

/// The promise that a settlement names: it is followed.
fn target_of(settlement: &Settlement) -> Option<u32>
    ensures { result ≡ target_of (settlement_view settlement.now) }
{
    match settlement {
        Settlement::Ok(Data::Object(object)) => match object.kind {
            ObjKind::Promise => Some(object.number),
            _ => None,
        },
        _ => None,
    }
}

/// The promise that one which isn't settled follows.
fn leader_of(world: &World, promise: u32) -> Option<u32>
    requires { promise < promises_made (world_of world.now) }
    ensures { result ≡ followed_in (state_of (world_of world.now).promises promise) }
{
    match world.registers.promises.state(promise) {
        State::Follows(target) => Some(target),
        State::Pending => None,
        State::Settled(_) => None,
    }
}

/// Whether a chain of promises, each of which follows the next, ends in a promise that is pending.
fn leads_back(world: &World, promise: u32, target: u32) -> bool
    requires good { IsGoodWorld (world_of world.now) }
    requires pending { IsPending (world_of world.now).promises promise }
    requires made { target < promises_made (world_of world.now) }
    ensures { result ≡ (last_followed (world_of world.now).promises.follows target == promise) }
{
    let mut at = target;
    while let Some(next) = leader_of(world, at) {
        at = next;
    }
    at == promise
}

/// A promise that would follow itself is broken.
fn cycle(alloc: Global, promise: u32) -> Result<Settlement, AllocError>
    ensures { IfOk result (λ made. settlement_view made
        ≡ broken (refusal_tree (promise_cycle promise))) }
{
    let refusal = Refusal::Numbered(NumberCode::PromiseCycle, promise);
    let reason = refusal.data(alloc);
    drop(refusal);
    Ok(Settlement::Broken(reason?))
}

/// Whether a promise that is resolved so would follow itself.
fn is_cycle(world: &World, promise: u32, settlement: &Settlement) -> bool
    requires good { IsGoodWorld (world_of world.now) }
    requires pending { IsPending (world_of world.now).promises promise }
    requires made { IfSome (target_of (settlement_view settlement.now))
        (λ target. target < promises_made (world_of world.now)) }
    ensures { result ≡ leads_back (world_of world.now).promises.follows promise
        (settlement_view settlement.now) }
{
    match target_of(settlement) {
        Some(target) => leads_back(world, promise, target),
        None => false,
    }
}

/// What a promise is resolved to, if it would not follow itself.
fn without_cycle(
    alloc: Global,
    world: &World,
    promise: u32,
    settlement: Settlement,
) -> Result<Settlement, AllocError>
    requires good { IsGoodWorld (world_of world.now) }
    requires pending { IsPending (world_of world.now).promises promise }
    requires made { IfSome (target_of (settlement_view settlement))
        (λ target. target < promises_made (world_of world.now)) }
    ensures { IfOk result (λ made. settlement_view made
        ≡ without_cycle (world_of world.now).promises.follows promise (settlement_view settlement)) }
{
    if is_cycle(world, promise, &settlement) {
        drop(settlement);
        return cycle(alloc, promise);
    }
    Ok(settlement)
}

/// What the promise of a delivery is resolved to.
fn delivery_settlement(
    alloc: Global,
    world: &World,
    promise: u32,
    delivery: &Delivery,
    answer: &Answer,
) -> Result<Settlement, AllocError>
    requires good { IsGoodWorld (world_of world.now) }
    requires pending { IsPending (world_of world.now).promises promise }
    requires out { IsOut (world_of world.now) (answer_view answer.now) }
    ensures { IfOk result (λ made. settlement_view made
        ≡ without_cycle (world_of world.now).promises.follows promise
        (settled_after (delivery_view delivery.now) (answer_view answer.now))) }
{
    let settlement = settlement_of(alloc, delivery, answer)?;
    without_cycle(alloc, world, promise, settlement)
}

/// Adds that the promise of a delivery is resolved, where it has one.
pub(crate) fn add_settling(
    alloc: Global,
    world: &World,
    delivery: &Delivery,
    answer: &Answer,
    effects: &mut Effects,
) -> Result<(), AllocError>
    requires good { IsGoodWorld (in_front (delivery_view delivery.now) (world_of world.now)) }
    requires out { IsOut (world_of world.now) (answer_view answer.now) }
    ensures { OnOk result (effects_view effects.new ≡ effects_view effects.old
        ++ settles (world_of world.now).promises.follows (promise_of (delivery_view delivery.now))
        (settled_after (delivery_view delivery.now) (answer_view answer.now))) }
{
    if let Some(promise) = delivery.promise() {
        let settlement = delivery_settlement(alloc, world, promise, delivery, answer)?;
        effects.push(Effect::Promises(PromisesEffect::Resolve(promise, settlement)))?;
    }
    Ok(())
}
