//! The parts of a turn's end, in their order.

ghost use Rattle.std.specs.Prelude.{◌≡◌, ◌++◌, ◌∷◌, [], IfOk, OnOk, codes};
ghost use Rattle.world_reads.specs.call_outcomes.Lists.{IsEachShaped, effects_view};
ghost use Rattle.delivery_laws.specs.Works.{IsOut};
ghost use Rattle.delivery_turns.specs.Endings.{binds, binds_to, ending, publishes, settles};
ghost use Rattle.world_reads.specs.host_world.Worlds.{world_of};
ghost use Rattle.host_data.specs.View.{tree};
ghost use Rattle.delivery_turns.specs.turn_records.Settlements.{part, settled_after};
ghost use Rattle.delivery_turns.specs.turn_records.Views.{answer_view, delivery_view, line_call_view};
ghost use Rattle.delivery_turns.specs.turn_records.Deliveries.{promise_of};
ghost use Rattle.delivery_turns.specs.world_state.Good.{IsGoodWorld};
ghost use Rattle.delivery_turns.specs.world_state.Worlds.{end_staging, in_front, publish};

use crate::effects::binding;
use crate::leaving::add_departures;
use crate::settling::add_settling;
use delivery_turns::turn_records_lib::deliveries::Delivery;
use delivery_turns::turn_records_lib::events::Answer;
use delivery_turns::turn_records_lib::messages::LineCall;
use host_data::data::Data;
use std::alloc::{AllocError, Global};
use world_reads::call_outcomes_lib::effects::{Effect, InstancesEffect, RightsEffect};
use world_reads::call_outcomes_lib::lists::Effects;
use world_reads::host_world_lib::World;

// ---- what a start gives

/// The public facet of what a start gives, null where it gives none (Zoe).
fn public_facet(alloc: Global, given: &Data) -> Result<Data, AllocError>
    ensures { IfOk result (λ facet. tree facet ≡ part (codes "publicFacet") (tree given.now)) }
{
    match given.field("publicFacet") {
        Some(facet) => facet.copy(alloc),
        None => Ok(Data::Null),
    }
}

/// Adds that an instance keeps its public facet.
fn publish(
    alloc: Global,
    instance: u32,
    given: &Data,
    effects: &mut Effects,
) -> Result<(), AllocError>
    ensures { OnOk result (effects_view effects.new ≡ effects_view effects.old
        ++ publish instance (part (codes "publicFacet") (tree given.now)) ∷ []) }
{
    let facet = public_facet(alloc, given)?;
    effects.push(Effect::Instances(InstancesEffect::Publish(instance, facet)))?;
    Ok(())
}

/// Adds that what a start gives as its public facet is kept.
fn add_publication(
    alloc: Global,
    delivery: &Delivery,
    answer: &Answer,
    effects: &mut Effects,
) -> Result<(), AllocError>
    ensures { OnOk result (effects_view effects.new ≡ effects_view effects.old
        ++ publishes (delivery_view delivery.now) (answer_view answer.now)) }
{
    match delivery {
        Delivery::Start(start) => match answer {
            Answer::Given(given) => publish(alloc, start.instance, given, effects),
            _ => Ok(()),
        },
        _ => Ok(()),
    }
}

// ---- labels

/// Adds that the label that a party wants is bound to the answer.
fn bind(
    alloc: Global,
    call: &LineCall,
    given: &Data,
    effects: &mut Effects,
) -> Result<(), AllocError>
    ensures { OnOk result (effects_view effects.new ≡ effects_view effects.old
        ++ binds_to call.now.by call.now.label (tree given.now)) }
{
    if let Some(label) = &call.label {
        let bound = binding(alloc, &call.by, label, given)?;
        effects.push(bound)?;
    }
    Ok(())
}

/// Adds that the label that is wanted for a call's answer is bound to it, where it is answered.
fn add_binding(
    alloc: Global,
    delivery: &Delivery,
    answer: &Answer,
    effects: &mut Effects,
) -> Result<(), AllocError>
    ensures { OnOk result (effects_view effects.new ≡ effects_view effects.old
        ++ binds (delivery_view delivery.now) (answer_view answer.now)) }
{
    match delivery {
        Delivery::Call(call) => match answer {
            Answer::Given(given) => bind(alloc, call, given, effects),
            _ => Ok(()),
        },
        _ => Ok(()),
    }
}

// ---- all

/// Adds that what a start gives is published, and that the promise of the delivery is resolved.
fn add_answer(
    alloc: Global,
    world: &World,
    delivery: &Delivery,
    answer: &Answer,
    effects: &mut Effects,
) -> Result<(), AllocError>
    requires good { IsGoodWorld (in_front (delivery_view delivery.now) (world_of world.now)) }
    requires out { IsOut (world_of world.now) (answer_view answer.now) }
    ensures { OnOk result (effects_view effects.new ≡ effects_view effects.old
        ++ (publishes (delivery_view delivery.now) (answer_view answer.now)
        ++ settles (world_of world.now).promises.follows (promise_of (delivery_view delivery.now))
        (settled_after (delivery_view delivery.now) (answer_view answer.now)))) }
{
    add_publication(alloc, delivery, answer, effects)?;
    add_settling(alloc, world, delivery, answer, effects)
}

/// Adds that all staging ends.
fn add_last(effects: &mut Effects) -> Result<(), AllocError>
    ensures { OnOk result
        (effects_view effects.new ≡ effects_view effects.old ++ end_staging ∷ []) }
{
    effects.push(Effect::Rights(RightsEffect::EndStaging))?;
    Ok(())
}

/// Adds all parts of a turn's end, in their order.
#[tactic(auto, unfolding(delivery_turns::specs::Endings::ending))]
fn add_ending(
    alloc: Global,
    world: &World,
    delivery: &Delivery,
    answer: &Answer,
    effects: &mut Effects,
) -> Result<(), AllocError>
    requires good { IsGoodWorld (in_front (delivery_view delivery.now) (world_of world.now)) }
    requires out { IsOut (world_of world.now) (answer_view answer.now) }
    ensures { OnOk result (effects_view effects.new ≡ effects_view effects.old
        ++ ending (delivery_view delivery.now) (answer_view answer.now) (world_of world.now)) }
{
    add_answer(alloc, world, delivery, answer, effects)?;
    add_departures(world, delivery, answer, effects)?;
    add_binding(alloc, delivery, answer, effects)?;
    add_last(effects)
}

/// How the turn of a delivery ends, from the world that it has come to (Zoe; eventual send; that all staging ends with
/// the turn is our own). All data is a copy: for want of memory nothing has changed.
pub fn ending(
    alloc: Global,
    world: &World,
    delivery: &Delivery,
    answer: &Answer,
) -> Result<Effects, AllocError>
    requires good { IsGoodWorld (in_front (delivery_view delivery.now) (world_of world.now)) }
    requires out { IsOut (world_of world.now) (answer_view answer.now) }
    ensures effects { IfOk result (λ es. effects_view es
        ≡ ending (delivery_view delivery.now) (answer_view answer.now) (world_of world.now)) }
    ensures shaped { IfOk result (λ es. IsEachShaped es) }
{
    let mut effects = Effects::new(alloc);
    add_ending(alloc, world, delivery, answer, &mut effects)?;
    Ok(effects)
}
