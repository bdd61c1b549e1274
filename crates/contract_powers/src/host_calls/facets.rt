//! Facets (Endo's Far), as outcomes.

ghost use Rattle.std.specs.Prelude.{◌≡◌, ◌∷◌, [], IfOk};
ghost use Rattle.refusals.specs.host_data.Values.{object_tree};
ghost use Rattle.world_effects.specs.call_outcomes.Lists.{IsEachShaped};
ghost use Rattle.world_effects.specs.call_outcomes.CallOutcomes.{GivesOutcome, outcome_view};
ghost use Rattle.delivery_laws.specs.rules.PromisesAndFacets.{far_rule};
ghost use Rattle.world_effects.specs.host_world.Worlds.{world_of};
ghost use Rattle.world_effects.specs.actors.Facets.{facet_view};
ghost use Rattle.refusals.specs.host_data.View.{tree};
ghost use Rattle.refusals.specs.host_data.declared.data.ObjKind.TheVariants as kinds;
ghost use Rattle.world_effects.specs.world_state.Worlds as worlds;

use refusals::host_data_lib::data::{Data, ObjKind};
use refusals::host_data_lib::values::object_data;
use refusals::host_text_lib::text::Text;
use refusals::stops::Stop;
use std::alloc::{AllocError, Global};
use world_effects::actors_lib::instance_store::facets::Facet;
use world_effects::call_outcomes_lib::effects::{Effect, LabelsEffect};
use world_effects::call_outcomes_lib::outcomes::CallOutcome;
use world_effects::host_world_lib::World;
use world_effects::world_reads_lib::words::next_of;

/// A method with its function, each a copy.
fn copy_method(alloc: Global, method: &(Text, Text)) -> Result<(Text, Text), AllocError>
    ensures { IfOk result (λ copy. copy ≡ method.now) }
{
    let name = method.0.copy(alloc)?;
    let function = method.1.copy(alloc)?;
    Ok((name, function))
}

/// The methods of a facet, each with its function.
pub(crate) fn copy_methods(
    alloc: Global,
    methods: &[(Text, Text)],
) -> Result<Vec<(Text, Text)>, AllocError>
    ensures { IfOk result (λ copies. copies.items ≡ methods.now) }
{
    let mut copies = Vec::new(alloc);
    for method in methods {
        copies.push(copy_method(alloc, method)?)?;
    }
    Ok(copies)
}

/// A facet of an instance, each part a copy.
fn facet_of(
    alloc: Global,
    instance: u32,
    methods: &[(Text, Text)],
    held: &Data,
) -> Result<Facet, AllocError>
    ensures { IfOk result (λ made. facet_view made
        ≡ record { instance = instance; methods = methods.now; held = tree held.now }) }
{
    let methods = copy_methods(alloc, methods)?;
    let held = held.copy(alloc)?;
    Ok(Facet {
        instance,
        methods,
        held,
    })
}

/// A facet, which is answered.
fn far_plan(
    alloc: Global,
    instance: u32,
    number: u32,
    methods: &[(Text, Text)],
    held: &Data,
) -> Result<CallOutcome, AllocError>
    ensures plan { IfOk result (λ plan. outcome_view plan ≡ (
      object_tree kinds.Facet number,
      worlds.make_facet (record {
        instance = instance;
        methods = methods.now;
        held = tree held.now;
      }) ∷ [],
    )) }
    ensures shaped { IfOk result (λ plan. IsEachShaped plan.effects) }
{
    let facet = facet_of(alloc, instance, methods, held)?;
    let make = Effect::Labels(LabelsEffect::MakeFacet(facet));
    CallOutcome::with_effect(alloc, object_data(ObjKind::Facet, number), make)
}

/// `Far(name, methods, held)`, which is answered with the facet: else `Limit`.
#[tactic(auto, unfolding(rules::specs::PromisesAndFacets::far_rule, refusals::specs::Outcomes::bind))]
pub fn plan_far(
    alloc: Global,
    world: &World,
    instance: u32,
    methods: &[(Text, Text)],
    held: &Data,
) -> Result<CallOutcome, Stop>
    ensures { GivesOutcome (far_rule (world_of world.now) instance methods.now (tree held.now)) result }
{
    let number = next_of(world.registers.facets.made(), u32::MAX)?;
    let far = far_plan(alloc, instance, number, methods, held)?;
    Ok(far)
}
