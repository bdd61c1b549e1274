//! What the calls of an instance's functions come to, before they are carried out: none where a call names what the
//! instance may not name.

ghost use Rattle.std.specs.Prelude.{◌<◌, ℕ, List, IfOk, length};
ghost use Rattle.world_effects.specs.call_outcomes.CallOutcomes.{GivesOutcome};
ghost use Rattle.delivery_laws.specs.rules.Outcomes.{Outcome};
ghost use Rattle.contract_powers.specs.Admission.{IsPlanned};
ghost use Rattle.delivery_laws.specs.rules.PromisesAndFacets.{call_rule};
ghost use Rattle.contract_powers.specs.CallOutcomes.{IsAnswered};
ghost use Rattle.contract_powers.specs.CallNotes.{IsTold};
ghost use Rattle.world_effects.specs.host_world.Worlds.{world_of};
ghost use Rattle.jessie_machine.specs.jessie_semantics.Keeping.{CallHas};
ghost use Rattle.jessie_machine.specs.jessie_semantics.Play as plays;
ghost use Rattle.jessie_machine.specs.jessie_semantics.Play.{Call};
ghost use Rattle.refusals.specs.host_data.Tree.{Tree};
ghost use Rattle.refusals.specs.host_data.View.{tree, trees};
ghost use Rattle.world_effects.specs.vault.Drafts.{IsClean};
ghost use Rattle.world_effects.specs.world_state.Good.{IsGoodWorld};
ghost use Rattle.world_effects.specs.world_state.Known.{IsKnownTo};

use crate::host_calls::answers::{Answered, answer_call};
use crate::host_calls::facets::plan_far;
use crate::host_calls::requests::plan_when;
use crate::host_calls::sends::plan_send;
use crate::host_calls::told_calls::{Told, told_call, told_far, told_send, told_when};
use crate::names::{knows_call, knows_request};
use crate::planner::Planner;
use refusals::host_data_lib::data::{Data, Obj};
use refusals::host_text_lib::text::Text;
use refusals::stops::Stop;
use std::alloc::{AllocError, Global};
use world_effects::call_outcomes_lib::outcomes::CallOutcome;
use world_effects::host_world_lib::World;
use world_effects::world_reads_lib::known_data::may_hold_all;

// ---- calls

/// A call of a method, of what the instance may name.
fn known_call<P: Planner>(
    alloc: Global,
    world: &World,
    instance: u32,
    target: Obj,
    method: Text,
    args: Vec<Data>,
) -> Result<Answered, AllocError>
    requires clean { IsClean world.now.draft }
    requires good { IsGoodWorld (world_of world.now) }
    requires made { instance < length (world_of world.now).tables.instances }
    requires known { CallHas (IsKnownTo (world_of world.now) instance)
        (plays.call target method (trees args.items)) }
    ensures { let c = plays.call target method (trees args.items) in
        IfOk result (IsAnswered c (call_rule (world_of world.now) instance c)) }
{
    let row = P::plan_call(
        alloc,
        world,
        instance,
        target,
        method.as_str(),
        args.as_slice(),
    );
    answer_call(alloc, told_call(target, method, args), row)
}

/// A call of a method, by its name.
fn named_call<P: Planner>(
    alloc: Global,
    world: &World,
    instance: u32,
    target: Obj,
    method: Text,
    args: Vec<Data>,
) -> Result<Option<Answered>, AllocError>
    requires clean { IsClean world.now.draft }
    requires good { IsGoodWorld (world_of world.now) }
    requires made { instance < length (world_of world.now).tables.instances }
    ensures { IfOk result (IsPlanned (world_of world.now) instance
        (plays.call target method (trees args.items))) }
{
    if !knows_call(world, instance, target, args.as_slice()) {
        drop(method);
        drop(args);
        return Ok(None);
    }
    match known_call::<P>(alloc, world, instance, target, method, args) {
        Ok(done) => Ok(Some(done)),
        Err(fault) => Err(fault),
    }
}

/// A call of a method of an object (Zoe).
pub fn admit_call<P: Planner>(
    alloc: Global,
    world: &World,
    instance: u32,
    target: Obj,
    method: &str,
    args: Vec<Data>,
) -> Result<Option<Answered>, AllocError>
    requires clean { IsClean world.now.draft }
    requires good { IsGoodWorld (world_of world.now) }
    requires made { instance < length (world_of world.now).tables.instances }
    ensures { IfOk result (IsPlanned (world_of world.now) instance
        (plays.call target method.now (trees args.items))) }
{
    match Text::from_str(alloc, method) {
        Ok(method) => named_call::<P>(alloc, world, instance, target, method, args),
        Err(fault) => {
            drop(args);
            Err(fault)
        }
    }
}

// ---- sends

/// A send, whatever it names.
fn any_send(
    alloc: Global,
    world: &World,
    instance: u32,
    target: Obj,
    method: Text,
    args: Vec<Data>,
) -> Result<Answered, AllocError>
    ensures { let c = plays.send target method (trees args.items) in
        IfOk result (IsAnswered c (call_rule (world_of world.now) instance c)) }
{
    let row = plan_send(alloc, world, instance, target, &method, args.as_slice());
    answer_call(alloc, told_send(target, method, args), row)
}

/// A call of a method of an object, to be delivered later (eventual send).
pub fn admit_send(
    alloc: Global,
    world: &World,
    instance: u32,
    target: Obj,
    method: &str,
    args: Vec<Data>,
) -> Result<Option<Answered>, AllocError>
    requires good { IsGoodWorld (world_of world.now) }
    requires made { instance < length (world_of world.now).tables.instances }
    ensures { IfOk result (IsPlanned (world_of world.now) instance
        (plays.send target method.now (trees args.items))) }
{
    if !knows_call(world, instance, target, args.as_slice()) {
        return Ok(None);
    }
    let method = Text::from_str(alloc, method)?;
    let done = any_send(alloc, world, instance, target, method, args)?;
    Ok(Some(done))
}

// ---- requests

/// What a request comes to, where it could be told.
fn answer_told(
    alloc: Global,
    told: Result<Told, AllocError>,
    row: Result<CallOutcome, Stop>,
) -> Result<Answered, AllocError>
    ensures { IfOk result (λ a. (c : Call) (outcome : Outcome) → IfOk told (IsTold c)
        → GivesOutcome outcome row → IsAnswered c outcome a) }
{
    match told {
        Ok(told) => answer_call(alloc, told, row),
        Err(fault) => {
            drop(row);
            Err(fault)
        }
    }
}

/// A request to be told of a promise, whatever it names.
fn any_request(
    alloc: Global,
    world: &World,
    instance: u32,
    promise: Obj,
    function: Text,
    held: Data,
) -> Result<Answered, AllocError>
    ensures { let c = plays.when promise function (tree held) in
        IfOk result (IsAnswered c (call_rule (world_of world.now) instance c)) }
{
    let row = plan_when(alloc, world, instance, promise, &function, &held);
    let told = told_when(alloc, promise, function, held);
    answer_told(alloc, told, row)
}

/// A request to be told of a promise, by a function's name.
fn named_request(
    alloc: Global,
    world: &World,
    instance: u32,
    promise: Obj,
    function: Text,
    held: Data,
) -> Result<Option<Answered>, AllocError>
    requires good { IsGoodWorld (world_of world.now) }
    requires made { instance < length (world_of world.now).tables.instances }
    ensures { IfOk result (IsPlanned (world_of world.now) instance
        (plays.when promise function (tree held))) }
{
    if !knows_request(world, instance, promise, &function, &held) {
        drop(function);
        drop(held);
        return Ok(None);
    }
    match any_request(alloc, world, instance, promise, function, held) {
        Ok(done) => Ok(Some(done)),
        Err(fault) => Err(fault),
    }
}

/// A request to be told of a promise (eventual send).
pub fn admit_when(
    alloc: Global,
    world: &World,
    instance: u32,
    promise: Obj,
    function: &str,
    held: Data,
) -> Result<Option<Answered>, AllocError>
    requires good { IsGoodWorld (world_of world.now) }
    requires made { instance < length (world_of world.now).tables.instances }
    ensures { IfOk result (IsPlanned (world_of world.now) instance
        (plays.when promise function.now (tree held))) }
{
    match Text::from_str(alloc, function) {
        Ok(function) => named_request(alloc, world, instance, promise, function, held),
        Err(fault) => {
            drop(held);
            Err(fault)
        }
    }
}

// ---- facets

/// A facet, once it is planned and told.
fn known_facet(
    alloc: Global,
    world: &World,
    instance: u32,
    told: Told,
    row: Result<CallOutcome, Stop>,
) -> Result<Option<Answered>, AllocError>
    requires good { IsGoodWorld (world_of world.now) }
    requires made { instance < length (world_of world.now).tables.instances }
    ensures { (name : List ℕ) (methods : List (List ℕ × List ℕ)) (held : Tree)
        → let c = plays.far name methods held in
        IsTold c told → GivesOutcome (call_rule (world_of world.now) instance c) row
        → IfOk result (IsPlanned (world_of world.now) instance c) }
{
    if !may_hold_all(world, instance, told.arguments.as_slice()) {
        drop(told);
        drop(row);
        return Ok(None);
    }
    match answer_call(alloc, told, row) {
        Ok(done) => Ok(Some(done)),
        Err(fault) => Err(fault),
    }
}

/// A facet that is made, by its name.
fn named_facet(
    alloc: Global,
    world: &World,
    instance: u32,
    name: Text,
    methods: Vec<(Text, Text)>,
    held: Data,
) -> Result<Option<Answered>, AllocError>
    requires good { IsGoodWorld (world_of world.now) }
    requires made { instance < length (world_of world.now).tables.instances }
    ensures { IfOk result (IsPlanned (world_of world.now) instance
        (plays.far name methods.items (tree held))) }
{
    let row = plan_far(alloc, world, instance, methods.as_slice(), &held);
    match told_far(alloc, name, methods, held) {
        Ok(told) => known_facet(alloc, world, instance, told, row),
        Err(fault) => {
            drop(row);
            Err(fault)
        }
    }
}

/// A facet that is made (Endo's Far).
pub fn admit_far(
    alloc: Global,
    world: &World,
    instance: u32,
    name: &str,
    methods: Vec<(Text, Text)>,
    held: Data,
) -> Result<Option<Answered>, AllocError>
    requires good { IsGoodWorld (world_of world.now) }
    requires made { instance < length (world_of world.now).tables.instances }
    ensures { IfOk result (IsPlanned (world_of world.now) instance
        (plays.far name.now methods.items (tree held))) }
{
    match Text::from_str(alloc, name) {
        Ok(name) => named_facet(alloc, world, instance, name, methods, held),
        Err(fault) => {
            drop(methods);
            drop(held);
            Err(fault)
        }
    }
}
