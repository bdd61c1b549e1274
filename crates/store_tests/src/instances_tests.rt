ghost use Rattle.std.specs.Prelude.{◌<◌};
ghost use Rattle.actors.specs.InstanceTurns.{installations_made, instances_made};

use actors::brands_lib::issuer_record::{IssuerFault, IssuerRecord};
use actors::host_data_lib::data::Data;
use actors::instance_store::facets::{Facet, Facets};
use actors::instance_store::seat_promises::{SeatPair, SeatPromises};
use actors::instance_store::{Instances, Standing};
use actors::jessie_grammar_lib::syntax::{Constant, Literal, Module, Variable};
use escrow::host_text_lib::keyword::Keyword;
use escrow::host_text_lib::text::Text;
use sqlite_items::Items;
use std::alloc::Global;
use std::process::Abort;

#[derive(Clone, Copy)]
enum Step {
    /// Installs a module with a state variable of 1.
    Install,
    /// Starts the first installation.
    Start,
    /// Keeps this number as the value of each state variable.
    Keep(u32, i128),
    /// Keeps this number as the public facet: the start has run.
    Run(u32, i128),
    /// Adds this brand under the keyword Price.
    AddIssuer(u32, u16),
    Stop(u32),
    Halt(u32),
    Forget,
    Back,
}

fn price(rt: &impl Abort, alloc: Global) -> Keyword {
    match Keyword::read(alloc, b"Price") {
        Ok(keyword) => keyword,
        Err(_) => panic!(rt; "a keyword, and memory"),
    }
}

fn variable(rt: &impl Abort, alloc: Global) -> Variable {
    let Ok(name) = Text::from_str(alloc, "v") else {
        panic!(rt; "memory for a text");
    };
    let initial = Constant::Literal(Literal::Number(1));
    Variable { name, initial }
}

/// A module with a state variable of 1.
fn module(rt: &impl Abort, alloc: Global) -> Module {
    let mut variables = Items::new(alloc);
    if let Err(failed) = variables.push(variable(rt, alloc)) {
        drop(failed);
        panic!(rt; "memory for a variable");
    }
    let functions = Items::new(alloc);
    Module {
        variables,
        functions,
    }
}

fn install(rt: &impl Abort, alloc: Global, instances: &mut Instances) {
    if let Err(refused) = instances.install(module(rt, alloc)) {
        drop(refused);
        panic!(rt; "memory for an installation");
    }
}

/// Starts the first installation, where there is one.
fn start(rt: &impl Abort, alloc: Global, instances: &mut Instances) {
    if instances.installations() == 0 {
        return;
    }
    let issuers = IssuerRecord::new(alloc);
    if let Err(refused) = instances.start(0, issuers, Data::Null) {
        drop(refused);
        panic!(rt; "memory for an instance");
    }
}

/// So many numbers.
fn numbers(rt: &impl Abort, alloc: Global, many: usize, value: i128) -> Vec<Data> {
    let mut state = Vec::new(alloc);
    for _ in 0..many {
        if let Err(failed) = state.push(Data::Number(value)) {
            drop(failed);
            panic!(rt; "memory for a value");
        }
    }
    state
}

/// Gives each state variable of an instance the value.
fn keep(rt: &impl Abort, alloc: Global, instances: &mut Instances, instance: u32, value: i128)
    requires { instance < instances_made instances.old }
{
    let many = instances.kept(instance).len();
    let state = numbers(rt, alloc, many, value);
    assert!(rt; state.len() == many);
    if let Err(back) = instances.keep(instance, state) {
        drop(back);
        panic!(rt; "memory for a state");
    }
}

fn run(rt: &impl Abort, instances: &mut Instances, instance: u32, facet: i128)
    requires { instance < instances_made instances.old }
{
    if let Err(back) = instances.keep_public_facet(instance, Data::Number(facet)) {
        drop(back);
        panic!(rt; "memory for a facet");
    }
}

/// Adds a brand under Price, and answers why it isn't added.
fn add_issuer(
    rt: &impl Abort,
    alloc: Global,
    instances: &mut Instances,
    instance: u32,
    brand: u16,
) -> Option<IssuerFault>
    requires { instance < instances_made instances.old }
{
    let price = price(rt, alloc);
    instances.add_issuer(instance, &price, brand).err()
}

/// Changes an instance that was made.
fn change(rt: &impl Abort, alloc: Global, instances: &mut Instances, instance: u32, step: Step)
    requires { instance < instances_made instances.old }
{
    match step {
        Step::Keep(_, value) => keep(rt, alloc, instances, instance, value),
        Step::Run(_, facet) => run(rt, instances, instance, facet),
        Step::AddIssuer(_, brand) => {
            add_issuer(rt, alloc, instances, instance, brand);
        }
        Step::Stop(_) => assert!(rt; instances.stop_accepting(instance).is_ok()),
        Step::Halt(_) => assert!(rt; instances.halt(instance).is_ok()),
        _ => {}
    }
}

/// The instance that a step changes.
fn changes(step: Step) -> Option<u32> {
    match step {
        Step::Keep(instance, _) => Some(instance),
        Step::Run(instance, _) => Some(instance),
        Step::AddIssuer(instance, _) => Some(instance),
        Step::Stop(instance) => Some(instance),
        Step::Halt(instance) => Some(instance),
        _ => None,
    }
}

/// Takes a step.
fn take(rt: &impl Abort, alloc: Global, instances: &mut Instances, step: Step) {
    if let Some(instance) = changes(step) {
        assert!(rt; instance < instances.made());
        return change(rt, alloc, instances, instance, step);
    }
    match step {
        Step::Install => install(rt, alloc, instances),
        Step::Start => start(rt, alloc, instances),
        Step::Back => instances.back(),
        _ => instances.forget(),
    }
}

/// The value of an instance's state variable, the brand under Price and the public facet, or 0, and its
/// standing.
type Row = (i128, u16, i128, Standing);

const NONE: Row = (0, 0, 0, Standing::Accepting);

const NEW: Row = (1, 0, 0, Standing::Accepting);

fn number_of(data: Option<&Data>) -> i128 {
    match data {
        Some(there) => there.number().unwrap_or(0),
        None => 0,
    }
}

fn row(rt: &impl Abort, alloc: Global, instances: &Instances, instance: u32) -> Row {
    if instances.made() <= instance {
        return NONE;
    }
    let price = price(rt, alloc);
    let value = number_of(instances.kept(instance).first());
    let brand = instances.issuers(instance).get(&price).unwrap_or(0);
    let facet = number_of(instances.public_facet(instance));
    (value, brand, facet, instances.standing(instance))
}

/// Steps, and the first two instances after each.
const STEPS: &[(Step, Row, Row)] = &[
    (Step::Install, NONE, NONE),
    (Step::Back, NONE, NONE),
    (Step::Start, NONE, NONE),
    (Step::Install, NONE, NONE),
    (Step::Start, NEW, NONE),
    (Step::Forget, NEW, NONE),
    (Step::Start, NEW, NEW),
    (Step::Keep(0, 3), (3, 0, 0, Standing::Accepting), NEW),
    (Step::Run(0, 7), (3, 0, 7, Standing::Accepting), NEW),
    (Step::AddIssuer(0, 5), (3, 5, 7, Standing::Accepting), NEW),
    (
        Step::Stop(1),
        (3, 5, 7, Standing::Accepting),
        (1, 0, 0, Standing::Stopped),
    ),
    (
        Step::Halt(0),
        (3, 5, 7, Standing::Halted),
        (1, 0, 0, Standing::Stopped),
    ),
    (
        Step::Stop(0),
        (3, 5, 7, Standing::Halted),
        (1, 0, 0, Standing::Stopped),
    ),
    (Step::Back, NEW, NONE),
    (Step::Start, NEW, NEW),
    (Step::Keep(0, 4), (4, 0, 0, Standing::Accepting), NEW),
    (
        Step::Halt(1),
        (4, 0, 0, Standing::Accepting),
        (1, 0, 0, Standing::Halted),
    ),
    (
        Step::Forget,
        (4, 0, 0, Standing::Accepting),
        (1, 0, 0, Standing::Halted),
    ),
    (
        Step::Back,
        (4, 0, 0, Standing::Accepting),
        (1, 0, 0, Standing::Halted),
    ),
];

/// Whether the first two instances have these rows after a step.
fn goes(
    rt: &impl Abort,
    alloc: Global,
    instances: &mut Instances,
    went: &(Step, Row, Row),
) -> bool {
    let (step, first, second) = *went;
    take(rt, alloc, instances, step);
    row(rt, alloc, instances, 0) == first && row(rt, alloc, instances, 1) == second
}

#[test]
fn a_turns_changes_are_undone_or_kept(rt: HostRuntime) {
    let mut instances = Instances::new(rt.alloc());
    for went in STEPS {
        assert!(rt; goes(&rt, rt.alloc(), &mut instances, went));
    }
}

/// An instance of one installation.
fn started(rt: &impl Abort, alloc: Global) -> Instances
    ensures installation { 0 < installations_made result }
    ensures instance { 0 < instances_made result }
{
    let mut instances = Instances::new(alloc);
    install(rt, alloc, &mut instances);
    start(rt, alloc, &mut instances);
    assert!(rt; instances.installations() == 1);
    assert!(rt; instances.made() == 1);
    instances
}

/// Whether the first installation's module is shared whole.
fn is_shared(instances: &Instances) -> bool
    requires { 0 < installations_made instances.now }
{
    match instances.shared_module(0) {
        Ok(module) => {
            let is_whole = module.as_ref().variables().len() == 1;
            drop(module);
            is_whole && instances.module(0).variables().len() == 1
        }
        Err(_) => false,
    }
}

#[test]
fn a_module_is_shared(rt: HostRuntime) {
    let instances = started(&rt, rt.alloc());
    let shared = is_shared(&instances);
    let of_the_first = instances.installation(0) == 0 && instances.terms(0).is_null();
    drop(instances);
    assert!(rt; shared && of_the_first);
}

#[test]
fn a_keyword_is_taken_once(rt: HostRuntime) {
    let mut instances = started(&rt, rt.alloc());
    let first = add_issuer(&rt, rt.alloc(), &mut instances, 0, 3);
    assert!(rt; instances.made() == 1);
    let second = add_issuer(&rt, rt.alloc(), &mut instances, 0, 4);
    drop(instances);
    assert!(rt; first.is_none() && second == Some(IssuerFault::KeywordTaken));
}

/// Adds a facet of the instance.
fn add_facet(rt: &impl Abort, alloc: Global, facets: &mut Facets, instance: u32) {
    let methods = Vec::new(alloc);
    let held = Data::Null;
    let facet = Facet {
        instance,
        methods,
        held,
    };
    if let Err(refused) = facets.add(facet) {
        drop(refused);
        panic!(rt; "memory for a facet");
    }
}

#[test]
fn a_turns_facets_go_back(rt: HostRuntime) {
    let mut facets = Facets::new(rt.alloc());
    add_facet(&rt, rt.alloc(), &mut facets, 4);
    facets.forget();
    add_facet(&rt, rt.alloc(), &mut facets, 5);
    facets.back();
    assert!(rt; facets.made() == 1);
    assert!(rt; facets.facet(0).instance == 4);
}

#[test]
fn a_turns_seats_go_back(rt: HostRuntime) {
    let mut promises = SeatPromises::new(rt.alloc());
    let result = 8;
    assert!(rt; promises.add(SeatPair { result, payouts: 9 }) == Ok(0));
    promises.forget();
    assert!(rt; promises.add(SeatPair { result, payouts: 1 }) == Ok(1));
    promises.back();
    assert!(rt; promises.made() == 1);
    assert!(rt; promises.of(0).payouts == 9);
}
