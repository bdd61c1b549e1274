//! The start of an instance (Zoe).

ghost use Rattle.host_data.specs.declared.data.ObjKind.TheVariants as kinds;
ghost use Rattle.rules.specs.world_state.Worlds as worlds;
ghost use Rattle.brands.specs.IssuerRecords.{AreApart, AreIssuers, most_issuers};
ghost use Rattle.ertp_calls.specs.call_outcomes.Lists.{IsEachShaped};
ghost use Rattle.ertp_calls.specs.call_outcomes.CallOutcomes.{GivesOutcome, outcome_view};
ghost use Rattle.ertp_calls.specs.call_outcomes.Views.{starting_view};
ghost use Rattle.ertp_calls.specs.host_world.Worlds.{world_of};
ghost use Rattle.ertp_calls.specs.world_reads.Handed.{AreHanded};
ghost use Rattle.host_data.specs.Amounts.{seen};
ghost use Rattle.host_data.specs.Values.{object_tree};
ghost use Rattle.host_data.specs.View.{named_trees, tree, trees};
ghost use Rattle.refusals.specs.Codes.{bad_args, limit};
ghost use Rattle.refusals.specs.Outcomes.{Gives, need};
ghost use Rattle.rules.specs.Zoe.{has_terms, is_kept_name, start_instance, starting, terms_in};
ghost use Rattle.rules.specs.call_arguments.Arguments.{arg};
ghost use Rattle.std.specs.List.{list_all};
ghost use Rattle.std.specs.Prelude.{◌≡◌, ◌≤◌, ◌∷◌, [], IfOk, OnOk, length, nat_le, not};
ghost use Rattle.zoe_calls.specs.StartSteps.{numbered, started};

use crate::issuers::{issuers_at, record_of};
use brands::host_text_lib::text::Text;
use brands::issuer_record::Issuer;
use ertp_calls::call_outcomes_lib::effects::{Effect, InstancesEffect, Starting};
use ertp_calls::call_outcomes_lib::outcomes::CallOutcome;
use ertp_calls::host_world_lib::World;
use ertp_calls::records::record_in;
use ertp_calls::world_reads_lib::given::installation_number;
use ertp_calls::world_reads_lib::words::next_of;
use host_data::data::{Data, ObjKind};
use host_data::values::object_data;
use refusals::codes::NumberCode;
use refusals::stops::Stop;
use rules::call_arguments_lib::places::{argument, copy_of};
use std::alloc::{AllocError, Global};

/// The most issuers of an instance.
const MOST_ISSUERS: usize = 64;

/// Whether terms get the name from the issuer record.
fn is_kept_name(name: &Text) -> bool
    ensures { result ≡ is_kept_name name.now }
{
    name.as_str() == "issuers" || name.as_str() == "brands"
}

/// Whether none of the fields has a name that terms get from the issuer record.
fn are_bare(fields: &[(Text, Data)]) -> bool
    ensures { result ≡ list_all (λ f. not (is_kept_name f.0)) (named_trees fields.now) }
{
    for (name, _) in fields {
        if is_kept_name(name) {
            return false;
        }
    }
    true
}

/// Whether data is terms: a record without those names.
#[tactic(auto, unfolding(rules::specs::Zoe::has_terms))]
fn has_terms(given: Option<&Data>) -> bool
    ensures { result ≡ has_terms (seen given.entry) }
{
    match record_in(given) {
        Some(fields) => are_bare(fields),
        None => false,
    }
}

/// Terms as they are kept.
fn terms_in(alloc: Global, given: Option<&Data>) -> Result<Data, AllocError>
    ensures { IfOk result (λ made. tree made ≡ terms_in (seen given.entry)) }
{
    let Some(given) = given else {
        return Ok(Data::Record(Vec::new(alloc)));
    };
    if given.is_null() {
        return Ok(Data::Record(Vec::new(alloc)));
    }
    given.copy(alloc)
}

/// What is started.
fn make_starting(
    alloc: Global,
    installation: u32,
    issuers: &[Issuer],
    args: &[Data],
) -> Result<Starting, AllocError>
    requires { AreIssuers issuers.now }
    ensures { IfOk result (λ s. starting_view s
        ≡ starting installation issuers.now (arg 3 (trees args.now)) (arg 4 (trees args.now))) }
{
    let terms = terms_in(alloc, argument(args, 3))?;
    let private_arguments = copy_of(alloc, argument(args, 4))?;
    let issuers = record_of(alloc, issuers)?;
    Ok(Starting {
        installation,
        issuers,
        terms,
        private_arguments,
    })
}

/// The outcome of a start that answers the promise of a number.
fn start_plan(
    alloc: Global,
    promise: u32,
    installation: u32,
    issuers: &[Issuer],
    args: &[Data],
) -> Result<CallOutcome, AllocError>
    requires { AreIssuers issuers.now }
    ensures plan { IfOk result (λ plan. outcome_view plan ≡ (
      object_tree kinds.Promise promise,
      worlds.start
          (starting installation issuers.now (arg 3 (trees args.now)) (arg 4 (trees args.now))) ∷ [],
    )) }
    ensures shaped { IfOk result (λ plan. IsEachShaped plan.effects) }
{
    let starts = make_starting(alloc, installation, issuers, args)?;
    let answer = object_data(ObjKind::Promise, promise);
    let effect = Effect::Instances(InstancesEffect::Start(starts));
    CallOutcome::with_effect(alloc, answer, effect)
}

/// That the issuers aren't too many: else `Limit` (own).
#[tactic(auto, unfolding(refusals::specs::Outcomes::need))]
fn check_few(issuers: &[Issuer]) -> Result<(), Stop>
    ensures gives { Gives (λ _. tt) result
        (need (nat_le (length issuers.now) most_issuers) (limit most_issuers)) }
    ensures few { OnOk result (length issuers.now ≤ most_issuers) }
{
    if issuers.len() <= MOST_ISSUERS {
        Ok(())
    } else {
        Err(Stop::numbered(NumberCode::Limit, MOST_ISSUERS as u32))
    }
}

/// That terms are such: else `BadArgs`.
#[tactic(auto, unfolding(refusals::specs::Outcomes::need))]
fn check_terms(given: Option<&Data>) -> Result<(), Stop>
    ensures { Gives (λ _. tt) result (need (has_terms (seen given.entry)) (bad_args 3)) }
{
    if has_terms(given) {
        Ok(())
    } else {
        Err(Stop::numbered(NumberCode::BadArgs, 3))
    }
}

/// The outcome of a start of which all was tested but that there is room for it: else `Limit` (own).
#[tactic(auto, unfolding(crate::specs::StartSteps::numbered, refusals::specs::Outcomes::bind))]
fn number_start(
    alloc: Global,
    world: &World,
    installation: u32,
    issuers: &[Issuer],
    args: &[Data],
) -> Result<CallOutcome, Stop>
    requires { AreIssuers issuers.now }
    ensures { GivesOutcome (numbered (world_of world.now) installation issuers.now (trees args.now)) result }
{
    let _instance = next_of(world.registers.instances.made(), u32::MAX)?;
    let promise = next_of(world.registers.promises.made(), u32::MAX)?;
    Ok(start_plan(alloc, promise, installation, issuers, args)?)
}

/// The outcome of a start of which the installation and the issuers were read: else `BadArgs`, `Limit`.
#[tactic(auto, using(crate::proofs::GivenIssuers::few_apart), unfolding(crate::specs::StartSteps::started, refusals::specs::Outcomes::bind))]
fn test_and_start(
    alloc: Global,
    world: &World,
    installation: u32,
    issuers: &[Issuer],
    args: &[Data],
) -> Result<CallOutcome, Stop>
    requires { AreApart issuers.now }
    ensures { GivesOutcome (started (world_of world.now) installation issuers.now (trees args.now)) result }
{
    check_terms(argument(args, 3))?;
    check_few(issuers)?;
    number_start(alloc, world, installation, issuers, args)
}

/// `zoe.startInstance(installation, issuers, terms, privateArgs)` (Zoe).
#[tactic(auto, using(crate::proofs::GivenIssuers::given_apart), unfolding(rules::specs::Zoe::start_instance, crate::specs::StartSteps::started, crate::specs::StartSteps::numbered, refusals::specs::Outcomes::bind))]
pub fn start_instance(alloc: Global, world: &World, args: &[Data]) -> Result<CallOutcome, Stop>
    requires { AreHanded (world_of world.now) (trees args.now) }
    ensures { GivesOutcome (start_instance (world_of world.now) (trees args.now)) result }
{
    let installation = installation_number(world, 1, args)?;
    let issuers = issuers_at(alloc, world, 2, args)?;
    let plan = test_and_start(alloc, world, installation, issuers.as_slice(), args);
    drop(issuers);
    plan
}
