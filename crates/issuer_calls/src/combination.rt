//! Payments that go whole to a new one (ERTP).

ghost use Rattle.refusals.specs.host_data.declared.data.ObjKind.TheVariants as kinds;
ghost use Rattle.rules.specs.call_arguments.Numbers.{AreApart, IsNoneOf};
ghost use Rattle.ertp_calls.specs.Views.{live_view};
ghost use Rattle.ertp_calls.specs.call_outcomes.Lists.{IsEachShaped};
ghost use Rattle.ertp_calls.specs.call_outcomes.CallOutcomes.{GivesOutcome, outcome_view};
ghost use Rattle.ertp_calls.specs.host_world.Worlds.{world_of};
ghost use Rattle.ertp_calls.specs.world_reads.Handed.{AreHanded};
ghost use Rattle.issuer_calls.specs.Steps.{joined, joined_as};
ghost use Rattle.refusals.specs.Outcomes.{Gives};
ghost use Rattle.refusals.specs.host_data.Amounts.{seen};
ghost use Rattle.refusals.specs.host_data.Values.{object_tree};
ghost use Rattle.refusals.specs.host_data.View.{trees};
ghost use Rattle.rules.specs.Issuer.{combine};
ghost use Rattle.rules.specs.Lists.{combined, moves_to, values_of};
ghost use Rattle.rules.specs.value_tests.Sums.{whole_sum};
ghost use Rattle.rules.specs.world_state.Good.{IsGoodWorld};
ghost use Rattle.rules.specs.world_state.Rights.{kind_at};
ghost use Rattle.rules.specs.world_state.Worlds.{moves};
ghost use Rattle.std.specs.Prelude.{◌≡◌, ◌<◌, ◌∷◌, [], All, IfOk, length, map};

use crate::payment_lists::live_payments_at;
use ertp_calls::call_outcomes_lib::effects::{Effect, RightsEffect};
use ertp_calls::call_outcomes_lib::moves::Moves;
use ertp_calls::call_outcomes_lib::outcomes::CallOutcome;
use ertp_calls::host_world_lib::World;
use ertp_calls::live_payments::LivePayment;
use ertp_calls::world_reads_lib::words::next_payment;
use refusals::amount_math_lib::{Kind, Value};
use refusals::host_data_lib::data::{Data, ObjKind};
use refusals::host_data_lib::values::object_data;
use refusals::stops::Stop;
use rules::call_arguments_lib::amounts::check_held;
use rules::call_arguments_lib::places::argument;
use rules::rights_model_lib::{Holder, Movement};
use rules::value_tests_lib::value_sums::whole_sum;
use std::alloc::{AllocError, Global};

/// What the payments have, in their order.
fn values_of<'a>(alloc: Global, given: &'a [LivePayment]) -> Result<Vec<&'a Value>, AllocError>
    ensures { IfOk result (λ values. map (λ v. v.now) values.items
        ≡ values_of (map live_view given.now)) }
{
    let mut values = Vec::new(alloc);
    for payment in given {
        values.push(&payment.value)?;
    }
    Ok(values)
}

/// What payments of one kind have together: else the refusals of a whole sum (ERTP).
fn total_of(alloc: Global, kind: Kind, given: &[LivePayment]) -> Result<Value, Stop>
    requires { All (λ p. p.value.kind ≡ kind) given.now }
    ensures { Gives (λ total. total) result (whole_sum kind (values_of (map live_view given.now))) }
{
    let values = values_of(alloc, given)?;
    whole_sum(alloc, kind, values.as_slice())
}

/// Each payment goes whole to one, in order.
#[tactic(auto, using(crate::proofs::LiveLists::moves_more))]
fn moves_to(
    alloc: Global,
    brand: u16,
    to: u32,
    given: Vec<LivePayment>,
) -> Result<Vec<Movement>, AllocError>
    ensures { IfOk result (λ ms. ms.items ≡ moves_to brand to (map live_view given.items)) }
{
    let mut movements = Vec::new(alloc);
    for payment in given {
        movements.push(Movement {
            brand,
            from: Holder::Payment(payment.number),
            to: Holder::Payment(to),
            value: payment.value,
        })?;
    }
    Ok(movements)
}

/// The outcome of payments, one at least, that go whole to the one that is answered.
#[tactic(auto, using(crate::proofs::LiveLists::combination_shaped))]
fn movements_plan(
    alloc: Global,
    brand: u16,
    to: u32,
    given: Vec<LivePayment>,
) -> Result<CallOutcome, AllocError>
    requires some { 0 < length given.items }
    requires apart { AreApart (map (λ p. p.number) given.items) }
    requires fresh { IsNoneOf (map (λ p. p.number) given.items) to }
    ensures plan { IfOk result (λ plan. outcome_view plan
        ≡ (
          object_tree kinds.Payment to,
          moves (moves_to brand to (map live_view given.items)) ∷ [],
        )) }
    ensures shaped { IfOk result (λ plan. IsEachShaped plan.effects) }
{
    let movements = moves_to(alloc, brand, to, given)?;
    let answer = object_data(ObjKind::Payment, to);
    let joins = Effect::Rights(RightsEffect::Moves(Moves::Combination(movements)));
    CallOutcome::with_effect(alloc, answer, joins)
}

/// The outcome of payments that go whole to the one that is answered: where there are none, it is of nothing.
#[tactic(auto, using(crate::proofs::LiveLists::combined_some, crate::proofs::LiveLists::combined_none))]
fn combination_plan(
    alloc: Global,
    brand: u16,
    to: u32,
    given: Vec<LivePayment>,
) -> Result<CallOutcome, AllocError>
    requires apart { AreApart (map (λ p. p.number) given.items) }
    requires fresh { IsNoneOf (map (λ p. p.number) given.items) to }
    ensures plan { IfOk result (λ plan. outcome_view plan
        ≡ (object_tree kinds.Payment to, combined brand to (map live_view given.items))) }
    ensures shaped { IfOk result (λ plan. IsEachShaped plan.effects) }
{
    if given.is_empty() {
        drop(given);
        let answer = object_data(ObjKind::Payment, to);
        let makes = Effect::Rights(RightsEffect::EmptyPayment(brand));
        return CallOutcome::with_effect(alloc, answer, makes);
    }
    movements_plan(alloc, brand, to, given)
}

/// Payments go whole to the next one, where one is left (ERTP).
#[tactic(auto, using(crate::proofs::LiveLists::none_next), unfolding(crate::specs::Steps::joined, refusals::specs::Outcomes::bind))]
fn combine_to_next(
    alloc: Global,
    world: &World,
    brand: u16,
    given: Vec<LivePayment>,
) -> Result<CallOutcome, Stop>
    requires apart { AreApart (map (λ p. p.number) given.items) }
    requires made { All (λ p. p.number < length (world_of world.now).rights.payments) given.items }
    ensures { GivesOutcome (joined (world_of world.now) brand (map live_view given.items)) result }
{
    let payment = next_payment(world)?;
    Ok(combination_plan(alloc, brand, payment, given)?)
}

/// Payments of one brand go whole to the next one: what is named is their whole sum (ERTP).
#[tactic(auto, using(ertp_calls::proofs::HeldKinds::brand_kind), unfolding(crate::specs::Steps::joined_as, refusals::specs::Outcomes::bind))]
fn combine_as(
    alloc: Global,
    world: &World,
    brand: u16,
    given: Vec<LivePayment>,
    named: Option<&Data>,
) -> Result<CallOutcome, Stop>
    requires good { IsGoodWorld (world_of world.now) }
    requires brand { brand < length (world_of world.now).brands }
    requires apart { AreApart (map (λ p. p.number) given.items) }
    requires made { All (λ p. p.number < length (world_of world.now).rights.payments) given.items }
    requires kinds { All (λ p. p.value.kind
        ≡ kind_at (world_of world.now).rights.out brand) given.items }
    ensures { GivesOutcome (joined_as (world_of world.now) brand
        (map live_view given.items) (seen named.entry)) result }
{
    let total = total_of(alloc, world.registers.brands.kind(brand), given.as_slice())?;
    check_held(alloc, brand, &total, 2, named)?;
    combine_to_next(alloc, world, brand, given)
}

/// `issuer.combine(payments, amount)`: the amount is of the whole sum (ERTP).
#[tactic(auto, unfolding(rules::specs::Issuer::combine, crate::specs::Steps::joined_as, crate::specs::Steps::joined, refusals::specs::Outcomes::bind))]
pub fn combine(alloc: Global, world: &World, brand: u16, args: &[Data]) -> Result<CallOutcome, Stop>
    requires good { IsGoodWorld (world_of world.now) }
    requires made { brand < length (world_of world.now).brands }
    requires handed { AreHanded (world_of world.now) (trees args.now) }
    ensures { GivesOutcome (combine (world_of world.now) brand (trees args.now)) result }
{
    let given = live_payments_at(alloc, world, brand, 1, args)?;
    combine_as(alloc, world, brand, given, argument(args, 2))
}
