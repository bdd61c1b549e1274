//! A payment that goes in parts to new ones (ERTP).

ghost use Rattle.ertp_calls.specs.Views.{live_view};
ghost use Rattle.ertp_calls.specs.call_outcomes.Lists.{IsEachShaped};
ghost use Rattle.ertp_calls.specs.call_outcomes.CallOutcomes.{GivesOutcome, outcome_view};
ghost use Rattle.ertp_calls.specs.host_world.Worlds.{world_of};
ghost use Rattle.ertp_calls.specs.world_reads.Handed.{AreHanded};
ghost use Rattle.issuer_calls.specs.Steps.{apart, in_listed, in_parts};
ghost use Rattle.refusals.specs.Outcomes.{Gives};
ghost use Rattle.refusals.specs.amount_math.Content.{Contains};
ghost use Rattle.refusals.specs.host_data.View.{tree, trees};
ghost use Rattle.rules.specs.Issuer.{rest_of, split, split_many};
ghost use Rattle.rules.specs.Lists.{moves_apart, parted, payments_from};
ghost use Rattle.rules.specs.value_tests.Sums.{whole_sum};
ghost use Rattle.rules.specs.world_state.Good.{IsGoodWorld};
ghost use Rattle.rules.specs.world_state.Worlds.{moves};
ghost use Rattle.std.specs.Prelude.{◌≡◌, ◌<◌, ◌+◌, ◌^◌, ◌∷◌, [], All, IfOk, length, map};

use crate::payment_lists::next_payments;
use ertp_calls::call_outcomes_lib::effects::{Effect, RightsEffect};
use ertp_calls::call_outcomes_lib::moves::Moves;
use ertp_calls::call_outcomes_lib::outcomes::CallOutcome;
use ertp_calls::host_world_lib::World;
use ertp_calls::live_payments::{LivePayment, live_at};
use refusals::amount_math_lib::{Kind, Value};
use refusals::host_data_lib::data::{Data, ObjKind};
use refusals::host_data_lib::values::object_data;
use refusals::stops::Stop;
use rules::call_arguments_lib::amounts::{amount, check_same};
use rules::call_arguments_lib::lists::amounts_of;
use rules::call_arguments_lib::places::{argument, filled_list_at};
use rules::rights_model_lib::{Holder, Movement};
use rules::value_tests_lib::pairs::check_has;
use rules::value_tests_lib::value_sums::whole_sum;
use std::alloc::{AllocError, Global};

/// So many payments, of which the first has the number.
fn payments_data(alloc: Global, first: u32, parts: &[Value]) -> Result<Vec<Data>, AllocError>
    requires { first + length parts.now < 2 ^ 32 }
    ensures { IfOk result (λ made. trees made.items ≡ payments_from first parts.now) }
{
    let mut payments = Vec::with_capacity(alloc, parts.len())?;
    let mut number = first;
    for _part in parts {
        payments.push_reserved(object_data(ObjKind::Payment, number));
        number += 1;
    }
    Ok(payments)
}

/// Each part of a payment goes to a payment of its own, of which the first has the number.
#[tactic(auto, using(crate::proofs::PartLists::apart_more))]
fn moves_apart(
    alloc: Global,
    brand: u16,
    from: u32,
    first: u32,
    parts: Vec<Value>,
) -> Result<Vec<Movement>, AllocError>
    requires { first + length parts.items < 2 ^ 32 }
    ensures { IfOk result (λ ms. ms.items ≡ moves_apart brand from first parts.items) }
{
    let mut movements = Vec::new(alloc);
    let mut number = first;
    for value in parts {
        movements.push(Movement {
            brand,
            from: Holder::Payment(from),
            to: Holder::Payment(number),
            value,
        })?;
        number += 1;
    }
    Ok(movements)
}

/// The outcome of a payment that goes in parts, one at least, to payments of their own, of which the first has the
/// number.
#[tactic(auto, using(crate::proofs::PartLists::split_shaped))]
fn split_plan(
    alloc: Global,
    brand: u16,
    from: u32,
    first: u32,
    parts: Vec<Value>,
    answer: Data,
) -> Result<CallOutcome, AllocError>
    requires some { 0 < length parts.items }
    requires few { first + length parts.items < 2 ^ 32 }
    ensures plan { IfOk result (λ plan. outcome_view plan
        ≡ (tree answer, moves (moves_apart brand from first parts.items) ∷ [])) }
    ensures shaped { IfOk result (λ plan. IsEachShaped plan.effects) }
{
    let movements = moves_apart(alloc, brand, from, first, parts)?;
    let splits = RightsEffect::Moves(Moves::Split(movements));
    CallOutcome::with_effect(alloc, answer, Effect::Rights(splits))
}

/// The same, where the payments are answered, as an array.
fn parts_plan(
    alloc: Global,
    brand: u16,
    from: u32,
    first: u32,
    parts: Vec<Value>,
) -> Result<CallOutcome, AllocError>
    requires some { 0 < length parts.items }
    requires few { first + length parts.items < 2 ^ 32 }
    ensures plan { IfOk result (λ plan. outcome_view plan ≡ parted brand from first parts.items) }
    ensures shaped { IfOk result (λ plan. IsEachShaped plan.effects) }
{
    let payments = payments_data(alloc, first, parts.as_slice())?;
    split_plan(alloc, brand, from, first, parts, Data::Array(payments))
}

/// The parts as they are lent.
fn part_references<'a>(alloc: Global, parts: &'a [Value]) -> Result<Vec<&'a Value>, AllocError>
    ensures { IfOk result (λ values. map (λ v. v.now) values.items ≡ parts.now) }
{
    let mut values = Vec::new(alloc);
    for part in parts {
        values.push(part)?;
    }
    Ok(values)
}

/// What parts of one kind are together: else the refusals of a whole sum (ERTP).
fn whole_of(alloc: Global, kind: Kind, parts: &[Value]) -> Result<Value, Stop>
    requires { All (λ v. v.kind ≡ kind) parts.now }
    ensures { Gives (λ total. total) result (whole_sum kind parts.now) }
{
    let values = part_references(alloc, parts)?;
    whole_sum(alloc, kind, values.as_slice())
}

/// A payment goes in parts, one at least, to the next ones, where they are left (ERTP).
#[tactic(auto, unfolding(crate::specs::Steps::apart, refusals::specs::Outcomes::bind))]
fn split_to_next(
    alloc: Global,
    world: &World,
    brand: u16,
    from: u32,
    parts: Vec<Value>,
) -> Result<CallOutcome, Stop>
    requires { 0 < length parts.items }
    ensures { GivesOutcome (apart (world_of world.now) brand from parts.items) result }
{
    let first = next_payments(world, parts.len())?;
    Ok(parts_plan(alloc, brand, from, first, parts)?)
}

/// A part of a value, which it has, and the rest.
fn halves(alloc: Global, mut whole: Value, part: Value) -> Result<Vec<Value>, AllocError>
    requires kind { whole.kind ≡ part.kind }
    requires has { Contains whole.content part.content }
    ensures { IfOk result (λ halves. halves.items ≡ part ∷ rest_of whole part ∷ []) }
{
    let mut halves = Vec::with_capacity(alloc, 2)?;
    whole.lessen(&part);
    halves.push_reserved(part);
    halves.push_reserved(whole);
    Ok(halves)
}

/// A part of a payment, which it has, goes to the next one, and the rest to another (ERTP).
#[tactic(auto, unfolding(crate::specs::Steps::apart))]
fn halve_to_next(
    alloc: Global,
    world: &World,
    brand: u16,
    given: LivePayment,
    part: Value,
) -> Result<CallOutcome, Stop>
    requires kind { given.value.kind ≡ part.kind }
    requires has { Contains given.value.content part.content }
    ensures { GivesOutcome (apart (world_of world.now) brand given.number
        (part ∷ rest_of given.value part ∷ [])) result }
{
    let LivePayment { number, value } = given;
    let parts = halves(alloc, value, part)?;
    split_to_next(alloc, world, brand, number, parts)
}

/// `issuer.split(payment, amount)`: a payment of the amount, and one of the rest (ERTP).
#[tactic(auto, unfolding(rules::specs::Issuer::split, crate::specs::Steps::apart, refusals::specs::Outcomes::bind))]
pub fn split(alloc: Global, world: &World, brand: u16, args: &[Data]) -> Result<CallOutcome, Stop>
    requires good { IsGoodWorld (world_of world.now) }
    requires handed { AreHanded (world_of world.now) (trees args.now) }
    ensures { GivesOutcome (split (world_of world.now) brand (trees args.now)) result }
{
    let given = live_at(world, brand, 1, args)?;
    let part = amount(alloc, brand, given.value.kind(), 2, argument(args, 2))?;
    check_has(&given.value, &part)?;
    halve_to_next(alloc, world, brand, given, part)
}

/// A payment goes to the next ones in parts which are together all of it (ERTP).
#[tactic(auto, using(crate::proofs::PartLists::sum_kind), unfolding(crate::specs::Steps::in_parts, refusals::specs::Outcomes::bind))]
fn split_in_parts(
    alloc: Global,
    world: &World,
    brand: u16,
    given: LivePayment,
    parts: Vec<Value>,
) -> Result<CallOutcome, Stop>
    requires some { 0 < length parts.items }
    requires kinds { All (λ v. v.kind ≡ given.value.kind) parts.items }
    ensures { GivesOutcome (in_parts (world_of world.now) brand (live_view given) parts.items) result }
{
    let total = whole_of(alloc, given.value.kind(), parts.as_slice())?;
    check_same(&given.value, &total)?;
    split_to_next(alloc, world, brand, given.number, parts)
}

/// A payment goes to the next ones in the parts that are listed, one at least (ERTP).
#[tactic(auto, using(crate::proofs::PartLists::parts_kinds, crate::proofs::PartLists::parts_many), unfolding(crate::specs::Steps::in_listed, refusals::specs::Outcomes::bind))]
fn split_by_list(
    alloc: Global,
    world: &World,
    brand: u16,
    given: LivePayment,
    items: &[Data],
) -> Result<CallOutcome, Stop>
    requires { 0 < length items.now }
    ensures { GivesOutcome
        (in_listed (world_of world.now) brand (live_view given) (trees items.now)) result }
{
    let parts = amounts_of(alloc, brand, given.value.kind(), 2, items)?;
    split_in_parts(alloc, world, brand, given, parts)
}

/// `issuer.splitMany(payment, amounts)`: a payment of each, which together are what the payment has (ERTP).
#[tactic(auto, using(crate::proofs::PartLists::some_listed), unfolding(rules::specs::Issuer::split_many, crate::specs::Steps::in_listed, crate::specs::Steps::in_parts, crate::specs::Steps::apart, refusals::specs::Outcomes::bind))]
pub fn split_many(
    alloc: Global,
    world: &World,
    brand: u16,
    args: &[Data],
) -> Result<CallOutcome, Stop>
    requires good { IsGoodWorld (world_of world.now) }
    requires handed { AreHanded (world_of world.now) (trees args.now) }
    ensures { GivesOutcome (split_many (world_of world.now) brand (trees args.now)) result }
{
    let given = live_at(world, brand, 1, args)?;
    let items = filled_list_at(2, args)?;
    split_by_list(alloc, world, brand, given, items)
}
