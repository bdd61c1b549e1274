//! What operators, accesses and the language's own functions make of values, as steps of an
//! evaluation.
ghost use Rattle.std.specs.Prelude.{◌≤◌, ℕ, List, Result};
ghost use Rattle.jessie_semantics.specs.host_data.Tree.{Tree};
ghost use Rattle.jessie_semantics.specs.host_data.View.{tree, trees, named_trees};
ghost use Rattle.jessie_index.specs.jessie_values.Operators.{truth};
ghost use Rattle.jessie_index.specs.jessie_values.Dispatch.{operate, skips, unary};
ghost use Rattle.jessie_index.specs.jessie_values.Accesses.{field_at, index_at, list_items};
ghost use Rattle.jessie_index.specs.jessie_values.Records.{made_array, made_record};
ghost use Rattle.jessie_semantics.specs.AmountMath.{amount_call};
ghost use Rattle.jessie_semantics.specs.refusals.Outcomes.{Fails};
ghost use Rattle.jessie_semantics.specs.refusals.declared.codes.Refusal.{Refusal};
ghost use Rattle.jessie_semantics.specs.Actions.{State};
ghost use Rattle.jessie_semantics.specs.Rules.{worked, counted, field_rule};
ghost use Rattle.jessie_semantics.specs.Runs.{Computes, halted};
ghost use Rattle.jessie_machine.specs.Stops.{come, halt};
ghost use Rattle.jessie_machine.specs.Machine.{all_seen, state};

use crate::machine::{Machine, take};
use crate::stop::{Stop, bad, fault_stop, throw_data};
use jessie_index::jessie_grammar_lib::syntax::{Operator, Unary};
use jessie_index::jessie_values_lib::accesses::{field_at, index_at, list_items};
use jessie_index::jessie_values_lib::dispatch::{operate, skips, unary};
use jessie_index::jessie_values_lib::operators::truth;
use jessie_index::jessie_values_lib::records::{array_data, record_data};
use jessie_semantics::functions::call_amount_math;
use jessie_semantics::host_data_lib::data::Data;
use jessie_semantics::host_text_lib::text::Text;
use jessie_semantics::refusals_lib::stops::Stop as AmountStop;
use std::alloc::Global;

/// The truth value that it is.
#[inline(never)]
pub fn check(data: &Data) -> Result<bool, Stop>
    ensures { (s : State) → Computes (worked (truth (tree «data».now))) s (come (λ b. b) result) s }
{
    match truth(data) {
        Ok(holds) => Ok(holds),
        Err(reason) => Err(bad(reason)),
    }
}

/// Whether the left side alone decides.
#[inline(never)]
pub fn decide(operator: Operator, left: &Data) -> Result<bool, Stop>
    ensures { (s : State) → Computes (worked (skips operator (tree left.now))) s (come (λ b. b) result) s }
{
    match skips(operator, left) {
        Ok(skipped) => Ok(skipped),
        Err(reason) => Err(bad(reason)),
    }
}

/// What the operator makes of both sides.
#[inline(never)]
pub fn apply(alloc: Global, operator: Operator, left: Data, right: &Data) -> Result<Data, Stop>
    ensures { (s : State) → Computes (worked (operate operator (tree left) (tree right.now))) s (come tree result) s }
{
    match operate(alloc, operator, left, right) {
        Ok(data) => Ok(data),
        Err(fault) => Err(fault_stop(fault)),
    }
}

/// What the operator makes of the value behind it.
#[inline(never)]
pub fn apply_unary(operator: Unary, data: &Data) -> Result<Data, Stop>
    ensures { (s : State) → Computes (worked (unary operator (tree «data».now))) s (come tree result) s }
{
    match unary(operator, data) {
        Ok(data) => Ok(data),
        Err(reason) => Err(bad(reason)),
    }
}

/// The field of a record.
fn read_field(data: Data, name: &str) -> Result<Data, Stop>
    ensures { (s : State) → Computes (worked (field_at name.now (tree «data»))) s (come tree result) s }
{
    match field_at(data, name) {
        Ok(part) => Ok(part),
        Err(reason) => Err(bad(reason)),
    }
}

/// The step to a field of a record.
#[inline(never)]
pub fn run_field(machine: &mut Machine, target: Data, name: &Text) -> Result<Data, Stop>
    ensures does { (names : List (List ℕ)) (values : List Tree) → Computes (field_rule name.now (tree target)) (state names values machine.old) (come tree result) (state names values machine.new) }
    ensures kept { machine.new.meter ≤ machine.old.meter }
{
    take(machine, 1)?;
    read_field(target, name.as_str())
}

/// The part at an index.
#[inline(never)]
pub fn read_index(data: Data, index: &Data) -> Result<Data, Stop>
    ensures { (s : State) → Computes (worked (index_at (tree «data») (tree index.now))) s (come tree result) s }
{
    match index_at(data, index) {
        Ok(part) => Ok(part),
        Err(reason) => Err(bad(reason)),
    }
}

/// The parts of an array.
#[inline(never)]
pub fn parts(data: Data) -> Result<Vec<Data>, Stop>
    ensures { (s : State) → Computes (worked (list_items (tree «data»))) s (come all_seen result) s }
{
    match list_items(data) {
        Ok(items) => Ok(items),
        Err(reason) => Err(bad(reason)),
    }
}

/// The array of these parts.
#[inline(never)]
pub fn make_array(items: Vec<Data>) -> Result<Data, Stop>
    ensures { (s : State) → Computes (worked (made_array (trees items.items))) s (come tree result) s }
{
    match array_data(items) {
        Ok(data) => Ok(data),
        Err(reason) => Err(bad(reason)),
    }
}

/// The record of these fields, in the text's order.
#[inline(never)]
pub fn make_record(alloc: Global, fields: Vec<(Text, Data)>) -> Result<Data, Stop>
    ensures { (s : State) → Computes (worked (made_record (named_trees «fields».items))) s (come tree result) s }
{
    match record_data(alloc, fields) {
        Ok(data) => Ok(data),
        Err(fault) => Err(fault_stop(fault)),
    }
}

/// That of a call of AmountMath that gave no value.
fn amount_stop(alloc: Global, fault: &AmountStop) -> Stop
    ensures { (s : State) (given : Result Tree Refusal) → Fails fault.now given → Computes (counted given) s (halted (halt result)) s }
{
    match fault {
        AmountStop::NoMemory => Stop::NoMemory,
        AmountStop::Refused(refusal) => match refusal.data(alloc) {
            Ok(data) => throw_data(alloc, data),
            Err(_) => Stop::NoMemory,
        },
    }
}

fn let_go<T: Drop>(_value: T) {}

/// What a function of AmountMath answers.
#[inline(never)]
pub fn call_amounts(alloc: Global, name: &Text, args: &[Data]) -> Result<Data, Stop>
    ensures { (s : State) → Computes (counted (amount_call name.now (trees args.now))) s (come tree result) s }
{
    match call_amount_math(alloc, name.as_str(), args) {
        Ok(data) => Ok(data),
        Err(fault) => {
            let stop = amount_stop(alloc, &fault);
            let_go(fault);
            Err(stop)
        }
    }
}
