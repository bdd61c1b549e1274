//! Where an evaluation stands, and what is taken off its meter.
ghost use Rattle.std.specs.Prelude.{◌≡◌, ◌≤◌, ◌+◌, ◌-◌, List, ℕ, length, IsOk};
ghost use Rattle.jessie_semantics.specs.host_data.Tree.{Tree, size, items_size};
ghost use Rattle.jessie_semantics.specs.host_data.View.{tree, trees, items_of};
ghost use Rattle.jessie_index.specs.jessie_values.Literals.{literal_tree};
ghost use Rattle.jessie_semantics.specs.Keeping.{reply_tree};
ghost use Rattle.jessie_semantics.specs.Actions.{charge};
ghost use Rattle.jessie_semantics.specs.Rules.{heard, literal_rule, given_back};
ghost use Rattle.jessie_semantics.specs.Runs.{Computes};
ghost use Rattle.jessie_machine.specs.Host.{reply_of};
ghost use Rattle.jessie_machine.specs.Stops.{come};
ghost use Rattle.jessie_machine.specs.Machine.{state, end_of};

use crate::host::Reply;
use crate::stop::{Stop, throw_data};
use jessie_index::jessie_grammar_lib::syntax::Literal;
use jessie_index::jessie_values_lib::literals::literal_data;
use jessie_index::locals::Locals;
use jessie_semantics::host_data_lib::data::{Data, pay, pay_bytes, pay_items};
use jessie_semantics::host_text_lib::text::Text;
use std::alloc::Global;

/// The function's own names from the outermost, the state variables that were given a value, by their
/// places, and what is left of the meter.
#[derive(Drop)]
pub struct Machine {
    pub locals: Locals<Data>,
    pub changed: Vec<Option<Data>>,
    pub meter: u64,
}

/// How a statement comes out, where it doesn't throw: the next one follows, or it leaves the function.
#[derive(Drop)]
pub enum End {
    Next,
    Leaves(Data),
}

/// What a call of the host costs beside the sizes of what it is shown.
const CALL: u64 = 100;

/// What a statement costs beside its parts.
const STATEMENT: u64 = 1;

/// Takes a charge, where the meter has it.
#[tactic(auto, unfolding(jessie_semantics::specs::Actions::charge))]
pub fn take(machine: &mut Machine, amount: u64) -> Result<(), Stop>
    ensures does { (names : List (List ℕ)) (values : List Tree) → Computes (charge amount) (state names values machine.old) (come (λ u. u) result) (state names values machine.new) }
    ensures kept { machine.new.meter ≤ machine.old.meter }
{
    if machine.meter < amount {
        return Err(Stop::Spent);
    }
    machine.meter -= amount;
    Ok(())
}

/// Takes what a statement costs, before it is run, where the meter has it.
#[inline]
pub fn begin_statement(machine: &mut Machine) -> Result<(), Stop>
    ensures does { (names : List (List ℕ)) (values : List Tree)
        → Computes (charge 1) (state names values machine.old) (come (λ u. u) result)
        (state names values machine.new) }
    ensures kept { machine.new.meter ≤ machine.old.meter }
{
    take(machine, STATEMENT)
}

/// Takes the size of the data, where the meter has it.
#[tactic(auto, unfolding(jessie_semantics::specs::Actions::charge))]
pub fn take_size(machine: &mut Machine, data: &Data) -> Result<(), Stop>
    ensures does { (names : List (List ℕ)) (values : List Tree) → Computes (charge (size (tree «data».now))) (state names values machine.old) (come (λ u. u) result) (state names values machine.new) }
    ensures left { machine.new.meter ≤ machine.old.meter - size (tree «data».now) }
{
    let Some(left) = pay(machine.meter, data) else {
        machine.meter = 0;
        return Err(Stop::Spent);
    };
    machine.meter = left;
    Ok(())
}

/// Takes what a call of the host costs that is shown these, where the meter has it.
#[tactic(auto, unfolding(jessie_semantics::specs::Actions::charge))]
pub fn take_call(machine: &mut Machine, shown: &[Data]) -> Result<(), Stop>
    ensures does { (names : List (List ℕ)) (values : List Tree) → Computes (charge (100 + items_size (items_of (trees shown.now)))) (state names values machine.old) (come (λ u. u) result) (state names values machine.new) }
    ensures left { IsOk result → machine.new.meter + (100 + items_size (items_of (trees shown.now))) ≡ machine.old.meter }
    ensures kept { machine.new.meter ≤ machine.old.meter }
{
    if machine.meter < CALL {
        return Err(Stop::Spent);
    }
    let Some(left) = pay_items(machine.meter - CALL, shown) else {
        return Err(Stop::Spent);
    };
    machine.meter = left;
    Ok(())
}

/// Takes the size of the reply, which is a value or is thrown.
#[inline(never)]
pub fn settle(alloc: Global, machine: &mut Machine, reply: Reply) -> Result<Data, Stop>
    ensures does { (names : List (List ℕ)) (values : List Tree) → Computes (heard (reply_of reply)) (state names values machine.old) (come tree result) (state names values machine.new) }
    ensures left { machine.new.meter ≤ machine.old.meter - size (reply_tree (reply_of reply)) }
{
    match reply {
        Reply::Value(data) => {
            take_size(machine, &data)?;
            Ok(data)
        }
        Reply::Refused(data) => {
            take_size(machine, &data)?;
            Err(throw_data(alloc, data))
        }
    }
}

/// Takes the size of a text, where the meter has it.
#[tactic(auto, unfolding(jessie_semantics::specs::Actions::charge))]
fn take_text(machine: &mut Machine, text: &Text) -> Result<(), Stop>
    ensures does { (names : List (List ℕ)) (values : List Tree) → Computes (charge (1 + length «text».now)) (state names values machine.old) (come (λ u. u) result) (state names values machine.new) }
    ensures kept { machine.new.meter ≤ machine.old.meter }
{
    if machine.meter == 0 {
        return Err(Stop::Spent);
    }
    let Some(left) = pay_bytes(machine.meter - 1, text) else {
        return Err(Stop::Spent);
    };
    machine.meter = left;
    Ok(())
}

/// Takes the size of a literal, where the meter has it.
fn take_literal(machine: &mut Machine, literal: &Literal) -> Result<(), Stop>
    ensures does { (names : List (List ℕ)) (values : List Tree) → Computes (charge (size (literal_tree literal.now))) (state names values machine.old) (come (λ u. u) result) (state names values machine.new) }
    ensures kept { machine.new.meter ≤ machine.old.meter }
{
    match literal {
        Literal::Number(_) => take(machine, 1),
        Literal::Text(text) => take_text(machine, text),
        Literal::Bool(_) => take(machine, 1),
        Literal::Null => take(machine, 1),
    }
}

/// The value of a literal, which is paid before it is made.
#[inline(never)]
pub fn read_literal(alloc: Global, machine: &mut Machine, literal: &Literal) -> Result<Data, Stop>
    ensures does { (names : List (List ℕ)) (values : List Tree) → Computes (literal_rule (literal_tree literal.now)) (state names values machine.old) (come tree result) (state names values machine.new) }
    ensures kept { machine.new.meter ≤ machine.old.meter }
{
    take(machine, 1)?;
    take_literal(machine, literal)?;
    let data = literal_data(alloc, literal)?;
    Ok(data)
}

impl End {
    /// What a function gives that ends so: null, where it isn't left.
    pub fn into_data(self) -> Data
        ensures { tree result ≡ given_back (end_of self) }
    {
        match self {
            End::Next => Data::Null,
            End::Leaves(data) => data,
        }
    }
}
