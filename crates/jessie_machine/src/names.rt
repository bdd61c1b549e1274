//! Names and what they stand for.
ghost use Rattle.std.specs.Prelude.{◌≡◌, ◌≤◌, ◌<◌, ◌++◌, ◌∷◌, [], ℕ, List, Some, length, map, option_map, slice_get, IfOk, IfSome, OnOk};
ghost use Rattle.jessie_semantics.specs.host_data.Tree.{Tree, number as number_tree};
ghost use Rattle.jessie_semantics.specs.host_data.View.{tree, trees, named_trees};
ghost use Rattle.jessie_index.specs.jessie_grammar.Syntax.{routine, routines, variable_names};
ghost use Rattle.jessie_index.specs.jessie_values.Reasons.{bad_step};
ghost use Rattle.jessie_index.specs.jessie_values.declared.reasons.Reason.TheVariants.{WrongKind};
ghost use Rattle.jessie_semantics.specs.Actions.{Bindings, put as put_name, paid, rebind};
ghost use Rattle.jessie_semantics.specs.Rules.{program, function_named, name_rule, pairs};
ghost use Rattle.jessie_semantics.specs.Runs.{Computes};
ghost use Rattle.jessie_machine.specs.Stops.{come};
ghost use Rattle.jessie_machine.specs.Machine.{state, place, current, changes, changed_at, value_at, local_at, set_value};

use crate::machine::{Machine, take};
use crate::stop::{Stop, bad};
use jessie_index::jessie_grammar_lib::syntax::{Function, Variable};
use jessie_index::jessie_module_index::IndexedModule;
use jessie_index::jessie_values_lib::reasons::Reason;
use jessie_index::locals::Locals;
use jessie_index::names::is_name;
use jessie_semantics::host_data_lib::data::{Data, pay};
use jessie_semantics::host_text_lib::text::Text;
use std::alloc::{AllocError, Global};

/// The place of the last state variable of the name.
fn variable_place(variables: &[Variable], name: &str) -> Option<usize>
    ensures { result ≡ place name.now (map (λ v. v.name) variables.now) }
{
    let mut left = variables;
    'last: while let [others @ .., variable] = left {
        if is_name(variable.name.as_str(), name) {
            return Some(others.len());
        }
        left = others;
    }
    None
}

/// A number, which is paid first.
#[tactic(auto, unfolding(jessie_semantics::specs::Actions::paid))]
fn pay_number(meter: &mut u64, number: &i128) -> Result<Data, Stop>
    ensures does { (t : Tree) (locals globals : Bindings) → Computes (paid t (Some (number_tree number.now))) (record { locals = locals; globals = globals; meter = meter.old }) (come tree result) (record { locals = locals; globals = globals; meter = meter.new }) }
    ensures kept { meter.new ≤ meter.old }
{
    if *meter == 0 {
        return Err(Stop::Spent);
    }
    *meter -= 1;
    Ok(Data::Number(*number))
}

/// A copy of the data, which is paid first. A number, as it mostly is, is paid at once.
#[tactic(auto, unfolding(jessie_semantics::specs::Actions::paid))]
fn pay_copy(alloc: Global, meter: &mut u64, data: &Data) -> Result<Data, Stop>
    ensures does { (t : Tree) (locals globals : Bindings) → Computes (paid t (Some (tree «data».now))) (record { locals = locals; globals = globals; meter = meter.old }) (come tree result) (record { locals = locals; globals = globals; meter = meter.new }) }
    ensures kept { meter.new ≤ meter.old }
{
    if let Data::Number(number) = data {
        return pay_number(meter, number);
    }
    match pay(*meter, data) {
        None => Err(Stop::Spent),
        Some(left) => {
            *meter = left;
            match data.copy(alloc) {
                Ok(data) => Ok(data),
                Err(_) => Err(Stop::NoMemory),
            }
        }
    }
}

/// The function as a value, where there is one, which is paid first.
#[tactic(auto, unfolding(jessie_semantics::specs::Actions::paid))]
fn pay_function(alloc: Global, meter: &mut u64, function: Option<&Function>) -> Result<Data, Stop>
    ensures does { (locals globals : Bindings) → Computes (paid (bad_step WrongKind) (function_named (option_map (λ f. routine f.now) function.entry))) (record { locals = locals; globals = globals; meter = meter.old }) (come tree result) (record { locals = locals; globals = globals; meter = meter.new }) }
    ensures kept { meter.new ≤ meter.old }
{
    let Some(function) = function else {
        return Err(bad(Reason::WrongKind));
    };
    if *meter == 0 {
        return Err(Stop::Spent);
    }
    *meter -= 1;
    match function.name.copy(alloc) {
        Ok(name) => Ok(Data::Function(name)),
        Err(_) => Err(Stop::NoMemory),
    }
}

/// The value that the state variable at a place was given.
fn given_value(changed: &[Option<Data>], i: usize) -> Option<&Data>
    ensures { option_map (λ d. tree d.now) result ≡ changed_at (changes changed.now) i }
{
    if i < changed.len() {
        changed[i].as_ref()
    } else {
        None
    }
}

/// The value that the state variable at a place had.
#[tactic(auto, using(crate::proofs::Places::place_found))]
fn old_value(values: &[Data], i: usize) -> Option<&Data>
    ensures { option_map (λ d. tree d.now) result ≡ slice_get (trees values.now) i }
{
    values.get(i)
}

/// The value of the state variable at a place: the one that it was given, if any, else its old one, and
/// null where there is none. It is paid first.
fn pay_variable(
    alloc: Global,
    meter: &mut u64,
    values: &[Data],
    changed: &[Option<Data>],
    i: usize,
) -> Result<Data, Stop>
    ensures does { (t : Tree) (locals globals : Bindings) → Computes (paid t (Some (value_at (trees values.now) (changes changed.now) i))) (record { locals = locals; globals = globals; meter = meter.old }) (come tree result) (record { locals = locals; globals = globals; meter = meter.new }) }
    ensures kept { meter.new ≤ meter.old }
{
    if let Some(data) = given_value(changed, i) {
        return pay_copy(alloc, meter, data);
    }
    match old_value(values, i) {
        Some(data) => pay_copy(alloc, meter, data),
        None => pay_copy(alloc, meter, &Data::Null),
    }
}

/// The value of the binding at a place, which is paid first.
fn pay_local(
    alloc: Global,
    meter: &mut u64,
    locals: &[(Text, Data)],
    i: usize,
) -> Result<Data, Stop>
    requires { i < length locals.now }
    ensures does { (t : Tree) (outer globals : Bindings) → Computes (paid t (Some (local_at (named_trees locals.now) i))) (record { locals = outer; globals = globals; meter = meter.old }) (come tree result) (record { locals = outer; globals = globals; meter = meter.new }) }
    ensures kept { meter.new ≤ meter.old }
{
    let binding = &locals[i];
    pay_copy(alloc, meter, &binding.1)
}

/// What the name stands for: the innermost of the function's own, else a state variable's value, else
/// the function of the name. It is paid before it is copied.
#[inline(never)]
pub fn read_name(
    alloc: Global,
    module: &IndexedModule,
    values: &[Data],
    machine: &mut Machine,
    name: &Text,
) -> Result<Data, Stop>
    ensures does { (room : ℕ) → Computes (name_rule (program (routines «module».now) room) name.now) (state (variable_names «module».now) (trees values.now) machine.old) (come tree result) (state (variable_names «module».now) (trees values.now) machine.new) }
    ensures kept { machine.new.meter ≤ machine.old.meter }
{
    take(machine, 1)?;
    if let Some(i) = machine.locals.place(name.as_str()) {
        return pay_local(alloc, &mut machine.meter, machine.locals.as_slice(), i);
    }
    if let Some(i) = variable_place(module.variables(), name.as_str()) {
        let changed = machine.changed.as_slice();
        return pay_variable(alloc, &mut machine.meter, values, changed, i);
    }
    pay_function(alloc, &mut machine.meter, module.function(name.as_str()))
}

/// Gives the binding at a place another value.
pub fn set_local(locals: &mut Locals<Data>, i: usize, data: Data)
    requires { i < length locals.old }
    ensures { named_trees locals.new ≡ set_value (named_trees locals.old) i (tree «data») }
{
    locals.set(i, data);
}

/// Makes a place for each state variable up to this one.
fn make_place(changed: &mut Vec<Option<Data>>, i: usize) -> Result<(), AllocError>
    ensures same { (names : List (List ℕ)) (values : List Tree) → current names values (changes changed.new.items) ≡ current names values (changes changed.old.items) }
    ensures there { OnOk result (i < length changed.new.items) }
{
    'fill: while changed.len() <= i {
        changed.push(None)?;
    }
    Ok(())
}

/// Gives the state variable at a place another value. Its old one stays where it was.
fn set_variable(changed: &mut Vec<Option<Data>>, i: usize, data: Data)
    requires { i < length changed.old.items }
    ensures { (x : List ℕ) (names : List (List ℕ)) (values : List Tree) → Some i ≡ place x names → current names values (changes changed.new.items) ≡ rebind x (tree «data») (current names values (changes changed.old.items)) }
{
    changed[i] = Some(data);
}

/// Gives the innermost of the function's own names, else a state variable, another value.
#[inline(never)]
pub fn assign_name(
    module: &IndexedModule,
    machine: &mut Machine,
    name: &Text,
    data: Data,
) -> Result<(), Stop>
    ensures does { (values : List Tree) → Computes (put_name (bad_step WrongKind) name.now (tree «data»)) (state (variable_names «module».now) values machine.old) (come (λ u. u) result) (state (variable_names «module».now) values machine.new) }
    ensures kept { machine.new.meter ≤ machine.old.meter }
{
    if let Some(i) = machine.locals.place(name.as_str()) {
        set_local(&mut machine.locals, i, data);
        return Ok(());
    }
    if let Some(i) = variable_place(module.variables(), name.as_str()) {
        make_place(&mut machine.changed, i)?;
        set_variable(&mut machine.changed, i, data);
        return Ok(());
    }
    Err(bad(Reason::WrongKind))
}

/// Puts the value of a field behind the others, under a copy of the name.
#[inline(never)]
pub fn bind_name(
    alloc: Global,
    locals: &mut Vec<(Text, Data)>,
    name: &Text,
    data: Data,
) -> Result<(), AllocError>
    ensures { OnOk result (locals.new.items ≡ locals.old.items ++ (name.now, «data») ∷ []) }
{
    let name = name.copy(alloc)?;
    locals.push((name, data))?;
    Ok(())
}

/// The names with their values: a missing value is null, surplus ones are dropped.
#[inline(never)]
pub fn bind_all(
    alloc: Global,
    names: &[Text],
    values: Vec<Data>,
) -> Result<Locals<Data>, AllocError>
    ensures { IfOk result (λ bound. named_trees bound ≡ pairs names.now (trees values.items)) }
{
    let mut values = values.into_iter();
    let mut bound = Locals::new(alloc);
    for name in names {
        let data = values.next().unwrap_or(Data::Null);
        bound.bind(alloc, name, data)?;
    }
    Ok(bound)
}
