//! A function for each form of the language, down the tree as it was read.
ghost use Rattle.std.specs.Prelude.{[], false};
ghost use Rattle.jessie_machine.specs.host_data.View.{tree, trees};
ghost use Rattle.jessie_machine.specs.jessie_grammar.Syntax.{routines, term_view, terms_view, named_terms_view, operands_view, link_view, links_view, return_view, statement_view, branches_view, block_view};
ghost use Rattle.jessie_machine.specs.jessie_values.Dispatch.{unary};
ghost use Rattle.jessie_machine.specs.jessie_semantics.Actions.{scoped};
ghost use Rattle.jessie_machine.specs.jessie_semantics.Rules.{expr, exprs, named_exprs, links, one_link, operands, apply_built_in, primary_rule, send_rule, record_rule, method_rule, index_rule, unary_rule, operator_rule, right_side, choice_rule, test, stmt, form, branches, block, declare_rule, assign_rule, repeat_rule, for_rule, raise_rule, try_rule, run_rule, with_name, calls_of};
ghost use Rattle.jessie_machine.specs.jessie_semantics.Runs.{Runs};
ghost use Rattle.jessie_machine.specs.Stops.{come};
ghost use Rattle.jessie_machine.specs.Machine.{end_of, all_seen, fields_seen};
ghost use Rattle.jessie_interpreter.specs.Parts.{running, here, behind, array_rule, amounts_rule};

use crate::conditions::condition_value;
use jessie_machine::built_ins::call_built_in;
use jessie_machine::host::Powers;
use jessie_machine::host_data_lib::data::Data;
use jessie_machine::host_text_lib::text::Text;
use jessie_machine::jessie_grammar_lib::syntax::{
    Access, Branch, BuiltIn, Expr, Operator, Stmt, Unary,
};
use jessie_machine::jessie_index_lib::jessie_module_index::IndexedModule;
use jessie_machine::jessie_values_lib::operators::truth;
use jessie_machine::jessie_values_lib::reasons::Reason;
use jessie_machine::machine::{End, Machine, begin_statement, read_literal, take};
use jessie_machine::names::{assign_name, bind_all, bind_name, read_name};
use jessie_machine::numbers::{assign_at_hand, chain_at_hand, test_at_hand};
use jessie_machine::operations::{
    apply, apply_unary, call_amounts, check, decide, make_array, make_record, parts, read_index,
    run_field,
};
use jessie_machine::requests::{call_method, send_method};
use jessie_machine::stop::{Stop, bad, throw_data};
use std::alloc::Global;
use std::mem;

/// What the expression comes to.
#[cycle(run)]
#[inline(never)]
fn run_expr<P: Powers>(
    alloc: Global,
    powers: &mut P,
    module: &IndexedModule,
    room: u32,
    values: &[Data],
    machine: &mut Machine,
    expression: &Expr,
) -> Result<Data, Stop>
    ensures { Runs P.answers powers.old powers.new (expr (running «module».now room) (term_view expression.now)) (here «module».now values.now machine.old) (come tree result) (here «module».now values.now machine.new) }
{
    match expression {
        Expr::Literal(literal) => read_literal(alloc, machine, literal),
        Expr::Name(name) => read_name(alloc, module, values, machine, name),
        Expr::Call(name, args) => run_call(
            alloc,
            powers,
            module,
            room,
            values,
            machine,
            name,
            args.as_slice(),
        ),
        Expr::BuiltIn(function, args) => run_built_in(
            alloc,
            powers,
            module,
            room,
            values,
            machine,
            *function,
            args.as_slice(),
        ),
        Expr::AmountMath(name, args) => run_amounts(
            alloc,
            powers,
            module,
            room,
            values,
            machine,
            name,
            args.as_slice(),
        ),
        Expr::Send(target, name, args) => run_send(
            alloc,
            powers,
            module,
            room,
            values,
            machine,
            target.get(),
            name,
            args.as_slice(),
        ),
        Expr::Array(parts) => run_array(
            alloc,
            powers,
            module,
            room,
            values,
            machine,
            parts.as_slice(),
        ),
        Expr::Record(parts) => run_record(
            alloc,
            powers,
            module,
            room,
            values,
            machine,
            parts.as_slice(),
        ),
        Expr::Accesses(first, rest) => run_accesses(
            alloc,
            powers,
            module,
            room,
            values,
            machine,
            first.get(),
            rest.as_slice(),
        ),
        Expr::Unary(operator, part) => run_unary(
            alloc,
            powers,
            module,
            room,
            values,
            machine,
            *operator,
            part.get(),
        ),
        Expr::Chain(first, rest) => run_chain(
            alloc,
            powers,
            module,
            room,
            values,
            machine,
            first.get(),
            rest.as_slice(),
        ),
        Expr::Choice(condition, first, second) => run_choice(
            alloc,
            powers,
            module,
            room,
            values,
            machine,
            condition.get(),
            first.get(),
            second.get(),
        ),
    }
}

/// What the expressions come to, each in turn.
#[cycle(run)]
#[inline(never)]
fn run_exprs<P: Powers>(
    alloc: Global,
    powers: &mut P,
    module: &IndexedModule,
    room: u32,
    values: &[Data],
    machine: &mut Machine,
    parts: &[Expr],
) -> Result<Vec<Data>, Stop>
    ensures { Runs P.answers powers.old powers.new (exprs (running «module».now room) (terms_view parts.now) []) (here «module».now values.now machine.old) (come all_seen result) (here «module».now values.now machine.new) }
{
    let mut found = Vec::new(alloc);
    for part in parts {
        let data = run_expr(alloc, powers, module, room, values, machine, part)?;
        found.push(data)?;
    }
    Ok(found)
}

/// What the fields of a record come to, each in turn.
#[cycle(run)]
#[inline(never)]
fn run_named<P: Powers>(
    alloc: Global,
    powers: &mut P,
    module: &IndexedModule,
    room: u32,
    values: &[Data],
    machine: &mut Machine,
    parts: &[(Text, Expr)],
) -> Result<Vec<(Text, Data)>, Stop>
    ensures { Runs P.answers powers.old powers.new (named_exprs (running «module».now room) (named_terms_view parts.now) []) (here «module».now values.now machine.old) (come fields_seen result) (here «module».now values.now machine.new) }
{
    let mut found = Vec::new(alloc);
    for (name, part) in parts {
        let data = run_expr(alloc, powers, module, room, values, machine, part)?;
        bind_name(alloc, &mut found, name, data)?;
    }
    Ok(found)
}

/// A call of a function of the module.
#[cycle(run)]
#[inline(never)]
fn run_call<P: Powers>(
    alloc: Global,
    powers: &mut P,
    module: &IndexedModule,
    room: u32,
    values: &[Data],
    machine: &mut Machine,
    name: &Text,
    args: &[Expr],
) -> Result<Data, Stop>
    ensures { Runs P.answers powers.old powers.new (primary_rule (exprs (running «module».now room) (terms_view args.now) []) (calls_of (routines «module».now) room name.now)) (here «module».now values.now machine.old) (come tree result) (here «module».now values.now machine.new) }
{
    take(machine, 1)?;
    let args = run_exprs(alloc, powers, module, room, values, machine, args)?;
    invoke(alloc, powers, module, room, values, machine, name, args)
}

/// A call of a function of the language.
#[cycle(run)]
#[inline(never)]
fn run_built_in<P: Powers>(
    alloc: Global,
    powers: &mut P,
    module: &IndexedModule,
    room: u32,
    values: &[Data],
    machine: &mut Machine,
    function: BuiltIn,
    args: &[Expr],
) -> Result<Data, Stop>
    ensures { Runs P.answers powers.old powers.new (primary_rule (exprs (running «module».now room) (terms_view args.now) []) (apply_built_in function)) (here «module».now values.now machine.old) (come tree result) (here «module».now values.now machine.new) }
{
    take(machine, 1)?;
    let args = run_exprs(alloc, powers, module, room, values, machine, args)?;
    call_built_in(alloc, powers, machine, function, args)
}

/// A call of a function of AmountMath.
#[cycle(run)]
#[inline(never)]
fn run_amounts<P: Powers>(
    alloc: Global,
    powers: &mut P,
    module: &IndexedModule,
    room: u32,
    values: &[Data],
    machine: &mut Machine,
    name: &Text,
    args: &[Expr],
) -> Result<Data, Stop>
    ensures { Runs P.answers powers.old powers.new (amounts_rule (exprs (running «module».now room) (terms_view args.now) []) name.now) (here «module».now values.now machine.old) (come tree result) (here «module».now values.now machine.new) }
{
    take(machine, 1)?;
    let args = run_exprs(alloc, powers, module, room, values, machine, args)?;
    call_amounts(alloc, name, args.as_slice())
}

/// A send to an object.
#[cycle(run)]
#[inline(never)]
fn run_send<P: Powers>(
    alloc: Global,
    powers: &mut P,
    module: &IndexedModule,
    room: u32,
    values: &[Data],
    machine: &mut Machine,
    target: &Expr,
    name: &Text,
    args: &[Expr],
) -> Result<Data, Stop>
    ensures { Runs P.answers powers.old powers.new (send_rule (expr (running «module».now room) (term_view target.now)) name.now (exprs (running «module».now room) (terms_view args.now) [])) (here «module».now values.now machine.old) (come tree result) (here «module».now values.now machine.new) }
{
    take(machine, 1)?;
    let target = run_expr(alloc, powers, module, room, values, machine, target)?;
    let args = run_exprs(alloc, powers, module, room, values, machine, args)?;
    send_method(alloc, powers, machine, &target, name, args)
}

/// An array.
#[cycle(run)]
#[inline(never)]
fn run_array<P: Powers>(
    alloc: Global,
    powers: &mut P,
    module: &IndexedModule,
    room: u32,
    values: &[Data],
    machine: &mut Machine,
    parts: &[Expr],
) -> Result<Data, Stop>
    ensures { Runs P.answers powers.old powers.new (array_rule (exprs (running «module».now room) (terms_view parts.now) [])) (here «module».now values.now machine.old) (come tree result) (here «module».now values.now machine.new) }
{
    take(machine, 1)?;
    let items = run_exprs(alloc, powers, module, room, values, machine, parts)?;
    make_array(items)
}

/// A record.
#[cycle(run)]
#[inline(never)]
fn run_record<P: Powers>(
    alloc: Global,
    powers: &mut P,
    module: &IndexedModule,
    room: u32,
    values: &[Data],
    machine: &mut Machine,
    parts: &[(Text, Expr)],
) -> Result<Data, Stop>
    ensures { Runs P.answers powers.old powers.new (record_rule (named_exprs (running «module».now room) (named_terms_view parts.now) [])) (here «module».now values.now machine.old) (come tree result) (here «module».now values.now machine.new) }
{
    take(machine, 1)?;
    let items = run_named(alloc, powers, module, room, values, machine, parts)?;
    make_record(alloc, items)
}

/// What the steps behind an expression come to, from left to right.
#[cycle(run)]
#[inline(never)]
fn run_accesses<P: Powers>(
    alloc: Global,
    powers: &mut P,
    module: &IndexedModule,
    room: u32,
    values: &[Data],
    machine: &mut Machine,
    first: &Expr,
    rest: &[Access],
) -> Result<Data, Stop>
    ensures { Runs P.answers powers.old powers.new (behind (expr (running «module».now room) (term_view first.now)) (links (running «module».now room) (links_view rest.now))) (here «module».now values.now machine.old) (come tree result) (here «module».now values.now machine.new) }
{
    let mut data = run_expr(alloc, powers, module, room, values, machine, first)?;
    for part in rest {
        data = run_access(alloc, powers, module, room, values, machine, data, part)?;
    }
    Ok(data)
}

/// A step behind a value.
#[cycle(run)]
#[inline]
fn run_access<P: Powers>(
    alloc: Global,
    powers: &mut P,
    module: &IndexedModule,
    room: u32,
    values: &[Data],
    machine: &mut Machine,
    data: Data,
    part: &Access,
) -> Result<Data, Stop>
    ensures { Runs P.answers powers.old powers.new (one_link (running «module».now room) (link_view part.now) (tree «data»)) (here «module».now values.now machine.old) (come tree result) (here «module».now values.now machine.new) }
{
    match part {
        Access::Field(name) => run_field(machine, data, name),
        Access::Method(name, args) => run_method(
            alloc,
            powers,
            module,
            room,
            values,
            machine,
            &data,
            name,
            args.as_slice(),
        ),
        Access::Index(index) => run_index(
            alloc, powers, module, room, values, machine, data, index,
        ),
    }
}

/// A call of a method of an object.
#[cycle(run)]
#[inline]
fn run_method<P: Powers>(
    alloc: Global,
    powers: &mut P,
    module: &IndexedModule,
    room: u32,
    values: &[Data],
    machine: &mut Machine,
    target: &Data,
    name: &Text,
    args: &[Expr],
) -> Result<Data, Stop>
    ensures { Runs P.answers powers.old powers.new (method_rule name.now (exprs (running «module».now room) (terms_view args.now) []) (tree target.now)) (here «module».now values.now machine.old) (come tree result) (here «module».now values.now machine.new) }
{
    take(machine, 1)?;
    let args = run_exprs(alloc, powers, module, room, values, machine, args)?;
    call_method(alloc, powers, machine, target, name, args)
}

/// The part of a value at an index.
#[cycle(run)]
#[inline(never)]
fn run_index<P: Powers>(
    alloc: Global,
    powers: &mut P,
    module: &IndexedModule,
    room: u32,
    values: &[Data],
    machine: &mut Machine,
    target: Data,
    index: &Expr,
) -> Result<Data, Stop>
    ensures { Runs P.answers powers.old powers.new (index_rule (expr (running «module».now room) (term_view index.now)) (tree target)) (here «module».now values.now machine.old) (come tree result) (here «module».now values.now machine.new) }
{
    take(machine, 1)?;
    let index = run_expr(alloc, powers, module, room, values, machine, index)?;
    read_index(target, &index)
}

/// An operator before an expression.
#[cycle(run)]
#[inline(never)]
fn run_unary<P: Powers>(
    alloc: Global,
    powers: &mut P,
    module: &IndexedModule,
    room: u32,
    values: &[Data],
    machine: &mut Machine,
    operator: Unary,
    part: &Expr,
) -> Result<Data, Stop>
    ensures { Runs P.answers powers.old powers.new (unary_rule (unary operator) (expr (running «module».now room) (term_view part.now))) (here «module».now values.now machine.old) (come tree result) (here «module».now values.now machine.new) }
{
    take(machine, 1)?;
    let data = run_expr(alloc, powers, module, room, values, machine, part)?;
    apply_unary(operator, &data)
}

/// A chain of operators, from left to right.
#[cycle(run)]
#[inline(never)]
fn run_chain<P: Powers>(
    alloc: Global,
    powers: &mut P,
    module: &IndexedModule,
    room: u32,
    values: &[Data],
    machine: &mut Machine,
    first: &Expr,
    rest: &[(Operator, Expr)],
) -> Result<Data, Stop>
    ensures { Runs P.answers powers.old powers.new (behind (expr (running «module».now room) (term_view first.now)) (operands (running «module».now room) (operands_view rest.now))) (here «module».now values.now machine.old) (come tree result) (here «module».now values.now machine.new) }
{
    if let Some(made) = chain_at_hand(machine, first, rest) {
        machine.meter = made.left;
        return Ok(made.value.data());
    }
    let mut data = run_expr(alloc, powers, module, room, values, machine, first)?;
    for (operator, right) in rest {
        data = run_operator(
            alloc, powers, module, room, values, machine, data, *operator, right,
        )?;
    }
    Ok(data)
}

/// An operator, with what is behind it.
#[cycle(run)]
#[inline]
fn run_operator<P: Powers>(
    alloc: Global,
    powers: &mut P,
    module: &IndexedModule,
    room: u32,
    values: &[Data],
    machine: &mut Machine,
    left: Data,
    operator: Operator,
    right: &Expr,
) -> Result<Data, Stop>
    ensures { Runs P.answers powers.old powers.new (operator_rule operator (expr (running «module».now room) (term_view right.now)) (tree left)) (here «module».now values.now machine.old) (come tree result) (here «module».now values.now machine.new) }
{
    take(machine, 1)?;
    let skipped = decide(operator, &left)?;
    if skipped {
        return Ok(left);
    }
    run_right(
        alloc, powers, module, room, values, machine, left, operator, right,
    )
}

/// What is behind an operator, where the left side alone doesn't decide.
#[cycle(run)]
#[inline]
fn run_right<P: Powers>(
    alloc: Global,
    powers: &mut P,
    module: &IndexedModule,
    room: u32,
    values: &[Data],
    machine: &mut Machine,
    left: Data,
    operator: Operator,
    right: &Expr,
) -> Result<Data, Stop>
    ensures { Runs P.answers powers.old powers.new (right_side false operator (expr (running «module».now room) (term_view right.now)) (tree left)) (here «module».now values.now machine.old) (come tree result) (here «module».now values.now machine.new) }
{
    let right = run_expr(alloc, powers, module, room, values, machine, right)?;
    apply(alloc, operator, left, &right)
}

/// A choice of two expressions.
#[cycle(run)]
#[inline(never)]
fn run_choice<P: Powers>(
    alloc: Global,
    powers: &mut P,
    module: &IndexedModule,
    room: u32,
    values: &[Data],
    machine: &mut Machine,
    condition: &Expr,
    first: &Expr,
    second: &Expr,
) -> Result<Data, Stop>
    ensures { Runs P.answers powers.old powers.new (choice_rule (expr (running «module».now room) (term_view condition.now)) (expr (running «module».now room) (term_view first.now)) (expr (running «module».now room) (term_view second.now))) (here «module».now values.now machine.old) (come tree result) (here «module».now values.now machine.new) }
{
    let data = run_expr(alloc, powers, module, room, values, machine, condition)?;
    let given = truth(&data);
    drop(data);
    take(machine, 1)?;
    let holds = condition_value(given)?;
    if holds {
        return run_expr(alloc, powers, module, room, values, machine, first);
    }
    run_expr(alloc, powers, module, room, values, machine, second)
}

/// What a condition comes to.
#[cycle(run)]
#[inline(never)]
fn run_test<P: Powers>(
    alloc: Global,
    powers: &mut P,
    module: &IndexedModule,
    room: u32,
    values: &[Data],
    machine: &mut Machine,
    condition: &Expr,
) -> Result<bool, Stop>
    ensures { Runs P.answers powers.old powers.new (test (running «module».now room) (term_view condition.now)) (here «module».now values.now machine.old) (come (λ b. b) result) (here «module».now values.now machine.new) }
{
    if let Some(test) = test_at_hand(machine, condition) {
        machine.meter = test.left;
        return Ok(test.holds);
    }
    let data = run_expr(alloc, powers, module, room, values, machine, condition)?;
    check(&data)
}

/// What the statement does, with its charge.
#[cycle(run)]
#[inline]
fn run_stmt<P: Powers>(
    alloc: Global,
    powers: &mut P,
    module: &IndexedModule,
    room: u32,
    values: &[Data],
    machine: &mut Machine,
    statement: &Stmt,
) -> Result<End, Stop>
    ensures { Runs P.answers powers.old powers.new (stmt (running «module».now room) (statement_view statement.now)) (here «module».now values.now machine.old) (come end_of result) (here «module».now values.now machine.new) }
{
    begin_statement(machine)?;
    run_form(alloc, powers, module, room, values, machine, statement)
}

/// What the statement does.
#[cycle(run)]
#[inline]
fn run_form<P: Powers>(
    alloc: Global,
    powers: &mut P,
    module: &IndexedModule,
    room: u32,
    values: &[Data],
    machine: &mut Machine,
    statement: &Stmt,
) -> Result<End, Stop>
    ensures { Runs P.answers powers.old powers.new (form (running «module».now room) (statement_view statement.now)) (here «module».now values.now machine.old) (come end_of result) (here «module».now values.now machine.new) }
{
    match statement {
        Stmt::Const(name, value) => run_declare(
            alloc, powers, module, room, values, machine, name, value,
        ),
        Stmt::Let(name, value) => run_declare(
            alloc, powers, module, room, values, machine, name, value,
        ),
        Stmt::Assign(name, value) => run_assign(
            alloc, powers, module, room, values, machine, name, value,
        ),
        Stmt::If(ways, other) => run_if(
            alloc,
            powers,
            module,
            room,
            values,
            machine,
            ways.as_slice(),
            other.as_slice(),
        ),
        Stmt::While(condition, body) => run_while(
            alloc,
            powers,
            module,
            room,
            values,
            machine,
            condition,
            body.as_slice(),
        ),
        Stmt::ForOf(name, source, body) => run_for(
            alloc,
            powers,
            module,
            room,
            values,
            machine,
            name,
            source,
            body.as_slice(),
        ),
        Stmt::Return(value) => run_return(alloc, powers, module, room, values, machine, value),
        Stmt::Throw(value) => run_throw(alloc, powers, module, room, values, machine, value),
        Stmt::Try(body, name, handler) => run_try(
            alloc,
            powers,
            module,
            room,
            values,
            machine,
            body.as_slice(),
            name,
            handler.as_slice(),
        ),
        Stmt::Run(value) => run_value(alloc, powers, module, room, values, machine, value),
    }
}

/// The declaration of a name.
#[cycle(run)]
#[inline(never)]
fn run_declare<P: Powers>(
    alloc: Global,
    powers: &mut P,
    module: &IndexedModule,
    room: u32,
    values: &[Data],
    machine: &mut Machine,
    name: &Text,
    value: &Expr,
) -> Result<End, Stop>
    ensures { Runs P.answers powers.old powers.new (declare_rule name.now (expr (running «module».now room) (term_view value.now))) (here «module».now values.now machine.old) (come end_of result) (here «module».now values.now machine.new) }
{
    let data = run_expr(alloc, powers, module, room, values, machine, value)?;
    machine.locals.bind(alloc, name, data)?;
    Ok(End::Next)
}

/// An assignment.
#[cycle(run)]
#[inline(never)]
fn run_assign<P: Powers>(
    alloc: Global,
    powers: &mut P,
    module: &IndexedModule,
    room: u32,
    values: &[Data],
    machine: &mut Machine,
    name: &Text,
    value: &Expr,
) -> Result<End, Stop>
    ensures { Runs P.answers powers.old powers.new (assign_rule name.now (expr (running «module».now room) (term_view value.now))) (here «module».now values.now machine.old) (come end_of result) (here «module».now values.now machine.new) }
{
    if assign_at_hand(machine, name, value) {
        return Ok(End::Next);
    }
    let data = run_expr(alloc, powers, module, room, values, machine, value)?;
    assign_name(module, machine, name, data)?;
    Ok(End::Next)
}

/// The block of the first condition that holds, else the last one.
#[cycle(run)]
#[inline(never)]
fn run_if<P: Powers>(
    alloc: Global,
    powers: &mut P,
    module: &IndexedModule,
    room: u32,
    values: &[Data],
    machine: &mut Machine,
    ways: &[Branch],
    other: &[Stmt],
) -> Result<End, Stop>
    ensures { Runs P.answers powers.old powers.new (branches (running «module».now room) (branches_view ways.now) (scoped (block (running «module».now room) (block_view other.now)))) (here «module».now values.now machine.old) (come end_of result) (here «module».now values.now machine.new) }
{
    for way in ways {
        let holds = run_test(alloc, powers, module, room, values, machine, &way.condition)?;
        if holds {
            return run_scope(
                alloc,
                powers,
                module,
                room,
                values,
                machine,
                way.body.as_slice(),
            );
        }
    }
    run_scope(alloc, powers, module, room, values, machine, other)
}

/// A loop. Each round takes at least 1, so there are no more rounds than the meter has.
#[cycle(run)]
#[inline(never)]
fn run_while<P: Powers>(
    alloc: Global,
    powers: &mut P,
    module: &IndexedModule,
    room: u32,
    values: &[Data],
    machine: &mut Machine,
    condition: &Expr,
    body: &[Stmt],
) -> Result<End, Stop>
    ensures { Runs P.answers powers.old powers.new (repeat_rule (test (running «module».now room) (term_view condition.now)) (block (running «module».now room) (block_view body.now))) (here «module».now values.now machine.old) (come end_of result) (here «module».now values.now machine.new) }
{
    for round in 0..machine.meter {
        let holds = run_test(alloc, powers, module, room, values, machine, condition)?;
        if holds {
            match run_scope(alloc, powers, module, room, values, machine, body)? {
                End::Next => {}
                End::Leaves(data) => return Ok(End::Leaves(data)),
            }
        } else {
            return Ok(End::Next);
        }
    }
    Err(Stop::Spent)
}

/// A loop over an array.
#[cycle(run)]
#[inline(never)]
fn run_for<P: Powers>(
    alloc: Global,
    powers: &mut P,
    module: &IndexedModule,
    room: u32,
    values: &[Data],
    machine: &mut Machine,
    name: &Text,
    source: &Expr,
    body: &[Stmt],
) -> Result<End, Stop>
    ensures { Runs P.answers powers.old powers.new (for_rule name.now (expr (running «module».now room) (term_view source.now)) (block (running «module».now room) (block_view body.now))) (here «module».now values.now machine.old) (come end_of result) (here «module».now values.now machine.new) }
{
    let data = run_expr(alloc, powers, module, room, values, machine, source)?;
    let items = parts(data)?;
    let mut items = items.into_iter();
    'items: while let Some(item) = items.next() {
        match run_with(
            alloc, powers, module, room, values, machine, name, item, body,
        )? {
            End::Next => {}
            End::Leaves(data) => return Ok(End::Leaves(data)),
        }
    }
    Ok(End::Next)
}

/// The function is left with a value, or with null.
#[cycle(run)]
#[inline(never)]
fn run_return<P: Powers>(
    alloc: Global,
    powers: &mut P,
    module: &IndexedModule,
    room: u32,
    values: &[Data],
    machine: &mut Machine,
    value: &Option<Expr>,
) -> Result<End, Stop>
    ensures { Runs P.answers powers.old powers.new (form (running «module».now room) (return_view value.now)) (here «module».now values.now machine.old) (come end_of result) (here «module».now values.now machine.new) }
{
    match value {
        Some(value) => {
            let data = run_expr(alloc, powers, module, room, values, machine, value)?;
            Ok(End::Leaves(data))
        }
        None => Ok(End::Leaves(Data::Null)),
    }
}

/// A value is thrown.
#[cycle(run)]
#[inline(never)]
fn run_throw<P: Powers>(
    alloc: Global,
    powers: &mut P,
    module: &IndexedModule,
    room: u32,
    values: &[Data],
    machine: &mut Machine,
    value: &Expr,
) -> Result<End, Stop>
    ensures { Runs P.answers powers.old powers.new (raise_rule (expr (running «module».now room) (term_view value.now))) (here «module».now values.now machine.old) (come end_of result) (here «module».now values.now machine.new) }
{
    let data = run_expr(alloc, powers, module, room, values, machine, value)?;
    Err(throw_data(alloc, data))
}

/// A block whose throws are caught.
#[cycle(run)]
#[inline(never)]
fn run_try<P: Powers>(
    alloc: Global,
    powers: &mut P,
    module: &IndexedModule,
    room: u32,
    values: &[Data],
    machine: &mut Machine,
    body: &[Stmt],
    name: &Text,
    handler: &[Stmt],
) -> Result<End, Stop>
    ensures { Runs P.answers powers.old powers.new (try_rule (block (running «module».now room) (block_view body.now)) name.now (block (running «module».now room) (block_view handler.now))) (here «module».now values.now machine.old) (come end_of result) (here «module».now values.now machine.new) }
{
    match run_scope(alloc, powers, module, room, values, machine, body) {
        Ok(end) => Ok(end),
        Err(stop) => match stop {
            Stop::Throws(thrown) => {
                let data = thrown.into_data(alloc)?;
                run_with(
                    alloc, powers, module, room, values, machine, name, data, handler,
                )
            }
            Stop::Spent => Err(Stop::Spent),
            Stop::NoMemory => Err(Stop::NoMemory),
        },
    }
}

/// An expression as a statement.
#[cycle(run)]
#[inline(never)]
fn run_value<P: Powers>(
    alloc: Global,
    powers: &mut P,
    module: &IndexedModule,
    room: u32,
    values: &[Data],
    machine: &mut Machine,
    value: &Expr,
) -> Result<End, Stop>
    ensures { Runs P.answers powers.old powers.new (run_rule (expr (running «module».now room) (term_view value.now))) (here «module».now values.now machine.old) (come end_of result) (here «module».now values.now machine.new) }
{
    run_expr(alloc, powers, module, room, values, machine, value)?;
    Ok(End::Next)
}

/// A block with names of its own.
#[cycle(run)]
#[inline]
fn run_scope<P: Powers>(
    alloc: Global,
    powers: &mut P,
    module: &IndexedModule,
    room: u32,
    values: &[Data],
    machine: &mut Machine,
    body: &[Stmt],
) -> Result<End, Stop>
    ensures { Runs P.answers powers.old powers.new (scoped (block (running «module».now room) (block_view body.now))) (here «module».now values.now machine.old) (come end_of result) (here «module».now values.now machine.new) }
{
    let names = machine.locals.len();
    let end = run_block(alloc, powers, module, room, values, machine, body);
    machine.locals.truncate(names);
    end
}

/// A block with a first name of its own.
#[cycle(run)]
#[inline(never)]
fn run_with<P: Powers>(
    alloc: Global,
    powers: &mut P,
    module: &IndexedModule,
    room: u32,
    values: &[Data],
    machine: &mut Machine,
    name: &Text,
    data: Data,
    body: &[Stmt],
) -> Result<End, Stop>
    ensures { Runs P.answers powers.old powers.new (with_name name.now (block (running «module».now room) (block_view body.now)) (tree «data»)) (here «module».now values.now machine.old) (come end_of result) (here «module».now values.now machine.new) }
{
    let names = machine.locals.len();
    machine.locals.bind(alloc, name, data)?;
    let end = run_block(alloc, powers, module, room, values, machine, body);
    machine.locals.truncate(names);
    end
}

/// What the statements do, one after another.
#[cycle(run)]
#[inline(never)]
fn run_block<P: Powers>(
    alloc: Global,
    powers: &mut P,
    module: &IndexedModule,
    room: u32,
    values: &[Data],
    machine: &mut Machine,
    body: &[Stmt],
) -> Result<End, Stop>
    ensures { Runs P.answers powers.old powers.new (block (running «module».now room) (block_view body.now)) (here «module».now values.now machine.old) (come end_of result) (here «module».now values.now machine.new) }
{
    for statement in body {
        match run_stmt(alloc, powers, module, room, values, machine, statement)? {
            End::Next => {}
            End::Leaves(data) => return Ok(End::Leaves(data)),
        }
    }
    Ok(End::Next)
}

/// Calls a function of the module, within at most so many calls.
#[cycle(run)]
#[inline(never)]
pub fn invoke<P: Powers>(
    alloc: Global,
    powers: &mut P,
    module: &IndexedModule,
    room: u32,
    values: &[Data],
    machine: &mut Machine,
    f: &Text,
    args: Vec<Data>,
) -> Result<Data, Stop>
    ensures { Runs P.answers powers.old powers.new (calls_of (routines «module».now) room f.now (trees args.items)) (here «module».now values.now machine.old) (come tree result) (here «module».now values.now machine.new) }
{
    if room == 0 {
        return Err(bad(Reason::TooDeep));
    }
    match module.function(f.as_str()) {
        None => Err(bad(Reason::WrongKind)),
        Some(function) => {
            let own = bind_all(alloc, function.params.as_slice(), args)?;
            let outer = mem::replace(&mut machine.locals, own);
            let body = function.body.as_slice();
            let end = run_block(alloc, powers, module, room - 1, values, machine, body);
            machine.locals = outer;
            match end {
                Ok(end) => Ok(end.into_data()),
                Err(stop) => Err(stop),
            }
        }
    }
}
