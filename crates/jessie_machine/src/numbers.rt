//! Arithmetic on numbers at hand, worked at once, or not at all where something else comes or a
//! charge is missing.
ghost use Rattle.std.specs.Int.{w128};
ghost use Rattle.std.specs.Prelude.{FitsSigned, ◌≡◌, ◌≤◌, ◌+◌, ℕ, List, Ok, IfSome, Some, true, false};
ghost use Rattle.jessie_semantics.specs.host_data.Tree.{Tree, boolean as boolean_tree, number as number_tree};
ghost use Rattle.jessie_semantics.specs.host_data.View.{named_trees, tree};
ghost use Rattle.jessie_index.specs.jessie_grammar.Syntax.{chain, operands_view, term_view};
ghost use Rattle.jessie_index.specs.jessie_values.Dispatch.{operate};
ghost use Rattle.jessie_index.specs.jessie_values.Literals.{literal_tree};
ghost use Rattle.jessie_semantics.specs.Actions.{Bindings};
ghost use Rattle.jessie_semantics.specs.Rules.{Program, assign_rule, expr, literal_rule, name_rule, next, operator_rule, test};
ghost use Rattle.jessie_semantics.specs.Runs.{Computes, came};
ghost use Rattle.jessie_machine.specs.Machine.{Makes, Decides, state, worked_tree};

use crate::machine::Machine;
use crate::names::set_local;
use jessie_index::jessie_grammar_lib::syntax::{Expr, Literal, Operator};
use jessie_index::locals::Locals;
use jessie_semantics::host_data_lib::data::Data;
use jessie_semantics::host_text_lib::text::Text;

/// How deep arithmetic nests at most that is worked at once.
const DEEPEST: u32 = 4;

/// What numbers at hand come to: a number, or whether a comparison of them holds.
#[derive(Clone, Copy)]
pub enum Worked {
    Number(i128),
    Truth(bool),
}

impl Worked {
    /// It as a value.
    pub fn data(&self) -> Data
        ensures { tree result ≡ worked_tree self.now }
    {
        match self {
            Worked::Number(number) => Data::Number(*number),
            Worked::Truth(truth) => Data::Bool(*truth),
        }
    }
}

/// What a chain at hand comes to, and what is left of the meter.
#[derive(Clone, Copy)]
pub struct ChainAtHand {
    pub value: Worked,
    pub left: u64,
}

/// The outcome of a comparison of numbers at hand, and what is left of the meter.
#[derive(Clone, Copy)]
pub struct TestAtHand {
    pub holds: bool,
    pub left: u64,
}

/// What an operator makes of two numbers, where that is a number.
fn number_of_two(operator: Operator, a: i128, b: i128) -> Option<i128>
    ensures { IfSome result (λ n. operate operator (number_tree a) (number_tree b)
        ≡ Ok (number_tree n)) }
{
    match operator {
        Operator::Add => a.checked_add(b),
        Operator::Subtract => a.checked_sub(b),
        Operator::Multiply => a.checked_mul(b),
        Operator::Divide => quotient(a, b),
        Operator::Remainder => rest(a, b),
        _ => None,
    }
}

/// `/`, cut towards 0, where it is one of 128 bits.
fn quotient(a: i128, b: i128) -> Option<i128>
    ensures { IfSome result (λ n. operate Operator.Divide (number_tree a) (number_tree b)
        ≡ Ok (number_tree n)) }
{
    if b == 0 {
        return None;
    }
    a.checked_div(b)
}

/// `%`, with the sign of the number that is divided.
fn rest(a: i128, b: i128) -> Option<i128>
    ensures { IfSome result (λ n. operate Operator.Remainder (number_tree a) (number_tree b)
        ≡ Ok (number_tree n)) }
{
    if b == 0 {
        return None;
    }
    Some(a.wrapping_rem(b))
}

/// Whether the operators of the level make numbers.
fn makes_numbers(rest: &[(Operator, Expr)]) -> bool {
    match rest {
        [(operator, _), ..] => match operator {
            Operator::Add => true,
            Operator::Subtract => true,
            Operator::Multiply => true,
            Operator::Divide => true,
            Operator::Remainder => true,
            _ => false,
        },
        [] => false,
    }
}

/// How two numbers compare, where the operator asks that.
fn number_test(operator: Operator, a: i128, b: i128) -> Option<bool>
    ensures { IfSome result (λ t. operate operator (number_tree a) (number_tree b)
        ≡ Ok (boolean_tree t)) }
{
    match operator {
        Operator::Equal => Some(a == b),
        Operator::Unequal => Some(a != b),
        Operator::Less => Some(a < b),
        Operator::AtMost => Some(a <= b),
        Operator::Greater => Some(a > b),
        Operator::AtLeast => Some(a >= b),
        _ => None,
    }
}

/// Takes the charges of reading a number.
fn paid_number(meter: &mut u64, number: &i128) -> Option<i128>
    ensures value { IfSome result (λ n. n ≡ number.now) }
    ensures paid { IfSome result (λ n. meter.new + 2 ≡ meter.old) }
    ensures kept { meter.new ≤ meter.old }
{
    if *meter < 2 {
        return None;
    }
    *meter -= 2;
    Some(*number)
}

/// Puts a number, where there is one, into a place of the caller's.
fn put_number(made: Option<i128>, number: &mut i128) -> bool
    ensures made { result ≡ true → made ≡ Some number.new }
    ensures fits { result ≡ true → FitsSigned w128 number.new }
{
    match made {
        Some(made) => {
            *number = made;
            true
        }
        None => false,
    }
}

/// The number that a literal is.
fn literal_number(meter: &mut u64, literal: &Literal) -> Option<i128>
    ensures does { (locals : Bindings)
        → IfSome result
        (λ n. Makes (literal_rule (literal_tree literal.now)) locals meter.old n meter.new) }
    ensures kept { meter.new ≤ meter.old }
{
    match literal {
        Literal::Number(number) => paid_number(meter, number),
        _ => None,
    }
}

/// The number that one of the function's own names holds.
fn local_number(locals: &Locals<Data>, meter: &mut u64, name: &Text) -> Option<i128>
    ensures does { (m : Program)
        → IfSome result (λ n. Makes (name_rule m name.now)
        (named_trees locals.now) meter.old n meter.new) }
    ensures kept { meter.new ≤ meter.old }
{
    let i = locals.place(name.as_str())?;
    let binding = &locals.as_slice()[i];
    match &binding.1 {
        Data::Number(number) => paid_number(meter, number),
        _ => None,
    }
}

/// The number that a literal is or a name holds, put into a place of the caller's: within an `Option` it would be
/// moved at each step.
fn held_number(locals: &Locals<Data>, meter: &mut u64, expression: &Expr, number: &mut i128) -> bool
    ensures does { (m : Program)
        → result ≡ true → Makes (expr m (term_view expression.now))
        (named_trees locals.now) meter.old number.new meter.new }
    ensures fits { result ≡ true → FitsSigned w128 number.new }
    ensures kept { meter.new ≤ meter.old }
{
    match expression {
        Expr::Literal(literal) => put_number(literal_number(meter, literal), number),
        Expr::Name(name) => put_number(local_number(locals, meter, name), number),
        _ => false,
    }
}

/// The number that an expression is, where it is one, put into a place of the caller's.
#[cycle(number)]
#[inline(always)]
fn number_at(
    depth: u32,
    locals: &Locals<Data>,
    meter: &mut u64,
    expression: &Expr,
    number: &mut i128,
) -> bool
    ensures does { (m : Program)
        → result ≡ true → Makes (expr m (term_view expression.now))
        (named_trees locals.now) meter.old number.new meter.new }
    ensures fits { result ≡ true → FitsSigned w128 number.new }
    ensures kept { meter.new ≤ meter.old }
{
    match expression {
        Expr::Chain(first, rest) => {
            if depth == 0 {
                return false;
            }
            chain_number(
                depth - 1,
                locals,
                meter,
                first.get(),
                rest.as_slice(),
                number,
            )
        }
        _ => held_number(locals, meter, expression, number),
    }
}

/// The number that a chain is, where it is one, put into a place of the caller's.
#[cycle(number)]
#[inline(never)]
fn chain_number(
    depth: u32,
    locals: &Locals<Data>,
    meter: &mut u64,
    first: &Expr,
    rest: &[(Operator, Expr)],
    number: &mut i128,
) -> bool
    ensures does { (m : Program)
        → result ≡ true → Makes (expr m (chain (term_view first.now)
        (operands_view rest.now))) (named_trees locals.now) meter.old number.new meter.new }
    ensures fits { result ≡ true → FitsSigned w128 number.new }
    ensures kept { meter.new ≤ meter.old }
{
    if !makes_numbers(rest) {
        return false;
    }
    if !number_at(depth, locals, meter, first, number) {
        return false;
    }
    for (operator, right) in rest {
        if !number_behind(depth, locals, meter, number, *operator, right) {
            return false;
        }
    }
    true
}

/// The number behind an operator, where it is one: mostly a literal's or a name's, which is read straight away.
#[cycle(number)]
#[inline(always)]
fn operand_number(
    depth: u32,
    locals: &Locals<Data>,
    meter: &mut u64,
    right: &Expr,
    number: &mut i128,
) -> bool
    ensures does { (m : Program)
        → result ≡ true → Makes (expr m (term_view right.now))
        (named_trees locals.now) meter.old number.new meter.new }
    ensures fits { result ≡ true → FitsSigned w128 number.new }
    ensures kept { meter.new ≤ meter.old }
{
    match right {
        Expr::Chain(_, _) => number_at(depth, locals, meter, right, number),
        _ => held_number(locals, meter, right, number),
    }
}

/// What an operator makes of a number and what is behind it, where that is a number, in place of the first.
#[cycle(number)]
#[inline(always)]
fn number_behind(
    depth: u32,
    locals: &Locals<Data>,
    meter: &mut u64,
    number: &mut i128,
    operator: Operator,
    right: &Expr,
) -> bool
    ensures does { (m : Program)
        → result ≡ true → Makes (operator_rule operator
        (expr m (term_view right.now)) (number_tree number.old))
        (named_trees locals.now) meter.old number.new meter.new }
    ensures fits { result ≡ true → FitsSigned w128 number.new }
    ensures kept { meter.new ≤ meter.old }
{
    if *meter == 0 {
        return false;
    }
    *meter -= 1;
    let mut behind = 0;
    if !operand_number(depth, locals, meter, right, &mut behind) {
        return false;
    }
    put_number(number_of_two(operator, *number, behind), number)
}

/// How two numbers compare.
fn comparison(
    locals: &Locals<Data>,
    meter: &mut u64,
    first: &Expr,
    operator: Operator,
    second: &Expr,
) -> Option<bool>
    ensures does { (m : Program)
        → IfSome result (λ t. Decides (expr m (term_view first.now)) operator
        (expr m (term_view second.now)) (named_trees locals.now) meter.old t meter.new) }
    ensures kept { meter.new ≤ meter.old }
{
    let mut a = 0;
    if !number_at(DEEPEST, locals, meter, first, &mut a) {
        return None;
    }
    if *meter == 0 {
        return None;
    }
    *meter -= 1;
    let mut b = 0;
    if !number_at(DEEPEST, locals, meter, second, &mut b) {
        return None;
    }
    number_test(operator, a, b)
}

/// Whether the operator compares numbers.
fn compares(operator: Operator) -> bool {
    match operator {
        Operator::Equal => true,
        Operator::Unequal => true,
        Operator::Less => true,
        Operator::AtMost => true,
        Operator::Greater => true,
        Operator::AtLeast => true,
        _ => false,
    }
}

/// What a chain of arithmetic comes to, or one comparison.
#[inline(never)]
pub fn chain_at_hand(
    machine: &Machine,
    first: &Expr,
    rest: &[(Operator, Expr)],
) -> Option<ChainAtHand>
    ensures does { (m : Program) (names : List (List ℕ)) (values : List Tree)
        → IfSome result (λ made. Computes (expr m (chain (term_view first.now)
        (operands_view rest.now))) (state names values machine.now)
        (came (worked_tree made.value))
        (state names values (record machine.now { meter = made.left }))) }
    ensures kept { IfSome result (λ made. made.left ≤ machine.now.meter) }
{
    let mut left = machine.meter;
    if let [(operator, second)] = rest {
        if compares(*operator) {
            let holds = comparison(&machine.locals, &mut left, first, *operator, second)?;
            let value = Worked::Truth(holds);
            return Some(ChainAtHand { value, left });
        }
    }
    let mut number = 0;
    if !chain_number(
        DEEPEST,
        &machine.locals,
        &mut left,
        first,
        rest,
        &mut number,
    ) {
        return None;
    }
    let value = Worked::Number(number);
    Some(ChainAtHand { value, left })
}

/// What a condition comes to that compares two numbers.
#[inline(never)]
pub fn test_at_hand(machine: &Machine, condition: &Expr) -> Option<TestAtHand>
    ensures does { (m : Program) (names : List (List ℕ)) (values : List Tree)
        → IfSome result (λ made. Computes (test m (term_view condition.now))
        (state names values machine.now) (came made.holds)
        (state names values (record machine.now { meter = made.left }))) }
    ensures kept { IfSome result (λ made. made.left ≤ machine.now.meter) }
{
    match condition {
        Expr::Chain(first, rest) => match rest.as_slice() {
            [(operator, second)] => {
                let mut left = machine.meter;
                let holds = comparison(&machine.locals, &mut left, first.get(), *operator, second)?;
                Some(TestAtHand { holds, left })
            }
            _ => None,
        },
        _ => None,
    }
}

/// Gives one of the function's own names the number that arithmetic at hand comes to. Where it comes to none, or
/// the name isn't one of those, nothing is done.
#[inline(never)]
pub fn assign_at_hand(machine: &mut Machine, name: &Text, value: &Expr) -> bool
    ensures does { (m : Program) (names : List (List ℕ)) (values : List Tree)
        → result ≡ true
        → Computes (assign_rule name.now (expr m (term_view value.now)))
        (state names values machine.old) (came next) (state names values machine.new) }
    ensures same { result ≡ false → machine.new ≡ machine.old }
    ensures kept { machine.new.meter ≤ machine.old.meter }
{
    let Expr::Chain(first, rest) = value else {
        return false;
    };
    let Some(i) = machine.locals.place(name.as_str()) else {
        return false;
    };
    let mut left = machine.meter;
    let locals = &machine.locals;
    let mut number = 0;
    if !chain_number(
        DEEPEST,
        locals,
        &mut left,
        first.get(),
        rest.as_slice(),
        &mut number,
    ) {
        return false;
    }
    set_local(&mut machine.locals, i, Data::Number(number));
    machine.meter = left;
    true
}
