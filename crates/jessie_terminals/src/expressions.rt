//! Expressions made of their parts.
ghost use Rattle.std.specs.Prelude.{◌≡◌, [], ◌∷◌, ◌++◌, IfOk, OnOk};
ghost use Rattle.std.specs.Str.{bytes_eq};
ghost use Rattle.jessie_grammar.specs.Words as words;

use jessie_grammar::host_text_lib::text::Text;
use jessie_grammar::jessie_lexer::token::Token;
use jessie_grammar::syntax::{Access, BuiltIn, Expr, Literal, Operator, Unary};
use sqlite_items::{Boxed, Items};
use std::alloc::{AllocError, Global};

pub fn literal_expression(alloc: Global, literal: Literal) -> Result<Boxed<Expr>, AllocError>
    ensures { IfOk result (λ tree. tree ≡ Expr.Literal literal) }
{
    Boxed::new(alloc, Expr::Literal(literal))
}

/// A name that is read.
pub fn name_expression(alloc: Global, name: &Token) -> Result<Boxed<Expr>, AllocError>
    ensures { IfOk result (λ tree. tree ≡ Expr.Name name.now.text) }
{
    let name = name.text.copy(alloc)?;
    Boxed::new(alloc, Expr::Name(name))
}

fn is(name: &str, word: &str) -> bool
    ensures { result ≡ bytes_eq name.now word.now }
{
    name == word
}

/// The function of the language that has the name.
fn built_in(name: &str) -> Option<BuiltIn>
    ensures { result ≡ words.built_in name.now }
{
    if is(name, "when") {
        return Some(BuiltIn::When);
    }
    if is(name, "Far") {
        return Some(BuiltIn::Far);
    }
    if is(name, "harden") {
        return Some(BuiltIn::Harden);
    }
    if is(name, "keys") {
        return Some(BuiltIn::Keys);
    }
    if is(name, "len") {
        return Some(BuiltIn::Len);
    }
    if is(name, "push") {
        return Some(BuiltIn::Push);
    }
    if is(name, "put") {
        return Some(BuiltIn::Put);
    }
    None
}

/// A call of a function of the module or of the language.
pub fn call_expression(
    alloc: Global,
    name: &Token,
    arguments: Items<Expr>,
) -> Result<Boxed<Expr>, AllocError>
    ensures { IfOk result (λ tree.
        tree ≡ words.called (words.built_in name.now.text) name.now.text arguments) }
{
    match built_in(name.text.as_str()) {
        Some(function) => Boxed::new(alloc, Expr::BuiltIn(function, arguments)),
        None => {
            let name = name.text.copy(alloc)?;
            Boxed::new(alloc, Expr::Call(name, arguments))
        }
    }
}

/// `E(target).method(arguments)`
pub fn send_expression(
    alloc: Global,
    target: Boxed<Expr>,
    method: &Token,
    arguments: Items<Expr>,
) -> Result<Boxed<Expr>, AllocError>
    ensures { IfOk result (λ tree. tree ≡ Expr.Send target method.now.text arguments) }
{
    let method = method.text.copy(alloc)?;
    Boxed::new(alloc, Expr::Send(target, method, arguments))
}

/// `AmountMath.method(arguments)`
pub fn amount_expression(
    alloc: Global,
    method: &Token,
    arguments: Items<Expr>,
) -> Result<Boxed<Expr>, AllocError>
    ensures { IfOk result (λ tree. tree ≡ Expr.AmountMath method.now.text arguments) }
{
    let method = method.text.copy(alloc)?;
    Boxed::new(alloc, Expr::AmountMath(method, arguments))
}

pub fn array_expression(alloc: Global, items: Items<Expr>) -> Result<Boxed<Expr>, AllocError>
    ensures { IfOk result (λ tree. tree ≡ Expr.Array items) }
{
    Boxed::new(alloc, Expr::Array(items))
}

pub fn record_expression(
    alloc: Global,
    fields: Items<(Text, Expr)>,
) -> Result<Boxed<Expr>, AllocError>
    ensures { IfOk result (λ tree. tree ≡ Expr.Record fields) }
{
    Boxed::new(alloc, Expr::Record(fields))
}

pub fn unary_expression(
    alloc: Global,
    operator: Unary,
    operand: Boxed<Expr>,
) -> Result<Boxed<Expr>, AllocError>
    ensures { IfOk result (λ tree. tree ≡ Expr.Unary operator operand) }
{
    Boxed::new(alloc, Expr::Unary(operator, operand))
}

pub fn choice_expression(
    alloc: Global,
    condition: Boxed<Expr>,
    first: Boxed<Expr>,
    second: Boxed<Expr>,
) -> Result<Boxed<Expr>, AllocError>
    ensures { IfOk result (λ tree. tree ≡ Expr.Choice condition first second) }
{
    Boxed::new(alloc, Expr::Choice(condition, first, second))
}

/// The expression with the accesses behind it, if there are any.
pub fn with_accesses(
    alloc: Global,
    first: Boxed<Expr>,
    steps: Items<Access>,
) -> Result<Boxed<Expr>, AllocError>
    ensures { IfOk result (λ tree. tree ≡ words.with_accesses first steps) }
{
    if steps.is_empty() {
        return Ok(first);
    }
    Boxed::new(alloc, Expr::Accesses(first, steps))
}

/// The operand with the operators behind it, if there are any.
pub fn with_operands(
    alloc: Global,
    first: Boxed<Expr>,
    operands: Items<(Operator, Expr)>,
) -> Result<Boxed<Expr>, AllocError>
    ensures { IfOk result (λ tree. tree ≡ words.with_operands first operands) }
{
    if operands.is_empty() {
        return Ok(first);
    }
    Boxed::new(alloc, Expr::Chain(first, operands))
}

/// One expression more of a list.
pub fn add_expression(item: Boxed<Expr>, found: &mut Items<Expr>) -> Result<(), AllocError>
    ensures { OnOk result (found.new ≡ found.old ++ item ∷ []) }
{
    found.push(item.into_inner())
}

/// One field more, with an expression of its own.
pub fn add_field(
    alloc: Global,
    name: &Token,
    value: Boxed<Expr>,
    found: &mut Items<(Text, Expr)>,
) -> Result<(), AllocError>
    ensures { OnOk result (found.new ≡ found.old ++ (name.now.text, value) ∷ []) }
{
    let name = name.text.copy(alloc)?;
    found.push((name, value.into_inner()))
}

/// One operator more, with the operand behind it.
pub fn add_operand(
    operator: Operator,
    operand: Boxed<Expr>,
    found: &mut Items<(Operator, Expr)>,
) -> Result<(), AllocError>
    ensures { OnOk result (found.new ≡ found.old ++ (operator, operand) ∷ []) }
{
    found.push((operator, operand.into_inner()))
}

/// One access more: a field's name.
pub fn add_field_access(
    alloc: Global,
    name: &Token,
    found: &mut Items<Access>,
) -> Result<(), AllocError>
    ensures { OnOk result (found.new ≡ found.old ++ Access.Field name.now.text ∷ []) }
{
    let name = name.text.copy(alloc)?;
    found.push(Access::Field(name))
}

/// One access more: a call of a method.
pub fn add_method_access(
    alloc: Global,
    name: &Token,
    arguments: Items<Expr>,
    found: &mut Items<Access>,
) -> Result<(), AllocError>
    ensures { OnOk result (found.new ≡ found.old ++ Access.Method name.now.text arguments ∷ []) }
{
    let name = name.text.copy(alloc)?;
    found.push(Access::Method(name, arguments))
}

/// One access more: an index.
pub fn add_index_access(index: Boxed<Expr>, found: &mut Items<Access>) -> Result<(), AllocError>
    ensures { OnOk result (found.new ≡ found.old ++ Access.Index index ∷ []) }
{
    found.push(Access::Index(index.into_inner()))
}
