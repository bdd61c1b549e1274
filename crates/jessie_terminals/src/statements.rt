//! Statements made of their parts.
ghost use Rattle.std.specs.Prelude.{◌≡◌, None, Some, IfOk};
ghost use Rattle.jessie_grammar.specs.Words as words;

use jessie_grammar::jessie_lexer::token::Token;
use jessie_grammar::jessie_scopes::name_use::Binding;
use jessie_grammar::syntax::{Expr, Stmt};
use sqlite_items::{Boxed, Items};
use std::alloc::{AllocError, Global};

/// `const name = value;`
fn const_statement(
    alloc: Global,
    name: &Token,
    value: Boxed<Expr>,
) -> Result<Boxed<Stmt>, AllocError>
    ensures { IfOk result (λ tree. tree ≡ Stmt.Const name.now.text value) }
{
    let name = name.text.copy(alloc)?;
    Boxed::new(alloc, Stmt::Const(name, value.into_inner()))
}

/// `let name = value;`
fn let_statement(alloc: Global, name: &Token, value: Boxed<Expr>) -> Result<Boxed<Stmt>, AllocError>
    ensures { IfOk result (λ tree. tree ≡ Stmt.Let name.now.text value) }
{
    let name = name.text.copy(alloc)?;
    Boxed::new(alloc, Stmt::Let(name, value.into_inner()))
}

/// A declaration: by `let` where its name may be assigned.
pub fn declaration_statement(
    alloc: Global,
    binding: Binding,
    name: &Token,
    value: Boxed<Expr>,
) -> Result<Boxed<Stmt>, AllocError>
    ensures { IfOk result (λ tree. tree ≡ words.declaring binding name.now.text value) }
{
    match binding {
        Binding::Variable => let_statement(alloc, name, value),
        Binding::Constant => const_statement(alloc, name, value),
        Binding::Function => const_statement(alloc, name, value),
    }
}

/// `name = value;`
pub fn assign_statement(
    alloc: Global,
    name: &Token,
    value: Boxed<Expr>,
) -> Result<Boxed<Stmt>, AllocError>
    ensures { IfOk result (λ tree. tree ≡ Stmt.Assign name.now.text value) }
{
    let name = name.text.copy(alloc)?;
    Boxed::new(alloc, Stmt::Assign(name, value.into_inner()))
}

/// `value;`
pub fn run_statement(alloc: Global, value: Boxed<Expr>) -> Result<Boxed<Stmt>, AllocError>
    ensures { IfOk result (λ tree. tree ≡ Stmt.Run value) }
{
    Boxed::new(alloc, Stmt::Run(value.into_inner()))
}

/// `return value;`
pub fn return_statement(alloc: Global, value: Boxed<Expr>) -> Result<Boxed<Stmt>, AllocError>
    ensures { IfOk result (λ tree. tree ≡ Stmt.Return (Some value)) }
{
    Boxed::new(alloc, Stmt::Return(Some(value.into_inner())))
}

/// `return;`
pub fn empty_return(alloc: Global) -> Result<Boxed<Stmt>, AllocError>
    ensures { IfOk result (λ tree. tree ≡ Stmt.Return None) }
{
    Boxed::new(alloc, Stmt::Return(None))
}

/// `throw value;`
pub fn throw_statement(alloc: Global, value: Boxed<Expr>) -> Result<Boxed<Stmt>, AllocError>
    ensures { IfOk result (λ tree. tree ≡ Stmt.Throw value) }
{
    Boxed::new(alloc, Stmt::Throw(value.into_inner()))
}

/// `while (condition) body`
pub fn while_statement(
    alloc: Global,
    condition: Boxed<Expr>,
    body: Items<Stmt>,
) -> Result<Boxed<Stmt>, AllocError>
    ensures { IfOk result (λ tree. tree ≡ Stmt.While condition body) }
{
    Boxed::new(alloc, Stmt::While(condition.into_inner(), body))
}

/// `for (const name of values) body`
pub fn for_statement(
    alloc: Global,
    name: &Token,
    values: Boxed<Expr>,
    body: Items<Stmt>,
) -> Result<Boxed<Stmt>, AllocError>
    ensures { IfOk result (λ tree. tree ≡ Stmt.ForOf name.now.text values body) }
{
    let name = name.text.copy(alloc)?;
    Boxed::new(alloc, Stmt::ForOf(name, values.into_inner(), body))
}

/// `try body catch (name) handler`
pub fn try_statement(
    alloc: Global,
    body: Items<Stmt>,
    name: &Token,
    handler: Items<Stmt>,
) -> Result<Boxed<Stmt>, AllocError>
    ensures { IfOk result (λ tree. tree ≡ Stmt.Try body name.now.text handler) }
{
    let name = name.text.copy(alloc)?;
    Boxed::new(alloc, Stmt::Try(body, name, handler))
}
