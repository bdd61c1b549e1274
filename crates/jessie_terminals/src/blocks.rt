//! Statements put behind those of a block, and branches behind those of an `if` that may go on.
ghost use Rattle.std.specs.Prelude.{◌≡◌, [], ◌∷◌, ◌++◌, OnOk};
ghost use Rattle.jessie_grammar.specs.Words as words;

use jessie_grammar::syntax::{Branch, Expr, Stmt};
use sqlite_items::{Boxed, Items};
use std::alloc::{AllocError, Global};
use std::mem::replace;

/// One statement more.
pub fn add_statement(statement: Boxed<Stmt>, found: &mut Items<Stmt>) -> Result<(), AllocError>
    ensures { OnOk result (found.new ≡ found.old ++ statement ∷ []) }
{
    found.push(statement.into_inner())
}

/// One branch more: a condition with its block.
pub fn add_branch(
    condition: Boxed<Expr>,
    body: Items<Stmt>,
    branches: &mut Items<Branch>,
) -> Result<(), AllocError>
    ensures { OnOk result (branches.new
        ≡ branches.old ++ (record { condition = condition; body = body }) ∷ []) }
{
    branches.push(Branch {
        condition: condition.into_inner(),
        body,
    })
}

/// The branches so far and their last block are one statement more, and no `if` may go on.
pub fn end_if(
    alloc: Global,
    last: Items<Stmt>,
    branches: &mut Items<Branch>,
    found: &mut Items<Stmt>,
) -> Result<(), AllocError>
    ensures found { OnOk result (found.new ≡ found.old ++ Stmt.If branches.old last ∷ []) }
    ensures branches { branches.new ≡ [] }
{
    let branches = replace(branches, Items::new(alloc));
    found.push(Stmt::If(branches, last))
}

/// The branches so far, if there are any, are one statement more, without a last block, and no `if` may
/// go on.
pub fn close_if(
    alloc: Global,
    branches: &mut Items<Branch>,
    found: &mut Items<Stmt>,
) -> Result<(), AllocError>
    ensures found { OnOk result (found.new ≡ found.old ++ words.closing branches.old) }
    ensures branches { branches.new ≡ [] }
{
    if branches.is_empty() {
        return Ok(());
    }
    end_if(alloc, Items::new(alloc), branches, found)
}
