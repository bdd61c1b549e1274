//! Parameters, state variables and functions put behind those that were found.
ghost use Rattle.std.specs.Prelude.{◌≡◌, [], ◌∷◌, ◌++◌, OnOk};

use jessie_grammar::host_text_lib::text::Text;
use jessie_grammar::jessie_lexer::token::Token;
use jessie_grammar::syntax::{Constant, Function, Module, Stmt, Variable};
use sqlite_items::{Boxed, Items};
use std::alloc::{AllocError, Global};

/// One parameter more.
pub fn add_param(alloc: Global, name: &Token, found: &mut Items<Text>) -> Result<(), AllocError>
    ensures { OnOk result (found.new ≡ found.old ++ name.now.text ∷ []) }
{
    let name = name.text.copy(alloc)?;
    found.push(name)
}

/// One state variable more.
pub fn add_variable(
    alloc: Global,
    name: &Token,
    initial: Boxed<Constant>,
    tree: &mut Module,
) -> Result<(), AllocError>
    ensures { OnOk result (tree.new ≡ record tree.old {
      variables = tree.old.variables
          ++ (record { name = name.now.text; initial = initial }) ∷ [];
    }) }
{
    let name = name.text.copy(alloc)?;
    tree.variables.push(Variable {
        name,
        initial: initial.into_inner(),
    })
}

/// One function more.
pub fn add_function(
    alloc: Global,
    name: &Token,
    params: Items<Text>,
    body: Items<Stmt>,
    tree: &mut Module,
) -> Result<(), AllocError>
    ensures { OnOk result (tree.new ≡ record tree.old {
      functions = tree.old.functions
          ++ (record { name = name.now.text; params = params; body = body }) ∷ [];
    }) }
{
    let name = name.text.copy(alloc)?;
    tree.functions.push(Function { name, params, body })
}
