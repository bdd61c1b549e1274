//! State variables, each with what it holds at first.
ghost use Rattle.std.specs.Prelude.{[], ◌∷◌, ◌≡◌};
ghost use Rattle.jessie_grammar.specs.Parse.{Gives};
ghost use Rattle.jessie_grammar.specs.Rules as rules;

use crate::build::add_variable;
use jessie_expressions::constant::constant;
use jessie_expressions::jessie_terminals_lib::name_uses::defines;
use jessie_expressions::jessie_terminals_lib::names::declared_name;
use jessie_expressions::jessie_terminals_lib::symbols::expect;
use jessie_grammar::jessie_language::fault::ParseError;
use jessie_grammar::jessie_lexer::token::{Kind, Token};
use jessie_grammar::jessie_scopes::name_use::{Binding, NameUse};
use jessie_grammar::syntax::{Constant, Module};
use sqlite_items::{Boxed, Items};
use std::alloc::Global;

/// How many state variables a module may have.
const MOST_VARIABLES: usize = 64;

/// What stands behind a state variable's name: what it holds at first.
#[tactic(auto, unfolding(jessie_grammar::specs::Rules::constant_value))]
fn constant_value<'a>(
    alloc: Global,
    tokens: &'a [Token],
    room: u32,
    name_uses: &mut Items<NameUse>,
) -> Result<(Boxed<Constant>, &'a [Token]), ParseError>
    ensures { Gives (λ x. ((x.0, name_uses.new), x.1.now)) result
        (rules.constant_value (rules.constant room) name_uses.old tokens.now) }
{
    let rest = expect(tokens, Kind::Equals)?;
    let (value, rest) = constant(alloc, rest, room, name_uses)?;
    let rest = expect(rest, Kind::Semicolon)?;
    Ok((value, rest))
}

/// A state variable of the module, after those that it has. The name of one too many is refused.
#[tactic(auto, unfolding(jessie_grammar::specs::Rules::variable))]
pub fn variable<'a>(
    alloc: Global,
    tokens: &'a [Token],
    room: u32,
    tree: &mut Module,
    name_uses: &mut Items<NameUse>,
) -> Result<&'a [Token], ParseError>
    ensures { Gives (λ rest. ((tree.new, name_uses.new), rest.now)) result
        (rules.variable room (tree.old, name_uses.old) tokens.now) }
{
    let rest = expect(tokens, Kind::Let)?;
    let (name, rest) = declared_name(rest, tree.variables.len() < MOST_VARIABLES)?;
    defines(alloc, name, Binding::Variable, name_uses)?;
    let (value, rest) = constant_value(alloc, rest, room, name_uses)?;
    add_variable(alloc, name, value, tree)?;
    Ok(rest)
}
