//! What stands in the brackets of `for` and `catch`, and what these do with names.
ghost use Rattle.std.specs.Prelude.{[], ◌∷◌, ◌≡◌, ◌<◌, IfOk, OnOk};
ghost use Rattle.jessie_grammar.specs.Parse.{Gives, bracketed};
ghost use Rattle.jessie_grammar.specs.Rules as rules;
ghost use Rattle.jessie_grammar.specs.Words as words;

use jessie_expressions::expression::expression;
use jessie_expressions::jessie_terminals_lib::name_uses::{binds, declares};
use jessie_expressions::jessie_terminals_lib::names::name;
use jessie_expressions::jessie_terminals_lib::statements::for_statement;
use jessie_expressions::jessie_terminals_lib::symbols::{expect, open};
use jessie_grammar::jessie_language::fault::ParseError;
use jessie_grammar::jessie_lexer::token::{Kind, Token};
use jessie_grammar::jessie_scopes::name_use::{Binding, NameUse};
use jessie_grammar::syntax::{Expr, Stmt};
use sqlite_items::{Boxed, Items};
use std::alloc::{AllocError, Global};

/// A name is declared outside of the block that follows.
fn begin(alloc: Global, key: &Token, name_uses: &mut Items<NameUse>) -> Result<(), AllocError>
    ensures { OnOk result (name_uses.new ≡ words.also (words.also name_uses.old NameUse.Opens)
        (NameUse.Declares key.now.at key.now.text)) }
{
    name_uses.push(NameUse::Opens)?;
    declares(alloc, key, name_uses)
}

/// The name that a `for` walks with, and what it walks over.
#[tactic(auto, using(jessie_grammar::proofs::Reading::inner_is), unfolding(jessie_grammar::specs::Rules::each))]
fn each<'a>(
    alloc: Global,
    tokens: &'a [Token],
    room: u32,
    name_uses: &mut Items<NameUse>,
) -> Result<((&'a Token, Boxed<Expr>), &'a [Token]), ParseError>
    requires { 0 < room }
    ensures { Gives (λ x. (((x.0.0.now.text, x.0.1), name_uses.new), x.1.now)) result
        (rules.each (rules.inner room) name_uses.old tokens.now) }
{
    let rest = expect(tokens, Kind::Const)?;
    let (key, rest) = name(rest)?;
    let rest = expect(rest, Kind::Of)?;
    begin(alloc, key, name_uses)?;
    let (values, rest) = expression(alloc, rest, room - 1, name_uses)?;
    binds(alloc, key, Binding::Constant, name_uses)?;
    Ok(((key, values), rest))
}

/// What stands in the brackets of a `for`.
#[tactic(auto, unfolding(jessie_grammar::specs::Parse::bracketed))]
pub fn header<'a>(
    alloc: Global,
    tokens: &'a [Token],
    room: u32,
    name_uses: &mut Items<NameUse>,
) -> Result<((&'a Token, Boxed<Expr>), &'a [Token]), ParseError>
    ensures { Gives (λ x. (((x.0.0.now.text, x.0.1), name_uses.new), x.1.now)) result
        (bracketed room Kind.LeftParen Kind.RightParen (rules.each (rules.inner room) name_uses.old)
        tokens.now) }
{
    let rest = open(tokens, room, Kind::LeftParen)?;
    let (found, rest) = each(alloc, rest, room, name_uses)?;
    let rest = expect(rest, Kind::RightParen)?;
    Ok((found, rest))
}

/// A `for` whose block has ended, and its name with it.
pub fn end_for(
    alloc: Global,
    key: &Token,
    values: Boxed<Expr>,
    body: Items<Stmt>,
    name_uses: &mut Items<NameUse>,
) -> Result<Boxed<Stmt>, AllocError>
    ensures { IfOk result (λ tree. (tree, name_uses.new)
        ≡ words.for_of (key.now.text, values) (body, name_uses.old)) }
{
    let tree = for_statement(alloc, key, values, body)?;
    name_uses.push(NameUse::Closes)?;
    Ok(tree)
}

/// What stands in the brackets of a `catch`.
#[tactic(auto, unfolding(jessie_grammar::specs::Parse::bracketed))]
pub fn caught_name(tokens: &[Token], room: u32) -> Result<(&Token, &[Token]), ParseError>
    ensures { Gives (λ x. (words.spotted x.0.now, x.1.now)) result
        (bracketed room Kind.LeftParen Kind.RightParen rules.name tokens.now) }
{
    let rest = open(tokens, room, Kind::LeftParen)?;
    let (key, rest) = name(rest)?;
    let rest = expect(rest, Kind::RightParen)?;
    Ok((key, rest))
}

/// What was caught has a name in the block that follows.
pub fn begin_handler(
    alloc: Global,
    key: &Token,
    name_uses: &mut Items<NameUse>,
) -> Result<(), AllocError>
    ensures { OnOk result (name_uses.new ≡ words.caught name_uses.old (words.spotted key.now)) }
{
    begin(alloc, key, name_uses)?;
    binds(alloc, key, Binding::Variable, name_uses)
}
