//! The names and parameters of functions, and what is made of a function that was read.
ghost use Rattle.std.specs.Prelude.{[], ◌∷◌, ◌≡◌, OnOk};
ghost use Rattle.jessie_grammar.specs.Parse.{Gives, loop as looping, bracketed};
ghost use Rattle.jessie_grammar.specs.Rules as rules;
ghost use Rattle.jessie_grammar.specs.Words as words;

use crate::build::{add_function, add_param};
use jessie_expressions::jessie_terminals_lib::kinds::{is, is_word};
use jessie_expressions::jessie_terminals_lib::name_uses::{binds, declares, defines};
use jessie_expressions::jessie_terminals_lib::names::declared_name;
use jessie_expressions::jessie_terminals_lib::symbols::{expect, open};
use jessie_grammar::host_text_lib::text::Text;
use jessie_grammar::jessie_language::fault::ParseError;
use jessie_grammar::jessie_lexer::token::{Kind, Token, peek};
use jessie_grammar::jessie_scopes::name_use::{Binding, NameUse};
use jessie_grammar::syntax::{Module, Stmt};
use sqlite_items::Items;
use std::alloc::{AllocError, Global};

/// How many functions a module may have.
const MOST_FUNCTIONS: usize = 256;

/// How many parameters a function may have.
const MOST_PARAMS: usize = 8;

/// A parameter, after `count` others.
#[tactic(auto, unfolding(jessie_grammar::specs::Rules::param))]
fn param<'a>(
    alloc: Global,
    tokens: &'a [Token],
    count: usize,
    name_uses: &mut Items<NameUse>,
) -> Result<(&'a Token, &'a [Token]), ParseError>
    ensures { Gives (λ x. ((x.0.now.text, name_uses.new), x.1.now)) result
        (rules.param count name_uses.old tokens.now) }
{
    let (name, rest) = declared_name(tokens, count < MOST_PARAMS)?;
    declares(alloc, name, name_uses)?;
    binds(alloc, name, Binding::Variable, name_uses)?;
    Ok((name, rest))
}

/// A comma, and the parameter behind it.
#[tactic(auto, unfolding(jessie_grammar::specs::Rules::next_param))]
fn next_param<'a>(
    alloc: Global,
    tokens: &'a [Token],
    found: &mut Items<Text>,
    name_uses: &mut Items<NameUse>,
) -> Result<&'a [Token], ParseError>
    ensures { Gives (λ rest. ((found.new, name_uses.new), rest.now)) result
        (rules.next_param (found.old, name_uses.old) tokens.now) }
{
    let rest = expect(tokens, Kind::Comma)?;
    let (name, rest) = param(alloc, rest, found.len(), name_uses)?;
    add_param(alloc, name, found)?;
    Ok(rest)
}

/// The parameters after the first one.
fn more_params<'a>(
    alloc: Global,
    tokens: &'a [Token],
    found: &mut Items<Text>,
    name_uses: &mut Items<NameUse>,
) -> Result<&'a [Token], ParseError>
    ensures { Gives (λ rest. ((found.new, name_uses.new), rest.now)) result
        (looping words.always (Kind.Comma ∷ []) rules.next_param (found.old, name_uses.old)
        tokens.now) }
{
    let mut rest = tokens;
    'params: while is(rest, Kind::Comma) {
        let after = next_param(alloc, rest, found, name_uses)?;
        rest = after;
    }
    Ok(rest)
}

#[tactic(auto, unfolding(jessie_grammar::specs::Rules::params))]
fn params<'a>(
    alloc: Global,
    tokens: &'a [Token],
    name_uses: &mut Items<NameUse>,
) -> Result<(Items<Text>, &'a [Token]), ParseError>
    ensures { Gives (λ x. ((x.0, name_uses.new), x.1.now)) result
        (rules.params name_uses.old tokens.now) }
{
    let mut found = Items::new(alloc);
    if !is_word(peek(tokens)) {
        return Ok((found, tokens));
    }
    let (first, rest) = param(alloc, tokens, 0, name_uses)?;
    add_param(alloc, first, &mut found)?;
    let rest = more_params(alloc, rest, &mut found, name_uses)?;
    Ok((found, rest))
}

/// The parameters of a function in their brackets, where `room` more may be open.
#[tactic(auto, unfolding(jessie_grammar::specs::Parse::bracketed))]
pub fn bracketed_params<'a>(
    alloc: Global,
    tokens: &'a [Token],
    room: u32,
    name_uses: &mut Items<NameUse>,
) -> Result<(Items<Text>, &'a [Token]), ParseError>
    ensures { Gives (λ x. ((x.0, name_uses.new), x.1.now)) result
        (bracketed room Kind.LeftParen Kind.RightParen (rules.params name_uses.old) tokens.now) }
{
    let rest = open(tokens, room, Kind::LeftParen)?;
    let (found, rest) = params(alloc, rest, name_uses)?;
    let rest = expect(rest, Kind::RightParen)?;
    Ok((found, rest))
}

#[tactic(auto, unfolding(jessie_grammar::specs::Rules::exported))]
fn export_mark(tokens: &[Token]) -> Result<&[Token], ParseError>
    ensures { Gives (λ rest. (tt, rest.now)) result (rules.exported tokens.now) }
{
    if is(tokens, Kind::Export) {
        return expect(tokens, Kind::Export);
    }
    Ok(tokens)
}

/// What stands before a function's parameters: its name. There are `count` functions before it, and the
/// name of one too many is refused.
#[tactic(auto, unfolding(jessie_grammar::specs::Rules::heading))]
pub fn heading(tokens: &[Token], count: usize) -> Result<(&Token, &[Token]), ParseError>
    ensures { Gives (λ x. (words.spotted x.0.now, x.1.now)) result
        (rules.heading count tokens.now) }
{
    let rest = export_mark(tokens)?;
    let rest = expect(rest, Kind::Const)?;
    let (name, rest) = declared_name(rest, count < MOST_FUNCTIONS)?;
    let rest = expect(rest, Kind::Equals)?;
    Ok((name, rest))
}

/// A function of that name begins: its parameters stand outside of its block.
pub fn begin_function(
    alloc: Global,
    name: &Token,
    name_uses: &mut Items<NameUse>,
) -> Result<(), AllocError>
    ensures { OnOk result (let x = words.spotted name.now in
        name_uses.new ≡ words.also (words.defined Binding.Function name_uses.old x) NameUse.Opens) }
{
    defines(alloc, name, Binding::Function, name_uses)?;
    name_uses.push(NameUse::Opens)
}

/// A function ends, and is one more of the module.
pub fn end_function(
    alloc: Global,
    name: &Token,
    params: Items<Text>,
    body: Items<Stmt>,
    tree: &mut Module,
    name_uses: &mut Items<NameUse>,
) -> Result<(), AllocError>
    ensures { OnOk result (let x = words.spotted name.now in
        (tree.new, name_uses.new) ≡ words.add_function tree.old
        (words.function_of x.1 params (body, name_uses.old))) }
{
    add_function(alloc, name, params, body, tree)?;
    name_uses.push(NameUse::Closes)
}
