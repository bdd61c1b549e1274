//! Blocks, statement by statement and branch by branch: each function gives what it read, or puts
//! it behind what was found, and the tokens after it.
ghost use Rattle.std.specs.Prelude.{[], ◌∷◌, ◌≡◌};
ghost use Rattle.jessie_grammar.specs.Parse.{Gives, loop as turning};
ghost use Rattle.jessie_grammar.specs.StatementList.{names_after};
ghost use Rattle.jessie_grammar.specs.Rules as rules;
ghost use Rattle.jessie_grammar.specs.Words as words;

use crate::headers::{begin_handler, caught_name, end_for, header};
use crate::simple::{bare_run, declaration, led_statement, return_form, throw_form};
use jessie_expressions::expression::group;
use jessie_expressions::jessie_terminals_lib::blocks::{
    add_branch, add_statement, close_if, end_if,
};
use jessie_expressions::jessie_terminals_lib::kinds::{begins_statement, is, is_leading_word};
use jessie_expressions::jessie_terminals_lib::statements::{try_statement, while_statement};
use jessie_expressions::jessie_terminals_lib::symbols::{expect, open};
use jessie_grammar::jessie_language::fault::ParseError;
use jessie_grammar::jessie_lexer::token::{Kind, Token, peek};
use jessie_grammar::jessie_scopes::name_use::NameUse;
use jessie_grammar::syntax::{Branch, Expr, Stmt};
use sqlite_items::{Boxed, Items};
use std::alloc::Global;

/// A condition in brackets with its block.
#[cycle(block)]
#[tactic(auto, unfolding(jessie_grammar::specs::Rules::arm))]
fn arm<'a>(
    alloc: Global,
    tokens: &'a [Token],
    room: u32,
    name_uses: &mut Items<NameUse>,
) -> Result<((Boxed<Expr>, Items<Stmt>), &'a [Token]), ParseError>
    ensures { Gives (λ x. (words.branch_of x.0.0 (x.0.1, name_uses.new), x.1.now)) result
        (rules.arm room (rules.inner room) (rules.block room) name_uses.old tokens.now) }
{
    let (condition, rest) = group(
        alloc,
        tokens,
        room,
        Kind::LeftParen,
        Kind::RightParen,
        name_uses,
    )?;
    let (body, rest) = block(alloc, rest, room, name_uses)?;
    Ok(((condition, body), rest))
}

/// `while (condition) body`
#[cycle(block)]
#[tactic(auto, unfolding(jessie_grammar::specs::Rules::looping))]
fn while_loop<'a>(
    alloc: Global,
    tokens: &'a [Token],
    room: u32,
    name_uses: &mut Items<NameUse>,
) -> Result<(Boxed<Stmt>, &'a [Token]), ParseError>
    ensures { Gives (λ x. ((x.0, name_uses.new), x.1.now)) result
        (rules.looping room (rules.inner room) (rules.block room) name_uses.old tokens.now) }
{
    let rest = expect(tokens, Kind::While)?;
    let ((condition, body), rest) = arm(alloc, rest, room, name_uses)?;
    Ok((while_statement(alloc, condition, body)?, rest))
}

/// `for (const name of values) body`
#[cycle(block)]
#[tactic(auto, unfolding(jessie_grammar::specs::Rules::walking))]
fn for_loop<'a>(
    alloc: Global,
    tokens: &'a [Token],
    room: u32,
    name_uses: &mut Items<NameUse>,
) -> Result<(Boxed<Stmt>, &'a [Token]), ParseError>
    ensures { Gives (λ x. ((x.0, name_uses.new), x.1.now)) result
        (rules.walking room (rules.inner room) (rules.block room) name_uses.old tokens.now) }
{
    let rest = expect(tokens, Kind::For)?;
    let ((key, values), rest) = header(alloc, rest, room, name_uses)?;
    let (body, rest) = block(alloc, rest, room, name_uses)?;
    Ok((end_for(alloc, key, values, body, name_uses)?, rest))
}

/// `catch (name) handler`
#[cycle(block)]
#[tactic(auto, unfolding(jessie_grammar::specs::Rules::catching))]
fn catch_clause<'a>(
    alloc: Global,
    tokens: &'a [Token],
    room: u32,
    name_uses: &mut Items<NameUse>,
) -> Result<((&'a Token, Items<Stmt>), &'a [Token]), ParseError>
    ensures { Gives (λ x. (((x.0.0.now.text, x.0.1), name_uses.new), x.1.now)) result
        (rules.catching room (rules.block room) name_uses.old tokens.now) }
{
    let rest = expect(tokens, Kind::Catch)?;
    let (key, rest) = caught_name(rest, room)?;
    begin_handler(alloc, key, name_uses)?;
    let (handler, rest) = block(alloc, rest, room, name_uses)?;
    name_uses.push(NameUse::Closes)?;
    Ok(((key, handler), rest))
}

/// `try body catch (name) handler`
#[cycle(block)]
#[tactic(auto, unfolding(jessie_grammar::specs::Rules::trying))]
fn try_and_catch<'a>(
    alloc: Global,
    tokens: &'a [Token],
    room: u32,
    name_uses: &mut Items<NameUse>,
) -> Result<(Boxed<Stmt>, &'a [Token]), ParseError>
    ensures { Gives (λ x. ((x.0, name_uses.new), x.1.now)) result
        (rules.trying room (rules.block room) name_uses.old tokens.now) }
{
    let rest = expect(tokens, Kind::Try)?;
    let (body, rest) = block(alloc, rest, room, name_uses)?;
    let ((key, handler), rest) = catch_clause(alloc, rest, room, name_uses)?;
    Ok((try_statement(alloc, body, key, handler)?, rest))
}

/// A statement that begins with no name, and is no `if`.
#[cycle(block)]
#[tactic(auto, unfolding(jessie_grammar::specs::Rules::nameless))]
fn nameless<'a>(
    alloc: Global,
    tokens: &'a [Token],
    room: u32,
    name_uses: &mut Items<NameUse>,
) -> Result<(Boxed<Stmt>, &'a [Token]), ParseError>
    ensures { Gives (λ x. ((x.0, name_uses.new), x.1.now)) result
        (rules.nameless room (rules.inner room) (rules.block room) name_uses.old tokens.now) }
{
    if is(tokens, Kind::Const) || is(tokens, Kind::Let) {
        return declaration(alloc, tokens, room, name_uses);
    }
    if is(tokens, Kind::While) {
        return while_loop(alloc, tokens, room, name_uses);
    }
    if is(tokens, Kind::For) {
        return for_loop(alloc, tokens, room, name_uses);
    }
    if is(tokens, Kind::Return) {
        return return_form(alloc, tokens, room, name_uses);
    }
    if is(tokens, Kind::Throw) {
        return throw_form(alloc, tokens, room, name_uses);
    }
    if is(tokens, Kind::Try) {
        return try_and_catch(alloc, tokens, room, name_uses);
    }
    bare_run(alloc, tokens, room, name_uses)
}

/// A statement that is no `if`, and may stand after one that may go on.
#[cycle(block)]
#[tactic(auto, unfolding(jessie_grammar::specs::Rules::simple))]
fn simple<'a>(
    alloc: Global,
    tokens: &'a [Token],
    room: u32,
    after_if: bool,
    name_uses: &mut Items<NameUse>,
) -> Result<(Boxed<Stmt>, &'a [Token]), ParseError>
    ensures { Gives (λ x. ((x.0, name_uses.new), x.1.now)) result
        (rules.simple room (rules.inner room) (rules.block room) (names_after after_if)
        name_uses.old tokens.now) }
{
    if is_leading_word(peek(tokens), after_if) {
        return led_statement(alloc, tokens, room, after_if, name_uses);
    }
    nameless(alloc, tokens, room, name_uses)
}

/// A statement, or the first branch of an `if`, which may go on.
#[cycle(block)]
#[tactic(auto, unfolding(jessie_grammar::specs::Rules::begun))]
fn statement_or_branch<'a>(
    alloc: Global,
    tokens: &'a [Token],
    room: u32,
    after_if: bool,
    found: &mut Items<Stmt>,
    branches: &mut Items<Branch>,
    name_uses: &mut Items<NameUse>,
) -> Result<&'a [Token], ParseError>
    requires { branches.old ≡ [] }
    ensures { Gives (λ rest. ((found.new, (branches.new, name_uses.new)), rest.now)) result
        (rules.begun room (rules.inner room) (rules.block room) (names_after after_if)
        (found.old, name_uses.old) tokens.now) }
{
    if is(tokens, Kind::If) {
        let rest = expect(tokens, Kind::If)?;
        let ((condition, body), rest) = arm(alloc, rest, room, name_uses)?;
        add_branch(condition, body, branches)?;
        return Ok(rest);
    }
    let (statement, rest) = simple(alloc, tokens, room, after_if, name_uses)?;
    add_statement(statement, found)?;
    Ok(rest)
}

/// Another branch of the `if` that may go on, or its last block.
#[cycle(block)]
#[tactic(auto, unfolding(jessie_grammar::specs::Rules::going_on))]
fn else_part<'a>(
    alloc: Global,
    tokens: &'a [Token],
    room: u32,
    found: &mut Items<Stmt>,
    branches: &mut Items<Branch>,
    name_uses: &mut Items<NameUse>,
) -> Result<&'a [Token], ParseError>
    ensures { Gives (λ rest. ((found.new, (branches.new, name_uses.new)), rest.now)) result
        (rules.going_on room (rules.inner room) (rules.block room) found.old
        (branches.old, name_uses.old) tokens.now) }
{
    let rest = expect(tokens, Kind::Else)?;
    if is(rest, Kind::If) {
        let rest = expect(rest, Kind::If)?;
        let ((condition, body), rest) = arm(alloc, rest, room, name_uses)?;
        add_branch(condition, body, branches)?;
        return Ok(rest);
    }
    let (last, rest) = block(alloc, rest, room, name_uses)?;
    end_if(alloc, last, branches, found)?;
    Ok(rest)
}

/// One turn: `else` goes on with an `if` that may go on, and is a name elsewhere.
#[cycle(block)]
#[tactic(auto, using(jessie_grammar::proofs::Reading::turn_none, jessie_grammar::proofs::Reading::turn_some))]
fn turn<'a>(
    alloc: Global,
    tokens: &'a [Token],
    room: u32,
    found: &mut Items<Stmt>,
    branches: &mut Items<Branch>,
    name_uses: &mut Items<NameUse>,
) -> Result<&'a [Token], ParseError>
    ensures { Gives (λ rest. ((found.new, (branches.new, name_uses.new)), rest.now)) result
        (rules.turn room (rules.inner room) (rules.block room) found.old branches.old name_uses.old
        tokens.now) }
{
    if branches.len() == 0 {
        return statement_or_branch(alloc, tokens, room, false, found, branches, name_uses);
    }
    if is(tokens, Kind::Else) {
        return else_part(alloc, tokens, room, found, branches, name_uses);
    }
    close_if(alloc, branches, found)?;
    statement_or_branch(alloc, tokens, room, true, found, branches, name_uses)
}

/// Turn after turn, while a statement begins.
#[cycle(block)]
fn turns<'a>(
    alloc: Global,
    tokens: &'a [Token],
    room: u32,
    found: &mut Items<Stmt>,
    branches: &mut Items<Branch>,
    name_uses: &mut Items<NameUse>,
) -> Result<&'a [Token], ParseError>
    ensures { Gives (λ rest. ((found.new, (branches.new, name_uses.new)), rest.now)) result
        (turning words.always words.statement_begins
        (rules.turn_from room (rules.inner room) (rules.block room))
        (found.old, (branches.old, name_uses.old)) tokens.now) }
{
    let mut rest = tokens;
    'turns: while begins_statement(peek(rest)) {
        let after = turn(alloc, rest, room, found, branches, name_uses)?;
        rest = after;
    }
    Ok(rest)
}

/// What stands in a block's braces.
#[cycle(block)]
#[tactic(auto, using(jessie_grammar::proofs::Reading::body_is), unfolding(jessie_grammar::specs::Rules::statements))]
fn body<'a>(
    alloc: Global,
    tokens: &'a [Token],
    room: u32,
    name_uses: &mut Items<NameUse>,
) -> Result<(Items<Stmt>, &'a [Token]), ParseError>
    ensures { Gives (λ x. ((x.0, name_uses.new), x.1.now)) result
        (rules.body room name_uses.old tokens.now) }
{
    let mut found = Items::new(alloc);
    let mut branches = Items::new(alloc);
    let rest = turns(alloc, tokens, room, &mut found, &mut branches, name_uses)?;
    close_if(alloc, &mut branches, &mut found)?;
    Ok((found, rest))
}

/// A block, where `room` more brackets may be open, its own among them.
#[cycle(block)]
#[tactic(auto, using(jessie_grammar::proofs::Reading::inner_body_is), unfolding(jessie_grammar::specs::Rules::block, jessie_grammar::specs::Rules::braced, jessie_grammar::specs::Parse::bracketed))]
pub fn block<'a>(
    alloc: Global,
    tokens: &'a [Token],
    room: u32,
    name_uses: &mut Items<NameUse>,
) -> Result<(Items<Stmt>, &'a [Token]), ParseError>
    ensures { Gives (λ x. ((x.0, name_uses.new), x.1.now)) result
        (rules.block room name_uses.old tokens.now) }
{
    let rest = open(tokens, room, Kind::LeftBrace)?;
    name_uses.push(NameUse::Opens)?;
    let (found, rest) = body(alloc, rest, room - 1, name_uses)?;
    let rest = expect(rest, Kind::RightBrace)?;
    name_uses.push(NameUse::Closes)?;
    Ok((found, rest))
}
