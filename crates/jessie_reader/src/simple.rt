//! Statements without blocks.
ghost use Rattle.std.specs.Prelude.{[], ◌∷◌, ◌≡◌, IfOk};
ghost use Rattle.jessie_grammar.specs.Parse.{Gives};
ghost use Rattle.jessie_grammar.specs.StatementList.{names_after};
ghost use Rattle.jessie_grammar.specs.Rules as rules;
ghost use Rattle.jessie_grammar.specs.Words as words;

use jessie_expressions::expression::{bare_expression, expression, led_expression};
use jessie_expressions::jessie_terminals_lib::kinds::is;
use jessie_expressions::jessie_terminals_lib::name_uses::{assigns, binds, declares};
use jessie_expressions::jessie_terminals_lib::names::{leading_name, name};
use jessie_expressions::jessie_terminals_lib::statements::{
    assign_statement, declaration_statement, empty_return, return_statement, run_statement,
    throw_statement,
};
use jessie_expressions::jessie_terminals_lib::symbols::{binding, expect};
use jessie_grammar::jessie_language::fault::ParseError;
use jessie_grammar::jessie_lexer::token::{Kind, Token};
use jessie_grammar::jessie_scopes::name_use::{Binding, NameUse};
use jessie_grammar::syntax::{Expr, Stmt};
use sqlite_items::{Boxed, Items};
use std::alloc::{AllocError, Global};

/// What stands behind a name that is declared or assigned.
#[tactic(auto, using(jessie_grammar::proofs::Reading::expr_is), unfolding(jessie_grammar::specs::Rules::initializer))]
fn initializer<'a>(
    alloc: Global,
    tokens: &'a [Token],
    room: u32,
    name_uses: &mut Items<NameUse>,
) -> Result<(Boxed<Expr>, &'a [Token]), ParseError>
    ensures { Gives (λ x. ((x.0, name_uses.new), x.1.now)) result
        (rules.initializer (rules.full room (rules.inner room)) name_uses.old tokens.now) }
{
    let rest = expect(tokens, Kind::Equals)?;
    let (value, rest) = expression(alloc, rest, room, name_uses)?;
    let rest = expect(rest, Kind::Semicolon)?;
    Ok((value, rest))
}

/// The declaration, after which its name is known.
fn end_declaration(
    alloc: Global,
    binding: Binding,
    key: &Token,
    value: Boxed<Expr>,
    name_uses: &mut Items<NameUse>,
) -> Result<Boxed<Stmt>, AllocError>
    ensures { IfOk result (λ tree. (tree, name_uses.new)
        ≡ words.declaration_of binding (words.spotted key.now) (value, name_uses.old)) }
{
    let tree = declaration_statement(alloc, binding, key, value)?;
    binds(alloc, key, binding, name_uses)?;
    Ok(tree)
}

/// A declaration by `const` or `let`.
#[tactic(auto, unfolding(jessie_grammar::specs::Rules::declaration))]
pub fn declaration<'a>(
    alloc: Global,
    tokens: &'a [Token],
    room: u32,
    name_uses: &mut Items<NameUse>,
) -> Result<(Boxed<Stmt>, &'a [Token]), ParseError>
    ensures { Gives (λ x. ((x.0, name_uses.new), x.1.now)) result
        (rules.declaration (rules.full room (rules.inner room)) name_uses.old tokens.now) }
{
    let (binding, rest) = binding(tokens)?;
    let (key, rest) = name(rest)?;
    declares(alloc, key, name_uses)?;
    let (value, rest) = initializer(alloc, rest, room, name_uses)?;
    Ok((
        end_declaration(alloc, binding, key, value, name_uses)?,
        rest,
    ))
}

/// The assignment of a name, behind it.
fn assignment<'a>(
    alloc: Global,
    tokens: &'a [Token],
    room: u32,
    key: &Token,
    name_uses: &mut Items<NameUse>,
) -> Result<(Boxed<Stmt>, &'a [Token]), ParseError>
    ensures { Gives (λ x. ((x.0, name_uses.new), x.1.now)) result
        (rules.assigned room (rules.inner room) name_uses.old (words.spotted key.now) tokens.now) }
{
    assigns(alloc, key, name_uses)?;
    let (value, rest) = initializer(alloc, tokens, room, name_uses)?;
    Ok((assign_statement(alloc, key, value)?, rest))
}

/// A statement that is an expression which begins with a name, behind that name.
fn named_run<'a>(
    alloc: Global,
    tokens: &'a [Token],
    room: u32,
    key: &Token,
    name_uses: &mut Items<NameUse>,
) -> Result<(Boxed<Stmt>, &'a [Token]), ParseError>
    ensures { Gives (λ x. ((x.0, name_uses.new), x.1.now)) result
        (rules.named_run room (rules.inner room) name_uses.old (words.spotted key.now) tokens.now) }
{
    let (value, rest) = led_expression(alloc, tokens, room, key, name_uses)?;
    let rest = expect(rest, Kind::Semicolon)?;
    Ok((run_statement(alloc, value)?, rest))
}

/// A statement that begins with a name, which may stand after an `if` that may go on.
#[tactic(auto, unfolding(jessie_grammar::specs::Rules::led))]
pub fn led_statement<'a>(
    alloc: Global,
    tokens: &'a [Token],
    room: u32,
    after_if: bool,
    name_uses: &mut Items<NameUse>,
) -> Result<(Boxed<Stmt>, &'a [Token]), ParseError>
    ensures { Gives (λ x. ((x.0, name_uses.new), x.1.now)) result
        (rules.led room (rules.inner room) (names_after after_if) name_uses.old tokens.now) }
{
    let (key, rest) = leading_name(tokens, after_if)?;
    if is(rest, Kind::Equals) {
        return assignment(alloc, rest, room, key, name_uses);
    }
    named_run(alloc, rest, room, key, name_uses)
}

/// A statement that is an expression which begins with no name.
#[tactic(auto, unfolding(jessie_grammar::specs::Rules::bare_run))]
pub fn bare_run<'a>(
    alloc: Global,
    tokens: &'a [Token],
    room: u32,
    name_uses: &mut Items<NameUse>,
) -> Result<(Boxed<Stmt>, &'a [Token]), ParseError>
    ensures { Gives (λ x. ((x.0, name_uses.new), x.1.now)) result
        (rules.bare_run room (rules.inner room) name_uses.old tokens.now) }
{
    let (value, rest) = bare_expression(alloc, tokens, room, name_uses)?;
    let rest = expect(rest, Kind::Semicolon)?;
    Ok((run_statement(alloc, value)?, rest))
}

/// `return;`, or `return` with a value.
#[tactic(auto, using(jessie_grammar::proofs::Reading::expr_is), unfolding(jessie_grammar::specs::Rules::giving))]
pub fn return_form<'a>(
    alloc: Global,
    tokens: &'a [Token],
    room: u32,
    name_uses: &mut Items<NameUse>,
) -> Result<(Boxed<Stmt>, &'a [Token]), ParseError>
    ensures { Gives (λ x. ((x.0, name_uses.new), x.1.now)) result
        (rules.giving (rules.full room (rules.inner room)) name_uses.old tokens.now) }
{
    let rest = expect(tokens, Kind::Return)?;
    if is(rest, Kind::Semicolon) {
        let rest = expect(rest, Kind::Semicolon)?;
        return Ok((empty_return(alloc)?, rest));
    }
    let (value, rest) = expression(alloc, rest, room, name_uses)?;
    let rest = expect(rest, Kind::Semicolon)?;
    Ok((return_statement(alloc, value)?, rest))
}

/// `throw` with a value.
#[tactic(auto, using(jessie_grammar::proofs::Reading::expr_is), unfolding(jessie_grammar::specs::Rules::throwing))]
pub fn throw_form<'a>(
    alloc: Global,
    tokens: &'a [Token],
    room: u32,
    name_uses: &mut Items<NameUse>,
) -> Result<(Boxed<Stmt>, &'a [Token]), ParseError>
    ensures { Gives (λ x. ((x.0, name_uses.new), x.1.now)) result
        (rules.throwing (rules.full room (rules.inner room)) name_uses.old tokens.now) }
{
    let rest = expect(tokens, Kind::Throw)?;
    let (value, rest) = expression(alloc, rest, room, name_uses)?;
    let rest = expect(rest, Kind::Semicolon)?;
    Ok((throw_statement(alloc, value)?, rest))
}
