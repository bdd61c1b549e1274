//! The module that the tokens of a text are, function by function.
ghost use Rattle.std.specs.Prelude.{[], ◌∷◌, ◌≡◌};
ghost use Rattle.jessie_grammar.specs.Parse.{Gives, loop as looping};
ghost use Rattle.jessie_grammar.specs.Rules as rules;
ghost use Rattle.jessie_grammar.specs.Words as words;

use crate::block::block;
use crate::functions::{begin_function, bracketed_params, end_function, heading};
use crate::variables::variable;
use jessie_expressions::jessie_terminals_lib::kinds::{begins_item, is};
use jessie_expressions::jessie_terminals_lib::symbols::{expect, refusal};
use jessie_grammar::jessie_language::fault::ParseError;
use jessie_grammar::jessie_lexer::token::{Kind, Token, peek};
use jessie_grammar::jessie_scopes::name_use::NameUse;
use jessie_grammar::syntax::{Module, Stmt};
use sqlite_items::Items;
use std::alloc::Global;

/// What stands behind a function's parameters: its block.
#[tactic(auto, unfolding(jessie_grammar::specs::Rules::ending_block))]
fn ending_block<'a>(
    alloc: Global,
    tokens: &'a [Token],
    room: u32,
    name_uses: &mut Items<NameUse>,
) -> Result<(Items<Stmt>, &'a [Token]), ParseError>
    ensures { Gives (λ x. ((x.0, name_uses.new), x.1.now)) result
        (rules.ending_block (rules.block room) name_uses.old tokens.now) }
{
    let rest = expect(tokens, Kind::Arrow)?;
    let (body, rest) = block(alloc, rest, room, name_uses)?;
    let rest = expect(rest, Kind::Semicolon)?;
    Ok((body, rest))
}

/// A function of the module, after those that it has.
#[tactic(auto, unfolding(jessie_grammar::specs::Rules::function))]
fn function<'a>(
    alloc: Global,
    tokens: &'a [Token],
    room: u32,
    tree: &mut Module,
    name_uses: &mut Items<NameUse>,
) -> Result<&'a [Token], ParseError>
    ensures { Gives (λ rest. ((tree.new, name_uses.new), rest.now)) result
        (rules.function room (tree.old, name_uses.old) tokens.now) }
{
    let (name, rest) = heading(tokens, tree.functions.len())?;
    begin_function(alloc, name, name_uses)?;
    let (params, rest) = bracketed_params(alloc, rest, room, name_uses)?;
    let (body, rest) = ending_block(alloc, rest, room, name_uses)?;
    end_function(alloc, name, params, body, tree, name_uses)?;
    Ok(rest)
}

/// A state variable or a function.
#[tactic(auto, unfolding(jessie_grammar::specs::Rules::item))]
fn item<'a>(
    alloc: Global,
    tokens: &'a [Token],
    room: u32,
    tree: &mut Module,
    name_uses: &mut Items<NameUse>,
) -> Result<&'a [Token], ParseError>
    ensures { Gives (λ rest. ((tree.new, name_uses.new), rest.now)) result
        (rules.item room (tree.old, name_uses.old) tokens.now) }
{
    if is(tokens, Kind::Let) {
        return variable(alloc, tokens, room, tree, name_uses);
    }
    function(alloc, tokens, room, tree, name_uses)
}

/// State variables and functions, one after another.
fn items<'a>(
    alloc: Global,
    tokens: &'a [Token],
    room: u32,
    tree: &mut Module,
    name_uses: &mut Items<NameUse>,
) -> Result<&'a [Token], ParseError>
    ensures { Gives (λ rest. ((tree.new, name_uses.new), rest.now)) result
        (looping words.always words.item_begins (rules.item room) (tree.old, name_uses.old)
        tokens.now) }
{
    let mut rest = tokens;
    'items: while begins_item(peek(rest)) {
        let after = item(alloc, rest, room, tree, name_uses)?;
        rest = after;
    }
    Ok(rest)
}

/// The module that the tokens are, all of them, where `room` brackets may be open, and what it does with
/// names.
#[tactic(auto, unfolding(jessie_grammar::specs::Rules::text, jessie_grammar::specs::Rules::front_text, jessie_grammar::specs::Parse::whole))]
pub fn parse(
    alloc: Global,
    tokens: &[Token],
    room: u32,
) -> Result<(Module, Items<NameUse>), ParseError>
    ensures { Gives (λ x. (x, [])) result (rules.text room tokens.now) }
{
    let mut tree = Module {
        variables: Items::new(alloc),
        functions: Items::new(alloc),
    };
    let mut name_uses = Items::new(alloc);
    let rest = items(alloc, tokens, room, &mut tree, &mut name_uses)?;
    if !rest.is_empty() {
        return Err(refusal(rest));
    }
    Ok((tree, name_uses))
}
