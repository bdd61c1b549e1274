//! Constants, which a state variable can hold at first: each function gives what it read and the
//! tokens after it, and puts what the text does with names behind the name uses.
ghost use Rattle.std.specs.Prelude.{[], ◌≡◌, ◌<◌};
ghost use Rattle.jessie_grammar.specs.Parse.{Gives};
ghost use Rattle.jessie_grammar.specs.Rules as rules;

use jessie_grammar::host_text_lib::text::Text;
use jessie_grammar::jessie_language::fault::ParseError;
use jessie_grammar::jessie_lexer::token::{Kind, Token, peek};
use jessie_grammar::jessie_scopes::name_use::NameUse;
use jessie_grammar::syntax::Constant;
use jessie_terminals::constants::{
    add_constant, add_constant_field, array_constant, literal_constant, record_constant,
};
use jessie_terminals::kinds::{is, is_literal};
use jessie_terminals::name_uses::fills;
use jessie_terminals::names::name;
use jessie_terminals::symbols::{expect, next_place, open};
use jessie_terminals::values::{literal, negative};
use sqlite_items::{Boxed, Items};
use std::alloc::Global;

/// The constants of an array up to its closing bracket.
#[cycle(constant)]
fn items<'a>(
    alloc: Global,
    tokens: &'a [Token],
    room: u32,
    found: &mut Items<Constant>,
    name_uses: &mut Items<NameUse>,
) -> Result<&'a [Token], ParseError>
    requires room { 0 < room }
    requires none { found.old ≡ [] }
    ensures { Gives (λ rest. ((found.new, name_uses.new), rest.now)) result
        (rules.listed Kind.RightBracket (rules.inner_constant room) name_uses.old tokens.now) }
{
    let mut more = !is(tokens, Kind::RightBracket);
    let mut rest = tokens;
    'items: while more {
        let (item, after) = constant(alloc, rest, room - 1, name_uses)?;
        add_constant(item, found)?;
        let (again, next) = next_place(after, Kind::RightBracket);
        more = again;
        rest = next;
    }
    Ok(rest)
}

#[cycle(constant)]
#[tactic(auto, unfolding(jessie_grammar::specs::Parse::bracketed))]
fn array<'a>(
    alloc: Global,
    tokens: &'a [Token],
    room: u32,
    name_uses: &mut Items<NameUse>,
) -> Result<(Boxed<Constant>, &'a [Token]), ParseError>
    ensures { Gives (λ x. ((x.0, name_uses.new), x.1.now)) result
        (rules.constant_array room (rules.inner_constant room) name_uses.old tokens.now) }
{
    let rest = open(tokens, room, Kind::LeftBracket)?;
    let mut found = Items::new(alloc);
    let rest = items(alloc, rest, room, &mut found, name_uses)?;
    let rest = expect(rest, Kind::RightBracket)?;
    Ok((array_constant(alloc, found)?, rest))
}

/// A field of a record: its name and its constant.
#[cycle(constant)]
#[tactic(auto, using(jessie_grammar::proofs::Reading::inner_constant_is), unfolding(jessie_grammar::specs::Rules::constant_field))]
fn field<'a>(
    alloc: Global,
    tokens: &'a [Token],
    room: u32,
    name_uses: &mut Items<NameUse>,
) -> Result<((&'a Token, Boxed<Constant>), &'a [Token]), ParseError>
    requires { 0 < room }
    ensures { Gives (λ x. (((x.0.0.now.text, x.0.1), name_uses.new), x.1.now)) result
        (rules.constant_field (rules.inner_constant room) name_uses.old tokens.now) }
{
    let (key, rest) = name(tokens)?;
    let rest = expect(rest, Kind::Colon)?;
    fills(alloc, key, name_uses)?;
    let (value, rest) = constant(alloc, rest, room - 1, name_uses)?;
    Ok(((key, value), rest))
}

/// The fields of a record up to its closing brace.
#[cycle(constant)]
fn fields<'a>(
    alloc: Global,
    tokens: &'a [Token],
    room: u32,
    found: &mut Items<(Text, Constant)>,
    name_uses: &mut Items<NameUse>,
) -> Result<&'a [Token], ParseError>
    requires room { 0 < room }
    requires none { found.old ≡ [] }
    ensures { Gives (λ rest. ((found.new, name_uses.new), rest.now)) result
        (rules.listed Kind.RightBrace (rules.constant_field (rules.inner_constant room))
        name_uses.old tokens.now) }
{
    let mut more = !is(tokens, Kind::RightBrace);
    let mut rest = tokens;
    'fields: while more {
        let ((key, value), after) = field(alloc, rest, room, name_uses)?;
        add_constant_field(alloc, key, value, found)?;
        let (again, next) = next_place(after, Kind::RightBrace);
        more = again;
        rest = next;
    }
    Ok(rest)
}

#[cycle(constant)]
#[tactic(auto, unfolding(jessie_grammar::specs::Parse::bracketed))]
fn record_text<'a>(
    alloc: Global,
    tokens: &'a [Token],
    room: u32,
    name_uses: &mut Items<NameUse>,
) -> Result<(Boxed<Constant>, &'a [Token]), ParseError>
    ensures { Gives (λ x. ((x.0, name_uses.new), x.1.now)) result
        (rules.constant_record room (rules.inner_constant room) name_uses.old tokens.now) }
{
    let rest = open(tokens, room, Kind::LeftBrace)?;
    name_uses.push(NameUse::Opens)?;
    let mut found = Items::new(alloc);
    let rest = fields(alloc, rest, room, &mut found, name_uses)?;
    let rest = expect(rest, Kind::RightBrace)?;
    name_uses.push(NameUse::Closes)?;
    Ok((record_constant(alloc, found)?, rest))
}

/// A constant, where `room` more brackets may be open.
#[cycle(constant)]
#[tactic(auto, using(jessie_grammar::proofs::Reading::constant_is), unfolding(jessie_grammar::specs::Rules::constant_in))]
pub fn constant<'a>(
    alloc: Global,
    tokens: &'a [Token],
    room: u32,
    name_uses: &mut Items<NameUse>,
) -> Result<(Boxed<Constant>, &'a [Token]), ParseError>
    ensures { Gives (λ x. ((x.0, name_uses.new), x.1.now)) result
        (rules.constant room name_uses.old tokens.now) }
{
    if is_literal(peek(tokens)) {
        let (value, rest) = literal(alloc, tokens)?;
        return Ok((literal_constant(alloc, value)?, rest));
    }
    if is(tokens, Kind::Minus) {
        let rest = expect(tokens, Kind::Minus)?;
        let (value, rest) = negative(rest)?;
        return Ok((literal_constant(alloc, value)?, rest));
    }
    if is(tokens, Kind::LeftBracket) {
        return array(alloc, tokens, room, name_uses);
    }
    record_text(alloc, tokens, room, name_uses)
}
