//! Expressions: each function gives what it read and the tokens after it, and puts what the text
//! does with names behind the name uses.
ghost use Rattle.std.specs.Prelude.{List, [], ◌≡◌, ◌<◌, ◌≤◌, ◌+◌, true, IfOk, OnOk};
ghost use Rattle.jessie_grammar.specs.Parse.{Gives, and_then, bracketed, one, pure, symbol};
ghost use Rattle.jessie_grammar.specs.Levels.{level_at, level_ops, level_rest, level_tails, operands};
ghost use Rattle.jessie_grammar.specs.Rules as rules;
ghost use Rattle.jessie_grammar.specs.Words as words;

use jessie_grammar::host_text_lib::text::Text;
use jessie_grammar::jessie_language::fault::ParseError;
use jessie_grammar::jessie_lexer::token::{Kind, Token, peek};
use jessie_grammar::jessie_scopes::name_use::NameUse;
use jessie_grammar::syntax::{Access, Expr, Operator, Unary};
use jessie_terminals::expressions::{
    add_expression, add_field, add_field_access, add_index_access, add_method_access, add_operand,
    amount_expression, array_expression, call_expression, choice_expression, literal_expression,
    name_expression, record_expression, send_expression, unary_expression, with_accesses,
    with_operands,
};
use jessie_terminals::kinds::{
    begins_access, begins_bare, is, is_free_word, is_literal, is_operator, is_sign, repeats,
};
use jessie_terminals::name_uses::{calls, fills, shortens, uses};
use jessie_terminals::names::{free_name, name};
use jessie_terminals::symbols::{expect, next_place, open, operator, sign};
use jessie_terminals::values::literal;
use sqlite_items::{Boxed, Items};
use std::alloc::{AllocError, Global};

/// The expressions of a list up to its closing bracket.
#[cycle(expression)]
fn items<'a>(
    alloc: Global,
    tokens: &'a [Token],
    room: u32,
    close: Kind,
    found: &mut Items<Expr>,
    name_uses: &mut Items<NameUse>,
) -> Result<&'a [Token], ParseError>
    requires room { 0 < room }
    requires none { found.old ≡ [] }
    ensures { Gives (λ rest. ((found.new, name_uses.new), rest.now)) result
        (rules.listed close (rules.inner room) name_uses.old tokens.now) }
{
    let mut more = !is(tokens, close);
    let mut rest = tokens;
    'items: while more {
        let (item, after) = expression(alloc, rest, room - 1, name_uses)?;
        add_expression(item, found)?;
        let (again, next) = next_place(after, close);
        more = again;
        rest = next;
    }
    Ok(rest)
}

/// The expressions of a list between two brackets.
#[cycle(expression)]
#[tactic(auto, unfolding(jessie_grammar::specs::Parse::bracketed))]
fn bracketed_items<'a>(
    alloc: Global,
    tokens: &'a [Token],
    room: u32,
    from: Kind,
    close: Kind,
    found: &mut Items<Expr>,
    name_uses: &mut Items<NameUse>,
) -> Result<&'a [Token], ParseError>
    requires { found.old ≡ [] }
    ensures { Gives (λ rest. ((found.new, name_uses.new), rest.now)) result
        (bracketed room from close (rules.listed close (rules.inner room) name_uses.old) tokens.now) }
{
    let rest = open(tokens, room, from)?;
    let rest = items(alloc, rest, room, close, found, name_uses)?;
    let rest = expect(rest, close)?;
    Ok(rest)
}

/// The arguments of a call, in parentheses.
#[cycle(expression)]
#[tactic(auto, unfolding(jessie_grammar::specs::Rules::args))]
fn arguments<'a>(
    alloc: Global,
    tokens: &'a [Token],
    room: u32,
    found: &mut Items<Expr>,
    name_uses: &mut Items<NameUse>,
) -> Result<&'a [Token], ParseError>
    requires { found.old ≡ [] }
    ensures { Gives (λ rest. ((found.new, name_uses.new), rest.now)) result
        (rules.args room (rules.inner room) name_uses.old tokens.now) }
{
    bracketed_items(
        alloc,
        tokens,
        room,
        Kind::LeftParen,
        Kind::RightParen,
        found,
        name_uses,
    )
}

#[cycle(expression)]
fn array<'a>(
    alloc: Global,
    tokens: &'a [Token],
    room: u32,
    name_uses: &mut Items<NameUse>,
) -> Result<(Boxed<Expr>, &'a [Token]), ParseError>
    ensures { Gives (λ x. ((x.0, name_uses.new), x.1.now)) result
        (rules.array room (rules.inner room) name_uses.old tokens.now) }
{
    let mut found = Items::new(alloc);
    let rest = bracketed_items(
        alloc,
        tokens,
        room,
        Kind::LeftBracket,
        Kind::RightBracket,
        &mut found,
        name_uses,
    )?;
    let Ok(tree) = array_expression(alloc, found) else {
        return Err(ParseError::NoMemory);
    };
    Ok((tree, rest))
}

/// The value of a field behind its name.
#[cycle(expression)]
#[tactic(auto, using(jessie_grammar::proofs::Reading::inner_is))]
fn own_value<'a>(
    alloc: Global,
    tokens: &'a [Token],
    room: u32,
    key: &Token,
    name_uses: &mut Items<NameUse>,
) -> Result<(Boxed<Expr>, &'a [Token]), ParseError>
    requires { 0 < room }
    ensures { Gives (λ x. (((key.now.text, x.0), name_uses.new), x.1.now)) result
        (rules.own_value (rules.inner room) name_uses.old (words.spotted key.now) tokens.now) }
{
    let rest = expect(tokens, Kind::Colon)?;
    fills(alloc, key, name_uses)?;
    expression(alloc, rest, room - 1, name_uses)
}

/// What the name of a field reads, where the field has no value of its own.
fn shorthand(
    alloc: Global,
    key: &Token,
    name_uses: &mut Items<NameUse>,
) -> Result<Boxed<Expr>, AllocError>
    ensures tree { IfOk result (λ tree. tree ≡ Expr.Name key.now.text) }
    ensures name_uses { OnOk result
        (name_uses.new ≡ words.also name_uses.old (NameUse.Shorthand key.now.at key.now.text)) }
{
    shortens(alloc, key, name_uses)?;
    name_expression(alloc, key)
}

/// A field of a record: its name, and its value or what the name stands for.
#[cycle(expression)]
#[tactic(auto, unfolding(jessie_grammar::specs::Rules::field))]
fn field<'a>(
    alloc: Global,
    tokens: &'a [Token],
    room: u32,
    name_uses: &mut Items<NameUse>,
) -> Result<((&'a Token, Boxed<Expr>), &'a [Token]), ParseError>
    requires { 0 < room }
    ensures { Gives (λ x. (((x.0.0.now.text, x.0.1), name_uses.new), x.1.now)) result
        (rules.field (rules.inner room) name_uses.old tokens.now) }
{
    let (key, rest) = name(tokens)?;
    if is(rest, Kind::Colon) {
        let (value, rest) = own_value(alloc, rest, room, key, name_uses)?;
        return Ok(((key, value), rest));
    }
    let Ok(value) = shorthand(alloc, key, name_uses) else {
        return Err(ParseError::NoMemory);
    };
    Ok(((key, value), rest))
}

/// The fields of a record up to its closing brace.
#[cycle(expression)]
fn fields<'a>(
    alloc: Global,
    tokens: &'a [Token],
    room: u32,
    found: &mut Items<(Text, Expr)>,
    name_uses: &mut Items<NameUse>,
) -> Result<&'a [Token], ParseError>
    requires room { 0 < room }
    requires none { found.old ≡ [] }
    ensures { Gives (λ rest. ((found.new, name_uses.new), rest.now)) result
        (rules.listed Kind.RightBrace (rules.field (rules.inner room)) name_uses.old tokens.now) }
{
    let mut more = !is(tokens, Kind::RightBrace);
    let mut rest = tokens;
    'fields: while more {
        let ((key, value), after) = field(alloc, rest, room, name_uses)?;
        add_field(alloc, key, value, found)?;
        let (again, next) = next_place(after, Kind::RightBrace);
        more = again;
        rest = next;
    }
    Ok(rest)
}

/// The fields of a record behind its opening brace.
#[cycle(expression)]
fn fields_and_scope<'a>(
    alloc: Global,
    tokens: &'a [Token],
    room: u32,
    found: &mut Items<(Text, Expr)>,
    name_uses: &mut Items<NameUse>,
) -> Result<&'a [Token], ParseError>
    requires room { 0 < room }
    requires none { found.old ≡ [] }
    ensures { Gives (λ rest. ((found.new, name_uses.new), rest.now)) result
        (rules.listed Kind.RightBrace (rules.field (rules.inner room))
        (words.also name_uses.old NameUse.Opens) tokens.now) }
{
    name_uses.push(NameUse::Opens)?;
    fields(alloc, tokens, room, found, name_uses)
}

/// The fields of a record between its braces.
#[cycle(expression)]
#[tactic(auto, unfolding(jessie_grammar::specs::Parse::bracketed))]
fn braced_fields<'a>(
    alloc: Global,
    tokens: &'a [Token],
    room: u32,
    found: &mut Items<(Text, Expr)>,
    name_uses: &mut Items<NameUse>,
) -> Result<&'a [Token], ParseError>
    requires { found.old ≡ [] }
    ensures { Gives (λ rest. ((found.new, name_uses.new), rest.now)) result
        (bracketed room Kind.LeftBrace Kind.RightBrace
        (rules.listed Kind.RightBrace (rules.field (rules.inner room))
        (words.also name_uses.old NameUse.Opens)) tokens.now) }
{
    let rest = open(tokens, room, Kind::LeftBrace)?;
    let rest = fields_and_scope(alloc, rest, room, found, name_uses)?;
    let rest = expect(rest, Kind::RightBrace)?;
    Ok(rest)
}

#[cycle(expression)]
fn record_text<'a>(
    alloc: Global,
    tokens: &'a [Token],
    room: u32,
    name_uses: &mut Items<NameUse>,
) -> Result<(Boxed<Expr>, &'a [Token]), ParseError>
    ensures { Gives (λ x. ((x.0, name_uses.new), x.1.now)) result
        (rules.record_text room (rules.inner room) name_uses.old tokens.now) }
{
    let mut found = Items::new(alloc);
    let rest = braced_fields(alloc, tokens, room, &mut found, name_uses)?;
    let Ok(()) = name_uses.push(NameUse::Closes) else {
        return Err(ParseError::NoMemory);
    };
    let Ok(tree) = record_expression(alloc, found) else {
        return Err(ParseError::NoMemory);
    };
    Ok((tree, rest))
}

/// The expression, where its closing bracket stands behind it; whatever was done before.
fn close_group<'a>(
    tree: Boxed<Expr>,
    tokens: &'a [Token],
    to: Kind,
) -> Result<(Boxed<Expr>, &'a [Token]), ParseError>
    ensures { (done : List NameUse) → Gives (λ x. ((x.0, done), x.1.now)) result
        (and_then {B = words.Found Expr} (symbol to tokens.now) (λ _. pure (tree, done))) }
{
    let rest = expect(tokens, to)?;
    Ok((tree, rest))
}

/// An expression between these two brackets, the first of which must be among the `room` that may be
/// open; else the first refusal.
#[cycle(expression)]
#[tactic(auto, using(jessie_grammar::proofs::Reading::inner_is), unfolding(jessie_grammar::specs::Parse::bracketed))]
pub fn group<'a>(
    alloc: Global,
    tokens: &'a [Token],
    room: u32,
    from: Kind,
    to: Kind,
    name_uses: &mut Items<NameUse>,
) -> Result<(Boxed<Expr>, &'a [Token]), ParseError>
    ensures { Gives (λ x. ((x.0, name_uses.new), x.1.now)) result
        (bracketed room from to (rules.inner room name_uses.old) tokens.now) }
{
    let rest = open(tokens, room, from)?;
    let (tree, rest) = expression(alloc, rest, room - 1, name_uses)?;
    close_group(tree, rest, to)
}

/// The call that begins with this name.
#[cycle(expression)]
fn call<'a>(
    alloc: Global,
    tokens: &'a [Token],
    room: u32,
    function: &Token,
    name_uses: &mut Items<NameUse>,
) -> Result<(Boxed<Expr>, &'a [Token]), ParseError>
    ensures { Gives (λ x. ((x.0, name_uses.new), x.1.now)) result
        (rules.called_with room (rules.inner room) name_uses.old (words.spotted function.now)
        tokens.now) }
{
    calls(alloc, function, name_uses)?;
    let mut given = Items::new(alloc);
    let rest = arguments(alloc, tokens, room, &mut given, name_uses)?;
    let Ok(tree) = call_expression(alloc, function, given) else {
        return Err(ParseError::NoMemory);
    };
    Ok((tree, rest))
}

/// What begins with this name: a call, or the name alone.
#[cycle(expression)]
#[tactic(auto, unfolding(jessie_grammar::specs::Rules::call_tail))]
fn call_tail<'a>(
    alloc: Global,
    tokens: &'a [Token],
    room: u32,
    name: &Token,
    name_uses: &mut Items<NameUse>,
) -> Result<(Boxed<Expr>, &'a [Token]), ParseError>
    ensures { Gives (λ x. ((x.0, name_uses.new), x.1.now)) result
        (rules.call_tail room (rules.inner room) name_uses.old (words.spotted name.now) tokens.now) }
{
    if is(tokens, Kind::LeftParen) {
        return call(alloc, tokens, room, name, name_uses);
    }
    uses(alloc, name, name_uses)?;
    let Ok(tree) = name_expression(alloc, name) else {
        return Err(ParseError::NoMemory);
    };
    Ok((tree, tokens))
}

#[cycle(expression)]
#[tactic(auto, unfolding(jessie_grammar::specs::Rules::named))]
fn name_or_call<'a>(
    alloc: Global,
    tokens: &'a [Token],
    room: u32,
    name_uses: &mut Items<NameUse>,
) -> Result<(Boxed<Expr>, &'a [Token]), ParseError>
    ensures { Gives (λ x. ((x.0, name_uses.new), x.1.now)) result
        (rules.named room (rules.inner room) name_uses.old tokens.now) }
{
    let (name, rest) = free_name(tokens)?;
    call_tail(alloc, rest, room, name, name_uses)
}

/// A method's name behind a dot, and its arguments.
#[cycle(expression)]
#[tactic(auto, unfolding(jessie_grammar::specs::Rules::method_call))]
fn method_call<'a>(
    alloc: Global,
    tokens: &'a [Token],
    room: u32,
    given: &mut Items<Expr>,
    name_uses: &mut Items<NameUse>,
) -> Result<(&'a Token, &'a [Token]), ParseError>
    requires { given.old ≡ [] }
    ensures { Gives (λ x. (((x.0.now.text, given.new), name_uses.new), x.1.now)) result
        (rules.method_call room (rules.inner room) name_uses.old tokens.now) }
{
    let rest = expect(tokens, Kind::Dot)?;
    let (method, rest) = name(rest)?;
    let rest = arguments(alloc, rest, room, given, name_uses)?;
    Ok((method, rest))
}

/// The send of the method's call to the target.
#[cycle(expression)]
fn send<'a>(
    alloc: Global,
    tokens: &'a [Token],
    room: u32,
    target: Boxed<Expr>,
    name_uses: &mut Items<NameUse>,
) -> Result<(Boxed<Expr>, &'a [Token]), ParseError>
    ensures { Gives (λ x. ((x.0, name_uses.new), x.1.now)) result
        (and_then (rules.method_call room (rules.inner room) name_uses.old tokens.now)
        (λ call. pure (words.send_of target call))) }
{
    let mut given = Items::new(alloc);
    let (method, rest) = method_call(alloc, tokens, room, &mut given, name_uses)?;
    let Ok(tree) = send_expression(alloc, target, method, given) else {
        return Err(ParseError::NoMemory);
    };
    Ok((tree, rest))
}

/// A send: `E(target).method(arguments)`.
#[cycle(expression)]
#[tactic(auto, unfolding(jessie_grammar::specs::Rules::eventually))]
fn eventually<'a>(
    alloc: Global,
    tokens: &'a [Token],
    room: u32,
    name_uses: &mut Items<NameUse>,
) -> Result<(Boxed<Expr>, &'a [Token]), ParseError>
    ensures { Gives (λ x. ((x.0, name_uses.new), x.1.now)) result
        (rules.eventually room (rules.inner room) name_uses.old tokens.now) }
{
    let rest = expect(tokens, Kind::Eventually)?;
    let (target, rest) = group(
        alloc,
        rest,
        room,
        Kind::LeftParen,
        Kind::RightParen,
        name_uses,
    )?;
    send(alloc, rest, room, target, name_uses)
}

/// The call of the method of `AmountMath`.
#[cycle(expression)]
fn amount_call<'a>(
    alloc: Global,
    tokens: &'a [Token],
    room: u32,
    name_uses: &mut Items<NameUse>,
) -> Result<(Boxed<Expr>, &'a [Token]), ParseError>
    ensures { Gives (λ x. ((x.0, name_uses.new), x.1.now)) result
        (and_then (rules.method_call room (rules.inner room) name_uses.old tokens.now)
        (λ call. pure (words.amount_of call))) }
{
    let mut given = Items::new(alloc);
    let (method, rest) = method_call(alloc, tokens, room, &mut given, name_uses)?;
    let Ok(tree) = amount_expression(alloc, method, given) else {
        return Err(ParseError::NoMemory);
    };
    Ok((tree, rest))
}

/// `AmountMath.method(arguments)`
#[cycle(expression)]
#[tactic(auto, unfolding(jessie_grammar::specs::Rules::amount))]
fn amount<'a>(
    alloc: Global,
    tokens: &'a [Token],
    room: u32,
    name_uses: &mut Items<NameUse>,
) -> Result<(Boxed<Expr>, &'a [Token]), ParseError>
    ensures { Gives (λ x. ((x.0, name_uses.new), x.1.now)) result
        (rules.amount room (rules.inner room) name_uses.old tokens.now) }
{
    let rest = expect(tokens, Kind::AmountMath)?;
    amount_call(alloc, rest, room, name_uses)
}

/// A literal, whatever was done before.
fn literal_alone<'a>(
    alloc: Global,
    tokens: &'a [Token],
) -> Result<(Boxed<Expr>, &'a [Token]), ParseError>
    ensures { (done : List NameUse) → Gives (λ x. ((x.0, done), x.1.now)) result
        (and_then (one words.literals words.literal_of words.wide tokens.now)
        (λ value. pure (words.literal_expr done value))) }
{
    let (value, rest) = literal(alloc, tokens)?;
    let Ok(tree) = literal_expression(alloc, value) else {
        return Err(ParseError::NoMemory);
    };
    Ok((tree, rest))
}

/// What stands before the accesses, where it is neither a name nor a record.
#[cycle(expression)]
#[tactic(auto, unfolding(jessie_grammar::specs::Rules::bare))]
fn bare_first<'a>(
    alloc: Global,
    tokens: &'a [Token],
    room: u32,
    name_uses: &mut Items<NameUse>,
) -> Result<(Boxed<Expr>, &'a [Token]), ParseError>
    ensures { Gives (λ x. ((x.0, name_uses.new), x.1.now)) result
        (rules.bare room (rules.inner room) name_uses.old tokens.now) }
{
    if is_literal(peek(tokens)) {
        return literal_alone(alloc, tokens);
    }
    if is(tokens, Kind::Eventually) {
        return eventually(alloc, tokens, room, name_uses);
    }
    if is(tokens, Kind::AmountMath) {
        return amount(alloc, tokens, room, name_uses);
    }
    if is(tokens, Kind::LeftParen) {
        return group(
            alloc,
            tokens,
            room,
            Kind::LeftParen,
            Kind::RightParen,
            name_uses,
        );
    }
    array(alloc, tokens, room, name_uses)
}

/// What stands before the accesses.
#[cycle(expression)]
#[tactic(auto, unfolding(jessie_grammar::specs::Rules::prim))]
fn prim<'a>(
    alloc: Global,
    tokens: &'a [Token],
    room: u32,
    name_uses: &mut Items<NameUse>,
) -> Result<(Boxed<Expr>, &'a [Token]), ParseError>
    ensures { Gives (λ x. ((x.0, name_uses.new), x.1.now)) result
        (rules.prim room (rules.inner room) name_uses.old tokens.now) }
{
    if is_free_word(peek(tokens)) {
        return name_or_call(alloc, tokens, room, name_uses);
    }
    if begins_bare(peek(tokens)) {
        return bare_first(alloc, tokens, room, name_uses);
    }
    record_text(alloc, tokens, room, name_uses)
}

/// One access more: the call of the method with this name.
#[cycle(expression)]
fn method_access<'a>(
    alloc: Global,
    tokens: &'a [Token],
    room: u32,
    method: &Token,
    found: &mut Items<Access>,
    name_uses: &mut Items<NameUse>,
) -> Result<&'a [Token], ParseError>
    ensures { Gives (λ rest. ((found.new, name_uses.new), rest.now)) result
        (and_then (and_then (rules.args room (rules.inner room) name_uses.old tokens.now)
        (λ given. pure (words.method_of (words.spotted method.now) given)))
        (λ step. pure (words.more found.old step))) }
{
    let mut given = Items::new(alloc);
    let rest = arguments(alloc, tokens, room, &mut given, name_uses)?;
    add_method_access(alloc, method, given, found)?;
    Ok(rest)
}

/// One access more: a field, or a call of a method.
#[cycle(expression)]
fn dot_access<'a>(
    alloc: Global,
    tokens: &'a [Token],
    room: u32,
    found: &mut Items<Access>,
    name_uses: &mut Items<NameUse>,
) -> Result<&'a [Token], ParseError>
    ensures { Gives (λ rest. ((found.new, name_uses.new), rest.now)) result
        (and_then (rules.dot_access room (rules.inner room) name_uses.old tokens.now)
        (λ step. pure (words.more found.old step))) }
{
    let rest = expect(tokens, Kind::Dot)?;
    let (name, rest) = name(rest)?;
    if is(rest, Kind::LeftParen) {
        return method_access(alloc, rest, room, name, found, name_uses);
    }
    let Ok(()) = add_field_access(alloc, name, found) else {
        return Err(ParseError::NoMemory);
    };
    Ok(rest)
}

/// One access more.
#[cycle(expression)]
#[tactic(auto, unfolding(jessie_grammar::specs::Rules::post_access))]
fn access<'a>(
    alloc: Global,
    tokens: &'a [Token],
    room: u32,
    found: &mut Items<Access>,
    name_uses: &mut Items<NameUse>,
) -> Result<&'a [Token], ParseError>
    ensures { Gives (λ rest. ((found.new, name_uses.new), rest.now)) result
        (and_then (rules.post_access room (rules.inner room) name_uses.old tokens.now)
        (λ step. pure (words.more found.old step))) }
{
    if is(tokens, Kind::Dot) {
        return dot_access(alloc, tokens, room, found, name_uses);
    }
    let (index, rest) = group(
        alloc,
        tokens,
        room,
        Kind::LeftBracket,
        Kind::RightBracket,
        name_uses,
    )?;
    add_index_access(index, found)?;
    Ok(rest)
}

/// The accesses behind an expression, whatever it is.
#[cycle(expression)]
fn accesses<'a>(
    alloc: Global,
    tokens: &'a [Token],
    room: u32,
    found: &mut Items<Access>,
    name_uses: &mut Items<NameUse>,
) -> Result<&'a [Token], ParseError>
    ensures { (first : Expr) → Gives (λ rest. (((first, found.new), name_uses.new), rest.now)) result
        (rules.accesses_from room (rules.inner room) ((first, found.old), name_uses.old) tokens.now) }
{
    let mut rest = tokens;
    'accesses: while begins_access(peek(rest)) {
        let after = access(alloc, rest, room, found, name_uses)?;
        rest = after;
    }
    Ok(rest)
}

/// The expression with the accesses behind it.
#[cycle(expression)]
#[tactic(auto, unfolding(jessie_grammar::specs::Rules::post_tail))]
fn post_tail<'a>(
    alloc: Global,
    tokens: &'a [Token],
    room: u32,
    first: Boxed<Expr>,
    name_uses: &mut Items<NameUse>,
) -> Result<(Boxed<Expr>, &'a [Token]), ParseError>
    ensures { Gives (λ x. ((x.0, name_uses.new), x.1.now)) result
        (rules.post_tail room (rules.inner room) (first, name_uses.old) tokens.now) }
{
    let mut found = Items::new(alloc);
    let rest = accesses(alloc, tokens, room, &mut found, name_uses)?;
    let Ok(tree) = with_accesses(alloc, first, found) else {
        return Err(ParseError::NoMemory);
    };
    Ok((tree, rest))
}

/// The operand with the accesses behind it, below the operator before it.
#[cycle(expression)]
fn below_sign<'a>(
    alloc: Global,
    tokens: &'a [Token],
    room: u32,
    operator: Unary,
    first: Boxed<Expr>,
    name_uses: &mut Items<NameUse>,
) -> Result<(Boxed<Expr>, &'a [Token]), ParseError>
    ensures { Gives (λ x. ((x.0, name_uses.new), x.1.now)) result
        (and_then (rules.post_tail room (rules.inner room) (first, name_uses.old) tokens.now)
        (λ operand. pure (words.unary_of operator operand))) }
{
    let (operand, rest) = post_tail(alloc, tokens, room, first, name_uses)?;
    let Ok(tree) = unary_expression(alloc, operator, operand) else {
        return Err(ParseError::NoMemory);
    };
    Ok((tree, rest))
}

/// An operator before an operand, and the operand.
#[cycle(expression)]
fn sign_and_operand<'a>(
    alloc: Global,
    tokens: &'a [Token],
    room: u32,
    name_uses: &mut Items<NameUse>,
) -> Result<(Boxed<Expr>, &'a [Token]), ParseError>
    ensures { Gives (λ x. ((x.0, name_uses.new), x.1.now)) result
        (rules.signed room (rules.inner room) name_uses.old tokens.now) }
{
    let (operator, rest) = sign(tokens)?;
    let (first, rest) = prim(alloc, rest, room, name_uses)?;
    below_sign(alloc, rest, room, operator, first, name_uses)
}

/// An operand of operators.
#[cycle(expression)]
#[tactic(auto, unfolding(jessie_grammar::specs::Rules::unary))]
fn unary<'a>(
    alloc: Global,
    tokens: &'a [Token],
    room: u32,
    name_uses: &mut Items<NameUse>,
) -> Result<(Boxed<Expr>, &'a [Token]), ParseError>
    ensures { Gives (λ x. ((x.0, name_uses.new), x.1.now)) result
        (rules.unary room (rules.inner room) (rules.prim room (rules.inner room)) name_uses.old
        tokens.now) }
{
    if is_sign(peek(tokens)) {
        return sign_and_operand(alloc, tokens, room, name_uses);
    }
    let (first, rest) = prim(alloc, tokens, room, name_uses)?;
    post_tail(alloc, rest, room, first, name_uses)
}

/// An operator of the level and the operand behind it, whatever stands before; and whether more may
/// follow.
#[cycle(expression)]
#[tactic(auto, unfolding(jessie_grammar::specs::Rules::op_step))]
fn operator_step<'a>(
    alloc: Global,
    tokens: &'a [Token],
    room: u32,
    level: u8,
    found: &mut Items<(Operator, Expr)>,
    name_uses: &mut Items<NameUse>,
) -> Result<(bool, &'a [Token]), ParseError>
    requires { level < 6 }
    ensures { (first : Expr)
        → Gives (λ x. ((((first, found.new), name_uses.new), x.0), x.1.now)) result
        (rules.op_step (level_at level) (operands room (level + 1))
        (((first, found.old), name_uses.old), true) tokens.now) }
{
    let (mark, rest) = operator(tokens, level)?;
    let (right, rest) = operand(alloc, rest, room, level + 1, name_uses)?;
    let Ok(()) = add_operand(mark, right, found) else {
        return Err(ParseError::NoMemory);
    };
    Ok((repeats(level), rest))
}

/// The operators of the level with their operands, whatever stands before them.
#[cycle(expression)]
fn operators<'a>(
    alloc: Global,
    tokens: &'a [Token],
    room: u32,
    level: u8,
    found: &mut Items<(Operator, Expr)>,
    name_uses: &mut Items<NameUse>,
) -> Result<&'a [Token], ParseError>
    requires { level < 6 }
    ensures { (first : Expr) → Gives (λ rest. (((first, found.new), name_uses.new), rest.now)) result
        (level_ops room level ((first, found.old), name_uses.old) tokens.now) }
{
    let mut more = true;
    let mut rest = tokens;
    'operators: while more && is_operator(peek(rest), level) {
        let (again, after) = operator_step(alloc, rest, room, level, found, name_uses)?;
        more = again;
        rest = after;
    }
    Ok(rest)
}

/// The operand with the operators of the level behind it.
#[cycle(expression)]
fn chain<'a>(
    alloc: Global,
    tokens: &'a [Token],
    room: u32,
    level: u8,
    first: Boxed<Expr>,
    name_uses: &mut Items<NameUse>,
) -> Result<(Boxed<Expr>, &'a [Token]), ParseError>
    requires { level < 6 }
    ensures { Gives (λ x. ((x.0, name_uses.new), x.1.now)) result
        (level_rest room level (first, name_uses.old) tokens.now) }
{
    let mut found = Items::new(alloc);
    let rest = operators(alloc, tokens, room, level, &mut found, name_uses)?;
    let Ok(tree) = with_operands(alloc, first, found) else {
        return Err(ParseError::NoMemory);
    };
    Ok((tree, rest))
}

/// The operand with what stands behind it, from the level on.
#[cycle(expression)]
#[tactic(auto, using(jessie_grammar::proofs::Reading::tails_is, jessie_grammar::proofs::Reading::tails_end))]
fn tails<'a>(
    alloc: Global,
    tokens: &'a [Token],
    room: u32,
    level: u8,
    first: Boxed<Expr>,
    name_uses: &mut Items<NameUse>,
) -> Result<(Boxed<Expr>, &'a [Token]), ParseError>
    requires { level ≤ 6 }
    ensures { Gives (λ x. ((x.0, name_uses.new), x.1.now)) result
        (level_tails room level (first, name_uses.old) tokens.now) }
{
    if level == 6 {
        return Ok((first, tokens));
    }
    let (tree, rest) = tails(alloc, tokens, room, level + 1, first, name_uses)?;
    chain(alloc, rest, room, level, tree, name_uses)
}

/// An operand of operators that bind less than the level's.
#[cycle(expression)]
fn operand<'a>(
    alloc: Global,
    tokens: &'a [Token],
    room: u32,
    level: u8,
    name_uses: &mut Items<NameUse>,
) -> Result<(Boxed<Expr>, &'a [Token]), ParseError>
    requires { level ≤ 6 }
    ensures { Gives (λ x. ((x.0, name_uses.new), x.1.now)) result
        (operands room level name_uses.old tokens.now) }
{
    let (first, rest) = unary(alloc, tokens, room, name_uses)?;
    tails(alloc, rest, room, level, first, name_uses)
}

/// The second branch of a choice, behind its colon, with the first.
#[cycle(expression)]
fn second_branch<'a>(
    alloc: Global,
    tokens: &'a [Token],
    room: u32,
    first: Boxed<Expr>,
    name_uses: &mut Items<NameUse>,
) -> Result<((Boxed<Expr>, Boxed<Expr>), &'a [Token]), ParseError>
    ensures { Gives (λ x. ((x.0, name_uses.new), x.1.now)) result
        (and_then {B = words.Found (Expr × Expr)} (symbol Kind.Colon tokens.now)
        (λ _ rest. and_then {B = words.Found (Expr × Expr)} (operands room 0 name_uses.old rest)
        (λ second. pure ((first, second.0), second.1)))) }
{
    let rest = expect(tokens, Kind::Colon)?;
    let (second, rest) = operand(alloc, rest, room, 0, name_uses)?;
    Ok(((first, second), rest))
}

/// The two branches of a choice.
#[cycle(expression)]
#[tactic(auto, unfolding(jessie_grammar::specs::Rules::branches))]
fn branches<'a>(
    alloc: Global,
    tokens: &'a [Token],
    room: u32,
    name_uses: &mut Items<NameUse>,
) -> Result<((Boxed<Expr>, Boxed<Expr>), &'a [Token]), ParseError>
    ensures { Gives (λ x. ((x.0, name_uses.new), x.1.now)) result
        (rules.branches (operands room 0) name_uses.old tokens.now) }
{
    let (first, rest) = operand(alloc, tokens, room, 0, name_uses)?;
    second_branch(alloc, rest, room, first, name_uses)
}

/// The choice by the condition between the branches.
#[cycle(expression)]
fn choice_of<'a>(
    alloc: Global,
    tokens: &'a [Token],
    room: u32,
    condition: Boxed<Expr>,
    name_uses: &mut Items<NameUse>,
) -> Result<(Boxed<Expr>, &'a [Token]), ParseError>
    ensures { Gives (λ x. ((x.0, name_uses.new), x.1.now)) result
        (and_then (rules.branches (operands room 0) name_uses.old tokens.now)
        (λ both. pure (words.choice_of condition both))) }
{
    let ((first, second), rest) = branches(alloc, tokens, room, name_uses)?;
    let Ok(tree) = choice_expression(alloc, condition, first, second) else {
        return Err(ParseError::NoMemory);
    };
    Ok((tree, rest))
}

/// The condition with the choice behind it.
#[cycle(expression)]
fn choice_behind<'a>(
    alloc: Global,
    tokens: &'a [Token],
    room: u32,
    condition: Boxed<Expr>,
    name_uses: &mut Items<NameUse>,
) -> Result<(Boxed<Expr>, &'a [Token]), ParseError>
    ensures { Gives (λ x. ((x.0, name_uses.new), x.1.now)) result
        (rules.chosen (operands room 0) (condition, name_uses.old) tokens.now) }
{
    let rest = expect(tokens, Kind::Question)?;
    choice_of(alloc, rest, room, condition, name_uses)
}

/// The condition with the choice behind it, if there is one.
#[cycle(expression)]
#[tactic(auto, unfolding(jessie_grammar::specs::Rules::choice))]
fn choice<'a>(
    alloc: Global,
    tokens: &'a [Token],
    room: u32,
    condition: Boxed<Expr>,
    name_uses: &mut Items<NameUse>,
) -> Result<(Boxed<Expr>, &'a [Token]), ParseError>
    ensures { Gives (λ x. ((x.0, name_uses.new), x.1.now)) result
        (rules.choice (operands room 0) (condition, name_uses.old) tokens.now) }
{
    if is(tokens, Kind::Question) {
        return choice_behind(alloc, tokens, room, condition, name_uses);
    }
    Ok((condition, tokens))
}

/// The expression that begins with this operand.
#[cycle(expression)]
#[tactic(auto, unfolding(jessie_grammar::specs::Rules::after))]
fn after<'a>(
    alloc: Global,
    tokens: &'a [Token],
    room: u32,
    first: Boxed<Expr>,
    name_uses: &mut Items<NameUse>,
) -> Result<(Boxed<Expr>, &'a [Token]), ParseError>
    ensures { Gives (λ x. ((x.0, name_uses.new), x.1.now)) result
        (rules.after room (rules.inner room) (first, name_uses.old) tokens.now) }
{
    let (tree, rest) = tails(alloc, tokens, room, 0, first, name_uses)?;
    choice(alloc, rest, room, tree, name_uses)
}

/// An expression, where `room` more brackets may be open: its tree and the tokens after it; what the
/// text does with names goes behind the name uses. Else the first refusal, with the limit that its
/// token breaks and the count of tokens from it on, or want of memory. The rules are our own.
#[cycle(expression)]
#[tactic(auto, using(jessie_grammar::proofs::Reading::expr_is), unfolding(jessie_grammar::specs::Rules::full))]
pub fn expression<'a>(
    alloc: Global,
    tokens: &'a [Token],
    room: u32,
    name_uses: &mut Items<NameUse>,
) -> Result<(Boxed<Expr>, &'a [Token]), ParseError>
    ensures { Gives (λ x. ((x.0, name_uses.new), x.1.now)) result
        (rules.expr room name_uses.old tokens.now) }
{
    let (first, rest) = unary(alloc, tokens, room, name_uses)?;
    after(alloc, rest, room, first, name_uses)
}

/// The expression that begins with this name, which stands before the tokens: a statement is read so
/// from its name on. Else the first refusal behind the name.
pub fn led_expression<'a>(
    alloc: Global,
    tokens: &'a [Token],
    room: u32,
    name: &Token,
    name_uses: &mut Items<NameUse>,
) -> Result<(Boxed<Expr>, &'a [Token]), ParseError>
    ensures { Gives (λ x. ((x.0, name_uses.new), x.1.now)) result
        (and_then (and_then
        (rules.call_tail room (rules.inner room) name_uses.old (words.spotted name.now) tokens.now)
        (rules.post_tail room (rules.inner room))) (rules.after room (rules.inner room))) }
{
    let (first, rest) = call_tail(alloc, tokens, room, name, name_uses)?;
    let (operand, rest) = post_tail(alloc, rest, room, first, name_uses)?;
    after(alloc, rest, room, operand, name_uses)
}

/// The first operand of an expression that begins with no name and is no record.
#[tactic(auto, unfolding(jessie_grammar::specs::Rules::unary))]
fn bare_operand<'a>(
    alloc: Global,
    tokens: &'a [Token],
    room: u32,
    name_uses: &mut Items<NameUse>,
) -> Result<(Boxed<Expr>, &'a [Token]), ParseError>
    ensures { Gives (λ x. ((x.0, name_uses.new), x.1.now)) result
        (rules.unary room (rules.inner room) (rules.bare room (rules.inner room)) name_uses.old
        tokens.now) }
{
    if is_sign(peek(tokens)) {
        return sign_and_operand(alloc, tokens, room, name_uses);
    }
    let (first, rest) = bare_first(alloc, tokens, room, name_uses)?;
    post_tail(alloc, rest, room, first, name_uses)
}

/// An expression that begins with no name and is no record, as a statement may; else the first
/// refusal.
pub fn bare_expression<'a>(
    alloc: Global,
    tokens: &'a [Token],
    room: u32,
    name_uses: &mut Items<NameUse>,
) -> Result<(Boxed<Expr>, &'a [Token]), ParseError>
    ensures { Gives (λ x. ((x.0, name_uses.new), x.1.now)) result
        (and_then
        (rules.unary room (rules.inner room) (rules.bare room (rules.inner room)) name_uses.old
        tokens.now) (rules.after room (rules.inner room))) }
{
    let (first, rest) = bare_operand(alloc, tokens, room, name_uses)?;
    after(alloc, rest, room, first, name_uses)
}
