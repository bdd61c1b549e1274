//! Quoted words and marks.
ghost use Rattle.std.specs.Prelude.{[], ◌∷◌, ◌≡◌, ◌<◌, length, IfOk, None, Ok, Some};
ghost use Rattle.jessie_grammar.specs.Tokens.{has};
ghost use Rattle.jessie_grammar.specs.Parse.{Gives, symbol, opening, one, free};
ghost use Rattle.jessie_grammar.specs.Levels.{level_at, next_place};
ghost use Rattle.jessie_grammar.specs.Words as words;

use crate::kinds::{is, is_operator, is_sign};
use jessie_grammar::jessie_language::fault::{Limit, ParseError};
use jessie_grammar::jessie_lexer::token::{Kind, Token, number_of};
use jessie_grammar::jessie_scopes::name_use::Binding;
use jessie_grammar::syntax::{Operator, Unary};

/// The refusal of the first token, or of the end, as one that no rule goes on with.
pub fn refusal(tokens: &[Token]) -> ParseError
    ensures { result ≡ ParseError.Refused None (length tokens.now) }
{
    ParseError::Refused(None, tokens.len())
}

/// The refusal of the first token for a limit that it breaks.
pub fn limit_refusal(tokens: &[Token], limit: Limit) -> ParseError
    ensures { result ≡ ParseError.Refused (Some limit) (length tokens.now) }
{
    ParseError::Refused(Some(limit), tokens.len())
}

/// What follows that very token.
#[tactic(auto, unfolding(jessie_grammar::specs::Parse::symbol))]
pub fn expect(tokens: &[Token], kind: Kind) -> Result<&[Token], ParseError>
    ensures { Gives (λ rest. (tt, rest.now)) result (symbol kind tokens.now) }
{
    match tokens {
        [token, rest @ ..] if number_of(kind) == number_of(token.kind) => Ok(rest),
        _ => Err(refusal(tokens)),
    }
}

/// What follows an open bracket, where `room` more may be open.
#[tactic(auto, unfolding(jessie_grammar::specs::Parse::opening))]
pub fn open(tokens: &[Token], room: u32, kind: Kind) -> Result<&[Token], ParseError>
    ensures reads { Gives (λ rest. (tt, rest.now)) result (opening room kind tokens.now) }
    ensures room { IfOk result (λ _. 0 < room) }
{
    match tokens {
        [token, rest @ ..] if number_of(kind) == number_of(token.kind) => {
            if room == 0 {
                return Err(limit_refusal(tokens, Limit::TooDeep));
            }
            Ok(rest)
        }
        _ => Err(refusal(tokens)),
    }
}

/// What stands behind an item of a list that ends so: whether one more follows, and the tokens from
/// there on. The comma before them is read, behind which the list may end.
#[tactic(auto, unfolding(jessie_grammar::specs::Parse::symbol))]
pub fn next_place(tokens: &[Token], close: Kind) -> (bool, &[Token])
    ensures { next_place close tokens.now ≡ Ok (result.0, result.1.now) }
{
    match tokens {
        [token, rest @ ..] if number_of(Kind::Comma) == number_of(token.kind) => {
            if is(rest, Kind::Comma) || is(rest, close) {
                return (false, rest);
            }
            (true, rest)
        }
        _ => (false, tokens),
    }
}

fn sign_by(kind: Kind) -> Unary
    ensures { result ≡ words.sign_by kind }
{
    match kind {
        Kind::Not => Unary::Not,
        _ => Unary::Negate,
    }
}

/// The operator before an operand.
pub fn sign(tokens: &[Token]) -> Result<(Unary, &[Token]), ParseError>
    ensures { Gives (λ x. (x.0, x.1.now)) result (one words.signs words.sign_of free tokens.now) }
{
    match tokens {
        [token, rest @ ..] if is_sign(token.kind) => Ok((sign_by(token.kind), rest)),
        _ => Err(refusal(tokens)),
    }
}

fn operator_by(kind: Kind) -> Operator
    ensures { result ≡ words.operator_by kind }
{
    match kind {
        Kind::Or => Operator::Or,
        Kind::And => Operator::And,
        Kind::Same => Operator::Equal,
        Kind::Differs => Operator::Unequal,
        Kind::Less => Operator::Less,
        Kind::AtMost => Operator::AtMost,
        Kind::Greater => Operator::Greater,
        Kind::AtLeast => Operator::AtLeast,
        Kind::Plus => Operator::Add,
        Kind::Minus => Operator::Subtract,
        Kind::Times => Operator::Multiply,
        Kind::Over => Operator::Divide,
        _ => Operator::Remainder,
    }
}

/// An operator of the level.
pub fn operator(tokens: &[Token], level: u8) -> Result<(Operator, &[Token]), ParseError>
    ensures { Gives (λ x. (x.0, x.1.now)) result
        (one (level_at level).0 words.operator_of free tokens.now) }
{
    match tokens {
        [token, rest @ ..] if is_operator(token.kind, level) => {
            Ok((operator_by(token.kind), rest))
        }
        _ => Err(refusal(tokens)),
    }
}

fn binding_by(kind: Kind) -> Binding
    ensures { result ≡ words.binding_by kind }
{
    match kind {
        Kind::Let => Binding::Variable,
        _ => Binding::Constant,
    }
}

fn begins_declaration(kind: Kind) -> bool
    ensures { result ≡ has (Kind.Const ∷ Kind.Let ∷ []) kind }
{
    let n = number_of(kind);
    n == 6 || n == 7
}

/// What a declaration begins with: `const` or `let`.
pub fn binding(tokens: &[Token]) -> Result<(Binding, &[Token]), ParseError>
    ensures { Gives (λ x. (x.0, x.1.now)) result
        (one (Kind.Const ∷ Kind.Let ∷ []) words.binding_of free tokens.now) }
{
    match tokens {
        [token, rest @ ..] if begins_declaration(token.kind) => {
            Ok((binding_by(token.kind), rest))
        }
        _ => Err(refusal(tokens)),
    }
}
