//! Literals.
ghost use Rattle.std.specs.Prelude.{[], ◌∷◌, ◌≡◌, ◌≤◌, length, IfOk, None, Some};
ghost use Rattle.jessie_grammar.specs.Tokens.{has};
ghost use Rattle.jessie_grammar.specs.Lex.{limit};
ghost use Rattle.jessie_grammar.specs.Parse.{Gives, one};
ghost use Rattle.jessie_grammar.specs.Words as words;

use crate::kinds::is_literal;
use crate::symbols::{limit_refusal, refusal};
use jessie_grammar::jessie_language::fault::{Limit, ParseError};
use jessie_grammar::jessie_lexer::token::{Kind, Token, number_of};
use jessie_grammar::syntax::Literal;
use std::alloc::{AllocError, Global};

/// The largest number that a text may have: 2^127 - 1.
const LARGEST_NUMBER: u128 = 170141183460469231731687303715884105727;

fn literal_of(alloc: Global, token: &Token) -> Result<Literal, AllocError>
    requires { token.now.number ≤ limit }
    ensures { IfOk result (λ literal. literal ≡ words.literal_of token.now) }
{
    match token.kind {
        Kind::Number => Ok(Literal::Number(token.number as i128)),
        Kind::Quoted => Ok(Literal::Text(token.text.copy(alloc)?)),
        Kind::True => Ok(Literal::Bool(true)),
        Kind::False => Ok(Literal::Bool(false)),
        _ => Ok(Literal::Null),
    }
}

/// A literal: a number, a text, `true`, `false` or `null`.
pub fn literal(alloc: Global, tokens: &[Token]) -> Result<(Literal, &[Token]), ParseError>
    ensures { Gives (λ x. (x.0, x.1.now)) result
        (one words.literals words.literal_of words.wide tokens.now) }
{
    match tokens {
        [token, rest @ ..] if is_literal(token.kind) => {
            if LARGEST_NUMBER < token.number {
                return Err(limit_refusal(tokens, Limit::Wide));
            }
            Ok((literal_of(alloc, token)?, rest))
        }
        _ => Err(refusal(tokens)),
    }
}

fn is_number(kind: Kind) -> bool
    ensures { result ≡ has (Kind.Number ∷ []) kind }
{
    number_of(kind) == 19
}

/// The number of a negative literal, whose minus stands before it.
pub fn negative(tokens: &[Token]) -> Result<(Literal, &[Token]), ParseError>
    ensures { Gives (λ x. (x.0, x.1.now)) result
        (one (Kind.Number ∷ []) words.negative_of words.wide tokens.now) }
{
    match tokens {
        [token, rest @ ..] if is_number(token.kind) => {
            if LARGEST_NUMBER < token.number {
                return Err(limit_refusal(tokens, Limit::Wide));
            }
            Ok((Literal::Number(-(token.number as i128)), rest))
        }
        _ => Err(refusal(tokens)),
    }
}
