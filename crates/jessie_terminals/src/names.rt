//! Names where one may stand, each lent as the token that it is.
ghost use Rattle.std.specs.Prelude.{[], ◌∷◌, ◌≡◌, length, None, Some};
ghost use Rattle.jessie_grammar.specs.Parse.{Gives, one};
ghost use Rattle.jessie_grammar.specs.StatementList.{names_after};
ghost use Rattle.jessie_grammar.specs.Rules as rules;
ghost use Rattle.jessie_grammar.specs.Words as words;

use crate::kinds::{is_free_word, is_leading_word, is_word};
use crate::symbols::{limit_refusal, refusal};
use jessie_grammar::jessie_language::fault::{Limit, ParseError};
use jessie_grammar::jessie_lexer::token::Token;

/// How many bytes a name may have.
const LONGEST_NAME: usize = 64;

/// The limit that a name breaks.
fn length_limit(token: &Token) -> Option<Limit>
    ensures { result ≡ words.long token.now }
{
    if token.text.len() <= LONGEST_NAME {
        None
    } else {
        Some(Limit::TooLong)
    }
}

/// The limit that a declared name breaks, where one more may be declared or not.
fn declaration_limit(token: &Token, more: bool) -> Option<Limit>
    ensures { result ≡ words.declared more token.now }
{
    if LONGEST_NAME < token.text.len() {
        return Some(Limit::TooLong);
    }
    if more { None } else { Some(Limit::TooMany) }
}

/// A name where only a name may stand.
#[tactic(auto, unfolding(jessie_grammar::specs::Rules::name))]
pub fn name(tokens: &[Token]) -> Result<(&Token, &[Token]), ParseError>
    ensures { Gives (λ x. (words.spotted x.0.now, x.1.now)) result (rules.name tokens.now) }
{
    match tokens {
        [token, rest @ ..] if is_word(token.kind) => match length_limit(token) {
            None => Ok((token, rest)),
            Some(limit) => Err(limit_refusal(tokens, limit)),
        },
        _ => Err(refusal(tokens)),
    }
}

/// A name where an expression may begin.
pub fn free_name(tokens: &[Token]) -> Result<(&Token, &[Token]), ParseError>
    ensures { Gives (λ x. (words.spotted x.0.now, x.1.now)) result
        (one words.free_words words.spotted words.long tokens.now) }
{
    match tokens {
        [token, rest @ ..] if is_free_word(token.kind) => match length_limit(token) {
            None => Ok((token, rest)),
            Some(limit) => Err(limit_refusal(tokens, limit)),
        },
        _ => Err(refusal(tokens)),
    }
}

/// A name where a statement begins, which may stand after an `if` that may go on.
pub fn leading_name(tokens: &[Token], after_if: bool) -> Result<(&Token, &[Token]), ParseError>
    ensures { Gives (λ x. (words.spotted x.0.now, x.1.now)) result
        (one (names_after after_if) words.spotted words.long tokens.now) }
{
    match tokens {
        [token, rest @ ..] if is_leading_word(token.kind, after_if) => match length_limit(token) {
            None => Ok((token, rest)),
            Some(limit) => Err(limit_refusal(tokens, limit)),
        },
        _ => Err(refusal(tokens)),
    }
}

/// A name that is declared where one more may be declared or not.
pub fn declared_name(tokens: &[Token], more: bool) -> Result<(&Token, &[Token]), ParseError>
    ensures { Gives (λ x. (words.spotted x.0.now, x.1.now)) result
        (one words.words words.spotted (words.declared more) tokens.now) }
{
    match tokens {
        [token, rest @ ..] if is_word(token.kind) => match declaration_limit(token, more) {
            None => Ok((token, rest)),
            Some(limit) => Err(limit_refusal(tokens, limit)),
        },
        _ => Err(refusal(tokens)),
    }
}
