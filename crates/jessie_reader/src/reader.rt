//! A contract text from its bytes to its module or its refusal.
ghost use Rattle.std.specs.Prelude.{◌≡◌, length};
ghost use Rattle.jessie_grammar.specs.Rules as rules;
ghost use Rattle.jessie_grammar.specs.Texts.{Answer, Comes, most_brackets};
ghost use Rattle.jessie_grammar.specs.Answers.{IfAnswered, Reads, by_tokens, read};

use crate::module::parse;
use jessie_grammar::jessie_language::fault::ParseError;
use jessie_grammar::jessie_lexer::lexer::tokens;
use jessie_grammar::jessie_lexer::token::Token;
use jessie_grammar::jessie_texts::answers::{check, text_refusal, token_refusal};
use jessie_grammar::jessie_texts::refusal::{ReadError, Refusal};
use jessie_grammar::syntax::Module;
use std::alloc::Global;

/// How many bytes a text may have.
const MOST_BYTES: usize = 65536;

/// How many brackets may be open.
const MOST_BRACKETS: u32 = 32;

/// The module that a text of `total` bytes with these tokens is, or its first refusal.
fn module_of(alloc: Global, total: usize, tokens: &[Token]) -> Result<Module, ReadError>
    ensures { Reads result (by_tokens total tokens.now (rules.text most_brackets tokens.now)) }
{
    match parse(alloc, tokens, MOST_BRACKETS) {
        Ok((tree, name_uses)) => {
            check(alloc, total, &tree, name_uses.as_slice())?;
            Ok(tree)
        }
        Err(ParseError::NoMemory) => Err(ReadError::NoMemory),
        Err(ParseError::Refused(limit, left)) => { Err(token_refusal(total, tokens, limit, left)) }
    }
}

/// The module that a text is, or its first refusal.
#[tactic(auto, unfolding(jessie_grammar::specs::Answers::read))]
fn answer(alloc: Global, bytes: &[u8]) -> Result<Module, ReadError>
    ensures { Reads result (read bytes.now) }
{
    if bytes.len() > MOST_BYTES {
        return Err(text_refusal(MOST_BYTES, Refusal::TooLong));
    }
    let tokens = tokens(alloc, bytes)?;
    module_of(alloc, bytes.len(), tokens.as_slice())
}

/// The module that a text is, or its first refusal: a text of over 65,536 bytes at place 65536; then, at
/// the first such token or at the text's end, what no rule goes on with, a number that is too wide, a name
/// that is too long, a bracket too deep, a name of a function, parameter or state variable too many; then,
/// by place, what is wrong with a name; then, at the text's length, that there is no function `start`. It
/// reads a text exactly where it is one, and of the rest each has one refusal, this one. Want of memory
/// alone leaves a text without an answer. The language is this project's own, in the manner of Jessie.
pub fn read_module(alloc: Global, bytes: &[u8]) -> Result<Module, ReadError>
    ensures comes { IfAnswered result (λ answer. Comes bytes.now answer) }
    ensures alone { IfAnswered result
        (λ answer. (other : Answer) → Comes bytes.now other → other ≡ answer) }
    ensures told { Reads result (read bytes.now) }
{
    answer(alloc, bytes)
}
