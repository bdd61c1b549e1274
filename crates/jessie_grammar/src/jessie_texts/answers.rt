//! The steps from the tokens of a text to its answer.
ghost use Rattle.std.specs.Prelude.{◌≡◌, length};
ghost use Rattle.jessie_grammar.specs.Scopes.{first_fault as first_wrong};
ghost use Rattle.jessie_grammar.specs.Texts as texts;
ghost use Rattle.jessie_grammar.specs.Answers as spec;

use crate::jessie_language::fault::Limit;
use crate::jessie_lexer::token::Token;
use crate::jessie_scopes::name_use::{NameFault, NameUse};
use crate::jessie_scopes::scopes::first_fault;
use crate::jessie_texts::refusal::{ReadError, Refusal, TextRefusal};
use crate::syntax::{Function, Module};
use std::alloc::Global;

/// The kind of a refused token: of the limit that it breaks, or that no rule goes on with it.
fn kind_of(limit: Option<Limit>) -> Refusal
    ensures { result ≡ texts.kind_of limit }
{
    match limit {
        None => Refusal::Syntax,
        Some(Limit::Wide) => Refusal::Wide,
        Some(Limit::TooLong) => Refusal::TooLong,
        Some(Limit::TooDeep) => Refusal::TooDeep,
        Some(Limit::TooMany) => Refusal::TooMany,
    }
}

/// The kind of a refused name.
fn name_kind(fault: NameFault) -> Refusal
    ensures { result ≡ texts.name_kind fault }
{
    match fault {
        NameFault::Reserved => Refusal::Reserved,
        NameFault::Duplicate => Refusal::Duplicate,
        NameFault::Unknown => Refusal::Unknown,
        NameFault::AssignConst => Refusal::AssignConst,
    }
}

/// The place of the token from which on `left` tokens are left; where none is, the text's length.
fn place_of(total: usize, tokens: &[Token], left: usize) -> usize
    ensures { result ≡ spec.place_of total tokens.now left }
{
    let from = tokens.len().saturating_sub(left);
    match &tokens[from..] {
        [] => total,
        [token, ..] => token.at,
    }
}

/// The refusal of a text at a place.
pub fn text_refusal(place: usize, kind: Refusal) -> ReadError
    ensures { result ≡ ReadError.Refused (texts.refusal place kind) }
{
    ReadError::Refused(TextRefusal { place, kind })
}

/// The refusal of a text of `total` bytes at a token, where `left` tokens are left with it.
pub fn token_refusal(total: usize, tokens: &[Token], limit: Option<Limit>, left: usize) -> ReadError
    ensures { result ≡ ReadError.Refused
        (texts.refusal (spec.place_of total tokens.now left) (texts.kind_of limit)) }
{
    text_refusal(place_of(total, tokens, left), kind_of(limit))
}

/// Whether one of the functions has the name.
fn has_function(name: &str, functions: &[Function]) -> bool
    ensures { result ≡ texts.has_function name.now functions.now }
{
    let mut rest = functions;
    'functions: while let [function, later @ ..] = rest {
        if function.name.as_str() == name {
            return true;
        }
        rest = later;
    }
    false
}

/// Nothing, if the names of a text of `total` bytes with this tree are as they may be, and it has a
/// function `start`. The rules are this project's own.
pub fn check(
    alloc: Global,
    total: usize,
    tree: &Module,
    name_uses: &[NameUse],
) -> Result<(), ReadError>
    ensures { spec.Passes tree.now result (spec.by_names total tree.now (first_wrong name_uses.now)) }
{
    if let Some((place, fault)) = first_fault(alloc, name_uses)? {
        return Err(text_refusal(place, name_kind(fault)));
    }
    if !has_function("start", tree.functions.as_slice()) {
        return Err(text_refusal(total, Refusal::NoStart));
    }
    Ok(())
}
