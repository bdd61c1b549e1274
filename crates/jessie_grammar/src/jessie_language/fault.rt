//! Why tokens are not read.
ghost use Rattle.std.specs.Prelude.{◌≡◌};
ghost use Rattle.jessie_grammar.specs.declared.jessie_language.fault.ParseError.TheVariants.{NoMemory};

use std::alloc::{AllocError, AllocFailed};

/// A limit that a token can break. Of several at one token the first counts.
#[derive(Clone, Copy)]
pub enum Limit {
    /// A number over 2^127 - 1.
    Wide,
    /// A name over 64 bytes.
    TooLong,
    /// One open bracket too many.
    TooDeep,
    /// The name of one function, parameter or state variable too many.
    TooMany,
}

/// Why tokens are not read.
#[derive(Drop)]
pub enum ParseError {
    NoMemory,
    /// The first refusal: the limit that its token breaks, or none where no rule goes on with that
    /// token, and how many tokens there are from it on.
    Refused(Option<Limit>, usize),
}

impl From<AllocError> for ParseError {
    ghost from_gives = { λ _ e. e ≡ NoMemory };

    fn from(_e: AllocError) -> ParseError {
        ParseError::NoMemory
    }
}

impl<T: Drop> From<AllocFailed<T>> for ParseError {
    ghost from_gives = { λ _ e. e ≡ NoMemory };

    fn from(_e: AllocFailed<T>) -> ParseError {
        ParseError::NoMemory
    }
}
