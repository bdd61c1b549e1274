//! Keywords of proposals, issuer records and allocations.
ghost use Rattle.std.specs.Prelude.{◌≡◌, ◌↔◌, IfOk, IfErr, IsTrue, false};
ghost use Rattle.std.specs.Str.{bytes_eq};
ghost use Rattle.host_text.specs.Words as words;

use crate::text::Text;
use crate::word::{MOST_BYTES, goes_on};
use std::alloc::{AllocError, Global};
use std::marker::Model;
use std::str;

/// A JavaScript word that is no keyword here.
fn is_reserved(bytes: &[u8]) -> bool
    ensures { result ≡ words.is_reserved bytes.now }
{
    bytes == b"NaN".as_slice() || bytes == b"Infinity".as_slice()
}

/// Why no keyword was read.
#[derive(Clone, Copy, PartialEq, Eq)]
pub enum KeywordFault {
    /// The text has not the form of a keyword.
    BadKeyword,
    NoMemory,
}

/// A keyword (Zoe): `[A-Z][A-Za-z0-9_]*` of 1 to 32 bytes, but not `NaN` or `Infinity`. Contracts see
/// it as its bytes.
pub struct Keyword {
    text: Text,
}

impl Drop for Keyword {
    fn drop(self) {
        let Keyword { text: _ } = self;
    }
}

impl Model for Keyword {
    ghost use Rattle.std.specs.Prelude.{ℕ, List, IsTrue};
    ghost use Rattle.host_text.specs.Words.{is_keyword};

    ghost Value = { List ℕ };

    ghost view = { λ k. k.text };

    ghost invariant = { λ k. IsTrue (is_keyword k.text) };
}

impl Keyword {
    /// Whether the bytes have the form of a keyword.
    pub fn is_keyword(bytes: &[u8]) -> bool
        ensures { result ≡ words.is_keyword bytes.now }
    {
        match bytes {
            [] => false,
            [first, others @ ..] => {
                first.is_ascii_uppercase()
                    && goes_on(others)
                    && bytes.len() <= MOST_BYTES
                    && !is_reserved(bytes)
            }
        }
    }

    /// The keyword that the bytes are.
    pub fn read(alloc: Global, bytes: &[u8]) -> Result<Keyword, KeywordFault>
        ensures bytes { IfOk result (λ keyword. keyword ≡ bytes.now) }
        ensures form { IfOk result (λ _. IsTrue (words.is_keyword bytes.now)) }
        ensures bad { IfErr result (λ fault. (fault ≡ KeywordFault.BadKeyword) ↔ (words.is_keyword bytes.now ≡ false)) }
    {
        if !Keyword::is_keyword(bytes) {
            return Err(KeywordFault::BadKeyword);
        }
        let Ok(text) = str::from_utf8(bytes) else {
            unreachable!()
        };
        match Text::from_str(alloc, text) {
            Ok(text) => Ok(Keyword { text }),
            Err(_) => Err(KeywordFault::NoMemory),
        }
    }

    pub fn copy(&self, alloc: Global) -> Result<Keyword, AllocError>
        ensures { IfOk result (λ copy. copy ≡ self.now) }
    {
        let text = self.text.copy(alloc)?;
        Ok(Keyword { text })
    }

    pub fn as_str(&self) -> &str
        ensures text { result.now ≡ self.now }
        ensures form { IsTrue (words.is_keyword self.now) }
    {
        self.text.as_str()
    }

    /// Whether both are one keyword.
    pub fn is(&self, other: &Keyword) -> bool
        ensures { result ≡ bytes_eq self.now other.now }
    {
        self.text.is(&other.text)
    }
}
