//! Keywords that a call is given.

ghost use Rattle.std.specs.Prelude.{◌≡◌, true, IfOk};
ghost use Rattle.refusals.specs.host_text.Words.{is_keyword};

use refusals::host_text_lib::keyword::{Keyword, KeywordFault};
use refusals::host_text_lib::text::Text;
use std::alloc::{AllocError, Global};

/// A keyword of its own, of a text that has the form of one.
pub fn keyword_of(alloc: Global, text: &Text) -> Result<Keyword, AllocError>
    requires { is_keyword text.now ≡ true }
    ensures { IfOk result (λ keyword. keyword ≡ text.now) }
{
    match Keyword::read(alloc, text.as_str().as_bytes()) {
        Ok(keyword) => Ok(keyword),
        Err(KeywordFault::NoMemory) => Err(AllocError),
        Err(KeywordFault::BadKeyword) => unreachable!(),
    }
}
