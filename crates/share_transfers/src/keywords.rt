//! The keywords of shares that are given for seats.

ghost use Rattle.std.specs.Prelude.{◌≡◌, None, OnOk, map, option_map};
ghost use Rattle.refusals.specs.host_text.Words.{is_keyword};
ghost use Rattle.call_arguments.specs.Records.{are_keywords, first_ill};
ghost use Rattle.refusals.specs.Outcomes.{Gives};
ghost use Rattle.share_transfers.specs.Views.{keywords_of, seat_shares};

use crate::shares::GivenSeatShare;
use refusals::codes::TextCode;
use refusals::host_text_lib::keyword::Keyword;
use refusals::host_text_lib::text::Text;
use refusals::stops::Stop;
use std::alloc::Global;

/// Whether the share is under a keyword.
fn is_named(share: &GivenSeatShare) -> bool
    ensures { result ≡ is_keyword share.now.share.keyword.now }
{
    Keyword::is_keyword(share.share.keyword.as_str().as_bytes())
}

/// The first name of a share that is no keyword.
#[tactic(auto, unfolding(call_arguments::specs::Records::first_ill))]
fn first_ill<'a>(shares: &[GivenSeatShare<'a>]) -> Option<&'a Text>
    ensures { option_map (λ name. name.now) result
        ≡ first_ill (keywords_of (seat_shares shares.now)) }
{
    for share in shares {
        if !is_named(share) {
            return Some(share.share.keyword);
        }
    }
    None
}

/// That each share is under a keyword: else `BadKeyword` with the first name that is none (Zoe).
#[tactic(auto, unfolding(refusals::specs::Outcomes::none_such))]
pub fn check_keywords(alloc: Global, shares: &[GivenSeatShare]) -> Result<(), Stop>
    ensures gives { Gives (λ _. tt) result (are_keywords (keywords_of (seat_shares shares.now))) }
    ensures named { OnOk result (first_ill (keywords_of (seat_shares shares.now)) ≡ None) }
{
    match first_ill(shares) {
        Some(name) => Err(Stop::worded(alloc, TextCode::BadKeyword, name.as_str())),
        None => Ok(()),
    }
}
