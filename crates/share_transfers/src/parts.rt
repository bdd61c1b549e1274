//! The form of transfers.

ghost use Rattle.std.specs.Prelude.{◌≡◌, option_map};
ghost use Rattle.host_data.specs.Amounts.{read_all};
ghost use Rattle.host_data.specs.View.{tree, trees};
ghost use Rattle.refusals.specs.Codes.{bad_args};
ghost use Rattle.refusals.specs.Outcomes.{Gives, wanted};
ghost use Rattle.rules.specs.Rearranging.{has_gains, has_losses, is_whole, parts_from, parts_in};
ghost use Rattle.share_transfers.specs.Views.{parts_view, parts_views};

use call_arguments::places::is_missing;
use host_data::data::Data;
use refusals::codes::NumberCode;
use refusals::stops::Stop;
use std::alloc::Global;

/// The parts of a transfer as they stand, `None` where one is missing (Zoe's transfer part).
#[derive(Clone, Copy)]
pub struct GivenParts<'a> {
    /// The seat that gives.
    pub from: Option<&'a Data>,
    /// The seat that gets.
    pub to: Option<&'a Data>,
    /// What is taken.
    pub losses: Option<&'a Data>,
    /// What is given, where that is not what is taken.
    pub gains: Option<&'a Data>,
}

/// The parts that a list of two to four stands for.
fn parts_from(items: &[Data]) -> Option<GivenParts<'_>>
    ensures { option_map parts_view result ≡ parts_from (trees items.now) }
{
    let (from, to, losses, gains) = match items {
        [from, to] => (from, to, None, None),
        [from, to, losses] => (from, to, Some(losses), None),
        [from, to, losses, gains] => (from, to, Some(losses), Some(gains)),
        _ => return None,
    };
    Some(GivenParts {
        from: Some(from),
        to: Some(to),
        losses,
        gains,
    })
}

/// Whether a seat that gives stands with what it gives, and no seat with nothing.
fn has_losses(parts: &GivenParts) -> bool
    ensures { result ≡ has_losses (parts_view parts.now) }
{
    if is_missing(parts.from) {
        is_missing(parts.losses)
    } else {
        !is_missing(parts.losses)
    }
}

/// Whether a seat that gets stands with what it gets, or what is given is what it gets.
fn has_gains(parts: &GivenParts) -> bool
    ensures { result ≡ has_gains (parts_view parts.now) }
{
    if is_missing(parts.to) {
        is_missing(parts.gains)
    } else {
        !(is_missing(parts.losses) && is_missing(parts.gains))
    }
}

/// Whether some seat stands there, and each with what is its.
fn is_whole(parts: &GivenParts) -> bool
    ensures { result ≡ is_whole (parts_view parts.now) }
{
    let none = is_missing(parts.from) && is_missing(parts.to);
    !none && has_losses(parts) && has_gains(parts)
}

/// The parts of a transfer, where data has the form of one.
fn parts_in(item: &Data) -> Option<GivenParts<'_>>
    ensures { option_map parts_view result ≡ parts_in (tree item.now) }
{
    let items = item.items()?;
    let parts = parts_from(items)?;
    if is_whole(&parts) { Some(parts) } else { None }
}

/// The parts of all transfers: else `BadArgs` 1 (own).
#[tactic(auto, unfolding(refusals::specs::Outcomes::wanted))]
pub fn all_parts(alloc: Global, items: &[Data]) -> Result<Vec<GivenParts<'_>>, Stop>
    ensures { Gives (λ list. parts_views list.items) result
        (wanted (read_all parts_in (trees items.now)) (bad_args 1)) }
{
    let mut list = Vec::new(alloc);
    for item in items {
        let Some(parts) = parts_in(item) else {
            return Err(Stop::numbered(NumberCode::BadArgs, 1));
        };
        list.push(parts)?;
    }
    Ok(list)
}
