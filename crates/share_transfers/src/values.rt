//! The values of what transfers ask for.

ghost use Rattle.std.specs.Prelude.{◌≡◌, All, IfSome, None, map};
ghost use Rattle.call_arguments.specs.Records.{shares_data};
ghost use Rattle.refusals.specs.Outcomes.{Gives};
ghost use Rattle.rules.specs.Rearranging.{transfer_of, transfers_of, valued_or_none};
ghost use Rattle.share_transfers.specs.Fine.{AreFine, IsFine};
ghost use Rattle.share_transfers.specs.Views.{asked_view, asked_views, shares_view, transfer_view, transfer_views, values_view};

use crate::shares::GivenTransfer;
use call_arguments::proposals_lib::allocations::Share;
use call_arguments::records::GivenShare;
use contract_reads::shares::valued_shares;
use refusals::stops::Stop;
use std::alloc::Global;

/// A transfer with the values of its shares, however many these are.
#[derive(Drop)]
pub struct ShareTransfer {
    /// The number of the seat that gives.
    pub from: Option<u32>,
    /// The number of the seat that gets.
    pub to: Option<u32>,
    /// What is taken.
    pub losses: Option<Vec<Share>>,
    /// What is given, where that is not what is taken.
    pub gains: Option<Vec<Share>>,
}

/// The values of shares, where there are: else `BadValue`.
#[tactic(auto, unfolding(rules::specs::Rearranging::valued_or_none, refusals::specs::Outcomes::bind))]
fn valued_or_none(
    alloc: Global,
    shares: &Option<Vec<GivenShare>>,
) -> Result<Option<Vec<Share>>, Stop>
    requires { IfSome shares.now (λ shares. AreFine shares.items) }
    ensures { Gives values_view result (valued_or_none (shares_view shares.now)) }
{
    match shares {
        Some(shares) => {
            let values = valued_shares(alloc, shares.as_slice())?;
            Ok(Some(values))
        }
        None => Ok(None),
    }
}

/// A transfer with the values of its shares: else `BadValue`.
#[tactic(auto, unfolding(rules::specs::Rearranging::transfer_of, refusals::specs::Outcomes::bind))]
fn transfer_of(alloc: Global, given: &GivenTransfer) -> Result<ShareTransfer, Stop>
    requires { IsFine given.now }
    ensures { Gives transfer_view result (transfer_of (asked_view given.now)) }
{
    let losses = valued_or_none(alloc, &given.losses)?;
    let gains = valued_or_none(alloc, &given.gains)?;
    Ok(ShareTransfer {
        from: given.from,
        to: given.to,
        losses,
        gains,
    })
}

/// All transfers with the values of their shares: else `BadValue` (ERTP).
#[tactic(auto, unfolding(refusals::specs::Outcomes::bind))]
pub fn transfers_of(alloc: Global, read: &[GivenTransfer]) -> Result<Vec<ShareTransfer>, Stop>
    requires { All IsFine read.now }
    ensures { Gives (λ list. transfer_views list.items) result
        (transfers_of (asked_views read.now)) }
{
    let mut list = Vec::new(alloc);
    for given in read {
        list.push(transfer_of(alloc, given)?)?;
    }
    Ok(list)
}
