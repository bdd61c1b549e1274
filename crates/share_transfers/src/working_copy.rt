//! The working copy of transfers: what the seats have that were changed. Any other has what its state says.

ghost use Rattle.std.specs.Prelude.{◌≡◌, [], All, OnOk};
ghost use Rattle.call_arguments.specs.proposals.Shares.{AreApart};
ghost use Rattle.rearrange.specs.Working as copies;
ghost use Rattle.share_transfers.specs.Changed.{changed_seats, shares_on};

use call_arguments::proposals_lib::allocations::Share;
use indexmap::IndexMap;
use rearrange::seat_states::SeatStates;
use std::alloc::{AllocError, Global};

/// What the seats have that were changed, by their numbers.
#[derive(Drop)]
pub struct WorkingCopy {
    pub changed: IndexMap<u32, Vec<Share>>,
}

impl WorkingCopy {
    /// A working copy on which no seat was changed.
    pub fn new(alloc: Global) -> WorkingCopy
        ensures { changed_seats result ≡ [] }
    {
        WorkingCopy {
            changed: IndexMap::new(alloc),
        }
    }

    /// What a seat has on the working copy.
    pub fn shares<'a>(&'a self, states: &'a SeatStates, seat: u32) -> &'a [Share]
        ensures shares { result.now ≡ shares_on states.now self.now seat }
        ensures apart { All (λ s. AreApart s.shares.items) (changed_seats self.now)
            → AreApart result.now }
    {
        match self.changed.get(&seat) {
            Some(shares) => shares.as_slice(),
            None => states.allocation_of(seat),
        }
    }

    /// Puts shares down as what a seat has.
    pub fn put(&mut self, seat: u32, shares: Vec<Share>) -> Result<(), AllocError>
        ensures { OnOk result (changed_seats self.new
            ≡ copies.put_shares seat shares (changed_seats self.old)) }
    {
        match self.changed.insert(seat, shares) {
            Ok(_) => Ok(()),
            Err(_) => Err(AllocError),
        }
    }
}
