//! What is staged of seats, by their numbers.
ghost use Rattle.std.specs.Prelude.{◌≡◌, ℕ, ◌==◌, [], None, Some, if◌then◌else◌, IfErr, IfOk, OnErr, OnOk};
ghost use Rattle.std.specs.Map.{keys_of};
ghost use Rattle.std.specs.Option.{option_copied};
ghost use Rattle.seats.specs.Staging.{staged_at, with_staged, without_staged};

use proposals::allocations::Allocation;
use std::alloc::{AllocError, Global};
use std::collections::BTreeMap;
use std::marker::Model;

/// What is staged of each seat. Contracts see it by number, in order.
pub(crate) struct Staging {
    shares: BTreeMap<u32, Allocation>,
}

impl Drop for Staging {
    fn drop(self) {
        let Staging { shares: _ } = self;
    }
}

impl Model for Staging {
    ghost use Rattle.std.specs.Prelude.{ℕ, List};
    ghost use Rattle.proposals.specs.declared.allocations.Share.{Share};
    ghost use Rattle.seats.specs.Staging.{coded_staging};

    ghost Value = { List (ℕ × List Share) };

    ghost coded = { coded_staging };

    ghost view = { λ a. a.shares.entries };
}

impl Staging {
    pub(crate) fn new(alloc: Global) -> Staging
        ensures { result ≡ [] }
    {
        Staging {
            shares: BTreeMap::new(alloc),
        }
    }

    /// What is staged of a seat.
    pub(crate) fn get(&self, seat: u32) -> Option<&Allocation>
        ensures { option_copied result ≡ staged_at seat self.now }
    {
        self.shares.get(&seat)
    }

    /// Stages shares of a seat, in place of what was, or hands them back for want of memory.
    pub(crate) fn put(&mut self, seat: u32, shares: Allocation) -> Result<(), Allocation>
        ensures ok { OnOk result (self.new ≡ with_staged seat shares self.old) }
        ensures looks { OnOk result ((n : ℕ) → staged_at n self.new ≡ (if seat == n then Some shares else staged_at n self.old)) }
        ensures back { IfErr result (λ back. back ≡ shares) }
        ensures err { OnErr result (self.new ≡ self.old) }
    {
        match self.shares.insert(seat, shares) {
            Ok(_) => Ok(()),
            Err(failed) => Err(failed.value.1),
        }
    }

    /// Lets go of what is staged of a seat.
    pub(crate) fn remove(&mut self, seat: u32)
        ensures removed { self.new ≡ without_staged seat self.old }
        ensures looks { (n : ℕ) → staged_at n self.new ≡ (if seat == n then None else staged_at n self.old) }
    {
        self.shares.remove(&seat);
    }

    /// Lets go of all.
    pub(crate) fn clear(&mut self)
        ensures { self.new ≡ [] }
    {
        self.shares.clear();
    }

    /// The seats that have something staged, in the order of their numbers.
    pub(crate) fn seats(&self, alloc: Global) -> Result<Vec<u32>, AllocError>
        ensures { IfOk result (λ seats. seats.items ≡ keys_of self.now) }
    {
        self.shares.keys().copied().collect(alloc)
    }
}
