//! The running totals of one brand, and what a movement makes of them, forwards and backwards.

ghost use Rattle.std.specs.Prelude.{◌≡◌, ◌+◌, ◌<◌, ◌≤◌, ◌^◌};
ghost use Rattle.rights_model.specs.Supply.{is_outside};
ghost use Rattle.escrow.specs.Running.{CanMoveBack, CanMoveTotals, HasPortion, IsGiven, IsLowered, IsMoved, IsTaken, kept_in, portion, sum_by, zeros};

use rights_model::{Holder, Sum};

/// Counts of a brand, all its elements together.
#[derive(Clone, Copy)]
pub struct Totals {
    /// What came from Outside since the start.
    pub minted: u128,
    /// What went to Outside since the start.
    pub burned: u128,
    /// What all purses have, then all payments, then all slots.
    pub purses: u128,
    pub payments: u128,
    pub slots: u128,
}

impl Totals {
    /// The totals of a brand of which nothing was moved.
    pub fn zero() -> Totals
        ensures { result ≡ zeros }
    {
        Totals {
            minted: 0,
            burned: 0,
            purses: 0,
            payments: 0,
            slots: 0,
        }
    }

    /// The same as a brand's sum.
    pub fn sum(&self, brand: u16) -> Sum
        ensures { result ≡ sum_by brand self.now }
    {
        Sum {
            brand,
            minted: self.minted,
            burned: self.burned,
            purses: self.purses,
            payments: self.payments,
            slots: self.slots,
        }
    }

    /// That much goes from one holder to another.
    pub fn shift(&mut self, from: &Holder, to: &Holder, count: u128)
        requires { CanMoveTotals self.old from.now to.now count }
        ensures { IsMoved self.old self.new from.now to.now count }
    {
        self.take(from, count);
        self.give(to, count);
    }

    /// Works `shift` backwards.
    pub fn undo_shift(&mut self, from: &Holder, to: &Holder, count: u128)
        requires { CanMoveBack self.old from.now to.now count }
        ensures { IsMoved self.new self.old from.now to.now count }
    {
        self.undo_give(to, count);
        self.undo_take(from, count);
    }

    /// That much leaves a holder.
    fn take(&mut self, from: &Holder, count: u128)
        requires has { HasPortion self.old from.now count }
        requires room { self.old.minted + portion is_outside from.now count < 2 ^ 128 }
        ensures { IsTaken self.old self.new from.now count }
    {
        match from {
            Holder::Outside => self.minted += count,
            _ => self.lower(from, count),
        }
    }

    /// That much comes to a holder.
    fn give(&mut self, to: &Holder, count: u128)
        requires { kept_in self.old + count < 2 ^ 128 }
        ensures { IsGiven self.old self.new to.now count }
    {
        match to {
            Holder::Outside => self.burned += count,
            _ => self.raise(to, count),
        }
    }

    /// Works `take` backwards.
    fn undo_take(&mut self, from: &Holder, count: u128)
        requires { kept_in self.old + count ≤ self.old.minted }
        ensures { IsTaken self.new self.old from.now count }
    {
        let minted = self.minted;
        match from {
            Holder::Outside => self.minted = minted - count,
            _ => self.raise(from, count),
        }
    }

    /// Works `give` backwards.
    fn undo_give(&mut self, to: &Holder, count: u128)
        requires has { HasPortion self.old to.now count }
        requires burned { portion is_outside to.now count ≤ self.old.burned }
        ensures { IsGiven self.new self.old to.now count }
    {
        match to {
            Holder::Outside => self.burned -= count,
            _ => self.lower(to, count),
        }
    }

    /// Holders of this one's kind have so much less.
    fn lower(&mut self, holder: &Holder, count: u128)
        requires { HasPortion self.old holder.now count }
        ensures { IsLowered self.old self.new holder.now count }
    {
        match holder {
            Holder::Purse(_) => self.purses -= count,
            Holder::Payment(_) => self.payments -= count,
            Holder::Slot(_, _) => self.slots -= count,
            Holder::Hand => {}
            Holder::Outside => {}
        }
    }

    /// Holders of this one's kind have so much more.
    fn raise(&mut self, holder: &Holder, count: u128)
        requires { kept_in self.old + count < 2 ^ 128 }
        ensures { IsLowered self.new self.old holder.now count }
    {
        match holder {
            Holder::Purse(_) => self.purses += count,
            Holder::Payment(_) => self.payments += count,
            Holder::Slot(_, _) => self.slots += count,
            Holder::Hand => {}
            Holder::Outside => {}
        }
    }
}
