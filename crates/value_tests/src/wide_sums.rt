//! Sums of counts that may pass 128 bits, which are kept whole: tests compare the sum itself, and what is shown of one
//! that data can't hold is the greatest number that it can.

ghost use Rattle.std.specs.Prelude.{◌≡◌, ◌↔◌, ◌+◌, ◌<◌, ◌^◌, IsTrue, pos};
ghost use Rattle.refusals.specs.Codes.{capped};

use refusals::faults::capped;
use std::marker::Model;

/// A sum of counts, below 2^192. Contracts see the number.
#[derive(Drop)]
pub struct WideSum {
    high: u64,
    low: u128,
}

impl Model for WideSum {
    ghost use Rattle.std.specs.Prelude.{ℕ, ◌<◌, ◌^◌};
    ghost use Rattle.std.specs.Coded.{coded_ℕ};
    ghost use Rattle.value_tests.specs.Wide.{number_of_parts};

    ghost Value = { ℕ };

    ghost coded = { coded_ℕ };

    ghost view = { λ sum. number_of_parts sum.high sum.low };

    ghost invariant = { λ sum. sum.low < 2 ^ 128 };
}

impl WideSum {
    /// The sum of one count.
    pub fn of(count: u128) -> WideSum
        ensures { result ≡ count }
    {
        WideSum {
            high: 0,
            low: count,
        }
    }

    /// The same sum once more.
    pub fn copy(&self) -> WideSum
        ensures { result ≡ self.now }
    {
        WideSum {
            high: self.high,
            low: self.low,
        }
    }

    /// The sum with one count more, which stays below 2^192.
    pub fn with(&self, more: u128) -> WideSum
        requires { self.now + more < 2 ^ 192 }
        ensures { result ≡ self.now + more }
    {
        let (low, carry) = self.low.carrying_add(more, false);
        let high = self.high + u64::from(carry);
        WideSum { high, low }
    }

    /// Adds a count; the sum stays below 2^192.
    pub fn add(&mut self, more: u128)
        requires { self.old + more < 2 ^ 192 }
        ensures { self.new ≡ self.old + more }
    {
        *self = self.with(more);
    }

    /// Whether the sum passes a bound.
    pub fn passes(&self, most: u128) -> bool
        ensures { IsTrue result ↔ (most < self.now) }
    {
        self.high > 0 || self.low > most
    }

    /// Whether two sums are the same.
    pub fn equals(&self, other: &WideSum) -> bool
        ensures { IsTrue result ↔ (self.now ≡ other.now) }
    {
        self.high == other.high && self.low == other.low
    }

    /// The sum as it is shown: 2^127 - 1 where it passes that (AmountMath's numbers).
    pub fn shown(&self) -> i128
        ensures { result ≡ pos (capped self.now) }
    {
        if self.high > 0 {
            capped(u128::MAX)
        } else {
            capped(self.low)
        }
    }
}
