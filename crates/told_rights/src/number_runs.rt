//! A set of numbers, kept as runs of neighbours: what is kept grows with the gaps alone.

ghost use Rattle.std.specs.Prelude.{◌≡◌, ◌==◌, ◌||◌, ◌+◌, ◌<◌, ℕ, false, IfSome, IsNone, OnErr, OnOk};
ghost use Rattle.told_rights.specs.Runs.{AreApart, IsEnd, IsLastBefore, IsRun, IsStart, has_number};

use std::alloc::{AllocError, Global};
use std::collections::BTreeMap;
use std::marker::Model;

/// A set of numbers. Contracts see its runs, each from its first number to its last, and which
/// numbers are in one (specs/Runs.antt).
#[derive(Drop)]
pub struct NumberRuns {
    /// By the first number of a run its last. Between two runs is a number that is in neither.
    runs: BTreeMap<u32, u32>,
}

impl Model for NumberRuns {
    ghost use Rattle.std.specs.Prelude.{ℕ, List};
    ghost use Rattle.told_rights.specs.Runs.{AreApart};

    ghost Value = { List (ℕ × ℕ) };

    ghost view = { λ a. a.runs.entries };

    ghost invariant = { λ a. AreApart a.runs.entries };
}

impl NumberRuns {
    /// No numbers.
    pub fn new(alloc: Global) -> NumberRuns
        ensures { (q : ℕ) → has_number result q ≡ false }
    {
        NumberRuns {
            runs: BTreeMap::new(alloc),
        }
    }

    /// Whether a number is in it.
    pub fn contains(&self, number: u32) -> bool
        ensures { result ≡ has_number self.now number }
    {
        match self.run_before(number) {
            Some((_, last)) => number <= last,
            None => false,
        }
    }

    /// The last of the runs that begin at a number or before it.
    fn run_before(&self, number: u32) -> Option<(u32, u32)>
        ensures apart { AreApart self.now }
        ensures some { IfSome result (IsLastBefore self.now number) }
        ensures none { IsNone result → (first last : ℕ) → IsRun self.now first last → number < first }
    {
        match self.runs.range(..=number).next_back() {
            Some((first, last)) => Some((*first, *last)),
            None => None,
        }
    }

    /// Where a run begins that a number ends: with the run before it, if that ends just there.
    fn start_to(&self, number: u32) -> u32
        ensures { IsStart self.now number result }
    {
        match self.run_before(number) {
            Some((first, last)) => {
                if u64::from(last) + 1 == u64::from(number) {
                    first
                } else {
                    number
                }
            }
            None => number,
        }
    }

    /// Where a run ends that begins at a number: with the run behind it, if that begins just there.
    fn end_from(&self, number: u32) -> u32
        ensures { IsEnd self.now number result }
    {
        let runs = &self.runs;
        if number == u32::MAX {
            return number;
        }
        match runs.get(&(number + 1)) {
            Some(last) => *last,
            None => number,
        }
    }

    /// Puts a number in. On an error all is as before.
    pub fn insert(&mut self, number: u32) -> Result<(), AllocError>
        ensures ok { OnOk result ((q : ℕ) → has_number self.new q ≡ ((q == number) || has_number self.old q)) }
        ensures err { OnErr result (self.new ≡ self.old) }
    {
        if self.contains(number) {
            return Ok(());
        }
        let start = self.start_to(number);
        let end = self.end_from(number);
        let Ok(_) = self.runs.insert(start, end) else {
            return Err(AllocError);
        };
        if number < end {
            self.runs.remove(&(number + 1));
        }
        Ok(())
    }
}
