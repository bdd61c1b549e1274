//! The states that a change is planned from: one for each seat, which is found by a search.

ghost use Rattle.std.specs.Prelude.{◌≡◌, ◌<◌, ◌↔◌, ◌++◌, ◌∷◌, [], ℕ, All, IfOk, IsTrue, OnErr, OnOk, option_copied};
ghost use Rattle.std.specs.List.{AllPairs, list_any};
ghost use Rattle.std.specs.Bool.{◌==◌};
ghost use Rattle.proposals.specs.Shares.{AreApart};
ghost use Rattle.rearrange.specs.Seats as given;

use proposals::allocations::{Allocation, Share};
use proposals::plans::SeatState;
use std::alloc::{AllocError, Global};
use std::marker::Model;

/// The seats that are listed, each once, in ascending order: those whose states are to be read.
pub fn each_once(seats: Vec<u32>) -> Vec<u32>
    ensures order { AllPairs (λ m n. m < n) result.items }
    ensures same { (n : ℕ) →
        list_any (λ m. m == n) result.items ≡ list_any (λ m. m == n) seats.items }
{
    let mut once = seats;
    once.sort_unstable();
    once.dedup();
    once
}

/// The states of seats, one for each, in ascending order of the seats. Contracts see them as their list.
#[derive(Drop)]
pub struct SeatStates {
    states: Vec<SeatState>,
}

impl Model for SeatStates {
    ghost use Rattle.std.specs.Prelude.{List};
    ghost use Rattle.std.specs.Coded.{coded_list};
    ghost use Rattle.proposals.specs.declared.plans.SeatState.{SeatState};
    ghost use Rattle.rearrange.specs.States.{AreAscending, coded_state};

    ghost Value = { List SeatState };

    ghost coded = { coded_list coded_state };

    ghost view = { λ s. s.states.items };

    ghost invariant = { λ s. AreAscending s.states.items };
}

impl SeatStates {
    /// No states.
    pub fn new(alloc: Global) -> SeatStates
        ensures { result ≡ [] }
    {
        SeatStates {
            states: Vec::new(alloc),
        }
    }

    /// Whether a seat is above all whose states are there.
    pub fn can_push(&self, seat: u32) -> bool
        ensures { IsTrue result ↔ All (λ s. s.seat < seat) self.now }
    {
        match self.states.last() {
            Some(last) => last.seat < seat,
            None => true,
        }
    }

    /// Puts the state of a seat that is above all others behind them. On an error all is as before.
    pub fn push(&mut self, state: SeatState) -> Result<(), AllocError>
        requires { All (λ s. s.seat < state.seat) self.old }
        ensures ok { OnOk result (self.new ≡ self.old ++ state ∷ []) }
        ensures err { OnErr result (self.new ≡ self.old) }
    {
        self.states.push(state)?;
        Ok(())
    }

    /// All states.
    pub fn as_slice(&self) -> &[SeatState]
        ensures { result.now ≡ self.now }
    {
        self.states.as_slice()
    }

    /// The state of a seat, if it is there.
    pub fn get(&self, seat: u32) -> Option<&SeatState>
        ensures { option_copied result ≡ given.state_of self.now seat }
    {
        let at = self.states.binary_search_by_key(&seat, |state| state.seat);
        match at {
            Ok(at) => Some(&self.states[at]),
            Err(_) => None,
        }
    }

    /// What a seat has by its state: nothing where that isn't there.
    pub fn allocation_of(&self, seat: u32) -> &[Share]
        ensures shares { result.now ≡ given.allocation_of self.now seat }
        ensures apart { AreApart result.now }
    {
        match self.get(seat) {
            Some(state) => state.allocation.shares(),
            None => &[],
        }
    }

    /// A copy of what a seat has by its state.
    pub(crate) fn allocation_copy(&self, alloc: Global, seat: u32) -> Result<Allocation, AllocError>
        ensures { IfOk result (λ copy. copy ≡ given.allocation_of self.now seat) }
    {
        match self.get(seat) {
            Some(state) => state.allocation.copy(alloc),
            None => Ok(Allocation::new(alloc)),
        }
    }
}
