//! What a change of allocations is planned from, and the plan: which seats it touches, and what each has
//! before and after.

ghost use Rattle.std.specs.Prelude.{◌≡◌};

use crate::allocations::Allocation;
use crate::offers::Proposal;
use std::marker::Model;

/// What a seat is while a change is planned (Zoe).
pub struct SeatState {
    /// Its number.
    pub seat: u32,
    /// The number of the instance that it is a seat of.
    pub instance: u32,
    pub proposal: Proposal,
    /// What its slots have, in an exited seat what they had last.
    pub allocation: Allocation,
    /// What it is to have, once that is staged (an exited seat has none).
    pub staged: Option<Allocation>,
    /// Whether it has not exited.
    pub is_open: bool,
}

impl Drop for SeatState {
    fn drop(self) {
        let SeatState {
            seat: _,
            instance: _,
            proposal: _,
            allocation: _,
            staged: _,
            is_open: _,
        } = self;
    }
}

/// A step of a rearrangement (Zoe's transfer part): what one seat gives, and what another gets. A part
/// that was null or missing is `None`.
pub struct Transfer {
    /// The number of the seat that gives.
    pub from: Option<u32>,
    /// The number of the seat that gets.
    pub to: Option<u32>,
    pub from_amounts: Option<Allocation>,
    pub to_amounts: Option<Allocation>,
}

impl Drop for Transfer {
    fn drop(self) {
        let Transfer {
            from: _,
            to: _,
            from_amounts: _,
            to_amounts: _,
        } = self;
    }
}

/// A seat that a plan touches: what its slots have before, and what they have after.
pub struct Touched {
    /// Its number.
    pub seat: u32,
    pub before: Allocation,
    pub after: Allocation,
}

impl Drop for Touched {
    fn drop(self) {
        let Touched {
            seat: _,
            before: _,
            after: _,
        } = self;
    }
}

/// A planned change of allocations, by the seats that it touches. Contracts see it as their list.
#[derive(Drop)]
pub struct Plan {
    touched: Vec<Touched>,
}

impl Model for Plan {
    ghost use Rattle.std.specs.Prelude.{List};
    ghost use Rattle.std.specs.Coded.{coded_list};
    ghost use Rattle.proposals.specs.declared.plans.Touched.{Touched};
    ghost use Rattle.proposals.specs.Plans.{coded_touched};

    ghost Value = { List Touched };

    ghost coded = { coded_list coded_touched };

    ghost view = { λ p. p.touched.items };
}

impl Plan {
    /// The plan that touches these seats.
    pub fn from_touched(touched: Vec<Touched>) -> Plan
        ensures { result ≡ touched.items }
    {
        Plan { touched }
    }

    /// The seats that it touches.
    pub fn touched(&self) -> &[Touched]
        ensures { result.now ≡ self.now }
    {
        self.touched.as_slice()
    }
}
