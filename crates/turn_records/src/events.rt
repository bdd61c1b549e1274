//! What is answered, and what happens in a turn.

use promise_store::Settlement;
use proposals::offers::Proposal;
use refusals::codes::Refusal;
use refusals::host_data_lib::data::{Data, Obj};
use turn_rows::host_text_lib::keyword::Keyword;
use turn_rows::host_text_lib::text::Text;
use turn_rows::rights_model_lib::Movement;

/// What a turn, or the host's part of a call, comes to.
pub enum Answer {
    Given(Data),
    Refused(Refusal),
    /// What a contract's function threw.
    Threw(Data),
    /// The meter that a contract's function spent.
    Spent(u32),
}

impl Drop for Answer {
    fn drop(self) {
        match self {
            Answer::Given(_) => {}
            Answer::Refused(_) => {}
            Answer::Threw(_) => {}
            Answer::Spent(_) => {}
        }
    }
}

/// How a contract calls.
#[derive(Clone, Copy)]
pub enum How {
    /// A call of an object, at once.
    Call,
    /// A call that is sent (eventual send).
    Send,
    /// A function is to be called once a promise is settled.
    When,
    /// A facet is made (Endo's Far).
    Far,
}

/// A contract's call of the host.
pub struct Call {
    pub how: How,
    /// The target, or the promise; a facet is made on nothing.
    pub on: Option<Obj>,
    /// The method, or the function; of a facet the name.
    pub method: Text,
    pub arguments: Vec<Data>,
    pub answer: Answer,
}

impl Drop for Call {
    fn drop(self) {
        let Call {
            how: _,
            on: _,
            method: _,
            arguments: _,
            answer: _,
        } = self;
    }
}

/// A seat that was opened, by its number, for a proposal (Zoe).
pub struct Opening {
    pub seat: u32,
    /// The instance that it is of, by its number.
    pub instance: u32,
    pub proposal: Proposal,
}

impl Drop for Opening {
    fn drop(self) {
        let Opening {
            seat: _,
            instance: _,
            proposal: _,
        } = self;
    }
}

/// Why a seat is left (Zoe; `Halted` and `Spent` are our own).
#[derive(Clone, Copy)]
pub enum Cause {
    /// The one who made the offer asked for it.
    Asked,
    /// Its deadline has come.
    Deadline,
    /// Its contract let go.
    Exit,
    /// Its contract failed it.
    Fail,
    /// Its handler threw.
    Threw,
    /// Its contract halted.
    Halted,
    /// Its contract spent its meter.
    Spent,
}

/// The payment that a slot is paid out with, by its number.
pub struct Payout {
    pub keyword: Keyword,
    pub payment: u32,
}

impl Drop for Payout {
    fn drop(self) {
        let Payout {
            keyword: _,
            payment: _,
        } = self;
    }
}

/// A seat that was left, by its number.
pub struct Leaving {
    pub seat: u32,
    pub cause: Cause,
    /// One for each slot, in the order of slots.
    pub payouts: Vec<Payout>,
}

impl Drop for Leaving {
    fn drop(self) {
        let Leaving {
            seat: _,
            cause: _,
            payouts: _,
        } = self;
    }
}

/// What happens in a turn. A call, an opening and a leaving come before the movements that they bring.
pub enum Event {
    Called(Call),
    Opened(Opening),
    Moved(Movement),
    Exited(Leaving),
    /// A promise, by its number, and what it was settled with.
    Settled(u32, Settlement),
}

impl Drop for Event {
    fn drop(self) {
        match self {
            Event::Called(_) => {}
            Event::Opened(_) => {}
            Event::Moved(_) => {}
            Event::Exited(_) => {}
            Event::Settled(_, _) => {}
        }
    }
}
