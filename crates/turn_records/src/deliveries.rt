//! What is delivered: what waits in the queue, and what is read for it when its turn comes.

ghost use Rattle.std.specs.Prelude.{◌≡◌};
ghost use Rattle.turn_records.specs.Deliveries.{promise_of};
ghost use Rattle.turn_records.specs.Views.{delivery_view};

use crate::messages::{LineCall, LineGift};
use promise_store::Settlement;
use refusals::codes::Refusal;
use refusals::host_data_lib::data::{Data, Obj};
use turn_rows::host_text_lib::label::Label;
use turn_rows::host_text_lib::text::Text;

/// Who calls.
#[derive(Drop)]
pub enum Actor {
    /// A party, by its name.
    Party(Label),
    /// An instance, by its number.
    Instance(u32),
}

/// A call that an instance sends (eventual send).
pub struct Send {
    pub instance: u32,
    /// An object, or a promise of one.
    pub target: Obj,
    pub method: Text,
    pub arguments: Vec<Data>,
    /// The promise of the answer.
    pub promise: u32,
}

impl Drop for Send {
    fn drop(self) {
        let Send {
            instance: _,
            target: _,
            method: _,
            arguments: _,
            promise: _,
        } = self;
    }
}

/// The start of an instance (Zoe).
pub struct Start {
    pub instance: u32,
    pub private_arguments: Data,
    /// The promise of what it gives.
    pub promise: u32,
}

impl Drop for Start {
    fn drop(self) {
        let Start {
            instance: _,
            private_arguments: _,
            promise: _,
        } = self;
    }
}

/// An offer for the handler of its invitation (Zoe's offer handler).
pub struct Offer {
    pub instance: u32,
    pub seat: u32,
    /// The handler, a function of the contract.
    pub function: Text,
    pub offer_arguments: Data,
    /// What the invitation holds for its handler.
    pub held: Data,
    /// The promise of its result.
    pub promise: u32,
}

impl Drop for Offer {
    fn drop(self) {
        let Offer {
            instance: _,
            seat: _,
            function: _,
            offer_arguments: _,
            held: _,
            promise: _,
        } = self;
    }
}

/// A function that is to be called at a time.
pub struct Wakeup {
    pub instance: u32,
    pub function: Text,
    /// What is held for it.
    pub held: Data,
}

impl Drop for Wakeup {
    fn drop(self) {
        let Wakeup {
            instance: _,
            function: _,
            held: _,
        } = self;
    }
}

/// A function that is to be called once a promise is settled.
pub struct Notice {
    pub instance: u32,
    pub promise: u32,
    pub function: Text,
    /// What is held for it.
    pub held: Data,
    /// The promise of its result.
    pub answer: u32,
}

impl Drop for Notice {
    fn drop(self) {
        let Notice {
            instance: _,
            promise: _,
            function: _,
            held: _,
            answer: _,
        } = self;
    }
}

/// What waits for its turn, and what a turn's record tells of it.
pub enum Delivery {
    /// A line asks for a call.
    Call(LineCall),
    /// A line gives something.
    Give(LineGift),
    /// A line sets the timer.
    Tick(u64),
    /// A line is refused.
    Bad(Refusal),
    /// An instance sends a call.
    Send(Send),
    /// An instance starts.
    Start(Start),
    /// An offer comes to its handler.
    Offer(Offer),
    /// A function is woken.
    Wake(Wakeup),
    /// A function is notified.
    Notify(Notice),
    /// The deadline of a seat, by its number, has come.
    Deadline(u32),
}

impl Drop for Delivery {
    fn drop(self) {
        match self {
            Delivery::Call(_) => {}
            Delivery::Give(_) => {}
            Delivery::Tick(_) => {}
            Delivery::Bad(_) => {}
            Delivery::Send(_) => {}
            Delivery::Start(_) => {}
            Delivery::Offer(_) => {}
            Delivery::Wake(_) => {}
            Delivery::Notify(_) => {}
            Delivery::Deadline(_) => {}
        }
    }
}

impl Delivery {
    /// The promise that it settles when its turn is over, where it settles one.
    pub fn promise(&self) -> Option<u32>
        ensures { result ≡ promise_of (delivery_view self.now) }
    {
        match self {
            Delivery::Send(send) => Some(send.promise),
            Delivery::Start(start) => Some(start.promise),
            Delivery::Offer(offer) => Some(offer.promise),
            Delivery::Notify(notice) => Some(notice.answer),
            _ => None,
        }
    }
}

/// What is read for a delivery when its turn comes.
pub enum Reading {
    /// Nothing is read, or the turn is refused before it.
    Nothing,
    /// Of a call and of a send: the target, with the arguments.
    Target(Obj, Vec<Data>),
    /// Of a give: what is given.
    Gift(Data),
    /// The time at which a function is woken.
    Time(u64),
    /// What the promise was settled with of which a function is notified.
    Settlement(Settlement),
}

impl Drop for Reading {
    fn drop(self) {
        match self {
            Reading::Nothing => {}
            Reading::Target(_, _) => {}
            Reading::Gift(_) => {}
            Reading::Time(_) => {}
            Reading::Settlement(_) => {}
        }
    }
}
