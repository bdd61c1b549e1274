//! The log of a turn.

ghost use Rattle.std.specs.Prelude.{◌≡◌, ◌++◌, ◌∷◌, [], IfErr, OnErr, OnOk};
ghost use Rattle.turn_records.specs.Views.{event_view, event_views};

use crate::events::Event;
use std::alloc::{AllocFailed, Global};

/// What has happened in the turn, in order (our own). The movements of rights are among it, and are kept
/// nowhere else. At a turn's start nothing has happened. Contracts see it as `log_of` (specs/Logs.antt).
pub struct Log {
    events: Vec<Event>,
}

impl Drop for Log {
    fn drop(self) {
        let Log { events: _ } = self;
    }
}

impl Log {
    ghost use Rattle.turn_records.specs.Logs.{log_of};

    /// The log of a turn in which nothing has happened yet.
    pub fn new(alloc: Global) -> Log
        ensures { log_of result ≡ [] }
    {
        Log {
            events: Vec::new(alloc),
        }
    }

    /// What has happened, in order.
    pub fn events(&self) -> &[Event]
        ensures { event_views result.now ≡ log_of self.now }
    {
        self.events.as_slice()
    }

    /// Adds an event, last. For want of memory it comes back, and all is as before.
    pub fn push(&mut self, event: Event) -> Result<(), AllocFailed<Event>>
        ensures ok { OnOk result (log_of self.new ≡ log_of self.old ++ event_view event ∷ []) }
        ensures returned { IfErr result (λ failed. failed.value ≡ event) }
        ensures err { OnErr result (log_of self.new ≡ log_of self.old) }
    {
        self.events.push(event)
    }

    /// Goes back to the turn's start: nothing has happened. It takes no memory.
    pub fn back(&mut self)
        ensures { log_of self.new ≡ [] }
    {
        self.events.clear();
    }

    /// Takes out what has happened, without a copy: the turn is over. It takes no memory.
    pub fn take(&mut self, alloc: Global) -> Vec<Event>
        ensures events { event_views result.items ≡ log_of self.old }
        ensures empty { log_of self.new ≡ [] }
    {
        std::mem::replace(&mut self.events, Vec::new(alloc))
    }
}
