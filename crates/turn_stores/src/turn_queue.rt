//! A queue of entries of any type, first in, first out, whose appends a turn can take back. Its one
//! contract: contracts see two lists, what waited at the turn's start and what waits now; a push
//! appends to what waits now, `back` cuts off what the turn appended, `forget` keeps it, and neither
//! takes memory. What is in front is taken out between turns alone, where both lists are equal: so a
//! turn is worked from the front, and what it was worked from is popped once it is kept.

ghost use Rattle.std.specs.Prelude.{◌≡◌, ◌++◌, ◌∷◌, [], IfErr, OnErr, OnOk, drop, length, slice_get};
ghost use Rattle.std.specs.Option.{option_copied};

use std::alloc::{AllocFailed, Global};
use std::collections::VecDeque;
use std::marker::Model;

/// Entries in the order in which they came. Contracts see those of the turn's start and those of now.
#[derive(Drop)]
pub struct TurnQueue<T> {
    entries: VecDeque<T>,
    /// How many of them, from the front on, waited at the turn's start.
    kept: usize,
}

impl<T> Model for TurnQueue<T> {
    ghost use Rattle.std.specs.Prelude.{◌≤◌, length, take};
    ghost use Rattle.turn_stores.specs.Waiting.{Waiting};

    ghost Value = { Waiting T };

    ghost view = { λ q. record { start = take q.kept q.entries.items; now = q.entries.items } };

    ghost invariant = { λ q. q.kept ≤ length q.entries.items };
}

impl<T: Drop> TurnQueue<T> {
    /// The empty queue.
    pub fn new(alloc: Global) -> TurnQueue<T>
        ensures start { result.start ≡ [] }
        ensures now { result.now ≡ [] }
    {
        TurnQueue {
            entries: VecDeque::new(alloc),
            kept: 0,
        }
    }

    /// How many entries wait.
    pub fn len(&self) -> usize
        ensures { result ≡ length self.now.now }
    {
        self.entries.len()
    }

    /// Appends an entry. For want of memory it comes back, and all is as before.
    pub fn push(&mut self, entry: T) -> Result<(), AllocFailed<T>>
        ensures ok { OnOk result (self.new.now ≡ self.old.now ++ entry ∷ []) }
        ensures start { self.new.start ≡ self.old.start }
        ensures returned { IfErr result (λ failed. failed.value ≡ entry) }
        ensures err { OnErr result (self.new ≡ self.old) }
    {
        self.entries.push_back(entry)
    }

    /// The entry that came first of those that wait: none where none waits.
    pub fn front(&self) -> Option<&T>
        ensures { option_copied result ≡ slice_get self.now.now 0 }
    {
        self.entries.front()
    }

    /// Takes out the entry that came first, between turns: none where none waits.
    pub fn pop(&mut self) -> Option<T>
        requires between_turns { self.old.start ≡ self.old.now }
        ensures entry { result ≡ slice_get self.old.now 0 }
        ensures now { self.new.now ≡ drop 1 self.old.now }
        ensures start { self.new.start ≡ drop 1 self.old.start }
    {
        let entry = self.entries.pop_front();
        self.kept = self.entries.len();
        entry
    }

    /// Goes back to what waited at the turn's start.
    pub fn back(&mut self)
        ensures { self.new ≡ record self.old { now = self.old.start } }
    {
        self.entries.truncate(self.kept);
    }

    /// Forgets what waited at the turn's start: what waits now is kept.
    pub fn forget(&mut self)
        ensures { self.new ≡ record self.old { start = self.old.now } }
    {
        self.kept = self.entries.len();
    }
}
