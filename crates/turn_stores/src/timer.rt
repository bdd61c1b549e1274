//! A timer over entries of any type, which moves by being set: an entry waits for a time, and is due
//! where the timer is set to that time or a later one. Its one contract: each call gives what the timer
//! is set to and what waits, the whole of it, in the order in which it is due: by time, then by order
//! of making. A turn that goes back leaves it as it was at the turn's start.

ghost use Rattle.std.specs.Prelude.{◌≡◌, ◌<◌, ◌↔◌, [], true, IsTrue, IfErr, is_err, OnErr, OnOk, is_some};
ghost use Rattle.std.specs.Bool.{OnFalse, OnTrue};
ghost use Rattle.std.specs.List.Sorted.{IsNonDecreasing};
ghost use Rattle.std.specs.Option.{option_copied};
ghost use Rattle.std.specs.Ordering.{is_le};
ghost use Rattle.turn_stores.specs.WaitingPlaces.{AreFrom, due_cmp, due_key};
ghost use Rattle.turn_stores.specs.Schedules.{first_due, times_of, without_first, woken_at};

use crate::undo_map::UndoMap;
use std::alloc::{AllocFailed, Global};
use std::marker::Model;

/// When an entry is due, and how many were made before it.
#[derive(Clone, Copy, PartialEq, Eq, PartialOrd, Ord)]
struct DueKey {
    time: u64,
    number: u64,
}

/// No entry is due before this.
const FIRST: DueKey = DueKey { time: 0, number: 0 };

/// What the timer is set to, and how many entries were made.
#[derive(Clone, Copy)]
struct Reading {
    time: u64,
    made: u64,
}

/// The timer was asked to be set to a time below its own.
#[derive(Clone, Copy, PartialEq, Eq)]
pub struct Backwards {
    pub now: u64,
    pub asked: u64,
}

/// Entries that wait for a time. Contracts see the schedule of the turn's start and that of now.
#[derive(Drop)]
pub struct Timer<E> {
    entries: UndoMap<DueKey, E>,
    initial: Reading,
    current: Reading,
    /// No entry that waits is before it: so the places of those that the turn took out are not passed again.
    from: DueKey,
}

impl<E> Model for Timer<E> {
    ghost use Rattle.std.specs.Ordering.{is_le};
    ghost use Rattle.turn_stores.specs.WaitingPlaces.{AreFrom, due_cmp, due_key};
    ghost use Rattle.turn_stores.specs.Schedules.{Times};

    ghost Value = { Times E };

    ghost use Rattle.turn_stores.specs.WaitingPlaces.{AreKept, times_view};

    ghost view = { λ t. times_view t.initial t.current t.entries };

    ghost invariant = { λ t. AreKept t.initial t.current t.entries t.from };
}

impl<E: Drop> Timer<E> {
    /// A timer that is set to 0.
    pub fn new(alloc: Global) -> Timer<E>
        ensures start { result.start ≡ record { time = 0; made = 0; waiting = [] } }
        ensures now { result.now ≡ record { time = 0; made = 0; waiting = [] } }
    {
        let set = Reading { time: 0, made: 0 };
        Timer {
            entries: UndoMap::new(alloc),
            initial: set,
            current: set,
            from: FIRST,
        }
    }

    /// What the timer is set to.
    pub fn now(&self) -> u64
        ensures { result ≡ self.now.now.time }
    {
        self.current.time
    }

    /// How many entries were made.
    pub fn made(&self) -> u64
        ensures { result ≡ self.now.now.made }
    {
        self.current.made
    }

    /// Sets the timer to a time. It doesn't go backwards.
    pub fn set_to(&mut self, time: u64) -> Result<(), Backwards>
        ensures ok { OnOk result (self.new.now ≡ record self.old.now { time = time }) }
        ensures start { self.new.start ≡ self.old.start }
        ensures backwards { IsTrue (is_err result) ↔ time < self.old.now.time }
        ensures was { IfErr result (λ fault. fault.now ≡ self.old.now.time) }
        ensures asked { IfErr result (λ fault. fault.asked ≡ time) }
        ensures err { OnErr result (self.new ≡ self.old) }
    {
        if time < self.current.time {
            return Err(Backwards {
                now: self.current.time,
                asked: time,
            });
        }
        self.current.time = time;
        Ok(())
    }

    /// Makes an entry, which waits for a time behind all that are due by then. One whose time has come is
    /// due at once. For want of memory it comes back, and all is as before.
    pub fn wake_at(&mut self, time: u64, entry: E) -> Result<(), AllocFailed<E>>
        ensures ok { OnOk result (self.new.now ≡ woken_at time entry self.old.now) }
        ensures start { self.new.start ≡ self.old.start }
        ensures returned { IfErr result (λ failed. failed.value ≡ entry) }
        ensures err { OnErr result (self.new ≡ self.old) }
    {
        let number = self.current.made;
        if number == u64::MAX {
            return Err(AllocFailed { value: entry });
        }
        let key = DueKey { time, number };
        self.entries.keeps_order();
        self.entries.put(key, entry)?;
        self.current.made = number + 1;
        self.from = first_of(self.from, key);
        Ok(())
    }

    /// The first entry that is due, which stays: none where none is due.
    pub fn due(&self) -> Option<&E>
        ensures first { option_copied result ≡ first_due self.now.now }
        ensures by_time { IsNonDecreasing (times_of self.now.now.waiting) }
    {
        self.entries.keeps_order();
        match first_due_key(&self.entries, self.from, self.current.time) {
            Some(key) => self.entries.get(key),
            None => None,
        }
    }

    /// Takes out the first entry that is due, and answers whether one was due.
    pub fn take_due(&mut self) -> bool
        ensures was { result ≡ is_some (first_due self.old.now) }
        ensures taken { OnTrue result (self.new.now ≡ without_first self.old.now) }
        ensures none { OnFalse result (self.new.now ≡ self.old.now) }
        ensures start { self.new.start ≡ self.old.start }
    {
        self.entries.keeps_order();
        let Some(key) = first_due_key(&self.entries, self.from, self.current.time) else {
            return false;
        };
        self.entries.take_out(key);
        self.from = key;
        true
    }

    /// Goes back to how the timer was at the turn's start.
    pub fn back(&mut self)
        ensures { self.new ≡ record self.old { now = self.old.start } }
    {
        self.entries.back();
        self.current = self.initial;
        self.from = FIRST;
    }

    /// Forgets how the timer was: what is now is kept.
    pub fn forget(&mut self)
        ensures { self.new ≡ record self.old { start = self.old.now } }
    {
        self.entries.forget();
        self.initial = self.current;
    }
}

/// The lower of two keys.
fn first_of(one: DueKey, other: DueKey) -> DueKey
    ensures one { is_le (due_cmp result one) ≡ true }
    ensures other { is_le (due_cmp result other) ≡ true }
{
    if other < one { other } else { one }
}

/// The key of the first entry, if it is due at that time. No entry is before `from`.
fn first_due_key<E: Drop>(entries: &UndoMap<DueKey, E>, from: DueKey, time: u64) -> Option<DueKey>
    requires from { AreFrom from entries.now.now }
    ensures { result ≡ due_key time entries.now.now }
{
    match entries.next(from) {
        Some(key) if key.time <= time => Some(key),
        _ => None,
    }
}
