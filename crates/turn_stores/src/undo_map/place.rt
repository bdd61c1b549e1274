//! What a key has now, and what it had at the turn's start.

ghost use Rattle.std.specs.Prelude.{◌≡◌, true, false, is_some};
ghost use Rattle.turn_stores.specs.UndoPlaces.{had, is_same, settled, empty_place};
ghost use Rattle.turn_stores.specs.declared.undo_map.place.Before.TheVariants as before;

use std::mem::replace;

/// What a key had at the turn's start.
#[derive(Drop)]
pub enum Before<V> {
    /// What it has now.
    Same,
    /// The key has changed since: it had this value, or none.
    Other(Option<V>),
}

/// How a turn ends.
#[derive(Clone, Copy)]
pub enum End {
    /// All is as it was at the start.
    Back,
    /// All stays as it is now.
    Forget,
}

/// The place of a key, which stays until the turn's end, also where the key was taken out.
#[derive(Drop)]
pub struct Place<V> {
    pub now: Option<V>,
    pub before: Before<V>,
}

impl<V: Drop> Place<V> {
    /// The place of a key that has no value, and had none at the turn's start.
    pub fn empty() -> Place<V>
        ensures { result ≡ empty_place }
    {
        Place {
            now: None,
            before: Before::Other(None),
        }
    }

    /// Gives the key a value, or none. Answers whether this is the turn's first change of it.
    pub fn change(&mut self, value: Option<V>) -> bool
        ensures now { self.new.now ≡ value }
        ensures start { had self.new ≡ had self.old }
        ensures first { result ≡ is_same self.old }
        ensures changed { is_same self.new ≡ false }
    {
        let now = replace(&mut self.now, value);
        match self.before {
            Before::Same => {
                self.before = Before::Other(now);
                true
            }
            Before::Other(_) => false,
        }
    }

    /// Ends the turn here. Answers whether the key has a value then.
    pub fn settle(&mut self, end: End) -> bool
        ensures now { self.new.now ≡ settled end self.old }
        ensures same { self.new.before ≡ before.Same }
        ensures has { result ≡ is_some (settled end self.old) }
    {
        let before = replace(&mut self.before, Before::Same);
        if let (End::Back, Before::Other(value)) = (end, before) {
            self.now = value;
        }
        self.now.is_some()
    }
}
