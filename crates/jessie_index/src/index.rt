//! The places of names in a list, found by name.
ghost use Rattle.std.specs.Prelude.{◌≡◌, ◌<◌, ◌++◌, ◌∷◌, ◌-◌, [], ℕ, List, Option, OnErr, OnOk, length, slice_index_or, slice_set, take};
ghost use Rattle.jessie_index.specs.Places.{place};

use jessie_semantics::host_text_lib::text::Text;
use std::alloc::{AllocError, Global};
use std::collections::BTreeMap;
use std::marker::Model;

/// Names in a list, with the place of the last of each name.
#[derive(Drop)]
pub struct NameIndex {
    /// Each name, and the place of the one before it that it hides.
    entries: Vec<(Text, Option<usize>)>,
    places: BTreeMap<String, usize>,
}

impl Model for NameIndex {
    ghost use Rattle.std.specs.Prelude.{ℕ, List};
    ghost use Rattle.jessie_index.specs.Places.{IsIndex, names_of};

    ghost Value = { List (List ℕ) };

    ghost view = { λ n. names_of n.entries.items };

    ghost invariant = { λ n. IsIndex n.entries.items n.places };
}

/// Puts the place of the one that it hides beside the name at a place.
fn hide(entries: &mut Vec<(Text, Option<usize>)>, place: usize, hidden: Option<usize>)
    requires { place < length entries.old.items }
    ensures { (d : List ℕ × Option ℕ) → entries.new.items
        ≡ slice_set entries.old.items place ((slice_index_or entries.old.items place d).0, hidden) }
{
    entries[place].1 = hidden;
}

impl NameIndex {
    /// No names.
    pub fn new(alloc: Global) -> NameIndex
        ensures { result ≡ [] }
    {
        NameIndex {
            entries: Vec::new(alloc),
            places: BTreeMap::new(alloc),
        }
    }

    /// How many names there are.
    pub fn len(&self) -> usize
        ensures { result ≡ length self.now }
    {
        self.entries.len()
    }

    /// The place of the last one that is the name.
    pub fn place(&self, name: &str) -> Option<usize>
        ensures { result ≡ place name.now self.now }
    {
        self.places.get(name).copied()
    }

    /// One name more. For want of memory they are as they were.
    pub fn push(&mut self, alloc: Global, name: &Text) -> Result<(), AllocError>
        ensures ok { OnOk result (self.new ≡ self.old ++ name.now ∷ []) }
        ensures err { OnErr result (self.new ≡ self.old) }
    {
        let key = String::from_str(alloc, name.as_str())?;
        let copy = name.copy(alloc)?;
        let place = self.entries.len();
        self.entries.push((copy, None))?;
        let Ok(hidden) = self.places.insert(key, place) else {
            drop(self.entries.pop());
            return Err(AllocError);
        };
        hide(&mut self.entries, place, hidden);
        Ok(())
    }

    /// Lets the last name go.
    pub fn pop(&mut self)
        ensures { self.new ≡ take (length self.old - 1) self.old }
    {
        let Some((name, hidden)) = self.entries.pop() else {
            return;
        };
        match hidden {
            Some(place) => {
                if let Some(at) = self.places.get_mut(name.as_str()) {
                    *at = place;
                }
            }
            None => {
                drop(self.places.remove(name.as_str()));
            }
        }
    }

    /// Lets all names go but so many at the front.
    pub fn truncate(&mut self, n: usize)
        ensures { self.new ≡ take n self.old }
    {
        'last: while n < self.len() {
            self.pop();
        }
    }
}
