//! Names with their values, the innermost last.
ghost use Rattle.std.specs.Prelude.{◌≡◌, ◌<◌, ◌++◌, ◌∷◌, [], ℕ, List, IfSome, OnOk, length, slice_index_or, slice_set, take};
ghost use Rattle.jessie_index.specs.Places.{IsFront, names_of, place};

use crate::index::NameIndex;
use crate::names::is_name;
use jessie_semantics::host_text_lib::text::Text;
use std::alloc::{AllocError, Global};
use std::marker::Model;

/// How many names are looked through at most, one by one. Those outside of them are found by the index.
const MOST_WALKED: usize = 24;

/// Names with their values, the innermost last.
#[derive(Drop)]
pub struct Locals<V> {
    bindings: Vec<(Text, V)>,
    /// The places of the outermost names.
    index: NameIndex,
}

impl<V> Model for Locals<V> {
    ghost use Rattle.std.specs.Prelude.{ℕ, List};
    ghost use Rattle.jessie_index.specs.Places.{IsFront, names_of};

    ghost Value = { List (List ℕ × V) };

    ghost view = { λ l. l.bindings.items };

    ghost invariant = { λ l. IsFront l.index (names_of l.bindings.items) };
}

/// The place of the last binding of the name.
fn last_place<V>(bindings: &[(Text, V)], name: &str) -> Option<usize>
    ensures { result ≡ place name.now (names_of bindings.now) }
{
    let mut left = bindings;
    'inmost: while let [outer @ .., binding] = left {
        if is_name(binding.0.as_str(), name) {
            return Some(outer.len());
        }
        left = outer;
    }
    None
}

/// Puts the names behind those that the index has into it.
fn index_rest<V>(
    alloc: Global,
    index: &mut NameIndex,
    bindings: &[(Text, V)],
) -> Result<(), AllocError>
    requires { IsFront index.old (names_of bindings.now) }
    ensures { IsFront index.new (names_of bindings.now) }
{
    for i in index.len()..bindings.len() {
        index.push(alloc, &bindings[i].0)?;
    }
    Ok(())
}

impl<V: Drop> Locals<V> {
    /// No names.
    pub fn new(alloc: Global) -> Locals<V>
        ensures { result ≡ [] }
    {
        Locals {
            bindings: Vec::new(alloc),
            index: NameIndex::new(alloc),
        }
    }

    /// How many names there are.
    pub fn len(&self) -> usize
        ensures { result ≡ length self.now }
    {
        self.bindings.len()
    }

    /// The names with their values, the innermost last.
    pub fn as_slice(&self) -> &[(Text, V)]
        ensures { result.now ≡ self.now }
    {
        self.bindings.as_slice()
    }

    /// The place of the innermost binding of the name.
    pub fn place(&self, name: &str) -> Option<usize>
        ensures place { result ≡ place name.now (names_of self.now) }
        ensures within { IfSome result (λ i. i < length self.now) }
    {
        let known = self.index.len();
        match last_place(&self.bindings[known..], name) {
            Some(i) => Some(known + i),
            None => self.index.place(name),
        }
    }

    /// One name more, the innermost.
    pub fn bind(&mut self, alloc: Global, name: &Text, value: V) -> Result<(), AllocError>
        ensures { OnOk result (self.new ≡ self.old ++ (name.now, value) ∷ []) }
    {
        let name = name.copy(alloc)?;
        self.bindings.push((name, value))?;
        if self.bindings.len() - self.index.len() > MOST_WALKED {
            index_rest(alloc, &mut self.index, self.bindings.as_slice())?;
        }
        Ok(())
    }

    /// Gives the binding at a place another value, and lets the old one go.
    pub fn set(&mut self, place: usize, value: V)
        requires { place < length self.old }
        ensures { (d : List ℕ × V) → self.new
            ≡ slice_set self.old place ((slice_index_or self.old place d).0, value) }
    {
        self.bindings[place].1 = value;
    }

    /// Lets all names go but so many of the outermost.
    pub fn truncate(&mut self, n: usize)
        ensures { self.new ≡ take n self.old }
    {
        self.index.truncate(n);
        self.bindings.truncate(n);
    }
}
