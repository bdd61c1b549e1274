//! Facets that contracts made, by number (Zoe's contract facets, made by Far).

ghost use Rattle.std.specs.Prelude.{◌≡◌, ◌<◌, ◌≤◌, ◌↔◌, ◌++◌, ◌∷◌, [], IfErr, IfOk, IsOk, OnErr, OnOk, length};
ghost use Rattle.actors.specs.Tables.{most_made};

use crate::instance_store::AddFault;
use brands::host_text_lib::text::Text;
use promise_store::host_data_lib::data::Data;
use std::alloc::Global;

/// A facet that a contract made.
pub struct Facet {
    /// The instance that made it, by its number.
    pub instance: u32,
    /// Its methods, each with the name of the function behind it.
    pub methods: Vec<(Text, Text)>,
    /// What the contract holds for these functions.
    pub held: Data,
}

impl Drop for Facet {
    fn drop(self) {
        let Facet {
            instance: _,
            methods: _,
            held: _,
        } = self;
    }
}

/// All facets. Contracts see those at the turn's start, and those of now (specs/Facets.antt).
#[derive(Drop)]
pub struct Facets {
    facets: Vec<Facet>,
    /// How many were made at the turn's start.
    kept: usize,
    ghost within: { kept ≤ length facets.items },
    ghost few: { length facets.items ≤ most_made },
}

impl Facets {
    ghost use Rattle.actors.specs.Facets.{back_at, facet_at, facet_view, facets_of, kept_at, made, now_of, untouched, with_facet};

    /// No facets yet.
    pub fn new(alloc: Global) -> Facets
        ensures { facets_of result ≡ untouched }
    {
        Facets {
            facets: Vec::new(alloc),
            kept: 0,
        }
    }

    /// How many facets were made: the number that the next one gets.
    pub fn made(&self) -> u32
        ensures made { result ≡ made self.now }
        ensures bounded { result ≤ most_made }
    {
        self.facets.len() as u32
    }

    /// Adds a facet and answers its number, or hands it back, and all is as before.
    pub fn add(&mut self, facet: Facet) -> Result<u32, (Facet, AddFault)>
        ensures ok { OnOk result (facets_of self.new ≡ with_facet (facet_view facet) self.old) }
        ensures number { IfOk result (λ number. number ≡ made self.old) }
        ensures room { IsOk result → made self.old < most_made }
        ensures limit { IfErr result (λ (_, fault). (fault ≡ AddFault.Limit) ↔ (made self.old ≡ most_made)) }
        ensures back { IfErr result (λ (back, _). back ≡ facet) }
        ensures err { OnErr result (facets_of self.new ≡ facets_of self.old) }
    {
        let number = self.made();
        if number == u32::MAX {
            return Err((facet, AddFault::Limit));
        }
        match self.facets.push(facet) {
            Ok(()) => Ok(number),
            Err(failed) => Err((failed.value, AddFault::NoMemory)),
        }
    }

    /// A facet that was made.
    pub fn facet(&self, number: u32) -> &Facet
        requires { number < made self.now }
        ensures { facet_view result.now ≡ facet_at (now_of self.now) number }
    {
        &self.facets[number as usize]
    }

    /// Forgets how it was: what is now is kept.
    pub fn forget(&mut self)
        ensures { facets_of self.new ≡ kept_at (facets_of self.old) }
    {
        self.kept = self.facets.len();
    }

    /// Goes back to how it was at the turn's start (our own: a turn that fails leaves nothing).
    pub fn back(&mut self)
        ensures { facets_of self.new ≡ back_at (facets_of self.old) }
    {
        self.facets.truncate(self.kept);
    }
}
