//! What has changed of instances since each was started.
ghost use Rattle.std.specs.Prelude.{◌≡◌};
ghost use Rattle.actors.specs.Changes.{changes_at_start, changes_now, no_changes};

use crate::instance_store::instance::Standing;
use brands::issuer_record::IssuerRecord;
use promise_store::host_data_lib::data::Data;
use std::alloc::Global;
use turn_stores::undo_map::UndoMap;

/// What has changed, by the instances' numbers. An instance that isn't there is as it was started.
#[derive(Drop)]
pub(crate) struct Changes {
    pub(crate) issuers: UndoMap<u32, IssuerRecord>,
    /// What the start gave, once it has run.
    pub(crate) public_facets: UndoMap<u32, Data>,
    pub(crate) standings: UndoMap<u32, Standing>,
    pub(crate) states: UndoMap<u32, Vec<Data>>,
}

impl Changes {
    /// Nothing has changed.
    pub(crate) fn new(alloc: Global) -> Changes
        ensures start { changes_at_start result ≡ no_changes }
        ensures now { changes_now result ≡ no_changes }
    {
        Changes {
            issuers: UndoMap::new(alloc),
            public_facets: UndoMap::new(alloc),
            standings: UndoMap::new(alloc),
            states: UndoMap::new(alloc),
        }
    }

    /// Goes back to the changes of the turn's start.
    pub(crate) fn back(&mut self)
        ensures start { changes_at_start self.new ≡ changes_at_start self.old }
        ensures now { changes_now self.new ≡ changes_at_start self.old }
    {
        self.issuers.back();
        self.public_facets.back();
        self.standings.back();
        self.states.back();
    }

    /// Forgets the changes of the turn's start.
    pub(crate) fn forget(&mut self)
        ensures start { changes_at_start self.new ≡ changes_now self.old }
        ensures now { changes_now self.new ≡ changes_now self.old }
    {
        self.issuers.forget();
        self.public_facets.forget();
        self.standings.forget();
        self.states.forget();
    }
}
