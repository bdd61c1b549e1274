//! Instances with what they keep, facets, and the parties with what each has under its labels: a
//! turn that goes back leaves them as they were at its start, without memory.
#![tactic(auto)]

pub mod instance_store;
pub mod leaving;
mod name;
pub mod paths;

/// What `brands` gives to those above.
pub mod brands_lib {
    pub use brands::{Brand, Brands, MOST_BRANDS};

    pub mod issuer_record {
        pub use brands::issuer_record::{Issuer, IssuerFault, IssuerRecord};
    }
}

/// What `promise_store` gives to those above.
pub mod promise_store_lib {
    pub use promise_store::{Consequence, FollowFault, Promises, Settlement, State};
}

/// What `turn_stores` gives to those above.
pub mod turn_stores_lib {
    pub mod invitations {
        pub use turn_stores::invitations::{Details, Invitations};

        pub mod element {
            pub use turn_stores::invitations::element::{element_text, number_of_element};
        }
    }

    pub mod timer {
        pub use turn_stores::timer::{Backwards, Timer};
    }

    pub mod turn_queue {
        pub use turn_stores::turn_queue::TurnQueue;
    }

    pub mod undo_map {
        pub use turn_stores::undo_map::UndoMap;
    }
}

ghost use Rattle.std.specs.Prelude.{◌≡◌, ◌↔◌, ◌++◌, ◌∷◌, [], ℕ, false, List, None, Some, IfErr, IsOk, IsSome, IsTrue, OnErr, OnOk, is_some, length, map, option_map, ◌≤◌};
ghost use Rattle.promise_store.specs.host_data.Tree.{Tree};
ghost use Rattle.promise_store.specs.host_data.View.{tree};
ghost use Rattle.actors.specs.Labels.{Bound, are_labels, binding, bound, bound_to, is_of, label_in, service_of};

use crate::name::Name;
use brands::host_text_lib::label::Label;
use indexmap::IndexMap;
pub use jessie_index::jessie_grammar_lib;
pub use promise_store::host_data_lib;
use promise_store::host_data_lib::data::{Data, Obj, ObjKind};
use std::alloc::Global;

/// Why no label is bound.
#[derive(Clone, Copy, PartialEq, Eq)]
pub enum BindFault {
    /// The label is bound already (our own).
    NameTaken,
    NoMemory,
}

/// What the parties have under their labels. A party exists from its first mention and has from the start
/// `ertp`, `zoe` and `timer` (our own). Contracts see the labels that were bound at the turn's start, and
/// those of now (specs/Turns.antt).
#[derive(Drop)]
pub struct Parties {
    /// In the order in which they were bound.
    labels: IndexMap<Name, Data>,
    /// How many were bound at the turn's start.
    kept: usize,
    ghost within: { kept ≤ length labels.entries },
    ghost labels_only: { IsTrue (are_labels (map binding labels.entries)) },
}

impl Parties {
    ghost use Rattle.actors.specs.Turns.{back_at, kept_at, parties_of, under, untouched, with_bound};

    /// Parties that have bound nothing yet.
    pub fn new(alloc: Global) -> Parties
        ensures { parties_of result ≡ untouched }
    {
        Parties {
            labels: IndexMap::new(alloc),
            kept: 0,
        }
    }

    /// Whether the party has something under the label.
    pub fn is_bound(&self, party: &Label, label: &Label) -> bool
        ensures { result ≡ is_some (under self.now party.now label.now) }
    {
        service(label.as_str()).is_some() || self.bound(party, label.as_str()).is_some()
    }

    /// Binds a label of the party to the value, or hands the value back, and all is as before.
    pub fn bind(
        &mut self,
        party: &Label,
        label: &Label,
        value: Data,
    ) -> Result<(), (Data, BindFault)>
        ensures ok { OnOk result (parties_of self.new ≡ with_bound party.now label.now (tree value) self.old) }
        ensures free { IsOk result → under self.old party.now label.now ≡ None }
        ensures taken { IfErr result (λ err. (err.1 ≡ BindFault.NameTaken) ↔ IsSome (under self.old party.now label.now)) }
        ensures back { IfErr result (λ (back, _). back ≡ value) }
        ensures err { OnErr result (parties_of self.new ≡ parties_of self.old) }
    {
        if self.is_bound(party, label) {
            return Err((value, BindFault::NameTaken));
        }
        let name = Name::new(party.as_str(), label.as_str());
        match self.labels.insert(name, value) {
            Ok(replaced) => {
                drop(replaced);
                Ok(())
            }
            Err(failed) => {
                let (_, value) = failed.value;
                Err((value, BindFault::NoMemory))
            }
        }
    }

    /// What was bound for the party under the label.
    pub(crate) fn bound(&self, party: &Label, label: &str) -> Option<&Data>
        ensures { option_map (λ there. tree there.now) result ≡ label_in party.now label.now (parties_of self.now).now }
    {
        if !Label::is_label(label.as_bytes()) {
            return None;
        }
        self.labels.get(&Name::new(party.as_str(), label))
    }

    /// Forgets how it was: what is now is kept.
    pub fn forget(&mut self)
        ensures { parties_of self.new ≡ kept_at (parties_of self.old) }
    {
        self.kept = self.labels.len();
    }

    /// Goes back to how it was at the turn's start (our own: a turn that fails leaves nothing).
    pub fn back(&mut self)
        ensures { parties_of self.new ≡ back_at (parties_of self.old) }
    {
        self.labels.truncate(self.kept);
    }
}

/// A label that was free has what is bound to it, and another label, or another party's, what it had.
pub fn labels_are_apart()
    ensures here { (bs : List Bound) (p l : List ℕ) (t : Tree) → bound_to bs p l ≡ None → bound_to (bs ++ bound p l t ∷ []) p l ≡ Some t }
    ensures elsewhere { (bs : List Bound) (b : Bound) (p l : List ℕ) → is_of p l b ≡ false → bound_to (bs ++ b ∷ []) p l ≡ bound_to bs p l }
{}

/// What each party has under the label from the start.
pub(crate) fn service(label: &str) -> Option<Obj>
    ensures { result ≡ service_of label.now }
{
    let kind = match label {
        "ertp" => ObjKind::Ertp,
        "zoe" => ObjKind::Zoe,
        "timer" => ObjKind::Timer,
        _ => return None,
    };
    Some(Obj { kind, number: 0 })
}
