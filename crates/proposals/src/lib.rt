//! Proposals, allocations and offer safety (Zoe), and what a record of amounts makes of a seat's
//! slots: the new slots, or the record's first share that can't be added.
#![tactic(auto)]

pub mod allocations;
pub mod gains;
pub mod losses;
pub mod offers;
pub mod plans;
pub mod slots;

/// What `host_data` gives to those above.
pub mod host_data_lib {
    pub mod data {
        pub use host_data::data::{Data, Obj, ObjKind};
    }
}

pub use host_data::host_text_lib;
