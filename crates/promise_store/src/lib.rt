//! Promises by number (eventual send): pending, following another, or settled once; settling one
//! settles all that follow it in order, and a turn is undone without memory.
#![tactic(auto)]

mod links;
mod node;
mod settlement;
mod store;

/// What `host_data` gives to those above.
pub mod host_data_lib {
    pub mod data {
        pub use host_data::data::{Data, Obj, ObjKind};
    }
}

pub use links::Consequence;
pub use settlement::Settlement;
pub use store::{FollowFault, MakeFault, Promises, State};
