//! What is read for a delivery when its turn comes, what is then to be done, and how its turn ends,
//! as the definitions of deliveries say.
#![tactic(auto)]

pub mod beginnings;
pub mod calls;
pub mod effects;
pub mod endings;
pub mod functions;
mod leaving;
pub mod notices;
pub mod open_seats;
mod settling;
pub mod tasks;

/// What `host_data` gives to those above.
pub mod host_data_lib {
    pub mod data {
        pub use host_data::data::{Data, Obj, copy_items};
    }
}
