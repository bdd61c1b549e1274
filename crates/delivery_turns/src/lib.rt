//! What a delivery comes to when its turn comes (what is read for it, its answer, its effects in
//! order), and a host's step, which is the turn of the delivery in front.
#![tactic(auto)]

pub use world_laws::{actors_lib, promise_store_lib, turn_records_lib};
