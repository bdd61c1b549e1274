//! The code of the methods of users' seats and of the timer: each reads, or plans, what its rule
//! says.
#![tactic(auto)]

pub mod proposal;
pub mod seat;
pub mod timer;

/// What `world_reads` gives to those above.
pub mod world_reads_lib {
    pub mod record_data {
        pub use world_reads::record_data::allocation_data;
    }

    pub mod words {
        pub use world_reads::words::{keyword_at, without_method};
    }
}

pub use world_reads::{call_outcomes_lib, draft_reads_lib, host_world_lib};
