//! Transfers between seats, however many they are (Zoe's atomicRearrange): read of a call's data,
//! worked one after the other on a working copy, and planned or refused as the rule says.
#![tactic(auto)]

mod brands_seen;
mod exchanges;
pub mod given_transfers;
mod keywords;
pub mod named_seats;
pub mod parts;
mod seat_lists;
mod share_brands;
pub mod shares;
mod slots;
pub mod transfers;
pub mod values;
mod working_copy;

/// What `contract_reads` gives to those above.
pub mod contract_reads_lib {
    pub mod seat_changes {
        pub mod counts {
            pub use contract_reads::seat_changes::counts::check_left;
        }
    }
}
