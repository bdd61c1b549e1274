//! Effects that touch no rights, and what effects on brands, seats and invitations make beside rights:
//! each makes of the stores just what its definition says, and leaves what they go back to.
#![tactic(auto)]

pub mod beside_seats;
pub mod carry;
pub mod instances;
pub mod labels;
pub mod promises;

/// What `world_reads` gives to those above.
pub mod world_reads_lib {
    pub mod known_data {
        pub use world_reads::known_data::{may_hold, may_hold_all, names_function};

        pub mod objects {
            pub use world_reads::known_data::objects::knows_object;
        }
    }

    pub mod words {
        pub use world_reads::words::next_of;
    }
}

pub use world_reads::{call_outcomes_lib, escrow_lib, host_world_lib, registers_lib, vault_lib};
