//! The code of ERTP's methods but issuers', which each read or plan what its rule says, and what other
//! calls read in common of payments, records and terms.
#![tactic(auto)]

pub mod brand;
pub mod deposit;
pub mod ertp;
pub mod invitations;
pub mod live_payments;
pub mod mint;
pub mod payment;
pub mod purse;
pub mod records;
pub mod terms;

/// What `world_reads` gives to those above.
pub mod world_reads_lib {
    pub mod given {
        pub use world_reads::given::{
            installation_number, instance_number, payment_number, payments_listed,
        };
    }

    pub mod moves {
        pub use world_reads::moves::{moving_amount, paying};
    }

    pub mod record_data {
        pub use world_reads::record_data::{place, put};
    }

    pub mod words {
        pub use world_reads::words::{
            is_offered_to, keyword_at, next_of, next_payment, runs, without_method,
        };
    }
}

pub use world_reads::{
    call_outcomes_lib, draft_reads_lib, host_world_lib, registers_lib, vault_lib,
};
