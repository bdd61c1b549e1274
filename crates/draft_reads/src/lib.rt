//! What is read of a turn's rights (purses, payments, seats, what is out of brands): each answer is
//! what the world has, lent, and nothing goes over what was made.
#![tactic(auto)]

pub mod draft_views;
pub mod payment_reads;
pub mod purse_reads;
pub mod seat_reads;

/// What `vault` gives to those above.
pub mod vault_lib {
    pub mod draft {
        pub use vault::draft::{Draft, Vault};
    }
}

pub use vault::{holders_lib, seats_lib};
pub use world_laws::{
    amount_math_lib, ertp_mint_lib, host_text_lib, proposals_lib, rights_model_lib,
    turn_records_lib,
};
