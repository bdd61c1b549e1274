//! Purses and payments by number (ERTP): each call gives the whole new list of them, and one that
//! changes them has one that works it backwards without memory.
#![tactic(auto)]

pub mod payments;
pub mod purses;

/// What `ertp_mint` gives to those above.
pub mod ertp_mint_lib {
    pub use ertp_mint::{Balance, Circulations, Parcel};
}
