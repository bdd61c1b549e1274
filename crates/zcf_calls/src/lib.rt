//! The code of the methods of zcf (invitations, seats of its own, wakeups, the issuers that an
//! instance keeps, its end), and the table of all methods of zcf: each reads, or plans, what its
//! rule says.
#![tactic(auto)]

mod instances;
mod invitations;
mod issuers;
mod new_issuers;
mod seat_kits;
mod shutdowns;
mod wakeups;
pub mod zcf;

/// What `escrow_calls` gives to those above.
pub mod escrow_calls_lib {
    pub mod zmint {
        pub use escrow_calls::zmint::of_zmint;
    }
}
