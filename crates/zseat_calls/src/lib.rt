//! The code of the methods of a ZCF seat (its exit, what it has, what is staged of it), and the
//! table of them: each reads, or plans, what its rule says.
#![tactic(auto)]

mod amounts;
mod changes;
mod exits;
mod offer_safety;
mod slots;
mod staging;
pub mod zseat;

/// What `refusals` gives to those above.
pub mod refusals_lib {
    pub mod codes {
        pub use refusals::codes::NumberCode;
    }

    pub mod stops {
        pub use refusals::stops::Stop;
    }
}
