//! The powers that an instance's functions have over the world of a turn: each call is planned,
//! told and carried out at once, as the definition of its reply says.
#![tactic(auto)]

pub mod admission;
pub mod calls;
pub mod host_calls;
pub mod names;
pub mod planner;
pub mod powers;

/// What `refusals` gives to those above.
pub mod refusals_lib {
    pub mod codes {
        pub use refusals::codes::{BareCode, Refusal};
    }

    pub mod stops {
        pub use refusals::stops::Stop;
    }
}

/// What `world_effects` gives to those above.
pub mod world_effects_lib {
    pub use world_effects::carry_out;
}

pub use world_effects::{
    call_outcomes_lib, escrow_lib, host_world_lib, rights_model_lib, turn_records_lib,
};
