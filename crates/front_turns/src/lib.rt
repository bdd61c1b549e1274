//! The turn of the delivery in front: what is read for it, the work itself, and its end; the world
//! has just the effects of the delivery's turn by its definition, or the turn can be undone.
#![tactic(auto)]

mod ends;
pub mod function_runs;
mod tasks;
pub mod turns;

/// What `contract_powers` gives to those above.
pub mod contract_powers_lib {
    pub mod planner {
        pub use contract_powers::planner::Planner;
    }
}

pub use contract_powers::{
    call_outcomes_lib, escrow_lib, host_world_lib, rights_model_lib, turn_records_lib,
};
