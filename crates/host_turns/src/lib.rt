//! The host between turns, with all that waits: it takes lines and makes its steps as runs ask of a
//! host, is always good, and its turns stay fair.
#![tactic(auto)]

pub mod host;
pub mod steps;
pub mod turn_sums;
mod turns;

pub use front_turns::{call_outcomes_lib, contract_powers_lib, host_world_lib, turn_records_lib};
