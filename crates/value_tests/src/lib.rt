//! Tests of values that change nothing, each with the refusal that a call shows where it fails:
//! each fails exactly where its definition does, and that where the rules of amounts do.
#![tactic(auto)]

pub mod holding_checks;
pub mod laws;
pub mod pairs;
mod past;
pub mod value_differences;
pub mod value_sums;
pub mod value_totals;
pub mod wholes;
pub mod wide_sums;

pub use transit::ertp_mint_lib;
