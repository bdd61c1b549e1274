//! That the turn of each delivery is a fair step: what effects tell in a journal is fair to the
//! world they were worked in, exits have their causes, and calls show what they did.
#![tactic(auto)]

pub mod fair_causes;
pub mod fair_deliveries;
pub mod fair_effects;
pub mod fair_runs;
pub mod fair_steps;
pub mod shown_reads;

pub use delivery_laws::turn_writer_lib;
