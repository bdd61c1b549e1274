//! Names found without a walk over all: a function's own names with their values, and a module's
//! functions.
#![tactic(auto)]

pub mod index;
pub mod jessie_module_index;
pub mod locals;
pub mod names;

pub use jessie_semantics::{jessie_grammar_lib, jessie_values_lib};
