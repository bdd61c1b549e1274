//! The form of texts in rows (numbers, names, codes), tested: each test says yes exactly where the
//! definition does.
#![tactic(auto)]

pub mod names;
pub mod numbers;
pub mod refusals;
