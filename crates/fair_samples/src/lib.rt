//! The sentences of fairness, one by one, with a list of turns for each that breaks it alone, and
//! one with every kind of row that breaks none.
#![tactic(auto)]

pub mod laws;
