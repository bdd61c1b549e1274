//! A journal row by row: what a row is and its form, when a row is good after those before it, and
//! the first that isn't.
#![tactic(auto)]

pub mod laws;
