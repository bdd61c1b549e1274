//! Contracts to begin with, and the lines of a demonstration of any size, which are made from a number.
#![tactic(auto)]

pub mod demo;
pub mod samples;
