//! What the rows of a journal tell of seats, kept: how each was opened, its slots, what these had at its exit and why
//! it exited, and the movements that are due.
#![tactic(auto)]

mod covered;
pub mod dues;
mod printed;
pub mod seats;
pub mod slots;
