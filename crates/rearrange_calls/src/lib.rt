//! The code of atomicRearrange and reallocate: the movements are those of their definition, by
//! seats' numbers and the order of slots, each by way of the hand.
#![tactic(auto)]

pub mod atomic_rearrange;
mod differences;
mod moves;
pub mod reallocation;
mod reallocation_changes;
mod reallocation_states;
mod rearrangement_effects;
mod seat_order;
mod transfer_changes;
mod transfer_states;
