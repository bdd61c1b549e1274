//! Stores that a turn changes and can take back without memory, by subject: what waits to be
//! delivered, the timer, invitations, and the map by which places are found.
#![tactic(auto)]

pub mod invitations;
pub mod timer;
pub mod turn_queue;
pub mod undo_map;
