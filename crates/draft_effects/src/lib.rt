//! What effects make of a turn's draft of rights (movements, splits, combinations, rearrangements,
//! offers, exits, staging), or want of memory, with the draft as before.
#![tactic(auto)]

pub mod draft_openings;
pub mod draft_rearrangements;
pub mod draft_staging;
pub mod movements;
pub mod payment_combinations;
pub mod payment_splits;
pub mod seat_exits;
pub mod seat_offers;
pub mod stored_parts;
