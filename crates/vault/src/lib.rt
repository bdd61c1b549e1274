//! A vault's rights and a turn's draft of them: each call is one step on the lists that the stores
//! stand for, and the draft is kept at the turn's end or worked backwards without memory.
#![tactic(auto)]

pub mod draft;
pub mod draft_movements;
pub mod openings;
pub mod payment_parts;
pub mod stores;

/// What `seats` gives to those above.
pub mod seats_lib {
    pub use seats::seats::{OpenFault, StageFault};
}

pub use vault_model::holders_lib;
