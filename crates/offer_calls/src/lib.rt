//! The code of zoe.offer: it plans what its rule says, with each test over all shares before the
//! next.
#![tactic(auto)]

pub mod invitation;
pub mod keywords;
pub mod offer;
pub mod payments;
pub mod proposal;
