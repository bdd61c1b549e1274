//! The code of the methods of issuers (ERTP): each reads, or plans, what its rule says.
#![tactic(auto)]

pub mod combination;
pub mod issuer;
pub mod payment_lists;
pub mod split;
