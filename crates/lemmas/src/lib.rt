//! Lemmas of no subject of the host's: facts that a type can keep though they may have many proofs,
//! and lists of which one element is written or which are cut back.
#![tactic(auto)]

pub mod laws;
