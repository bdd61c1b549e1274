//! What a contract text comes to, by one answer and no other: the module that it is, or its first
//! refusal.

pub mod answers;
pub mod laws;
pub mod refusal;
