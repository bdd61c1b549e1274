//! What stands at the paths of a line, within so many parts in all, and at the target of a call that was sent.
#![tactic(auto)]

pub mod messages;
mod parts;
mod paths;
