//! Contract texts as the calls that install them read them: a module as the world is to hold it, or
//! the refusal of the first fault.
#![tactic(auto)]

pub mod laws;
pub mod texts;
