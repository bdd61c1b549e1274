//! The lines of an input, and what each means: of any bytes nothing, a number of deliveries that
//! are run at once, or a delivery.
#![tactic(auto)]

pub mod arguments;
pub mod lines;
pub mod messages;
