//! The calls of the host that instances' functions make, but for those of methods, as outcomes: sends,
//! requests to be told of a promise, and facets; and what a call comes to, whatever its rule plans: it
//! is told, and then has its effects.

pub mod answers;
pub mod facets;
pub mod requests;
pub mod sends;
pub mod told_calls;
