//! The reader of contract texts: of any bytes, the module that they are by the grammar, or their
//! first refusal.
#![tactic(auto)]

pub mod block;
mod build;
pub mod functions;
mod headers;
pub mod module;
pub mod reader;
mod simple;
pub mod variables;
