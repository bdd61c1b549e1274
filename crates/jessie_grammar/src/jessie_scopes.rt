//! What a contract text does with names, in its order, and the first of it that it may not do.

pub mod laws;
pub mod name_use;
mod reserved;
pub mod scopes;
