//! Single tokens of a contract text as the grammar's rules take them from the front, and the trees
//! that are made of parts.
#![tactic(auto)]

pub mod blocks;
pub mod constants;
pub mod expressions;
pub mod kinds;
pub mod name_uses;
pub mod names;
pub mod statements;
pub mod symbols;
pub mod values;
