//! What the tokens of a contract text stand for: the laws that tie the grammar, and the limits that
//! a token breaks, to the rules by which tokens are read from the front.

pub mod fault;
pub mod laws;
