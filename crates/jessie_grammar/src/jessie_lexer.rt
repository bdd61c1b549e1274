//! A contract text cut into its tokens, the longest at each place, each with its place; behind what
//! is no token nothing is cut.

pub mod laws;
pub mod lexer;
pub mod token;
