//! Tests of turns at their end and of their text, byte by byte.
#![tactic(auto)]

#[cfg(test)]
mod text_tests;
