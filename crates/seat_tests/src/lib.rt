//! Tests of seats and of changes of what they have: worked reallocations with each of their
//! refusals.
#![tactic(auto)]

#[cfg(test)]
mod parts;
#[cfg(test)]
mod seats_tests;
#[cfg(test)]
mod staged_tests;
#[cfg(test)]
mod transfers_tests;
