//! Tests of the stores that can go back: each call that takes memory comes to its end, and worked
//! rows.
#![tactic(auto)]

#[cfg(test)]
mod actors_tests;
#[cfg(test)]
mod brands_tests;
#[cfg(test)]
mod ertp_mint_tests;
#[cfg(test)]
mod escrow_tests;
#[cfg(test)]
mod instances_tests;
#[cfg(test)]
mod payments_tests;
#[cfg(test)]
mod promise_store_tests;
#[cfg(test)]
mod purses_tests;
#[cfg(test)]
mod timer_tests;
#[cfg(test)]
mod turn_queue_tests;
#[cfg(test)]
mod undo_map_tests;
