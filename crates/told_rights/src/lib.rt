//! What the rows of a journal tell of rights, kept: what each holder has, what is out of each brand,
//! and which payments were named.
#![tactic(auto)]

pub mod brand_kinds;
pub mod contents;
mod elements;
pub mod number_runs;
pub mod payments;
pub mod places;
pub mod rights;
mod shelves;
pub mod sizes;
pub mod spots;
pub mod sums;
pub mod supplies;
