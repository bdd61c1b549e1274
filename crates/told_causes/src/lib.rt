//! What rows tell of why seats are left, and of facets, kept row by row.
#![tactic(auto)]

pub mod causes;
pub mod facets;
pub mod standings;
