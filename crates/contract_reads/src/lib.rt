//! What contracts give in calls (their own seats, records of amounts as shares) and what these make
//! of a seat's slots: each is read, or refused, as the definition says.
#![tactic(auto)]

pub mod contract_words;
pub mod keywords;
pub mod misfits;
pub mod seat_changes;
pub mod shares;
