//! Laws of what a turn may name, move, mint and withdraw, whatever the text of the contract: its function names only
//! what it was handed, each movement is by right, and what is minted, withdrawn and spent is called for by its rows.
#![tactic(auto)]

pub mod licences;
pub mod spent_turns;
pub mod supply_laws;

pub use fair_laws::turn_writer_lib;
