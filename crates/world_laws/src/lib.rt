//! Laws of the world: each good effect keeps it good and makes of the table of rights what its
//! movements do; what was made stays; the delivery in front stays there.
#![tactic(auto)]

pub mod front_laws;
pub mod laws;
pub mod rights_tables;
pub mod rights_views;
pub mod stable_worlds;

pub use world_state::{
    actors_lib, amount_math_lib, brands_lib, ertp_mint_lib, host_data_lib, host_text_lib,
    jessie_grammar_lib, promise_store_lib, proposals_lib, rights_model_lib, turn_records_lib,
    turn_stores_lib,
};
