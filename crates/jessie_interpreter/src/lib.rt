//! The metered interpreter of contracts' functions, which does what the rules of evaluation say
//! with any host.
#![tactic(auto)]

mod conditions;
pub mod evaluation;
pub mod run;

/// What `jessie_machine` gives to those above.
pub mod jessie_machine_lib {
    pub mod host {
        pub use jessie_machine::host::{NoMemory, Powers, Reply};
    }
}

pub use jessie_machine::{
    amount_math_lib, host_data_lib, host_text_lib, jessie_grammar_lib, jessie_index_lib,
};
