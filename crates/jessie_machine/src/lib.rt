//! Where an evaluation of a contract's function stands, and its steps that run no part of the tree.
#![tactic(auto)]

pub mod bills;
pub mod built_ins;
pub mod host;
pub mod machine;
pub mod names;
pub mod numbers;
pub mod operations;
pub mod requests;
pub mod stop;
pub mod when_far;

/// What `jessie_index` gives to those above.
pub mod jessie_index_lib {
    pub mod jessie_module_index {
        pub use jessie_index::jessie_module_index::IndexedModule;
    }

    pub mod locals {
        pub use jessie_index::locals::Locals;
    }
}

pub use jessie_index::{jessie_grammar_lib, jessie_values_lib};
pub use jessie_semantics::{amount_math_lib, host_data_lib, host_text_lib};
