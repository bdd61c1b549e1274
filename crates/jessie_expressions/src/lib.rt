//! Constants and expressions read from the tokens of a contract text, each by its rule of the
//! grammar or to its first refusal.
#![tactic(auto)]

pub mod constant;
pub mod expression;

/// What `jessie_terminals` gives to those above.
pub mod jessie_terminals_lib {
    pub mod blocks {
        pub use jessie_terminals::blocks::{add_branch, add_statement, close_if, end_if};
    }

    pub mod kinds {
        pub use jessie_terminals::kinds::{
            begins_item, begins_statement, is, is_leading_word, is_word,
        };
    }

    pub mod name_uses {
        pub use jessie_terminals::name_uses::{assigns, binds, declares, defines};
    }

    pub mod names {
        pub use jessie_terminals::names::{declared_name, leading_name, name};
    }

    pub mod statements {
        pub use jessie_terminals::statements::{
            assign_statement, declaration_statement, empty_return, for_statement, return_statement,
            run_statement, throw_statement, try_statement, while_statement,
        };
    }

    pub mod symbols {
        pub use jessie_terminals::symbols::{binding, expect, open, refusal};
    }
}
