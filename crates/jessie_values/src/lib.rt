//! The pure functions of the contract language over data: operators, accesses behind a value, and
//! built-in functions.
#![tactic(auto)]

pub mod accesses;
pub mod built_ins;
pub mod dispatch;
pub mod literals;
pub mod operators;
mod parts;
pub mod reasons;
pub mod records;
pub mod requests;

/// What `jessie_grammar` gives to those above.
pub mod jessie_grammar_lib {
    pub mod jessie_texts {
        pub mod refusal {
            pub use jessie_grammar::jessie_texts::refusal::{ReadError, TextRefusal};
        }
    }

    pub mod syntax {
        pub use jessie_grammar::syntax::{
            Access, Branch, BuiltIn, Constant, Expr, Function, Literal, Module, Operator, Stmt,
            Unary, Variable,
        };
    }
}
