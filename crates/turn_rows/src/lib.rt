//! Turns as a journal prints them: the record of a turn, its rows as JSON, the form of rows, and
//! the text of a journal, which tells its turns and what is left.
#![tactic(auto)]

pub mod editions;
pub mod laws;

/// What `rights_model` gives to those above.
pub mod rights_model_lib {
    pub use rights_model::{Holder, Movement, Sum};
}

pub use rights_model::{amount_math_lib, host_text_lib};
