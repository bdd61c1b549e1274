//! Texts of the host (owned text, keywords, labels, names of fields, numbers in decimal): a text is
//! read exactly where it has the form, and what was read is seen as its bytes or its number.
#![tactic(auto)]

pub mod keyword;
pub mod label;
pub mod number;
pub mod text;
pub mod word;
