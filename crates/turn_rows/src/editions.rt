//! The editions of a journal's text.

/// Which form a journal's text has. They differ in the first row, in sum rows, and in how large a nat value may be.
#[derive(Clone, Copy)]
pub enum Edition {
    /// No version row; nat values up to 2^63 - 1; a sum row has no supply.
    First,
    /// A version row; nat values up to 2^120 - 1; a sum row has the supply, minted less burned.
    Second,
}
