//! When the turns of a journal are fair, said of printed rows alone, row by row and at each turn's
//! end.
#![tactic(auto)]

pub mod laws;
