//! The words of the command line, read with clap: options come only for words that the command set
//! takes, and a fault of usage only for words that it doesn't take.
#![tactic(auto)]

pub mod words;
