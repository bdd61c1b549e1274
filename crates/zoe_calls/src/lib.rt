//! The code of the methods of Zoe's service, each of which reads, or plans, what its rule says; and which
//! code serves a call of any of the host's own objects.
#![tactic(auto)]

pub mod installation;
pub mod issuers;
pub mod services;
pub mod start;
pub mod zoe;
