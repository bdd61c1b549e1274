//! Laws of the rules of all calls: each call of the host's own objects, and each of a contract's,
//! owes what every call owes, for all methods of the tables.
#![tactic(auto)]

pub mod call_rules;
pub mod contract_rules;
pub mod service_rules;
