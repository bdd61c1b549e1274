//! What a contract's calls of the host are tested for, as code that reads the world: seats that weren't
//! left, an instance's own seats, and objects that its arguments name.

pub mod allocations;
pub mod objects;
pub mod own_seats;
