//! Promises with the functions that are to be told of them: what the world's definitions call its book
//! of promises. Its one contract: contracts see the book of the turn's start and that of now; resolving
//! a promise makes of the book, of what waits and of what was told just what `resolving` of world_state
//! says, in the order of its cascade, and the book of the turn's start stays, so that all can be worked
//! back, whatever a call came to.

mod calls;
mod copies;
mod table;
mod telling;
pub mod waiting;

pub use table::PromiseTable;
