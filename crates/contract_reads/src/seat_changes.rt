//! What a call makes of a seat's slots, as code that reads the world: the shares that it gives for them,
//! how many slots there are then, whether the seat's offer stays safe, the room that this needs, and
//! the effects.

pub mod counts;
pub mod effects;
pub mod losses;
pub mod safety;
pub mod shares;
