//! Movements that are made together.

use registers::rights_model_lib::Movement;

/// Movements that are made together, as they are written, by the way in which that is done. `HasShape`
/// (specs/Moves.antt) says what each way asks of them.
#[derive(Drop)]
pub enum Moves {
    /// Each by itself, in order.
    Movements(Vec<Movement>),
    /// Payments go whole to a new one.
    Combination(Vec<Movement>),
    /// A payment goes in parts to new ones.
    Split(Vec<Movement>),
    /// What slots lose goes to the hand, and what slots gain comes from it.
    Rearrangement(Vec<Movement>),
}
