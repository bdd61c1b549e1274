//! A turn's record.

use crate::deliveries::{Delivery, Reading};
use crate::events::{Answer, Event};
use turn_rows::rights_model_lib::Sum;

/// A turn: what was delivered and what was read for it, what it came to, what happened in it, and the
/// totals at its end.
pub struct TurnRecord {
    /// From 1.
    pub number: u32,
    pub delivery: Delivery,
    pub reading: Reading,
    pub answer: Answer,
    /// In the order in which they happened.
    pub events: Vec<Event>,
    /// One for each brand that the movements name, by number.
    pub sums: Vec<Sum>,
}

impl Drop for TurnRecord {
    fn drop(self) {
        let TurnRecord {
            number: _,
            delivery: _,
            reading: _,
            answer: _,
            events: _,
            sums: _,
        } = self;
    }
}
