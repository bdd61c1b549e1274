//! The record of a turn, at its end.

ghost use Rattle.std.specs.Prelude.{◌≡◌, []};
ghost use Rattle.turn_records.specs.Logs.{log_of};
ghost use Rattle.turn_records.specs.Views.{turn_view};
ghost use Rattle.turn_records.specs.Records.{turn_of};

use crate::deliveries::{Delivery, Reading};
use crate::events::Answer;
use crate::log::Log;
use crate::turns::TurnRecord;
use std::alloc::Global;
use turn_rows::rights_model_lib::Sum;

/// What was delivered in a turn, and what was read for it.
#[derive(Drop)]
pub struct Delivered {
    pub delivery: Delivery,
    pub reading: Reading,
}

/// The record of a turn. What its log has is taken, so that the next turn begins with nothing. It takes no
/// memory.
pub fn turn_of(
    alloc: Global,
    number: u32,
    delivered: Delivered,
    answer: Answer,
    log: &mut Log,
    sums: Vec<Sum>,
) -> TurnRecord
    ensures turn { turn_view result ≡ turn_of number delivered answer log.old sums.items }
    ensures empty { log_of log.new ≡ [] }
{
    let Delivered { delivery, reading } = delivered;
    let events = log.take(alloc);
    TurnRecord {
        number,
        delivery,
        reading,
        answer,
        events,
        sums,
    }
}
