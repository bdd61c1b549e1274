//! Rows that are too long, told by the sizes of their data before anything is printed. What is counted
//! is printed as so many bytes at least: one for each value, and one for each byte of a text and of a
//! name. The walk stops where a row's bytes are used up.

ghost use Rattle.std.specs.Prelude.{◌≡◌};
ghost use Rattle.std.specs.List.{list_any};
ghost use Rattle.turn_records.specs.host_data.View.{tree};
ghost use Rattle.turn_records.specs.Events.{called};
ghost use Rattle.turn_records.specs.promise_store.States.{settlement_view};
ghost use Rattle.turn_records.specs.Views.{answer_view, call_view, delivery_view, event_view, event_views, reading_view, turn_view};
ghost use Rattle.turn_writer.specs.ShortRows.{answer_size, arguments_size, event_size, has_long_row, is_long_event, left_after, reading_size, settled_tree, told_size, turn_row_size};

use crate::turn_row::MOST_INSIDE;
use turn_records::deliveries::{Delivery, Reading};
use turn_records::events::{Answer, Call, Event};
use turn_records::host_data_lib::data::{Data, pay, pay_items};
use turn_records::promise_store_lib::Settlement;
use turn_records::turns::TurnRecord;

/// The most bytes of a row, without its line feed, that readers of journals take.
pub(crate) const MOST_ROW: u64 = 1 << 26;

/// What is left of a row's bytes after the data of an answer, where they are enough.
fn pay_answer(left: u64, answer: &Answer) -> Option<u64>
    ensures { result ≡ left_after left (answer_size (answer_view answer.now)) }
{
    match answer {
        Answer::Given(given) => pay(left, given),
        Answer::Threw(thrown) => pay(left, thrown),
        Answer::Refused(_) | Answer::Spent(_) => Some(left),
    }
}

/// What a promise was settled with.
fn settled_data(settlement: &Settlement) -> &Data
    ensures { tree result.now ≡ settled_tree (settlement_view settlement.now) }
{
    match settlement {
        Settlement::Ok(value) => value,
        Settlement::Broken(reason) => reason,
    }
}

/// What is left after what a function is told of a promise.
fn pay_told(left: u64, value: &Data) -> Option<u64>
    ensures { result ≡ left_after left (told_size (tree value.now)) }
{
    if value.nests_within(MOST_INSIDE) {
        pay(left, value)
    } else {
        Some(left)
    }
}

fn pay_reading(left: u64, reading: &Reading) -> Option<u64>
    ensures { result ≡ left_after left (reading_size (reading_view reading.now)) }
{
    match reading {
        Reading::Target(_, arguments) => pay_items(left, arguments.as_slice()),
        Reading::Gift(gift) => pay(left, gift),
        Reading::Settlement(settlement) => pay_told(left, settled_data(settlement)),
        Reading::Nothing | Reading::Time(_) => Some(left),
    }
}

fn pay_arguments(left: u64, delivery: &Delivery, reading: &Reading) -> Option<u64>
    ensures { result ≡ left_after left
        (arguments_size (delivery_view delivery.now) (reading_view reading.now)) }
{
    match delivery {
        Delivery::Offer(offer) => pay(left, &offer.offer_arguments),
        Delivery::Tick(_) => Some(left),
        _ => pay_reading(left, reading),
    }
}

fn pay_turn_row(left: u64, turn: &TurnRecord) -> Option<u64>
    ensures { result ≡ left_after left (turn_row_size (turn_view turn.now)) }
{
    let left = pay_arguments(left, &turn.delivery, &turn.reading)?;
    pay_answer(left, &turn.answer)
}

fn pay_call(left: u64, call: &Call) -> Option<u64>
    ensures { result ≡ left_after left (event_size (called (call_view call.now))) }
{
    let left = pay_items(left, call.arguments.as_slice())?;
    pay_answer(left, &call.answer)
}

fn pay_event(left: u64, event: &Event) -> Option<u64>
    ensures { result ≡ left_after left (event_size (event_view event.now)) }
{
    match event {
        Event::Called(call) => pay_call(left, call),
        Event::Settled(_, settlement) => pay(left, settled_data(settlement)),
        Event::Opened(_) | Event::Moved(_) | Event::Exited(_) => Some(left),
    }
}

fn is_long_event(event: &Event) -> bool
    ensures { result ≡ is_long_event (event_view event.now) }
{
    pay_event(MOST_ROW, event).is_none()
}

fn has_long_event(events: &[Event]) -> bool
    ensures { result ≡ list_any is_long_event (event_views events.now) }
{
    for event in events {
        if is_long_event(event) {
            return true;
        }
    }
    false
}

/// Whether the data of a row of it take more bytes than a row may have.
pub fn has_long_row(turn: &TurnRecord) -> bool
    ensures { result ≡ has_long_row (turn_view turn.now) }
{
    pay_turn_row(MOST_ROW, turn).is_none() || has_long_event(turn.events.as_slice())
}
