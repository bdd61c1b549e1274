//! The text of a turn's rows and of the close row: what is written is just the text of the printed
//! turn, and for want of memory nothing is written.
#![tactic(auto)]

ghost use Rattle.std.specs.Prelude.{◌≡◌, false, map, IfOk, OnOk};
ghost use Rattle.std.specs.List.{AllByRecursion, flat_map};
ghost use Rattle.serde_json.specs.View.{view};
ghost use Rattle.serde_json.specs.Written.{has_float};
ghost use Rattle.turn_rows.specs.Rows.{close_row, event_row, sum_row, turn_row};
ghost use Rattle.turn_rows.specs.Texts.{close_text, first_rows, row_text, turn_text};
ghost use Rattle.turn_records.specs.Printed.{printed, printed_event};
ghost use Rattle.turn_records.specs.Views.{event_view, event_views, turn_view};
ghost use Rattle.turn_writer.specs.JsonRows.{Adds, HasFields, IsJson, IsText};
ghost use Rattle.turn_writer.specs.ShortRows.{HasShortRows, IsShortRow};
ghost use Rattle.turn_writer.specs.Texts.{event_text, events_text, sum_fields, sums_text};

mod answers;
mod event_rows;
mod json_row;
mod names;
mod row_sizes;
pub mod turn_form;
mod turn_row;

/// What `turn_records` gives to those above.
pub mod turn_records_lib {
    pub mod deliveries {
        pub use turn_records::deliveries::{Delivery, Reading, Start};
    }

    pub mod events {
        pub use turn_records::events::{Answer, Event};
    }

    pub mod log {
        pub use turn_records::log::Log;
    }

    pub mod turn_answers {
        pub mod records {
            pub use turn_records::turn_answers::records::{Delivered, turn_of};
        }

        pub mod settlements {
            pub use turn_records::turn_answers::settlements::settlement_of;
        }
    }

    pub mod turns {
        pub use turn_records::turns::TurnRecord;
    }
}

/// What `turn_rows` gives to those above.
pub mod turn_rows_lib {
    pub mod editions {
        pub use turn_rows::editions::Edition;
    }
}

use event_rows::event_value;
use json_row::JsonRow;
use names::{brand_text, decimal_text};
use row_sizes::{MOST_ROW, has_long_row};
use serde_json::Value;
use std::alloc::{AllocError, Global};
use turn_records::events::Event;
use turn_records::turns::TurnRecord;
pub use turn_records::{host_data_lib, promise_store_lib, refusals_lib};
use turn_row::turn_value;
use turn_rows::editions::Edition;
use turn_rows::rights_model_lib::Sum;

/// The edition that a run writes.
pub const WRITTEN: Edition = Edition::Second;

/// The first row of the second edition, with its line feed.
const VERSION_ROW: &str = "{\"row\":\"version\",\"version\":2}\n";

/// The version row, where the edition has one and nothing stands before: what a text begins with that comes
/// after so many turns.
fn first_text(alloc: Global, edition: Edition, before: u32) -> Result<String, AllocError>
    ensures { IsText result (flat_map row_text (first_rows edition before)) }
{
    if before != 0 {
        return Ok(String::new(alloc));
    }
    match edition {
        Edition::First => Ok(String::new(alloc)),
        Edition::Second => String::from_str(alloc, VERSION_ROW),
    }
}

/// A sum row as far as the editions don't differ.
fn sum_start(alloc: Global, sum: &Sum) -> JsonRow
    ensures { HasFields result (sum_fields sum.now) }
{
    JsonRow::new(alloc)
        .string("brand", brand_text(alloc, sum.brand))
        .string("burned", decimal_text(alloc, sum.burned))
        .string("minted", decimal_text(alloc, sum.minted))
        .string("payments", decimal_text(alloc, sum.payments))
        .string("purses", decimal_text(alloc, sum.purses))
        .text("row", "sum")
        .string("slots", decimal_text(alloc, sum.slots))
}

fn sum_value(alloc: Global, edition: Edition, sum: &Sum) -> Result<Value, AllocError>
    ensures { IsJson result (sum_row edition sum.now) }
{
    let row = sum_start(alloc, sum);
    match edition {
        Edition::First => row.finish(),
        Edition::Second => {
            let supply = sum.minted.saturating_sub(sum.burned);
            row.string("supply", decimal_text(alloc, supply)).finish()
        }
    }
}

/// Adds a row to the text. One that is too long is refused as for want of memory.
#[tactic(auto, unfolding(turn_rows::specs::Texts::row_text))]
fn push_row(alloc: Global, text: &mut String, row: &Value) -> Result<(), AllocError>
    requires { has_float (view row.now) ≡ false }
    ensures adds { Adds result text.old text.new (row_text (view row.now)) }
    ensures short { OnOk result (IsShortRow (view row.now)) }
{
    let line = row.to_string(alloc)?;
    if line.len() as u64 > MOST_ROW {
        return Err(AllocError);
    }
    text.push_str(line.as_str())?;
    text.push_str("\n")?;
    Ok(())
}

fn push_event(alloc: Global, text: &mut String, event: &Event) -> Result<(), AllocError>
    ensures adds { Adds result text.old text.new (event_text (event_view event.now)) }
    ensures short { OnOk result (IsShortRow (event_row (printed_event (event_view event.now)))) }
{
    let row = event_value(alloc, event)?;
    push_row(alloc, text, &row)
}

fn push_events(alloc: Global, text: &mut String, events: &[Event]) -> Result<(), AllocError>
    ensures adds { Adds result text.old text.new (events_text (event_views events.now)) }
    ensures short { let told = map printed_event (event_views events.now) in
        OnOk result (AllByRecursion IsShortRow (map event_row told)) }
{
    for event in events {
        push_event(alloc, text, event)?;
    }
    Ok(())
}

fn push_sum(alloc: Global, text: &mut String, edition: Edition, sum: &Sum) -> Result<(), AllocError>
    ensures adds { Adds result text.old text.new (row_text (sum_row edition sum.now)) }
    ensures short { OnOk result (IsShortRow (sum_row edition sum.now)) }
{
    let row = sum_value(alloc, edition, sum)?;
    push_row(alloc, text, &row)
}

fn push_sums(
    alloc: Global,
    text: &mut String,
    edition: Edition,
    sums: &[Sum],
) -> Result<(), AllocError>
    ensures adds { Adds result text.old text.new (sums_text edition sums.now) }
    ensures short { OnOk result (AllByRecursion IsShortRow (map (sum_row edition) sums.now)) }
{
    for sum in sums {
        push_sum(alloc, text, edition, sum)?;
    }
    Ok(())
}

fn push_turn_row(alloc: Global, text: &mut String, turn: &TurnRecord) -> Result<(), AllocError>
    ensures adds { Adds result text.old text.new
        (row_text (turn_row (printed (turn_view turn.now)))) }
    ensures short { OnOk result (IsShortRow (turn_row (printed (turn_view turn.now)))) }
{
    let row = turn_value(alloc, turn)?;
    push_row(alloc, text, &row)
}

/// The rows of a turn that comes after so many others: the turn row, the rows of what happened as it happened, and
/// the sums. With those of the first turn stands the version row. Where a row would be longer than readers of
/// journals take, there are none, as for want of memory.
pub fn write_turn(
    alloc: Global,
    edition: Edition,
    before: u32,
    turn: &TurnRecord,
) -> Result<String, AllocError>
    ensures text { IsText result (turn_text edition before (printed (turn_view turn.now))) }
    ensures short { IfOk result (λ _. HasShortRows edition (printed (turn_view turn.now))) }
{
    if has_long_row(turn) {
        return Err(AllocError);
    }
    let mut text = first_text(alloc, edition, before)?;
    push_turn_row(alloc, &mut text, turn)?;
    push_events(alloc, &mut text, turn.events.as_slice())?;
    push_sums(alloc, &mut text, edition, turn.sums.as_slice())?;
    Ok(text)
}

fn close_value(alloc: Global, left: u64, turns: u32) -> Result<Value, AllocError>
    ensures { IsJson result (close_row left turns) }
{
    JsonRow::new(alloc)
        .value("left", Ok(Value::from(left)))
        .text("row", "close")
        .number("turns", turns)
        .finish()
}

/// The close row: how many deliveries are left, and how many turns were run. Where none was, the version row
/// stands before it.
pub fn write_close(
    alloc: Global,
    edition: Edition,
    left: u64,
    turns: u32,
) -> Result<String, AllocError>
    ensures text { IsText result (close_text edition left turns) }
    ensures short { IfOk result (λ _. IsShortRow (close_row left turns)) }
{
    let row = close_value(alloc, left, turns)?;
    let mut text = first_text(alloc, edition, turns)?;
    push_row(alloc, &mut text, &row)?;
    Ok(text)
}
