//! The rows of what happens in a turn.

ghost use Rattle.std.specs.Prelude.{◌≡◌, codes};
ghost use Rattle.serde_json.specs.Data.{object, string};
ghost use Rattle.turn_records.specs.Values.{printed_value};
ghost use Rattle.turn_records.specs.promise_store.States.{settlement_view};
ghost use Rattle.turn_rows.specs.Causes as causes;
ghost use Rattle.turn_rows.specs.Kinds as kinds;
ghost use Rattle.turn_rows.specs.Rows.{amount_json, amounts_json, brand_name, call_row, event_row, exit_row, exit_rule_json, move_row, only, open_row, payouts_json, value_json};
ghost use Rattle.turn_records.specs.Printed.{called_on, printed_call, printed_event, printed_exit, printed_move, printed_opening, printed_payouts, printed_shares, printed_rule};
ghost use Rattle.turn_records.specs.Views.{call_view, cause_view, event_view, how_view, leaving_view, opening_view, payout_views};
ghost use Rattle.turn_writer.specs.JsonRows.{IsJson, IsText};
ghost use Rattle.turn_writer.specs.Texts.{settled_row};

use crate::answers::{answer_value, settlement_value};
use crate::json_row::{JsonRow, only_field};
use crate::names::{brand_text, holder_text, instance_text, payment_text};
use serde_json::{Map, Value, put};
use std::alloc::{AllocError, Global};
use turn_records::data_rows::{data_value, items_value, number_value, object_name};
use turn_records::events::{Call, Cause, Event, How, Leaving, Opening, Payout};
use turn_records::host_data_lib::data::Obj;
use turn_records::host_data_lib::values::value_data;
use turn_records::promise_store_lib::Settlement;
use turn_records::proposals_lib::allocations::Share;
use turn_records::proposals_lib::offers::Exit;
use turn_rows::amount_math_lib::{Amount, Value as Held};
use turn_rows::rights_model_lib::Movement;

fn how_word(how: How) -> &'static str
    ensures { result.now ≡ kinds.how_word (how_view how) }
{
    match how {
        How::Call => "call",
        How::Send => "send",
        How::When => "when",
        How::Far => "far",
    }
}

fn cause_word(cause: Cause) -> &'static str
    ensures { result.now ≡ causes.cause_word (cause_view cause) }
{
    match cause {
        Cause::Asked => "asked",
        Cause::Deadline => "deadline",
        Cause::Exit => "exit",
        Cause::Fail => "fail",
        Cause::Threw => "threw",
        Cause::Halted => "halted",
        Cause::Spent => "spent",
    }
}

/// The name of what is called: none where a facet is made.
fn called_text(alloc: Global, on: Option<Obj>) -> Result<String, AllocError>
    ensures { IsText result (called_on on) }
{
    match on {
        Some(object) => object_name(alloc, object),
        None => String::from_str(alloc, ""),
    }
}

fn call_value(alloc: Global, call: &Call) -> Result<Value, AllocError>
    ensures { IsJson result (call_row (printed_call (call_view call.now))) }
{
    JsonRow::new(alloc)
        .value("answer", answer_value(alloc, &call.answer))
        .value("args", items_value(alloc, call.arguments.as_slice()))
        .text("do", call.method.as_str())
        .text("how", how_word(call.how))
        .string("on", called_text(alloc, call.on))
        .text("row", "call")
        .finish()
}

fn exit_rule_value(alloc: Global, exit: Exit) -> Result<Value, AllocError>
    ensures { IsJson result (exit_rule_json (printed_rule exit)) }
{
    match exit {
        Exit::OnDemand => Value::try_from_str(alloc, "onDemand"),
        Exit::Waived => Value::try_from_str(alloc, "waived"),
        Exit::AfterDeadline(time) => {
            let time = number_value(alloc, i128::from(time))?;
            only_field(alloc, "afterDeadline", time)
        }
    }
}

/// A value of a brand.
fn held_value(alloc: Global, held: &Held) -> Result<Value, AllocError>
    ensures { IsJson result (value_json (printed_value held.now)) }
{
    let held = value_data(alloc, held)?;
    data_value(alloc, &held)
}

/// `{"@":"brand1"}`
fn brand_value(alloc: Global, brand: u16) -> Result<Value, AllocError>
    ensures { IsJson result (only (codes "@") (string (brand_name brand))) }
{
    let name = brand_text(alloc, brand)?;
    only_field(alloc, "@", Value::String(name))
}

/// An amount: the brand's name and the value.
fn amount_value(alloc: Global, amount: &Amount) -> Result<Value, AllocError>
    ensures { IsJson result (amount_json amount.now.brand (printed_value amount.now.value)) }
{
    JsonRow::new(alloc)
        .value("brand", brand_value(alloc, amount.brand))
        .value("value", held_value(alloc, &amount.value))
        .finish()
}

/// The amounts of rows, under their keywords.
fn amounts_value(alloc: Global, shares: &[Share]) -> Result<Value, AllocError>
    ensures { IsJson result (object (amounts_json (printed_shares shares.now))) }
{
    let mut values = Map::new(alloc);
    let mut left = shares.len();
    while left > 0 {
        left -= 1;
        let share = &shares[left];
        let amount = amount_value(alloc, &share.amount)?;
        put(&mut values, alloc, share.keyword.as_str(), amount)?;
    }
    Ok(Value::Object(values))
}

fn open_value(alloc: Global, opening: &Opening) -> Result<Value, AllocError>
    ensures { IsJson result (open_row (printed_opening (opening_view opening.now))) }
{
    let proposal = &opening.proposal;
    JsonRow::new(alloc)
        .value("exit", exit_rule_value(alloc, proposal.exit))
        .value("give", amounts_value(alloc, proposal.give.shares()))
        .string("instance", instance_text(alloc, opening.instance))
        .text("row", "open")
        .number("seat", opening.seat)
        .value("want", amounts_value(alloc, proposal.want.shares()))
        .finish()
}

fn move_value(alloc: Global, movement: &Movement) -> Result<Value, AllocError>
    ensures { IsJson result (move_row (printed_move movement.now)) }
{
    JsonRow::new(alloc)
        .string("brand", brand_text(alloc, movement.brand))
        .string("from", holder_text(alloc, &movement.from))
        .text("row", "move")
        .string("to", holder_text(alloc, &movement.to))
        .value("value", held_value(alloc, &movement.value))
        .finish()
}

/// The names of payments, under their keywords.
fn payouts_value(alloc: Global, payouts: &[Payout]) -> Result<Value, AllocError>
    ensures { IsJson result (object (payouts_json (printed_payouts (payout_views payouts.now)))) }
{
    let mut values = Map::new(alloc);
    let mut left = payouts.len();
    while left > 0 {
        left -= 1;
        let payout = &payouts[left];
        let name = payment_text(alloc, payout.payment)?;
        put(
            &mut values,
            alloc,
            payout.keyword.as_str(),
            Value::String(name),
        )?;
    }
    Ok(Value::Object(values))
}

fn exit_value(alloc: Global, leaving: &Leaving) -> Result<Value, AllocError>
    ensures { IsJson result (exit_row (printed_exit (leaving_view leaving.now))) }
{
    JsonRow::new(alloc)
        .text("cause", cause_word(leaving.cause))
        .value("payouts", payouts_value(alloc, leaving.payouts.as_slice()))
        .text("row", "exit")
        .number("seat", leaving.seat)
        .finish()
}

fn settle_value(alloc: Global, promise: u32, settlement: &Settlement) -> Result<Value, AllocError>
    ensures { IsJson result (settled_row promise (settlement_view settlement.now)) }
{
    JsonRow::new(alloc)
        .number("promise", promise)
        .text("row", "settle")
        .value("to", settlement_value(alloc, settlement))
        .finish()
}

/// The row of an event.
pub fn event_value(alloc: Global, event: &Event) -> Result<Value, AllocError>
    ensures { IsJson result (event_row (printed_event (event_view event.now))) }
{
    match event {
        Event::Called(call) => call_value(alloc, call),
        Event::Opened(opening) => open_value(alloc, opening),
        Event::Moved(movement) => move_value(alloc, movement),
        Event::Exited(leaving) => exit_value(alloc, leaving),
        Event::Settled(promise, settlement) => settle_value(alloc, *promise, settlement),
    }
}
