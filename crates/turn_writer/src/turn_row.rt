//! The turn row: what was delivered, and what it came to.

ghost use Rattle.std.specs.Prelude.{◌≡◌, ◌∷◌, []};
ghost use Rattle.serde_json.specs.Data.{array, item as item_at, no_items};
ghost use Rattle.serde_json.specs.View.{view};
ghost use Rattle.turn_records.specs.host_data.Values.{number_tree};
ghost use Rattle.turn_records.specs.PrintedData.{printed as data_printed};
ghost use Rattle.turn_records.specs.host_data.View.{tree};
ghost use Rattle.turn_records.specs.promise_store.States.{settlement_view};
ghost use Rattle.turn_rows.specs.Kinds as kinds;
ghost use Rattle.turn_rows.specs.Rows.{turn_row};
ghost use Rattle.turn_records.specs.Printed as spec;
ghost use Rattle.turn_records.specs.Printed.{by_of, method_of, notice_tree, object, on_of, printed, read_trees, receiver, target_name, told_value};
ghost use Rattle.turn_records.specs.Views.{delivery_view, reading_view, turn_view};
ghost use Rattle.turn_writer.specs.Notices.{notice_json};
ghost use Rattle.turn_writer.specs.JsonRows.{IsJson, IsText};
ghost use Rattle.turn_writer.specs.Texts.{args_json, kind_text, trees_json};

use crate::answers::answer_value;
use crate::json_row::JsonRow;
use crate::names::numbered_name;
use serde_json::{Value, json};
use std::alloc::{AllocError, Global};
use turn_records::data_rows::{data_value, items_value, number_value, object_name};
use turn_records::deliveries::{Delivery, Reading};
use turn_records::host_data_lib::data::{Data, ObjKind};
use turn_records::promise_store_lib::Settlement;
use turn_records::turns::TurnRecord;
use turn_rows::host_text_lib::label::Label;

/// How deep a settlement's value may nest for the record around it to be data.
pub(crate) const MOST_INSIDE: u32 = 31;

// ---- the kind

/// A call of a facet runs a function of its instance; all else is a service. What was refused before it
/// came to anything is a message.
fn call_kind(reading: &Reading) -> &'static str
    ensures { result.now ≡ kinds.kind_word (spec.call_kind (reading_view reading.now)) }
{
    match reading {
        Reading::Target(object, _) => match object.kind {
            ObjKind::Facet => "facet",
            _ => "service",
        },
        _ => "message",
    }
}

fn gift_kind(reading: &Reading) -> &'static str
    ensures { result.now ≡ kinds.kind_word (spec.gift_kind (reading_view reading.now)) }
{
    match reading {
        Reading::Gift(_) => "give",
        _ => "message",
    }
}

fn kind_word(delivery: &Delivery, reading: &Reading) -> &'static str
    ensures { result.now ≡ kind_text (delivery_view delivery.now) (reading_view reading.now) }
{
    match delivery {
        Delivery::Call(_) => call_kind(reading),
        Delivery::Send(_) => call_kind(reading),
        Delivery::Give(_) => gift_kind(reading),
        Delivery::Tick(_) => "tick",
        Delivery::Bad(_) => "bad",
        Delivery::Start(_) => "start",
        Delivery::Offer(_) => "handler",
        Delivery::Wake(_) => "wake",
        Delivery::Notify(_) => "notify",
        Delivery::Deadline(_) => "deadline",
    }
}

// ---- names

/// Who calls, or whose instance it is.
fn by_text(alloc: Global, delivery: &Delivery) -> Result<String, AllocError>
    ensures { IsText result (by_of (delivery_view delivery.now)) }
{
    match delivery {
        Delivery::Call(call) => String::from_str(alloc, call.by.as_str()),
        Delivery::Give(gift) => String::from_str(alloc, gift.by.as_str()),
        Delivery::Send(send) => numbered_name(alloc, ObjKind::Instance, send.instance),
        Delivery::Start(start) => numbered_name(alloc, ObjKind::Instance, start.instance),
        Delivery::Offer(offer) => numbered_name(alloc, ObjKind::Instance, offer.instance),
        Delivery::Wake(wakeup) => numbered_name(alloc, ObjKind::Instance, wakeup.instance),
        Delivery::Notify(notice) => numbered_name(alloc, ObjKind::Instance, notice.instance),
        _ => String::from_str(alloc, ""),
    }
}

fn target_text(alloc: Global, reading: &Reading) -> Result<String, AllocError>
    ensures { IsText result (target_name (reading_view reading.now)) }
{
    match reading {
        Reading::Target(object, _) => object_name(alloc, *object),
        _ => String::from_str(alloc, ""),
    }
}

/// The receiver of what is given.
fn receiver_text(alloc: Global, to: &Label, reading: &Reading) -> Result<String, AllocError>
    ensures { IsText result (receiver to.now (reading_view reading.now)) }
{
    match reading {
        Reading::Gift(_) => String::from_str(alloc, to.as_str()),
        _ => String::from_str(alloc, ""),
    }
}

fn on_text(alloc: Global, delivery: &Delivery, reading: &Reading) -> Result<String, AllocError>
    ensures { IsText result (on_of (delivery_view delivery.now) (reading_view reading.now)) }
{
    match delivery {
        Delivery::Call(_) => target_text(alloc, reading),
        Delivery::Send(_) => target_text(alloc, reading),
        Delivery::Give(gift) => receiver_text(alloc, &gift.to, reading),
        Delivery::Tick(_) => numbered_name(alloc, ObjKind::Timer, 0),
        Delivery::Bad(_) => String::from_str(alloc, ""),
        Delivery::Start(start) => numbered_name(alloc, ObjKind::Instance, start.instance),
        Delivery::Offer(offer) => numbered_name(alloc, ObjKind::Zseat, offer.seat),
        Delivery::Wake(_) => numbered_name(alloc, ObjKind::Timer, 0),
        Delivery::Notify(notice) => numbered_name(alloc, ObjKind::Promise, notice.promise),
        Delivery::Deadline(seat) => numbered_name(alloc, ObjKind::Seat, *seat),
    }
}

/// The method, or the function; of a give the label.
fn method_text(delivery: &Delivery) -> &str
    ensures { result.now ≡ method_of (delivery_view delivery.now) }
{
    match delivery {
        Delivery::Call(call) => call.method.as_str(),
        Delivery::Send(send) => send.method.as_str(),
        Delivery::Give(gift) => gift.label.as_str(),
        Delivery::Start(_) => "start",
        Delivery::Offer(offer) => offer.function.as_str(),
        Delivery::Wake(wakeup) => wakeup.function.as_str(),
        Delivery::Notify(notice) => notice.function.as_str(),
        _ => "",
    }
}

// ---- arguments

fn one_argument(alloc: Global, argument: Value) -> Result<Value, AllocError>
    ensures { IsJson result (array (item_at (view argument) no_items)) }
{
    json!(in alloc; [argument])
}

fn data_argument(alloc: Global, argument: &Data) -> Result<Value, AllocError>
    ensures { IsJson result (trees_json (tree argument.now ∷ [])) }
{
    let argument = data_value(alloc, argument)?;
    one_argument(alloc, argument)
}

fn time_argument(alloc: Global, time: u64) -> Result<Value, AllocError>
    ensures { IsJson result (trees_json (number_tree time ∷ [])) }
{
    let time = number_value(alloc, i128::from(time))?;
    one_argument(alloc, time)
}

/// The value of a promise, or null where it nests so deep that the record around it would nest too deep.
fn told_value(alloc: Global, value: &Data) -> Result<Value, AllocError>
    ensures { IsJson result (data_printed (told_value (tree value.now))) }
{
    if value.nests_within(MOST_INSIDE) {
        data_value(alloc, value)
    } else {
        Ok(Value::Null)
    }
}

fn notice(alloc: Global, is_ok: bool, value: &Data) -> Result<Value, AllocError>
    ensures { IsJson result (notice_json is_ok (tree value.now)) }
{
    JsonRow::new(alloc)
        .value("ok", Ok(Value::Bool(is_ok)))
        .value("value", told_value(alloc, value))
        .finish()
}

/// `{ok, value}`: what a promise was settled with, as the function that is notified has it.
fn notice_value(alloc: Global, settlement: &Settlement) -> Result<Value, AllocError>
    ensures { IsJson result (data_printed (notice_tree (settlement_view settlement.now))) }
{
    match settlement {
        Settlement::Ok(value) => notice(alloc, true, value),
        Settlement::Broken(reason) => notice(alloc, false, reason),
    }
}

fn notice_argument(alloc: Global, settlement: &Settlement) -> Result<Value, AllocError>
    ensures { IsJson result (trees_json (notice_tree (settlement_view settlement.now) ∷ [])) }
{
    let notice = notice_value(alloc, settlement)?;
    one_argument(alloc, notice)
}

fn read_value(alloc: Global, reading: &Reading) -> Result<Value, AllocError>
    ensures { IsJson result (trees_json (read_trees (reading_view reading.now))) }
{
    match reading {
        Reading::Nothing => Ok(Value::Array(Vec::new(alloc))),
        Reading::Target(_, arguments) => items_value(alloc, arguments.as_slice()),
        Reading::Gift(gift) => data_argument(alloc, gift),
        Reading::Time(time) => time_argument(alloc, *time),
        Reading::Settlement(settlement) => notice_argument(alloc, settlement),
    }
}

fn arguments_value(
    alloc: Global,
    delivery: &Delivery,
    reading: &Reading,
) -> Result<Value, AllocError>
    ensures { IsJson result (args_json (delivery_view delivery.now) (reading_view reading.now)) }
{
    match delivery {
        Delivery::Offer(offer) => data_argument(alloc, &offer.offer_arguments),
        Delivery::Tick(time) => time_argument(alloc, *time),
        _ => read_value(alloc, reading),
    }
}

// ---- the row

/// The turn row.
pub fn turn_value(alloc: Global, turn: &TurnRecord) -> Result<Value, AllocError>
    ensures { IsJson result (turn_row (printed (turn_view turn.now))) }
{
    let (delivery, reading) = (&turn.delivery, &turn.reading);
    JsonRow::new(alloc)
        .value("answer", answer_value(alloc, &turn.answer))
        .value("args", arguments_value(alloc, delivery, reading))
        .string("by", by_text(alloc, delivery))
        .text("do", method_text(delivery))
        .text("kind", kind_word(delivery, reading))
        .number("n", turn.number)
        .string("on", on_text(alloc, delivery, reading))
        .text("row", "turn")
        .finish()
}
