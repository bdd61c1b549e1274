//! Who may deliver what on which target, and which answers a turn may have, by its kind.

ghost use Rattle.std.specs.Prelude.{◌≡◌, ◌↔◌, IsTrue};
ghost use Rattle.row_records.specs.Views.{answer_view, kind_view};
ghost use Rattle.serde_json.specs.Data.{no_items};
ghost use Rattle.serde_json.specs.View.{items_view};
ghost use Rattle.turn_records.specs.Views.{how_view};
ghost use Rattle.turn_rows.specs.Form.{IsAnswerOf, IsCallAnswer, IsCalled, IsDelivered};
ghost use Rattle.turn_rows.specs.Form.{IsFunctionName, IsInstanceName, IsNotice, IsNumbered};
ghost use Rattle.turn_rows.specs.Form.{IsAnyData, IsOneItem, IsTime, objects_end};

use crate::fields::{has_names, member};
use row_forms::names::{
    is_caller, is_instance_name, is_object, is_object_name, is_party, is_service_target,
};
use row_records::rows::{Answer, Kind};
use serde_json::Value;
use turn_records::events::How;
use turn_rows::host_text_lib::label::Label;
use turn_rows::host_text_lib::word::is_field_name;

/// Whether there is one of them alone.
fn is_one(arguments: &[Value]) -> bool
    ensures { IsTrue result ↔ IsOneItem IsAnyData (items_view arguments.now) }
{
    arguments.len() == 1
}

fn are_none(arguments: &[Value]) -> bool
    ensures { IsTrue result ↔ (items_view arguments.now ≡ no_items) }
{
    arguments.is_empty()
}

/// Whether it is one time, below 2^63.
fn is_one_time(arguments: &[Value]) -> bool
    ensures { IsTrue result ↔ IsOneItem IsTime (items_view arguments.now) }
{
    let [time] = arguments else {
        return false;
    };
    match time.as_u64() {
        Some(time) => time <= i64::MAX as u64,
        None => false,
    }
}

/// Whether it is `{"ok":b,"value":d}` alone.
fn is_one_notice(arguments: &[Value]) -> bool
    ensures { IsTrue result ↔ IsOneItem IsNotice (items_view arguments.now) }
{
    let [notice] = arguments else {
        return false;
    };
    let Some(members) = notice.as_object() else {
        return false;
    };
    if !has_names(members, &["ok", "value"]) {
        return false;
    }
    match member(members, "ok") {
        Some(ok) => ok.is_boolean(),
        None => false,
    }
}

/// Whether an instance is told something, on an object of that word, by one of its functions.
fn calls_back(by: &str, word: &str, on: &str, method: &str) -> bool
    ensures { IsTrue result ↔ (IsInstanceName by.now × IsNumbered word.now objects_end on.now
        × IsFunctionName method.now) }
{
    is_instance_name(by) && is_object(word, on) && is_field_name(method.as_bytes())
}

/// Whether a delivery of the kind may have these.
pub fn is_delivered(kind: Kind, by: &str, on: &str, method: &str, arguments: &[Value]) -> bool
    ensures { IsTrue result
        ↔ IsDelivered (kind_view kind) by.now on.now method.now (items_view arguments.now) }
{
    match kind {
        Kind::Service => is_caller(by) && is_service_target(on),
        Kind::Facet => is_caller(by) && is_object("facet", on),
        Kind::Handler => calls_back(by, "zseat", on, method) && is_one(arguments),
        Kind::Wake => {
            is_instance_name(by)
                && on == "timer"
                && is_field_name(method.as_bytes())
                && is_one_time(arguments)
        }
        Kind::Notify => calls_back(by, "promise", on, method) && is_one_notice(arguments),
        Kind::Deadline => {
            by == "" && is_object("seat", on) && method == "" && are_none(arguments)
        }
        Kind::Start => is_instance_name(by) && on == by && method == "start" && are_none(arguments),
        Kind::Tick => by == "" && on == "timer" && method == "" && is_one_time(arguments),
        Kind::Give => {
            is_party(by) && is_party(on) && Label::is_label(method.as_bytes()) && is_one(arguments)
        }
        Kind::Bad => by == "" && on == "" && method == "" && are_none(arguments),
        Kind::Message => is_caller(by) && on == "" && are_none(arguments),
    }
}

/// Whether a call is answered so: it comes to an answer, or is refused.
pub fn is_call_answer(answer: &Answer) -> bool
    ensures { IsTrue result ↔ IsCallAnswer (answer_view answer.now) }
{
    match answer {
        Answer::Given(_) => true,
        Answer::Refused(_, _) => true,
        _ => false,
    }
}

/// Whether a turn of the kind may have the answer.
pub fn is_answer_of(kind: Kind, answer: &Answer) -> bool
    ensures { IsTrue result ↔ IsAnswerOf (kind_view kind) (answer_view answer.now) }
{
    let (is_done, is_refusal) = match answer {
        Answer::Given(value) => (value.is_null(), false),
        Answer::Refused(_, _) => (false, true),
        _ => (false, false),
    };
    match kind {
        Kind::Service => is_call_answer(answer),
        Kind::Tick => is_done || is_refusal,
        Kind::Give => is_done,
        Kind::Deadline => is_done,
        Kind::Bad => is_refusal,
        Kind::Message => is_refusal,
        _ => true,
    }
}

/// Whether a contract may call so.
pub fn is_called(how: How, on: &str, method: &str, arguments: &[Value]) -> bool
    ensures { IsTrue result
        ↔ IsCalled (how_view how) on.now method.now (items_view arguments.now) }
{
    match how {
        How::Call => is_object_name(on),
        How::Send => is_object_name(on),
        How::When => {
            is_object("promise", on) && is_field_name(method.as_bytes()) && is_one(arguments)
        }
        How::Far => on == "" && arguments.len() == 2,
    }
}
