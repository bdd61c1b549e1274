//! The rows of a journal by the word of their kind, and turn rows.

ghost use Rattle.std.specs.Prelude.{◌≡◌, codes, Some};
ghost use Rattle.row_reader.specs.Reads.{IsAny, Reads};
ghost use Rattle.row_records.specs.Views.{event_view, kind_view, row_view, turn_view};
ghost use Rattle.row_records.specs.journal_rows.Row.{IsTurnRow, MayBeRow, row_json};
ghost use Rattle.serde_json.specs.Data as json;
ghost use Rattle.serde_json.specs.Find.{get_member};
ghost use Rattle.serde_json.specs.View.{members_view, view};
ghost use Rattle.turn_rows.specs.Form.{HasEventForm};
ghost use Rattle.turn_rows.specs.Kinds.{kind_word};
ghost use Rattle.turn_rows.specs.Rows.{event_row, turn_row};

use crate::answers::answer_of;
use crate::calls::call_of;
use crate::data::are_data;
use crate::delivered::{is_answer_of, is_delivered};
use crate::events::{exit_of, move_of, open_of, settled_of};
use crate::fault::RowFault;
use crate::fields::{has_names, items_at, member, text_at, whole_at};
use crate::lines::{close_of, sum_of, version_of};
use row_records::rows::{EventRow, Kind, Row, TurnRow};
use serde_json::{Map, Value};
use std::alloc::Global;
use turn_rows::editions::Edition;

/// The kind of a turn, by the word.
fn kind_of(word: &str) -> Result<Kind, RowFault>
    ensures { Reads kind_word IsAny kind_view word.now result }
{
    match word {
        "service" => Ok(Kind::Service),
        "facet" => Ok(Kind::Facet),
        "handler" => Ok(Kind::Handler),
        "wake" => Ok(Kind::Wake),
        "notify" => Ok(Kind::Notify),
        "deadline" => Ok(Kind::Deadline),
        "start" => Ok(Kind::Start),
        "tick" => Ok(Kind::Tick),
        "give" => Ok(Kind::Give),
        "bad" => Ok(Kind::Bad),
        "message" => Ok(Kind::Message),
        _ => Err(RowFault::BadRow),
    }
}

/// The turn of a turn row.
fn turn_of(alloc: Global, members: &Map<String, Value>) -> Result<TurnRow, RowFault>
    requires { get_member (codes "row") (members_view members.now.entries)
        ≡ Some (json.string (codes "turn")) }
    ensures { Reads turn_row IsTurnRow turn_view
        (json.object (members_view members.now.entries)) result }
{
    if !has_names(
        members,
        &["answer", "args", "by", "do", "kind", "n", "on", "row"],
    ) {
        return Err(RowFault::BadRow);
    }
    let Some(word) = text_at(members, "kind") else {
        return Err(RowFault::BadRow);
    };
    let Some(by) = text_at(members, "by") else {
        return Err(RowFault::BadRow);
    };
    let Some(on) = text_at(members, "on") else {
        return Err(RowFault::BadRow);
    };
    let Some(method) = text_at(members, "do") else {
        return Err(RowFault::BadRow);
    };
    let Some(arguments) = items_at(members, "args") else {
        return Err(RowFault::BadRow);
    };
    let Some(number) = whole_at(members, "n") else {
        return Err(RowFault::BadRow);
    };
    let Some(answer) = member(members, "answer") else {
        return Err(RowFault::BadRow);
    };
    let kind = kind_of(word)?;
    if !is_delivered(kind, by, on, method, arguments.as_slice()) {
        return Err(RowFault::BadRow);
    }
    if !are_data(arguments.as_slice()) {
        return Err(RowFault::BadRow);
    }
    let answer = answer_of(alloc, answer)?;
    if !is_answer_of(kind, &answer) {
        return Err(RowFault::BadRow);
    }
    Ok(TurnRow {
        number,
        kind,
        by: String::from_str(alloc, by)?,
        on: String::from_str(alloc, on)?,
        method: String::from_str(alloc, method)?,
        arguments: arguments.clone()?,
        answer,
    })
}

/// What happened in a turn, by the word of the row.
fn event_of(
    alloc: Global,
    edition: Edition,
    word: &str,
    members: &Map<String, Value>,
) -> Result<EventRow, RowFault>
    requires { get_member (codes "row") (members_view members.now.entries)
        ≡ Some (json.string word.now) }
    ensures { Reads event_row (HasEventForm edition) event_view
        (json.object (members_view members.now.entries)) result }
{
    match word {
        "call" => Ok(EventRow::Called(call_of(alloc, members)?)),
        "open" => Ok(EventRow::Opened(open_of(alloc, edition, members)?)),
        "move" => Ok(EventRow::Moved(move_of(alloc, edition, members)?)),
        "exit" => Ok(EventRow::Exited(exit_of(alloc, members)?)),
        "settle" => {
            let (promise, settlement) = settled_of(members)?;
            Ok(EventRow::Settled(promise, settlement))
        }
        _ => Err(RowFault::BadRow),
    }
}

/// The row in form whose JSON it is.
pub fn row_in(alloc: Global, edition: Edition, value: &Value) -> Result<Row, RowFault>
    ensures { Reads (row_json edition) (MayBeRow edition) row_view (view value.now) result }
{
    let Some(members) = value.as_object() else {
        return Err(RowFault::BadRow);
    };
    let Some(word) = text_at(members, "row") else {
        return Err(RowFault::BadRow);
    };
    match word {
        "version" => {
            version_of(edition, members)?;
            Ok(Row::Version)
        }
        "turn" => Ok(Row::Turn(turn_of(alloc, members)?)),
        "sum" => Ok(Row::Sum(sum_of(edition, members)?)),
        "close" => {
            let (left, turns) = close_of(members)?;
            Ok(Row::Close(left, turns))
        }
        _ => Ok(Row::Event(event_of(alloc, edition, word, members)?)),
    }
}
