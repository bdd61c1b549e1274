//! The rows of a contract's calls.

ghost use Rattle.std.specs.Prelude.{◌≡◌, codes, Some};
ghost use Rattle.row_reader.specs.Reads.{IsAny, Reads};
ghost use Rattle.row_records.specs.Views.{call_view};
ghost use Rattle.serde_json.specs.Data as json;
ghost use Rattle.serde_json.specs.Find.{get_member};
ghost use Rattle.serde_json.specs.View.{members_view};
ghost use Rattle.turn_records.specs.Views.{how_view};
ghost use Rattle.turn_rows.specs.Form.{HasCallForm};
ghost use Rattle.turn_rows.specs.Kinds.{how_word};
ghost use Rattle.turn_rows.specs.Rows.{call_row};

use crate::answers::answer_of;
use crate::data::are_data;
use crate::delivered::{is_call_answer, is_called};
use crate::fault::RowFault;
use crate::fields::{has_names, items_at, member, text_at};
use row_records::rows::CallRow;
use serde_json::{Map, Value};
use std::alloc::Global;
use turn_records::events::How;

/// How a contract calls, by the word.
fn how_of(word: &str) -> Result<How, RowFault>
    ensures { Reads how_word IsAny how_view word.now result }
{
    match word {
        "call" => Ok(How::Call),
        "send" => Ok(How::Send),
        "when" => Ok(How::When),
        "far" => Ok(How::Far),
        _ => Err(RowFault::BadRow),
    }
}

/// The call of a call row.
pub fn call_of(alloc: Global, members: &Map<String, Value>) -> Result<CallRow, RowFault>
    requires { get_member (codes "row") (members_view members.now.entries)
        ≡ Some (json.string (codes "call")) }
    ensures { Reads call_row HasCallForm call_view
        (json.object (members_view members.now.entries)) result }
{
    if !has_names(members, &["answer", "args", "do", "how", "on", "row"]) {
        return Err(RowFault::BadRow);
    }
    let Some(word) = text_at(members, "how") else {
        return Err(RowFault::BadRow);
    };
    let Some(on) = text_at(members, "on") else {
        return Err(RowFault::BadRow);
    };
    let Some(method) = text_at(members, "do") else {
        return Err(RowFault::BadRow);
    };
    let Some(arguments) = items_at(members, "args") else {
        return Err(RowFault::BadRow);
    };
    let Some(answer) = member(members, "answer") else {
        return Err(RowFault::BadRow);
    };
    let how = how_of(word)?;
    if !is_called(how, on, method, arguments.as_slice()) {
        return Err(RowFault::BadRow);
    }
    if !are_data(arguments.as_slice()) {
        return Err(RowFault::BadRow);
    }
    let answer = answer_of(alloc, answer)?;
    if !is_call_answer(&answer) {
        return Err(RowFault::BadRow);
    }
    Ok(CallRow {
        how,
        on: String::from_str(alloc, on)?,
        method: String::from_str(alloc, method)?,
        arguments: arguments.clone()?,
        answer,
    })
}
