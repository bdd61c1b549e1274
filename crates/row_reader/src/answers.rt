//! Answers, and what promises are settled with.

ghost use Rattle.std.specs.Prelude.{codes};
ghost use Rattle.row_reader.specs.Reads.{Reads};
ghost use Rattle.row_records.specs.Views.{answer_view, settlement_view};
ghost use Rattle.serde_json.specs.View.{view};
ghost use Rattle.turn_rows.specs.Form.{HasAnswerForm, HasSettlementForm, IsData};
ghost use Rattle.turn_rows.specs.Rows.{answer_json, only, settlement_json};

use crate::data::{are_data, is_data};
use crate::fault::RowFault;
use crate::fields::{has_names, items_at, only_member, text_at};
use row_forms::refusals::is_refusal_code;
use row_records::rows::{Answer, Settlement};
use serde_json::Value;
use std::alloc::Global;

/// Data in form.
fn data_of(value: &Value) -> Result<Value, RowFault>
    ensures { Reads (λ d. d) IsData view (view value.now) result }
{
    if !is_data(value) {
        return Err(RowFault::BadRow);
    }
    Ok(value.clone()?)
}

/// `{"code":c,"shown":[..]}`, which stands under `refused`.
fn refusal_of(alloc: Global, value: &Value) -> Result<Answer, RowFault>
    ensures { Reads answer_json HasAnswerForm answer_view
        (only (codes "refused") (view value.now)) result }
{
    let Some(members) = value.as_object() else {
        return Err(RowFault::BadRow);
    };
    if !has_names(members, &["code", "shown"]) {
        return Err(RowFault::BadRow);
    }
    let Some(code) = text_at(members, "code") else {
        return Err(RowFault::BadRow);
    };
    let Some(shown) = items_at(members, "shown") else {
        return Err(RowFault::BadRow);
    };
    if !is_refusal_code(code) || !are_data(shown.as_slice()) {
        return Err(RowFault::BadRow);
    }
    let code = String::from_str(alloc, code)?;
    Ok(Answer::Refused(code, shown.clone()?))
}

/// `{"ok":d}`, `{"refused":{..}}`, `{"threw":d}`, `{"spent":meter}`
pub fn answer_of(alloc: Global, value: &Value) -> Result<Answer, RowFault>
    ensures { Reads answer_json HasAnswerForm answer_view (view value.now) result }
{
    let Some((name, shown)) = only_member(value) else {
        return Err(RowFault::BadRow);
    };
    match name {
        "ok" => Ok(Answer::Given(data_of(shown)?)),
        "refused" => refusal_of(alloc, shown),
        "threw" => Ok(Answer::Threw(data_of(shown)?)),
        "spent" => match shown.as_u64() {
            Some(meter) => Ok(Answer::Spent(meter)),
            None => Err(RowFault::BadRow),
        },
        _ => Err(RowFault::BadRow),
    }
}

/// `{"ok":d}`, `{"broken":d}`
pub fn settlement_of(value: &Value) -> Result<Settlement, RowFault>
    ensures { Reads settlement_json HasSettlementForm settlement_view (view value.now) result }
{
    let Some((name, shown)) = only_member(value) else {
        return Err(RowFault::BadRow);
    };
    match name {
        "ok" => Ok(Settlement::Fulfilled(data_of(shown)?)),
        "broken" => Ok(Settlement::Broken(data_of(shown)?)),
        _ => Err(RowFault::BadRow),
    }
}
