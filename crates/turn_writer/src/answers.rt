//! Data and answers in rows.

ghost use Rattle.turn_records.specs.host_data.View.{tree};
ghost use Rattle.turn_records.specs.PrintedData.{printed};
ghost use Rattle.turn_records.specs.promise_store.States.{settlement_view};
ghost use Rattle.turn_rows.specs.Rows.{answer_json, only};
ghost use Rattle.turn_records.specs.Printed.{printed_answer, printed_refusal};
ghost use Rattle.turn_records.specs.Views.{answer_view};
ghost use Rattle.turn_writer.specs.JsonRows.{IsJson};
ghost use Rattle.turn_writer.specs.Texts.{settled_json};

use crate::json_row::only_field;
use serde_json::Value;
use std::alloc::{AllocError, Global};
use turn_records::data_rows::data_value;
use turn_records::events::Answer;
use turn_records::host_data_lib::data::Data;
use turn_records::promise_store_lib::Settlement;
use turn_records::refusals_lib::codes::Refusal;

/// Data under a name, alone: `{"ok":d}`.
fn under(alloc: Global, name: &str, inner: &Data) -> Result<Value, AllocError>
    ensures { IsJson result (only name.now (printed (tree inner.now))) }
{
    let inner = data_value(alloc, inner)?;
    only_field(alloc, name, inner)
}

fn refusal_value(alloc: Global, refusal: &Refusal) -> Result<Value, AllocError>
    ensures { IsJson result (answer_json (printed_refusal refusal.now)) }
{
    let refusal = refusal.data(alloc)?;
    under(alloc, "refused", &refusal)
}

/// What was answered.
pub fn answer_value(alloc: Global, answer: &Answer) -> Result<Value, AllocError>
    ensures { IsJson result (answer_json (printed_answer (answer_view answer.now))) }
{
    match answer {
        Answer::Given(given) => under(alloc, "ok", given),
        Answer::Refused(refusal) => refusal_value(alloc, refusal),
        Answer::Threw(thrown) => under(alloc, "threw", thrown),
        Answer::Spent(meter) => only_field(alloc, "spent", Value::from(*meter)),
    }
}

/// What a promise was settled with.
pub fn settlement_value(alloc: Global, settlement: &Settlement) -> Result<Value, AllocError>
    ensures { IsJson result (settled_json (settlement_view settlement.now)) }
{
    match settlement {
        Settlement::Ok(value) => under(alloc, "ok", value),
        Settlement::Broken(reason) => under(alloc, "broken", reason),
    }
}
