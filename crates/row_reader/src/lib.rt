//! A row of a journal, read from its line: the bytes are read exactly where they are the line of a row in form.
#![tactic(auto)]

ghost use Rattle.std.specs.Prelude.{◌≡◌, ◌≢◌, ◌↔◌, ◌++◌, ◌∷◌, [], Err, IfOk, IsTrue, false};
ghost use Rattle.serde_json.specs.View.{view};
ghost use Rattle.serde_json.specs.Written.{compact_text, has_float};
ghost use Rattle.row_reader.specs.Reads.{IsAny, Reads, ReadsJson};
ghost use Rattle.journal_rows.specs.Row as rows;
ghost use Rattle.journal_rows.specs.Row.{HasRowForm, row_line};
ghost use Rattle.row_records.specs.Views.{row_view};

pub mod amounts;
mod answers;
mod calls;
mod data;
mod delivered;
mod events;
pub mod fault;
pub mod fields;
mod lines;
mod turn_lines;

use crate::fault::RowFault;
use crate::turn_lines::row_in;
use row_records::rows::Row;
use serde_json::Value;
use std::alloc::{AllocError, Global};
use turn_rows::editions::Edition;

/// What stands before the line feed at the end.
fn without_feed(line: &[u8]) -> Result<&[u8], RowFault>
    ensures { Reads (λ text. text ++ 10 ∷ []) IsAny (λ text. text.now) line.now result }
{
    match line {
        [text @ .., b'\n'] => Ok(text),
        _ => Err(RowFault::BadRow),
    }
}

/// The JSON of the text, however it is laid out.
fn json_in(alloc: Global, text: &[u8]) -> Result<Value, RowFault>
    ensures { ReadsJson text.now result }
{
    match Value::from_slice(alloc, text) {
        Ok(value) => Ok(value),
        Err(error) if error.is_memory() => Err(RowFault::NoMemory),
        Err(_) => Err(RowFault::BadRow),
    }
}

/// Whether the JSON is written as the text.
fn is_written(alloc: Global, value: &Value, text: &[u8]) -> Result<bool, AllocError>
    ensures { IfOk result (λ same. has_float (view value.now) ≡ false
        → IsTrue same ↔ (compact_text (view value.now) ≡ text.now)) }
{
    let written = value.to_vec(alloc)?;
    Ok(written.as_slice() == text)
}

/// The row whose line it is, with its line feed: it is a row in form, and the line is written as the edition writes
/// it, byte by byte. `BadRow` where the bytes are the line of no row in form.
pub fn read_row(alloc: Global, edition: Edition, line: &[u8]) -> Result<Row, RowFault>
    ensures row { IfOk result (λ row. let told = row_view row in
        HasRowForm edition told × (line.now ≡ row_line edition told)) }
    ensures bad { result ≡ Err RowFault.BadRow
        → (told : rows.Row) → HasRowForm edition told → line.now ≢ row_line edition told }
{
    let text = without_feed(line)?;
    let value = json_in(alloc, text)?;
    let row = row_in(alloc, edition, &value)?;
    let same = is_written(alloc, &value, text)?;
    if same { Ok(row) } else { Err(RowFault::BadRow) }
}
