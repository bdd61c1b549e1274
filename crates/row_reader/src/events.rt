//! The rows of what happens in a turn.

ghost use Rattle.std.specs.Prelude.{◌≡◌, ◌<◌, codes};
ghost use Rattle.serde_json.specs.Data as json;
ghost use Rattle.serde_json.specs.Find.{get_member};
ghost use Rattle.serde_json.specs.View.{members_view};
ghost use Rattle.row_reader.specs.Reads.{IsAny, Reads, ReadsAt};
ghost use Rattle.row_records.specs.Views.{exit_view, move_view, open_view};
ghost use Rattle.turn_records.specs.Views.{cause_view};
ghost use Rattle.row_reader.specs.Events as spec;
ghost use Rattle.turn_rows.specs.Causes.{cause_word};
ghost use Rattle.turn_rows.specs.Form.{HasExitForm, HasOpeningForm, objects_end};
ghost use Rattle.turn_rows.specs.Rows.{exit_row, move_row, open_row, whole};

use crate::amounts::{
    amounts_of, are_apart, brand_named, exit_rule_of, holder_of, object_named, payouts_of, value_of,
};
use crate::answers::settlement_of;
use crate::fault::RowFault;
use crate::fields::{has_names, member, members_at, text_at, whole_at};
use row_records::rows::{ExitRow, MoveRow, OpenRow, Settlement};
use serde_json::{Map, Value};
use std::alloc::Global;
use turn_records::events::Cause;
use turn_rows::editions::Edition;

/// The cause of that word.
fn cause_of(word: &str) -> Result<Cause, RowFault>
    ensures { Reads cause_word IsAny cause_view word.now result }
{
    match word {
        "asked" => Ok(Cause::Asked),
        "deadline" => Ok(Cause::Deadline),
        "exit" => Ok(Cause::Exit),
        "fail" => Ok(Cause::Fail),
        "threw" => Ok(Cause::Threw),
        "halted" => Ok(Cause::Halted),
        "spent" => Ok(Cause::Spent),
        _ => Err(RowFault::BadRow),
    }
}

/// The number of an object, which is below 2^32.
fn number_at(members: &Map<String, Value>, name: &str) -> Result<u32, RowFault>
    ensures { ReadsAt name.now whole (λ n. n < objects_end) (λ n. n)
        (members_view members.now.entries) result }
{
    match whole_at(members, name) {
        Some(number) if number <= u64::from(u32::MAX) => Ok(number as u32),
        _ => Err(RowFault::BadRow),
    }
}

/// The seat that a row opens.
pub fn open_of(
    alloc: Global,
    edition: Edition,
    members: &Map<String, Value>,
) -> Result<OpenRow, RowFault>
    requires { get_member (codes "row") (members_view members.now.entries)
        ≡ Some (json.string (codes "open")) }
    ensures { Reads open_row (HasOpeningForm edition) open_view
        (json.object (members_view members.now.entries)) result }
{
    let names = ["exit", "give", "instance", "row", "seat", "want"];
    if !has_names(members, &names) {
        return Err(RowFault::BadRow);
    }
    let Some(give) = members_at(members, "give") else {
        return Err(RowFault::BadRow);
    };
    let Some(want) = members_at(members, "want") else {
        return Err(RowFault::BadRow);
    };
    let Some(instance) = text_at(members, "instance") else {
        return Err(RowFault::BadRow);
    };
    let Some(exit) = member(members, "exit") else {
        return Err(RowFault::BadRow);
    };
    if !are_apart(give, want) {
        return Err(RowFault::BadRow);
    }
    let seat = number_at(members, "seat")?;
    let instance = object_named("instance", instance)?;
    let exit = exit_rule_of(exit)?;
    let give = amounts_of(alloc, edition, give)?;
    let want = amounts_of(alloc, edition, want)?;
    Ok(OpenRow {
        seat,
        instance,
        give,
        want,
        exit,
    })
}

/// What a row moves.
pub fn move_of(
    alloc: Global,
    edition: Edition,
    members: &Map<String, Value>,
) -> Result<MoveRow, RowFault>
    requires { get_member (codes "row") (members_view members.now.entries)
        ≡ Some (json.string (codes "move")) }
    ensures { Reads move_row (spec.HasMoveForm edition) move_view
        (json.object (members_view members.now.entries)) result }
{
    if !has_names(members, &["brand", "from", "row", "to", "value"]) {
        return Err(RowFault::BadRow);
    }
    let Some(brand) = text_at(members, "brand") else {
        return Err(RowFault::BadRow);
    };
    let Some(from) = text_at(members, "from") else {
        return Err(RowFault::BadRow);
    };
    let Some(to) = text_at(members, "to") else {
        return Err(RowFault::BadRow);
    };
    let Some(value) = member(members, "value") else {
        return Err(RowFault::BadRow);
    };
    let brand = brand_named(brand)?;
    let from = holder_of(alloc, from)?;
    let to = holder_of(alloc, to)?;
    let value = value_of(alloc, edition, value)?;
    Ok(MoveRow {
        brand,
        from,
        to,
        value,
    })
}

/// The exit of a seat.
pub fn exit_of(alloc: Global, members: &Map<String, Value>) -> Result<ExitRow, RowFault>
    requires { get_member (codes "row") (members_view members.now.entries)
        ≡ Some (json.string (codes "exit")) }
    ensures { Reads exit_row HasExitForm exit_view
        (json.object (members_view members.now.entries)) result }
{
    if !has_names(members, &["cause", "payouts", "row", "seat"]) {
        return Err(RowFault::BadRow);
    }
    let Some(cause) = text_at(members, "cause") else {
        return Err(RowFault::BadRow);
    };
    let Some(payouts) = members_at(members, "payouts") else {
        return Err(RowFault::BadRow);
    };
    let seat = number_at(members, "seat")?;
    let cause = cause_of(cause)?;
    let payouts = payouts_of(alloc, payouts)?;
    Ok(ExitRow {
        seat,
        cause,
        payouts,
    })
}

/// A promise's number, and what it is settled with.
pub fn settled_of(members: &Map<String, Value>) -> Result<(u32, Settlement), RowFault>
    requires { get_member (codes "row") (members_view members.now.entries)
        ≡ Some (json.string (codes "settle")) }
    ensures { Reads spec.settled_row spec.HasSettledForm spec.settled_view
        (json.object (members_view members.now.entries)) result }
{
    if !has_names(members, &["promise", "row", "to"]) {
        return Err(RowFault::BadRow);
    }
    let Some(settlement) = member(members, "to") else {
        return Err(RowFault::BadRow);
    };
    let promise = number_at(members, "promise")?;
    let settlement = settlement_of(settlement)?;
    Ok((promise, settlement))
}
