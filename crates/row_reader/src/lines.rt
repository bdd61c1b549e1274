//! The rows that stand round what happens: the version row, sums and the close row.

ghost use Rattle.std.specs.Prelude.{◌≡◌, ◌↔◌, ◌<◌, ◌^◌, codes, decimal, IsTrue};
ghost use Rattle.serde_json.specs.Data as json;
ghost use Rattle.serde_json.specs.Find.{get_member};
ghost use Rattle.serde_json.specs.View.{members_view};
ghost use Rattle.row_reader.specs.Reads.{Reads, ReadsAt};
ghost use Rattle.row_reader.specs.Events as spec;
ghost use Rattle.turn_rows.specs.Editions.{version_row};
ghost use Rattle.turn_rows.specs.Form.{HasSumForm};
ghost use Rattle.turn_rows.specs.Rows.{close_row, sum_row};

use crate::amounts::brand_named;
use crate::fault::RowFault;
use crate::fields::{has_names, text_at, whole_at};
use row_forms::numbers::decimal_in;
use serde_json::{Map, Value};
use turn_rows::editions::Edition;
use turn_rows::rights_model_lib::Sum;

/// Whether the members have the names of a sum row.
fn is_sum(edition: Edition, members: &Map<String, Value>) -> bool
    ensures { IsTrue result ↔ spec.HasSumNames edition (members_view members.now.entries) }
{
    match edition {
        Edition::First => {
            let names = [
                "brand", "burned", "minted", "payments", "purses", "row", "slots",
            ];
            has_names(members, &names)
        }
        Edition::Second => {
            let names = [
                "brand", "burned", "minted", "payments", "purses", "row", "slots", "supply",
            ];
            has_names(members, &names)
        }
    }
}

/// A total, which a sum row has as a text.
fn total_at(members: &Map<String, Value>, name: &str) -> Result<u128, RowFault>
    ensures { ReadsAt name.now (λ n. json.string (decimal n)) (λ n. n < 2 ^ 128) (λ n. n)
        (members_view members.now.entries) result }
{
    let Some(text) = text_at(members, name) else {
        return Err(RowFault::BadRow);
    };
    match decimal_in(text) {
        Some(number) => Ok(number),
        None => Err(RowFault::BadRow),
    }
}

/// The totals of a sum row of the first edition, whatever stands beside them.
fn totals_of(members: &Map<String, Value>) -> Result<Sum, RowFault>
    ensures { Reads spec.totals HasSumForm (λ sum. sum)
        (spec.totals_in (members_view members.now.entries)) result }
{
    let Some(brand) = text_at(members, "brand") else {
        return Err(RowFault::BadRow);
    };
    let brand = brand_named(brand)?;
    let minted = total_at(members, "minted")?;
    let burned = total_at(members, "burned")?;
    let purses = total_at(members, "purses")?;
    let payments = total_at(members, "payments")?;
    let slots = total_at(members, "slots")?;
    Ok(Sum {
        brand,
        minted,
        burned,
        purses,
        payments,
        slots,
    })
}

/// The sum of a sum row. In the second edition it has the supply, minted less burned.
pub fn sum_of(edition: Edition, members: &Map<String, Value>) -> Result<Sum, RowFault>
    requires { get_member (codes "row") (members_view members.now.entries)
        ≡ Some (json.string (codes "sum")) }
    ensures { Reads (sum_row edition) HasSumForm (λ sum. sum)
        (json.object (members_view members.now.entries)) result }
{
    if !is_sum(edition, members) {
        return Err(RowFault::BadRow);
    }
    let sum = totals_of(members)?;
    match edition {
        Edition::First => Ok(sum),
        Edition::Second => {
            let supply = total_at(members, "supply")?;
            if supply == sum.minted.saturating_sub(sum.burned) {
                Ok(sum)
            } else {
                Err(RowFault::BadRow)
            }
        }
    }
}

/// `{"row":"version","version":2}`, which the second edition has.
pub fn version_of(edition: Edition, members: &Map<String, Value>) -> Result<(), RowFault>
    requires { get_member (codes "row") (members_view members.now.entries)
        ≡ Some (json.string (codes "version")) }
    ensures { Reads (λ _. version_row) (λ _. edition ≡ Edition.Second) (λ done. done)
        (json.object (members_view members.now.entries)) result }
{
    let Edition::Second = edition else {
        return Err(RowFault::BadRow);
    };
    if !has_names(members, &["row", "version"]) {
        return Err(RowFault::BadRow);
    }
    let Some(number) = whole_at(members, "version") else {
        return Err(RowFault::BadRow);
    };
    if number == 2 {
        Ok(())
    } else {
        Err(RowFault::BadRow)
    }
}

/// How many deliveries are left, and how many turns were run.
pub fn close_of(members: &Map<String, Value>) -> Result<(u64, u64), RowFault>
    requires { get_member (codes "row") (members_view members.now.entries)
        ≡ Some (json.string (codes "close")) }
    ensures { Reads (λ p. close_row p.0 p.1) (λ p. (p.0 < 2 ^ 64) × (p.1 < 2 ^ 64)) (λ p. p)
        (json.object (members_view members.now.entries)) result }
{
    if !has_names(members, &["left", "row", "turns"]) {
        return Err(RowFault::BadRow);
    }
    let Some(left) = whole_at(members, "left") else {
        return Err(RowFault::BadRow);
    };
    let Some(turns) = whole_at(members, "turns") else {
        return Err(RowFault::BadRow);
    };
    Ok((left, turns))
}
