//! What the promise of a delivery is settled with.

ghost use Rattle.std.specs.Prelude.{◌≡◌, IfOk};
ghost use Rattle.refusals.specs.host_data.View.{tree};
ghost use Rattle.promise_store.specs.States.{broken, ok, settlement_view};
ghost use Rattle.refusals.specs.Codes.{refusal_tree, spent};
ghost use Rattle.turn_records.specs.Views.{answer_view, delivery_view};
ghost use Rattle.turn_records.specs.Settlements.{fulfilled_by, settled_after};

use crate::deliveries::Delivery;
use crate::events::Answer;
use crate::turn_answers::start_records::start_record;
use promise_store::Settlement;
use refusals::codes::{NumberCode, Refusal};
use refusals::host_data_lib::data::Data;
use std::alloc::{AllocError, Global};

/// A refusal breaks it with the refusal's data (our own).
fn broken_by(alloc: Global, refusal: &Refusal) -> Result<Settlement, AllocError>
    ensures { IfOk result (λ made. settlement_view made ≡ broken (refusal_tree refusal.now)) }
{
    Ok(Settlement::Broken(refusal.data(alloc)?))
}

/// What was answered; of a start, the record with its parts.
fn brought_by(alloc: Global, delivery: &Delivery, value: &Data) -> Result<Data, AllocError>
    ensures { IfOk result
        (λ made. ok (tree made) ≡ fulfilled_by (delivery_view delivery.now) (tree value.now)) }
{
    match delivery {
        Delivery::Start(start) => start_record(alloc, start.instance, value),
        _ => value.copy(alloc),
    }
}

fn fulfilled_by(alloc: Global, delivery: &Delivery, value: &Data) -> Result<Settlement, AllocError>
    ensures { IfOk result
        (λ made. settlement_view made ≡ fulfilled_by (delivery_view delivery.now) (tree value.now)) }
{
    Ok(Settlement::Ok(brought_by(alloc, delivery, value)?))
}

fn thrown_by(alloc: Global, reason: &Data) -> Result<Settlement, AllocError>
    ensures { IfOk result (λ made. settlement_view made ≡ broken (tree reason.now)) }
{
    Ok(Settlement::Broken(reason.copy(alloc)?))
}

fn spent_data(alloc: Global, meter: u32) -> Result<Data, AllocError>
    ensures { IfOk result (λ made. tree made ≡ refusal_tree (spent meter)) }
{
    let refusal = Refusal::Numbered(NumberCode::Spent, meter);
    let made = refusal.data(alloc);
    drop(refusal);
    made
}

fn spent_by(alloc: Global, meter: u32) -> Result<Settlement, AllocError>
    ensures { IfOk result (λ made. settlement_view made ≡ broken (refusal_tree (spent meter))) }
{
    Ok(Settlement::Broken(spent_data(alloc, meter)?))
}

/// An answer settles it, and the answer of a start by the record of its instance (Zoe's startInstance); a
/// refusal, what was thrown and a spent meter break it (the meter as the refusal Spent shows it; our own). An
/// answer that is a promise is to be followed in its place; that of a start never is one. Its data is a copy:
/// the answer stands in the turn's record too.
pub fn settlement_of(
    alloc: Global,
    delivery: &Delivery,
    answer: &Answer,
) -> Result<Settlement, AllocError>
    ensures { IfOk result (λ made. settlement_view made
        ≡ settled_after (delivery_view delivery.now) (answer_view answer.now)) }
{
    match answer {
        Answer::Given(value) => fulfilled_by(alloc, delivery, value),
        Answer::Refused(refusal) => broken_by(alloc, refusal),
        Answer::Threw(reason) => thrown_by(alloc, reason),
        Answer::Spent(meter) => spent_by(alloc, *meter),
    }
}
