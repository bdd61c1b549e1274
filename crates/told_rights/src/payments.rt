//! Which payments movements name, and which they take from, in the turns before and in this one.

ghost use Rattle.std.specs.Prelude.{◌≡◌, ◌==◌, ◌||◌, ◌↔◌, ℕ, List, [], false, true, IsTrue, OnOk};
ghost use Rattle.std.specs.List.{list_any};
ghost use Rattle.row_records.specs.amount_math.Content.{nothing};
ghost use Rattle.row_records.specs.fair_rows.Movements.{is_payment_at};
ghost use Rattle.row_records.specs.rights_model.Table.{holds};
ghost use Rattle.told_rights.specs.Runs.{has_number};

use crate::number_runs::NumberRuns;
use crate::places::Places;
use row_records::turn_rows_lib::rights_model_lib::Holder;
use std::alloc::{AllocError, Global};

/// Which payments were named, which of them turns before took from, and which this turn took from, as they came.
#[derive(Drop)]
pub struct Payments {
    pub named: NumberRuns,
    pub spent: NumberRuns,
    pub taken: Vec<u32>,
}

/// Puts a holder's number in, where it is a payment.
fn name(numbers: &mut NumberRuns, holder: &Holder) -> Result<(), AllocError>
    ensures { OnOk result ((p : ℕ) → has_number numbers.new p ≡ (is_payment_at p holder.now || has_number numbers.old p)) }
{
    match holder {
        Holder::Payment(number) => numbers.insert(*number),
        _ => Ok(()),
    }
}

/// Puts numbers in.
fn join(numbers: &mut NumberRuns, more: &[u32]) -> Result<(), AllocError>
    ensures { OnOk result ((p : ℕ) → has_number numbers.new p ≡ (list_any (λ n. n == p) more.now || has_number numbers.old p)) }
{
    for number in more {
        numbers.insert(*number)?;
    }
    Ok(())
}

/// Whether payments have nothing.
fn are_empty(payments: &[u32], places: &Places) -> bool
    ensures { IsTrue result ↔ ((p b : ℕ) → list_any (λ n. n == p) payments.now ≡ true → holds places.now (Holder.Payment p) b ≡ nothing) }
{
    for payment in payments {
        if !places.is_payment_empty(*payment) {
            return false;
        }
    }
    true
}

impl Payments {
    /// None was named.
    pub fn new(alloc: Global) -> Payments
        ensures named { (p : ℕ) → has_number result.named p ≡ false }
        ensures spent { (p : ℕ) → has_number result.spent p ≡ false }
        ensures taken { result.taken.items ≡ [] }
    {
        Payments {
            named: NumberRuns::new(alloc),
            spent: NumberRuns::new(alloc),
            taken: Vec::new(alloc),
        }
    }

    /// What this turn took from joins what turns before did: a turn begins.
    pub fn spend_taken(&mut self) -> Result<(), AllocError>
        ensures named { self.new.named ≡ self.old.named }
        ensures spent { OnOk result ((p : ℕ) → has_number self.new.spent p ≡ (list_any (λ n. n == p) self.old.taken.items || has_number self.old.spent p)) }
        ensures taken { OnOk result (self.new.taken.items ≡ []) }
    {
        join(&mut self.spent, &self.taken)?;
        self.taken.clear();
        Ok(())
    }

    /// Whether a holder is no payment that a turn before took from.
    pub fn is_live(&self, holder: &Holder) -> bool
        ensures { IsTrue result ↔ ((p : ℕ) → has_number self.now.spent p ≡ true → is_payment_at p holder.now ≡ false) }
    {
        match holder {
            Holder::Payment(number) => !self.spent.contains(*number),
            _ => true,
        }
    }

    /// Whether no movement has named the payment.
    pub fn is_new(&self, payment: u32) -> bool
        ensures { IsTrue result ↔ (has_number self.now.named payment ≡ false) }
    {
        !self.named.contains(payment)
    }

    /// A movement from one to the other is made.
    pub fn moved(&mut self, from: &Holder, to: &Holder) -> Result<(), AllocError>
        ensures named { OnOk result ((p : ℕ) → has_number self.new.named p ≡ ((is_payment_at p from.now || is_payment_at p to.now) || has_number self.old.named p)) }
        ensures spent { self.new.spent ≡ self.old.spent }
        ensures taken { OnOk result ((p : ℕ) → list_any (λ n. n == p) self.new.taken.items ≡ (list_any (λ n. n == p) self.old.taken.items || is_payment_at p from.now)) }
    {
        name(&mut self.named, from)?;
        name(&mut self.named, to)?;
        if let Holder::Payment(number) = from {
            self.taken.push(*number)?;
        }
        Ok(())
    }

    /// Whether each payment that this turn took from is empty.
    pub fn are_emptied(&self, places: &Places) -> bool
        ensures { IsTrue result ↔ ((p b : ℕ) → list_any (λ n. n == p) self.now.taken.items ≡ true → holds places.now (Holder.Payment p) b ≡ nothing) }
    {
        are_empty(&self.taken, places)
    }
}
