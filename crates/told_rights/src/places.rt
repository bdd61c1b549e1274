//! What each holder has of each brand.

ghost use Rattle.std.specs.Prelude.{◌≡◌, ◌≢◌, ◌+◌, ◌<◌, ◌^◌, ◌↔◌, ℕ, List, IfOk, IsTrue, OnOk};
ghost use Rattle.row_records.specs.Views.{value_view};
ghost use Rattle.row_records.specs.amount_math.Content.{Contains, count, nothing};
ghost use Rattle.row_records.specs.fair_rows.Amounts.{IsPrinted};
ghost use Rattle.row_records.specs.fair_rows.Values.{content_of};
ghost use Rattle.row_records.specs.rights_model.Table.{given, holds, no_holdings, taken};
ghost use Rattle.row_records.specs.turn_rows.Form.{HasValueForm};
ghost use Rattle.row_records.specs.turn_rows.declared.editions.Edition.{Edition};

use crate::contents::Contents;
use crate::shelves::{pull, replace};
use crate::spots::Spot;
use row_records::rows::PrintedValue;
use row_records::turn_rows_lib::rights_model_lib::Holder;
use std::alloc::{AllocError, Global};
use std::collections::BTreeMap;
use std::marker::Model;

/// What is where. Contracts see it as the table; a place that has nothing isn't kept.
#[derive(Drop)]
pub struct Places {
    shelves: BTreeMap<Spot, Contents>,
}

impl Model for Places {
    ghost use Rattle.row_records.specs.rights_model.Table.{Table, coded_table};
    ghost use Rattle.told_rights.specs.Shelves.{AreFilled, table_of};
    ghost use Rattle.told_rights.specs.Spots.{spot_cmp};

    ghost Value = { Table };

    ghost coded = { coded_table };

    ghost view = { λ a. table_of a.shelves.entries };

    ghost invariant = { λ a. AreFilled spot_cmp a.shelves.entries };
}

impl Places {
    /// Nobody has anything.
    pub fn new(alloc: Global) -> Places
        ensures { result ≡ no_holdings }
    {
        Places {
            shelves: BTreeMap::new(alloc),
        }
    }

    /// Whether a holder has at least a value of a brand. Memory is wanted for a slot's keyword.
    pub fn contains(
        &self,
        alloc: Global,
        holder: &Holder,
        brand: u16,
        value: &PrintedValue,
    ) -> Result<bool, AllocError>
        ensures { (e : Edition) → HasValueForm e (value_view value.now) → IfOk result (λ has. IsTrue has ↔ Contains (holds self.now holder.now brand) (content_of (value_view value.now))) }
    {
        let spot = Spot::of(alloc, holder, brand)?;
        match self.shelves.get(&spot) {
            Some(contents) => Ok(contents.contains(value)),
            None => Ok(Contents::new(alloc).contains(value)),
        }
    }

    /// Whether a value is all that a holder has of a brand; a value in form is then printed as that.
    pub fn is_all(
        &self,
        alloc: Global,
        holder: &Holder,
        brand: u16,
        value: &PrintedValue,
    ) -> Result<bool, AllocError>
        ensures content { (e : Edition) → HasValueForm e (value_view value.now) → IfOk result (λ is. IsTrue is ↔ (holds self.now holder.now brand ≡ content_of (value_view value.now))) }
        ensures printed { (e : Edition) → HasValueForm e (value_view value.now) → IfOk result (λ is. IsTrue is ↔ IsPrinted (holds self.now holder.now brand) (value_view value.now)) }
    {
        let spot = Spot::of(alloc, holder, brand)?;
        match self.shelves.get(&spot) {
            Some(contents) => Ok(contents.is(value)),
            None => Ok(Contents::new(alloc).is(value)),
        }
    }

    /// A copy of what a holder has of a brand.
    pub fn contents(
        &self,
        alloc: Global,
        holder: &Holder,
        brand: u16,
    ) -> Result<Contents, AllocError>
        ensures { IfOk result (λ contents. contents ≡ holds self.now holder.now brand) }
    {
        let spot = Spot::of(alloc, holder, brand)?;
        match self.shelves.get(&spot) {
            Some(contents) => contents.copy(),
            None => Ok(Contents::new(alloc)),
        }
    }

    /// Whether a payment has nothing of any brand.
    pub fn is_payment_empty(&self, payment: u32) -> bool
        ensures { IsTrue result ↔ ((b : ℕ) → holds self.now (Holder.Payment payment) b ≡ nothing) }
    {
        match self.shelves.range(Spot::of_payment(payment)..).next() {
            Some((spot, _)) => !spot.holder().is(&Holder::Payment(payment)),
            None => true,
        }
    }

    /// Whether the hand has nothing of any brand.
    pub fn is_hand_empty(&self) -> bool
        ensures { IsTrue result ↔ ((b : ℕ) → holds self.now Holder.Hand b ≡ nothing) }
    {
        match self.shelves.range(Spot::of_hand()..).next() {
            Some((spot, _)) => !spot.holder().is(&Holder::Hand),
            None => true,
        }
    }

    /// A value comes to a holder. On an error nothing is said of what is where.
    pub fn give(
        &mut self,
        alloc: Global,
        holder: &Holder,
        brand: u16,
        value: &PrintedValue,
    ) -> Result<(), AllocError>
        requires form { (e : Edition) × HasValueForm e (value_view value.now) }
        requires room { holder.now ≢ Holder.Outside → (k : List ℕ) → count (holds self.old holder.now brand) k + count (content_of (value_view value.now)) k < 2 ^ 128 }
        ensures { OnOk result (self.new ≡ given self.old holder.now brand (content_of (value_view value.now))) }
    {
        match holder {
            Holder::Outside => Ok(()),
            _ => {
                let spot = Spot::of(alloc, holder, brand)?;
                let mut contents = pull(&mut self.shelves, alloc, &spot);
                contents.add(alloc, value)?;
                replace(&mut self.shelves, spot, contents)
            }
        }
    }

    /// A value leaves a holder, as far as it is there. On an error nothing is said of what is where.
    pub fn take(
        &mut self,
        alloc: Global,
        holder: &Holder,
        brand: u16,
        value: &PrintedValue,
    ) -> Result<(), AllocError>
        requires form { (e : Edition) × HasValueForm e (value_view value.now) }
        ensures { OnOk result (self.new ≡ taken self.old holder.now brand (content_of (value_view value.now))) }
    {
        match holder {
            Holder::Outside => Ok(()),
            _ => {
                let spot = Spot::of(alloc, holder, brand)?;
                let mut contents = pull(&mut self.shelves, alloc, &spot);
                contents.take(alloc, value)?;
                replace(&mut self.shelves, spot, contents)
            }
        }
    }
}
