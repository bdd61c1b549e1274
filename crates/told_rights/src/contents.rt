//! What is held of a brand in one place: how many of each element.

ghost use Rattle.std.specs.Prelude.{◌≡◌, ◌≢◌, ◌+◌, ◌-◌, ◌<◌, ◌^◌, ◌↔◌, ℕ, List, IfOk, IsTrue, OnOk};
ghost use Rattle.row_records.specs.Views.{value_view};
ghost use Rattle.row_records.specs.amount_math.Content.{Contains, count, counts, difference, nothing, sum};
ghost use Rattle.row_records.specs.amount_math.Sparse.{put};
ghost use Rattle.row_records.specs.fair_rows.Amounts.{IsPrinted};
ghost use Rattle.row_records.specs.fair_rows.Values.{content_of};
ghost use Rattle.row_records.specs.turn_rows.Form.{HasValueForm};
ghost use Rattle.row_records.specs.turn_rows.declared.editions.Edition.{Edition};

use crate::elements::{element_at, number_of_elements};
use row_records::rows::PrintedValue;
use std::alloc::{AllocError, Global};
use std::collections::BTreeMap;
use std::marker::Model;

/// How many of each element; the one element of whole numbers is the empty text.
#[derive(Drop)]
pub struct Contents {
    counts: BTreeMap<String, u128>,
}

impl Model for Contents {
    ghost use Rattle.row_records.specs.amount_math.Content.{Content, coded_content, of_entries};
    ghost use Rattle.told_rights.specs.Listing.{AreSome, listing};

    ghost Value = { Content };

    ghost coded = { coded_content };

    ghost view = { λ a. of_entries (listing a.counts.entries) };

    ghost invariant = { λ a. AreSome a.counts.entries };
}

impl Contents {
    /// Nothing.
    pub fn new(alloc: Global) -> Contents
        ensures { result ≡ nothing }
    {
        Contents {
            counts: BTreeMap::new(alloc),
        }
    }

    /// How many of an element there are.
    pub fn count(&self, element: &str) -> u128
        ensures { result ≡ count self.now element.now }
    {
        match self.counts.get(element) {
            Some(number) => *number,
            None => 0,
        }
    }

    /// So many of an element, whatever there were.
    fn put(&mut self, alloc: Global, element: &str, number: u128) -> Result<(), AllocError>
        ensures { OnOk result (self.new ≡ put counts self.old element.now number) }
    {
        if number == 0 {
            self.counts.remove(element);
            return Ok(());
        }
        let text = String::from_str(alloc, element)?;
        let Ok(_) = self.counts.insert(text, number) else {
            return Err(AllocError);
        };
        Ok(())
    }

    /// Whether there is nothing.
    pub fn is_empty(&self) -> bool
        ensures { IsTrue result ↔ (self.now ≡ nothing) }
    {
        self.counts.is_empty()
    }

    /// Whether at least what a value has is there.
    pub fn contains(&self, value: &PrintedValue) -> bool
        ensures { (e : Edition) → HasValueForm e (value_view value.now) → IsTrue result ↔ Contains self.now (content_of (value_view value.now)) }
    {
        for index in 0..number_of_elements(value) {
            let (element, number) = element_at(value, index);
            if self.count(element) < number {
                return false;
            }
        }
        true
    }

    /// Whether exactly what a value has is there; a value in form is then printed as that.
    pub fn is(&self, value: &PrintedValue) -> bool
        ensures content { (e : Edition) → HasValueForm e (value_view value.now) → IsTrue result ↔ (self.now ≡ content_of (value_view value.now)) }
        ensures printed { (e : Edition) → HasValueForm e (value_view value.now) → IsTrue result ↔ IsPrinted self.now (value_view value.now) }
    {
        let elements = number_of_elements(value);
        if self.counts.len() != elements {
            return false;
        }
        for index in 0..elements {
            let (element, number) = element_at(value, index);
            if self.count(element) != number {
                return false;
            }
        }
        true
    }

    /// A second one.
    pub fn copy(&self) -> Result<Contents, AllocError>
        ensures { IfOk result (λ copy. copy ≡ self.now) }
    {
        let counts = self.counts.clone()?;
        Ok(Contents { counts })
    }

    /// What a value has comes. On an error some of it has come.
    pub fn add(&mut self, alloc: Global, value: &PrintedValue) -> Result<(), AllocError>
        requires form { (e : Edition) × HasValueForm e (value_view value.now) }
        requires room { (k : List ℕ) → count self.old k + count (content_of (value_view value.now)) k < 2 ^ 128 }
        ensures { OnOk result (self.new ≡ sum self.old (content_of (value_view value.now))) }
    {
        for index in 0..number_of_elements(value) {
            let (element, number) = element_at(value, index);
            let more = self.count(element) + number;
            self.put(alloc, element, more)?;
        }
        Ok(())
    }

    /// What a value has goes, as far as it is there. On an error some of it has gone.
    pub fn take(&mut self, alloc: Global, value: &PrintedValue) -> Result<(), AllocError>
        requires form { (e : Edition) × HasValueForm e (value_view value.now) }
        ensures { OnOk result (self.new ≡ difference self.old (content_of (value_view value.now))) }
    {
        for index in 0..number_of_elements(value) {
            let (element, number) = element_at(value, index);
            let left = self.count(element).saturating_sub(number);
            self.put(alloc, element, left)?;
        }
        Ok(())
    }

    /// As many of each element that a value has as are too many of those in the other: what passes the most.
    pub(crate) fn exceed(
        &mut self,
        alloc: Global,
        others: &Contents,
        value: &PrintedValue,
        most: u128,
    ) -> Result<(), AllocError>
        requires form { (e : Edition) × HasValueForm e (value_view value.now) }
        ensures listed { OnOk result ((k : List ℕ) → count (content_of (value_view value.now)) k ≢ 0 → count self.new k ≡ count others.now k - most) }
        ensures others { OnOk result ((k : List ℕ) → count (content_of (value_view value.now)) k ≡ 0 → count self.new k ≡ count self.old k) }
    {
        for index in 0..number_of_elements(value) {
            let (element, _) = element_at(value, index);
            let over = others.count(element).saturating_sub(most);
            self.put(alloc, element, over)?;
        }
        Ok(())
    }
}
