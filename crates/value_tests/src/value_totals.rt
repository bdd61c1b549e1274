//! What values of one kind have together, be that a value of the kind or not: three payments of 2^62
//! have 3 * 2^62. Its one contract: contracts see a total as its content, the sum of the values'
//! contents, of whatever size; the first element of it that passes a bound is found in byte order, beside
//! what is out of the brand where that counts too. Elements are read where the values have them, and aren't copied.

ghost use Rattle.std.specs.Prelude.{◌≡◌, ◌+◌, ◌<◌, ◌≤◌, ℕ, List, length, map, IfOk, OnOk};
ghost use Rattle.refusals.specs.amount_math.Content.{count, counts, nothing, sum};
ghost use Rattle.refusals.specs.amount_math.Entries.{at_key, tally};
ghost use Rattle.refusals.specs.amount_math.Sparse.{put};
ghost use Rattle.refusals.specs.amount_math.ValueView.{keys_of, nat_bound};
ghost use Rattle.transit.specs.Transit.{in_store, supply_in};
ghost use Rattle.value_tests.specs.Listing.{most_added};
ghost use Rattle.value_tests.specs.Totals.{HasMore, total_of};
ghost use Rattle.value_tests.specs.Firsts.{IsCountOf, element_of, first_past};

use crate::wide_sums::WideSum;
use refusals::amount_math_lib::{Entry, Value};
use std::alloc::{AllocError, Global};
use std::collections::BTreeMap;
use std::marker::Model;
use transit::Transit;

/// What values of one kind have together, element by element; the one element of whole numbers is the
/// empty text.
#[derive(Drop)]
pub struct Total<'a> {
    counts: BTreeMap<&'a str, WideSum>,
}

impl<'a> Model for Total<'a> {
    ghost use Rattle.refusals.specs.amount_math.Content.{Content, coded_content, of_entries};
    ghost use Rattle.value_tests.specs.Listing.{IsTotal, listing};

    ghost Value = { Content };

    ghost coded = { coded_content };

    ghost view = { λ t. of_entries (listing t.counts.entries) };

    ghost invariant = { λ t. IsTotal t.counts.entries };
}

impl<'a> Total<'a> {
    fn empty(alloc: Global) -> Total<'a>
        ensures { result ≡ nothing }
    {
        Total {
            counts: BTreeMap::new(alloc),
        }
    }

    /// How many of an element there are, with so many more.
    fn with(&self, element: &str, more: u128) -> WideSum
        requires { count self.now element.now + more < most_added }
        ensures { result ≡ count self.now element.now + more }
    {
        match self.counts.get(element) {
            Some(number) => number.with(more),
            None => WideSum::of(more),
        }
    }

    /// So many more of an element.
    fn add(&mut self, element: &'a str, more: u128) -> Result<(), AllocError>
        requires { count self.old element.now + more < most_added }
        ensures { OnOk result (HasMore (λ k. at_key k element.now more) self.old self.new) }
    {
        if more == 0 {
            return Ok(());
        }
        let number = self.with(element, more);
        self.put(element, number)
    }

    /// So many of an element, whatever there were.
    fn put(&mut self, element: &'a str, number: WideSum) -> Result<(), AllocError>
        requires some { 0 < number }
        requires small { number < most_added }
        ensures { OnOk result (self.new ≡ put counts self.old element.now number) }
    {
        self.counts.insert(element, number)?;
        Ok(())
    }

    /// As many more as entries say.
    fn add_entries(&mut self, entries: &'a [Entry]) -> Result<(), AllocError>
        requires { (k : List ℕ) → count self.old k + tally entries.now k < most_added }
        ensures { OnOk result (HasMore (tally entries.now) self.old self.new) }
    {
        for entry in entries {
            self.add(entry.key().as_str(), u128::from(entry.count()))?;
        }
        Ok(())
    }

    /// As many more as a value has.
    fn add_value(&mut self, value: &'a Value) -> Result<(), AllocError>
        requires { (k : List ℕ) → count self.old k + nat_bound < most_added }
        ensures more { OnOk result (HasMore (count value.now.content) self.old self.new) }
        ensures bounded { (k : List ℕ) → count value.now.content k ≤ nat_bound }
    {
        let _kind = value.kind();
        match value.number() {
            Some(number) => self.add("", number),
            None => match value.entries() {
                Some(entries) => self.add_entries(entries),
                None => unreachable!(),
            },
        }
    }

    /// As many more as values have together.
    fn add_values(&mut self, values: &[&'a Value]) -> Result<(), AllocError>
        requires { self.old ≡ nothing }
        ensures { OnOk result (self.new ≡ total_of (map (λ v. v.now) values.now)) }
    {
        for value in values {
            self.add_value(*value)?;
        }
        Ok(())
    }

    /// What values have together.
    pub fn of(alloc: Global, values: &[&'a Value]) -> Result<Total<'a>, AllocError>
        ensures { IfOk result (λ total. total ≡ total_of (map (λ v. v.now) values.now)) }
    {
        let mut total = Total::empty(alloc);
        total.add_values(values)?;
        Ok(total)
    }

    /// How many elements it has.
    pub fn keys(&self) -> usize
        ensures { result ≡ keys_of self.now }
    {
        self.counts.len()
    }

    /// The first element, in byte order, of which there are more than the most, with their number.
    pub fn first_past(&self, most: u128) -> Option<(&'a str, WideSum)>
        ensures first { element_of result ≡ first_past most self.now }
        ensures counted { IsCountOf self.now result }
    {
        for (element, number) in &self.counts {
            if number.passes(most) {
                return Some((*element, number.copy()));
            }
        }
        None
    }

    /// The first element, in byte order, of which there would be more than the most beside what is out of a brand, with
    /// their number. The hand's store has nothing of the brand.
    pub fn first_past_beside(
        &self,
        supply: &Transit,
        brand: u16,
        most: u128,
    ) -> Option<(&'a str, WideSum)>
        requires made { brand < length supply.now.out }
        requires empty { in_store supply.now brand ≡ nothing }
        requires fits { (k : List ℕ) → count (supply_in supply.now brand).outstanding.content k ≤ most }
        ensures first { element_of result
            ≡ first_past most (sum (supply_in supply.now brand).outstanding.content self.now) }
        ensures counted { IsCountOf (sum (supply_in supply.now brand).outstanding.content self.now) result }
    {
        for (element, number) in &self.counts {
            let together = number.with(supply.count_out(brand, *element));
            if together.passes(most) {
                return Some((*element, together));
            }
        }
        None
    }
}
