//! How many of each element are out of each brand, and whether that is within the edition's bounds.

ghost use Rattle.std.specs.Prelude.{◌≡◌, ◌≢◌, ◌==◌, ◌+◌, ◌<◌, ◌^◌, ◌↔◌, ℕ, List, [], IsTrue, OnOk, if◌then◌else◌};
ghost use Rattle.std.specs.Ordering.{nat_cmp};
ghost use Rattle.row_records.specs.Views.{value_view};
ghost use Rattle.row_records.specs.amount_math.Content.{count, difference, nothing, sum};
ghost use Rattle.row_records.specs.amount_math.declared.Kind.{Kind};
ghost use Rattle.row_records.specs.fair_rows.Values.{IsValueOf, content_of};
ghost use Rattle.row_records.specs.turn_rows.Form.{HasValueForm};
ghost use Rattle.row_records.specs.turn_rows.declared.editions.Edition.{Edition as Editions};
ghost use Rattle.told_rights.specs.Listing.{entries_of};
ghost use Rattle.told_rights.specs.Shelves.{AreFilled};
ghost use Rattle.told_rights.specs.Supplies.{AreWithin, IsBounded, IsNoted, most_of, out_of};

use crate::contents::Contents;
use crate::shelves::{pull, replace};
use row_records::rows::{Element, PrintedValue};
use row_records::turn_rows_lib::editions::Edition;
use std::alloc::{AllocError, Global};
use std::collections::BTreeMap;
use std::marker::Model;

/// The most of a nat value in the second edition.
const NAT_BOUND: u128 = (1 << 120) - 1;

/// The most of a key of a bag.
const COUNT_BOUND: u128 = (1 << 63) - 1;

/// What is out of each brand, and by how much that passes what there may be (specs/Supplies.antt).
#[derive(Drop)]
pub struct Supplies {
    edition: Edition,
    out: BTreeMap<u16, Contents>,
    /// Of each element as many as there are too many; a brand of which there are none isn't kept.
    over: BTreeMap<u16, Contents>,
}

impl Model for Supplies {
    ghost use Rattle.std.specs.Ordering.{nat_cmp};
    ghost use Rattle.told_rights.specs.Shelves.{AreFilled};
    ghost use Rattle.told_rights.specs.Supplies.{Supply, coded_supply};

    ghost Value = { Supply };

    ghost coded = { coded_supply };

    ghost view = { λ a. record { edition = a.edition; out = a.out.entries; over = a.over.entries } };

    ghost invariant = { λ a. AreFilled nat_cmp a.over.entries };
}

/// How many of each of its elements there may be of a value's brand, as the value is printed.
fn most(edition: Edition, value: &PrintedValue) -> u128
    ensures { (kind : Kind) → IsValueOf kind (value_view value.now) → entries_of (value_view value.now) ≢ [] → result ≡ most_of edition kind }
{
    match value {
        PrintedValue::Number(_) => match edition {
            Edition::First => (1 << 63) - 1,
            Edition::Second => NAT_BOUND,
        },
        PrintedValue::Elements(elements) => {
            if elements.len() == 0 {
                return COUNT_BOUND;
            }
            match &elements[0] {
                Element::Key(_) => 1,
                Element::Counted(_, _) => COUNT_BOUND,
            }
        }
    }
}

/// Notes by how much what is now out of a brand passes the most, of each element that a value has.
fn note(
    over: &mut BTreeMap<u16, Contents>,
    alloc: Global,
    brand: u16,
    value: &PrintedValue,
    out: &Contents,
    most: u128,
) -> Result<(), AllocError>
    requires { (e : Editions) × HasValueForm e (value_view value.now) }
    ensures noted { OnOk result (IsNoted brand (value_view value.now) out.now most over.old.entries over.new.entries) }
    ensures filled { AreFilled nat_cmp over.old.entries → AreFilled nat_cmp over.new.entries }
{
    let mut excess = pull(over, alloc, &brand);
    excess.exceed(alloc, out, value, most)?;
    replace(over, brand, excess)
}

impl Supplies {
    /// Nothing is out.
    pub fn new(alloc: Global, edition: Edition) -> Supplies
        ensures edition { result.edition ≡ edition }
        ensures out { (b : ℕ) → out_of result b ≡ nothing }
        ensures bounded { (b : ℕ) (kind : Kind) → IsBounded b kind result }
    {
        Supplies {
            edition,
            out: BTreeMap::new(alloc),
            over: BTreeMap::new(alloc),
        }
    }

    /// So much more of a brand is out. Its values so far are of one kind, and this one with them.
    pub fn issue(
        &mut self,
        alloc: Global,
        brand: u16,
        value: &PrintedValue,
    ) -> Result<(), AllocError>
        requires form { (e : Editions) × HasValueForm e (value_view value.now) }
        requires room { (k : List ℕ) → count (out_of self.old brand) k + count (content_of (value_view value.now)) k < 2 ^ 128 }
        ensures edition { self.new.edition ≡ self.old.edition }
        ensures out { OnOk result ((b : ℕ) → out_of self.new b ≡ (if brand == b then sum (out_of self.old b) (content_of (value_view value.now)) else out_of self.old b)) }
        ensures bounded { OnOk result ((b : ℕ) (kind : Kind) → (b ≡ brand → IsValueOf kind (value_view value.now)) → IsBounded b kind self.old → IsBounded b kind self.new) }
    {
        let mut out = pull(&mut self.out, alloc, &brand);
        out.add(alloc, value)?;
        note(
            &mut self.over,
            alloc,
            brand,
            value,
            &out,
            most(self.edition, value),
        )?;
        replace(&mut self.out, brand, out)
    }

    /// So much less of a brand is out.
    pub fn retire(
        &mut self,
        alloc: Global,
        brand: u16,
        value: &PrintedValue,
    ) -> Result<(), AllocError>
        requires form { (e : Editions) × HasValueForm e (value_view value.now) }
        ensures edition { self.new.edition ≡ self.old.edition }
        ensures out { OnOk result ((b : ℕ) → out_of self.new b ≡ (if brand == b then difference (out_of self.old b) (content_of (value_view value.now)) else out_of self.old b)) }
        ensures bounded { OnOk result ((b : ℕ) (kind : Kind) → (b ≡ brand → IsValueOf kind (value_view value.now)) → IsBounded b kind self.old → IsBounded b kind self.new) }
    {
        let mut out = pull(&mut self.out, alloc, &brand);
        out.take(alloc, value)?;
        note(
            &mut self.over,
            alloc,
            brand,
            value,
            &out,
            most(self.edition, value),
        )?;
        replace(&mut self.out, brand, out)
    }

    /// Whether of no element of any brand more are out than there may be.
    pub fn are_within(&self) -> bool
        ensures { (kind_of : ℕ → Kind) → ((b : ℕ) → IsBounded b (kind_of b) self.now) → IsTrue result ↔ AreWithin kind_of self.now }
    {
        self.over.is_empty()
    }
}
