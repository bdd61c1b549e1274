//! The totals of each brand, and which brands a turn has moved: of these its sums are told.

ghost use Rattle.std.specs.Prelude.{◌≡◌, ◌==◌, ℕ, List, [], OnOk, if◌then◌else◌, option_map, slice_get};
ghost use Rattle.row_records.specs.rights_model.Totals.{placed};
ghost use Rattle.told_rights.specs.Sums.{AreRising, CanLower, CanRaise, CanShift, lowered, no_sum, raised, shifted, sum_at};

use row_records::turn_rows_lib::rights_model_lib::{Holder, Sum};
use std::alloc::{AllocError, Global};
use std::collections::BTreeMap;

/// The totals of each brand, and the brands that a turn has moved.
#[derive(Drop)]
pub struct Sums {
    /// By brand.
    pub totals: BTreeMap<u16, Sum>,
    /// Rising.
    pub brands: Vec<u16>,
}

/// So much leaves a holder.
fn lower(sum: &mut Sum, from: &Holder, count: u128)
    requires { CanLower sum.old from.now count }
    ensures { sum.new ≡ lowered sum.old from.now count }
{
    match from {
        Holder::Purse(_) => sum.purses -= count,
        Holder::Payment(_) => sum.payments -= count,
        Holder::Slot(_, _) => sum.slots -= count,
        Holder::Hand => {}
        Holder::Outside => sum.minted += count,
    }
}

/// So much comes to a holder.
fn raise(sum: &mut Sum, to: &Holder, count: u128)
    requires { CanRaise sum.old to.now count }
    ensures { sum.new ≡ raised sum.old to.now count }
{
    match to {
        Holder::Purse(_) => sum.purses += count,
        Holder::Payment(_) => sum.payments += count,
        Holder::Slot(_, _) => sum.slots += count,
        Holder::Hand => {}
        Holder::Outside => sum.burned += count,
    }
}

/// Puts a brand in its place among rising ones, unless it stands there.
fn place(brands: &mut Vec<u16>, brand: u16) -> Result<(), AllocError>
    requires { AreRising brands.old.items }
    ensures { OnOk result (brands.new.items ≡ placed brand brands.old.items) }
{
    match brands.binary_search(&brand) {
        Ok(_) => Ok(()),
        Err(at) => match brands.insert(at, brand) {
            Ok(()) => Ok(()),
            Err(_) => Err(AllocError),
        },
    }
}

impl Sums {
    /// Nothing was moved.
    pub fn new(alloc: Global) -> Sums
        ensures totals { (b : ℕ) → sum_at result.totals.entries b ≡ no_sum b }
        ensures brands { result.brands.items ≡ [] }
    {
        Sums {
            totals: BTreeMap::new(alloc),
            brands: Vec::new(alloc),
        }
    }

    /// No brand was moved in a turn that begins.
    pub fn clear_brands(&mut self)
        ensures totals { (b : ℕ) → sum_at self.new.totals.entries b ≡ sum_at self.old.totals.entries b }
        ensures brands { self.new.brands.items ≡ [] }
    {
        self.brands.clear();
    }

    /// The totals of a brand.
    pub fn sum(&self, brand: u16) -> Sum
        ensures { result ≡ sum_at self.now.totals.entries brand }
    {
        match self.totals.get(&brand) {
            Some(sum) => *sum,
            None => Sum {
                brand,
                minted: 0,
                burned: 0,
                purses: 0,
                payments: 0,
                slots: 0,
            },
        }
    }

    /// The totals of the brand that is told behind so many.
    pub fn due(&self, told: usize) -> Option<Sum>
        ensures { result ≡ option_map (sum_at self.now.totals.entries) (slice_get self.now.brands.items told) }
    {
        match self.brands.get(told) {
            Some(brand) => Some(self.sum(*brand)),
            None => None,
        }
    }

    /// So much of a brand goes from a holder to another.
    pub fn moved(
        &mut self,
        brand: u16,
        from: &Holder,
        to: &Holder,
        count: u128,
    ) -> Result<(), AllocError>
        requires can { CanShift (sum_at self.old.totals.entries brand) from.now to.now count }
        requires rising { AreRising self.old.brands.items }
        ensures totals { OnOk result ((b : ℕ) → sum_at self.new.totals.entries b ≡ (if brand == b then shifted (sum_at self.old.totals.entries b) from.now to.now count else sum_at self.old.totals.entries b)) }
        ensures brands { OnOk result (self.new.brands.items ≡ placed brand self.old.brands.items) }
    {
        let mut sum = self.sum(brand);
        lower(&mut sum, from, count);
        raise(&mut sum, to, count);
        if self.totals.insert(brand, sum).is_err() {
            return Err(AllocError);
        }
        place(&mut self.brands, brand)
    }
}
