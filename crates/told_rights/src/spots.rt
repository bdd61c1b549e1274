//! Where something is held: a holder's place for a brand, in an order.

ghost use Rattle.std.specs.Prelude.{◌≡◌, Some, IfOk, refl};
ghost use Rattle.std.specs.Cmp.{eq_by_cmp_equiv, partial_equiv_from_equiv, partial_order_from_agreeing_total};
ghost use Rattle.std.specs.Ordering.{eq_by_cmp};
ghost use Rattle.row_records.specs.rights_model.Place.{place};
ghost use Rattle.told_rights.specs.Spots.{keyword_of, number_of, sort_of, spot_cmp, spot_total};

use row_records::turn_rows_lib::rights_model_lib::Holder;
use std::alloc::{AllocError, Global};
use std::cmp::Ordering;
use std::marker::Model;

/// A holder with a brand. Places of a payment, and those of the hand, follow one another, by brand.
pub struct Spot {
    holder: Holder,
    brand: u16,
}

impl Drop for Spot {
    fn drop(self) {
        let Spot {
            holder: _,
            brand: _,
        } = self;
    }
}

impl Model for Spot {
    ghost use Rattle.row_records.specs.rights_model.Place.{Place, coded_place};

    ghost Value = { Place };

    ghost coded = { coded_place };

    ghost view = { λ a. (a.holder, a.brand) };
}

/// In which order holders stand: by their sort, then by number, then by keyword.
fn rank(holder: &Holder) -> (u8, u32, &str)
    ensures sort { result.0 ≡ sort_of holder.now }
    ensures number { result.1 ≡ number_of holder.now }
    ensures keyword { result.2.now ≡ keyword_of holder.now }
{
    match holder {
        Holder::Purse(number) => (0, *number, ""),
        Holder::Payment(number) => (1, *number, ""),
        Holder::Slot(seat, keyword) => (2, *seat, keyword.as_str()),
        Holder::Hand => (3, 0, ""),
        Holder::Outside => (4, 0, ""),
    }
}

impl Spot {
    /// The place of a holder for a brand. A slot's keyword takes memory.
    pub fn of(alloc: Global, holder: &Holder, brand: u16) -> Result<Spot, AllocError>
        ensures { IfOk result (λ spot. spot ≡ place holder.now brand) }
    {
        let holder = holder.copy(alloc)?;
        Ok(Spot { holder, brand })
    }

    /// The first place of a payment.
    pub fn of_payment(payment: u32) -> Spot
        ensures { result ≡ place (Holder.Payment payment) 0 }
    {
        Spot {
            holder: Holder::Payment(payment),
            brand: 0,
        }
    }

    /// The first place of the hand.
    pub fn of_hand() -> Spot
        ensures { result ≡ place Holder.Hand 0 }
    {
        Spot {
            holder: Holder::Hand,
            brand: 0,
        }
    }

    pub fn holder(&self) -> &Holder
        ensures { result.now ≡ self.now.0 }
    {
        &self.holder
    }
}

impl PartialEq for Spot {
    ghost eq = { eq_by_cmp spot_cmp };

    ghost laws = { partial_equiv_from_equiv (eq_by_cmp_equiv spot_total) };

    fn eq(&self, other: &Spot) -> bool {
        self.cmp(other).is_eq()
    }
}

impl Eq for Spot {
    ghost laws = { eq_by_cmp_equiv spot_total };
}

impl PartialOrd for Spot {
    ghost partial_cmp = { λ x y. Some (spot_cmp x y) };

    ghost laws = { partial_order_from_agreeing_total spot_cmp spot_total (λ x y. refl) (λ x y. refl) };

    fn partial_cmp(&self, other: &Spot) -> Option<Ordering> {
        Some(self.cmp(other))
    }
}

impl Ord for Spot {
    ghost cmp = { spot_cmp };

    ghost total = { spot_total };

    ghost matches_partial_cmp = { λ x y. refl };

    ghost matches_eq = { λ x y. refl };

    fn cmp(&self, other: &Spot) -> Ordering {
        let (sort, number, keyword) = rank(&self.holder);
        let (other_sort, other_number, other_keyword) = rank(&other.holder);
        let by_keyword = keyword.as_bytes().cmp(other_keyword.as_bytes());
        let by_brand = self.brand.cmp(&other.brand).then(by_keyword);
        let by_number = number.cmp(&other_number).then(by_brand);
        sort.cmp(&other_sort).then(by_number)
    }
}
