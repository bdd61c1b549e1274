//! The rows of totals and of shares: made where they are new, and changed in place.

ghost use Rattle.std.specs.Prelude.{◌≡◌, ◌+◌, ◌<◌, ◌≤◌, ◌^◌, ◌==◌, ℕ, false, unwrap_or, IsOk, IsSome, OnOk};
ghost use Rattle.std.specs.BTreeMap.{get};
ghost use Rattle.std.specs.Ordering.{nat_cmp};
ghost use Rattle.escrow.specs.Running.{CanMoveBack, CanMoveTotals, IsMoved};
ghost use Rattle.escrow.specs.Rows.{part, share_at, totals_at};
ghost use Rattle.escrow.specs.Told.{HasShareRow, instance_at, is_slot_of, pair_cmp};

use crate::totals::Totals;
use rights_model::Holder;
use std::alloc::AllocError;
use std::collections::BTreeMap;

/// The instance of the seat whose slot the holder is.
fn instance_of(instances: &[u32], holder: &Holder) -> Option<u32>
    ensures { result ≡ instance_at instances.now holder.now }
{
    match holder {
        Holder::Slot(seat, _) => instances.get(*seat as usize).copied(),
        _ => None,
    }
}

/// Makes a row of a key that has none. On an error the rows are as before.
fn ensure_row<K: Ord + Copy, V: Copy>(
    rows: &mut BTreeMap<K, V>,
    key: K,
    empty: V,
) -> Result<(), AllocError>
    ensures same { (q : K) → unwrap_or (get K.cmp rows.new q) empty ≡ unwrap_or (get K.cmp rows.old q) empty }
    ensures kept { (q : K) → IsSome (get K.cmp rows.old q) → IsSome (get K.cmp rows.new q) }
    ensures made { OnOk result (IsSome (get K.cmp rows.new key)) }
    ensures known { IsSome (get K.cmp rows.old key) → IsOk result }
{
    if rows.contains_key(&key) {
        return Ok(());
    }
    match rows.insert(key, empty) {
        Ok(_) => Ok(()),
        Err(_) => Err(AllocError),
    }
}

/// Makes the row of a brand that has none.
pub(crate) fn ensure_totals(rows: &mut BTreeMap<u16, Totals>, brand: u16) -> Result<(), AllocError>
    ensures same { (b : ℕ) → totals_at rows.new.entries b ≡ totals_at rows.old.entries b }
    ensures kept { (b : ℕ) → IsSome (get nat_cmp rows.old b) → IsSome (get nat_cmp rows.new b) }
    ensures made { OnOk result (IsSome (get nat_cmp rows.new brand)) }
    ensures known { IsSome (get nat_cmp rows.old brand) → IsOk result }
{
    ensure_row(rows, brand, Totals::zero())
}

/// Makes the row of a slot's pair of instance and brand, where it has none.
pub(crate) fn ensure_share(
    rows: &mut BTreeMap<(u32, u16), u128>,
    instances: &[u32],
    holder: &Holder,
    brand: u16,
) -> Result<(), AllocError>
    ensures same { (i b : ℕ) → share_at rows.new.entries i b ≡ share_at rows.old.entries i b }
    ensures kept { (i b : ℕ) → IsSome (get pair_cmp rows.old (i, b)) → IsSome (get pair_cmp rows.new (i, b)) }
    ensures made { OnOk result (HasShareRow rows.new.entries brand (instance_at instances.now holder.now)) }
    ensures known { HasShareRow rows.old.entries brand (instance_at instances.now holder.now) → IsOk result }
{
    match instance_of(instances, holder) {
        Some(instance) => ensure_row(rows, (instance, brand), 0),
        None => Ok(()),
    }
}

/// That much of a brand goes from one holder to another. The brand's row is there.
pub(crate) fn shift_totals(
    rows: &mut BTreeMap<u16, Totals>,
    brand: u16,
    from: &Holder,
    to: &Holder,
    count: u128,
)
    requires made { IsSome (get nat_cmp rows.old brand) }
    requires can { CanMoveTotals (totals_at rows.old.entries brand) from.now to.now count }
    ensures here { IsMoved (totals_at rows.old.entries brand) (totals_at rows.new.entries brand) from.now to.now count }
    ensures others { (b : ℕ) → (brand == b) ≡ false → totals_at rows.new.entries b ≡ totals_at rows.old.entries b }
    ensures kept { (b : ℕ) → IsSome (get nat_cmp rows.old b) → IsSome (get nat_cmp rows.new b) }
{
    let Some(totals) = rows.get_mut(&brand) else {
        return;
    };
    totals.shift(from, to, count);
}

/// Works `shift_totals` backwards.
pub(crate) fn undo_shift_totals(
    rows: &mut BTreeMap<u16, Totals>,
    brand: u16,
    from: &Holder,
    to: &Holder,
    count: u128,
)
    requires made { IsSome (get nat_cmp rows.old brand) }
    requires can { CanMoveBack (totals_at rows.old.entries brand) from.now to.now count }
    ensures here { IsMoved (totals_at rows.new.entries brand) (totals_at rows.old.entries brand) from.now to.now count }
    ensures others { (b : ℕ) → (brand == b) ≡ false → totals_at rows.new.entries b ≡ totals_at rows.old.entries b }
    ensures kept { (b : ℕ) → IsSome (get nat_cmp rows.old b) → IsSome (get nat_cmp rows.new b) }
{
    let Some(totals) = rows.get_mut(&brand) else {
        return;
    };
    totals.undo_shift(from, to, count);
}

/// That much of a brand leaves a holder: where it is a slot, its instance has so much less. Its row is there.
pub(crate) fn lower_share(
    rows: &mut BTreeMap<(u32, u16), u128>,
    instances: &[u32],
    holder: &Holder,
    brand: u16,
    count: u128,
)
    requires made { HasShareRow rows.old.entries brand (instance_at instances.now holder.now) }
    requires has { (i : ℕ) → part (is_slot_of instances.now i) holder.now brand count brand ≤ share_at rows.old.entries i brand }
    ensures share { (i b : ℕ) → share_at rows.new.entries i b + part (is_slot_of instances.now i) holder.now brand count b ≡ share_at rows.old.entries i b }
    ensures kept { (i b : ℕ) → IsSome (get pair_cmp rows.old (i, b)) → IsSome (get pair_cmp rows.new (i, b)) }
{
    let Some(instance) = instance_of(instances, holder) else {
        return;
    };
    let Some(share) = rows.get_mut(&(instance, brand)) else {
        return;
    };
    *share -= count;
}

/// That much of a brand comes to a holder: where it is a slot, its instance has so much more. Its row is there.
pub(crate) fn raise_share(
    rows: &mut BTreeMap<(u32, u16), u128>,
    instances: &[u32],
    holder: &Holder,
    brand: u16,
    count: u128,
)
    requires made { HasShareRow rows.old.entries brand (instance_at instances.now holder.now) }
    requires room { (i : ℕ) → share_at rows.old.entries i brand + part (is_slot_of instances.now i) holder.now brand count brand < 2 ^ 128 }
    ensures share { (i b : ℕ) → share_at rows.new.entries i b ≡ share_at rows.old.entries i b + part (is_slot_of instances.now i) holder.now brand count b }
    ensures kept { (i b : ℕ) → IsSome (get pair_cmp rows.old (i, b)) → IsSome (get pair_cmp rows.new (i, b)) }
{
    let Some(instance) = instance_of(instances, holder) else {
        return;
    };
    let Some(share) = rows.get_mut(&(instance, brand)) else {
        return;
    };
    *share += count;
}
