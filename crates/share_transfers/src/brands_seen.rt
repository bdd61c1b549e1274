//! The brands of the shares that were seen, by seat and keyword.

ghost use Rattle.std.specs.Prelude.{◌≡◌, ◌++◌, ◌∷◌, [], List, OnOk};
ghost use Rattle.std.specs.List.{list_any};
ghost use Rattle.rules.specs.Rearranging.{SeatShare, is_against};
ghost use Rattle.share_transfers.specs.BrandsSeen.{HaveSeen, brands_at, has_other, with_brand};
ghost use Rattle.share_transfers.specs.Views.{seat_share};

use crate::shares::GivenSeatShare;
use std::alloc::AllocError;
use std::collections::BTreeMap;

/// The brands of the shares for one seat and keyword.
#[derive(Clone, Copy)]
pub enum Brands {
    /// All are of this one.
    One(u32),
    /// They are of several.
    Several,
}

/// Whether another brand than this one is among them.
fn has_other(brands: Option<Brands>, brand: u32) -> bool
    ensures { result ≡ has_other brands brand }
{
    match brands {
        None => false,
        Some(Brands::One(one)) => one != brand,
        Some(Brands::Several) => true,
    }
}

/// The brands with one more.
fn with_brand(brands: Option<Brands>, brand: u32) -> Brands
    ensures { result ≡ with_brand brands brand }
{
    match brands {
        None => Brands::One(brand),
        Some(Brands::One(one)) if one == brand => Brands::One(one),
        Some(_) => Brands::Several,
    }
}

/// The brands that were seen for a share's seat and keyword.
fn brands_of<'a>(
    seen: &BTreeMap<(u32, &'a str), Brands>,
    share: &GivenSeatShare<'a>,
) -> Option<Brands>
    ensures { result ≡ brands_at seen.now share.now.seat share.now.share.keyword.now }
{
    let keyword = share.share.keyword.as_str();
    seen.get(&(share.seat, keyword)).copied()
}

/// Whether a share for the seat and the keyword was seen that has another brand.
pub fn is_against_any<'a>(
    seen: &BTreeMap<(u32, &'a str), Brands>,
    share: &GivenSeatShare<'a>,
) -> bool
    ensures { (before : List SeatShare) → HaveSeen seen.now before →
        result ≡ list_any (is_against (seat_share share.now)) before }
{
    has_other(brands_of(seen, share), share.share.amount.brand)
}

/// Sees a share.
pub fn see<'a>(
    seen: &mut BTreeMap<(u32, &'a str), Brands>,
    share: &GivenSeatShare<'a>,
) -> Result<(), AllocError>
    ensures { OnOk result ((before : List SeatShare) → HaveSeen seen.old before →
        HaveSeen seen.new (before ++ seat_share share.now ∷ [])) }
{
    let brands = with_brand(brands_of(seen, share), share.share.amount.brand);
    seen.insert((share.seat, share.share.keyword.as_str()), brands)?;
    Ok(())
}
