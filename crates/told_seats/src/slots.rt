//! The slots of a seat, as rows name them: each by its keyword, with the brand of what it may have, in the order in
//! which they came.

ghost use Rattle.std.specs.Prelude.{◌≡◌, ◌==◌, ◌&&◌, [], IfOk, OnOk, map};
ghost use Rattle.std.specs.Str.{bytes_eq};
ghost use Rattle.row_records.specs.Views.{amount_view};
ghost use Rattle.row_records.specs.fair_rows.Seats.{brand_under, with_amounts, with_slot};
ghost use Rattle.row_records.specs.fair_rows.Amounts.{content_under};
ghost use Rattle.told_seats.specs.SlotViews.{IsLastOf, slots_view};

use row_records::host_text_lib::keyword::Keyword;
use row_records::rows::KeywordAmount;
use std::alloc::{AllocError, Global};
use told_rights::contents::Contents;

/// A slot of a seat: its keyword, and the brand of what it may have.
#[derive(Drop)]
pub struct SlotName {
    pub keyword: Keyword,
    pub brand: u16,
}

/// The brand of the slot of a keyword, if there is one.
pub(crate) fn brand_under(slots: &[SlotName], keyword: &Keyword) -> Option<u16>
    ensures { result ≡ brand_under keyword.now (slots_view slots.now) }
{
    for slot in slots {
        if keyword.is(&slot.keyword) {
            return Some(slot.brand);
        }
    }
    None
}

/// A slot that isn't there is added, last.
pub(crate) fn add_slot(
    alloc: Global,
    slots: &mut Vec<SlotName>,
    keyword: &Keyword,
    brand: u16,
) -> Result<(), AllocError>
    ensures { OnOk result (slots_view slots.new.items ≡ with_slot keyword.now brand (slots_view slots.old.items)) }
{
    if brand_under(slots.as_slice(), keyword).is_some() {
        return Ok(());
    }
    let keyword = keyword.copy(alloc)?;
    match slots.push(SlotName { keyword, brand }) {
        Ok(()) => Ok(()),
        Err(_) => Err(AllocError),
    }
}

/// Those of amounts are added.
fn add_slots(
    alloc: Global,
    slots: &mut Vec<SlotName>,
    amounts: &[KeywordAmount],
) -> Result<(), AllocError>
    ensures { OnOk result (slots_view slots.new.items ≡ with_amounts (map amount_view amounts.now) (slots_view slots.old.items)) }
{
    for amount in amounts {
        add_slot(alloc, slots, &amount.keyword, amount.brand)?;
    }
    Ok(())
}

/// The slots of a new seat: those of give, then those of want.
pub(crate) fn new_slots(
    alloc: Global,
    give: &[KeywordAmount],
    want: &[KeywordAmount],
) -> Result<Vec<SlotName>, AllocError>
    ensures { IfOk result (λ slots. slots_view slots.items ≡ with_amounts (map amount_view want.now) (with_amounts (map amount_view give.now) [])) }
{
    let mut slots = Vec::new(alloc);
    add_slots(alloc, &mut slots, give)?;
    add_slots(alloc, &mut slots, want)?;
    Ok(slots)
}

/// Whether it is the slot of the keyword and the brand.
fn is_named(slot: &SlotName, keyword: &str, brand: u16) -> bool
    ensures { result ≡ (bytes_eq keyword.now slot.now.keyword && (brand == slot.now.brand)) }
{
    keyword == slot.keyword.as_str() && brand == slot.brand
}

/// Of contents that stand for slots that of a keyword and a brand, if there is one.
pub(crate) fn content_under<'a>(
    slots: &[SlotName],
    contents: &'a [Contents],
    keyword: &str,
    brand: u16,
) -> Option<&'a Contents>
    ensures { IsLastOf result (content_under keyword.now brand (slots_view slots.now) contents.now) }
{
    for (i, slot) in slots.iter().enumerate() {
        if is_named(slot, keyword, brand) {
            return contents.get(i);
        }
    }
    None
}
