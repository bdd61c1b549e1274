//! The slots of a seat as a list of any length: what stands in them, what they cover, and their allocation.

ghost use Rattle.std.specs.Prelude.{◌≡◌, ◌<◌, ◌≤◌, ◌↔◌, ◌++◌, IfErr, IfOk, IsOk, IsTrue, OnErr, OnOk, length};
ghost use Rattle.std.specs.Option.{option_copied};
ghost use Rattle.proposals.specs.ChangedShares.{further};
ghost use Rattle.proposals.specs.OfferSafety.{AreCovered, IsCovered, IsOfferSafe, MeetSlots, MeetsSlot};
ghost use Rattle.proposals.specs.Shares.{AreApart, AreShares, amount_under, most_shares};

use crate::allocations::{Allocation, MOST_SHARES, Share};
use crate::offers::{Proposal, in_byte_order};
use host_data::amount_math_lib::Amount;
use host_data::host_text_lib::keyword::Keyword;
use std::alloc::{AllocError, Global};

/// Why slots are no allocation: they are more than 64 (`MOST_ROWS`), or memory is wanted.
#[derive(Clone, Copy, PartialEq, Eq)]
pub enum SlotsFault {
    Limit,
    NoMemory,
}

/// What stands in the slot of a keyword.
pub fn amount_of<'a>(slots: &'a [Share], keyword: &Keyword) -> Option<&'a Amount>
    ensures { option_copied result ≡ amount_under keyword.now slots.now }
{
    for slot in slots {
        if keyword.is(&slot.keyword) {
            return Some(&slot.amount);
        }
    }
    None
}

/// Whether the slot of a share's keyword contains its content. A keyword without slot has nothing.
pub fn is_covered(slots: &[Share], share: &Share) -> bool
    requires { MeetsSlot slots.now share.now }
    ensures { IsTrue result ↔ IsCovered slots.now share.now }
{
    match amount_of(slots, &share.keyword) {
        Some(slot) => slot.value.is_gte(&share.amount.value),
        None => share.amount.is_empty(),
    }
}

/// Whether slots cover each of the shares.
pub fn covers(slots: &[Share], shares: &[Share]) -> bool
    requires { MeetSlots slots.now shares.now }
    ensures { IsTrue result ↔ AreCovered slots.now shares.now }
{
    for share in shares {
        if !is_covered(slots, share) {
            return false;
        }
    }
    true
}

/// Whether slots cover all that a proposal wants, or all that it gives (Zoe's offer safety).
pub fn is_offer_safe(slots: &[Share], proposal: &Proposal) -> bool
    requires want { MeetSlots slots.now proposal.now.want }
    requires give { MeetSlots slots.now proposal.now.give }
    ensures { IsTrue result ↔ IsOfferSafe proposal.now slots.now }
{
    covers(slots, proposal.want.shares()) || covers(slots, proposal.give.shares())
}

/// The allocation of slots, which are at most 64 (own).
pub fn allocation_of(alloc: Global, slots: Vec<Share>) -> Result<Allocation, SlotsFault>
    requires { AreApart slots.items }
    ensures ok { IfOk result (λ allocation. allocation ≡ slots.items) }
    ensures few { IsOk result → length slots.items ≤ most_shares }
    ensures limit { IfErr result (λ fault. fault ≡ SlotsFault.Limit → most_shares < length slots.items) }
{
    if slots.len() > MOST_SHARES {
        return Err(SlotsFault::Limit);
    }
    match Allocation::from_shares(alloc, slots) {
        Ok(allocation) => Ok(allocation),
        Err(_) => Err(SlotsFault::NoMemory),
    }
}

/// Adds to what slots have become the shares of keywords that had no slot, in byte order. On an error all
/// is as before.
pub fn open_further(
    alloc: Global,
    after: &mut Vec<Share>,
    slots: &[Share],
    shares: &[Share],
) -> Result<(), AllocError>
    ensures ok { OnOk result (after.new.items ≡ after.old.items ++ further slots.now shares.now) }
    ensures err { OnErr result (after.new.items ≡ after.old.items) }
{
    let mut more = further(alloc, slots, shares)?;
    after.append(&mut more)?;
    Ok(())
}

/// Copies of the shares whose keywords have no slot, in byte order.
pub fn further(alloc: Global, slots: &[Share], shares: &[Share]) -> Result<Vec<Share>, AllocError>
    ensures { IfOk result (λ more. more.items ≡ further slots.now shares.now) }
{
    let mut more = in_byte_order(alloc, shares)?;
    more.retain(|share| amount_of(slots, &share.keyword).is_none());
    Ok(more)
}
