//! The slots of one seat: what is stored under each keyword, in the order of opening.
ghost use Rattle.std.specs.Prelude.{◌≡◌, IfOk, OnOk, map};
ghost use Rattle.seats.specs.Slots.{empty_slot, place_of, share_in, shares_in};

use ertp_mint::Balance;
use ertp_mint::amount_math_lib::Amount;
use proposals::allocations::Share;
use proposals::host_text_lib::keyword::Keyword;
use std::alloc::{AllocError, Global};
use std::marker::Model;

pub(crate) struct Slot {
    pub(crate) keyword: Keyword,
    pub(crate) balance: Balance,
}

impl Drop for Slot {
    fn drop(self) {
        let Slot {
            keyword: _,
            balance: _,
        } = self;
    }
}

impl Model for Slot {
    ghost use Rattle.seats.specs.Slots.{SlotView, coded_slot};

    ghost Value = { SlotView };

    ghost coded = { coded_slot };

    ghost view = { λ a. record { keyword = a.keyword; stored = a.balance } };
}

impl Slot {
    /// A slot of a share's keyword and brand, with nothing.
    fn empty(alloc: Global, share: &Share) -> Result<Slot, AllocError>
        ensures { IfOk result (λ slot. slot ≡ empty_slot share.now) }
    {
        let keyword = share.keyword.copy(alloc)?;
        let amount = &share.amount;
        Ok(Slot {
            keyword,
            balance: Balance::empty(alloc, amount.brand, amount.value.kind()),
        })
    }

    /// What it has, as a share. Keys and the keyword take memory.
    fn share(&self, alloc: Global) -> Result<Share, AllocError>
        ensures { IfOk result (λ share. share ≡ share_in self.now) }
    {
        Ok(Share {
            keyword: self.keyword.copy(alloc)?,
            amount: Amount {
                brand: self.balance.brand(),
                value: self.balance.holding().copy()?,
            },
        })
    }
}

/// Where the slot of a keyword stands, or how many slots there are where it has none.
pub(crate) fn place_of(slots: &[Slot], keyword: &Keyword) -> usize
    ensures { result ≡ place_of keyword.now slots.now }
{
    for (place, slot) in slots.iter().enumerate() {
        if keyword.is(&slot.keyword) {
            return place;
        }
    }
    slots.len()
}

/// A slot for each share, with nothing of its brand.
pub(crate) fn empty_slots(alloc: Global, shares: &[Share]) -> Result<Vec<Slot>, AllocError>
    ensures { IfOk result (λ slots. slots.items ≡ map empty_slot shares.now) }
{
    let mut slots = Vec::new(alloc);
    for share in shares {
        slots.push(Slot::empty(alloc, share)?)?;
    }
    Ok(slots)
}

/// What the slots have.
pub(crate) fn shares_of(alloc: Global, slots: &[Slot]) -> Result<Vec<Share>, AllocError>
    ensures { IfOk result (λ shares. shares.items ≡ shares_in slots.now) }
{
    let mut shares = Vec::new(alloc);
    for slot in slots {
        shares.push(slot.share(alloc)?)?;
    }
    Ok(shares)
}
