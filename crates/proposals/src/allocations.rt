//! Allocations: an amount under each of at most 64 keywords, in the order of adding.

ghost use Rattle.std.specs.Prelude.{◌≡◌, ◌<◌, ◌↔◌, ◌++◌, ◌∷◌, [], None, length, string_bytes, IfOk, IsTrue, OnErr, OnOk};
ghost use Rattle.std.specs.Option.{option_copied};
ghost use Rattle.indexmap.specs.IndexMap.{values};
ghost use Rattle.proposals.specs.Shares.{AreKeyed, AreShares, amount_under, most_shares, keyed_share};

use host_data::amount_math_lib::Amount;
use host_data::host_text_lib::keyword::Keyword;
use indexmap::IndexMap;
use std::alloc::{AllocError, Global};
use std::marker::Model;

/// The most shares of an allocation (own).
pub const MOST_SHARES: usize = 64;

/// An amount under a keyword.
pub struct Share {
    pub keyword: Keyword,
    pub amount: Amount,
}

impl Drop for Share {
    fn drop(self) {
        let Share {
            keyword: _,
            amount: _,
        } = self;
    }
}

impl Share {
    /// A copy. The keyword and the keys of a value take memory.
    pub fn copy(&self, alloc: Global) -> Result<Share, AllocError>
        ensures { IfOk result (λ copy. copy ≡ self.now) }
    {
        Ok(Share {
            keyword: self.keyword.copy(alloc)?,
            amount: Amount {
                brand: self.amount.brand,
                value: self.amount.value.copy()?,
            },
        })
    }
}

/// A record from keyword to amount (Zoe's AmountKeywordRecord). It keeps the order of adding (own).
/// Contracts see it as its shares.
pub struct Allocation {
    /// Each share by the text of its keyword.
    shares: IndexMap<String, Share>,
}

impl Drop for Allocation {
    fn drop(self) {
        let Allocation { shares: _ } = self;
    }
}

impl Model for Allocation {
    ghost use Rattle.std.specs.Prelude.{List};
    ghost use Rattle.std.specs.Coded.{coded_list};
    ghost use Rattle.proposals.specs.declared.allocations.Share.{Share};
    ghost use Rattle.indexmap.specs.IndexMap.{values};
    ghost use Rattle.proposals.specs.Shares.{AreKeyed, coded_share};

    ghost Value = { List Share };

    ghost coded = { coded_list coded_share };

    ghost view = { λ a. values a.shares };

    ghost invariant = { λ a. AreKeyed a.shares.entries };
}

impl Allocation {
    /// An allocation without shares.
    pub fn new(alloc: Global) -> Allocation
        ensures { result ≡ [] }
    {
        Allocation {
            shares: IndexMap::new(alloc),
        }
    }

    /// The allocation of shares, each of a keyword of its own.
    pub fn from_shares(alloc: Global, shares: Vec<Share>) -> Result<Allocation, AllocError>
        requires { AreShares shares.items }
        ensures { IfOk result (λ a. a ≡ shares.items) }
    {
        let mut made = Allocation::new(alloc);
        for share in shares {
            made.add(alloc, share)?;
        }
        Ok(made)
    }

    /// How many shares it has.
    pub fn len(&self) -> usize
        ensures { result ≡ length self.now }
    {
        self.shares.len()
    }

    /// Whether it has no shares.
    pub fn is_empty(&self) -> bool
        ensures { IsTrue result ↔ (self.now ≡ []) }
    {
        self.shares.is_empty()
    }

    /// Its shares, in their order.
    pub fn shares(&self) -> &[Share]
        ensures value { result.now ≡ self.now }
        ensures shares { AreShares self.now }
    {
        self.shares.values().as_slice()
    }

    /// What stands under a keyword.
    pub fn get(&self, keyword: &Keyword) -> Option<&Amount>
        ensures { option_copied result ≡ amount_under keyword.now self.now }
    {
        let share = self.shares.get(keyword.as_str())?;
        Some(&share.amount)
    }

    /// Adds a share of a keyword that isn't there, last. On an error all is as before.
    pub fn push(
        &mut self,
        alloc: Global,
        keyword: Keyword,
        amount: Amount,
    ) -> Result<(), AllocError>
        requires free { amount_under keyword self.old ≡ None }
        requires room { length self.old < most_shares }
        ensures ok { OnOk result (self.new ≡ self.old ++ keyed_share keyword amount ∷ []) }
        ensures err { OnErr result (self.new ≡ self.old) }
    {
        self.add(alloc, Share { keyword, amount })
    }

    /// Adds a share of a keyword that isn't there, last. On an error all is as before.
    fn add(&mut self, alloc: Global, share: Share) -> Result<(), AllocError>
        requires free { amount_under share.keyword self.old ≡ None }
        requires room { length self.old < most_shares }
        ensures ok { OnOk result (self.new ≡ self.old ++ share ∷ []) }
        ensures err { OnErr result (self.new ≡ self.old) }
    {
        let name = String::from_str(alloc, share.keyword.as_str())?;
        insert(&mut self.shares, name, share)
    }

    /// Adds a copy of a share of a keyword that isn't there, last. On an error all is as before.
    fn add_copy(&mut self, alloc: Global, share: &Share) -> Result<(), AllocError>
        requires free { amount_under share.now.keyword self.old ≡ None }
        requires room { length self.old < most_shares }
        ensures ok { OnOk result (self.new ≡ self.old ++ share.now ∷ []) }
        ensures err { OnErr result (self.new ≡ self.old) }
    {
        let copy = share.copy(alloc)?;
        self.add(alloc, copy)
    }

    /// A copy, which equals the original.
    pub fn copy(&self, alloc: Global) -> Result<Allocation, AllocError>
        ensures { IfOk result (λ copy. copy ≡ self.now) }
    {
        let mut made = Allocation::new(alloc);
        for share in self.shares() {
            made.add_copy(alloc, share)?;
        }
        Ok(made)
    }
}

/// Enters a share under the text of its keyword, which isn't there, last. On an error all is as before.
fn insert(
    shares: &mut IndexMap<String, Share>,
    name: String,
    share: Share,
) -> Result<(), AllocError>
    requires named { string_bytes name ≡ share.keyword }
    requires keyed { AreKeyed shares.old.entries }
    requires free { amount_under share.keyword (values shares.old) ≡ None }
    requires room { length (values shares.old) < most_shares }
    ensures ok { OnOk result (values shares.new ≡ values shares.old ++ share ∷ []) }
    ensures err { OnErr result (values shares.new ≡ values shares.old) }
    ensures keyed { AreKeyed shares.new.entries }
{
    match shares.insert(name, share) {
        Ok(_) => Ok(()),
        Err(_) => Err(AllocError),
    }
}
