//! Tests of shares by the brands that an instance keeps, by that of a mint, and by what stands in slots.

ghost use Rattle.std.specs.Prelude.{◌≡◌, ◌<◌, ◌^◌, ◌||◌, Bool, false, IsTrue};
ghost use Rattle.rules.specs.call_arguments.Records.{ShareData, share_data};
ghost use Rattle.contract_reads.specs.Brands.{HasSmallBrand};
ghost use Rattle.rules.specs.Proposals.{is_known};
ghost use Rattle.rules.specs.Given.{is_misfit as is_foreign, is_other};
ghost use Rattle.rules.specs.Zmint.{is_not_of};

use rules::brands_lib::issuer_record::Issuer;
use rules::call_arguments_lib::records::GivenShare;
use rules::proposals_lib::allocations::Share;

/// A test of a share by its keyword and its brand.
pub trait ShareTest {
    ghost is_misfit: { Self → ShareData → Bool };

    /// Whether a share fails. One that doesn't names a brand of 16 bits.
    fn fails(&self, share: &GivenShare) -> bool
        ensures is { result ≡ is_misfit self.now (share_data share.now) }
        ensures small { result ≡ false → HasSmallBrand share.now };
}

/// Whether a brand is among those that an instance keeps.
fn is_known(issuers: &[Issuer], brand: u32) -> bool
    ensures is { result ≡ is_known issuers.now brand }
    ensures small { IsTrue result → brand < 2 ^ 16 }
{
    for issuer in issuers {
        if u32::from(issuer.brand) == brand {
            return true;
        }
    }
    false
}

/// Whether shares have another brand under the keyword of a share.
fn is_other(shares: &[Share], given: &GivenShare) -> bool
    ensures { result ≡ is_other shares.now (share_data given.now) }
{
    for share in shares {
        if given.keyword.as_str() == share.keyword.as_str() {
            return u32::from(share.amount.brand) != given.amount.brand;
        }
    }
    false
}

/// Shares of brands that an instance doesn't keep, or of others than its seat's slots have (Zoe).
#[derive(Clone, Copy)]
pub struct Foreign<'a> {
    pub issuers: &'a [Issuer],
    pub slots: &'a [Share],
}

impl ShareTest for Foreign<'_> {
    ghost is_misfit = { λ test r. is_foreign test.issuers.now test.slots.now r };

    fn fails(&self, share: &GivenShare) -> bool {
        !is_known(self.issuers, share.amount.brand) || is_other(self.slots, share)
    }
}

/// The same, or of others than what is staged of the seat has (Zoe).
#[derive(Clone, Copy)]
pub struct ForeignStaged<'a> {
    pub foreign: Foreign<'a>,
    pub staged: &'a [Share],
}

impl ShareTest for ForeignStaged<'_> {
    ghost is_misfit = { λ test r.
        is_foreign test.foreign.issuers.now test.foreign.slots.now r || is_other test.staged.now r };

    fn fails(&self, share: &GivenShare) -> bool {
        self.foreign.fails(share) || is_other(self.staged, share)
    }
}

/// Shares of other brands than a mint's, or than a seat's slots have (Zoe).
#[derive(Clone, Copy)]
pub struct NotOf<'a> {
    pub brand: u16,
    pub slots: &'a [Share],
}

impl ShareTest for NotOf<'_> {
    ghost is_misfit = { λ test r. is_not_of test.brand test.slots.now r };

    fn fails(&self, share: &GivenShare) -> bool {
        share.amount.brand != u32::from(self.brand) || is_other(self.slots, share)
    }
}
