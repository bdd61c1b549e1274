//! Laws of the tests of values. The body is empty: what it states is proved of the definitions.

ghost use Rattle.std.specs.Prelude.{◌≡◌, ◌↔◌, true, Ok};
ghost use Rattle.refusals.specs.amount_math.Content.{Contains, Content};
ghost use Rattle.refusals.specs.amount_math.ValueView.{Fits, HasFew, ValueView, with_content};
ghost use Rattle.refusals.specs.amount_math.declared.Kind.{Kind};
ghost use Rattle.transit.specs.ertp_mint.BrandSupply.{BrandSupply, MayIssue};
ghost use Rattle.value_tests.specs.Causes.{FailsExactly, IsCountCause, IsMintCause, IsOverlapCause, IsPutCause, PassesExactly, ShowsNoOverlap};
ghost use Rattle.value_tests.specs.Tests.{can_come_out, counts_fit, has, overlap_free, value_fits};

/// A test passes exactly where the rule of amounts holds (ERTP), and is refused exactly where it doesn't,
/// with the first fault: what is held has what is asked; no count passes its bound; nor does the number of
/// keys. What comes out of a brand is tested as it is issued: its counts first, then what was minted in all.
pub fn checks_are_exact()
    ensures has { (a b : ValueView) → (has a b ≡ true) ↔ Contains a.content b.content }
    ensures value { (kind : Kind) (c : Content) → PassesExactly (value_fits kind c) (Fits kind c × HasFew kind c) }
    ensures value_refused { (kind : Kind) (c : Content) → FailsExactly (value_fits kind c) (IsPutCause kind c) }
    ensures counts { (kind : Kind) (c : Content) → PassesExactly (counts_fit kind c) (Fits kind c) }
    ensures counts_refused { (kind : Kind) (c : Content) → FailsExactly (counts_fit kind c) (IsCountCause kind c) }
    ensures out { (s : BrandSupply) (c : Content) →
        PassesExactly (can_come_out s c) (MayIssue s (with_content s.outstanding c)) }
    ensures out_refused { (s : BrandSupply) (c : Content) → FailsExactly (can_come_out s c) (IsMintCause s c) }
    ensures overlap_refused { (kind : Kind) (c : Content) → FailsExactly (overlap_free kind c) (IsOverlapCause kind c) }
    ensures then_too_much { (kind : Kind) (c : Content) → overlap_free kind c ≡ Ok tt → ShowsNoOverlap (value_fits kind c) }
{}
