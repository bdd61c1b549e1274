//! Payments, by their numbers.

ghost use Rattle.std.specs.Prelude.{◌≡◌, ◌<◌, ◌+◌, IfSome, length, option_map};
ghost use Rattle.world_laws.specs.amount_math.ValueView.{IsValue};
ghost use Rattle.world_laws.specs.ertp_mint.Stocks.{most_made};
ghost use Rattle.vault.specs.holders.PaymentViews.{IsKept, is_live, payment_view_at};
ghost use Rattle.world_laws.specs.Views.{rights_of, seats_of};
ghost use Rattle.world_laws.specs.world_state.Good.{open_slots};

use vault::draft::Draft;
use vault::holders_lib::payments::{PaymentRef, Payments};
use world_laws::amount_math_lib::Holding;

/// How many payments were made: the number that the next one gets.
pub fn payments_made(draft: &Draft) -> u32
    ensures { result ≡ length draft.now.now.payments }
{
    draft.payments().made()
}

/// How many payments can be made yet: one is left for each slot of an open seat.
#[tactic(auto, using(crate::proofs::WorldLists::owed_slots))]
pub fn payments_left(draft: &Draft) -> u32
    ensures { result + (length draft.now.now.payments
        + open_slots (seats_of draft.now.now) (rights_of draft.now.now).slots) ≡ most_made }
{
    draft.valid();
    draft.payments().left()
}

/// The brand of a payment, of one that was spent too.
pub fn payment_brand(draft: &Draft, payment: u32) -> u16
    requires { payment < length draft.now.now.payments }
    ensures { result ≡ (payment_view_at draft.now.now.payments payment).brand }
{
    let payments = draft.payments();
    payments.brand(ref_of(payments, payment))
}

/// Whether a payment is live.
pub fn is_live(draft: &Draft, payment: u32) -> bool
    requires { payment < length draft.now.now.payments }
    ensures { result ≡ is_live (payment_view_at draft.now.now.payments payment) }
{
    let payments = draft.payments();
    payments.is_live(ref_of(payments, payment))
}

/// What a payment has, where it is live.
pub fn payment_amount(draft: &Draft, payment: u32) -> Option<&Holding>
    requires { payment < length draft.now.now.payments }
    ensures held { option_map (λ held. held.now.value) result
        ≡ (payment_view_at draft.now.now.payments payment).held }
    ensures value { IfSome result (λ held. IsValue held.now.value.kind held.now.value.content) }
{
    let payments = draft.payments();
    match payments.amount(ref_of(payments, payment)) {
        Ok(held) => Some(held),
        Err(_) => None,
    }
}

/// Where the payment of a number stands, which was made.
fn ref_of(payments: &Payments, payment: u32) -> PaymentRef
    requires { payment < length payments.now.views }
    ensures kept { IsKept payments.now result }
    ensures number { result.number ≡ payment }
{
    let _made = payments.made();
    match payments.find(payment) {
        Some(found) => found,
        None => unreachable!(),
    }
}
