//! The payments of an offer (Zoe).

ghost use Rattle.refusals.specs.host_data.declared.data.ObjKind.TheVariants as kinds;
ghost use Rattle.call_arguments.specs.Arguments.{IsMade, arg};
ghost use Rattle.call_arguments.specs.Numbers.{first_repeated};
ghost use Rattle.ertp_calls.specs.host_world.Worlds.{world_of};
ghost use Rattle.ertp_calls.specs.world_reads.Handed.{AreHanded};
ghost use Rattle.offer_calls.specs.PaymentSteps.{are_paid, paid_by};
ghost use Rattle.refusals.specs.Codes.{bad_args, repeated_payment, wrong_amount};
ghost use Rattle.refusals.specs.Outcomes.{Gives, need, none_such, wanted};
ghost use Rattle.refusals.specs.host_data.View.{named_trees, tree, trees};
ghost use Rattle.rules.specs.GivenPayments.{first_wrong, held_by, is_live_in, payment_view_of, pays};
ghost use Rattle.rules.specs.Zoe.{paid};
ghost use Rattle.rules.specs.Words.{record_in};
ghost use Rattle.rules.specs.world_state.Good.{IsGoodWorld};
ghost use Rattle.rules.specs.world_state.Rights.{kind_at};
ghost use Rattle.std.specs.Prelude.{◌≡◌, ◌<◌, ◌∷◌, All, IfOk, Ok, OnOk, length, true};

use amount_math::Value;
use call_arguments::amounts::check_same;
use call_arguments::numbers::check_apart;
use call_arguments::records::objects_under;
use ertp_calls::draft_reads_lib::payment_reads::{payment_amount, payment_brand, payments_made};
use ertp_calls::host_world_lib::World;
use ertp_calls::live_payments::check_live;
use refusals::host_data_lib::data::{Data, ObjKind};
use refusals::host_text_lib::text::Text;
use refusals::stops::{Stop, wrong_amount};
use rules::proposals_lib::allocations::Share;
use std::alloc::{AllocError, Global};

/// A copy of what a live payment has.
#[tactic(auto, using(amount_math::specs::KindLaws::has_few, ertp_calls::proofs::HeldKinds::held_kind))]
pub(crate) fn value_of(world: &World, payment: u32) -> Result<Value, AllocError>
    requires good { IsGoodWorld (world_of world.now) }
    requires made { payment < length (world_of world.now).rights.payments }
    requires live { is_live_in (world_of world.now) payment ≡ true }
    ensures held { IfOk result (λ value. value ≡ held_by (world_of world.now) payment) }
    ensures kind { IfOk result (λ value. value.kind
        ≡ kind_at (world_of world.now).rights.out (payment_view_of (world_of world.now) payment).brand) }
{
    match payment_amount(&world.draft, payment) {
        Some(held) => held.copy(),
        None => unreachable!(),
    }
}

/// That what a live payment has is just what a share says, of its brand: else `WrongAmount` with what is held and what
/// is named (ERTP).
#[tactic(auto, unfolding(refusals::specs::Outcomes::need))]
fn check_value(world: &World, share: &Share, payment: u32, held: &Value) -> Result<(), Stop>
    requires made { payment < length (world_of world.now).rights.payments }
    requires held { held.now ≡ held_by (world_of world.now) payment }
    requires own { held.now.kind
        ≡ kind_at (world_of world.now).rights.out (payment_view_of (world_of world.now) payment).brand }
    requires kind { share.now.amount.value.kind
        ≡ kind_at (world_of world.now).rights.out share.now.amount.brand }
    ensures { Gives (λ _. tt) result (need (pays (world_of world.now) share.now payment)
        (wrong_amount (held_by (world_of world.now) payment) share.now.amount.value)) }
{
    if payment_brand(&world.draft, payment) != share.amount.brand {
        return Err(wrong_amount(held, &share.amount.value));
    }
    check_same(held, &share.amount.value)
}

/// That a live payment has just what a share says, of its brand: else `WrongAmount` with what is held and what is
/// named (ERTP).
fn check_pays(world: &World, share: &Share, payment: u32) -> Result<(), Stop>
    requires good { IsGoodWorld (world_of world.now) }
    requires made { payment < length (world_of world.now).rights.payments }
    requires live { is_live_in (world_of world.now) payment ≡ true }
    requires kind { share.now.amount.value.kind
        ≡ kind_at (world_of world.now).rights.out share.now.amount.brand }
    ensures { Gives (λ _. tt) result (need (pays (world_of world.now) share.now payment)
        (wrong_amount (held_by (world_of world.now) payment) share.now.amount.value)) }
{
    let held = value_of(world, payment)?;
    check_value(world, share, payment, &held)
}

/// That each payment has just what its share says: else `WrongAmount` of the first that hasn't.
#[tactic(auto, unfolding(refusals::specs::Outcomes::none_such, refusals::specs::Outcomes::need))]
fn check_amounts(world: &World, give: &[Share], payments: &[u32]) -> Result<(), Stop>
    requires good { IsGoodWorld (world_of world.now) }
    requires made { All (λ n. n < length (world_of world.now).rights.payments) payments.now }
    requires live { All (λ n. is_live_in (world_of world.now) n ≡ true) payments.now }
    requires kinds { All (λ r. r.amount.value.kind
        ≡ kind_at (world_of world.now).rights.out r.amount.brand) give.now }
    ensures { Gives (λ _. tt) result (none_such
        (first_wrong (world_of world.now) give.now payments.now) (λ v. wrong_amount v.0 v.1)) }
{
    for (share, payment) in give.iter().zip(payments) {
        check_pays(world, share, *payment)?;
    }
    Ok(())
}

/// A list with one before the others.
fn with_first(alloc: Global, first: u32, others: &[u32]) -> Result<Vec<u32>, AllocError>
    ensures { IfOk result (λ all. all.items ≡ first ∷ others.now) }
{
    let mut all = Vec::with_capacity(alloc, 1 + others.len())?;
    all.push_reserved(first);
    for other in others {
        all.push_reserved(*other);
    }
    Ok(all)
}

/// That no payment is there twice, nor is the invitation's among them: else `RepeatedPayment` (Zoe).
fn check_once(alloc: Global, invitation: u32, payments: &[u32]) -> Result<(), Stop>
    ensures { Gives (λ _. tt) result
        (none_such (first_repeated (invitation ∷ payments.now)) repeated_payment) }
{
    let all = with_first(alloc, invitation, payments)?;
    check_apart(alloc, all.as_slice())
}

/// That payments are live, none there twice nor the invitation's, and each of just what its share says: else
/// `DeadPayment`, `RepeatedPayment`, `WrongAmount`, each over all of them before the next.
#[tactic(auto, unfolding(crate::specs::PaymentSteps::are_paid, refusals::specs::Outcomes::bind))]
fn check_payments(
    alloc: Global,
    world: &World,
    invitation: u32,
    give: &[Share],
    payments: &[u32],
) -> Result<(), Stop>
    requires good { IsGoodWorld (world_of world.now) }
    requires made { All (λ n. n < length (world_of world.now).rights.payments) payments.now }
    requires kinds { All (λ r. r.amount.value.kind
        ≡ kind_at (world_of world.now).rights.out r.amount.brand) give.now }
    ensures gives { Gives (λ _. tt) result
        (are_paid (world_of world.now) invitation give.now payments.now) }
    ensures live { OnOk result (All (λ n. is_live_in (world_of world.now) n ≡ true) payments.now) }
{
    check_live(world, payments)?;
    check_once(alloc, invitation, payments)?;
    check_amounts(world, give, payments)
}

/// The payments of fields, of which those that are objects were made, in the order of the shares of give.
#[tactic(auto, unfolding(crate::specs::PaymentSteps::paid_by, refusals::specs::Outcomes::bind))]
fn payments_under(
    alloc: Global,
    world: &World,
    invitation: u32,
    give: &[Share],
    given: &[(Text, Data)],
) -> Result<Vec<u32>, Stop>
    requires good { IsGoodWorld (world_of world.now) }
    requires known { All (λ f. IsMade kinds.Payment
        (length (world_of world.now).rights.payments) (tree f.1)) given.now }
    requires kinds { All (λ r. r.amount.value.kind
        ≡ kind_at (world_of world.now).rights.out r.amount.brand) give.now }
    ensures gives { Gives (λ ns. ns.items) result
        (paid_by (world_of world.now) invitation give.now (named_trees given.now)) }
    ensures made { IfOk result (λ ns.
        All (λ n. n < length (world_of world.now).rights.payments) ns.items) }
    ensures live { IfOk result (λ ns. All (λ n. is_live_in (world_of world.now) n ≡ true) ns.items) }
{
    let made = payments_made(&world.draft);
    let payments = objects_under(alloc, ObjKind::Payment, made, 3, given)?;
    check_payments(alloc, world, invitation, give, payments.as_slice())?;
    Ok(payments)
}

/// Payments in the order of the shares of give (Zoe): `WrongObject` 3, `DeadPayment`, `RepeatedPayment`,
/// `WrongAmount`, each over all of them before the next.
pub fn read_payments(
    alloc: Global,
    world: &World,
    invitation: u32,
    give: &[Share],
    args: &[Data],
    given: &[(Text, Data)],
) -> Result<Vec<u32>, Stop>
    requires good { IsGoodWorld (world_of world.now) }
    requires handed { AreHanded (world_of world.now) (trees args.now) }
    requires given { wanted (record_in (arg 3 (trees args.now))) (bad_args 3)
        ≡ Ok (named_trees given.now) }
    requires kinds { All (λ r. r.amount.value.kind
        ≡ kind_at (world_of world.now).rights.out r.amount.brand) give.now }
    ensures gives { Gives (λ ns. ns.items) result
        (paid (world_of world.now) invitation give.now (named_trees given.now)) }
    ensures made { IfOk result (λ ns.
        All (λ n. n < length (world_of world.now).rights.payments) ns.items) }
    ensures live { IfOk result (λ ns. All (λ n. is_live_in (world_of world.now) n ≡ true) ns.items) }
{
    payments_under(alloc, world, invitation, give, given)
}
