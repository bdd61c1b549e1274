//! Payments that are given for shares.

ghost use Rattle.std.specs.Prelude.{◌≡◌, ◌<◌, ◌++◌, ◌==◌, ◌&&◌, [], ◌∷◌, Ok, true, All, IfOk, OnOk, length};
ghost use Rattle.rules.specs.call_arguments.Amounts.{is_same};
ghost use Rattle.rules.specs.call_arguments.Arguments.{record_at};
ghost use Rattle.rules.specs.call_arguments.Numbers.{AreApart};
ghost use Rattle.contract_reads.specs.Known.{AreKnown};
ghost use Rattle.escrow_calls.specs.PaymentParts.{apart_payments, given_payments, live_payments};
ghost use Rattle.ertp_calls.specs.host_world.Worlds.{world_of};
ghost use Rattle.host_data.specs.View.{named_trees, trees};
ghost use Rattle.rules.specs.call_arguments.Keywords.{texts};
ghost use Rattle.rules.specs.call_arguments.Records.{names};
ghost use Rattle.refusals.specs.Codes.{keyword_mismatch, wrong_amount};
ghost use Rattle.refusals.specs.Outcomes.{Gives, need, none_such};
ghost use Rattle.rules.specs.rights_model.Table.{movement};
ghost use Rattle.contract_reads.specs.Calls.{AreOfKinds};
ghost use Rattle.rules.specs.GivenPayments.{escrows_of, first_wrong, held_by, is_live_in, pays};
ghost use Rattle.rules.specs.Proposals.{least_alone};
ghost use Rattle.rules.specs.Zcf.{share_names};
ghost use Rattle.rules.specs.world_state.Good.{IsGoodWorld};
ghost use Rattle.rules.specs.world_state.Rights.{kind_at};

use ertp_calls::draft_reads_lib::payment_reads::{payment_amount, payment_brand, payments_made};
use ertp_calls::host_world_lib::World;
use ertp_calls::live_payments::check_live;
use host_data::data::{Data, ObjKind};
use refusals::amount_math_lib::Value;
use refusals::host_text_lib::text::Text;
use refusals::stops::{Stop, wrong_amount};
use rules::call_arguments_lib::amounts::check_same as check_amount;
use rules::call_arguments_lib::keyword_arguments::{check_same, field_names};
use rules::call_arguments_lib::numbers::check_apart;
use rules::call_arguments_lib::places::record_at;
use rules::call_arguments_lib::records::objects_under;
use rules::proposals_lib::allocations::Share;
use rules::rights_model_lib::{Holder, Movement};
use std::alloc::{AllocError, Global};

/// The keywords of shares, in their order.
fn names_of<'a>(alloc: Global, shares: &'a [Share]) -> Result<Vec<&'a str>, AllocError>
    ensures { IfOk result (λ found. texts found.items ≡ share_names shares.now) }
{
    let mut found = Vec::new(alloc);
    for share in shares {
        found.push(share.keyword.as_str())?;
    }
    Ok(found)
}

/// That payments stand under just the keywords of shares: else `KeywordMismatch` with the least that stands in one
/// alone (Zoe).
#[tactic(auto, using(crate::proofs::Names::alone_same))]
fn check_named(alloc: Global, shares: &[Share], given: &[(Text, Data)]) -> Result<(), Stop>
    ensures { Gives (λ _. tt) result (none_such
        (least_alone (share_names shares.now) (names (named_trees given.now))) keyword_mismatch) }
{
    let keywords = names_of(alloc, shares)?;
    let names = field_names(alloc, given)?;
    check_same(alloc, keywords.as_slice(), names.as_slice())
}

/// That a value of a brand is just what a share says: else `WrongAmount` with both values (ERTP).
#[tactic(auto, unfolding(refusals::specs::Outcomes::need))]
fn check_value(held: &Value, brand: u16, share: &Share) -> Result<(), Stop>
    requires { brand ≡ share.now.amount.brand → held.now.kind ≡ share.now.amount.value.kind }
    ensures { Gives (λ _. tt) result (need
        (brand == share.now.amount.brand && is_same held.now share.now.amount.value)
        (wrong_amount held.now share.now.amount.value)) }
{
    if brand != share.amount.brand {
        return Err(wrong_amount(held, &share.amount.value));
    }
    check_amount(held, &share.amount.value)
}

/// That a live payment has just what a share says, of its brand: else `WrongAmount` with what is held and what is
/// named (ERTP).
#[tactic(auto, using(ertp_calls::proofs::HeldKinds::held_kind))]
fn check_pays(world: &World, share: &Share, payment: u32) -> Result<(), Stop>
    requires good { IsGoodWorld (world_of world.now) }
    requires made { payment < length (world_of world.now).rights.payments }
    requires live { is_live_in (world_of world.now) payment ≡ true }
    requires kind { share.now.amount.value.kind
        ≡ kind_at (world_of world.now).rights.out share.now.amount.brand }
    ensures { Gives (λ _. tt) result (need (pays (world_of world.now) share.now payment)
        (wrong_amount (held_by (world_of world.now) payment) share.now.amount.value)) }
{
    let Some(held) = payment_amount(&world.draft, payment) else {
        unreachable!()
    };
    let held = held.copy()?;
    check_value(&held, payment_brand(&world.draft, payment), share)
}

/// That each payment has just what its share says: else `WrongAmount` of the first that hasn't.
#[tactic(auto, unfolding(refusals::specs::Outcomes::none_such, refusals::specs::Outcomes::need))]
fn check_amounts(world: &World, shares: &[Share], payments: &[u32]) -> Result<(), Stop>
    requires good { IsGoodWorld (world_of world.now) }
    requires made { All (λ n. n < length (world_of world.now).rights.payments) payments.now }
    requires live { All (λ n. is_live_in (world_of world.now) n ≡ true) payments.now }
    requires kinds { AreOfKinds (world_of world.now) shares.now }
    ensures { Gives (λ _. tt) result (none_such (first_wrong (world_of world.now) shares.now payments.now)
        (λ v. wrong_amount v.0 v.1)) }
{
    for (place, share) in shares.iter().enumerate() {
        let Some(payment) = payments.get(place) else {
            return Ok(());
        };
        check_pays(world, share, *payment)?;
    }
    Ok(())
}

/// The payments under the keywords of a record, which are live: `WrongObject` 3, `DeadPayment` (Zoe).
#[tactic(auto, using(crate::proofs::KnownFields::payments_known), unfolding(crate::specs::PaymentParts::live_payments, refusals::specs::Outcomes::bind))]
fn live_payments(
    alloc: Global,
    world: &World,
    args: &[Data],
    given: &[(Text, Data)],
) -> Result<Vec<u32>, Stop>
    requires known { AreKnown (world_of world.now) (trees args.now) }
    requires given { record_at 3 (trees args.now) ≡ Ok (named_trees given.now) }
    ensures gives { Gives (λ ns. ns.items) result
        (live_payments (world_of world.now) (named_trees given.now)) }
    ensures made { IfOk result (λ ns.
        All (λ n. n < length (world_of world.now).rights.payments) ns.items) }
    ensures live { IfOk result (λ ns. All (λ n. is_live_in (world_of world.now) n ≡ true) ns.items) }
{
    let made = payments_made(&world.draft);
    let payments = objects_under(alloc, ObjKind::Payment, made, 3, given)?;
    check_live(world, payments.as_slice())?;
    Ok(payments)
}

/// The payments for shares, in the order of the shares: `KeywordMismatch`, `WrongObject` 3, `DeadPayment`,
/// `RepeatedPayment`, each over all of them before the next (Zoe).
#[tactic(auto, unfolding(crate::specs::PaymentParts::apart_payments, refusals::specs::Outcomes::bind))]
fn apart_payments(
    alloc: Global,
    world: &World,
    shares: &[Share],
    args: &[Data],
    given: &[(Text, Data)],
) -> Result<Vec<u32>, Stop>
    requires known { AreKnown (world_of world.now) (trees args.now) }
    requires given { record_at 3 (trees args.now) ≡ Ok (named_trees given.now) }
    ensures gives { Gives (λ ns. ns.items) result
        (apart_payments (world_of world.now) shares.now (named_trees given.now)) }
    ensures made { IfOk result (λ ns.
        All (λ n. n < length (world_of world.now).rights.payments) ns.items) }
    ensures live { IfOk result (λ ns. All (λ n. is_live_in (world_of world.now) n ≡ true) ns.items) }
    ensures apart { IfOk result (λ ns. AreApart ns.items) }
{
    check_named(alloc, shares, given)?;
    let payments = live_payments(alloc, world, args, given)?;
    check_apart(alloc, payments.as_slice())?;
    Ok(payments)
}

/// The payments for shares, in the record at the third place and in the order of the shares: else `BadArgs` 3 or what
/// that record is refused for, then `KeywordMismatch`, `WrongObject` 3, `DeadPayment`, `RepeatedPayment`,
/// `WrongAmount`, each over all of them before the next (Zoe).
#[tactic(auto, unfolding(crate::specs::PaymentParts::given_payments, crate::specs::PaymentParts::tested_payments, refusals::specs::Outcomes::bind))]
pub(crate) fn given_payments(
    alloc: Global,
    world: &World,
    shares: &[Share],
    args: &[Data],
) -> Result<Vec<u32>, Stop>
    requires good { IsGoodWorld (world_of world.now) }
    requires known { AreKnown (world_of world.now) (trees args.now) }
    requires kinds { AreOfKinds (world_of world.now) shares.now }
    ensures gives { Gives (λ ns. ns.items) result
        (given_payments (world_of world.now) shares.now (trees args.now)) }
    ensures apart { IfOk result (λ ns. AreApart ns.items) }
{
    let given = record_at(3, args)?;
    let payments = apart_payments(alloc, world, shares, args, given)?;
    check_amounts(world, shares, payments.as_slice())?;
    Ok(payments)
}

/// What a share says goes from a payment to its slot.
fn escrow(alloc: Global, seat: u32, share: &Share, payment: u32) -> Result<Movement, AllocError>
    ensures { IfOk result (λ m. m ≡ movement share.now.amount.brand (Holder.Payment payment)
        (Holder.Slot seat share.now.keyword) share.now.amount.value) }
{
    let keyword = share.keyword.copy(alloc)?;
    let value = share.amount.value.copy()?;
    Ok(Movement {
        brand: share.amount.brand,
        from: Holder::Payment(payment),
        to: Holder::Slot(seat, keyword),
        value,
    })
}

/// Adds that what a share says goes from a payment to its slot.
fn add_escrow(
    alloc: Global,
    escrows: &mut Vec<Movement>,
    seat: u32,
    share: &Share,
    payment: u32,
) -> Result<(), AllocError>
    ensures { OnOk result (escrows.new.items ≡ escrows.old.items ++ movement share.now.amount.brand
        (Holder.Payment payment) (Holder.Slot seat share.now.keyword) share.now.amount.value ∷ []) }
{
    escrows.push(escrow(alloc, seat, share, payment)?)?;
    Ok(())
}

/// Each payment goes whole to the slot of its share.
pub fn escrows_of(
    alloc: Global,
    seat: u32,
    shares: &[Share],
    payments: &[u32],
) -> Result<Vec<Movement>, AllocError>
    ensures { IfOk result (λ ms. ms.items ≡ escrows_of seat shares.now payments.now) }
{
    let mut escrows = Vec::new(alloc);
    for (place, share) in shares.iter().enumerate() {
        let Some(payment) = payments.get(place) else {
            return Ok(escrows);
        };
        add_escrow(alloc, &mut escrows, seat, share, *payment)?;
    }
    Ok(escrows)
}
