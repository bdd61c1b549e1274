//! Payments of a brand that a call lists, and the numbers of payments that are made next.

ghost use Rattle.rules.specs.call_arguments.Numbers.{AreApart, first_repeated};
ghost use Rattle.ertp_calls.specs.Views.{live_view};
ghost use Rattle.ertp_calls.specs.host_world.Worlds.{world_of};
ghost use Rattle.ertp_calls.specs.world_reads.Handed.{AreHanded};
ghost use Rattle.issuer_calls.specs.Steps.{live_of};
ghost use Rattle.refusals.specs.Codes.{repeated_payment, wrong_brand};
ghost use Rattle.refusals.specs.Outcomes.{Gives, bind, none_such};
ghost use Rattle.refusals.specs.host_data.View.{trees};
ghost use Rattle.rules.specs.Lists.{least_other, live_listed, next_payments, with_value};
ghost use Rattle.rules.specs.GivenPayments.{is_live_in, payment_view_of};
ghost use Rattle.rules.specs.world_state.Good.{IsGoodWorld};
ghost use Rattle.rules.specs.world_state.Rights.{kind_at};
ghost use Rattle.std.specs.Prelude.{◌≡◌, ◌<◌, ◌≤◌, ◌+◌, ◌^◌, ◌==◌, All, IfOk, Ok, OnOk, length, map, true};

use ertp_calls::draft_reads_lib::payment_reads::{
    payment_amount, payment_brand, payments_left, payments_made,
};
use ertp_calls::host_world_lib::World;
use ertp_calls::live_payments::{LivePayment, check_live};
use ertp_calls::world_reads_lib::given::payments_listed;
use refusals::codes::NumberCode;
use refusals::host_data_lib::data::Data;
use refusals::stops::Stop;
use rules::call_arguments_lib::numbers::{NumberTest, check_apart, check_brands};
use rules::call_arguments_lib::places::list_at;
use std::alloc::{AllocError, Global};

/// The number of the first of so many next payments, where one is left for each slot of an open seat: else
/// `Limit`.
#[tactic(auto, unfolding(rules::specs::Lists::next_payments, refusals::specs::Outcomes::bind, refusals::specs::Outcomes::need))]
pub fn next_payments(world: &World, n: usize) -> Result<u32, Stop>
    ensures gives { Gives (λ first. first) result (next_payments (world_of world.now) n) }
    ensures few { IfOk result (λ first. first + n < 2 ^ 32) }
{
    if (payments_left(&world.draft) as usize) < n {
        Err(Stop::numbered(NumberCode::Limit, u32::MAX))
    } else {
        Ok(payments_made(&world.draft))
    }
}

/// Whether a brand is one that is wanted.
#[derive(Clone, Copy)]
struct WantedBrand {
    brand: u16,
}

impl NumberTest for WantedBrand {
    ghost may_test = { λ _ _. Unit {0} };

    ghost does_pass = { λ wanted n. n == wanted.brand };

    fn passes(&self, number: u32) -> bool {
        number == u32::from(self.brand)
    }
}

/// The brands of the payments, in their order.
fn brands_of(alloc: Global, world: &World, payments: &[u32]) -> Result<Vec<u32>, AllocError>
    requires { All (λ n. n < length (world_of world.now).rights.payments) payments.now }
    ensures { IfOk result (λ brands. brands.items
        ≡ map (λ n. (payment_view_of (world_of world.now) n).brand) payments.now) }
{
    let mut brands = Vec::new(alloc);
    for payment in payments {
        brands.push(u32::from(payment_brand(&world.draft, *payment)))?;
    }
    Ok(brands)
}

/// That the payments are of the brand: else `WrongBrand` with the least other one (ERTP).
fn check_brand(alloc: Global, world: &World, brand: u16, payments: &[u32]) -> Result<(), Stop>
    requires { All (λ n. n < length (world_of world.now).rights.payments) payments.now }
    ensures gives { Gives (λ _. tt) result
        (none_such (least_other (world_of world.now) brand payments.now) wrong_brand) }
    ensures of_brand { OnOk result
        (All (λ n. (payment_view_of (world_of world.now) n).brand ≡ brand) payments.now) }
{
    let brands = brands_of(alloc, world, payments)?;
    check_brands(&WantedBrand { brand }, brands.as_slice())
}

/// What a payment has.
#[tactic(auto, using(ertp_calls::proofs::HeldKinds::held_kind))]
fn with_value(world: &World, payment: u32) -> Result<LivePayment, AllocError>
    requires good { IsGoodWorld (world_of world.now) }
    requires made { payment < length (world_of world.now).rights.payments }
    requires live { is_live_in (world_of world.now) payment ≡ true }
    ensures value { IfOk result (λ p. live_view p ≡ with_value (world_of world.now) payment) }
    ensures number { IfOk result (λ p. p.number ≡ payment) }
    ensures kind { IfOk result (λ p. p.value.kind
        ≡ kind_at (world_of world.now).rights.out (payment_view_of (world_of world.now) payment).brand) }
{
    let Some(held) = payment_amount(&world.draft, payment) else {
        unreachable!()
    };
    let value = held.copy()?;
    Ok(LivePayment {
        number: payment,
        value,
    })
}

/// Live payments, each with what it has.
fn with_values(
    alloc: Global,
    world: &World,
    brand: u16,
    payments: &[u32],
) -> Result<Vec<LivePayment>, AllocError>
    requires good { IsGoodWorld (world_of world.now) }
    requires made { All (λ n. n < length (world_of world.now).rights.payments) payments.now }
    requires of_brand { All (λ n. (payment_view_of (world_of world.now) n).brand ≡ brand) payments.now }
    requires live { All (λ n. is_live_in (world_of world.now) n ≡ true) payments.now }
    ensures values { IfOk result (λ ps. map live_view ps.items
        ≡ map (with_value (world_of world.now)) payments.now) }
    ensures numbers { IfOk result (λ ps. All (λ p. p.number
        < length (world_of world.now).rights.payments) ps.items) }
    ensures kinds { IfOk result (λ ps. All (λ p. p.value.kind
        ≡ kind_at (world_of world.now).rights.out brand) ps.items) }
{
    let mut found = Vec::with_capacity(alloc, payments.len())?;
    for payment in payments {
        found.push_reserved(with_value(world, *payment)?);
    }
    Ok(found)
}

/// Live payments, none twice, each with what it has: else `RepeatedPayment` (ERTP).
#[tactic(auto, using(crate::proofs::LiveLists::numbers_kept), unfolding(refusals::specs::Outcomes::bind))]
fn distinct_payments(
    alloc: Global,
    world: &World,
    brand: u16,
    payments: &[u32],
) -> Result<Vec<LivePayment>, Stop>
    requires good { IsGoodWorld (world_of world.now) }
    requires made { All (λ n. n < length (world_of world.now).rights.payments) payments.now }
    requires of_brand { All (λ n. (payment_view_of (world_of world.now) n).brand ≡ brand) payments.now }
    requires live { All (λ n. is_live_in (world_of world.now) n ≡ true) payments.now }
    ensures gives { Gives (λ ps. map live_view ps.items) result
        (bind (none_such (first_repeated payments.now) repeated_payment)
        (λ _. Ok (map (with_value (world_of world.now)) payments.now))) }
    ensures apart { IfOk result (λ ps. AreApart (map (λ p. p.number) ps.items)) }
    ensures made { IfOk result (λ ps. All (λ p. p.number
        < length (world_of world.now).rights.payments) ps.items) }
    ensures kinds { IfOk result (λ ps. All (λ p. p.value.kind
        ≡ kind_at (world_of world.now).rights.out brand) ps.items) }
{
    check_apart(alloc, payments)?;
    Ok(with_values(alloc, world, brand, payments)?)
}

/// Live payments of the brand, none twice: `WrongBrand`, `DeadPayment` and `RepeatedPayment`, each over all of them
/// before the next (ERTP).
#[tactic(auto, unfolding(crate::specs::Steps::live_of, refusals::specs::Outcomes::bind))]
fn live_payments_of(
    alloc: Global,
    world: &World,
    brand: u16,
    payments: &[u32],
) -> Result<Vec<LivePayment>, Stop>
    requires good { IsGoodWorld (world_of world.now) }
    requires made { All (λ n. n < length (world_of world.now).rights.payments) payments.now }
    ensures gives { Gives (λ ps. map live_view ps.items) result
        (live_of (world_of world.now) brand payments.now) }
    ensures apart { IfOk result (λ ps. AreApart (map (λ p. p.number) ps.items)) }
    ensures made { IfOk result (λ ps. All (λ p. p.number
        < length (world_of world.now).rights.payments) ps.items) }
    ensures kinds { IfOk result (λ ps. All (λ p. p.value.kind
        ≡ kind_at (world_of world.now).rights.out brand) ps.items) }
{
    check_brand(alloc, world, brand, payments)?;
    check_live(world, payments)?;
    distinct_payments(alloc, world, brand, payments)
}

/// Live payments of the brand in an array at a place, none twice (ERTP): `BadArgs` and `WrongObject` with the place,
/// then `WrongBrand`, `DeadPayment` and `RepeatedPayment`, each over all of them before the next.
#[tactic(auto, unfolding(crate::specs::Steps::live_of, rules::specs::Lists::live_listed, refusals::specs::Outcomes::bind))]
pub fn live_payments_at(
    alloc: Global,
    world: &World,
    brand: u16,
    place: u32,
    args: &[Data],
) -> Result<Vec<LivePayment>, Stop>
    requires place { 1 ≤ place }
    requires good { IsGoodWorld (world_of world.now) }
    requires handed { AreHanded (world_of world.now) (trees args.now) }
    ensures gives { Gives (λ ps. map live_view ps.items) result
        (live_listed (world_of world.now) brand place (trees args.now)) }
    ensures apart { IfOk result (λ ps. AreApart (map (λ p. p.number) ps.items)) }
    ensures made { IfOk result (λ ps. All (λ p. p.number
        < length (world_of world.now).rights.payments) ps.items) }
    ensures kinds { IfOk result (λ ps. All (λ p. p.value.kind
        ≡ kind_at (world_of world.now).rights.out brand) ps.items) }
{
    let items = list_at(place, args)?;
    let payments = payments_listed(alloc, world, place, args, items)?;
    live_payments_of(alloc, world, brand, payments.as_slice())
}
