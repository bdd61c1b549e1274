//! Payments that a call names, and that payments are live.

ghost use Rattle.call_arguments.specs.Numbers.{least_failing};
ghost use Rattle.ertp_calls.specs.Views.{live_view};
ghost use Rattle.refusals.specs.Codes.{dead_payment};
ghost use Rattle.refusals.specs.Outcomes.{Gives, none_such};
ghost use Rattle.refusals.specs.host_data.View.{trees};
ghost use Rattle.rules.specs.GivenPayments.{is_live_in, live_at, payment_at};
ghost use Rattle.rules.specs.holders.PaymentViews.{payment_view_at};
ghost use Rattle.rules.specs.world_state.Good.{IsGoodWorld};
ghost use Rattle.rules.specs.world_state.Rights.{kind_at};
ghost use Rattle.std.specs.Prelude.{◌≡◌, ◌<◌, ◌≤◌, All, IfOk, OnOk, length, true};
ghost use Rattle.world_reads.specs.Handed.{AreHanded};
ghost use Rattle.world_reads.specs.host_world.Worlds.{world_of};

use call_arguments::numbers;
use call_arguments::numbers::NumberTest;
use refusals::amount_math_lib::Value;
use refusals::codes::NumberCode;
use refusals::host_data_lib::data::Data;
use refusals::stops::Stop;
use world_reads::draft_reads_lib::payment_reads::{is_live, payment_amount, payment_brand};
use world_reads::given::payment_number;
use world_reads::host_world_lib::World;

/// A live payment, by its number, with a copy of what it has.
#[derive(Drop)]
pub struct LivePayment {
    pub number: u32,
    pub value: Value,
}

/// The payment of the brand at a place (ERTP): `WrongObject` with the place, then `WrongBrand` with the brand that
/// it is of.
#[tactic(auto, unfolding(rules::specs::GivenPayments::payment_at, refusals::specs::Outcomes::bind, refusals::specs::Outcomes::need))]
pub fn payment_at(world: &World, brand: u16, place: u32, args: &[Data]) -> Result<u32, Stop>
    requires place { 1 ≤ place }
    requires handed { AreHanded (world_of world.now) (trees args.now) }
    ensures gives { Gives (λ n. n) result (payment_at (world_of world.now) brand place (trees args.now)) }
    ensures made { IfOk result (λ n. n < length (world_of world.now).rights.payments) }
    ensures brand { IfOk result (λ n. (payment_view_at (world_of world.now).rights.payments n).brand ≡ brand) }
{
    let payment = payment_number(world, place, args)?;
    let of = payment_brand(&world.draft, payment);
    if of != brand {
        return Err(Stop::numbered(NumberCode::WrongBrand, u32::from(of)));
    }
    Ok(payment)
}

/// The live payment of the brand at a place (ERTP): else the refusals of a payment, then `DeadPayment` with its
/// number.
#[tactic(auto, using(crate::proofs::HeldKinds::held_kind), unfolding(rules::specs::GivenPayments::live_at, refusals::specs::Outcomes::bind, refusals::specs::Outcomes::wanted))]
pub fn live_at(world: &World, brand: u16, place: u32, args: &[Data]) -> Result<LivePayment, Stop>
    requires place { 1 ≤ place }
    requires good { IsGoodWorld (world_of world.now) }
    requires handed { AreHanded (world_of world.now) (trees args.now) }
    ensures gives { Gives live_view result (live_at (world_of world.now) brand place (trees args.now)) }
    ensures kind { IfOk result (λ p. p.value.kind ≡ kind_at (world_of world.now).rights.out brand) }
{
    let payment = payment_at(world, brand, place, args)?;
    let Some(held) = payment_amount(&world.draft, payment) else {
        return Err(Stop::numbered(NumberCode::DeadPayment, payment));
    };
    let value = held.copy()?;
    Ok(LivePayment {
        number: payment,
        value,
    })
}

/// Whether payments of a world are live.
#[derive(Clone, Copy)]
struct Liveness<'a> {
    world: &'a World,
}

impl NumberTest for Liveness<'_> {
    ghost may_test = { λ test n. n < length (world_of test.world.now).rights.payments };

    ghost does_pass = { λ test n. is_live_in (world_of test.world.now) n };

    fn passes(&self, number: u32) -> bool {
        is_live(&self.world.draft, number)
    }
}

/// That the payments are live: else `DeadPayment` with the least that isn't (ERTP).
pub fn check_live(world: &World, payments: &[u32]) -> Result<(), Stop>
    requires { All (λ n. n < length (world_of world.now).rights.payments) payments.now }
    ensures gives { Gives (λ _. tt) result
        (none_such (least_failing (is_live_in (world_of world.now)) payments.now) dead_payment) }
    ensures live { OnOk result (All (λ n. is_live_in (world_of world.now) n ≡ true) payments.now) }
{
    numbers::check_live(&Liveness { world }, payments)
}
