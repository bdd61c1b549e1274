ghost use Rattle.std.specs.Prelude.{◌≡◌, ◌≢◌, ◌<◌, ◌≤◌, ℕ, codes, length};
ghost use Rattle.escrow.specs.amount_math.ValueView.{nat_bound};
ghost use Rattle.escrow.specs.rights_model.Table.{Table, no_holdings};
ghost use Rattle.escrow.specs.rights_model.declared.Holder.TheVariants as holder;
ghost use Rattle.escrow.specs.Sums.{AreSums};
ghost use Rattle.escrow.specs.Told.{IsOpened, IsSeated, nothing_told, totals_of};
ghost use Rattle.store_tests.specs.Holdings.{CanTellNext, HoldsNumber, movement_of};

use escrow::Escrow;
use escrow::amount_math_lib::Value;
use escrow::host_text_lib::keyword::Keyword;
use escrow::rights_model_lib::{Holder, Movement, Sum};
use std::alloc::Global;
use std::process::Abort;

/// Well over what these tests mint.
const MOST: u128 = 1_000_000;

fn movement(from: Holder, to: Holder, number: u128) -> Movement
    requires { number ≤ nat_bound }
    ensures { result ≡ movement_of from to number }
{
    Movement {
        brand: 1,
        from,
        to,
        value: Value::nat(number),
    }
}

/// Ends the test where much was minted.
fn check_few(rt: &impl Abort, escrow: &Escrow)
    ensures { (totals_of escrow.now 1).minted ≤ 1000000 }
{
    assert!(rt; escrow.totals(1).minted <= MOST);
}

/// Tells that so much went from one holder to another, or ends the test.
fn tell(rt: &impl Abort, escrow: &mut Escrow, from: Holder, to: Holder, number: u128)
    requires small { number ≤ nat_bound }
    requires can { CanTellNext escrow.old (movement_of from to number) }
    requires from { IsOpened escrow.old.instances from }
    requires to { IsOpened escrow.old.instances to }
    requires inside { to ≢ holder.Outside }
    ensures holds { HoldsNumber escrow.new to number }
    ensures instances { escrow.new.instances ≡ escrow.old.instances }
{
    let movement = movement(from, to, number);
    check_few(rt, escrow);
    let Ok(()) = escrow.moved(&movement) else {
        panic!(rt; "memory for totals")
    };
}

/// Tells of the first seat, that of an instance, where nothing else was told.
fn open(rt: &impl Abort, escrow: &mut Escrow, instance: u32)
    requires { escrow.old ≡ nothing_told }
    ensures seated { IsSeated nothing_told escrow.new instance }
    ensures told { AreSums no_holdings escrow.new }
    ensures one { length escrow.new.instances ≡ 1 }
{
    let Ok(()) = escrow.opened(0, instance) else {
        panic!(rt; "memory for a seat")
    };
}

/// Tells that so much was minted.
fn mint(rt: &impl Abort, escrow: &mut Escrow, to: Holder, number: u128)
    requires small { number ≤ nat_bound }
    requires told { (t : Table) × AreSums t escrow.old }
    requires to { IsOpened escrow.old.instances to }
    requires inside { to ≢ holder.Outside }
    ensures holds { HoldsNumber escrow.new to number }
    ensures instances { escrow.new.instances ≡ escrow.old.instances }
{
    tell(rt, escrow, Holder::Outside, to, number);
}

/// Tells that so much went on from a holder that has it.
fn pass(rt: &impl Abort, escrow: &mut Escrow, from: Holder, to: Holder, number: u128)
    requires small { number ≤ nat_bound }
    requires has { HoldsNumber escrow.old from number }
    requires from { IsOpened escrow.old.instances from }
    requires to { IsOpened escrow.old.instances to }
    requires inside { to ≢ holder.Outside }
    ensures holds { HoldsNumber escrow.new to number }
    ensures instances { escrow.new.instances ≡ escrow.old.instances }
{
    tell(rt, escrow, from, to, number);
}

/// The sum once so much was burned, which is then undone.
fn sum_where_burned(rt: &impl Abort, escrow: &mut Escrow, from: Holder, number: u128) -> Sum
    requires small { number ≤ nat_bound }
    requires has { HoldsNumber escrow.old from number }
    requires from { IsOpened escrow.old.instances from }
{
    let movement = movement(from, Holder::Outside, number);
    check_few(rt, escrow);
    let Ok(()) = escrow.moved(&movement) else {
        panic!(rt; "memory for totals")
    };
    let sum = escrow.totals(1);
    escrow.undo_moved(&movement);
    sum
}

fn price(rt: &impl Abort, alloc: Global) -> Keyword
    ensures { result ≡ codes "Price" }
{
    let keyword = Keyword::read(alloc, b"Price".as_slice()).ok();
    keyword.expect(rt, "memory for a keyword")
}

/// The sum of brand 1.
fn sum(minted: u128, burned: u128, purses: u128, payments: u128, slots: u128) -> Sum {
    Sum {
        brand: 1,
        minted,
        burned,
        purses,
        payments,
        slots,
    }
}

/// A hundred are minted to a payment and put in a purse: whether the sums run with it.
fn goes_to_a_purse(rt: &impl Abort, escrow: &mut Escrow) -> bool
    requires told { (t : Table) × AreSums t escrow.old }
    ensures holds { HoldsNumber escrow.new (holder.Purse 0) 100 }
    ensures instances { escrow.new.instances ≡ escrow.old.instances }
{
    mint(rt, escrow, Holder::Payment(0), 100);
    let minted = escrow.totals(1);
    pass(rt, escrow, Holder::Payment(0), Holder::Purse(0), 100);
    minted == sum(100, 0, 0, 100, 0) && escrow.totals(1) == sum(100, 0, 100, 0, 0)
}

/// Thirty of the hundred are taken out and put in a slot: whether the sums run with it.
fn goes_to_a_slot(rt: &impl Abort, alloc: Global, escrow: &mut Escrow) -> bool
    requires has { HoldsNumber escrow.old (holder.Purse 0) 100 }
    requires opened { length escrow.old.instances ≡ 1 }
    ensures holds { HoldsNumber escrow.new (holder.Slot 0 (codes "Price")) 30 }
    ensures instances { escrow.new.instances ≡ escrow.old.instances }
{
    pass(rt, escrow, Holder::Purse(0), Holder::Payment(1), 30);
    let taken = escrow.totals(1);
    let slot = Holder::Slot(0, price(rt, alloc));
    pass(rt, escrow, Holder::Payment(1), slot, 30);
    taken == sum(100, 0, 70, 30, 0) && escrow.totals(1) == sum(100, 0, 70, 0, 30)
}

#[test]
fn totals_run_with_the_movements(rt: HostRuntime) {
    let mut escrow = Escrow::new(rt.alloc());
    open(&rt, &mut escrow, 7);
    let to_a_purse = goes_to_a_purse(&rt, &mut escrow);
    let to_a_slot = goes_to_a_slot(&rt, rt.alloc(), &mut escrow);
    let shares = (escrow.of_instance(7, 1), escrow.of_instance(8, 1));
    let slot = Holder::Slot(0, price(&rt, rt.alloc()));
    let burned = sum_where_burned(&rt, &mut escrow, slot, 30);
    let after = escrow.totals(1);
    drop(escrow);
    assert!(rt; to_a_purse && to_a_slot && shares == (30, 0));
    assert!(rt; burned == sum(100, 30, 70, 0, 0) && after == sum(100, 0, 70, 0, 30));
}

#[test]
fn the_last_seat_is_forgotten(rt: HostRuntime) {
    let mut escrow = Escrow::new(rt.alloc());
    open(&rt, &mut escrow, 7);
    escrow.undo_opened();
    open(&rt, &mut escrow, 8);
    mint(&rt, &mut escrow, Holder::Slot(0, price(&rt, rt.alloc())), 5);
    assert!(rt; escrow.of_instance(8, 1) == 5 && escrow.of_instance(7, 1) == 0);
}
