ghost use Rattle.std.specs.Prelude.{◌<◌};

use escrow::amount_math_lib::Kind;
use holders::ertp_mint_lib::{Balance, Parcel};
use holders::payments::Payments;
use std::alloc::Global;

/// A parcel of nothing.
fn parcel(alloc: Global, brand: u16) -> Parcel {
    Balance::empty(alloc, brand, Kind::Nat).into_parcel()
}

/// Makes a payment, and answers whether that came to its end.
fn make(payments: &mut Payments, alloc: Global, brand: u16) -> bool {
    match payments.make(parcel(alloc, brand)) {
        Ok(_) => true,
        Err((parcel, _)) => {
            drop(Balance::of(alloc, parcel));
            false
        }
    }
}

/// Makes a payment from an open slot, and answers whether that came to its end.
fn make_from_slot(payments: &mut Payments, alloc: Global, brand: u16) -> bool
    requires { 0 < payments.old.slots }
{
    match payments.make_from_slot(parcel(alloc, brand)) {
        Ok(_) => true,
        Err(failed) => {
            drop(Balance::of(alloc, failed.value));
            false
        }
    }
}

fn is_live(payments: &Payments, number: u32) -> bool {
    match payments.find(number) {
        Some(payment) => payments.is_live(payment),
        None => false,
    }
}

/// The brand of a payment, or 0.
fn brand(payments: &Payments, number: u32) -> u16 {
    match payments.find(number) {
        Some(payment) => payments.brand(payment),
        None => 0,
    }
}

/// Whether two payments stand, or stood, in one place.
fn share_a_place(payments: &Payments, number: u32, other: u32) -> bool {
    match (payments.find(number), payments.find(other)) {
        (Some(payment), Some(other)) => payment.key == other.key,
        _ => false,
    }
}

/// Spends a payment, and answers whether it was live.
fn spend(payments: &mut Payments, alloc: Global, number: u32) -> bool {
    let Some(payment) = payments.find(number) else {
        return false;
    };
    match payments.spend(payment) {
        Ok(parcel) => {
            drop(Balance::of(alloc, parcel));
            true
        }
        Err(_) => false,
    }
}

/// Whether a payment is made where the first, which was spent, stood.
fn follows_the_spent(payments: &mut Payments, alloc: Global) -> bool {
    let made = make(payments, alloc, 3) && spend(payments, alloc, 0);
    made && make(payments, alloc, 4) && share_a_place(payments, 0, 1)
}

#[test]
fn a_spent_payment_is_dead_where_the_next_stands(rt: HostRuntime) {
    let mut payments = Payments::new(rt.alloc());
    let follows = follows_the_spent(&mut payments, rt.alloc());
    let live = is_live(&payments, 1) && !is_live(&payments, 0);
    let spent = spend(&mut payments, rt.alloc(), 0);
    let brands = (brand(&payments, 0), brand(&payments, 1));
    drop(payments);
    assert!(rt; follows && live && !spent && brands == (3, 4));
}

/// What is left and how many were made, once a payment is made from one of two slots.
fn from_a_slot(payments: &mut Payments, alloc: Global) -> Option<(u32, u32)> {
    let Ok(()) = payments.reserve_slots(2) else {
        return None;
    };
    if make_from_slot(payments, alloc, 1) {
        Some((payments.left(), payments.made()))
    } else {
        None
    }
}

#[test]
fn a_slot_counts_from_its_opening(rt: HostRuntime) {
    let mut payments = Payments::new(rt.alloc());
    let first = from_a_slot(&mut payments, rt.alloc());
    let more = payments.reserve_slots(payments.left()).is_ok();
    let over = payments.reserve_slots(1).is_err();
    let left = payments.left();
    drop(payments);
    assert!(rt; first == Some((4_294_967_293, 1)) && more && over && left == 0);
}
