//! Purses.

ghost use Rattle.std.specs.Prelude.{◌≡◌, ◌<◌, ◌≤◌, ◌∷◌, [], length};
ghost use Rattle.escrow.specs.amount_math.ValueView.{nat_bound};
ghost use Rattle.holders.specs.ertp_mint.Balances.{empty_store};
ghost use Rattle.holders.specs.Purses.{store_at};

use crate::ertp_mint_tests::set;
use escrow::amount_math_lib::shortfall::LossFault;
use escrow::amount_math_lib::{AmountKind, Key, Kind, PutFault, SetKind, Value};
use holders::ertp_mint_lib::{Balance, Circulations, Parcel};
use holders::purses::Purses;
use std::alloc::{AllocError, Global};
use std::process::Abort;

/// A parcel of a value, of brand 0 of a supply of its own.
fn parcel(rt: &impl Abort, alloc: Global, value: Value) -> Parcel
    ensures { result ≡ record { brand = 0; value = value } }
{
    let mut supply = Circulations::new(alloc);
    supply
        .add_brand(value.kind())
        .expect(rt, "memory for a brand");
    supply.issue(0, value).ok().expect(rt, "within the bound")
}

/// A purse of a kind, of brand 0.
fn opened(rt: &impl Abort, alloc: Global, kind: Kind) -> Purses
    ensures { result ≡ empty_store 0 kind ∷ [] }
{
    let mut purses = Purses::new(alloc);
    assert!(rt; purses.open(0, kind).is_ok());
    purses
}

/// Puts a value in the first purse, which takes it.
fn put(rt: &impl Abort, alloc: Global, purses: &mut Purses, value: Value)
    requires made { 0 < length purses.old }
    requires brand { (store_at purses.old 0).amount.brand ≡ 0 }
    requires kind { (store_at purses.old 0).amount.value.kind ≡ value.kind }
    ensures made { length purses.new ≡ length purses.old }
    ensures kind { (store_at purses.new 0).amount.value.kind ≡ value.kind }
{
    let parcel = parcel(rt, alloc, value);
    if let Err((_parcel, _fault)) = purses.put(0, parcel) {
        panic!(rt; "it is within the bound");
    }
}

/// How many units the first purse has.
fn held(purses: &Purses) -> u128
    requires { 0 < length purses.now }
{
    purses.amount(0).total()
}

/// How many units are taken out and how many stay, where the taking is worked backwards.
fn taken_and_left(purses: &mut Purses, number: u128) -> Option<(u128, u128)>
    requires made { 0 < length purses.old }
    requires kind { (store_at purses.old 0).amount.value.kind ≡ Kind.Nat }
    requires small { number ≤ nat_bound }
    ensures made { length purses.new ≡ length purses.old }
    ensures kind { (store_at purses.new 0).amount.value.kind ≡ Kind.Nat }
{
    match purses.take(0, &Value::nat(number)) {
        Ok(taken) => {
            let both = (taken.value().total(), held(purses));
            purses.undo_take(0, taken);
            Some(both)
        }
        Err(_) => None,
    }
}

/// What is held and what is asked for, where it is more.
fn short_of(alloc: Global, purses: &mut Purses, number: u128) -> Option<(u128, u128)>
    requires made { 0 < length purses.old }
    requires kind { (store_at purses.old 0).amount.value.kind ≡ Kind.Nat }
    requires small { number ≤ nat_bound }
{
    match purses.take(0, &Value::nat(number)) {
        Ok(taken) => {
            drop(Balance::of(alloc, taken));
            None
        }
        Err(LossFault::NotEnough(short)) => Some((short.held.total(), short.asked.total())),
        Err(_) => None,
    }
}

/// A hundred units are put in, thirty taken out, and that is worked backwards.
#[test]
fn a_withdrawal_is_worked_backwards(rt: HostRuntime) {
    let mut purses = opened(&rt, rt.alloc(), Kind::Nat);
    put(&rt, rt.alloc(), &mut purses, Value::nat(100));
    let both = taken_and_left(&mut purses, 30);
    assert!(rt; purses.made() == 1);
    let after = held(&purses);
    let short = short_of(rt.alloc(), &mut purses, 101);
    drop(purses);
    assert!(rt; both == Some((30, 70)) && after == 100 && short == Some((100, 101)));
}

/// So many keys, which differ.
fn many_keys(alloc: Global, count: u32) -> Result<Vec<Key>, AllocError> {
    let mut keys = Vec::new(alloc);
    for number in 0..count {
        let text = format!(in alloc; "{number}")?;
        keys.push(Key::new(text))?;
    }
    Ok(keys)
}

/// The set of so many keys.
fn set_of_many(rt: &impl Abort, alloc: Global, count: u32) -> Value
    ensures { result.kind ≡ Kind.Set }
{
    let keys = many_keys(alloc, count).expect(rt, "memory for keys");
    SetKind::make(keys).ok().expect(rt, "keys of a set")
}

/// The sum that would be and its bound, where a value is too much.
fn over(answer: Result<(), PutFault>) -> Option<(u128, u128)> {
    match answer {
        Err(PutFault::TooMuch(over)) => Some((over.sum, over.bound)),
        _ => None,
    }
}

/// A purse of 4,096 keys.
fn full(rt: &impl Abort, alloc: Global) -> Purses
    ensures made { 0 < length result }
    ensures kind { (store_at result 0).amount.value.kind ≡ Kind.Set }
{
    let mut purses = opened(rt, alloc, Kind::Set);
    let most = set_of_many(rt, alloc, 4096);
    let room = purses.make_room_for(0, &most).is_ok();
    put(rt, alloc, &mut purses, most);
    assert!(rt; room);
    purses
}

/// A purse of 4,096 keys takes no further one.
#[test]
fn a_set_has_at_most_4096_keys(rt: HostRuntime) {
    let mut purses = full(&rt, rt.alloc());
    let reserved = purses.reserve(0, 1).is_ok();
    let further = set(&rt, rt.alloc(), &["x"]);
    let over = over(purses.can_put(0, &further));
    drop(further);
    drop(purses);
    assert!(rt; reserved && over == Some((4097, 4096)));
}
