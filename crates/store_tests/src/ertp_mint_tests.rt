//! A holder's store and a supply that are changed in place.

ghost use Rattle.std.specs.Prelude.{◌≡◌, ◌<◌, length};
ghost use Rattle.holders.specs.ertp_mint.Circulating.{circulation_at};

use escrow::amount_math_lib::{AmountKind, Key, Kind, PutFault, SetKind, Value};
use holders::ertp_mint_lib::{Balance, Circulations, Parcel};
use std::alloc::{AllocError, Global};
use std::process::Abort;

fn add_key(alloc: Global, keys: &mut Vec<Key>, text: &str) -> Result<(), AllocError> {
    let text = String::from_str(alloc, text)?;
    keys.push(Key::new(text))?;
    Ok(())
}

fn keys(alloc: Global, texts: &[&str]) -> Result<Vec<Key>, AllocError> {
    let mut keys = Vec::new(alloc);
    for text in texts {
        add_key(alloc, &mut keys, text)?;
    }
    Ok(keys)
}

/// The set of these keys.
pub fn set(rt: &impl Abort, alloc: Global, texts: &[&str]) -> Value
    ensures { result.kind ≡ Kind.Set }
{
    let keys = keys(alloc, texts).expect(rt, "memory for keys");
    SetKind::make(keys).ok().expect(rt, "keys of a set")
}

/// The supply of one set brand.
fn supply(rt: &impl Abort, alloc: Global) -> Circulations
    ensures made { 0 < length result }
    ensures kind { (circulation_at result 0).supply.outstanding.kind ≡ Kind.Set }
{
    let mut supply = Circulations::new(alloc);
    supply.add_brand(Kind::Set).expect(rt, "memory for a brand");
    supply
}

/// Issues the set of these keys, none of which is out, of the first brand.
fn issue(rt: &impl Abort, alloc: Global, supply: &mut Circulations, texts: &[&str]) -> Parcel
    requires made { 0 < length supply.old }
    requires kind { (circulation_at supply.old 0).supply.outstanding.kind ≡ Kind.Set }
    ensures made { length supply.new ≡ length supply.old }
    ensures own { (circulation_at supply.new 0).supply.outstanding.kind ≡ Kind.Set }
    ensures kind { result.value.kind ≡ Kind.Set }
    ensures brand { result.brand ≡ 0 }
{
    let value = set(rt, alloc, texts);
    supply.issue(0, value).ok().expect(rt, "none is out")
}

/// Whether a fault shows this common key.
fn shows(answer: Result<(), PutFault>, text: &str) -> bool {
    match answer {
        Err(PutFault::Overlap(key)) => key.as_str() == text,
        _ => false,
    }
}

/// Whether a store shows this key where the set of these would be put in.
fn store_shows(
    rt: &impl Abort,
    alloc: Global,
    balance: &Balance,
    texts: &[&str],
    text: &str,
) -> bool
    requires { balance.now.amount.value.kind ≡ Kind.Set }
{
    let value = set(rt, alloc, texts);
    shows(balance.can_put(&value), text)
}

/// Whether a supply shows this key where the set of these would be issued.
fn supply_shows(
    rt: &impl Abort,
    alloc: Global,
    supply: &Circulations,
    texts: &[&str],
    text: &str,
) -> bool
    requires made { 0 < length supply.now }
    requires kind { (circulation_at supply.now 0).supply.outstanding.kind ≡ Kind.Set }
{
    let value = set(rt, alloc, texts);
    shows(supply.can_issue(0, &value), text)
}

#[test]
fn the_least_common_key_is_shown(rt: HostRuntime) {
    let mut supply = supply(&rt, rt.alloc());
    let out = issue(&rt, rt.alloc(), &mut supply, &["d", "b"]);
    let balance = Balance::of(rt.alloc(), out);
    let by_supply = supply_shows(&rt, rt.alloc(), &supply, &["d", "c", "b"], "b");
    let by_store = store_shows(&rt, rt.alloc(), &balance, &["d", "c", "b"], "b");
    drop(balance);
    drop(supply);
    assert!(rt; by_supply && by_store);
}

/// Puts a parcel in, within room that is made.
fn put(rt: &impl Abort, balance: &mut Balance, parcel: Parcel)
    requires brand { balance.old.amount.brand ≡ parcel.brand }
    requires kind { balance.old.amount.value.kind ≡ parcel.value.kind }
    ensures brand { balance.new.amount.brand ≡ balance.old.amount.brand }
    ensures kind { balance.new.amount.value.kind ≡ balance.old.amount.value.kind }
{
    let room = balance.make_room_for(parcel.value());
    if let Err((_parcel, _fault)) = balance.put(parcel) {
        panic!(rt; "none is there");
    }
    room.expect(rt, "memory for keys");
}

/// How many keys are taken out.
fn take(rt: &impl Abort, alloc: Global, balance: &mut Balance, texts: &[&str]) -> u128
    requires { balance.old.amount.value.kind ≡ Kind.Set }
{
    let part = set(rt, alloc, texts);
    match balance.take(&part) {
        Ok(taken) => Balance::of(alloc, taken).holding().total(),
        Err(_) => 0,
    }
}

#[test]
fn what_has_no_common_key_is_put_and_taken(rt: HostRuntime) {
    let mut supply = supply(&rt, rt.alloc());
    let first = issue(&rt, rt.alloc(), &mut supply, &["d", "b"]);
    let mut balance = Balance::of(rt.alloc(), first);
    let reserved = balance.reserve(1).is_ok();
    let second = issue(&rt, rt.alloc(), &mut supply, &["a", "c"]);
    put(&rt, &mut balance, second);
    let (put, minted) = (balance.holding().total(), supply.minted(0));
    drop(supply);
    let taken = take(&rt, rt.alloc(), &mut balance, &["b", "c"]);
    let left = balance.holding().total();
    drop(balance);
    assert!(rt; reserved && (put, minted) == (4, 4) && (taken, left) == (2, 2));
}
