//! How many of each key are out of a brand, and how many were retired and may come out again without
//! memory, in a map that costs its depth for each key. Units are those of the empty key.

ghost use Rattle.std.specs.Prelude.{◌≡◌, ◌≢◌, ◌≤◌, ◌⊎◌, IfErr, IsOk, OnErr, OnOk};
ghost use Rattle.amount_math.specs.Content.{count, of_entries, of_nat, sum};
ghost use Rattle.amount_math.specs.Entries.{IsRising};
ghost use Rattle.amount_math.specs.ValueView.{Fits, IsCountRefusal, bound, nat_bound};
ghost use Rattle.ertp_mint.specs.Places.{AllowsAll, nothing_out, seen, with_change};

use crate::place::Change;
use crate::places::{Places, change_all, change_at, first_past, issue_all, issue_at, place_of};
use amount_math::{COUNT_BOUND, Entry, Key, Kind, NAT_BOUND, PutFault, TooMuch, Value};
use std::alloc::{AllocError, Global};
use std::collections::BTreeMap;
use std::marker::Model;

/// What is out of a brand, and what was retired and may come out again, key by key.
#[derive(Drop)]
pub(crate) struct KeysOut {
    alloc: Global,
    places: Places,
}

impl Model for KeysOut {
    ghost use Rattle.ertp_mint.specs.Places.{OutAndKept, coded_out_and_kept, seen};

    ghost Value = { OutAndKept };

    ghost coded = { coded_out_and_kept };

    ghost view = { λ a. seen a.places.entries };
}

impl KeysOut {
    pub fn new(alloc: Global) -> KeysOut
        ensures { result ≡ nothing_out }
    {
        KeysOut {
            alloc,
            places: BTreeMap::new(alloc),
        }
    }

    /// How many of a key are out.
    pub fn count_out(&self, key: &str) -> u128
        ensures { result ≡ count self.now.out key.now }
    {
        let place = place_of(&self.places, key);
        place.out
    }

    /// That a value may come out too, or why it mayn't: the first key, in byte order, of which there would
    /// be too many. To show a key takes memory, and nothing else does.
    pub fn can_issue(&self, value: &Value) -> Result<(), PutFault>
        requires { Fits value.now.kind self.now.out }
        ensures ok { IsOk result → Fits value.now.kind (sum self.now.out value.now.content) }
        ensures sure { Fits value.now.kind (sum self.now.out value.now.content) → IsOk result }
        ensures refused { IfErr result (IsCountRefusal value.now.kind (sum self.now.out value.now.content)) }
    {
        let kind = value.kind();
        match value.entries() {
            Some(entries) => can_issue_keys(&self.places, kind, entries),
            None => can_issue_units(&self.places, units_of(value)),
        }
    }

    /// Counts a value as out, or changes nothing. Keys that have no place yet take memory.
    pub fn issue(&mut self, value: &Value) -> Result<(), AllocError>
        requires { AllowsAll Change.Issue value.now.content self.old }
        ensures ok { OnOk result (self.new ≡ with_change Change.Issue value.now.content self.old) }
        ensures err { OnErr result (self.new ≡ self.old) }
    {
        let _kind = value.kind();
        match value.entries() {
            Some(entries) => issue_all(&mut self.places, self.alloc, entries),
            None => issue_at(&mut self.places, self.alloc, "", units_of(value)),
        }
    }

    /// Counts a value otherwise than before, which takes no memory.
    pub fn change(&mut self, change: Change, value: &Value)
        requires other { change ≢ Change.Issue }
        requires allowed { AllowsAll change value.now.content self.old }
        ensures { self.new ≡ with_change change value.now.content self.old }
    {
        let _kind = value.kind();
        match value.entries() {
            Some(entries) => change_all(&mut self.places, change, entries),
            None => change_at(&mut self.places, change, "", units_of(value)),
        }
    }
}

/// How many units a value of the kind nat is.
fn units_of(value: &Value) -> u128
    requires { value.now.kind ≡ Kind.Nat }
    ensures units { value.now.content ≡ of_nat result }
    ensures bounded { result ≤ nat_bound }
{
    let Some(units) = value.number() else {
        unreachable!()
    };
    units
}

/// The most of one key that may be out.
fn most_out(kind: Kind) -> u64
    requires { kind ≢ Kind.Nat }
    ensures { result ≡ bound kind }
{
    match kind {
        Kind::Nat | Kind::Bag => COUNT_BOUND,
        Kind::Set => 1,
    }
}

/// That no count of the entries would pass the bound with what is out, or the first that would.
fn can_issue_keys(places: &Places, kind: Kind, entries: &[Entry]) -> Result<(), PutFault>
    requires keyed { kind ≢ Kind.Nat }
    requires rising { IsRising entries.now }
    requires fits { Fits kind (seen places.now.entries).out }
    ensures ok { IsOk result → Fits kind (sum (seen places.now.entries).out (of_entries entries.now)) }
    ensures sure { Fits kind (sum (seen places.now.entries).out (of_entries entries.now)) → IsOk result }
    ensures refused { IfErr result (IsCountRefusal kind (sum (seen places.now.entries).out (of_entries entries.now))) }
{
    let most = most_out(kind);
    let Some(at) = first_past(places, entries, most) else {
        return Ok(());
    };
    let entry = &entries[at];
    if let Kind::Set = kind {
        return Err(overlap(entry.key()));
    }
    let held = place_of(places, entry.key().as_str());
    let sum = held.out + u128::from(entry.count());
    let bound = u128::from(most);
    Err(PutFault::TooMuch(TooMuch { sum, bound }))
}

/// The fault that shows a key, or the want of memory for it.
fn overlap(key: &Key) -> PutFault
    ensures { (result ≡ PutFault.Overlap key.now) ⊎ (result ≡ PutFault.NoMemory) }
{
    match key.copy() {
        Ok(key) => PutFault::Overlap(key),
        Err(_) => PutFault::NoMemory,
    }
}

/// That so many units more would not pass the bound.
fn can_issue_units(places: &Places, units: u128) -> Result<(), PutFault>
    requires bounded { units ≤ nat_bound }
    requires fits { Fits Kind.Nat (seen places.now.entries).out }
    ensures ok { IsOk result → Fits Kind.Nat (sum (seen places.now.entries).out (of_nat units)) }
    ensures sure { Fits Kind.Nat (sum (seen places.now.entries).out (of_nat units)) → IsOk result }
    ensures refused { IfErr result (IsCountRefusal Kind.Nat (sum (seen places.now.entries).out (of_nat units))) }
{
    let held = place_of(places, "");
    let sum = held.out + units;
    let bound = NAT_BOUND;
    if sum > bound {
        return Err(PutFault::TooMuch(TooMuch { sum, bound }));
    }
    Ok(())
}
