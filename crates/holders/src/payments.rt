//! Payments by number, each of one brand (ERTP). A payment is live until it is spent, once, and whole.
//! The live ones stand in a slab, so that what was spent leaves its place to the next. Its one
//! contract: each call answers what stands in the old list of payments and gives the whole new one;
//! payments made and open slots, each of which will be a payment, are never more than 4,294,967,295;
//! and each call that changes them has one that works it backwards, without memory.

ghost use Rattle.std.specs.Prelude.{◌≡◌, ◌+◌, ◌<◌, ◌≤◌, ◌↔◌, ◌-◌, true, IsTrue, None, Some, IfErr, IfOk, IfSome, OnErr, OnOk, is_err, is_some, length};
ghost use Rattle.ertp_mint.specs.amount_math.ValueView.{IsValue};
ghost use Rattle.ertp_mint.specs.Stocks.{most_made};
ghost use Rattle.slab.specs.Slab.{get};
ghost use Rattle.holders.specs.Kept.{AreKept, book_of, held_by};
ghost use Rattle.holders.specs.PaymentViews.{HasVacancy, IsKept, IsMade, IsRoomier, IsSpent, IsUnmade, IsUnspent, held_at, is_live, made_and_open, next_ref, no_payments, payment_view_at, ref_to, spent_payment};

use ertp_mint::amount_math_lib::Holding;
use ertp_mint::{Balance, Parcel};
use slab::Slab;
use std::alloc::{AllocFailed, Global};
use std::marker::Model;

/// A payment's number, and where it stands. It is good until a turn goes back, which may move the payment.
#[derive(Clone, Copy, PartialEq, Eq)]
pub struct PaymentRef {
    pub number: u32,
    pub key: usize,
}

/// Why no payment is made.
#[derive(Clone, Copy, PartialEq, Eq)]
pub enum MakeFault {
    /// Payments and open slots are 4,294,967,295.
    Limit,
    NoMemory,
}

/// Payments and open slots would be more than 4,294,967,295.
#[derive(Clone, Copy, PartialEq, Eq)]
pub struct Limit;

/// The payment was spent.
#[derive(Clone, Copy, PartialEq, Eq)]
pub struct DeadPayment {
    pub payment: u32,
}

/// A live payment.
#[derive(Drop)]
struct Entry {
    number: u32,
    balance: Balance,
}

/// A payment that was made, live or spent: where it stands, or stood.
#[derive(Clone, Copy)]
struct Listed {
    brand: u16,
    key: usize,
}

/// All payments. Contracts see each by its number, and how many slots are open (specs/PaymentViews.antt).
#[derive(Drop)]
pub struct Payments {
    live: Slab<Entry>,
    listed: Vec<Listed>,
    slots: u32,
}

impl Model for Payments {
    ghost use Rattle.holders.specs.PaymentViews.{PaymentBook, coded_payment_book};

    ghost Value = { PaymentBook };

    ghost coded = { coded_payment_book };

    ghost use Rattle.holders.specs.Kept.{IsBook, book_of};

    ghost view = { λ p. book_of p.live p.listed.items p.slots };

    ghost invariant = { λ p. IsBook p.live p.listed.items p.slots };
}

impl Payments {
    /// No payments.
    pub fn new(alloc: Global) -> Payments
        ensures { result ≡ no_payments }
    {
        Payments {
            live: Slab::new(alloc),
            listed: Vec::new(alloc),
            slots: 0,
        }
    }

    /// How many payments were made: the number that the next one gets.
    pub fn made(&self) -> u32
        ensures made { result ≡ length self.now.views }
        ensures keys { length self.now.keys ≡ length self.now.views }
        ensures few { made_and_open self.now ≤ most_made }
    {
        self.listed.len() as u32
    }

    /// How many more payments and open slots there can be.
    pub fn left(&self) -> u32
        ensures { result + made_and_open self.now ≡ most_made }
    {
        u32::MAX - self.slots - self.made()
    }

    /// The payment of a number: none where it wasn't made.
    pub fn find(&self, number: u32) -> Option<PaymentRef>
        ensures payment { result ≡ ref_to self.now number }
        ensures kept { IfSome result (λ payment. IsKept self.now payment) }
    {
        let listed = self.listed.get(number as usize)?;
        let key = listed.key;
        Some(PaymentRef { number, key })
    }

    /// Whether a payment is live: the entry under its key has its number.
    pub fn is_live(&self, payment: PaymentRef) -> bool
        requires { IsKept self.now payment }
        ensures { result ≡ is_live (payment_view_at self.now.views payment.number) }
    {
        is_entry_of(&self.live, payment)
    }

    /// The brand of a payment, also of one that was spent.
    pub fn brand(&self, payment: PaymentRef) -> u16
        requires { IsKept self.now payment }
        ensures { result ≡ (payment_view_at self.now.views payment.number).brand }
    {
        self.listed[payment.number as usize].brand
    }

    /// What a live payment holds, to read.
    pub fn amount(&self, payment: PaymentRef) -> Result<&Holding, DeadPayment>
        requires { IsKept self.now payment }
        ensures held { IfOk result (λ held. held_at self.now payment.number ≡ Some held.now.value) }
        ensures value { IfOk result (λ held. IsValue held.now.value.kind held.now.value.content) }
        ensures dead { IsTrue (is_err result) ↔ (held_at self.now payment.number ≡ None) }
        ensures shown { IfErr result (λ fault. fault ≡ record { payment = payment.number }) }
    {
        if !is_entry_of(&self.live, payment) {
            return Err(DeadPayment {
                payment: payment.number,
            });
        }
        Ok(self.live[payment.key].balance.holding())
    }

    /// Makes a payment of a parcel, or hands the parcel back. It holds the parcel in the parcel's own place.
    pub fn make(&mut self, parcel: Parcel) -> Result<PaymentRef, (Parcel, MakeFault)>
        ensures ok { OnOk result (IsMade self.old self.new parcel) }
        ensures payment { IfOk result (λ payment. payment ≡ next_ref self.old) }
        ensures slots { self.new.slots ≡ self.old.slots }
        ensures below { OnOk result (made_and_open self.old < most_made) }
        ensures limit { IfErr result (λ (_, fault). (fault ≡ MakeFault.Limit) ↔ (made_and_open self.old ≡ most_made)) }
        ensures back { IfErr result (λ (back, _). back ≡ parcel) }
        ensures err { OnErr result (IsRoomier self.old self.new) }
    {
        if self.left() == 0 {
            return Err((parcel, MakeFault::Limit));
        }
        match add(&mut self.live, &mut self.listed, parcel) {
            Ok(payment) => return Ok(payment),
            Err(parcel) => return Err((parcel, MakeFault::NoMemory)),
        }
    }

    /// Makes a payment of a parcel, which uses up an open slot, or hands the parcel back for want of memory.
    /// The program doesn't use it.
    pub fn make_from_slot(&mut self, parcel: Parcel) -> Result<PaymentRef, AllocFailed<Parcel>>
        requires { 0 < self.old.slots }
        ensures ok { OnOk result (IsMade self.old self.new parcel) }
        ensures payment { IfOk result (λ payment. payment ≡ next_ref self.old) }
        ensures slots { OnOk result (self.new.slots + 1 ≡ self.old.slots) }
        ensures returned { IfErr result (λ failed. failed.value ≡ parcel) }
        ensures err { OnErr result (IsRoomier self.old self.new) }
        ensures same_slots { OnErr result (self.new.slots ≡ self.old.slots) }
    {
        match add(&mut self.live, &mut self.listed, parcel) {
            Ok(payment) => {
                self.slots -= 1;
                Ok(payment)
            }
            Err(parcel) => Err(AllocFailed { value: parcel }),
        }
    }

    /// Spends a payment: all that it holds comes out, in its own place. It takes no memory.
    pub fn spend(&mut self, payment: PaymentRef) -> Result<Parcel, DeadPayment>
        requires { IsKept self.old payment }
        ensures ok { IfOk result (IsSpent self.old self.new payment.number) }
        ensures slots { self.new.slots ≡ self.old.slots }
        ensures dead { IsTrue (is_err result) ↔ (held_at self.old payment.number ≡ None) }
        ensures shown { IfErr result (λ fault. fault ≡ record { payment = payment.number }) }
        ensures err { OnErr result (self.new ≡ self.old) }
    {
        if !is_entry_of(&self.live, payment) {
            return Err(DeadPayment {
                payment: payment.number,
            });
        }
        let entry = self.live.remove(payment.key);
        Ok(entry.balance.into_parcel())
    }

    /// Opens so many slots, each of which will be a payment.
    pub fn reserve_slots(&mut self, slots: u32) -> Result<(), Limit>
        ensures ok { OnOk result (self.new ≡ record self.old { slots = self.old.slots + slots }) }
        ensures limit { IsTrue (is_err result) ↔ most_made < made_and_open self.old + slots }
        ensures err { OnErr result (self.new ≡ self.old) }
    {
        if self.left() < slots {
            return Err(Limit);
        }
        self.slots += slots;
        Ok(())
    }

    /// Works `reserve_slots` backwards.
    pub fn undo_reserve_slots(&mut self, slots: u32)
        requires { slots ≤ self.old.slots }
        ensures { self.old ≡ record self.new { slots = self.new.slots + slots } }
    {
        self.slots -= slots;
    }

    /// Works `make` backwards, which takes no memory: the payment that was made last, which is live, is gone.
    pub fn undo_make(&mut self) -> Parcel
        requires made { 0 < length self.old.views }
        requires live { is_live (payment_view_at self.old.views (length self.old.views - 1)) ≡ true }
        ensures unmade { IsUnmade self.old self.new result }
        ensures slots { self.new.slots ≡ self.old.slots }
    {
        remove_last(&mut self.live, &mut self.listed)
    }

    /// Works `spend` backwards, which takes no memory: the parcel goes into the payment again, which may
    /// stand under another key than before.
    pub fn undo_spend(&mut self, payment: u32, parcel: Parcel)
        requires made { payment < length self.old.views }
        requires spent { payment_view_at self.old.views payment ≡ spent_payment parcel.brand }
        requires vacancy { HasVacancy self.old }
        ensures unspent { IsUnspent self.old self.new payment parcel }
        ensures slots { self.new.slots ≡ self.old.slots }
    {
        let alloc = *self.listed.allocator();
        let balance = Balance::of(alloc, parcel);
        let entry = Entry {
            number: payment,
            balance,
        };
        let key = self.live.insert_reserved(entry);
        self.listed[payment as usize].key = key;
    }
}

/// Whether the entry under a payment's key has its number.
fn is_entry_of(live: &Slab<Entry>, payment: PaymentRef) -> bool
    ensures { result ≡ is_some (held_by payment.number (get live.now payment.key)) }
{
    match live.get(payment.key) {
        Some(entry) => entry.number == payment.number,
        None => false,
    }
}

/// Makes a payment of a parcel, or hands the parcel back for want of memory, with at most more room.
fn add(
    live: &mut Slab<Entry>,
    listed: &mut Vec<Listed>,
    parcel: Parcel,
) -> Result<PaymentRef, Parcel>
    requires kept { AreKept live.old listed.old.items }
    requires few { length listed.old.items < most_made }
    ensures kept { AreKept live.new listed.new.items }
    ensures ok { OnOk result (IsMade (book_of live.old listed.old.items 0) (book_of live.new listed.new.items 0) parcel) }
    ensures payment { IfOk result (λ payment. payment ≡ record { number = length listed.old.items; key = live.old.vacant_key }) }
    ensures len { OnOk result (length listed.new.items ≡ length listed.old.items + 1) }
    ensures back { IfErr result (λ back. back ≡ parcel) }
    ensures err { OnErr result (IsRoomier (book_of live.old listed.old.items 0) (book_of live.new listed.new.items 0)) }
    ensures same { OnErr result (listed.new.items ≡ listed.old.items) }
{
    let Ok(()) = listed.reserve(1) else {
        return Err(parcel);
    };
    let Ok(()) = live.reserve(1) else {
        return Err(parcel);
    };
    let number = listed.len() as u32;
    let brand = parcel.brand();
    let balance = Balance::of(*listed.allocator(), parcel);
    let key = live.insert_reserved(Entry { number, balance });
    listed.push_reserved(Listed { brand, key });
    Ok(PaymentRef { number, key })
}

/// Takes out the payment that was made last, which is live, and gives its parcel.
fn remove_last(live: &mut Slab<Entry>, listed: &mut Vec<Listed>) -> Parcel
    requires kept { AreKept live.old listed.old.items }
    requires made { 0 < length listed.old.items }
    requires last { is_live (payment_view_at (book_of live.old listed.old.items 0).views (length listed.old.items - 1)) ≡ true }
    ensures kept { AreKept live.new listed.new.items }
    ensures unmade { IsUnmade (book_of live.old listed.old.items 0) (book_of live.new listed.new.items 0) result }
    ensures few { length listed.new.items + 1 ≡ length listed.old.items }
{
    let Some(last) = listed.pop() else {
        unreachable!();
    };
    let entry = live.remove(last.key);
    entry.balance.into_parcel()
}
