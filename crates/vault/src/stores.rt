//! The stores of a vault, and the halves of a movement on them.

ghost use Rattle.std.specs.Prelude.{◌≡◌, ◌<◌, ◌+◌, ◌∷◌, [], List, is_some, length, IfErr, IsTrue, IfOk, OnErr, OnOk, ◌↔◌};
ghost use Rattle.vault_model.specs.amount_math.Content.{Contains, nothing, sum};
ghost use Rattle.vault_model.specs.amount_math.ValueView.{IsValue, ValueView};
ghost use Rattle.vault_model.specs.ertp_mint.BrandSupply.{IsMintRefusal, MayIssue};
ghost use Rattle.vault_model.specs.ertp_mint.Balances.{HasRoomFor};
ghost use Rattle.vault_model.specs.ertp_mint.Stocks.{most_made};
ghost use Rattle.vault_model.specs.holders.PaymentViews.{IsKept};
ghost use Rattle.vault_model.specs.Lists.{no_lists, slot_of, ungiven, untaken};
ghost use Rattle.vault_model.specs.proposals.Shares.{amount_under};
ghost use Rattle.vault_model.specs.Seats.{HasSlotOf, kept_seat_at};
ghost use Rattle.seats.specs.Store.{slot_store};
ghost use Rattle.transit.specs.Transit.{IsOnItsWay, in_store, kind_in, supply_in};
ghost use Rattle.vault.specs.Asked.{IsPutFault, IsSlotFor, IsSource, IsTarget, MayOpenSlot, TakesIn, brand_of, held_by};
ghost use Rattle.vault.specs.Forgetting.{IsForgetting};
ghost use Rattle.vault.specs.Memory.{CanUngiveHere, CanUntakeHere, IsGiven, IsGivenFurther, IsHalf, IsRoomed, IsTaken, kept_of, kept_ungiven, lists_of, store_of, store_ungiven, store_untaken};

use seats::seats::{Seats, SlotFault};
use std::alloc::{AllocError, Global};
use transit::Transit;
use vault_model::amount_math_lib::{PutFault, Value};
use vault_model::ertp_mint_lib::Parcel;
use vault_model::holders_lib::payments::{MakeFault, PaymentRef, Payments};
use vault_model::holders_lib::purses::Purses;
use vault_model::host_text_lib::keyword::Keyword;
use vault_model::rights_model_lib::{Holder, Movement};

/// Purses, payments, seats, and what is out of each brand with the hand's own store.
#[derive(Drop)]
pub struct Stores {
    pub purses: Purses,
    pub payments: Payments,
    pub seats: Seats,
    pub transit: Transit,
}

impl Stores {
    /// Stores in which nothing was made.
    pub fn new(alloc: Global) -> Stores
        ensures lists { lists_of result ≡ no_lists }
        ensures staging { result.seats.staging ≡ [] }
        ensures brands { result.transit.out ≡ [] }
    {
        Stores {
            purses: Purses::new(alloc),
            payments: Payments::new(alloc),
            seats: Seats::new(alloc),
            transit: Transit::new(alloc),
        }
    }

    /// Takes out again what was given to a holder. It takes no memory.
    pub fn ungive(&mut self, to: &Holder, brand: u16, value: Value) -> Parcel
        requires { CanUngiveHere self.old to.now brand value }
        ensures half { IsHalf self.old self.new (ungiven (lists_of self.old) to.now brand value) (store_ungiven (store_of self.old) to.now brand value.content) (kept_ungiven (kept_of self.old) to.now brand value.content) }
        ensures parcel { result ≡ record { brand = brand; value = value } }
    {
        match to {
            Holder::Purse(purse) => self.purses.undo_put(*purse, value),
            Holder::Payment(_) => self.payments.undo_make(),
            Holder::Slot(seat, keyword) => self.seats.undo_put(*seat, keyword, value),
            Holder::Hand => self.transit.let_go(brand, value),
            Holder::Outside => self.transit.undo_retire(brand, value),
        }
    }

    /// Puts in again what was taken of a holder. It takes no memory.
    pub fn untake(&mut self, from: &Holder, parcel: Parcel)
        requires { CanUntakeHere self.old from.now parcel }
        ensures { IsHalf self.old self.new (untaken (lists_of self.old) from.now parcel.brand parcel.value) (store_untaken (store_of self.old) from.now parcel.brand parcel.value.content) (kept_of self.old) }
    {
        match from {
            Holder::Purse(purse) => self.purses.undo_take(*purse, parcel),
            Holder::Payment(payment) => self.payments.undo_spend(*payment, parcel),
            Holder::Slot(seat, keyword) => self.seats.undo_take(*seat, keyword, parcel),
            Holder::Hand => self.transit.hold(parcel),
            Holder::Outside => self.transit.undo_issue(parcel),
        }
    }

    /// The brand of a purse, a payment or a slot.
    pub fn brand(&self, holder: &Holder) -> u16
        requires { (part : ValueView) × IsSource (lists_of self.now) holder.now part }
        ensures { result ≡ brand_of (lists_of self.now) holder.now }
    {
        match holder {
            Holder::Purse(purse) => self.purses.brand(*purse),
            Holder::Payment(payment) => {
                let payment = ref_of(&self.payments, *payment);
                self.payments.brand(payment)
            }
            Holder::Slot(seat, keyword) => self.seats.brand(*seat, keyword),
            _ => unreachable!(),
        }
    }

    /// Whether a purse or a slot has at least the part. A payment is taken whole.
    pub fn has(&self, holder: &Holder, part: &Value) -> bool
        requires { IsSource (lists_of self.now) holder.now part.now }
        ensures { IsTrue result ↔ Contains (held_by (lists_of self.now) holder.now) part.now.content }
    {
        match holder {
            Holder::Purse(purse) => self.purses.amount(*purse).is_gte(part),
            Holder::Slot(seat, keyword) => self.seats.holding(*seat, keyword).is_gte(part),
            _ => true,
        }
    }

    /// Whether a seat has a slot of a keyword.
    pub fn has_slot(&self, seat: u32, keyword: &Keyword) -> bool
        requires { seat < length (lists_of self.now).seats }
        ensures { result ≡ is_some (amount_under keyword.now (kept_seat_at (lists_of self.now).seats seat).slots) }
    {
        self.seats.has_slot(seat, keyword)
    }

    /// Takes a value of a purse or a slot, or a payment whole, so that it can be put back without memory. It
    /// takes none.
    pub fn take_from(&mut self, from: &Holder, value: Value) -> Parcel
        requires source { IsSource (lists_of self.old) from.now value }
        requires has { Contains (held_by (lists_of self.old) from.now) value.content }
        ensures taken { IsTaken self.old self.new from.now (brand_of (lists_of self.old) from.now) value }
        ensures parcel { result ≡ record { brand = brand_of (lists_of self.old) from.now; value = value } }
    {
        match from {
            Holder::Purse(purse) => self.purses.take_value(*purse, value),
            Holder::Payment(payment) => {
                let payment = ref_of(&self.payments, *payment);
                match self.payments.spend(payment) {
                    Ok(parcel) => parcel,
                    Err(_) => unreachable!(),
                }
            }
            Holder::Slot(seat, keyword) => self.seats.take_value(*seat, keyword, value),
            _ => unreachable!(),
        }
    }

    /// Puts a parcel in a purse or a slot, or makes a payment of it, so that it can be taken back without
    /// memory; or hands the parcel back, and has made room alone.
    pub fn give_to(&mut self, to: &Holder, parcel: Parcel) -> Result<(), (Parcel, PutFault)>
        requires { IsTarget (lists_of self.old) to.now parcel }
        ensures ok { OnOk result (IsGiven self.old self.new to.now parcel.brand parcel.value) }
        ensures value { OnOk result (TakesIn (lists_of self.old) to.now parcel) }
        ensures back { IfErr result (λ (back, _). back ≡ parcel) }
        ensures err { OnErr result (IsRoomed self.old self.new) }
        ensures refused { IfErr result (λ (_, fault). IsPutFault (lists_of self.old) to.now parcel fault) }
    {
        match to {
            Holder::Purse(purse) => self.purses.put(*purse, parcel),
            Holder::Payment(_) => self.make(parcel),
            Holder::Slot(seat, keyword) => self.put_in_slot(*seat, keyword, parcel),
            _ => unreachable!(),
        }
    }

    /// Opens a further slot in an open seat and puts a parcel in it, so that both can be worked backwards
    /// without memory; or hands the parcel back, and all is as before.
    pub fn give_further(
        &mut self,
        seat: u32,
        keyword: &Keyword,
        parcel: Parcel,
    ) -> Result<(), (Parcel, PutFault)>
        requires { MayOpenSlot (lists_of self.old) seat keyword.now }
        ensures ok { OnOk result (IsGivenFurther self.old self.new seat keyword.now parcel) }
        ensures value { OnOk result (TakesIn (lists_of self.old) (Holder.Slot seat keyword.now) parcel) }
        ensures back { IfErr result (λ (back, _). back ≡ parcel) }
        ensures err { OnErr result (self.new ≡ self.old) }
        ensures refused { IfErr result (λ (_, fault). IsPutFault (lists_of self.old) (Holder.Slot seat keyword.now) parcel fault) }
    {
        let Ok(()) = self.payments.reserve_slots(1) else {
            unreachable!();
        };
        match self.seats.put(seat, keyword, parcel) {
            Ok(()) => Ok(()),
            Err((parcel, fault)) => {
                self.payments.undo_reserve_slots(1);
                match fault {
                    SlotFault::Put(fault) => Err((parcel, fault)),
                    SlotFault::SeatExited => unreachable!(),
                }
            }
        }
    }

    /// Puts a parcel in a slot of an open seat, or hands it back, and has made room alone.
    fn put_in_slot(
        &mut self,
        seat: u32,
        keyword: &Keyword,
        parcel: Parcel,
    ) -> Result<(), (Parcel, PutFault)>
        requires { IsSlotFor (lists_of self.old) seat keyword.now parcel }
        ensures ok { OnOk result (IsGiven self.old self.new (Holder.Slot seat keyword.now) parcel.brand parcel.value) }
        ensures value { OnOk result (IsValue parcel.value.kind (sum (slot_of (lists_of self.old) seat keyword.now).value.content parcel.value.content)) }
        ensures back { IfErr result (λ (back, _). back ≡ parcel) }
        ensures err { OnErr result (IsRoomed self.old self.new) }
        ensures refused { IfErr result (λ (_, fault). IsPutFault (lists_of self.old) (Holder.Slot seat keyword.now) parcel fault) }
    {
        match self.make_room_in_slot(seat, keyword, parcel.value()) {
            Ok(()) => {
                self.seats.put_within(seat, keyword, parcel);
                Ok(())
            }
            Err(fault) => Err((parcel, fault)),
        }
    }

    /// Takes room in a slot for a value, with which what the slot has is one too, or says why not.
    fn make_room_in_slot(
        &mut self,
        seat: u32,
        keyword: &Keyword,
        value: &Value,
    ) -> Result<(), PutFault>
        requires slot { HasSlotOf (lists_of self.old).seats seat keyword.now }
        requires kind { (slot_of (lists_of self.old) seat keyword.now).value.kind ≡ value.now.kind }
        ensures roomed { IsRoomed self.old self.new }
        ensures room { OnOk result (HasRoomFor (slot_store seat keyword.now self.new.seats) value.now.content) }
        ensures value { OnOk result (IsValue value.now.kind (sum (slot_of (lists_of self.old) seat keyword.now).value.content value.now.content)) }
        ensures refused { IfErr result (λ fault. IsPutFault (lists_of self.old) (Holder.Slot seat keyword.now) (record { brand = 0; value = value.now }) fault) }
    {
        if let Err(fault) = self.seats.holding(seat, keyword).can_absorb(value) {
            return Err(fault);
        }
        let _kind = value.kind();
        match self.seats.make_room_for(seat, keyword, value) {
            Ok(()) => Ok(()),
            Err(_) => Err(PutFault::NoMemory),
        }
    }

    /// Brings a value of a brand out, so that it can be worked backwards without memory, or hands it back.
    pub fn issue(&mut self, brand: u16, value: Value) -> Result<Parcel, (Value, PutFault)>
        requires made { brand < length self.old.transit.out }
        requires kind { kind_in self.old.transit brand ≡ value.kind }
        requires empty { in_store self.old.transit brand ≡ nothing }
        ensures ok { OnOk result (IsTaken self.old self.new Holder.Outside brand value) }
        ensures parcel { IfOk result (λ parcel. parcel ≡ record { brand = brand; value = value }) }
        ensures may { OnOk result (MayIssue (supply_in self.old.transit brand) value) }
        ensures back { IfErr result (λ (back, _). back ≡ value) }
        ensures err { OnErr result (self.new ≡ self.old) }
        ensures refused { IfErr result (λ (_, fault). IsMintRefusal (supply_in self.old.transit brand) value fault) }
    {
        self.transit.issue(brand, value)
    }

    /// Ends a parcel that is on its way, so that it can be worked backwards without memory. It takes none.
    pub fn retire(&mut self, parcel: Parcel)
        requires { IsOnItsWay self.old.transit parcel }
        ensures { IsGiven self.old self.new Holder.Outside parcel.brand parcel.value }
    {
        let _value = self.transit.retire(parcel);
    }

    /// Keeps what a movement retired no longer. It takes no memory.
    pub fn forget(&mut self, movement: &Movement)
        requires { (start : Stores) × (rest : List Movement) × IsForgetting start self.old (movement.now ∷ rest) }
        ensures { (start : Stores) (rest : List Movement) → IsForgetting start self.old (movement.now ∷ rest) → IsForgetting start self.new rest }
    {
        if let Holder::Outside = movement.to {
            self.transit.forget(movement.brand, &movement.value);
        }
    }

    /// Makes the next payment of a parcel, or hands it back for want of memory.
    fn make(&mut self, parcel: Parcel) -> Result<(), (Parcel, PutFault)>
        requires { length self.old.payments.views + self.old.payments.slots < most_made }
        ensures ok { OnOk result (IsGiven self.old self.new (Holder.Payment (length self.old.payments.views)) parcel.brand parcel.value) }
        ensures back { IfErr result (λ (back, _). back ≡ parcel) }
        ensures err { OnErr result (IsRoomed self.old self.new) }
        ensures refused { IfErr result (λ (_, fault). fault ≡ PutFault.NoMemory) }
    {
        match self.payments.make(parcel) {
            Ok(_) => Ok(()),
            Err((parcel, MakeFault::NoMemory)) => Err((parcel, PutFault::NoMemory)),
            Err((_, MakeFault::Limit)) => unreachable!(),
        }
    }
}

/// Where the payment of a number stands, which was made.
fn ref_of(payments: &Payments, payment: u32) -> PaymentRef
    requires { payment < length payments.now.views }
    ensures kept { IsKept payments.now result }
    ensures number { result.number ≡ payment }
{
    let _made = payments.made();
    match payments.find(payment) {
        Some(found) => found,
        None => unreachable!(),
    }
}
