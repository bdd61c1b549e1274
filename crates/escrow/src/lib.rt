//! Running totals of what all purses, payments and slots have of each brand, and each instance's
//! seats: they equal the sums from scratch over the table that the told movements make, forwards
//! and back.
#![tactic(auto)]

mod rows;
mod totals;

/// What `rights_model` gives to those above.
pub mod rights_model_lib {
    pub use rights_model::{Holder, Movement, Sum};
}

ghost use Rattle.std.specs.Prelude.{◌≡◌, ◌<◌, ◌^◌, ℕ, length, slice_index, IsOk, OnErr, OnOk};
ghost use Rattle.rights_model.specs.Table.{Table, CanMove, moved, no_holdings};
ghost use Rattle.rights_model.specs.Totals.{held_over};
ghost use Rattle.escrow.specs.Sums.{AreHeld, AreSums, WasTold};
ghost use Rattle.escrow.specs.Told.{AreOpened, CanTell, CanUntell, EscrowState, HasRows, IsSame, IsSeated, IsTold, KeepsRows, is_slot_of, minted_with, nothing_told, share_of, sum_of};

use crate::rows::{
    ensure_share, ensure_totals, lower_share, raise_share, shift_totals, undo_shift_totals,
};
use crate::totals::Totals;
pub use rights_model::{amount_math_lib, host_text_lib};
use rights_model::{Movement, Sum};
use std::alloc::{AllocError, Global};
use std::collections::BTreeMap;
use std::marker::Model;

/// The running totals. Contracts see the totals of each brand, the share of each instance and brand, and
/// each seat's instance (specs/Told.antt); a row of zeros is room.
#[derive(Drop)]
pub struct Escrow {
    /// By brand.
    totals: BTreeMap<u16, Totals>,
    /// What the slots of an instance's seats have of a brand.
    shares: BTreeMap<(u32, u16), u128>,
    /// The instance of each seat, by its number.
    instances: Vec<u32>,
}

impl Model for Escrow {
    ghost use Rattle.escrow.specs.Told.{EscrowState};

    ghost Value = { EscrowState };

    ghost view = { λ a. record { totals = a.totals.entries; shares = a.shares.entries; instances = a.instances.items } };
}

impl Escrow {
    /// Nothing was told yet.
    pub fn new(alloc: Global) -> Escrow
        ensures start { result ≡ nothing_told }
        ensures sums { AreSums no_holdings result }
    {
        Escrow {
            totals: BTreeMap::new(alloc),
            shares: BTreeMap::new(alloc),
            instances: Vec::new(alloc),
        }
    }

    /// How much came of a brand from Outside since the start and went there, and how much of it all
    /// purses, all payments and all slots have: zeros where nothing was told of it.
    pub fn totals(&self, brand: u16) -> Sum
        ensures value { result ≡ sum_of self.now brand }
        ensures sums { (t : Table) → AreSums t self.now → AreHeld t brand result }
    {
        let totals = match self.totals.get(&brand) {
            Some(totals) => *totals,
            None => Totals::zero(),
        };
        totals.sum(brand)
    }

    /// How much of a brand the slots of an instance's seats have. The program doesn't use it.
    pub fn of_instance(&self, instance: u32, brand: u16) -> u128
        ensures value { result ≡ share_of self.now instance brand }
        ensures sums { (t : Table) → AreSums t self.now → result ≡ held_over (is_slot_of self.now.instances instance) t brand }
    {
        match self.shares.get(&(instance, brand)) {
            Some(share) => *share,
            None => 0,
        }
    }

    /// A seat of an instance was opened: the next one by number. On an error all is as before.
    pub fn opened(&mut self, seat: u32, instance: u32) -> Result<(), AllocError>
        requires { seat ≡ length self.old.instances }
        ensures ok { OnOk result (IsSeated self.old self.new instance) }
        ensures sums { OnOk result ((t : Table) → AreSums t self.old → AreSums t self.new) }
        ensures err { OnErr result (self.new ≡ self.old) }
    {
        let _ = seat;
        self.instances.push(instance)?;
        Ok(())
    }

    /// Works `opened` backwards: forgets the last seat, and leaves all as it was before.
    pub fn undo_opened(&mut self)
        requires { 0 < length self.old.instances }
        ensures ok { IsSeated self.new self.old (slice_index self.old.instances (length self.new.instances)) }
        ensures undone { (before : EscrowState) (i : ℕ) → IsSeated before self.old i → self.new ≡ before }
    {
        self.instances.pop();
    }

    /// A movement was made, on the table that was told so far, between holders of which each slot is that
    /// of a seat that was told. What was told from Outside of its brand stays below 2^128. For want of memory,
    /// which comes only where the brand, or a slot's pair of instance and brand, is new, all is as before.
    pub fn moved(&mut self, movement: &Movement) -> Result<(), AllocError>
        requires defined { (t : Table) × AreSums t self.old × CanMove t movement.now }
        requires opened { AreOpened self.old movement.now }
        requires minted { minted_with self.old movement.now < 2 ^ 128 }
        ensures ok { OnOk result (IsTold self.old self.new movement.now) }
        ensures sums { OnOk result ((t : Table) → AreSums t self.old → CanMove t movement.now → AreSums (moved t movement.now) self.new) }
        ensures known { HasRows self.old movement.now → IsOk result }
        ensures made { OnOk result (HasRows self.new movement.now) }
        ensures rows { KeepsRows self.old self.new }
        ensures err { OnErr result (IsSame self.old self.new) }
    {
        self.make_rows(movement)?;
        self.tell(movement);
        Ok(())
    }

    /// Works `moved` backwards: the totals are as that call left them, and its rows are there since. All
    /// that is read is then as before the call; the rows stay as room.
    pub fn undo_moved(&mut self, movement: &Movement)
        requires told { WasTold self.old movement.now }
        requires made { HasRows self.old movement.now }
        ensures ok { IsTold self.new self.old movement.now }
        ensures undone { (before : EscrowState) → IsTold before self.old movement.now → IsSame before self.new }
        ensures rows { KeepsRows self.old self.new }
    {
        self.untell(movement);
    }

    /// Makes the rows that a movement changes, where they are new. On an error all that is read is as before.
    fn make_rows(&mut self, movement: &Movement) -> Result<(), AllocError>
        ensures same { IsSame self.old self.new }
        ensures rows { KeepsRows self.old self.new }
        ensures made { OnOk result (HasRows self.new movement.now) }
        ensures known { HasRows self.old movement.now → IsOk result }
    {
        let brand = movement.brand;
        let instances = self.instances.as_slice();
        ensure_totals(&mut self.totals, brand)?;
        ensure_share(&mut self.shares, instances, &movement.from, brand)?;
        ensure_share(&mut self.shares, instances, &movement.to, brand)
    }

    /// Counts a movement whose rows are there.
    fn tell(&mut self, movement: &Movement)
        requires made { HasRows self.old movement.now }
        requires can { CanTell self.old movement.now }
        ensures ok { IsTold self.old self.new movement.now }
        ensures rows { KeepsRows self.old self.new }
    {
        let brand = movement.brand;
        let count = movement.value.total();
        let instances = self.instances.as_slice();
        shift_totals(&mut self.totals, brand, &movement.from, &movement.to, count);
        lower_share(&mut self.shares, instances, &movement.from, brand, count);
        raise_share(&mut self.shares, instances, &movement.to, brand, count);
    }

    /// Works `tell` backwards.
    fn untell(&mut self, movement: &Movement)
        requires made { HasRows self.old movement.now }
        requires can { CanUntell self.old movement.now }
        ensures ok { IsTold self.new self.old movement.now }
        ensures rows { KeepsRows self.old self.new }
    {
        let brand = movement.brand;
        let count = movement.value.total();
        let instances = self.instances.as_slice();
        undo_shift_totals(&mut self.totals, brand, &movement.from, &movement.to, count);
        lower_share(&mut self.shares, instances, &movement.to, brand, count);
        raise_share(&mut self.shares, instances, &movement.from, brand, count);
    }
}
