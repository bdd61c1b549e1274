//! What opens and closes in the stores of a vault: purses, brands, seats.

ghost use Rattle.std.specs.Prelude.{◌≡◌, ◌+◌, [], length, IfErr, IfOk, OnErr, OnOk};
ghost use Rattle.vault_model.specs.proposals.Slots.{FitsSeat};
ghost use Rattle.vault_model.specs.Backwards.{HasEmptyLast, HasEmptySlot, HasFreshLast, HasNewLast, MayReopen};
ghost use Rattle.vault_model.specs.Lists.{with_closed_seat, with_new_seat, with_reopened_seat, without_last_brand, without_last_purse, without_last_seat, without_last_slot_of};
ghost use Rattle.vault_model.specs.Seats.{kept_seat_at};
ghost use Rattle.seats.specs.Staging.{without_staged};
ghost use Rattle.vault.specs.Asked.{IsSeatTooMany, MayClose};
ghost use Rattle.vault.specs.Memory.{HasBecome, IsBack, IsForward, kept_of, lists_of, staged_of};

use crate::stores::Stores;
use seats::seat_slots::CloseFault;
use seats::seats::OpenFault;
use std::alloc::AllocError;
use vault_model::proposals_lib::allocations::Allocation;
use vault_model::proposals_lib::offers::Proposal;

impl Stores {
    /// Takes the purse that was opened last away, which has nothing. It takes no memory.
    pub fn unopen_purse(&mut self)
        requires { HasEmptyLast (lists_of self.old) }
        ensures { IsBack self.old self.new (without_last_purse (lists_of self.old)) }
    {
        self.purses.undo_open();
    }

    /// Takes the last brand away, of which nothing was issued. It takes no memory.
    pub fn unadd_brand(&mut self)
        requires { HasFreshLast (lists_of self.old) }
        ensures { IsBack self.old self.new (without_last_brand (lists_of self.old)) }
    {
        self.transit.undo_add_brand();
    }

    /// Opens a seat of an instance for a proposal, with a slot for each of its shares and nothing in them, and
    /// answers its number, or hands the proposal back: `Limit` exactly where there may be no more seats, or
    /// not that many payments. On an error all is as before.
    pub fn open_seat(
        &mut self,
        instance: u32,
        proposal: Proposal,
    ) -> Result<u32, (Proposal, OpenFault)>
        requires { FitsSeat proposal }
        ensures ok { OnOk result (HasBecome self.old self.new (with_new_seat (lists_of self.old) instance proposal)) }
        ensures number { IfOk result (λ seat. seat ≡ length (lists_of self.old).seats) }
        ensures limit { IfErr result (λ (_, fault). fault ≡ OpenFault.Limit → IsSeatTooMany (lists_of self.old) proposal) }
        ensures back { IfErr result (λ (back, _). back ≡ proposal) }
        ensures err { OnErr result (self.new ≡ self.old) }
    {
        let slots = (proposal.give.len() + proposal.want.len()) as u32;
        let Ok(()) = self.payments.reserve_slots(slots) else {
            return Err((proposal, OpenFault::Limit));
        };
        match self.seats.open(instance, proposal) {
            Ok(seat) => Ok(seat),
            Err(fault) => {
                self.payments.undo_reserve_slots(slots);
                Err(fault)
            }
        }
    }

    /// Takes the seat that was opened last away, to which nothing was done. It takes no memory.
    pub fn unopen_seat(&mut self)
        requires { HasNewLast (lists_of self.old) }
        ensures { IsBack self.old self.new (without_last_seat (lists_of self.old)) }
    {
        let last = self.seats.made() - 1;
        let slots = self.seats.open_slots(last) as u32;
        self.seats.undo_open();
        self.payments.undo_reserve_slots(slots);
    }

    /// Takes the slot of a seat away that stands last, which has nothing. It takes no memory.
    pub fn unopen_slot(&mut self, seat: u32)
        requires { HasEmptySlot seat (lists_of self.old) }
        ensures { IsBack self.old self.new (without_last_slot_of seat (lists_of self.old)) }
    {
        self.seats.undo_open_slot(seat);
        self.payments.undo_reserve_slots(1);
    }

    /// Closes an open seat, which keeps what its slots have, and answers that. Its payments are owed no
    /// more: they are made next. What is staged of it is let go. On an error all is as before.
    pub fn close_seat(&mut self, seat: u32) -> Result<Allocation, AllocError>
        requires { MayClose (lists_of self.old) seat }
        ensures ok { OnOk result (IsForward self.old self.new (with_closed_seat (lists_of self.old) seat) (without_staged seat (staged_of self.old)) (kept_of self.old)) }
        ensures last { IfOk result (λ last. last ≡ (kept_seat_at (lists_of self.old).seats seat).slots) }
        ensures err { OnErr result (self.new ≡ self.old) }
    {
        let slots = self.seats.open_slots(seat) as u32;
        match self.seats.close(seat) {
            Ok(last) => {
                self.payments.undo_reserve_slots(slots);
                Ok(last)
            }
            Err(CloseFault::NoMemory) => Err(AllocError),
            Err(CloseFault::SeatExited) => unreachable!(),
        }
    }

    /// Opens a seat again that was closed, whose payments are owed again. It takes no memory.
    pub fn reopen_seat(&mut self, seat: u32)
        requires { MayReopen seat (lists_of self.old) }
        ensures { IsBack self.old self.new (with_reopened_seat seat (lists_of self.old)) }
    {
        self.seats.undo_close(seat);
        let slots = self.seats.open_slots(seat) as u32;
        let Ok(()) = self.payments.reserve_slots(slots) else {
            unreachable!();
        };
    }

    /// Lets go of all that is staged (own: staging ends with the turn). It takes no memory.
    pub fn end_staging(&mut self)
        ensures lists { lists_of self.new ≡ lists_of self.old }
        ensures staging { staged_of self.new ≡ [] }
        ensures purses { self.new.purses ≡ self.old.purses }
        ensures transit { self.new.transit ≡ self.old.transit }
    {
        self.seats.end_staging();
    }
}
