//! The world of a turn: a draft of the vault's rights, the stores that touch no rights and the
//! running totals, kept together at the turn's end or as they were at its start, without memory.
#![tactic(auto)]

/// What `draft_reads` gives to those above.
pub mod draft_reads_lib {
    pub mod payment_reads {
        pub use draft_reads::payment_reads::{
            is_live, payment_amount, payment_brand, payments_left, payments_made,
        };
    }

    pub mod purse_reads {
        pub use draft_reads::purse_reads::{purse_amount, purse_brand, purses_made};
    }

    pub mod seat_reads {
        pub use draft_reads::seat_reads::{
            is_open, last_allocation, seat_instance, seat_proposal, seats_made,
        };
    }
}

/// What `escrow` gives to those above.
pub mod escrow_lib {
    pub use escrow::Escrow;
}

ghost use Rattle.std.specs.Prelude.{◌≡◌, ◌<◌, length, IfOk, OnErr, OnOk};
ghost use Rattle.escrow.specs.Told.{nothing_told};
ghost use Rattle.host_world.specs.Turns.{IsBetween, arrived, ended, first_lists};
ghost use Rattle.host_world.specs.Worlds.{IsUndoable, kept_state, world_at_start, world_now};
ghost use Rattle.registers.specs.RegisterStates.{turn_ended};
ghost use Rattle.registers.specs.Stores.{registers_now};
ghost use Rattle.registers.specs.turn_records.Views.{answer_view, delivery_view, reading_view, turn_view};
ghost use Rattle.draft_reads.specs.vault.Drafts.{HandGoes, IsClean};
ghost use Rattle.draft_reads.specs.world_laws.First.{first_world};

pub use draft_reads::vault_lib;
use draft_reads::vault_lib::draft::{Draft, Vault};
use escrow::Escrow;
use escrow::amount_math_lib::Kind;
use registers::Registers;
use registers::promise_table::waiting::queue_delivery;
use registers::rights_model_lib::Sum;
use registers::turn_records_lib::deliveries::{Delivery, Reading};
use registers::turn_records_lib::events::Answer;
use registers::turn_records_lib::turns::TurnRecord;
use std::alloc::{AllocError, Global};

/// The world between turns. To let go of it is one call.
pub struct Ledger {
    pub vault: Vault,
    pub registers: Registers,
    /// What was told up to the last turn that was kept.
    pub sums: Escrow,
}

impl Drop for Ledger {
    fn drop(self) {
        let Ledger {
            vault: _,
            registers: _,
            sums: _,
        } = self;
    }
}

/// The world of a turn, which is to be kept or undone: it can't be dropped. The delivery that the turn is
/// about still waits, in front.
pub struct World {
    pub draft: Draft,
    pub registers: Registers,
    pub sums: Escrow,
}

/// A vault in which the brand of invitations was made, and nothing else.
fn first_vault(alloc: Global) -> Result<Vault, AllocError>
    ensures { IfOk result (λ vault. vault ≡ first_lists) }
{
    let mut draft = Vault::new(alloc).begin();
    match draft.add_brand(Kind::Set) {
        Ok(()) => Ok(draft.commit()),
        Err(fault) => {
            drop(draft.undo());
            Err(fault)
        }
    }
}

impl Ledger {
    /// The world of a new host: the brand of invitations was made, and nothing else.
    pub fn new(alloc: Global) -> Result<Ledger, AllocError>
        ensures world { IfOk result (λ world. kept_state world ≡ first_world) }
        ensures between { IfOk result IsBetween }
        ensures sums { IfOk result (λ world. world.sums ≡ nothing_told) }
    {
        let registers = Registers::new(alloc)?;
        let vault = first_vault(alloc)?;
        Ok(Ledger {
            vault,
            registers,
            sums: Escrow::new(alloc),
        })
    }

    /// A line of a party's comes in, behind all that waits. For want of memory all is as before.
    pub fn arrive(&mut self, delivery: Delivery) -> Result<(), AllocError>
        requires { IsBetween self.old }
        ensures ok { OnOk result (kept_state self.new
            ≡ arrived (delivery_view delivery) (kept_state self.old)) }
        ensures err { OnErr result (kept_state self.new ≡ kept_state self.old) }
        ensures between { IsBetween self.new }
        ensures sums { self.new.sums ≡ self.old.sums }
    {
        let pushed = queue_delivery(&mut self.registers.queue, delivery);
        self.registers.queue.forget();
        pushed
    }

    /// Starts a turn, which takes no memory.
    pub fn begin(self) -> World
        requires { IsBetween self }
        ensures now { world_now result ≡ kept_state self }
        ensures start { world_at_start result ≡ kept_state self }
        ensures clean { IsClean result.draft }
        ensures sums { result.sums ≡ self.sums }
    {
        let Ledger {
            vault,
            registers,
            sums,
        } = self;
        World {
            draft: vault.begin(),
            registers,
            sums,
        }
    }
}

impl World {
    /// Ends the turn as if it had not been, which takes no memory.
    pub fn undo(self) -> Ledger
        requires { HandGoes self.draft }
        ensures world { kept_state result ≡ world_at_start self }
        ensures between { IsBetween result }
        ensures sums { result.sums ≡ self.sums }
    {
        let World {
            draft,
            mut registers,
            sums,
        } = self;
        registers.back();
        Ledger {
            vault: draft.undo(),
            registers,
            sums,
        }
    }

    /// Ends the turn and keeps what it did, and answers its record, which takes no memory.
    pub fn commit(
        self,
        alloc: Global,
        number: u32,
        reading: Reading,
        answer: Answer,
        sums: Vec<Sum>,
    ) -> (Ledger, TurnRecord)
        requires clean { IsClean self.draft }
        requires waits { 0 < length (world_now self).waiting }
        ensures world { kept_state result.0 ≡ ended (world_now self) }
        ensures between { IsBetween result.0 }
        ensures turn { turn_view result.1 ≡ turn_ended number (reading_view reading) (answer_view answer)
            sums.items (registers_now self.registers) }
        ensures sums { result.0.sums ≡ self.sums }
    {
        let World {
            draft,
            mut registers,
            sums: told,
        } = self;
        let vault = draft.commit();
        let turn = registers.end_turn(alloc, number, reading, answer, sums);
        let kept = Ledger {
            vault,
            registers,
            sums: told,
        };
        (kept, turn)
    }
}
