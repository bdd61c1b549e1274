//! The stores of the world that touch no rights, together: a turn that goes back leaves all as they
//! were at its start, and one that is kept makes what they are the next turn's start.
#![tactic(auto)]

pub mod brand_makers;
pub mod promise_table;
pub mod time_effects;

ghost use Rattle.std.specs.Prelude.{◌≡◌, ◌<◌, [], IfOk, drop, length};
ghost use Rattle.registers.specs.PromiseTables.{waiting_of};
ghost use Rattle.world_state.specs.turn_records.Views.{answer_view, delivery_view, reading_view, turn_view};
ghost use Rattle.registers.specs.RegisterStates.{after_turn, front_of, new_registers, turn_ended};

use crate::brand_makers::BrandMakers;
use crate::promise_table::PromiseTable;
use crate::time_effects::Timed;
use std::alloc::{AllocError, Global};
use world_state::actors_lib::Parties;
use world_state::actors_lib::instance_store::Instances;
use world_state::actors_lib::instance_store::facets::Facets;
use world_state::actors_lib::instance_store::seat_promises::SeatPromises;
use world_state::brands_lib::Brands;
use world_state::rights_model_lib::Sum;
use world_state::turn_records_lib::deliveries::{Delivery, Reading};
use world_state::turn_records_lib::events::Answer;
use world_state::turn_records_lib::log::Log;
use world_state::turn_records_lib::turn_answers::records::{Delivered, turn_of};
use world_state::turn_records_lib::turns::TurnRecord;
use world_state::turn_stores_lib::invitations::Invitations;
use world_state::turn_stores_lib::timer::Timer;
use world_state::turn_stores_lib::turn_queue::TurnQueue;
pub use world_state::{rights_model_lib, turn_records_lib};

/// The stores. Each call of one of them says what it makes of its part of the world's state (`registers_now`). To let go
/// of them is one call.
pub struct Registers {
    pub brands: Brands,
    /// Who made each brand, by its number.
    pub makers: BrandMakers,
    pub invitations: Invitations,
    pub timer: Timer<Timed>,
    pub promises: PromiseTable,
    pub instances: Instances,
    pub facets: Facets,
    /// The promises of each seat, by its number.
    pub pairs: SeatPromises,
    pub parties: Parties,
    pub queue: TurnQueue<Delivery>,
    pub log: Log,
}

impl Drop for Registers {
    fn drop(self) {
        let Registers {
            brands: _,
            makers: _,
            invitations: _,
            timer: _,
            promises: _,
            instances: _,
            facets: _,
            pairs: _,
            parties: _,
            queue: _,
            log: _,
        } = self;
    }
}

impl Registers {
    ghost use Rattle.registers.specs.Stores.{registers_at_start, registers_now};

    /// The stores of a new host: brand 0, that of invitations, is its own, and there is nothing else.
    pub fn new(alloc: Global) -> Result<Registers, AllocError>
        ensures now { IfOk result (λ stores. registers_now stores ≡ new_registers) }
        ensures start { IfOk result (λ stores. registers_at_start stores ≡ new_registers) }
    {
        let makers = BrandMakers::new(alloc)?;
        let brands = Brands::new(alloc)?;
        Ok(Registers {
            brands,
            makers,
            invitations: Invitations::new(alloc),
            timer: Timer::new(alloc),
            promises: PromiseTable::new(alloc),
            instances: Instances::new(alloc),
            facets: Facets::new(alloc),
            pairs: SeatPromises::new(alloc),
            parties: Parties::new(alloc),
            queue: TurnQueue::new(alloc),
            log: Log::new(alloc),
        })
    }

    /// Goes back to the turn's start, in which nothing has happened yet. It takes no memory.
    pub fn back(&mut self)
        ensures now { registers_now self.new ≡ registers_at_start self.old }
        ensures start { registers_at_start self.new ≡ registers_at_start self.old }
    {
        self.brands.back();
        self.makers.back();
        self.invitations.back();
        self.instances.back();
        self.facets.back();
        self.pairs.back();
        self.timer.back();
        self.promises.back();
        self.parties.back();
        self.queue.back();
        self.log.back();
    }

    /// Keeps what is now, where what happened has been taken out of the log. It takes no memory.
    pub fn forget(&mut self)
        requires { (registers_now self.old).log ≡ [] }
        ensures now { registers_now self.new ≡ registers_now self.old }
        ensures start { registers_at_start self.new ≡ registers_now self.old }
    {
        self.brands.forget();
        self.makers.forget();
        self.invitations.forget();
        self.instances.forget();
        self.facets.forget();
        self.pairs.forget();
        self.timer.forget();
        self.promises.forget();
        self.parties.forget();
        self.queue.forget();
    }
    /// Ends a turn that is kept, and answers its record: the delivery in front is taken out of the queue, and what
    /// happened out of the log; what is now is the next turn's start. It comes after the rights of the turn are
    /// kept, and takes no memory.
    pub fn end_turn(
        &mut self,
        alloc: Global,
        number: u32,
        reading: Reading,
        answer: Answer,
        sums: Vec<Sum>,
    ) -> TurnRecord
        requires { 0 < length self.old.queue.now }
        ensures turn { turn_view result ≡ turn_ended number (reading_view reading) (answer_view answer)
            sums.items (registers_now self.old) }
        ensures now { registers_now self.new ≡ after_turn (registers_now self.old) }
        ensures start { registers_at_start self.new ≡ after_turn (registers_now self.old) }
    {
        self.queue.forget();
        let delivery = take_front(&mut self.queue);
        let delivered = Delivered { delivery, reading };
        let ended = turn_of(alloc, number, delivered, answer, &mut self.log, sums);
        self.forget();
        ended
    }
}

/// Takes out the delivery in front, between turns.
#[tactic(auto, using(crate::proofs::Front::front_view, crate::proofs::Front::behind_view))]
fn take_front(queue: &mut TurnQueue<Delivery>) -> Delivery
    requires waits { 0 < length queue.old.now }
    requires between_turns { queue.old.start ≡ queue.old.now }
    ensures front { delivery_view result ≡ front_of (waiting_of queue.old.now) }
    ensures behind { waiting_of queue.new.now ≡ drop 1 (waiting_of queue.old.now) }
    ensures start { queue.new.start ≡ queue.new.now }
{
    match queue.pop() {
        Some(delivery) => delivery,
        None => unreachable!(),
    }
}
