//! The table of promises.

ghost use Rattle.std.specs.Prelude.{◌≡◌, ◌≢◌, ◌↔◌, ◌<◌, ◌+◌, ◌++◌, ◌∷◌, [], ℕ, Err, None, IfErr, IfOk, IfSome, IsOk, OnErr, OnOk, is_some, length};
ghost use Rattle.world_state.specs.promise_store.Linked.{LeadsTo, most_made};
ghost use Rattle.world_state.specs.promise_store.States.{settlement_view};
ghost use Rattle.world_state.specs.promise_store.Turns.{back_at, kept_at, state_at};
ghost use Rattle.world_state.specs.promise_store.Views.{now_of, promises_of, state_view};
ghost use Rattle.world_state.specs.promise_store.declared.store.FollowFault.TheVariants as faults;
ghost use Rattle.world_state.specs.promise_store.declared.store.MakeFault.TheVariants as make_faults;
ghost use Rattle.world_state.specs.turn_records.Deliveries.{send};
ghost use Rattle.world_state.specs.turn_records.Logs.{log_of};
ghost use Rattle.world_state.specs.turn_records.Views.{notice_view, send_view};
ghost use Rattle.world_state.specs.Promises.{IsPending, asking, following, resolving, settlement_at, settling, state_of, target_of, told_at_once, with_promise};
ghost use Rattle.registers.specs.Books.{AreRequestsIn, ComesRound};
ghost use Rattle.registers.specs.Facts.{AreBooked-prop};
ghost use Rattle.registers.specs.PromiseTables.{AreBooked, beside, book_before, book_now, book_of, books_of, notice_views, told_after, waiting_of, waits_after};

use crate::promise_table::calls::{keep_request, settle_promise};
use crate::promise_table::telling::tell_all;
use crate::promise_table::waiting::queue_delivery;
use std::alloc::{AllocError, Global};
use world_state::host_data_lib::data::{Data, ObjKind};
use world_state::promise_store_lib::{
    Consequence, FollowFault, MakeFault, Promises, Settlement, State,
};
use world_state::turn_records_lib::deliveries::{Delivery, Notice, Send};
use world_state::turn_records_lib::log::Log;
use world_state::turn_stores_lib::turn_queue::TurnQueue;

/// All promises, and the functions that are to be told of them (eventual send). Contracts see the stores of
/// the turn's start and of now, and by `book_at_start` and `book` what they are to the world.
#[derive(Drop)]
pub struct PromiseTable {
    promises: Promises<Notice>,
    alloc: Global,
    ghost booked: { AreBooked (promises_of promises) } by { AreBooked-prop (promises_of promises) },
}

impl PromiseTable {
    ghost use Rattle.registers.specs.Tables.{book, book_at_start, made_in, settled_at, standing, start_of, turn_of};

    /// No promises yet.
    pub fn new(alloc: Global) -> PromiseTable
        ensures start { book_at_start result ≡ record { settled = []; follows = []; requests = [] } }
        ensures now { book result ≡ record { settled = []; follows = []; requests = [] } }
    {
        PromiseTable {
            promises: Promises::new(alloc),
            alloc,
        }
    }

    /// The promises, as a store.
    pub fn promises(&self) -> &Promises<Notice>
        ensures { promises_of result.now ≡ turn_of self.now }
    {
        &self.promises
    }

    /// How many promises were made: the number that the next one gets.
    pub fn made(&self) -> u32
        ensures { result ≡ made_in self.now }
    {
        self.promises.made()
    }

    /// A promise as it is.
    pub fn state(&self, promise: u32) -> State<'_>
        requires { promise < made_in self.now }
        ensures { state_view result ≡ state_of (book self.now) promise }
    {
        self.promises.state(promise)
    }

    /// Makes the next promise, which is pending, and answers its number. On an error all is as before.
    pub fn make(&mut self) -> Result<u32, MakeFault>
        ensures ok { OnOk result (book self.new ≡ with_promise None (book self.old)) }
        ensures number { IfOk result (λ number. number ≡ made_in self.old) }
        ensures room { IsOk result → made_in self.old < most_made }
        ensures limit { IfErr result
            (λ fault. (fault ≡ make_faults.Limit) ↔ (made_in self.old ≡ most_made)) }
        ensures start { start_of self.new ≡ start_of self.old }
        ensures err { OnErr result (turn_of self.new ≡ turn_of self.old) }
    {
        self.promises.make()
    }

    /// A promise is settled for good, with all that follows it; those who are to be told of them are queued.
    pub fn settle(
        &mut self,
        promise: u32,
        settlement: Settlement,
        queue: &mut TurnQueue<Delivery>,
        log: &mut Log,
    ) -> Result<(), AllocError>
        requires pending { IsPending (book self.old) promise }
        requires ends { target_of (settlement_view settlement) ≡ None }
        ensures ok { OnOk result (standing self.new queue.new.now log.new
            ≡ settling promise (settlement_view settlement) (book self.old)
            (waiting_of queue.old.now) (log_of log.old)) }
        ensures start { start_of self.new ≡ start_of self.old }
        ensures queue_start { queue.new.start ≡ queue.old.start }
    {
        let events = settle_promise(&mut self.promises, promise, settlement)?;
        self.tell(promise, events.as_slice(), queue, log)
    }

    /// A promise follows another. Where that one is settled, it is settled at once with the same, with all that
    /// follows it. A promise that would follow itself, at once or through others, is refused, and all is as before.
    pub fn follow(
        &mut self,
        promise: u32,
        target: u32,
        queue: &mut TurnQueue<Delivery>,
        log: &mut Log,
    ) -> Result<(), FollowFault>
        requires pending { IsPending (book self.old) promise }
        requires target_made { target < made_in self.old }
        ensures cycle { (result ≡ Err (faults.PromiseCycle promise))
            ↔ LeadsTo (book self.old).follows promise target }
        ensures shown { IfErr result (λ f. (n : ℕ) → f ≡ faults.PromiseCycle n → n ≡ promise) }
        ensures ok { OnOk result (standing self.new queue.new.now log.new
            ≡ following (settled_at self.old target) promise target
            (book self.old) (waiting_of queue.old.now) (log_of log.old)) }
        ensures refused { result ≡ Err (faults.PromiseCycle promise)
            → standing self.new queue.new.now log.new
            ≡ standing self.old queue.old.now log.old }
        ensures start { start_of self.new ≡ start_of self.old }
        ensures queue_start { queue.new.start ≡ queue.old.start }
    {
        let events = self.promises.follow(promise, target)?;
        match self.tell(promise, events.as_slice(), queue, log) {
            Ok(()) => Ok(()),
            Err(_) => Err(FollowFault::NoMemory),
        }
    }

    /// Resolves a promise (eventual send): one that is resolved to another follows it, any other is settled. What
    /// is settled is told in the log, and those who are to be told of it are queued, all in the cascade's order.
    /// A promise that would follow itself is refused, and all is as before. For want of memory all can be worked
    /// back: the turn's start stays.
    pub fn resolve(
        &mut self,
        promise: u32,
        settlement: Settlement,
        queue: &mut TurnQueue<Delivery>,
        log: &mut Log,
    ) -> Result<(), FollowFault>
        requires pending { IsPending (book self.old) promise }
        requires target_made { IfSome (target_of (settlement_view settlement))
            (λ target. target < made_in self.old) }
        ensures cycle { (result ≡ Err (faults.PromiseCycle promise))
            ↔ ComesRound (book self.old).follows promise (target_of (settlement_view settlement)) }
        ensures shown { IfErr result (λ f. (n : ℕ) → f ≡ faults.PromiseCycle n → n ≡ promise) }
        ensures ok { OnOk result (standing self.new queue.new.now log.new
            ≡ resolving promise (settlement_view settlement) (book self.old)
            (waiting_of queue.old.now) (log_of log.old)) }
        ensures refused { result ≡ Err (faults.PromiseCycle promise)
            → standing self.new queue.new.now log.new
            ≡ standing self.old queue.old.now log.old }
        ensures start { start_of self.new ≡ start_of self.old }
        ensures queue_start { queue.new.start ≡ queue.old.start }
    {
        if let Some(target) = target_of(&settlement) {
            drop(settlement);
            return self.follow(promise, target, queue, log);
        }
        match self.settle(promise, settlement, queue, log) {
            Ok(()) => Ok(()),
            Err(_) => Err(FollowFault::NoMemory),
        }
    }

    /// A function asks to be told of a promise (eventual send's `when`): at once, in the queue, where the promise is
    /// settled; else once it is. For want of memory all is as before.
    pub fn ask(
        &mut self,
        request: Notice,
        queue: &mut TurnQueue<Delivery>,
    ) -> Result<(), AllocError>
        requires { request.promise < made_in self.old }
        ensures asking { OnOk result (book self.new
            ≡ asking (settled_at self.old request.promise) (notice_view request) (book self.old)) }
        ensures told { OnOk result (waiting_of queue.new.now
            ≡ waiting_of queue.old.now
            ++ told_at_once (settled_at self.old request.promise) (notice_view request)) }
        ensures start { start_of self.new ≡ start_of self.old }
        ensures queue_start { queue.new.start ≡ queue.old.start }
        ensures err { OnErr result (turn_of self.new ≡ turn_of self.old) }
        ensures queue_err { OnErr result (queue.new ≡ queue.old) }
    {
        let promise = request.promise;
        if self.is_settled(promise) {
            return queue_delivery(queue, Delivery::Notify(request));
        }
        keep_request(&mut self.promises, promise, request)
    }

    /// An instance sends a call (eventual send): the promise of its answer, which is the next, is made, and the call
    /// waits in the queue. Where no promise can be made (Limit), all is as before; for want of memory
    /// what is left can be worked back.
    pub fn send(&mut self, call: Send, queue: &mut TurnQueue<Delivery>) -> Result<(), MakeFault>
        requires { call.promise ≡ made_in self.old }
        ensures promises { OnOk result (book self.new ≡ with_promise None (book self.old)) }
        ensures waiting { OnOk result (waiting_of queue.new.now
            ≡ waiting_of queue.old.now ++ send (send_view call) ∷ []) }
        ensures limit { IfErr result
            (λ fault. (fault ≡ make_faults.Limit) ↔ (made_in self.old ≡ most_made)) }
        ensures refused { result ≡ Err make_faults.Limit → turn_of self.new ≡ turn_of self.old }
        ensures queue_refused { result ≡ Err make_faults.Limit → queue.new ≡ queue.old }
        ensures start { start_of self.new ≡ start_of self.old }
        ensures queue_start { queue.new.start ≡ queue.old.start }
    {
        self.make()?;
        match queue_delivery(queue, Delivery::Send(call)) {
            Ok(()) => Ok(()),
            Err(_) => Err(MakeFault::NoMemory),
        }
    }

    /// Whether a promise is settled.
    pub fn is_settled(&self, promise: u32) -> bool
        requires { promise < made_in self.now }
        ensures { result ≡ is_some (settled_at self.now promise) }
    {
        match self.promises.state(promise) {
            State::Settled(_) => true,
            State::Follows(_) => false,
            State::Pending => false,
        }
    }

    /// What came of settling a promise is told, where it is settled.
    fn tell(
        &self,
        promise: u32,
        happened: &[Consequence],
        queue: &mut TurnQueue<Delivery>,
        log: &mut Log,
    ) -> Result<(), AllocError>
        requires made { promise < (now_of self.now.promises).links.made }
        requires there { AreRequestsIn (length (now_of self.now.promises).entries) happened.now }
        ensures queued { OnOk result (waiting_of queue.new.now
            ≡ waits_after (state_at (now_of self.now.promises) promise)
            (notice_views (now_of self.now.promises).entries) happened.now (waiting_of queue.old.now)) }
        ensures told { OnOk result (log_of log.new
            ≡ told_after (state_at (now_of self.now.promises) promise) happened.now (log_of log.old)) }
        ensures start { queue.new.start ≡ queue.old.start }
    {
        match self.promises.state(promise) {
            State::Settled(settlement) => tell_all(
                self.alloc,
                &self.promises,
                happened,
                settlement,
                queue,
                log,
            ),
            _ => Ok(()),
        }
    }

    /// Goes back to the turn's start. It takes no memory.
    pub fn back(&mut self)
        ensures { turn_of self.new ≡ back_at (turn_of self.old) }
    {
        self.promises.back();
    }

    /// Forgets how it was: what is now is kept. It takes no memory.
    pub fn forget(&mut self)
        ensures { turn_of self.new ≡ kept_at (turn_of self.old) }
    {
        self.promises.forget();
    }
}

/// The promise that a settlement names: it is followed.
fn target_of(settlement: &Settlement) -> Option<u32>
    ensures { result ≡ target_of (settlement_view settlement.now) }
{
    match settlement {
        Settlement::Ok(Data::Object(object)) => match object.kind {
            ObjKind::Promise => Some(object.number),
            _ => None,
        },
        _ => None,
    }
}
