//! The store: the links between promises, with what requests hold and what promises were settled
//! with.

ghost use Rattle.std.specs.Prelude.{◌≡◌, ◌≢◌, ℕ, ◌<◌, ◌≤◌, ◌↔◌, ◌+◌, ◌++◌, ◌∷◌, [], Err, None, Some, IsTrue, IfErr, IfOk, IsOk, IsSome, OnErr, OnOk, length, slice_index_or, vec_capacity, vec_len};
ghost use Rattle.promise_store.specs.Cascade.{Settles, settled_in};
ghost use Rattle.promise_store.specs.Linked.{AreAlike, LeadsTo, asking, leader, links_changed, most_made, settlement_of, settling};
ghost use Rattle.promise_store.specs.States.{is_final, is_flat, pending, settled, settlement_view};
ghost use Rattle.promise_store.specs.Whole.{IsWhole};
ghost use Rattle.promise_store.specs.Turns.{AreSettledWith, ComesOfFollowing, answer_at_once, back_at, kept_at, none_yet, one_made, state_at, with_following, with_request, with_settled};
ghost use Rattle.promise_store.specs.declared.store.FollowFault.TheVariants as faults;
ghost use Rattle.promise_store.specs.declared.store.MakeFault.TheVariants as make_faults;

use crate::links::{Consequence, Links};
use crate::settlement::Settlement;
use std::alloc::{AllocError, Global};

/// A promise, as it is.
#[derive(Clone, Copy)]
pub enum State<'a> {
    /// It isn't settled, and follows none.
    Pending,
    /// It isn't settled, and follows the promise of this number, which isn't settled either.
    Follows(u32),
    Settled(&'a Settlement),
}

/// Why no promise is made.
#[derive(Clone, Copy, PartialEq, Eq)]
pub enum MakeFault {
    /// 4,294,967,295 promises were made.
    Limit,
    NoMemory,
}

/// Why a promise doesn't follow another.
#[derive(Clone, Copy, PartialEq, Eq)]
pub enum FollowFault {
    /// The promise of this number would follow itself.
    PromiseCycle(u32),
    NoMemory,
}

/// All promises, and the requests that ask for them. Contracts see them as they were at the turn's
/// start, and as they are now (specs/Turns.antt).
#[derive(Drop)]
pub struct Promises<R: Drop> {
    links: Links,
    /// What each request holds.
    entries: Vec<R>,
    /// What promises were settled with, each once, also where many promises were settled with it.
    settlements: Vec<Settlement>,
    kept_entries: usize,
    kept_settlements: usize,
    ghost whole: { IsWhole links entries.items settlements.items kept_entries kept_settlements },
}

impl<R: Drop> Promises<R> {
    ghost use Rattle.promise_store.specs.Views.{Becomes, follows_now, links_now, now_of, promises_of, state_view};

    /// No promises yet.
    pub fn new(alloc: Global) -> Promises<R>
        ensures start { (promises_of result).start ≡ none_yet }
        ensures now { (promises_of result).now ≡ none_yet }
    {
        Promises {
            links: Links::new(alloc),
            entries: Vec::new(alloc),
            settlements: Vec::new(alloc),
            kept_entries: 0,
            kept_settlements: 0,
        }
    }

    /// How many promises were made: the number that the next one gets.
    pub fn made(&self) -> u32
        ensures made { result ≡ (links_now self.now).made }
        ensures bounded { result ≤ most_made }
    {
        self.links.made()
    }

    /// Makes the next promise, which is pending, and answers its number. On an error all is as
    /// before.
    pub fn make(&mut self) -> Result<u32, MakeFault>
        ensures ok { OnOk result (Becomes one_made self.old self.new) }
        ensures number { IfOk result (λ number. number ≡ (links_now self.old).made) }
        ensures room { IsOk result → (links_now self.old).made < most_made }
        ensures limit { IfErr result (λ f. (f ≡ make_faults.Limit) ↔ ((links_now self.old).made ≡ most_made)) }
        ensures err { OnErr result (promises_of self.new ≡ promises_of self.old) }
    {
        let number = self.links.made();
        if number == u32::MAX {
            return Err(MakeFault::Limit);
        }
        if self.links.make().is_err() {
            return Err(MakeFault::NoMemory);
        }
        Ok(number)
    }

    /// A promise as it is. The data that it was settled with is no promise, unless it is broken. One that
    /// follows another is settled just as that one is: with the same, or not yet.
    pub fn state(&self, promise: u32) -> State<'_>
        requires { promise < (links_now self.now).made }
        ensures state { state_view result ≡ state_at (now_of self.now) promise }
        ensures flat { IsTrue (is_flat (state_view result)) }
        ensures alike { AreAlike (follows_now self.now) (links_now self.now).outcomes }
    {
        if let Some(number) = self.links.settlement(promise) {
            return State::Settled(&self.settlements[number]);
        }
        match self.links.leader(promise) {
            Some(target) => State::Follows(target),
            None => State::Pending,
        }
    }

    /// What a request holds.
    pub fn entry(&self, request: usize) -> &R
        requires { request < length (now_of self.now).entries }
        ensures { result.now ≡ slice_index_or (now_of self.now).entries request result.now }
    {
        &self.entries[request]
    }

    /// Settles a promise that is pending and follows none (eventual send: it is settled once), then
    /// all that follow it, in the order in which they came, each with all that hangs on it, and
    /// answers the requests that ask for each after that. Every promise that leads to it is settled
    /// with the same, and each other is what it was. Answers what comes of it, in order. For want of
    /// memory the settlement comes back, and all is as before.
    pub fn settle(
        &mut self,
        promise: u32,
        settlement: Settlement,
    ) -> Result<Vec<Consequence>, Settlement>
        requires made { promise < (links_now self.old).made }
        requires is_pending { state_at (now_of self.old) promise ≡ pending }
        requires is_final { IsTrue (is_final (settlement_view settlement)) }
        ensures events { IfOk result (λ es. Settles (links_now self.old) (promise ∷ []) es.items) }
        ensures ok { IfOk result (λ es. Becomes (with_settled es.items settlement) self.old self.new) }
        ensures settled { OnOk result
            (AreSettledWith (settled (settlement_view settlement)) promise (now_of self.old) (now_of self.new)) }
        ensures back { IfErr result (λ back. back ≡ settlement) }
        ensures err { OnErr result (promises_of self.new ≡ promises_of self.old) }
    {
        self.links.valid();
        match settle_with_next(&mut self.links, &mut self.settlements, promise) {
            Ok(events) => {
                self.settlements.push_reserved(settlement);
                Ok(events)
            }
            Err(_) => Err(settlement),
        }
    }

    /// A promise that is pending and follows none follows another (eventual send: it is resolved to
    /// it). Where that one is settled, it is settled at once with the same, with all that hangs on
    /// it, and what comes of it is answered, in order. A promise that would follow itself, at once
    /// or through others, is refused. On an error all is as before.
    pub fn follow(&mut self, promise: u32, target: u32) -> Result<Vec<Consequence>, FollowFault>
        requires promise_made { promise < (links_now self.old).made }
        requires target_made { target < (links_now self.old).made }
        requires is_pending { state_at (now_of self.old) promise ≡ pending }
        ensures cycle { (result ≡ Err (faults.PromiseCycle promise)) ↔ LeadsTo (follows_now self.old) promise target }
        ensures events { IfOk result (λ es. ComesOfFollowing (links_now self.old) promise target es.items) }
        ensures ok { IfOk result (λ es. Becomes (with_following promise target es.items) self.old self.new) }
        ensures settled { IsSome (settlement_of (links_now self.old).outcomes target)
            → OnOk result (AreSettledWith (state_at (now_of self.old) target) promise (now_of self.old) (now_of self.new)) }
        ensures shown { IfErr result (λ f. (n : ℕ) → f ≡ faults.PromiseCycle n → n ≡ promise) }
        ensures err { OnErr result (promises_of self.new ≡ promises_of self.old) }
    {
        self.links.valid();
        if let Some(settlement) = self.links.settlement(target) {
            return follow_settled(&mut self.links, promise, settlement);
        }
        if self.links.leads_to(target, promise) {
            return Err(FollowFault::PromiseCycle(promise));
        }
        if self.links.follow(promise, target).is_err() {
            return Err(FollowFault::NoMemory);
        }
        Ok(Vec::new(*self.entries.allocator()))
    }

    /// Asks to be told when a promise is settled; the entry is what the request holds. Where the
    /// promise is settled, the request is answered at once. For want of memory the entry comes
    /// back, and all is as before.
    pub fn when(&mut self, promise: u32, entry: R) -> Result<Option<Consequence>, R>
        requires { promise < (links_now self.old).made }
        ensures event { IfOk result (λ event. event ≡ answer_at_once (links_now self.old) promise) }
        ensures ok { OnOk result (Becomes (with_request promise entry) self.old self.new) }
        ensures back { IfErr result (λ back. back ≡ entry) }
        ensures err { OnErr result (promises_of self.new ≡ promises_of self.old) }
    {
        let Ok(answer) = ask_next(&mut self.links, &mut self.entries, promise) else {
            return Err(entry);
        };
        self.entries.push_reserved(entry);
        Ok(answer)
    }

    /// Forgets how it was: what is now is kept.
    pub fn forget(&mut self)
        ensures { promises_of self.new ≡ kept_at (promises_of self.old) }
    {
        self.links.forget();
        self.kept_entries = self.entries.len();
        self.kept_settlements = self.settlements.len();
    }

    /// Goes back to how it was at the turn's start (our own: a turn that fails leaves nothing).
    pub fn back(&mut self)
        ensures { promises_of self.new ≡ back_at (promises_of self.old) }
    {
        self.links.back();
        self.entries.truncate(self.kept_entries);
        self.settlements.truncate(self.kept_settlements);
    }
}

/// Makes room for one more settlement, and settles a promise with it.
fn settle_with_next(
    links: &mut Links,
    settlements: &mut Vec<Settlement>,
    promise: u32,
) -> Result<Vec<Consequence>, AllocError>
    requires made { promise < links.old.now.made }
    requires free { leader links.old.now.follows promise ≡ None }
    requires pending { settlement_of links.old.now.outcomes promise ≡ None }
    ensures events { IfOk result (λ es. Settles links.old.now (promise ∷ []) es.items) }
    ensures ok { IfOk result (λ es. links.new ≡ links_changed (settling (length settlements.old.items) (settled_in es.items)) links.old) }
    ensures err { OnErr result (links.new ≡ links.old) }
    ensures items { settlements.new.items ≡ settlements.old.items }
    ensures room { IsOk result → vec_len settlements.new < vec_capacity settlements.new }
{
    settlements.reserve(1)?;
    links.settle(promise, settlements.len())
}

/// Settles a promise with a settlement that is there.
fn follow_settled(
    links: &mut Links,
    promise: u32,
    settlement: usize,
) -> Result<Vec<Consequence>, FollowFault>
    requires made { promise < links.old.now.made }
    requires free { leader links.old.now.follows promise ≡ None }
    requires pending { settlement_of links.old.now.outcomes promise ≡ None }
    ensures events { IfOk result (λ es. Settles links.old.now (promise ∷ []) es.items) }
    ensures ok { IfOk result (λ es. links.new ≡ links_changed (settling settlement (settled_in es.items)) links.old) }
    ensures fault { IfErr result (λ f. f ≡ faults.NoMemory) }
    ensures err { OnErr result (links.new ≡ links.old) }
{
    match links.settle(promise, settlement) {
        Ok(events) => Ok(events),
        Err(_) => Err(FollowFault::NoMemory),
    }
}

/// Makes room for one more entry, and asks for a promise. Answers the event where the promise is
/// settled.
fn ask_next<R: Drop>(
    links: &mut Links,
    entries: &mut Vec<R>,
    promise: u32,
) -> Result<Option<Consequence>, AllocError>
    requires made { promise < links.old.now.made }
    ensures event { IfOk result (λ event. event ≡ answer_at_once links.old.now promise) }
    ensures ok { OnOk result (links.new ≡ links_changed (asking promise) links.old) }
    ensures err { OnErr result (links.new ≡ links.old) }
    ensures items { entries.new.items ≡ entries.old.items }
    ensures room { IsOk result → vec_len entries.new < vec_capacity entries.new }
{
    entries.reserve(1)?;
    let request = links.ask(promise)?;
    match links.settlement(promise) {
        Some(_) => Ok(Some(Consequence::Notified { promise, request })),
        None => Ok(None),
    }
}
