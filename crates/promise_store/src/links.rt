//! The links between promises, by number: who follows whom, who asks for what, and what was settled
//! with which settlement. It holds numbers alone. Contracts see the links at the turn's start, and
//! those of now.

ghost use Rattle.std.specs.Prelude.{◌≡◌, ◌<◌, ◌≤◌, ◌↔◌, ◌+◌, ◌++◌, ◌∷◌, [], None, IsTrue, IfOk, OnErr, OnOk, length, map, reverse, take};
ghost use Rattle.promise_store.specs.Cascade.{Settles, notified, settled_in};
ghost use Rattle.promise_store.specs.Linked.{IsLinked, LeadsTo, asking, following, followers, leader, links_changed, most_made, none_made, one_more, outcome, requests, settlement_of, settling};
ghost use Rattle.promise_store.specs.Nodes.{settlement_at, with_settlement, without_follower, without_leader, without_request};
ghost use Rattle.promise_store.specs.Steps.{further, settle_todo, shown};
ghost use Rattle.promise_store.specs.Undone.{UndoesAsked, UndoesFollows, UndoesOutcomes};

use crate::node::Node;
use std::alloc::{AllocError, Global};
use std::marker::Model;

/// What comes of a settlement, in order.
#[derive(Clone, Copy, PartialEq, Eq)]
pub enum Consequence {
    /// A promise is settled.
    Settled(u32),
    /// A request is answered: it asks for this promise, which is settled.
    Notified { promise: u32, request: usize },
}

/// A promise follows another.
#[derive(Clone, Copy)]
pub struct Following {
    pub promise: u32,
    pub target: u32,
}

/// A promise was settled with the settlement of this number.
#[derive(Clone, Copy)]
pub struct Outcome {
    pub promise: u32,
    pub settlement: usize,
}

/// How many of each there were at the turn's start.
#[derive(Clone, Copy)]
pub struct Lengths {
    pub made: usize,
    pub follows: usize,
    pub asked: usize,
    pub outcomes: usize,
}

/// The links of all promises: what came, in order, and by promise.
#[derive(Drop)]
pub struct Links {
    nodes: Vec<Node>,
    follows: Vec<Following>,
    /// The promise that each request asks for.
    asked: Vec<u32>,
    outcomes: Vec<Outcome>,
    start: Lengths,
}

impl Model for Links {
    ghost use Rattle.promise_store.specs.Linked.{LinkedTurn};

    ghost Value = { LinkedTurn };

    ghost use Rattle.promise_store.specs.Kept.{IsKept, linked_turn};

    ghost view = { λ l. linked_turn l.start l.nodes.items l.follows.items l.asked.items l.outcomes.items };

    ghost invariant = { λ l. IsKept l.start l.nodes.items l.follows.items l.asked.items l.outcomes.items };
}

impl Links {
    /// No promises yet.
    pub fn new(alloc: Global) -> Links
        ensures start { result.start ≡ none_made }
        ensures now { result.now ≡ none_made }
    {
        Links {
            nodes: Vec::new(alloc),
            follows: Vec::new(alloc),
            asked: Vec::new(alloc),
            outcomes: Vec::new(alloc),
            start: Lengths {
                made: 0,
                follows: 0,
                asked: 0,
                outcomes: 0,
            },
        }
    }

    /// How many promises were made.
    pub fn made(&self) -> u32
        ensures made { result ≡ self.now.now.made }
    {
        self.nodes.len() as u32
    }

    /// What a promise follows, or followed until both were settled.
    pub fn leader(&self, promise: u32) -> Option<u32>
        ensures { result ≡ leader self.now.now.follows promise }
    {
        match self.nodes.get(promise as usize) {
            Some(node) => node.leader(),
            None => None,
        }
    }

    /// The number of the settlement that a promise was settled with.
    pub fn settlement(&self, promise: u32) -> Option<usize>
        ensures { result ≡ settlement_of self.now.now.outcomes promise }
    {
        match self.nodes.get(promise as usize) {
            Some(node) => node.settlement(),
            None => None,
        }
    }

    /// No promise leads to itself, none is settled twice, and none before what it follows.
    pub fn valid(&self)
        ensures { IsLinked self.now.now }
    {
        let _ = &self.nodes;
    }

    /// The promises that follow this one, in the order in which they came.
    fn followers(&self, promise: u32) -> &[u32]
        ensures { result.now ≡ followers self.now.now.follows promise }
    {
        match self.nodes.get(promise as usize) {
            Some(node) => node.followers(),
            None => &[],
        }
    }

    /// The requests that ask for this promise, in the order in which they came.
    fn requests(&self, promise: u32) -> &[usize]
        ensures { result.now ≡ requests self.now.now.asked promise }
    {
        match self.nodes.get(promise as usize) {
            Some(node) => node.requests(),
            None => &[],
        }
    }

    /// Whether a promise is the other, or leads to it through what it follows.
    pub fn leads_to(&self, from: u32, promise: u32) -> bool
        ensures { IsTrue result ↔ LeadsTo self.now.now.follows promise from }
    {
        self.valid();
        let mut at = from;
        while at != promise {
            let Some(leader) = self.leader(at) else {
                return false;
            };
            at = leader;
        }
        true
    }

    /// Makes the next promise, which is bare. On an error all is as before.
    pub fn make(&mut self) -> Result<(), AllocError>
        requires { self.old.now.made < most_made }
        ensures ok { OnOk result (self.new ≡ links_changed one_more self.old) }
        ensures err { OnErr result (self.new ≡ self.old) }
    {
        let alloc = *self.nodes.allocator();
        self.nodes.push(Node::bare(alloc))?;
        Ok(())
    }

    /// One more request asks for a promise; answers its number. On an error all is as before.
    pub fn ask(&mut self, promise: u32) -> Result<usize, AllocError>
        requires { promise < self.old.now.made }
        ensures ok { OnOk result (self.new ≡ links_changed (asking promise) self.old) }
        ensures number { IfOk result (λ request. request ≡ length self.old.now.asked) }
        ensures err { OnErr result (self.new ≡ self.old) }
    {
        let request = self.asked.len();
        self.asked.reserve(1)?;
        self.nodes[promise as usize].add_request(request)?;
        self.asked.push_reserved(promise);
        Ok(request)
    }

    /// A promise that follows none follows another, which doesn't lead to it. On an error all is as
    /// before.
    pub fn follow(&mut self, promise: u32, target: u32) -> Result<(), AllocError>
        requires promise_made { promise < self.old.now.made }
        requires target_made { target < self.old.now.made }
        requires free { leader self.old.now.follows promise ≡ None }
        requires pending { settlement_of self.old.now.outcomes promise ≡ None }
        requires apart { LeadsTo self.old.now.follows promise target → ⊥ }
        ensures ok { OnOk result (self.new ≡ links_changed (following promise target) self.old) }
        ensures err { OnErr result (self.new ≡ self.old) }
    {
        self.follows.reserve(1)?;
        self.nodes[target as usize].add_follower(promise)?;
        self.nodes[promise as usize].set_leader(Some(target));
        self.follows.push_reserved(Following { promise, target });
        Ok(())
    }

    /// Settles a promise that is pending and follows none, with all that hangs on it. Answers what
    /// comes of it, in order. On an error all is as before.
    pub fn settle(
        &mut self,
        promise: u32,
        settlement: usize,
    ) -> Result<Vec<Consequence>, AllocError>
        requires made { promise < self.old.now.made }
        requires free { leader self.old.now.follows promise ≡ None }
        requires pending { settlement_of self.old.now.outcomes promise ≡ None }
        ensures events { IfOk result (λ es. Settles self.old.now (promise ∷ []) es.items) }
        ensures ok { IfOk result (λ es. self.new ≡ links_changed (settling settlement (settled_in es.items)) self.old) }
        ensures err { OnErr result (self.new ≡ self.old) }
    {
        let events = self.hanging(promise)?;
        note_outcomes(&mut self.outcomes, events.as_slice(), settlement)?;
        mark_outcomes(&mut self.nodes, events.as_slice(), settlement);
        Ok(events)
    }

    /// What comes of settling a promise, in order.
    fn hanging(&self, promise: u32) -> Result<Vec<Consequence>, AllocError>
        ensures { IfOk result (λ events. Settles self.now.now (promise ∷ []) events.items) }
    {
        self.valid();
        let alloc = *self.nodes.allocator();
        let mut todo = Vec::new(alloc);
        todo.push(Todo::Settle(promise))?;
        let mut events = Vec::new(alloc);
        while let Some(step) = todo.pop() {
            self.take_step(step, &mut todo, &mut events)?;
        }
        Ok(events)
    }

    /// Takes a step: adds its events, and the steps that it leads to.
    fn take_step(
        &self,
        step: Todo,
        todo: &mut Vec<Todo>,
        events: &mut Vec<Consequence>,
    ) -> Result<(), AllocError>
        ensures todo { OnOk result (todo.new.items ≡ todo.old.items ++ further self.now.now step) }
        ensures events { OnOk result (events.new.items ≡ events.old.items ++ shown self.now.now step) }
    {
        match step {
            Todo::Settle(promise) => {
                events.push(Consequence::Settled(promise))?;
                todo.push(Todo::Notify(promise))?;
                push_settles(self.followers(promise), todo)
            }
            Todo::Notify(promise) => push_notifications(promise, self.requests(promise), events),
        }
    }

    /// Forgets how it was: what is now is kept.
    pub fn forget(&mut self)
        ensures { self.new ≡ record { start = self.old.now; now = self.old.now } }
    {
        self.start = Lengths {
            made: self.nodes.len(),
            follows: self.follows.len(),
            asked: self.asked.len(),
            outcomes: self.outcomes.len(),
        };
    }

    /// Goes back to how it was at the turn's start.
    pub fn back(&mut self)
        ensures { self.new ≡ record { start = self.old.start; now = self.old.start } }
    {
        undo_outcomes(&mut self.nodes, &mut self.outcomes, self.start.outcomes);
        undo_asked(&mut self.nodes, &mut self.asked, self.start.asked);
        undo_follows(&mut self.nodes, &mut self.follows, self.start.follows);
        self.nodes.truncate(self.start.made);
    }
}

/// What is still to be done, in settling.
#[derive(Clone, Copy)]
enum Todo {
    /// A promise is settled, with all that hangs on it.
    Settle(u32),
    /// The requests that ask for a promise are answered.
    Notify(u32),
}

/// The followers are to be settled, the first of them next.
fn push_settles(followers: &[u32], todo: &mut Vec<Todo>) -> Result<(), AllocError>
    ensures { OnOk result (todo.new.items ≡ todo.old.items ++ map settle_todo (reverse followers.now)) }
{
    for follower in followers.iter().rev() {
        todo.push(Todo::Settle(*follower))?;
    }
    Ok(())
}

/// The requests are answered, in their order.
fn push_notifications(
    promise: u32,
    requests: &[usize],
    events: &mut Vec<Consequence>,
) -> Result<(), AllocError>
    ensures { OnOk result (events.new.items ≡ events.old.items ++ map (notified promise) requests.now) }
{
    for request in requests {
        events.push(Consequence::Notified {
            promise,
            request: *request,
        })?;
    }
    Ok(())
}

/// Notes what is settled, in order. On an error all is as before.
fn note_outcomes(
    outcomes: &mut Vec<Outcome>,
    events: &[Consequence],
    settlement: usize,
) -> Result<(), AllocError>
    ensures ok { OnOk result (outcomes.new.items ≡ outcomes.old.items ++ map (outcome settlement) (settled_in events.now)) }
    ensures err { OnErr result (outcomes.new.items ≡ outcomes.old.items) }
{
    let before = outcomes.len();
    let noted = push_outcomes(outcomes, events, settlement);
    if noted.is_err() {
        outcomes.truncate(before);
    }
    noted
}

/// Notes what is settled, in order. On an error some of it is noted.
fn push_outcomes(
    outcomes: &mut Vec<Outcome>,
    events: &[Consequence],
    settlement: usize,
) -> Result<(), AllocError>
    ensures ok { OnOk result (outcomes.new.items ≡ outcomes.old.items ++ map (outcome settlement) (settled_in events.now)) }
    ensures kept { take (length outcomes.old.items) outcomes.new.items ≡ outcomes.old.items }
{
    for event in events {
        push_outcome(outcomes, *event, settlement)?;
    }
    Ok(())
}

/// Notes a promise that is settled. On an error nothing is noted.
fn push_outcome(
    outcomes: &mut Vec<Outcome>,
    event: Consequence,
    settlement: usize,
) -> Result<(), AllocError>
    ensures ok { OnOk result (outcomes.new.items ≡ outcomes.old.items ++ map (outcome settlement) (settled_in (event ∷ []))) }
    ensures err { OnErr result (outcomes.new.items ≡ outcomes.old.items) }
{
    if let Consequence::Settled(promise) = event {
        outcomes.push(Outcome {
            promise,
            settlement,
        })?;
    }
    Ok(())
}

/// Marks what is settled.
fn mark_outcomes(nodes: &mut Vec<Node>, events: &[Consequence], settlement: usize)
    ensures { nodes.new.items ≡ with_settlement settlement (settled_in events.now) nodes.old.items }
{
    for event in events {
        mark_outcome(nodes, *event, settlement);
    }
}

/// Marks a promise that is settled.
fn mark_outcome(nodes: &mut Vec<Node>, event: Consequence, settlement: usize)
    ensures { nodes.new.items ≡ with_settlement settlement (settled_in (event ∷ [])) nodes.old.items }
{
    if let Consequence::Settled(promise) = event {
        set_settlement(nodes, promise, Some(settlement));
    }
}

/// What a promise was settled with, where it was made.
fn set_settlement(nodes: &mut Vec<Node>, promise: u32, settlement: Option<usize>)
    ensures { nodes.new.items ≡ settlement_at promise settlement nodes.old.items }
{
    if let Some(node) = nodes.get_mut(promise as usize) {
        node.set_settlement(settlement);
    }
}

/// What was settled since is settled no longer.
fn undo_outcomes(nodes: &mut Vec<Node>, outcomes: &mut Vec<Outcome>, kept: usize)
    ensures nodes { UndoesOutcomes nodes.old.items outcomes.old.items nodes.new.items outcomes.new.items }
    ensures length { length nodes.new.items ≡ length nodes.old.items }
    ensures outcomes { outcomes.new.items ≡ take kept outcomes.old.items }
{
    while outcomes.len() > kept {
        if let Some(outcome) = outcomes.pop() {
            set_settlement(nodes, outcome.promise, None);
        }
    }
}

/// What was asked since is asked no longer.
fn undo_asked(nodes: &mut Vec<Node>, asked: &mut Vec<u32>, kept: usize)
    ensures nodes { UndoesAsked nodes.old.items asked.old.items nodes.new.items asked.new.items }
    ensures length { length nodes.new.items ≡ length nodes.old.items }
    ensures asked { asked.new.items ≡ take kept asked.old.items }
{
    while asked.len() > kept {
        if let Some(promise) = asked.pop() {
            drop_request(nodes, promise);
        }
    }
}

/// What came to follow since follows no longer.
fn undo_follows(nodes: &mut Vec<Node>, follows: &mut Vec<Following>, kept: usize)
    ensures nodes { UndoesFollows nodes.old.items follows.old.items nodes.new.items follows.new.items }
    ensures length { length nodes.new.items ≡ length nodes.old.items }
    ensures follows { follows.new.items ≡ take kept follows.old.items }
{
    while follows.len() > kept {
        if let Some(following) = follows.pop() {
            drop_leader(nodes, following.promise);
            drop_follower(nodes, following.target);
        }
    }
}

/// The last request that asks for a promise is gone, where the promise was made.
fn drop_request(nodes: &mut Vec<Node>, promise: u32)
    ensures { nodes.new.items ≡ without_request promise nodes.old.items }
{
    if let Some(node) = nodes.get_mut(promise as usize) {
        node.drop_request();
    }
}

/// A promise follows none, where it was made.
fn drop_leader(nodes: &mut Vec<Node>, promise: u32)
    ensures { nodes.new.items ≡ without_leader promise nodes.old.items }
{
    if let Some(node) = nodes.get_mut(promise as usize) {
        node.set_leader(None);
    }
}

/// The last that came to follow a promise is gone, where the promise was made.
fn drop_follower(nodes: &mut Vec<Node>, target: u32)
    ensures { nodes.new.items ≡ without_follower target nodes.old.items }
{
    if let Some(node) = nodes.get_mut(target as usize) {
        node.drop_follower();
    }
}
