//! What is known of one promise: whom it follows, who follows it, who asks for it, and what it was
//! settled with.

ghost use Rattle.std.specs.Prelude.{◌≡◌, ◌++◌, ◌∷◌, [], Some, None, OnErr, OnOk};
ghost use Rattle.promise_store.specs.Nodes.{bare, shorter};

use std::alloc::{AllocError, Global};
use std::marker::Model;

/// A promise's own links. The numbers of followers and requests stand in the order in which they
/// came.
#[derive(Drop)]
pub struct Node {
    leader: Option<u32>,
    followers: Vec<u32>,
    requests: Vec<usize>,
    settlement: Option<usize>,
}

impl Model for Node {
    ghost use Rattle.promise_store.specs.Nodes.{Noted};

    ghost Value = { Noted };

    ghost view = { λ n. record { leader = n.leader; followers = n.followers.items; requests = n.requests.items; settlement = n.settlement } };
}

impl Node {
    /// A promise that follows none, and that nobody waits for.
    pub fn bare(alloc: Global) -> Node
        ensures { result ≡ bare }
    {
        Node {
            leader: None,
            followers: Vec::new(alloc),
            requests: Vec::new(alloc),
            settlement: None,
        }
    }

    /// The promise that it follows, or followed until both were settled.
    pub fn leader(&self) -> Option<u32>
        ensures { result ≡ self.now.leader }
    {
        self.leader
    }

    /// The promises that follow it, in the order in which they came.
    pub fn followers(&self) -> &[u32]
        ensures { result.now ≡ self.now.followers }
    {
        self.followers.as_slice()
    }

    /// The requests that ask for it, in the order in which they came.
    pub fn requests(&self) -> &[usize]
        ensures { result.now ≡ self.now.requests }
    {
        self.requests.as_slice()
    }

    /// The number of the settlement that it was settled with.
    pub fn settlement(&self) -> Option<usize>
        ensures { result ≡ self.now.settlement }
    {
        self.settlement
    }

    pub fn set_leader(&mut self, leader: Option<u32>)
        ensures { self.new ≡ record self.old { leader = leader } }
    {
        self.leader = leader;
    }

    pub fn set_settlement(&mut self, settlement: Option<usize>)
        ensures { self.new ≡ record self.old { settlement = settlement } }
    {
        self.settlement = settlement;
    }

    /// One more promise follows it. On an error all is as before.
    pub fn add_follower(&mut self, promise: u32) -> Result<(), AllocError>
        ensures ok { OnOk result (self.new ≡ record self.old { followers = self.old.followers ++ promise ∷ [] }) }
        ensures err { OnErr result (self.new ≡ self.old) }
    {
        self.followers.push(promise)?;
        Ok(())
    }

    /// One more request asks for it. On an error all is as before.
    pub fn add_request(&mut self, request: usize) -> Result<(), AllocError>
        ensures ok { OnOk result (self.new ≡ record self.old { requests = self.old.requests ++ request ∷ [] }) }
        ensures err { OnErr result (self.new ≡ self.old) }
    {
        self.requests.push(request)?;
        Ok(())
    }

    /// The last of its followers follows it no longer.
    pub fn drop_follower(&mut self)
        ensures { self.new ≡ record self.old { followers = shorter self.old.followers } }
    {
        self.followers.pop();
    }

    /// The last of its requests asks for it no longer.
    pub fn drop_request(&mut self)
        ensures { self.new ≡ record self.old { requests = shorter self.old.requests } }
    {
        self.requests.pop();
    }
}
