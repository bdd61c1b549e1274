//! Invitations by number, each with the details that Zoe keeps of it, and the text by which amounts
//! name one. Its one contract: the n-th invitation has its details for good, once its turn is kept; and
//! its text is its alone, in the order of numbers.

pub mod element;

ghost use Rattle.std.specs.Prelude.{◌≡◌, ◌<◌, ◌≤◌, ◌↔◌, ◌++◌, ◌∷◌, [], IfErr, IfOk, IsOk, OnErr, OnOk, length};
ghost use Rattle.turn_stores.specs.Details.{details_at, details_view, most_made};

use host_data::data::Data;
use host_data::host_text_lib::text::Text;
use std::alloc::{AllocError, Global};

/// What is known of an invitation (Zoe's invitation details).
pub struct Details {
    /// The instance that it was made by, by its number.
    pub instance: u32,
    /// That instance's installation.
    pub installation: u32,
    pub description: Text,
    /// The function that an offer made with it is handed to.
    pub handler: Text,
    /// What the instance had put by for that function.
    pub held: Data,
}

impl Drop for Details {
    fn drop(self) {
        let Details {
            instance: _,
            installation: _,
            description: _,
            handler: _,
            held: _,
        } = self;
    }
}

/// Why no invitation is added.
#[derive(Clone, Copy, PartialEq, Eq)]
pub enum AddFault {
    /// 4,294,967,295 invitations were made.
    Limit,
    NoMemory,
}

/// All invitations. Contracts see the details of those at the turn's start, and of those of now
/// (specs/InvitationTurns.antt).
#[derive(Drop)]
pub struct Invitations {
    details: Vec<Details>,
    /// How many were made at the turn's start.
    kept: usize,
    ghost within: { kept ≤ length details.items },
    ghost few: { length details.items ≤ most_made },
}

impl Invitations {
    ghost use Rattle.turn_stores.specs.InvitationTurns.{back_at, invitations_of, kept_at, untouched};

    /// No invitations yet.
    pub fn new(alloc: Global) -> Invitations
        ensures { invitations_of result ≡ untouched }
    {
        Invitations {
            details: Vec::new(alloc),
            kept: 0,
        }
    }

    /// How many invitations were made: the number that the next one gets.
    pub fn made(&self) -> u32
        ensures made { result ≡ length (invitations_of self.now).now }
        ensures bounded { result ≤ most_made }
    {
        self.details.len() as u32
    }

    /// Adds an invitation and answers its number, or hands its details back, and all is as before.
    pub fn add(&mut self, details: Details) -> Result<u32, (Details, AddFault)>
        ensures ok { OnOk result (invitations_of self.new ≡ record (invitations_of self.old) { now = (invitations_of self.old).now ++ details_view details ∷ [] }) }
        ensures number { IfOk result (λ number. number ≡ length (invitations_of self.old).now) }
        ensures room { IsOk result → length (invitations_of self.old).now < most_made }
        ensures limit { IfErr result (λ (_, fault). (fault ≡ AddFault.Limit) ↔ (length (invitations_of self.old).now ≡ most_made)) }
        ensures back { IfErr result (λ (back, _). back ≡ details) }
        ensures err { OnErr result (invitations_of self.new ≡ invitations_of self.old) }
    {
        let number = self.made();
        if number == u32::MAX {
            return Err((details, AddFault::Limit));
        }
        match self.details.push(details) {
            Ok(()) => Ok(number),
            Err(failed) => Err((failed.value, AddFault::NoMemory)),
        }
    }

    /// The details of an invitation.
    pub fn details(&self, invitation: u32) -> &Details
        requires { invitation < length (invitations_of self.now).now }
        ensures { details_view result.now ≡ details_at (invitations_of self.now).now invitation }
    {
        &self.details[invitation as usize]
    }

    /// Forgets how it was: what is now is kept.
    pub fn forget(&mut self)
        ensures { invitations_of self.new ≡ kept_at (invitations_of self.old) }
    {
        self.kept = self.details.len();
    }

    /// Goes back to how it was at the turn's start (our own: a turn that fails leaves nothing).
    pub fn back(&mut self)
        ensures { invitations_of self.new ≡ back_at (invitations_of self.old) }
    {
        self.details.truncate(self.kept);
    }
}
