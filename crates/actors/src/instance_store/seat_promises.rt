//! The two promises of each seat, by the seat's number (Zoe: of an offer's result, and of its payouts).

ghost use Rattle.std.specs.Prelude.{◌≡◌, ◌<◌, ◌≤◌, ◌↔◌, ◌++◌, ◌∷◌, [], IfErr, IfOk, IsOk, OnErr, OnOk, length};
ghost use Rattle.actors.specs.Tables.{most_made};

use crate::instance_store::AddFault;
use std::alloc::Global;

/// The promises of a seat, by their numbers.
#[derive(Clone, Copy, PartialEq, Eq)]
pub struct SeatPair {
    /// Of what the offer's handler answers.
    pub result: u32,
    /// Of what the seat is paid out.
    pub payouts: u32,
}

/// The promises of all seats. Contracts see those at the turn's start, and those of now
/// (specs/SeatPromises.antt).
#[derive(Drop)]
pub struct SeatPromises {
    pairs: Vec<SeatPair>,
    /// How many were added at the turn's start.
    kept: usize,
    ghost within: { kept ≤ length pairs.items },
    ghost few: { length pairs.items ≤ most_made },
}

impl SeatPromises {
    ghost use Rattle.actors.specs.SeatPromises.{back_at, kept_at, made, now_of, pair_at, seat_promises_of, untouched, with_pair};

    /// No seats yet.
    pub fn new(alloc: Global) -> SeatPromises
        ensures { seat_promises_of result ≡ untouched }
    {
        SeatPromises {
            pairs: Vec::new(alloc),
            kept: 0,
        }
    }

    /// How many seats were added: the number that the next one gets.
    pub fn made(&self) -> u32
        ensures made { result ≡ made self.now }
        ensures bounded { result ≤ most_made }
    {
        self.pairs.len() as u32
    }

    /// Adds the promises of the next seat, and answers its number. On an error all is as before.
    pub fn add(&mut self, pair: SeatPair) -> Result<u32, AddFault>
        ensures ok { OnOk result (seat_promises_of self.new ≡ with_pair pair self.old) }
        ensures number { IfOk result (λ number. number ≡ made self.old) }
        ensures room { IsOk result → made self.old < most_made }
        ensures limit { IfErr result (λ fault. (fault ≡ AddFault.Limit) ↔ (made self.old ≡ most_made)) }
        ensures err { OnErr result (seat_promises_of self.new ≡ seat_promises_of self.old) }
    {
        let number = self.made();
        if number == u32::MAX {
            return Err(AddFault::Limit);
        }
        match self.pairs.push(pair) {
            Ok(()) => Ok(number),
            Err(_) => Err(AddFault::NoMemory),
        }
    }

    /// The promises of a seat that was added.
    pub fn of(&self, seat: u32) -> SeatPair
        requires { seat < made self.now }
        ensures { result ≡ pair_at (now_of self.now) seat }
    {
        self.pairs[seat as usize]
    }

    /// Forgets how it was: what is now is kept.
    pub fn forget(&mut self)
        ensures { seat_promises_of self.new ≡ kept_at (seat_promises_of self.old) }
    {
        self.kept = self.pairs.len();
    }

    /// Goes back to how it was at the turn's start (our own: a turn that fails leaves nothing).
    pub fn back(&mut self)
        ensures { seat_promises_of self.new ≡ back_at (seat_promises_of self.old) }
    {
        self.pairs.truncate(self.kept);
    }
}
