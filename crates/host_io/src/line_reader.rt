//! Lines out of a source. A line is given as soon as its line feed is there, and nothing is read while a whole
//! line is held.

ghost use Rattle.std.specs.Prelude.{◌≡◌, ℕ, ◌+◌, ◌^◌, ◌<◌, ◌≤◌, ◌++◌, Err, [], true, false, length, take, drop, max, position, IfOk, OnOk, OnErr, IsErrOf};
ghost use Rattle.std.specs.Io.KnownBytes.{Consumes, IsAtEnd, Keeps};
ghost use Rattle.host_io.specs.Causes.{HasCause, Rose};
ghost use Rattle.host_io.specs.LineReads.{Feeds, Gives, IsOpen, IsSomeLine, KeepsLimit, bytes_in, held_in, is_feed, is_past, max_input, needs_nothing, text_in, text_length};
ghost use Rattle.host_io.specs.declared.line_reader.LineFault.TheVariants.{NoMemory, ReadFault};

use super::{Failed, Source};
use std::alloc::{AllocError, Global};
use std::marker::Model;
use std::mem;

/// The most bytes of a read.
const PIECE: usize = 65_536;

/// The most bytes of an input.
pub const MAX_INPUT: usize = 1 << 30;

/// What a read gave, as far as it was not taken from here. Contracts see these bytes.
#[derive(Drop)]
struct Piece {
    bytes: Vec<u8>,
    at: usize,
    filled: usize,
}

impl Model for Piece {
    ghost use Rattle.std.specs.Prelude.{◌≡◌, ◌≤◌, List, ℕ, drop, take, vec_len};

    ghost Value = { List ℕ };

    ghost view = { λ s. drop s.at (take s.filled s.bytes.items) };

    ghost invariant = { λ s. (s.at ≤ s.filled) × (s.filled ≤ vec_len s.bytes) × (vec_len s.bytes ≡ 65536) };
}

impl Piece {
    /// Nothing was read.
    fn new(alloc: Global) -> Result<Piece, AllocError>
        ensures { IfOk result (λ piece. piece ≡ []) }
    {
        let bytes = vec![in alloc; 0u8; PIECE]?;
        Ok(Piece {
            bytes,
            at: 0,
            filled: 0,
        })
    }

    fn rest(&self) -> &[u8]
        ensures bytes { result.now ≡ self.now }
        ensures most { length self.now ≤ 65536 }
    {
        &self.bytes[self.at..self.filled]
    }

    /// Takes so many bytes from the front.
    fn skip(&mut self, count: usize)
        requires { count ≤ length self.old }
        ensures { self.new ≡ drop count self.old }
    {
        self.at += count;
    }

    /// Reads once.
    fn fill<S: Source>(&mut self, source: &mut S) -> Result<(), Failed>
        ensures bytes { OnOk result (Consumes (S.left source.old) (S.left source.new) self.new) }
        ensures at_end { OnOk result (self.new ≡ [] → IsAtEnd (S.left source.new)) }
        ensures err { OnErr result (Keeps (S.left source.old) (S.left source.new) × (self.new ≡ [])) }
        ensures most { length self.new ≤ 65536 }
        ensures cause { HasCause (S.faults source.old) (S.faults source.new) result }
    {
        self.at = 0;
        self.filled = 0;
        self.filled = source.read(&mut self.bytes)?;
        Ok(())
    }
}

/// The bytes of a line.
pub type LineBytes = Vec<u8>;

/// What comes next.
#[derive(Drop)]
pub enum Next {
    /// A line with its line feed, or the last one, which has none.
    Line(LineBytes),
    /// All was given.
    End,
}

/// Why no line is given. What was taken is held: a call that is made again goes on from there.
#[derive(Clone, Copy, PartialEq, Eq)]
pub enum LineFault {
    NoMemory,
    ReadFault,
    /// The next line has more bytes than the limit, its line feed not counted, or a byte past the input's last.
    TooLong,
}

impl From<AllocError> for LineFault {
    ghost from_gives = { λ _ fault. fault ≡ NoMemory };

    fn from(_error: AllocError) -> LineFault {
        LineFault::NoMemory
    }
}

impl From<Failed> for LineFault {
    ghost from_gives = { λ _ fault. fault ≡ ReadFault };

    fn from(_failed: Failed) -> LineFault {
        LineFault::ReadFault
    }
}

/// A reader of lines.
#[derive(Drop)]
pub struct LineReader {
    alloc: Global,
    /// What was taken of the line that is open.
    begun: Vec<u8>,
    piece: Piece,
    given: usize,
    ended: bool,
}

impl Model for LineReader {
    ghost use Rattle.std.specs.Prelude.{◌≤◌, ◌^◌, length};
    ghost use Rattle.host_io.specs.LineReads.{IsOpen, LinesHeld, max_input};

    ghost Value = { LinesHeld };

    ghost view = { λ s. record { begun = s.begun.items; rest = s.piece; given = s.given; ended = s.ended } };

    ghost invariant = { λ s. IsOpen s.begun.items × (length s.begun.items ≤ 2 ^ 26) × (s.given ≤ max_input) };
}

/// Where the first line feed is.
fn first_feed(bytes: &[u8]) -> Option<usize>
    ensures { result ≡ position is_feed bytes.now }
{
    bytes.iter().position(|byte| *byte == b'\n')
}

/// How many bytes of the next line are there, its line feed not counted.
fn text_length(bytes: &[u8]) -> usize
    ensures { result ≡ text_length bytes.now }
{
    first_feed(bytes).unwrap_or(bytes.len())
}

/// The bytes before the first line feed: the text of a line that was given.
pub fn text_of(line: &[u8]) -> &[u8]
    ensures { result.now ≡ text_in line.now }
{
    &line[..text_length(line)]
}

impl LineReader {
    /// Nothing was read.
    pub fn new(alloc: Global) -> Result<LineReader, AllocError>
        ensures { IfOk result (λ reader. reader ≡ record { begun = []; rest = []; given = 0; ended = false }) }
    {
        let piece = Piece::new(alloc)?;
        Ok(LineReader {
            alloc,
            begun: Vec::new(alloc),
            piece,
            given: 0,
            ended: false,
        })
    }

    /// Gives what is open and so many bytes of the rest.
    fn give(&mut self, count: usize) -> Result<LineBytes, LineFault>
        requires there { count ≤ length self.old.rest }
        requires within { self.old.given + length self.old.begun + count ≤ max_input }
        ensures line { IfOk result (λ line. line.items ≡ self.old.begun ++ take count self.old.rest) }
        ensures ok { OnOk result (self.new ≡ record {
          begun = [];
          rest = drop count self.old.rest;
          given = self.old.given + length self.old.begun + count;
          ended = self.old.ended;
        }) }
        ensures err { OnErr result (self.new ≡ self.old) }
        ensures memory { OnErr result (result ≡ Err NoMemory) }
    {
        self.begun.extend_from_slice(&self.piece.rest()[..count])?;
        self.piece.skip(count);
        self.given += self.begun.len();
        Ok(mem::replace(&mut self.begun, Vec::new(self.alloc)))
    }

    /// Takes the rest to what is open.
    fn take_rest(&mut self) -> Result<(), LineFault>
        requires feedless { IsOpen self.old.rest }
        requires few { length (held_in self.old) ≤ 2 ^ 26 }
        ensures ok { OnOk result (self.new ≡ record self.old { begun = self.old.begun ++ self.old.rest; rest = [] }) }
        ensures err { OnErr result (self.new ≡ self.old) }
        ensures memory { OnErr result (result ≡ Err NoMemory) }
    {
        let rest = self.piece.rest();
        self.begun.extend_from_slice(rest)?;
        let count = rest.len();
        self.piece.skip(count);
        Ok(())
    }

    /// Reads once.
    fn read<S: Source>(&mut self, source: &mut S) -> Result<(), LineFault>
        requires { self.old.rest ≡ [] }
        ensures same { (self.new.begun ≡ self.old.begun) × (self.new.given ≡ self.old.given) }
        ensures bytes { OnOk result (Consumes (S.left source.old) (S.left source.new) self.new.rest) }
        ensures ended { OnOk result (self.new.ended ≡ true → self.new.rest ≡ []) }
        ensures more { OnOk result (self.new.ended ≡ false → 0 < length self.new.rest) }
        ensures at_end { OnOk result (self.new.rest ≡ [] → IsAtEnd (S.left source.new)) }
        ensures err { OnErr result (Keeps (S.left source.old) (S.left source.new) × (self.new ≡ self.old)) }
        ensures fault { OnErr result (result ≡ Err ReadFault) }
        ensures most { length self.new.rest ≤ 65536 }
        ensures cause { HasCause (S.faults source.old) (S.faults source.new) result }
    {
        self.piece.fill(source)?;
        self.ended = self.piece.rest().is_empty();
        Ok(())
    }

    /// Whether of the next line what is held passes the limit, or has a byte past the input's last.
    fn is_past(&self, limit: usize) -> bool
        requires { limit ≤ 2 ^ 26 }
        ensures { result ≡ is_past limit self.now.given (held_in self.now) }
    {
        let rest = self.piece.rest();
        let text = text_length(rest);
        let line = (text + 1).min(rest.len());
        let begun = self.begun.len();
        begun + text > limit || self.given + (begun + line) > MAX_INPUT
    }

    /// The last line, if anything is held.
    fn give_last(&mut self) -> Result<Next, LineFault>
        requires feedless { IsOpen self.old.rest }
        requires within { self.old.given + length (held_in self.old) ≤ max_input }
        ensures bytes { OnOk result (bytes_in result ≡ held_in self.old) }
        ensures some { IfOk result (λ next. IsSomeLine next) }
        ensures ok { OnOk result (self.new ≡ record {
          begun = [];
          rest = [];
          given = self.old.given + length (held_in self.old);
          ended = self.old.ended;
        }) }
        ensures err { OnErr result (self.new ≡ self.old) }
        ensures memory { OnErr result (result ≡ Err NoMemory) }
    {
        let count = self.piece.rest().len();
        if self.begun.is_empty() && count == 0 {
            return Ok(Next::End);
        }
        Ok(Next::Line(self.give(count)?))
    }

    /// The next line. The source is read only while no whole line is held, and what is held passes no limit.
    pub fn next_line<S: Source>(&mut self, source: &mut S, limit: usize) -> Result<Next, LineFault>
        requires limit { limit ≤ 2 ^ 26 }
        requires at_end { self.old.ended ≡ true → IsAtEnd (S.left source.old) }
        ensures at_end { self.new.ended ≡ true → IsAtEnd (S.left source.new) }

        // What was held and taken is given or held.
        ensures feeds { Feeds (S.left source.old) (S.left source.new) (held_in self.old)
            (bytes_in result) (held_in self.new) }
        ensures given { self.new.given ≡ self.old.given + length (bytes_in result) }
        ensures few { self.new.given ≤ max_input }
        ensures idle { needs_nothing limit self.old ≡ true → source.new ≡ source.old }
        ensures holds { length (held_in self.new) ≤ max (length (held_in self.old)) (limit + 65536) }

        // What an answer says.
        ensures gives { Gives result self.new (S.left source.new) }
        ensures limits { KeepsLimit limit result self.old self.new }
        ensures failed { IsErrOf result ReadFault → Rose (S.faults source.old) (S.faults source.new) }
        ensures quiet { (IsErrOf result ReadFault → ⊥) → S.faults source.new ≡ S.faults source.old }
    {
        loop {
            if self.is_past(limit) {
                return Err(LineFault::TooLong);
            }
            let rest = self.piece.rest();
            let text = text_length(rest);
            if text < rest.len() {
                return Ok(Next::Line(self.give(text + 1)?));
            }
            if self.ended {
                return self.give_last();
            }
            self.take_rest()?;
            self.read(source)?;
        }
    }
}
