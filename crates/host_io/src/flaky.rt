//! A source and a sink over memory that fail at stated calls, and give or take only so much at a time.
//! They tell their bytes, and fail exactly at those calls, the sink also where it is full.

ghost use Rattle.std.specs.Prelude.{◌≡◌, ◌<◌, ◌≤◌, ◌||◌, min, Some, IfOk, length, [], is_err};
ghost use Rattle.std.specs.Io.{ReadsAtMost, WritesAtMost};
ghost use Rattle.std.specs.Io.KnownBytes.{ReadConsumes, WriteAppends};
ghost use Rattle.host_io.specs.Causes.{HasCause};
ghost use Rattle.host_io.specs.Ends.{faults_after, flaws_after, is_full_for, is_named, one_more, room_left};

use super::{Failed, Sink, Source};
use std::alloc::{AllocError, Global};
use std::marker::Model;

/// Which calls fail, and how much a call gives or takes.
#[derive(Drop)]
struct Flaws {
    failing: Vec<u64>,
    most: usize,
    calls: u64,
    faults: u64,
}

impl Model for Flaws {
    ghost use Rattle.std.specs.Prelude.{◌<◌};
    ghost use Rattle.host_io.specs.Ends.{Flaws};

    ghost Value = { Flaws };

    ghost view = { λ s. record { failing = s.failing.items; most = s.most; calls = s.calls; faults = s.faults } };

    ghost invariant = { λ s. 0 < s.most };
}

impl Flaws {
    fn new(failing: Vec<u64>, most: usize) -> Flaws
        requires { 0 < most }
        ensures { result ≡ record { failing = failing.items; most = most; calls = 0; faults = 0 } }
    {
        Flaws {
            failing,
            most,
            calls: 0,
            faults: 0,
        }
    }

    /// The most bytes of a call.
    fn most(&self) -> usize
        ensures value { result ≡ self.now.most }
        ensures some { 0 < result }
    {
        self.most
    }

    /// How often it failed.
    fn faults(&self) -> u64
        ensures { result ≡ self.now.faults }
    {
        self.faults
    }

    /// Counts a call, and answers whether it is one that fails.
    fn begin_call(&mut self) -> bool
        ensures named { result ≡ is_named self.old.failing self.old.calls }
        ensures counted { self.new ≡ record self.old { calls = one_more self.old.calls } }
    {
        let is_named = is_named(&self.failing, self.calls);
        self.calls = self.calls.saturating_add(1);
        is_named
    }

    /// Counts a fault.
    fn fail(&mut self) -> Failed
        ensures { self.new ≡ record self.old { faults = one_more self.old.faults } }
    {
        self.faults = self.faults.saturating_add(1);
        Failed
    }
}

/// Whether the list names the call after so many.
fn is_named(failing: &[u64], calls: u64) -> bool
    ensures { result ≡ is_named failing.now calls }
{
    failing.iter().any(|call| *call > 0 && *call - 1 == calls)
}

/// The bytes of a slice, with flaws.
#[derive(Drop)]
pub struct FlakySource<'a> {
    rest: &'a [u8],
    flaws: Flaws,
}

impl<'a> Model for FlakySource<'a> {
    ghost use Rattle.host_io.specs.Ends.{FlakyInput};

    ghost Value = { FlakyInput };

    ghost view = { λ s. record { left = s.rest.now; flaws = s.flaws } };
}

impl<'a> FlakySource<'a> {
    /// It fails at the calls of the list, counted from 1, and a call gives at most so many bytes.
    pub fn new(bytes: &'a [u8], failing: Vec<u64>, most: usize) -> Self
        requires { 0 < most }
        ensures { result ≡ record { left = bytes.entry.now; flaws = record { failing = failing.items; most = most; calls = 0; faults = 0 } } }
    {
        FlakySource {
            rest: bytes,
            flaws: Flaws::new(failing, most),
        }
    }

    /// How often it failed.
    pub fn faults(&self) -> u64
        ensures { result ≡ self.now.flaws.faults }
    {
        self.flaws.faults()
    }
}

impl Source for FlakySource<'_> {
    ghost left = { λ s. Some s.left };

    ghost faults = { λ s. s.flaws.faults };

    /// Gives what fits, at most what a call gives. It fails exactly at the calls of its list.
    fn read(&mut self, buf: &mut [u8]) -> Result<usize, Failed>
        ensures bound { ReadsAtMost result buf.new }
        ensures bytes { ReadConsumes (Some self.old.left) (Some self.new.left) result buf.new }
        ensures cause { HasCause self.old.flaws.faults self.new.flaws.faults result }

        ensures fails { is_err result ≡ is_named self.old.flaws.failing self.old.flaws.calls }
        ensures gives { IfOk result (λ n. n ≡ min (min (length buf.new) (length self.old.left)) self.old.flaws.most) }
        ensures flaws { self.new.flaws ≡ flaws_after result self.old.flaws }
    {
        if self.flaws.begin_call() {
            return Err(self.flaws.fail());
        }
        let count = buf.len().min(self.rest.len()).min(self.flaws.most());
        let (front, back) = self.rest.split_at(count);
        buf[..count].copy_from_slice(front);
        self.rest = back;
        Ok(count)
    }
}

/// Room for a number of bytes, with flaws.
#[derive(Drop)]
pub struct FlakySink {
    bytes: Vec<u8>,
    limit: usize,
    flaws: Flaws,
}

impl Model for FlakySink {
    ghost use Rattle.std.specs.Prelude.{◌≤◌, vec_capacity, vec_len};
    ghost use Rattle.host_io.specs.Ends.{FlakyOutput};

    ghost Value = { FlakyOutput };

    ghost view = { λ s. record { written = s.bytes.items; limit = s.limit; flaws = s.flaws } };

    ghost invariant = { λ s. (vec_len s.bytes ≤ s.limit) × (s.limit ≤ vec_capacity s.bytes) };
}

impl FlakySink {
    /// It fails at the calls of the list, counted from 1, and where it is full; a call takes at most so
    /// many bytes.
    pub fn new(
        alloc: Global,
        limit: usize,
        failing: Vec<u64>,
        most: usize,
    ) -> Result<Self, AllocError>
        requires { 0 < most }
        ensures { IfOk result (λ sink. sink ≡ record { written = []; limit = limit; flaws = record { failing = failing.items; most = most; calls = 0; faults = 0 } }) }
    {
        let bytes = Vec::with_capacity(alloc, limit)?;
        Ok(FlakySink {
            bytes,
            limit,
            flaws: Flaws::new(failing, most),
        })
    }

    /// What was written.
    pub fn bytes(&self) -> &[u8]
        ensures { result.now ≡ self.now.written }
    {
        self.bytes.as_slice()
    }

    /// How often it failed.
    pub fn faults(&self) -> u64
        ensures { result ≡ self.now.flaws.faults }
    {
        self.flaws.faults()
    }
}

impl Sink for FlakySink {
    ghost written = { λ s. Some s.written };

    ghost faults = { λ s. s.flaws.faults };

    /// Takes what fits, at most what a call takes. It fails exactly at the calls of its list and where it
    /// is full.
    fn write(&mut self, bytes: &[u8]) -> Result<usize, Failed>
        ensures bound { WritesAtMost result bytes.now }
        ensures takes { IfOk result (λ n. 0 < length bytes.now → 0 < n) }
        ensures bytes { WriteAppends (Some self.old.written) (Some self.new.written) result bytes.now }
        ensures cause { HasCause self.old.flaws.faults self.new.flaws.faults result }

        ensures fails { is_err result ≡ (is_named self.old.flaws.failing self.old.flaws.calls || is_full_for self.old.written self.old.limit bytes.now) }
        ensures fits { IfOk result (λ n. n ≡ min (min (length bytes.now) (room_left self.old.written self.old.limit)) self.old.flaws.most) }
        ensures flaws { self.new.flaws ≡ flaws_after result self.old.flaws }
        ensures limit { self.new.limit ≡ self.old.limit }
    {
        let is_named = self.flaws.begin_call();
        let room = self.limit - self.bytes.len();
        if is_named || room == 0 && !bytes.is_empty() {
            return Err(self.flaws.fail());
        }
        let count = bytes.len().min(room).min(self.flaws.most());
        match self.bytes.extend_from_slice(&bytes[..count]) {
            Ok(()) => Ok(count),
            Err(_) => unreachable!(),
        }
    }
}
