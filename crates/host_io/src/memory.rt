//! A source and a sink over memory, which tell their bytes. The source never fails, and the sink fails
//! exactly where it is full.

ghost use Rattle.std.specs.Prelude.{◌≡◌, ◌<◌, min, Some, IfOk, length, [], is_err};
ghost use Rattle.std.specs.Io.{ReadsAtMost, WritesAtMost};
ghost use Rattle.std.specs.Io.KnownBytes.{ReadConsumes, WriteAppends};
ghost use Rattle.host_io.specs.Causes.{HasCause};
ghost use Rattle.host_io.specs.Ends.{faults_after, is_full_for, room_left};

use super::{Failed, Sink, Source};
use std::alloc::{AllocError, Global};
use std::marker::Model;

/// The bytes of a slice. Contracts see those that are left.
#[derive(Drop)]
pub struct MemorySource<'a> {
    rest: &'a [u8],
}

impl<'a> Model for MemorySource<'a> {
    ghost use Rattle.std.specs.Prelude.{List, ℕ};

    ghost Value = { List ℕ };

    ghost view = { λ s. s.rest.now };
}

impl<'a> MemorySource<'a> {
    pub fn new(bytes: &'a [u8]) -> Self
        ensures { result ≡ bytes.entry.now }
    {
        MemorySource { rest: bytes }
    }
}

impl Source for MemorySource<'_> {
    ghost left = { λ s. Some s };

    ghost faults = { λ _. 0 };

    /// Gives what fits into the buffer. It never fails.
    fn read(&mut self, buf: &mut [u8]) -> Result<usize, Failed>
        ensures bound { ReadsAtMost result buf.new }
        ensures bytes { ReadConsumes (Some self.old) (Some self.new) result buf.new }
        ensures cause { HasCause 0 0 result }
        ensures gives { result ≡ Ok (min (length buf.new) (length self.old)) }
    {
        let count = buf.len().min(self.rest.len());
        let (front, back) = self.rest.split_at(count);
        buf[..count].copy_from_slice(front);
        self.rest = back;
        Ok(count)
    }
}

/// Room for a number of bytes. Contracts see what was written, the room and the faults.
#[derive(Drop)]
pub struct MemorySink {
    bytes: Vec<u8>,
    limit: usize,
    faults: u64,
}

impl Model for MemorySink {
    ghost use Rattle.std.specs.Prelude.{◌≤◌, vec_capacity, vec_len};
    ghost use Rattle.host_io.specs.Ends.{Room};

    ghost Value = { Room };

    ghost view = { λ s. record { written = s.bytes.items; limit = s.limit; faults = s.faults } };

    ghost invariant = { λ s. (vec_len s.bytes ≤ s.limit) × (s.limit ≤ vec_capacity s.bytes) };
}

impl MemorySink {
    pub fn new(alloc: Global, limit: usize) -> Result<Self, AllocError>
        ensures { IfOk result (λ sink. sink ≡ record { written = []; limit = limit; faults = 0 }) }
    {
        let bytes = Vec::with_capacity(alloc, limit)?;
        Ok(MemorySink {
            bytes,
            limit,
            faults: 0,
        })
    }

    /// What was written.
    pub fn bytes(&self) -> &[u8]
        ensures { result.now ≡ self.now.written }
    {
        self.bytes.as_slice()
    }

    /// How often it was full.
    pub fn faults(&self) -> u64
        ensures { result ≡ self.now.faults }
    {
        self.faults
    }
}

impl Sink for MemorySink {
    ghost written = { λ s. Some s.written };

    ghost faults = { λ s. s.faults };

    /// Takes what fits. It fails exactly where it is full.
    fn write(&mut self, bytes: &[u8]) -> Result<usize, Failed>
        ensures bound { WritesAtMost result bytes.now }
        ensures takes { IfOk result (λ n. 0 < length bytes.now → 0 < n) }
        ensures bytes { WriteAppends (Some self.old.written) (Some self.new.written) result bytes.now }
        ensures cause { HasCause self.old.faults self.new.faults result }

        ensures full { is_err result ≡ is_full_for self.old.written self.old.limit bytes.now }
        ensures fits { IfOk result (λ n. n ≡ min (length bytes.now) (room_left self.old.written self.old.limit)) }
        ensures faults { self.new.faults ≡ faults_after result self.old.faults }
        ensures limit { self.new.limit ≡ self.old.limit }
    {
        let room = self.limit - self.bytes.len();
        if room == 0 && !bytes.is_empty() {
            self.faults = self.faults.saturating_add(1);
            return Err(Failed);
        }
        let count = bytes.len().min(room);
        match self.bytes.extend_from_slice(&bytes[..count]) {
            Ok(()) => Ok(count),
            Err(_) => unreachable!(),
        }
    }
}
