//! Runs of the program, and a script with the journal of its undisturbed run.

use all_methods::Methods;
use std::alloc::{AllocError, Global};
use top_call::host_io_lib::memory::{MemorySink, MemorySource};
use top_call::host_io_lib::{Sink, Source};
use top_call::top::{Status, zoe_top};

/// The most bytes of a journal.
const ROOM: usize = 1 << 16;

/// The words that the program is called with.
fn words(alloc: Global) -> Result<Vec<String>, AllocError> {
    let mut words = Vec::new(alloc);
    words.push(String::from_str(alloc, "zoe_run")?)?;
    words.push(String::from_str(alloc, "run")?)?;
    Ok(words)
}

/// How the program ends over the source and the sink.
pub fn run<S: Source, K: Sink>(
    alloc: Global,
    source: &mut S,
    sink: &mut K,
) -> Result<Status, AllocError> {
    let words = words(alloc)?;
    Ok(zoe_top::<Methods, S, K>(alloc, &words, source, sink))
}

/// A script, and the journal of its undisturbed run.
#[derive(Drop)]
pub struct Script<'a> {
    pub lines: &'a [u8],
    pub journal: Vec<u8>,
}

impl<'a> Script<'a> {
    /// Runs the script undisturbed.
    pub fn new(alloc: Global, lines: &'a [u8]) -> Result<Script<'a>, AllocError> {
        let mut sink = MemorySink::new(alloc, ROOM)?;
        run(alloc, &mut MemorySource::new(lines), &mut sink)?;
        let journal = sink.bytes().to_vec(alloc)?;
        Ok(Script { lines, journal })
    }

    /// How the run of the script ends over the sink.
    pub fn run_into<K: Sink>(&self, alloc: Global, sink: &mut K) -> Result<Status, AllocError> {
        run(alloc, &mut MemorySource::new(self.lines), sink)
    }

    /// How many bytes of the journal are written before each write: each is a turn's rows or the close
    /// row, and the version row comes with the first.
    pub fn write_starts(&self, alloc: Global) -> Result<Vec<usize>, AllocError> {
        let mut starts = Vec::new(alloc);
        let mut start: usize = 0;
        for (place, row) in self.journal.split(|byte| *byte == b'\n').enumerate() {
            if place == 0 || place > 1 && begins_a_write(row) {
                starts.push(start)?;
            }
            start = start.saturating_add(row.len()).saturating_add(1);
        }
        Ok(starts)
    }
}

/// Whether the row is a turn's or the close row.
fn begins_a_write(row: &[u8]) -> bool {
    row.ends_with(br#""row":"turn"}"#) || row.starts_with(br#"{"left":"#)
}
