//! The tables: each has a fault come at each place where it can, and counts the runs that ended as told.

use crate::endings::{Ending, Tally};
use crate::fakes::{Plan, ends_from_flaky, ends_in_flaky, ends_in_room};
use crate::scripts::Script;
use std::alloc::{AllocError, Global};

/// The most bytes that a read gives where each fails in turn.
const PIECE: usize = 64;

/// Each read fails in turn: one for each piece, and one at the end.
pub fn failing_reads(alloc: Global, script: &Script) -> Result<Tally, AllocError> {
    let mut tally = Tally::new();
    let pieces = script.lines.chunks(PIECE).count() as u64;
    for failing in 1..=pieces.saturating_add(1) {
        let plan = Plan {
            failing,
            most: PIECE,
        };
        tally.count(ends_from_flaky(alloc, script, plan, Ending::after_read())?);
    }
    Ok(tally)
}

/// The first read gives just the first line, and the second fails.
pub fn failing_second_read(alloc: Global, script: &Script) -> Result<Tally, AllocError> {
    let mut tally = Tally::new();
    let end = script.lines.iter().position(|byte| *byte == b'\n');
    let plan = Plan {
        failing: 2,
        most: end.unwrap_or(0).saturating_add(1),
    };
    tally.count(ends_from_flaky(alloc, script, plan, Ending::after_read())?);
    Ok(tally)
}

/// Each write fails in turn.
pub fn failing_writes(alloc: Global, script: &Script) -> Result<Tally, AllocError> {
    let mut tally = Tally::new();
    let mut failing: u64 = 0;
    for start in &script.write_starts(alloc)? {
        failing = failing.saturating_add(1);
        let plan = Plan {
            failing,
            most: usize::MAX,
        };
        tally.count(ends_in_flaky(alloc, script, plan, Ending::after_write(*start))?);
    }
    Ok(tally)
}

/// There is room for each number of bytes in turn, up to the whole journal.
pub fn full_sinks(alloc: Global, script: &Script) -> Result<Tally, AllocError> {
    let mut tally = Tally::new();
    for room in 0..=script.journal.len() {
        let ending = Ending::with_room(script, room);
        tally.count(ends_in_room(alloc, script, room, ending)?);
    }
    Ok(tally)
}

/// Nothing fails, but a read gives one byte, and then a write takes one.
pub fn single_bytes(alloc: Global, script: &Script) -> Result<Tally, AllocError> {
    let mut tally = Tally::new();
    let plan = Plan {
        failing: 0,
        most: 1,
    };
    let ending = Ending::undisturbed(script);
    tally.count(ends_from_flaky(alloc, script, plan, ending)?);
    tally.count(ends_in_flaky(alloc, script, plan, ending)?);
    Ok(tally)
}
