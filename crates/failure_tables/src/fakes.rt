//! Runs over fake ends, each by its plan.

ghost use Rattle.std.specs.Prelude.{◌<◌};

use crate::endings::Ending;
use crate::scripts::{Script, run};
use std::alloc::{AllocError, Global};
use top_call::host_io_lib::flaky::{FlakySink, FlakySource};
use top_call::host_io_lib::memory::MemorySink;
use top_call::host_io_lib::std_ends::StdSink;
use top_call::top::Status;

/// How a fake end answers its calls.
#[derive(Clone, Copy)]
pub struct Plan {
    /// The call that fails, counted from 1; none where it is 0.
    pub failing: u64,
    /// The most bytes that a call gives or takes.
    pub most: usize,
}

/// Whether the run from a source of this plan ends so.
pub fn ends_from_flaky(
    alloc: Global,
    script: &Script,
    plan: Plan,
    ending: Ending,
) -> Result<bool, AllocError>
    requires { 0 < plan.most }
{
    let mut sink = MemorySink::new(alloc, script.journal.len())?;
    let failing = vec![in alloc; plan.failing]?;
    let mut source = FlakySource::new(script.lines, failing, plan.most);
    let status = run(alloc, &mut source, &mut sink)?;
    Ok(ending.is_met(script, status, sink.bytes()))
}

/// Whether the run into a sink of this plan ends so.
pub fn ends_in_flaky(
    alloc: Global,
    script: &Script,
    plan: Plan,
    ending: Ending,
) -> Result<bool, AllocError>
    requires { 0 < plan.most }
{
    let failing = vec![in alloc; plan.failing]?;
    let mut sink = FlakySink::new(alloc, script.journal.len(), failing, plan.most)?;
    let status = script.run_into(alloc, &mut sink)?;
    Ok(ending.is_met(script, status, sink.bytes()))
}

/// Whether the run into a sink with room for so many bytes ends so.
pub fn ends_in_room(
    alloc: Global,
    script: &Script,
    room: usize,
    ending: Ending,
) -> Result<bool, AllocError> {
    let mut sink = MemorySink::new(alloc, room)?;
    let status = script.run_into(alloc, &mut sink)?;
    Ok(ending.is_met(script, status, sink.bytes()))
}

/// Whether the run into a writer of std that takes nothing ends with a write fault, and exit status 4.
pub fn ends_unwritten(alloc: Global, script: &Script) -> Result<bool, AllocError> {
    let mut no_room = [0u8; 0];
    let mut sink = StdSink::new(no_room.as_mut_slice());
    let status = script.run_into(alloc, &mut sink)?;
    Ok(status == Status::WriteFault && status.code() == 4)
}
