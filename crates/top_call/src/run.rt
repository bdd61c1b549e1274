//! The run on an input. Each turn writes its rows in one piece.

ghost use Rattle.std.specs.Prelude.{◌≡◌, ◌≤◌, ◌<◌, ◌^◌, length, map, string_bytes, IfOk, OnOk, IsErrOf};
ghost use Rattle.std.specs.Io.KnownBytes.{Appends, Keeps};
ghost use Rattle.std.specs.List.{AllByRecursion};
ghost use Rattle.host_turns.specs.contract_texts.Reader.{reader};
ghost use Rattle.run_laws.specs.fair_rows.Turns.{IsFairJournal};
ghost use Rattle.host_io.specs.Causes.{Rose};
ghost use Rattle.host_io.specs.Fronts.{AppendsFront};
ghost use Rattle.run_laws.specs.Runs.{AppendsToLimit, AppendsTurns, closing_text, drained, journal_of};
ghost use Rattle.run_laws.specs.Runs.{left_in, left_of, line_run, lines_run};
ghost use Rattle.run_laws.specs.Runs.{most_meter, turns_in, turns_of};
ghost use Rattle.host_turns.specs.HostStates.{host_of};
ghost use Rattle.top_call.specs.Forms.{PrintsInForm};
ghost use Rattle.top_call.specs.Texts.{IsNextText};
ghost use Rattle.run_laws.specs.message_lines.InputLines.{lines_of};
ghost use Rattle.run_laws.specs.message_lines.Meanings.{meaning_of};
ghost use Rattle.host_turns.specs.turn_records.Views.{turn_view};
ghost use Rattle.run_laws.specs.turn_writer.Printing.{CanPrint};
ghost use Rattle.host_turns.specs.turn_records.Printed.{printed};
ghost use Rattle.run_laws.specs.turn_writer.ShortRows.{HasShortJournal, HasShortRows, IsShortRow};
ghost use Rattle.host_turns.specs.turn_rows.Form.{IsInForm};
ghost use Rattle.host_turns.specs.turn_rows.Rows.{close_row};
ghost use Rattle.host_turns.specs.turn_rows.Texts.{turn_text, turns_text};
ghost use Rattle.host_turns.specs.world_state.Rights.{most_turns};
ghost use Rattle.host_turns.specs.turn_rows.Editions.{written};

use host_io::{Failed, Sink, write_all};
use host_turns::contract_powers_lib::planner::Planner;
use host_turns::host::Host;
use host_turns::steps::{StepFault, Submitted};
use host_turns::turn_records_lib::turns::TurnRecord;
use run_laws::message_lines_lib::lines::Lines;
use run_laws::turn_writer_lib::turn_form::is_in_form;
use run_laws::turn_writer_lib::{WRITTEN, write_close, write_turn};
use std::alloc::{AllocError, Global};

/// Why a run ends before its journal is whole.
#[derive(Clone, Copy, PartialEq, Eq)]
pub enum RunFault {
    /// The sink failed.
    Failed,
    /// The last turn that may be run was run, and a delivery is left that is to be run.
    TurnLimit,
    NoMemory,
}

impl From<StepFault> for RunFault {
    ghost use Rattle.top_call.specs.Faults.{run_fault};

    ghost from_gives = { λ fault e. e ≡ run_fault fault };

    fn from(fault: StepFault) -> RunFault {
        match fault {
            StepFault::TurnLimit => RunFault::TurnLimit,
            StepFault::NoMemory => RunFault::NoMemory,
        }
    }
}

fn write<K: Sink>(sink: &mut K, text: &str) -> Result<(), RunFault>
    ensures ok { OnOk result (Appends (K.written sink.old) (K.written sink.new) text.now) }
    ensures failed { IsErrOf result RunFault.Failed
        → AppendsFront (K.written sink.old) (K.written sink.new) text.now }
    ensures memory { IsErrOf result RunFault.NoMemory → ⊥ }
    ensures limit { IsErrOf result RunFault.TurnLimit → ⊥ }
    ensures cause { IsErrOf result RunFault.Failed → Rose (K.faults sink.old) (K.faults sink.new) }
    ensures quiet { OnOk result (K.faults sink.new ≡ K.faults sink.old) }
{
    match write_all(sink, text.as_bytes()) {
        Ok(()) => Ok(()),
        Err(Failed) => Err(RunFault::Failed),
    }
}

/// The rows of a turn that comes after so many others. The turn is let go.
fn text_of(alloc: Global, before: u32, turn: TurnRecord) -> Result<String, AllocError>
    ensures text { let rows = turn_text written before (printed (turn_view turn)) in
        IfOk result (λ text. string_bytes text ≡ rows) }
    ensures form { CanPrint (turn_view turn) → IsInForm written (printed (turn_view turn)) }
    ensures short { IfOk result (λ _. HasShortRows written (printed (turn_view turn))) }
{
    is_in_form(&turn);
    let text = write_turn(alloc, WRITTEN, before, &turn);
    drop(turn);
    text
}

/// The rows of the turn of the delivery in front, or `None` exactly where none waits.
fn next_text<P: Planner>(alloc: Global, host: &mut Host<P>) -> Result<Option<String>, RunFault>
    ensures { IsNextText (host_of host.old) (host_of host.new) result }
{
    let before = host.turns();
    let Some(turn) = host.next_turn(alloc)? else {
        return Ok(None);
    };
    match text_of(alloc, before, turn) {
        Ok(text) => Ok(Some(text)),
        Err(_) => Err(RunFault::NoMemory),
    }
}

/// Runs at most so many deliveries. A turn is written only once all its rows are there.
fn drain<P: Planner, K: Sink>(
    alloc: Global,
    host: &mut Host<P>,
    most: u32,
    sink: &mut K,
) -> Result<(), RunFault>
    requires few { (host_of host.old).turns ≤ most_turns }
    ensures few { OnOk result ((host_of host.new).turns ≤ most_turns) }
    ensures host { OnOk result (host_of host.new ≡ (drained reader most (host_of host.old)).end) }
    ensures ok { let turns = turns_in (drained reader most (host_of host.old)) in
        let text = turns_text written (host_of host.old).turns turns in
        OnOk result (Appends (K.written sink.old) (K.written sink.new) text) }
    ensures memory { let turns = turns_in (drained reader most (host_of host.old)) in
        let before = (host_of host.old).turns in IsErrOf result RunFault.NoMemory
        → AppendsTurns (K.written sink.old) (K.written sink.new) before turns }
    ensures limit { let turns = turns_in (drained reader most (host_of host.old)) in
        let before = (host_of host.old).turns in IsErrOf result RunFault.TurnLimit
        → AppendsToLimit (K.written sink.old) (K.written sink.new) before turns }
    ensures failed { let turns = turns_in (drained reader most (host_of host.old)) in
        let text = turns_text written (host_of host.old).turns turns in
        IsErrOf result RunFault.Failed
        → AppendsFront (K.written sink.old) (K.written sink.new) text }
    ensures cause { IsErrOf result RunFault.Failed → Rose (K.faults sink.old) (K.faults sink.new) }
    ensures quiet { (IsErrOf result RunFault.Failed → ⊥)
        → K.faults sink.new ≡ K.faults sink.old }
    ensures form { let run = drained reader most (host_of host.old) in
        OnOk result (AllByRecursion PrintsInForm run.turns) }
{
    for _ in 0..most {
        let Some(text) = next_text(alloc, host)? else {
            return Ok(());
        };
        write(sink, text.as_str())?;
    }
    Ok(())
}

/// Works a line: its delivery waits, or so many deliveries are run.
fn work_line<P: Planner, K: Sink>(
    alloc: Global,
    host: &mut Host<P>,
    line: &[u8],
    sink: &mut K,
) -> Result<(), RunFault>
    requires few { (host_of host.old).turns ≤ most_turns }
    ensures few { OnOk result ((host_of host.new).turns ≤ most_turns) }
    ensures host { let run = line_run reader (host_of host.old) (meaning_of line.now) in
        OnOk result (host_of host.new ≡ run.end) }
    ensures ok { let run = line_run reader (host_of host.old) (meaning_of line.now) in
        let text = turns_text written (host_of host.old).turns (turns_in run) in
        OnOk result (Appends (K.written sink.old) (K.written sink.new) text) }
    ensures memory { let run = line_run reader (host_of host.old) (meaning_of line.now) in
        let before = (host_of host.old).turns in IsErrOf result RunFault.NoMemory
        → AppendsTurns (K.written sink.old) (K.written sink.new) before (turns_in run) }
    ensures limit { let run = line_run reader (host_of host.old) (meaning_of line.now) in
        let before = (host_of host.old).turns in IsErrOf result RunFault.TurnLimit
        → AppendsToLimit (K.written sink.old) (K.written sink.new) before (turns_in run) }
    ensures failed { let run = line_run reader (host_of host.old) (meaning_of line.now) in
        let text = turns_text written (host_of host.old).turns (turns_in run) in
        IsErrOf result RunFault.Failed
        → AppendsFront (K.written sink.old) (K.written sink.new) text }
    ensures cause { IsErrOf result RunFault.Failed → Rose (K.faults sink.old) (K.faults sink.new) }
    ensures quiet { (IsErrOf result RunFault.Failed → ⊥)
        → K.faults sink.new ≡ K.faults sink.old }
    ensures form { let run = line_run reader (host_of host.old) (meaning_of line.now) in
        OnOk result (AllByRecursion PrintsInForm run.turns) }
{
    match host.submit(alloc, line) {
        Ok(Submitted::Run(most)) => drain(alloc, host, most, sink),
        Ok(Submitted::Blank | Submitted::Queued) => Ok(()),
        Err(_) => Err(RunFault::NoMemory),
    }
}

/// Works each line of the input.
fn work_lines<P: Planner, K: Sink>(
    alloc: Global,
    host: &mut Host<P>,
    input: &[u8],
    sink: &mut K,
) -> Result<(), RunFault>
    requires few { (host_of host.old).turns ≤ most_turns }
    ensures few { OnOk result ((host_of host.new).turns ≤ most_turns) }
    ensures host { let lines = map meaning_of (lines_of input.now) in
        OnOk result (host_of host.new ≡ (lines_run reader (host_of host.old) lines).end) }
    ensures ok { let run = lines_run reader (host_of host.old) (map meaning_of (lines_of input.now)) in
        let text = turns_text written (host_of host.old).turns (turns_in run) in
        OnOk result (Appends (K.written sink.old) (K.written sink.new) text) }
    ensures memory { let lines = map meaning_of (lines_of input.now) in
        let run = lines_run reader (host_of host.old) lines in
        let before = (host_of host.old).turns in IsErrOf result RunFault.NoMemory
        → AppendsTurns (K.written sink.old) (K.written sink.new) before (turns_in run) }
    ensures limit { let lines = map meaning_of (lines_of input.now) in
        let run = lines_run reader (host_of host.old) lines in
        let before = (host_of host.old).turns in IsErrOf result RunFault.TurnLimit
        → AppendsToLimit (K.written sink.old) (K.written sink.new) before (turns_in run) }
    ensures failed { let lines = map meaning_of (lines_of input.now) in
        let run = lines_run reader (host_of host.old) lines in
        let text = turns_text written (host_of host.old).turns (turns_in run) in
        IsErrOf result RunFault.Failed
        → AppendsFront (K.written sink.old) (K.written sink.new) text }
    ensures cause { IsErrOf result RunFault.Failed → Rose (K.faults sink.old) (K.faults sink.new) }
    ensures quiet { (IsErrOf result RunFault.Failed → ⊥)
        → K.faults sink.new ≡ K.faults sink.old }
    ensures form { let run = lines_run reader (host_of host.old) (map meaning_of (lines_of input.now)) in
        OnOk result (AllByRecursion PrintsInForm run.turns) }
{
    for line in Lines::new(input) {
        work_line(alloc, host, line, sink)?;
    }
    Ok(())
}

/// Writes the close row.
fn close<P: Planner, K: Sink>(alloc: Global, host: &Host<P>, sink: &mut K) -> Result<(), RunFault>
    ensures ok { OnOk result
        (Appends (K.written sink.old) (K.written sink.new) (closing_text (host_of host.now))) }
    ensures memory { IsErrOf result RunFault.NoMemory
        → Keeps (K.written sink.old) (K.written sink.new) }
    ensures limit { IsErrOf result RunFault.TurnLimit → ⊥ }
    ensures failed { IsErrOf result RunFault.Failed
        → AppendsFront (K.written sink.old) (K.written sink.new) (closing_text (host_of host.now)) }
    ensures cause { IsErrOf result RunFault.Failed → Rose (K.faults sink.old) (K.faults sink.new) }
    ensures quiet { (IsErrOf result RunFault.Failed → ⊥)
        → K.faults sink.new ≡ K.faults sink.old }
    ensures left { OnOk result (left_in (host_of host.now) < 2 ^ 64) }
    ensures short { let host = host_of host.now in
        OnOk result (IsShortRow (close_row (left_in host) host.turns)) }
{
    let Ok(text) = write_close(alloc, WRITTEN, host.waiting(), host.turns()) else {
        return Err(RunFault::NoMemory);
    };
    write(sink, text.as_str())
}

/// The run on an input: functions of contracts run under the meter, and at most so many deliveries are
/// run at the input's end.
pub fn run_input<P: Planner, K: Sink>(
    alloc: Global,
    input: &[u8],
    meter: u32,
    most: u32,
    sink: &mut K,
) -> Result<(), RunFault>
    requires { meter ≤ most_meter }
    ensures ok { OnOk result (Appends (K.written sink.old) (K.written sink.new)
        (journal_of reader meter most input.now)) }
    ensures few { OnOk result (length (turns_of reader meter most input.now) ≤ most_turns) }
    ensures memory { let turns = turns_of reader meter most input.now in
        IsErrOf result RunFault.NoMemory
        → AppendsTurns (K.written sink.old) (K.written sink.new) 0 turns }
    ensures limit { let turns = turns_of reader meter most input.now in
        IsErrOf result RunFault.TurnLimit
        → AppendsToLimit (K.written sink.old) (K.written sink.new) 0 turns }
    ensures failed { let journal = journal_of reader meter most input.now in
        IsErrOf result RunFault.Failed
        → AppendsFront (K.written sink.old) (K.written sink.new) journal }
    ensures cause { IsErrOf result RunFault.Failed → Rose (K.faults sink.old) (K.faults sink.new) }
    ensures quiet { (IsErrOf result RunFault.Failed → ⊥)
        → K.faults sink.new ≡ K.faults sink.old }
    // It is the text of a fair journal: of turns in form, which are fair, with so many deliveries left.
    ensures fair { let turns = turns_of reader meter most input.now in
        let left = left_of reader meter most input.now in
        OnOk result (IsFairJournal written (journal_of reader meter most input.now) turns left) }
    // No row of it is too long.
    ensures short { let turns = turns_of reader meter most input.now in
        OnOk result (HasShortJournal written turns (left_of reader meter most input.now)) }
{
    let Ok(mut host) = Host::<P>::new(alloc, meter) else {
        return Err(RunFault::NoMemory);
    };
    work_lines(alloc, &mut host, input, sink)?;
    drain(alloc, &mut host, most, sink)?;
    close(alloc, &host, sink)
}
