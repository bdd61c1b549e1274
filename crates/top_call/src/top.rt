//! The top call.

ghost use Rattle.std.specs.Prelude.{◌≡◌, ◌≤◌, ℕ, List, map, true, false, string_bytes, IfErr, IfOk};
ghost use Rattle.std.specs.Prelude.{IfSome, OnOk, Some};
ghost use Rattle.std.specs.Io.KnownBytes.{IsAtEnd};
ghost use Rattle.std.specs.List.{AllByRecursion};
ghost use Rattle.command_words.specs.Words.{options_of, takes_words};
ghost use Rattle.host_turns.specs.contract_texts.Reader.{reader};
ghost use Rattle.run_laws.specs.FairRuns.{TellsLittle};
ghost use Rattle.run_laws.specs.fair_rows.Strict.{AreStrict};
ghost use Rattle.run_laws.specs.fair_rows.Turns.{AreFair};
ghost use Rattle.host_turns.specs.turn_rows.Editions.{written};
ghost use Rattle.run_laws.specs.Order.{AreInOrder};
ghost use Rattle.run_laws.specs.Runs.{first_host, host_machine, meanings_of, most_meter, run_of, turns_of};
ghost use Rattle.run_laws.specs.message_lines.InputLines.{is_too_long};
ghost use Rattle.run_laws.specs.Licences.{IsLicensedTurn};
ghost use Rattle.run_laws.specs.licence_laws.Minting.{IsCalledForTurn};
ghost use Rattle.run_laws.specs.licence_laws.Spending.{IsSpentByNameTurn};
ghost use Rattle.top_call.specs.Top.{Ends, IsFree, IsNotRun, IsOfRun, IsRefused, Says, exit_code};
ghost use Rattle.top_call.specs.Top.{no_faults, status_name, words_status};

use crate::run::{RunFault, run_input};
use command_words::words::{Options, WordsFault, read_words};
use host_io::{ReadError, Sink, Source, read_all};
use host_turns::contract_powers_lib::planner::Planner;
use run_laws::message_lines_lib::lines::{MAX_INPUT, has_long_line};
use std::alloc::Global;

/// How the program ended.
#[derive(Clone, Copy, PartialEq, Eq)]
pub enum Status {
    Done,
    Usage,
    ReadFault,
    WriteFault,
    NoMemory,
    TurnLimit,
    TooLong,
}

impl Status {
    /// The program's exit status.
    pub fn code(self) -> u8
        ensures { result ≡ exit_code self }
    {
        match self {
            Status::Done => 0,
            Status::Usage => 2,
            Status::ReadFault => 3,
            Status::WriteFault => 4,
            Status::NoMemory => 5,
            Status::TurnLimit => 6,
            Status::TooLong => 7,
        }
    }

    pub fn name(self) -> &'static str
        ensures { result.now ≡ status_name self }
    {
        match self {
            Status::Done => "Done",
            Status::Usage => "Usage",
            Status::ReadFault => "ReadFault",
            Status::WriteFault => "WriteFault",
            Status::NoMemory => "NoMemory",
            Status::TurnLimit => "TurnLimit",
            Status::TooLong => "TooLong",
        }
    }

    /// What the status says of the run, to be shown on standard error.
    pub fn meaning(self) -> &'static str {
        match self {
            Status::Done => "all was read, and the whole journal was written",
            Status::Usage => {
                "the words after the program's name are none that it takes; \
                 nothing was read or written"
            }
            Status::ReadFault => "the input could not be read to its end; nothing was written",
            Status::WriteFault => {
                "the output could not be written; a front of the journal at most is there"
            }
            Status::NoMemory => {
                "memory ran out, a line would make more than 1048576 parts, or a row would have more \
                 than 67108864 bytes; what was written are the rows of the first turns, if any, \
                 whole, without a close row"
            }
            Status::TurnLimit => {
                "turn 4000000000, the last that is run, was run and a delivery is left to be run; \
                 what was written are the rows of those turns, without a close row"
            }
            Status::TooLong => {
                "the input has more than 1073741824 bytes, or a line of it more than 1048576; \
                 nothing was written"
            }
        }
    }
}

/// Why the words give no options.
fn words_status(fault: WordsFault) -> Status
    ensures { result ≡ words_status fault }
{
    match fault {
        WordsFault::Usage => Status::Usage,
        WordsFault::NoMemory => Status::NoMemory,
    }
}

/// The whole input, which has not too many bytes and no line that has, or why it isn't run.
fn read_input<S: Source>(alloc: Global, source: &mut S) -> Result<Vec<u8>, Status>
    ensures short { IfOk result (λ input. is_too_long input.items ≡ false) }
    ensures all { IfOk result (λ input. IfSome (S.left source.old) (λ held. input.items ≡ held)) }
    ensures end { OnOk result (IsAtEnd (S.left source.new)) }
    ensures quiet { OnOk result (S.faults source.new ≡ S.faults source.old) }
    ensures why { IfErr result (λ status. IsNotRun status (S.left source.old)
        (record { before = S.faults source.old; now = S.faults source.new })) }
{
    let input = match read_all(alloc, source, MAX_INPUT) {
        Ok(input) => input,
        Err(ReadError::Failed) => return Err(Status::ReadFault),
        Err(ReadError::TooLong) => return Err(Status::TooLong),
        Err(ReadError::NoMemory) => return Err(Status::NoMemory),
    };
    if has_long_line(&input) {
        return Err(Status::TooLong);
    }
    Ok(input)
}

/// Writes the journal of the run on an input.
fn run_on<P: Planner, K: Sink>(
    alloc: Global,
    input: &[u8],
    options: Options,
    sink: &mut K,
) -> Status
    requires meter { options.meter ≤ most_meter }
    requires short { is_too_long input.now ≡ false }
    ensures run { IsOfRun result }
    ensures says { Says result (record {
      options = options;
      held = Some input.now;
      written = record { before = K.written sink.old; now = K.written sink.new };
      source = no_faults;
      sink = record { before = K.faults sink.old; now = K.faults sink.new };
    }) }
{
    match run_input::<P, K>(alloc, input, options.meter, options.turns, sink) {
        Ok(()) => Status::Done,
        Err(RunFault::Failed) => Status::WriteFault,
        Err(RunFault::TurnLimit) => Status::TurnLimit,
        Err(RunFault::NoMemory) => Status::NoMemory,
    }
}

/// Reads the whole input and writes the journal of the run on it.
#[tactic(auto, using(run_laws::proofs::RunOrder::runs_in_order, crate::proofs::InForm::runs_fair, crate::proofs::InForm::runs_strict, crate::proofs::InForm::runs_little, crate::proofs::Licences::runs_called_for, crate::proofs::Licences::runs_spent_by_name, crate::proofs::Licences::runs_licensed))]
pub fn zoe_top<P: Planner, S: Source, K: Sink>(
    alloc: Global,
    words: &[String],
    source: &mut S,
    sink: &mut K,
) -> Status
    // What was written, and why each status comes.
    ensures says { Says result (record {
      options = options_of (map (λ w. string_bytes w) words.now);
      held = S.left source.old;
      written = record { before = K.written sink.old; now = K.written sink.new };
      source = record { before = S.faults source.old; now = S.faults source.new };
      sink = record { before = K.faults sink.old; now = K.faults sink.new };
    }) }
    ensures all_read { result ≡ Status.Done → IsAtEnd (S.left source.new) }

    // The words aren't taken, and nothing is read or written.
    ensures usage { result ≡ Status.Usage
        → takes_words (map (λ w. string_bytes w) words.now) ≡ false }
    ensures refused { takes_words (map (λ w. string_bytes w) words.now) ≡ false → IsRefused result }
    ensures untouched { takes_words (map (λ w. string_bytes w) words.now) ≡ false
        → (source.new ≡ source.old) × (sink.new ≡ sink.old) }

    // Where nothing stands against it, the run is done.
    ensures complete { IfSome (S.left source.old) (λ input.
        takes_words (map (λ w. string_bytes w) words.now) ≡ true → IsFree (record {
          options = options_of (map (λ w. string_bytes w) words.now);
          held = S.left source.old;
          written = record { before = K.written sink.old; now = K.written sink.new };
          source = record { before = S.faults source.old; now = S.faults source.new };
          sink = record { before = K.faults sink.old; now = K.faults sink.new };
        }) input → Ends result) }

    // The turns of the run are fair, whatever the input.
    ensures fair { (meter most : ℕ) (input : List ℕ) → meter ≤ most_meter
        → AreFair written (turns_of reader meter most input) }

    // They keep to all that a host keeps to beyond fairness: amounts are answered whole, and more.
    ensures strict { (meter most : ℕ) (input : List ℕ) → meter ≤ most_meter
        → AreStrict (turns_of reader meter most input) }

    // Of a turn that was refused settlements are told alone; of one that spent its meter exits and settlements.
    ensures little { (meter most : ℕ) (input : List ℕ) → meter ≤ most_meter
        → AllByRecursion TellsLittle (turns_of reader meter most input) }

    // Each turn shows the calls that ask for what it takes from outside and from purses.
    ensures called_for { (meter most : ℕ) (input : List ℕ) → meter ≤ most_meter
        → AllByRecursion IsCalledForTurn (turns_of reader meter most input) }

    // It names each payment that it takes from, or a call of its function does.
    ensures spent_by_name { (meter most : ℕ) (input : List ℕ) → meter ≤ most_meter
        → AllByRecursion IsSpentByNameTurn (turns_of reader meter most input) }

    // A contract's function names only what it was handed, and each movement is by right.
    ensures licensed { (meter most : ℕ) (input : List ℕ) → meter ≤ most_meter
        → AllByRecursion IsLicensedTurn (run_of reader meter most input).turns }

    // Deliveries have their turns in order, whatever the input.
    ensures in_order { (meter most : ℕ) (input : List ℕ)
        → AreInOrder (host_machine reader) (first_host meter) (meanings_of most input) }
{
    let options = match read_words(alloc, words) {
        Ok(options) => options,
        Err(fault) => return words_status(fault),
    };
    match read_input(alloc, source) {
        Ok(input) => run_on::<P, K>(alloc, &input, options, sink),
        Err(status) => status,
    }
}
