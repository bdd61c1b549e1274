//! The words of the command line, read by `clap`: the program's name, and a subcommand with its
//! options. Any other list of words is a fault of usage, and so are `--help` and `help`.

ghost use Rattle.std.specs.Prelude.{◌≡◌, ◌≢◌, ◌≤◌, ◌<◌, ◌^◌, Err, ℕ, List, map, true, false, pos, string_bytes, Some, IfOk, MatchResult};
ghost use Rattle.clap.specs.Words.{app_of, found_of, kind_of, one_text, rule_of, subcommand_of, subcommand_rows_of};
ghost use Rattle.clap.specs.declared.error.kind.ErrorKind.TheVariants.{OutOfMemory};
ghost use Rattle.clap.specs.declared.builder.command.Command.TheViews.{out-Command as fields_of};
ghost use Rattle.command_words.specs.declared.words.WordsFault.TheVariants.{NoMemory, Usage};
ghost use Rattle.std.specs.Str.Parse.{IsNumeral, without_leading_plus};
ghost use Rattle.command_words.specs.Words.{command_set, default_options, number_of_text, number_option, options_of, plain_run, run_command, takes_words};

use clap::error::ErrorKind;
use clap::{Arg, ArgMatches, Command, value_parser};
use std::alloc::{AllocError, Global};

/// What `run` is asked for.
#[derive(Clone, Copy, PartialEq, Eq)]
pub struct Options {
    /// How many deliveries are run, at most, at the end of the input.
    pub turns: u32,
    /// What a contract's turn may spend.
    pub meter: u32,
}

/// Why the words give no options.
#[derive(Clone, Copy, PartialEq, Eq)]
pub enum WordsFault {
    /// The command set doesn't take the words.
    Usage,
    /// Memory ran out.
    NoMemory,
}

impl From<AllocError> for WordsFault {
    ghost from_gives = { λ _ fault. fault ≡ NoMemory };

    fn from(_error: AllocError) -> WordsFault {
        WordsFault::NoMemory
    }
}

impl From<clap::Error> for WordsFault {
    ghost from_gives = { λ error fault. fault ≡ Usage → kind_of error ≢ OutOfMemory };

    fn from(error: clap::Error) -> WordsFault {
        match error.kind() {
            ErrorKind::OutOfMemory => WordsFault::NoMemory,
            _ => WordsFault::Usage,
        }
    }
}

/// What the program's words may be, what it ends with, and the first page to read, to be shown on
/// standard error.
pub fn usage() -> &'static str {
    "usage: zoe_run run [--turns n] [--meter n] < FILE\n  \
     run  reads lines from standard input to its end, and then writes the journal to standard output\n    \
     --turns n  how many deliveries are run at the end of the input, 0 to 4000000000;\n               \
     10000 if it is not given\n    \
     --meter n  what a contract's turn may spend, 1 to 10000000; 1000000 if it is not given\n  \
     no other words are taken, --help neither\n\
     exit status: 0 Done, 2 Usage, 3 ReadFault, 4 WriteFault, 5 NoMemory, 6 TurnLimit, 7 TooLong\n  \
     of each but Done, standard error says what it means; Done says nothing of refusals, which\n  \
     are rows of the journal\n\
     first page to read: README.md of the repository; then docs/TRADER.md, to write a contract\n  \
     docs/CONTRACTS.md, to run the program docs/OPERATING.md"
}

/// The option `--name n`, whose number lies from `least` to `most`.
fn number_option<'a>(
    alloc: Global,
    name: &'a str,
    default: &'a str,
    least: u32,
    most: u32,
) -> Arg<'a>
    ensures rule { rule_of result ≡ number_option name.entry.now default.entry.now least most }
    ensures local { result.global ≡ false }
{
    Arg::new(alloc, name)
        .long(name)
        .default_value(default)
        .value_parser(value_parser!(u32).range(i64::from(least)..=i64::from(most)))
}

/// `run [--turns n] [--meter n]`.
fn run_command<'a>(alloc: Global) -> Result<Command<'a>, AllocError>
    ensures { IfOk result (λ command. (app_of command ≡ run_command) × ((fields_of command).has_globals ≡ false)) }
{
    let turns = number_option(alloc, "turns", "10000", 0, 4_000_000_000);
    let meter = number_option(alloc, "meter", "1000000", 1, 10_000_000);
    Command::new(alloc, "run").arg(turns)?.arg(meter)
}

/// The program's name, and one of its subcommands.
fn command_set<'a>(alloc: Global) -> Result<Command<'a>, AllocError>
    ensures { IfOk result (λ command. app_of command ≡ command_set) }
{
    let run = run_command(alloc)?;
    let commands = Command::new(alloc, "zoe_run").subcommand(run)?;
    Ok(
        commands
            .subcommand_required(true)
            .disable_help_flag(true)
            .disable_help_subcommand(true),
    )
}

/// The number of an option whose text passed its range.
fn number_given(matches: &ArgMatches<'_>, name: &str) -> u32
    ensures { (text : List ℕ) → one_text (found_of matches.now) name.now ≡ Some text
        → IsNumeral 10 (without_leading_plus text) → number_of_text text < 2 ^ 32 → result ≡ number_of_text text }
{
    matches.get_one::<u32>(name).unwrap_or(0)
}

/// What clap makes of the words, where the command set takes them.
fn words_matched<'a>(alloc: Global, words: &'a [String]) -> Result<ArgMatches<'a>, WordsFault>
    ensures taken { IfOk result (λ _. takes_words (map (λ w. string_bytes w) words.entry.now) ≡ true) }
    ensures rows { IfOk result (λ matches.
        subcommand_rows_of matches ≡ subcommand_of command_set (map (λ w. string_bytes w) words.entry.now)) }
    ensures usage { result ≡ Err Usage → takes_words (map (λ w. string_bytes w) words.entry.now) ≡ false }
{
    let commands = command_set(alloc)?;
    let matches = commands.try_get_matches_from(words)?;
    Ok(matches)
}

/// Reads the words, of which the first is the program's name.
pub fn read_words(alloc: Global, words: &[String]) -> Result<Options, WordsFault>
    // Options come only for words that the command set takes, and are those that the words give.
    ensures taken { IfOk result (λ _. takes_words (map (λ w. string_bytes w) words.now) ≡ true) }
    ensures options { IfOk result (λ options. options ≡ options_of (map (λ w. string_bytes w) words.now)) }

    // A plain `run` gives the defaults, where memory is left.
    ensures plain { (name : List ℕ) → map (λ w. string_bytes w) words.now ≡ plain_run name
        → MatchResult result (λ options. options ≡ default_options) (λ fault. fault ≡ NoMemory) }

    // They lie in their ranges.
    ensures turns { IfOk result (λ options. options.turns ≤ 4000000000) }
    ensures meter { IfOk result (λ options. (1 ≤ options.meter) × (options.meter ≤ 10000000)) }

    // A fault of usage comes only for words that it doesn't take.
    ensures usage { result ≡ Err Usage → takes_words (map (λ w. string_bytes w) words.now) ≡ false }
{
    let matches = words_matched(alloc, words)?;
    match matches.subcommand() {
        Some((_, run)) => Ok(Options {
            turns: number_given(run, "turns"),
            meter: number_given(run, "meter"),
        }),
        None => Err(WordsFault::Usage),
    }
}

/// What is to be done about a fault of usage.
fn advice(kind: ErrorKind) -> &'static str {
    match kind {
        ErrorKind::InvalidValue | ErrorKind::ValueValidation => {
            "--turns takes a number from 0 to 4000000000, --meter one from 1 to 10000000"
        }
        ErrorKind::ArgumentConflict => "each option is given once at most",
        ErrorKind::InvalidSubcommand | ErrorKind::MissingSubcommand => {
            "the first word is run, and a file is given by <: zoe_run run < FILE"
        }
        _ => "after run stand --turns and --meter alone; a file is given by <: zoe_run run < FILE",
    }
}

/// Which of the words isn't taken and why, in a line, and in another what is to be done; nothing where
/// the words are taken. To be shown on standard error.
pub fn word_faults(alloc: Global, words: &[String]) -> Result<String, AllocError> {
    let commands = command_set(alloc)?;
    match commands.try_get_matches_from(words) {
        Ok(_) => Ok(String::new(alloc)),
        Err(error) => {
            let told = format!(in alloc; "{error}")?;
            let line = told.lines().next().unwrap_or("");
            format!(in alloc; "{line}\n  {}", advice(error.kind()))
        }
    }
}
