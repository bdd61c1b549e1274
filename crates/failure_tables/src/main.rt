//! Tests of runs whose reads or writes fail: a program of tables over fake ends, each line of which
//! counts the runs that ended as told, with just the bytes that they are to leave.
#![tactic(auto)]

mod endings;
mod fakes;
mod scripts;
mod tables;

use endings::Tally;
use fakes::ends_unwritten;
use scripts::Script;
use std::alloc::AllocError;
use std::io::{self, BufReader, Read};
use tables::{failing_reads, failing_second_read, failing_writes, full_sinks, single_bytes};

/// The whole input.
fn read_input(rt: &HostRuntime) -> io::Result<String> {
    let alloc = rt.alloc();
    let mut all = String::new(alloc);
    let mut reader = BufReader::new(alloc, rt.reader())?;
    reader.read_to_string(&mut all)?;
    Ok(all)
}

/// Prints the line of a table: what it tries, and how many of its runs ended as told.
fn print_table(rt: &HostRuntime, what: &str, tally: Result<Tally, AllocError>) -> io::Result<()> {
    let Tally { told, tried } = tally?;
    println!(rt; "{what}: {told} of {tried}")
}

/// The tables of an empty script.
fn print_empty(rt: &HostRuntime) -> io::Result<()> {
    let alloc = rt.alloc();
    let script = Script::new(alloc, b"")?;
    let what = "the one write of no lines fails: WriteFault, nothing written";
    print_table(rt, what, failing_writes(alloc, &script))
}

/// The tables of the deposit.
fn print_deposit(rt: &HostRuntime, lines: &str) -> io::Result<()> {
    let alloc = rt.alloc();
    let script = Script::new(alloc, lines.as_bytes())?;
    let what = "the read behind the deposit's first line fails: ReadFault, nothing written";
    print_table(rt, what, failing_second_read(alloc, &script))?;
    let what =
        "room for each number of bytes of the deposit: WriteFault, these bytes; for all: Done";
    print_table(rt, what, full_sinks(alloc, &script))?;
    let as_told = ends_unwritten(alloc, &script)?;
    println!(rt; "a writer that takes nothing of the deposit: WriteFault, exit 4: {as_told}")
}

/// The tables of the swap.
fn print_swap(rt: &HostRuntime, lines: &str) -> io::Result<()> {
    let alloc = rt.alloc();
    let script = Script::new(alloc, lines.as_bytes())?;
    let what = "reads of the swap, each failing in turn: ReadFault, nothing written";
    print_table(rt, what, failing_reads(alloc, &script))?;
    let what = "writes of the swap, each failing in turn: WriteFault, all that was written before";
    print_table(rt, what, failing_writes(alloc, &script))?;
    let what = "one byte a read of the swap, one byte a write: Done, the journal as before";
    print_table(rt, what, single_bytes(alloc, &script))
}

/// The tables of the two scripts of the input, and of an empty one.
fn print_tables(rt: &HostRuntime, input: &str) -> io::Result<()> {
    let Some((deposit, swap)) = input.split_once("\n\n") else {
        return println!(rt; "two scripts are wanted, and an empty line between them");
    };
    print_empty(rt)?;
    print_deposit(rt, deposit)?;
    print_swap(rt, swap)
}

fn main(rt: HostRuntime) -> io::Result<()> {
    let input = read_input(&rt)?;
    print_tables(&rt, input.as_str())
}
