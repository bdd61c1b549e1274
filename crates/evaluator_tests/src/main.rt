//! Tests of a contract's evaluation: a program of tables over texts, replies of the host and
//! outcomes.
#![tactic(auto)]

mod cases;
mod host;
mod printing;

use cases::print_case;
use std::io::{self, BufReader, Read};

/// The whole input.
fn read_input(rt: &HostRuntime) -> io::Result<String> {
    let alloc = rt.alloc();
    let mut all = String::new(alloc);
    let mut reader = BufReader::new(alloc, rt.reader())?;
    reader.read_to_string(&mut all)?;
    Ok(all)
}

fn main(rt: HostRuntime) -> io::Result<()> {
    let all = read_input(&rt)?;
    for line in all.as_str().lines() {
        print_case(&rt, line)?;
    }
    Ok(())
}
