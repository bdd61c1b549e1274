//! The program: the top call over standard input and output, and over all methods.
#![tactic(auto)]

use all_methods::Methods;
use std::process::ExitCode;
use std::{env, io};
use top_call::command_words_lib::words::{usage, word_faults};
use top_call::host_io_lib::std_ends::{StdSink, StdSource};
use top_call::top::{Status, zoe_top};

/// The words of the command line.
fn words_of(rt: &(impl env::Env + AllocGlobal)) -> io::Result<Vec<String>> {
    let mut words = Vec::new(rt.alloc());
    for word in env::args(rt)? {
        words.push(word)?;
    }
    Ok(words)
}

/// Tells on standard error which word isn't taken and why, and what words are.
fn tell_usage(rt: &(impl Eprint + AllocGlobal), words: &io::Result<Vec<String>>) {
    match words {
        Ok(words) => {
            if let Ok(faults) = word_faults(rt.alloc(), words) {
                let _ = eprintln!(rt; "{faults}");
            }
        }
        Err(_) => {
            let _ = eprintln!(rt; "error: the words aren't UTF-8, or memory ran out");
        }
    }
    let usage = usage();
    let _ = eprintln!(rt; "{usage}");
}

fn main(rt: HostRuntime) -> ExitCode {
    let words = words_of(&rt);
    let status = match &words {
        Ok(words) => {
            let mut source = StdSource::new(rt.reader());
            let mut sink = StdSink::new(io::writer(&rt));
            zoe_top::<Methods, _, _>(rt.alloc(), words, &mut source, &mut sink)
        }
        Err(_) => Status::Usage,
    };
    if status != Status::Done {
        let name = status.name();
        let meaning = status.meaning();
        let _ = eprintln!(rt; "{name}: {meaning}");
    }
    if status == Status::Usage {
        tell_usage(&rt, &words);
    }
    ExitCode::from(status.code())
}
