//! A line of the table: a meter, a tab, and a text with a function `start`.
use crate::host::NullHost;
use crate::printing::print_outcome;
use jessie_interpreter::amount_math_lib::Kind;
use jessie_interpreter::evaluation::{Outcome, evaluate};
use jessie_interpreter::host_data_lib::data::{Data, Obj, ObjKind};
use jessie_interpreter::host_text_lib::text::Text;
use jessie_interpreter::jessie_grammar_lib::jessie_texts::refusal::ReadError;
use jessie_interpreter::jessie_grammar_lib::syntax::Module;
use jessie_interpreter::jessie_index_lib::jessie_module_index::IndexedModule;
use jessie_reader::reader::read_module;
use std::alloc::{AllocError, Global};
use std::io;

/// A brand as an argument.
fn brand(kind: Kind, number: u32) -> Data {
    Data::Object(Obj {
        kind: ObjKind::Brand(kind),
        number,
    })
}

/// What `start` is called with: zcf, and a brand of each kind.
fn arguments(alloc: Global) -> Result<Vec<Data>, AllocError> {
    let zcf = Obj {
        kind: ObjKind::Zcf,
        number: 2,
    };
    let mut arguments = Vec::new(alloc);
    arguments.push(Data::Object(zcf))?;
    arguments.push(brand(Kind::Nat, 1))?;
    arguments.push(brand(Kind::Set, 2))?;
    arguments.push(brand(Kind::Bag, 3))?;
    Ok(arguments)
}

/// What `start` comes to with this meter. A module of the table has no state variables.
fn run(alloc: Global, module: &IndexedModule, meter: u64) -> Result<Outcome, AllocError> {
    let mut state = Vec::new(alloc);
    if module.variables().len() != state.len() {
        return Ok(Outcome::Spent);
    }
    let arguments = arguments(alloc)?;
    let start = Text::from_str(alloc, "start")?;
    evaluate(
        alloc,
        &mut NullHost {},
        module,
        &start,
        arguments,
        &mut state,
        meter,
    )
}

/// Prints what `start` comes to with this meter.
fn print_run(rt: &HostRuntime, module: &IndexedModule, meter: u64) -> io::Result<()> {
    match run(rt.alloc(), module, meter) {
        Ok(end) => {
            let printed = print_outcome(rt, &end);
            drop(end);
            printed
        }
        Err(_) => print!(rt; "no memory"),
    }
}

/// Prints what `start` comes to with this meter, and with one less, to the end of the line.
fn print_runs(rt: &HostRuntime, module: &IndexedModule, meter: u64) -> io::Result<()> {
    print_run(rt, module, meter)?;
    if meter > 0 {
        print!(rt; "; ")?;
        print_run(rt, module, meter - 1)?;
    }
    println!(rt)
}

/// Prints what `start` of the module comes to with this meter, and with one less.
fn print_module(rt: &HostRuntime, module: Module, meter: u64) -> io::Result<()> {
    match IndexedModule::new(rt.alloc(), module) {
        Ok(module) => {
            let printed = print_runs(rt, &module, meter);
            drop(module);
            printed
        }
        Err(_) => println!(rt; "no memory"),
    }
}

/// Prints what the text comes to: its refusal, or what its `start` does.
fn print_text(rt: &HostRuntime, meter: u64, text: &str) -> io::Result<()> {
    match read_module(rt.alloc(), text.as_bytes()) {
        Ok(module) => print_module(rt, module, meter),
        Err(ReadError::NoMemory) => println!(rt; "no memory"),
        Err(ReadError::Refused(refusal)) => {
            let place = refusal.place;
            let kind = refusal.kind_name();
            println!(rt; "refused {place} {kind}")
        }
    }
}

/// Prints what a line of the table comes to.
pub fn print_case(rt: &HostRuntime, line: &str) -> io::Result<()> {
    let Some((meter, text)) = line.split_once("\t") else {
        return println!(rt; "no case");
    };
    match meter.parse::<u64>() {
        Ok(meter) => print_text(rt, meter, text),
        Err(_) => println!(rt; "no meter"),
    }
}
