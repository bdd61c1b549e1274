//! An outcome printed shortly, as a part of a line.
use jessie_interpreter::evaluation::Outcome;
use jessie_interpreter::host_data_lib::data::Data;
use std::io;

/// Prints a value, shortly.
fn print_value(rt: &HostRuntime, data: &Data) -> io::Result<()> {
    match data {
        Data::Number(number) => print!(rt; "{number}"),
        Data::Text(text) => {
            let text = text.as_str();
            print!(rt; "'{text}'")
        }
        Data::Bool(truth) => print!(rt; "{truth}"),
        Data::Null => print!(rt; "null"),
        Data::Array(items) => {
            let count = items.len();
            print!(rt; "array of {count}")
        }
        Data::Record(fields) => {
            let count = fields.len();
            print!(rt; "record of {count}")
        }
        Data::Object(_) => print!(rt; "object"),
        Data::Function(name) => {
            let name = name.as_str();
            print!(rt; "function {name}")
        }
    }
}

/// The first value that a refusal shows.
fn first_shown(data: &Data) -> Option<&Data> {
    let shown = data.field("shown")?;
    let items = shown.items()?;
    items.first()
}

/// Prints what is thrown: a refusal's code, with the first that it shows, or the value.
fn print_thrown(rt: &HostRuntime, data: &Data) -> io::Result<()> {
    let Some(code) = data.field("code") else {
        return print_value(rt, data);
    };
    print_value(rt, code)?;
    let Some(first) = first_shown(data) else {
        return Ok(());
    };
    print!(rt; " ")?;
    print_value(rt, first)
}

/// Prints what a run comes to.
pub fn print_outcome(rt: &HostRuntime, outcome: &Outcome) -> io::Result<()> {
    match outcome {
        Outcome::Returned(data) => {
            print!(rt; "returned ")?;
            print_value(rt, data)
        }
        Outcome::Threw(data) => {
            print!(rt; "threw ")?;
            print_thrown(rt, data)
        }
        Outcome::Spent => print!(rt; "spent"),
    }
}
