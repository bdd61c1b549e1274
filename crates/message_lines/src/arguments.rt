//! The parts of which a line's arguments are made: data, with paths where objects and other named
//! things are to stand once the message is delivered. Its one contract: from the JSON of a line the
//! arguments are read exactly where they are data of a bounded depth.

ghost use Rattle.std.specs.Prelude.{◌≡◌, ◌==◌, IfOk, nat_le, option_map, position};
ghost use Rattle.turn_records.specs.host_text.Numbers.{number_in};
ghost use Rattle.serde_json.specs.Find.{get_member};
ghost use Rattle.serde_json.specs.View.{items_view, members_view, view};
ghost use Rattle.message_lines.specs.Arguments as spec;
ghost use Rattle.message_lines.specs.NamedParts.{named_views};
ghost use Rattle.turn_records.specs.Views.{field_parts_of, part_view, part_views, parts_of};
ghost use Rattle.turn_records.specs.Messages.{number};

use serde_json::{Map, Value};
use std::alloc::{AllocError, Global};
use turn_records::host_text_lib::label::Label;
use turn_records::host_text_lib::number::read_number;
use turn_records::host_text_lib::text::Text;
use turn_records::host_text_lib::word::is_field_name;
use turn_records::messages::Part;

/// The most bytes of a text in data.
const MOST_BYTES: usize = 65_536;

/// How deep an argument may nest.
const MOST_DEEP: u32 = 32;

/// Whether a step has digits alone, of which the first is no `0` but where it is the only one.
fn is_index(step: &[u8]) -> bool
    ensures { result ≡ spec.is_index step.now }
{
    match step {
        [] => false,
        [digit] => digit.is_ascii_digit(),
        [first, _, ..] => are_digits(step) && *first != b'0',
    }
}

fn are_digits(step: &[u8]) -> bool
    ensures { result ≡ spec.are_digits step.now }
{
    step.iter().all(|byte| byte.is_ascii_digit())
}

fn is_step(step: &[u8]) -> bool
    ensures { result ≡ spec.is_step step.now }
{
    is_field_name(step) || is_index(step)
}

/// Whether what stands between the dots are the names of fields and the places of parts.
fn are_steps(bytes: &[u8]) -> bool
    ensures { result ≡ spec.are_steps (spec.steps_of bytes.now) }
{
    bytes.split(|byte| *byte == b'.').all(is_step)
}

fn first_dot(bytes: &[u8]) -> Option<usize>
    ensures { result ≡ position (λ byte. byte == 46) bytes.now }
{
    bytes.iter().position(|byte| *byte == b'.')
}

/// Whether the bytes are a path: a label, then steps `.field` or `.index`.
pub fn is_path(bytes: &[u8]) -> bool
    ensures { result ≡ spec.is_path bytes.now }
{
    match first_dot(bytes) {
        Some(dot) => Label::is_label(&bytes[..dot]) && are_steps(&bytes[dot + 1..]),
        None => Label::is_label(bytes),
    }
}

/// The member of that name.
pub fn member<'a>(members: &'a Map<String, Value>, name: &str) -> Option<&'a Value>
    ensures { option_map (λ found. view found.now) result
        ≡ get_member name.now (members_view members.now.entries) }
{
    members.get(name)
}

/// The text of the one member, where there is one alone and it has that name.
fn only_text<'a>(members: &'a Map<String, Value>, name: &str) -> Option<&'a str>
    ensures { option_map (λ text. text.now) result
        ≡ spec.only_text name.now (members_view members.now.entries) }
{
    if members.len() != 1 {
        return None;
    }
    member(members, name)?.as_str()
}

fn text_part(alloc: Global, text: &str) -> Result<Option<Part>, AllocError>
    ensures { IfOk result (λ read. option_map part_view read ≡ spec.text_part text.now) }
{
    if text.len() > MOST_BYTES {
        return Ok(None);
    }
    Ok(Some(Part::Text(Text::from_str(alloc, text)?)))
}

fn path_part(alloc: Global, path: &str) -> Result<Option<Part>, AllocError>
    ensures { IfOk result (λ read. option_map part_view read ≡ spec.path_part path.now) }
{
    if !is_path(path.as_bytes()) {
        return Ok(None);
    }
    Ok(Some(Part::Path(Text::from_str(alloc, path)?)))
}

fn decimal_part(decimal: &str) -> Option<Part>
    ensures { option_map part_view result ≡ option_map number (number_in decimal.now) }
{
    match read_number(decimal.as_bytes()) {
        Some(number) => Some(Part::Number(number)),
        None => None,
    }
}

/// What the JSON stands for, or `None` where it is no data.
#[cycle(read)]
fn read_part(alloc: Global, value: &Value) -> Result<Option<Part>, AllocError>
    ensures { IfOk result (λ read. option_map part_view read ≡ spec.part_in (view value.now)) }
{
    match value {
        Value::Null => Ok(Some(Part::Null)),
        Value::Bool(truth) => Ok(Some(Part::Bool(*truth))),
        Value::Number(number) => match number.as_i128() {
            Some(number) => Ok(Some(Part::Number(number))),
            None => Ok(None),
        },
        Value::String(text) => text_part(alloc, text.as_str()),
        Value::Array(items) => match read_items(alloc, items)? {
            Some(parts) => Ok(Some(Part::Array(parts))),
            None => Ok(None),
        },
        Value::Object(members) => read_object(alloc, members),
    }
}

/// The number that `{"#":decimal}` writes, the path of `{"@":path}`, or a record.
#[cycle(read)]
fn read_object(alloc: Global, members: &Map<String, Value>) -> Result<Option<Part>, AllocError>
    ensures { IfOk result (λ read. option_map part_view read
        ≡ spec.part_in_members (members_view members.now.entries)) }
{
    if let Some(decimal) = only_text(members, "#") {
        return Ok(decimal_part(decimal));
    }
    if let Some(path) = only_text(members, "@") {
        return path_part(alloc, path);
    }
    match read_fields(alloc, members)? {
        Some(fields) => Ok(Some(Part::Record(fields))),
        None => Ok(None),
    }
}

#[cycle(read)]
fn read_items(alloc: Global, items: &Vec<Value>) -> Result<Option<Vec<Part>>, AllocError>
    ensures { IfOk result (λ read. option_map (λ parts. parts_of (part_views parts.items)) read
        ≡ spec.parts_in (items_view items.now.items)) }
{
    let mut parts = Vec::new(alloc);
    for item in items {
        match read_part(alloc, item)? {
            Some(part) => parts.push(part)?,
            None => return Ok(None),
        }
    }
    Ok(Some(parts))
}

#[cycle(read)]
fn read_fields(
    alloc: Global,
    members: &Map<String, Value>,
) -> Result<Option<Vec<(Text, Part)>>, AllocError>
    ensures { let given = spec.fields_in (members_view members.now.entries) in
        IfOk result (λ read. option_map (λ fs. field_parts_of (named_views fs.items)) read ≡ given) }
{
    let mut fields = Vec::new(alloc);
    for (name, value) in members.iter() {
        if !is_field_name(name.as_bytes()) {
            return Ok(None);
        }
        match read_part(alloc, value)? {
            Some(part) => {
                let name = Text::from_str(alloc, name.as_str())?;
                fields.push((name, part))?;
            }
            None => return Ok(None),
        }
    }
    Ok(Some(fields))
}

#[cycle(within)]
fn is_within(limit: u32, part: &Part) -> bool
    ensures { result ≡ nat_le (spec.nesting (part_view part.now)) limit }
{
    match part {
        Part::Array(items) => 0 < limit && all_within(limit - 1, items.as_slice()),
        Part::Record(fields) => 0 < limit && fields_within(limit - 1, fields.as_slice()),
        _ => true,
    }
}

/// Whether each of them nests at most `limit` deep.
#[cycle(within)]
fn all_within(limit: u32, parts: &[Part]) -> bool
    ensures { result ≡ nat_le (spec.parts_nesting (parts_of (part_views parts.now))) limit }
{
    for part in parts {
        if !is_within(limit, part) {
            return false;
        }
    }
    true
}

/// Whether each of them nests at most `limit` deep.
#[cycle(within)]
fn fields_within(limit: u32, fields: &[(Text, Part)]) -> bool
    ensures { result
        ≡ nat_le (spec.fields_nesting (field_parts_of (named_views fields.now))) limit }
{
    for (_, part) in fields {
        if !is_within(limit, part) {
            return false;
        }
    }
    true
}

/// The arguments, where the JSON is an array of data that nests at most 32 deep.
#[tactic(auto, unfolding(crate::specs::Arguments::arguments_in))]
pub fn read_arguments(alloc: Global, value: &Value) -> Result<Option<Vec<Part>>, AllocError>
    ensures { IfOk result (λ read. option_map (λ parts. parts_of (part_views parts.items)) read
        ≡ spec.arguments_in (view value.now)) }
{
    match value.as_array() {
        Some(items) => read_shallow(alloc, items),
        None => Ok(None),
    }
}

/// The parts of an array, where each nests at most 32 deep.
fn read_shallow(alloc: Global, items: &Vec<Value>) -> Result<Option<Vec<Part>>, AllocError>
    ensures { IfOk result (λ read. option_map (λ parts. parts_of (part_views parts.items)) read
        ≡ spec.shallow_parts (items_view items.now.items)) }
{
    match read_items(alloc, items)? {
        Some(parts) => Ok(if all_within(MOST_DEEP, parts.as_slice()) {
            Some(parts)
        } else {
            None
        }),
        None => Ok(None),
    }
}
