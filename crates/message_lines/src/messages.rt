//! What a line of the input means: nothing, a number of deliveries that are run at once, or a
//! delivery, which is a refused line where the line is bad. Its one contract: a line is read as what
//! it means.
//!
//! A line is one JSON object. Which fields it has is told by its form, a table of them: `{"run":n}`,
//! `{"tick":t}`, a gift `{"by":party,"give":path,"to":party,"as":label}`, or a call
//! `{"by":party,"on":path,"do":method,"args":[..],"as":label}`, of which `args` and `as` may be left
//! out.

ghost use Rattle.std.specs.Prelude.{◌≡◌, IfOk, codes, option_map, true, Some};
ghost use Rattle.std.specs.Option.{option_map_or};
ghost use Rattle.turn_records.specs.host_text.Words.{is_label};
ghost use Rattle.serde_json.specs.Data.{Members};
ghost use Rattle.serde_json.specs.Find.{get_member};
ghost use Rattle.serde_json.specs.View.{members_view, view};
ghost use Rattle.turn_records.specs.Views.{delivery_view, line_call_view};
ghost use Rattle.turn_records.specs.Views.{part_views, parts_of};
ghost use Rattle.turn_records.specs.Deliveries as deliveries;
ghost use Rattle.turn_records.specs.Deliveries.{tick};
ghost use Rattle.turn_records.specs.Messages.{no_parts};
ghost use Rattle.message_lines.specs.Arguments.{arguments_in};
ghost use Rattle.message_lines.specs.FormTables.{form_view, line_view, passes_as};
ghost use Rattle.message_lines.specs.Meanings as spec;

use crate::arguments::{is_path, member, read_arguments};
use crate::lines::is_blank;
use serde_json::{Map, Value};
use std::alloc::{AllocError, Global};
use std::cmp::Ordering;
use turn_records::deliveries::Delivery;
use turn_records::host_text_lib::label::{Label, LabelFault};
use turn_records::host_text_lib::text::Text;
use turn_records::messages::{LineCall, LineGift, Part};
use turn_records::refusals_lib::codes::{BareCode, Refusal, TextCode};

/// What a line means.
#[derive(Drop)]
pub enum Line {
    /// Spaces, tabs and carriage returns alone.
    Blank,
    /// At most so many deliveries are run at once.
    Run(u32),
    /// Any other line, which waits for its turn.
    Delivered(Delivery),
}

/// When a field of a line is well typed.
#[derive(Clone, Copy)]
enum FieldType {
    /// A text.
    Text,
    /// A text, or the field isn't there.
    OptionalText,
    /// A path.
    Path,
    /// A whole number below 2^32.
    Count,
    /// A whole number below 2^63.
    Time,
    /// Whether it is well typed was found before.
    Found(bool),
}

/// A field of a form.
#[derive(Clone, Copy)]
struct FormField {
    name: &'static str,
    of: FieldType,
}

/// Times are below this.
const TIMES_END: u64 = 1 << 63;

/// The one field of a run line.
const RUN_FORM: [FormField; 1] = [FormField {
    name: "run",
    of: FieldType::Count,
}];

/// The one field of a line that sets the timer.
const TICK_FORM: [FormField; 1] = [FormField {
    name: "tick",
    of: FieldType::Time,
}];

/// The fields of a gift, by name in byte order.
const GIVE_FORM: [FormField; 4] = [
    FormField {
        name: "as",
        of: FieldType::Text,
    },
    FormField {
        name: "by",
        of: FieldType::Text,
    },
    FormField {
        name: "give",
        of: FieldType::Path,
    },
    FormField {
        name: "to",
        of: FieldType::Text,
    },
];

/// The fields of a call, by name in byte order, whose arguments are well typed or not.
fn call_form(are_data: bool) -> [FormField; 5]
    ensures { (ms : Members) → are_data ≡ spec.optional spec.is_data (get_member (codes "args") ms)
        → spec.bad_field (form_view result) ms ≡ spec.bad_field spec.call_form ms }
{
    [
        FormField {
            name: "args",
            of: FieldType::Found(are_data),
        },
        FormField {
            name: "as",
            of: FieldType::OptionalText,
        },
        FormField {
            name: "by",
            of: FieldType::Text,
        },
        FormField {
            name: "do",
            of: FieldType::Text,
        },
        FormField {
            name: "on",
            of: FieldType::Path,
        },
    ]
}

/// What the line means.
#[tactic(auto, unfolding(crate::specs::Meanings::meaning_of))]
pub fn read_line(alloc: Global, line: &[u8]) -> Result<Line, AllocError>
    ensures { IfOk result (λ read. line_view read ≡ spec.meaning_of line.now) }
{
    if is_blank(line) {
        return Ok(Line::Blank);
    }
    read_json(alloc, line)
}

/// What a line means that isn't blank.
fn read_json(alloc: Global, line: &[u8]) -> Result<Line, AllocError>
    ensures { IfOk result (λ read. line_view read ≡ spec.json_meaning (spec.json_of line.now)) }
{
    let value = match Value::from_slice(alloc, line) {
        Ok(value) => value,
        Err(error) => {
            return if error.is_memory() {
                Err(AllocError)
            } else {
                Ok(bad_line())
            };
        }
    };
    read_value(alloc, &value)
}

fn bad_line() -> Line
    ensures { line_view result ≡ spec.bad_line }
{
    Line::Delivered(Delivery::Bad(Refusal::Bare(BareCode::BadLine)))
}

fn read_value(alloc: Global, value: &Value) -> Result<Line, AllocError>
    ensures { IfOk result (λ read. line_view read ≡ spec.value_meaning (view value.now)) }
{
    match value.as_object() {
        Some(members) => read_members(alloc, members),
        None => Ok(bad_line()),
    }
}

/// The form of a line is that of the first of the fields run, tick, give and do that it has.
fn read_members(alloc: Global, members: &Map<String, Value>) -> Result<Line, AllocError>
    ensures { IfOk result (λ read. line_view read
        ≡ spec.members_meaning (members_view members.now.entries)) }
{
    if has(members, "run") {
        read_run(alloc, members)
    } else if has(members, "tick") {
        read_tick(alloc, members)
    } else if has(members, "give") {
        read_give(alloc, members)
    } else if has(members, "do") {
        read_call(alloc, members)
    } else {
        bad_field_line(alloc, "do")
    }
}

fn has(members: &Map<String, Value>, name: &str) -> bool
    ensures { result ≡ spec.has name.now (members_view members.now.entries) }
{
    member(members, name).is_some()
}

fn bad_field_line(alloc: Global, name: &str) -> Result<Line, AllocError>
    ensures { IfOk result (λ read. line_view read ≡ spec.bad_field_line name.now) }
{
    let name = Text::from_str(alloc, name)?;
    let refusal = Refusal::Worded(TextCode::BadField, name);
    Ok(Line::Delivered(Delivery::Bad(refusal)))
}

/// What a line with the field run means.
fn read_run(alloc: Global, members: &Map<String, Value>) -> Result<Line, AllocError>
    ensures { let ms = members_view members.now.entries in
        let given = spec.run (spec.run_of ms) in
        IfOk result (λ read. line_view read ≡ spec.by_form spec.run_form ms given) }
{
    match bad_field(&RUN_FORM, members) {
        Some(name) => bad_field_line(alloc, name),
        None => Ok(Line::Run(count_at(members, "run"))),
    }
}

/// What a line with the field tick means, where the field run isn't there.
fn read_tick(alloc: Global, members: &Map<String, Value>) -> Result<Line, AllocError>
    ensures { let ms = members_view members.now.entries in
        let given = spec.delivered (tick (spec.time_at (codes "tick") ms)) in
        IfOk result (λ read. line_view read ≡ spec.by_form spec.tick_form ms given) }
{
    match bad_field(&TICK_FORM, members) {
        Some(name) => bad_field_line(alloc, name),
        None => Ok(Line::Delivered(Delivery::Tick(time_at(members, "tick")))),
    }
}

/// What a line with the field give means, where the fields before it aren't there.
fn read_give(alloc: Global, members: &Map<String, Value>) -> Result<Line, AllocError>
    ensures { let ms = members_view members.now.entries in
        let given = spec.delivered (spec.gift_labelled (spec.gift_of ms)) in
        IfOk result (λ read. line_view read ≡ spec.by_form spec.give_form ms given) }
{
    match bad_field(&GIVE_FORM, members) {
        Some(name) => bad_field_line(alloc, name),
        None => Ok(Line::Delivered(gift_delivery(alloc, members)?)),
    }
}

/// What a line with the field do means, where the fields before it aren't there.
fn read_call(alloc: Global, members: &Map<String, Value>) -> Result<Line, AllocError>
    ensures { let ms = members_view members.now.entries in
        let called = spec.delivered (spec.call_labelled (spec.call_of ms)) in
        IfOk result (λ read. line_view read ≡ spec.by_form spec.call_form ms called) }
{
    let arguments = arguments_in(alloc, members)?;
    let form = call_form(arguments.is_some());
    match bad_field(&form, members) {
        Some(name) => bad_field_line(alloc, name),
        None => {
            let arguments = arguments.unwrap_or(Vec::new(alloc));
            Ok(Line::Delivered(call_delivery(alloc, members, arguments)?))
        }
    }
}

/// The arguments, none where the line has no such field, or `None` where they are ill typed.
fn arguments_in(
    alloc: Global,
    members: &Map<String, Value>,
) -> Result<Option<Vec<Part>>, AllocError>
    ensures { let given = get_member (codes "args") (members_view members.now.entries) in
        IfOk result (λ read. option_map (λ parts. parts_of (part_views parts.items)) read
        ≡ option_map_or arguments_in given (Some no_parts)) }
{
    match member(members, "args") {
        Some(value) => read_arguments(alloc, value),
        None => Ok(Some(Vec::new(alloc))),
    }
}

/// The least field that is missing, further or ill typed. The form has its fields in byte order.
fn bad_field<'a>(form: &[FormField], members: &'a Map<String, Value>) -> Option<&'a str>
    ensures { option_map (λ name. name.now) result
        ≡ spec.bad_field (form_view form.now) (members_view members.now.entries) }
{
    lesser(first_ill_typed(form, members), least_further(form, members))
}

/// The first field of the form that is missing or ill typed.
fn first_ill_typed(form: &[FormField], members: &Map<String, Value>) -> Option<&'static str>
    ensures { option_map (λ name. name.now) result
        ≡ spec.first_ill_typed (form_view form.now) (members_view members.now.entries) }
{
    for field in form {
        if !is_well_typed(field.of, member(members, field.name)) {
            return Some(field.name);
        }
    }
    None
}

/// Whether the field, where it is there, and its absence, where it isn't, are well typed.
fn is_well_typed(of: FieldType, value: Option<&Value>) -> bool
    ensures { result ≡ passes_as of (option_map (λ value. view value.now) value.entry) }
{
    match of {
        FieldType::Text => is_string(value),
        FieldType::OptionalText => value.is_none() || is_string(value),
        FieldType::Path => is_path_text(value),
        FieldType::Count => is_count(value),
        FieldType::Time => is_time(value),
        FieldType::Found(passes) => passes,
    }
}

fn is_string(value: Option<&Value>) -> bool
    ensures { result
        ≡ spec.needed spec.is_string (option_map (λ value. view value.now) value.entry) }
{
    match value {
        Some(value) => value.as_str().is_some(),
        None => false,
    }
}

fn is_path_text(value: Option<&Value>) -> bool
    ensures { result
        ≡ spec.needed spec.has_path (option_map (λ value. view value.now) value.entry) }
{
    match value {
        Some(value) => has_path(value),
        None => false,
    }
}

fn has_path(value: &Value) -> bool
    ensures { result ≡ spec.has_path (view value.now) }
{
    match value.as_str() {
        Some(text) => is_path(text.as_bytes()),
        None => false,
    }
}

fn is_count(value: Option<&Value>) -> bool
    ensures { result
        ≡ spec.needed spec.has_count (option_map (λ value. view value.now) value.entry) }
{
    match value {
        Some(value) => count_of(value).is_some(),
        None => false,
    }
}

/// The whole number below 2^32 that the value is.
fn count_of(value: &Value) -> Option<u32>
    ensures { result ≡ spec.count_of (view value.now) }
{
    match value.as_u64() {
        Some(count) => u32::try_from(count).ok(),
        None => None,
    }
}

fn is_time(value: Option<&Value>) -> bool
    ensures { result
        ≡ spec.needed spec.has_time (option_map (λ value. view value.now) value.entry) }
{
    match value {
        Some(value) => time_of(value).is_some(),
        None => false,
    }
}

/// The whole number below 2^63 that the value is.
fn time_of(value: &Value) -> Option<u64>
    ensures { result ≡ spec.time_of (view value.now) }
{
    match value.as_u64() {
        Some(time) if time < TIMES_END => Some(time),
        _ => None,
    }
}

/// The least field that the form hasn't. The members stand in byte order.
fn least_further<'a>(form: &[FormField], members: &'a Map<String, Value>) -> Option<&'a str>
    ensures { option_map (λ name. name.now) result
        ≡ spec.least_further (form_view form.now) (members_view members.now.entries) }
{
    for (name, _) in members.iter() {
        if !is_field_of(form, name.as_str()) {
            return Some(name.as_str());
        }
    }
    None
}

fn is_field_of(form: &[FormField], name: &str) -> bool
    ensures { result ≡ spec.is_field_of (form_view form.now) name.now }
{
    form.iter().any(|field| name == field.name)
}

/// The lesser of two names, in byte order.
fn lesser<'a>(a: Option<&'a str>, b: Option<&'a str>) -> Option<&'a str>
    ensures { option_map (λ name. name.now) result
        ≡ spec.lesser (option_map (λ name. name.now) a.entry)
        (option_map (λ name. name.now) b.entry) }
{
    match (a, b) {
        (None, b) => b,
        (Some(a), None) => Some(a),
        (Some(a), Some(b)) => match a.cmp(b) {
            Ordering::Greater => Some(b),
            _ => Some(a),
        },
    }
}

/// The number at the member of that name, or 0.
fn count_at(members: &Map<String, Value>, name: &str) -> u32
    ensures { result ≡ spec.count_at name.now (members_view members.now.entries) }
{
    match member(members, name) {
        Some(value) => count_of(value).unwrap_or(0),
        None => 0,
    }
}

/// The time at the member of that name, or 0.
fn time_at(members: &Map<String, Value>, name: &str) -> u64
    ensures { result ≡ spec.time_at name.now (members_view members.now.entries) }
{
    match member(members, name) {
        Some(value) => time_of(value).unwrap_or(0),
        None => 0,
    }
}

/// The text of the member of that name, or the empty text.
fn text_at<'a>(members: &'a Map<String, Value>, name: &str) -> &'a str
    ensures { result.now ≡ spec.text_at name.now (members_view members.now.entries) }
{
    label_at(members, name).unwrap_or("")
}

/// The text of the member of that name, where there is one.
fn label_at<'a>(members: &'a Map<String, Value>, name: &str) -> Option<&'a str>
    ensures { option_map (λ text. text.now) result
        ≡ spec.label_at name.now (members_view members.now.entries) }
{
    member(members, name)?.as_str()
}

/// The gift of members that are well typed, or the first text that is to be a label and isn't.
fn gift_delivery(alloc: Global, members: &Map<String, Value>) -> Result<Delivery, AllocError>
    ensures { let ms = members_view members.now.entries in
        IfOk result (λ read. delivery_view read ≡ spec.gift_labelled (spec.gift_of ms)) }
{
    let by = text_at(members, "by");
    if !is_party(by) {
        return bad_label(alloc, by);
    }
    let to = text_at(members, "to");
    if !is_party(to) {
        return bad_label(alloc, to);
    }
    let label = text_at(members, "as");
    if !is_label(label) {
        return bad_label(alloc, label);
    }
    Ok(Delivery::Give(LineGift {
        by: party_of(alloc, by)?,
        given: Text::from_str(alloc, text_at(members, "give"))?,
        to: party_of(alloc, to)?,
        label: label_of(alloc, label)?,
    }))
}

/// The call of members that are well typed, with its arguments, or the first text that is to be a
/// label and isn't: the party, then the label for the answer.
fn call_delivery(
    alloc: Global,
    members: &Map<String, Value>,
    arguments: Vec<Part>,
) -> Result<Delivery, AllocError>
    ensures { let ms = members_view members.now.entries in
        let given = spec.call_with (parts_of (part_views arguments.items)) ms in
        IfOk result (λ read. delivery_view read ≡ spec.call_labelled given) }
{
    let by = text_at(members, "by");
    if !is_party(by) {
        return bad_label(alloc, by);
    }
    match label_at(members, "as") {
        Some(label) => labelled_call(alloc, members, arguments, by, label),
        None => Ok(Delivery::Call(call_of(alloc, members, arguments, by, None)?)),
    }
}

/// The call of a party with a label for the answer, if it is one.
fn labelled_call(
    alloc: Global,
    members: &Map<String, Value>,
    arguments: Vec<Part>,
    by: &str,
    label: &str,
) -> Result<Delivery, AllocError>
    requires { spec.is_party by.now ≡ true }
    ensures { let ms = members_view members.now.entries in
        let given = spec.call_with (parts_of (part_views arguments.items)) ms in
        let call = record given { by = by.now; label = Some label.now } in
        let called = spec.with_label label.now (deliveries.call call) in
        IfOk result (λ read. delivery_view read ≡ called) }
{
    if !is_label(label) {
        return bad_label(alloc, label);
    }
    let label = label_of(alloc, label)?;
    Ok(Delivery::Call(call_of(alloc, members, arguments, by, Some(label))?))
}

/// The call of a party.
fn call_of(
    alloc: Global,
    members: &Map<String, Value>,
    arguments: Vec<Part>,
    by: &str,
    label: Option<Label>,
) -> Result<LineCall, AllocError>
    requires { spec.is_party by.now ≡ true }
    ensures { let ms = members_view members.now.entries in
        let given = spec.call_with (parts_of (part_views arguments.items)) ms in
        IfOk result (λ call. line_call_view call ≡ record given { by = by.now; label = label }) }
{
    Ok(LineCall {
        by: party_of(alloc, by)?,
        on: Text::from_str(alloc, text_at(members, "on"))?,
        method: Text::from_str(alloc, text_at(members, "do"))?,
        arguments,
        label,
    })
}

fn bad_label(alloc: Global, text: &str) -> Result<Delivery, AllocError>
    ensures { IfOk result (λ read. delivery_view read ≡ spec.bad_label_delivery text.now) }
{
    let text = Text::from_str(alloc, text)?;
    Ok(Delivery::Bad(Refusal::Worded(TextCode::BadLabel, text)))
}

fn is_label(text: &str) -> bool
    ensures { result ≡ is_label text.now }
{
    Label::is_label(text.as_bytes())
}

/// Whether the text is a label that a party may have. Those that begin with `instance` are the
/// host's own.
fn is_party(label: &str) -> bool
    ensures { result ≡ spec.is_party label.now }
{
    Label::is_label(label.as_bytes()) && !label.as_bytes().starts_with(b"instance")
}

/// The label that the text is.
fn label_of(alloc: Global, text: &str) -> Result<Label, AllocError>
    requires { is_label text.now ≡ true }
    ensures { IfOk result (λ label. label ≡ text.now) }
{
    match Label::read(alloc, text.as_bytes()) {
        Ok(label) => Ok(label),
        Err(LabelFault::NoMemory) => Err(AllocError),
        Err(LabelFault::BadLabel) => unreachable!(),
    }
}

/// The party's name that the text is.
fn party_of(alloc: Global, text: &str) -> Result<Label, AllocError>
    requires { spec.is_party text.now ≡ true }
    ensures { IfOk result (λ label. label ≡ text.now) }
{
    label_of(alloc, text)
}
