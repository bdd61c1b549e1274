//! Arguments by their places, and what an argument has to be. Each reader's one contract: what it reads, or
//! refuses, is as its definition says.

ghost use Rattle.std.specs.Prelude.{◌≡◌, ◌<◌, ◌≤◌, true, IfErr, IfOk, IfSome, length, option_map};
ghost use Rattle.refusals.specs.host_text.Words.{is_keyword};
ghost use Rattle.refusals.specs.host_data.Tree.{is_null, text_of};
ghost use Rattle.refusals.specs.host_data.View.{named_trees, tree, trees};
ghost use Rattle.refusals.specs.host_data.Amounts.{seen};
ghost use Rattle.refusals.specs.Outcomes.{Gives};
ghost use Rattle.call_arguments.specs.Arguments.{IsMade, IsRefusal, arg, filled_list_at, function_at, keyword_at, kind_at, kind_in, kind_named, list_at, number_at, number_in, object_at, object_in, place_of, record_at, text_at};

use refusals::amount_math_lib::Kind;
use refusals::codes::{NumberCode, TextCode};
use refusals::host_data_lib::data::{Data, ObjKind};
use refusals::host_text_lib::keyword::Keyword;
use refusals::host_text_lib::text::Text;
use refusals::stops::Stop;
use std::alloc::{AllocError, Global};

/// The argument at a place, from 1. One that is missing counts as null.
pub fn argument(args: &[Data], place: u32) -> Option<&Data>
    requires { 1 ≤ place }
    ensures { seen result ≡ arg place (trees args.now) }
{
    args.get(place as usize - 1)
}

/// Whether it is null, or missing.
pub fn is_missing(given: Option<&Data>) -> bool
    ensures { result ≡ is_null (seen given.entry) }
{
    match given {
        Some(given) => given.is_null(),
        None => true,
    }
}

/// A copy of an argument, null where it is missing.
pub fn copy_of(alloc: Global, given: Option<&Data>) -> Result<Data, AllocError>
    ensures { IfOk result (λ copy. tree copy ≡ seen given.entry) }
{
    match given {
        Some(given) => given.copy(alloc),
        None => Ok(Data::Null),
    }
}

// ---- objects

/// Where a kind stands among them all. Brands stand in one place, whatever their assets.
fn place_of(kind: ObjKind) -> u32
    ensures { result ≡ place_of kind }
{
    match kind {
        ObjKind::Ertp => 0,
        ObjKind::Zoe => 1,
        ObjKind::Timer => 2,
        ObjKind::Brand(_) => 3,
        ObjKind::Issuer => 4,
        ObjKind::Mint => 5,
        ObjKind::Purse => 6,
        ObjKind::Deposit => 7,
        ObjKind::Payment => 8,
        ObjKind::Installation => 9,
        ObjKind::Instance => 10,
        ObjKind::Zcf => 11,
        ObjKind::Seat => 12,
        ObjKind::Zseat => 13,
        ObjKind::Zmint => 14,
        ObjKind::Facet => 15,
        ObjKind::Promise => 16,
    }
}

/// The number of the object that data is, where it is one of the kind.
#[tactic(auto, unfolding(crate::specs::Arguments::object_in))]
pub fn object_in(kind: ObjKind, given: &Data) -> Option<u32>
    ensures { result ≡ object_in kind (tree given.now) }
{
    let object = given.object()?;
    if place_of(kind) == place_of(object.kind) {
        Some(object.number)
    } else {
        None
    }
}

/// The number of the object at a place, one of the kind, of which so many were made: else `WrongObject` with
/// the place.
#[tactic(auto, unfolding(crate::specs::Arguments::object_at, refusals::specs::Outcomes::wanted))]
pub fn object_at(kind: ObjKind, made: u32, place: u32, args: &[Data]) -> Result<u32, Stop>
    requires place { 1 ≤ place }
    requires known { IsMade kind made (arg place (trees args.now)) }
    ensures gives { Gives (λ number. number) result (object_at kind place (trees args.now)) }
    ensures told { IfErr result IsRefusal }
    ensures made { IfOk result (λ number. number < made) }
{
    match object_seen(kind, argument(args, place)) {
        Some(number) => {
            prove!(number < made);
            Ok(number)
        }
        None => Err(Stop::numbered(NumberCode::WrongObject, place)),
    }
}

/// The number of the object that is there, where it is one of the kind.
#[tactic(auto, unfolding(crate::specs::Arguments::object_in))]
fn object_seen(kind: ObjKind, given: Option<&Data>) -> Option<u32>
    ensures { result ≡ object_in kind (seen given.entry) }
{
    match given {
        Some(given) => object_in(kind, given),
        None => None,
    }
}

// ---- numbers and texts

/// The whole number that data is, where it lies from the least to the most.
#[tactic(auto, unfolding(crate::specs::Arguments::number_in))]
fn number_in(least: u64, most: u64, given: Option<&Data>) -> Option<u64>
    ensures is { result ≡ number_in least most (seen given.entry) }
    ensures least { IfSome result (λ number. least ≤ number) }
    ensures most { IfSome result (λ number. number ≤ most) }
{
    let number = given?.number()?;
    if number < i128::from(least) || i128::from(most) < number {
        return None;
    }
    Some(number as u64)
}

/// The whole number at a place, from the least to the most: else `BadArgs` with the place.
#[tactic(auto, unfolding(crate::specs::Arguments::number_at, refusals::specs::Outcomes::wanted))]
pub fn number_at(least: u64, most: u64, place: u32, args: &[Data]) -> Result<u64, Stop>
    requires { 1 ≤ place }
    ensures gives { Gives (λ number. number) result (number_at least most place (trees args.now)) }
    ensures told { IfErr result IsRefusal }
    ensures least { IfOk result (λ number. least ≤ number) }
    ensures most { IfOk result (λ number. number ≤ most) }
{
    match number_in(least, most, argument(args, place)) {
        Some(number) => Ok(number),
        None => Err(Stop::numbered(NumberCode::BadArgs, place)),
    }
}

/// The text at a place, of so many bytes at least and at most: else `BadArgs` with the place.
#[tactic(auto, unfolding(crate::specs::Arguments::text_at, crate::specs::Arguments::text_in, refusals::specs::Outcomes::wanted))]
pub fn text_at(least: usize, most: usize, place: u32, args: &[Data]) -> Result<&Text, Stop>
    requires { 1 ≤ place }
    ensures gives { Gives (λ text. text.now) result (text_at least most place (trees args.now)) }
    ensures told { IfErr result IsRefusal }
    ensures least { IfOk result (λ text. least ≤ length text.now) }
    ensures most { IfOk result (λ text. length text.now ≤ most) }
{
    let Some(given) = argument(args, place) else {
        return Err(Stop::numbered(NumberCode::BadArgs, place));
    };
    let Some(text) = given.text() else {
        return Err(Stop::numbered(NumberCode::BadArgs, place));
    };
    let long = text.len();
    if least <= long && long <= most {
        Ok(text)
    } else {
        Err(Stop::numbered(NumberCode::BadArgs, place))
    }
}

/// The name of the function at a place: else `BadArgs` with the place.
#[tactic(auto, unfolding(crate::specs::Arguments::function_at, refusals::specs::Outcomes::wanted))]
pub fn function_at(place: u32, args: &[Data]) -> Result<&Text, Stop>
    requires { 1 ≤ place }
    ensures gives { Gives (λ name. name.now) result (function_at place (trees args.now)) }
    ensures told { IfErr result IsRefusal }
{
    let Some(given) = argument(args, place) else {
        return Err(Stop::numbered(NumberCode::BadArgs, place));
    };
    match given.function() {
        Some(name) => Ok(name),
        None => Err(Stop::numbered(NumberCode::BadArgs, place)),
    }
}

// ---- arrays and records

/// The parts of the array at a place: else `BadArgs` with the place.
#[tactic(auto, unfolding(crate::specs::Arguments::list_at, refusals::specs::Outcomes::wanted))]
pub fn list_at(place: u32, args: &[Data]) -> Result<&[Data], Stop>
    requires { 1 ≤ place }
    ensures gives { Gives (λ items. trees items.now) result (list_at place (trees args.now)) }
    ensures told { IfErr result IsRefusal }
{
    let Some(given) = argument(args, place) else {
        return Err(Stop::numbered(NumberCode::BadArgs, place));
    };
    match given.items() {
        Some(items) => Ok(items),
        None => Err(Stop::numbered(NumberCode::BadArgs, place)),
    }
}

/// The fields of the record at a place, each with its name: else `BadArgs` with the place. Null is no record.
#[tactic(auto, unfolding(crate::specs::Arguments::record_at, refusals::specs::Outcomes::wanted))]
pub fn record_at(place: u32, args: &[Data]) -> Result<&[(Text, Data)], Stop>
    requires { 1 ≤ place }
    ensures gives { Gives (λ fields. named_trees fields.now) result (record_at place (trees args.now)) }
    ensures told { IfErr result IsRefusal }
{
    let Some(given) = argument(args, place) else {
        return Err(Stop::numbered(NumberCode::BadArgs, place));
    };
    match given.fields() {
        Some(fields) => Ok(fields),
        None => Err(Stop::numbered(NumberCode::BadArgs, place)),
    }
}

/// The parts of the array at a place, which has one at least: else `BadArgs` with the place (own).
#[tactic(auto, unfolding(crate::specs::Arguments::filled_list_at, refusals::specs::Outcomes::bind, refusals::specs::Outcomes::need))]
pub fn filled_list_at(place: u32, args: &[Data]) -> Result<&[Data], Stop>
    requires { 1 ≤ place }
    ensures gives { Gives (λ items. trees items.now) result (filled_list_at place (trees args.now)) }
    ensures told { IfErr result IsRefusal }
{
    let items = list_at(place, args)?;
    if items.is_empty() {
        Err(Stop::numbered(NumberCode::BadArgs, place))
    } else {
        Ok(items)
    }
}

// ---- kinds and keywords

/// The kind of a word (ERTP).
fn kind_named(word: &str) -> Option<Kind>
    ensures { result ≡ kind_named word.now }
{
    match word {
        "nat" => Some(Kind::Nat),
        "set" => Some(Kind::Set),
        "bag" => Some(Kind::Bag),
        _ => None,
    }
}

/// The kind that data names.
#[tactic(auto, unfolding(crate::specs::Arguments::kind_in))]
fn kind_in(given: Option<&Data>) -> Option<Kind>
    ensures { result ≡ kind_in (seen given.entry) }
{
    if is_missing(given) {
        return Some(Kind::Nat);
    }
    kind_named(given?.text()?.as_str())
}

/// The kind that is named at a place, `nat`, `set` or `bag`; null, or none there, is nat: else `BadArgs` with
/// the place (ERTP).
#[tactic(auto, unfolding(crate::specs::Arguments::kind_at, refusals::specs::Outcomes::wanted))]
pub fn kind_at(place: u32, args: &[Data]) -> Result<Kind, Stop>
    requires { 1 ≤ place }
    ensures gives { Gives (λ kind. kind) result (kind_at place (trees args.now)) }
    ensures told { IfErr result IsRefusal }
{
    match kind_in(argument(args, place)) {
        Some(kind) => Ok(kind),
        None => Err(Stop::numbered(NumberCode::BadArgs, place)),
    }
}

/// The text that data is, where it is one.
fn text_of(given: Option<&Data>) -> Option<&Text>
    ensures { option_map (λ text. text.now) result ≡ text_of (seen given.entry) }
{
    given?.text()
}

/// The keyword at a place: else `BadKeyword` with the text that is there, with the empty one where none is
/// (Zoe). What it shows takes memory.
#[tactic(auto, unfolding(crate::specs::Arguments::keyword_at, refusals::specs::Outcomes::bind, refusals::specs::Outcomes::need))]
pub fn keyword_at(alloc: Global, place: u32, args: &[Data]) -> Result<&Text, Stop>
    requires { 1 ≤ place }
    ensures gives { Gives (λ name. name.now) result (keyword_at place (trees args.now)) }
    ensures form { IfOk result (λ name. is_keyword name.now ≡ true) }
{
    let Some(text) = text_of(argument(args, place)) else {
        return Err(Stop::worded(alloc, TextCode::BadKeyword, ""));
    };
    if Keyword::is_keyword(text.as_str().as_bytes()) {
        Ok(text)
    } else {
        Err(Stop::worded(alloc, TextCode::BadKeyword, text.as_str()))
    }
}
