//! A row of a journal: what it says.

use serde_json::Value;
use turn_records::events::{Cause, How, Payout};
use turn_records::proposals_lib::offers::Exit;
use turn_rows::amount_math_lib::Key;
use turn_rows::host_text_lib::keyword::Keyword;
use turn_rows::rights_model_lib::{Holder, Sum};

/// What a row says.
#[derive(Drop)]
pub enum Row {
    /// The text is one of the second edition.
    Version,
    Turn(TurnRow),
    Event(EventRow),
    Sum(Sum),
    /// How many deliveries are left, and how many turns were run.
    Close(u64, u64),
}

/// What kinds of turns there are.
#[derive(Clone, Copy)]
pub enum Kind {
    Service,
    Facet,
    Handler,
    Wake,
    Notify,
    Deadline,
    Start,
    Tick,
    Give,
    Bad,
    Message,
}

/// What was answered, refused by a code with what is shown, thrown, or the meter that was spent.
#[derive(Drop)]
pub enum Answer {
    Given(Value),
    Refused(String, Vec<Value>),
    Threw(Value),
    Spent(u64),
}

/// A turn, as its row tells it.
#[derive(Drop)]
pub struct TurnRow {
    pub number: u64,
    pub kind: Kind,
    pub by: String,
    pub on: String,
    pub method: String,
    pub arguments: Vec<Value>,
    pub answer: Answer,
}

/// A contract's call of the host.
#[derive(Drop)]
pub struct CallRow {
    pub how: How,
    pub on: String,
    pub method: String,
    pub arguments: Vec<Value>,
    pub answer: Answer,
}

/// A key of a set, or a key of a bag with its count.
#[derive(Drop)]
pub enum Element {
    Key(Key),
    Counted(Key, u64),
}

/// A number, or the elements of a set or a bag; without an element it may be of either.
#[derive(Drop)]
pub enum PrintedValue {
    Number(u128),
    Elements(Vec<Element>),
}

/// An amount under its keyword.
#[derive(Drop)]
pub struct KeywordAmount {
    pub keyword: Keyword,
    pub brand: u16,
    pub value: PrintedValue,
}

/// A seat that is opened, with its number and that of its instance.
#[derive(Drop)]
pub struct OpenRow {
    pub seat: u32,
    pub instance: u32,
    pub give: Vec<KeywordAmount>,
    pub want: Vec<KeywordAmount>,
    pub exit: Exit,
}

#[derive(Drop)]
pub struct MoveRow {
    pub brand: u16,
    pub from: Holder,
    pub to: Holder,
    pub value: PrintedValue,
}

#[derive(Drop)]
pub struct ExitRow {
    pub seat: u32,
    pub cause: Cause,
    pub payouts: Vec<Payout>,
}

/// What a promise is settled with.
#[derive(Drop)]
pub enum Settlement {
    Fulfilled(Value),
    Broken(Value),
}

/// What happened in a turn.
#[derive(Drop)]
pub enum EventRow {
    Called(CallRow),
    Opened(OpenRow),
    Moved(MoveRow),
    Exited(ExitRow),
    /// A promise, by its number.
    Settled(u32, Settlement),
}
