//! What the lines of parties ask for, before the paths in them are resolved.

use turn_rows::host_text_lib::label::Label;
use turn_rows::host_text_lib::text::Text;

/// An argument as a line writes it, or a part of one. A record has its fields in byte order of their
/// names, each name once.
pub enum Part {
    Null,
    Bool(bool),
    Number(i128),
    Text(Text),
    Array(Vec<Part>),
    Record(Vec<(Text, Part)>),
    /// What stands at a path when the message is delivered.
    Path(Text),
}

impl Drop for Part {
    fn drop(self) {
        match self {
            Part::Null => {}
            Part::Bool(_) => {}
            Part::Number(_) => {}
            Part::Text(_) => {}
            Part::Array(_) => {}
            Part::Record(_) => {}
            Part::Path(_) => {}
        }
    }
}

/// A call that a party asks for.
pub struct LineCall {
    /// The party, by its name.
    pub by: Label,
    /// The path of the target.
    pub on: Text,
    /// What is asked of the target, any text.
    pub method: Text,
    /// In their order.
    pub arguments: Vec<Part>,
    /// The label under which the party wants the answer.
    pub label: Option<Label>,
}

impl Drop for LineCall {
    fn drop(self) {
        let LineCall {
            by: _,
            on: _,
            method: _,
            arguments: _,
            label: _,
        } = self;
    }
}

/// What a party gives to another.
pub struct LineGift {
    /// The giver, by its name.
    pub by: Label,
    /// The path of what is given.
    pub given: Text,
    /// The receiver, by its name.
    pub to: Label,
    /// The receiver's label for it.
    pub label: Label,
}

impl Drop for LineGift {
    fn drop(self) {
        let LineGift {
            by: _,
            given: _,
            to: _,
            label: _,
        } = self;
    }
}
