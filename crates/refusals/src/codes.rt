//! The codes. They are the ones of this host (our own), named after what ERTP and Zoe refuse. They go by what
//! they show: nothing, a number, a text, or what is their own.

ghost use Rattle.std.specs.Prelude.{◌≡◌};
ghost use Rattle.refusals.specs.Codes.{bare_name, code_of, number_name, text_name};

use host_data::amount_math_lib::shortfall::Shortfall;
use host_data::amount_math_lib::{Key, Value};
use host_data::host_text_lib::text::Text;

/// The codes of refusals that show nothing.
#[derive(Clone, Copy)]
pub enum BareCode {
    /// The line is no JSON object.
    BadLine,
    /// A promise that is to be settled isn't yet, or what is asked of isn't done.
    Pending,
    /// What stays at home was to leave its instance.
    LocalOnly,
    /// The data isn't a value of the brand's kind.
    BadValue,
    /// The data is no exit rule.
    BadExit,
    /// Fewer than two seats are listed.
    OneSeat,
}

/// The codes of refusals that show a number, with what it is.
#[derive(Clone, Copy)]
pub enum NumberCode {
    /// The number of a promise that was broken.
    Broken,
    /// The place of what isn't an object of the kind that is wanted there, 0 for the target of a call.
    WrongObject,
    /// The place of an ill-formed argument.
    BadArgs,
    /// The number of the brand that was given.
    WrongBrand,
    /// The number of a payment that was spent.
    DeadPayment,
    /// The number of the payment that is named twice.
    RepeatedPayment,
    /// The number of a payment that is no invitation.
    NotInvitation,
    /// The number of an instance that has halted, or takes no offers.
    Closed,
    /// The number of a seat that can't be left on demand.
    NotOnDemand,
    /// The number of a seat that has exited.
    SeatExited,
    /// The number of a seat that would not be offer safe.
    NotOfferSafe,
    /// The number of a seat that is listed twice.
    RepeatedSeat,
    /// The number of a seat that has staging, and isn't listed.
    StagedLeftOut,
    /// The number of a seat of another instance.
    WrongInstance,
    /// The number of a promise that would follow itself.
    PromiseCycle,
    /// The limit that would be passed.
    Limit,
    /// The meter that was used up.
    Spent,
}

/// The codes of refusals that show a text, with what it is.
#[derive(Clone, Copy)]
pub enum TextCode {
    /// The least field that is missing, further or ill typed.
    BadField,
    /// The text that has not the form of a label.
    BadLabel,
    /// The text that has not the form of a keyword.
    BadKeyword,
    /// A path of which the label or a step isn't there.
    UnknownName,
    /// The label, which is bound already.
    NameTaken,
    /// The method, which the target hasn't.
    NoMethod,
    /// The least keyword that stands where it can't, or doesn't where it must.
    KeywordMismatch,
    /// The keyword, which stands in the issuer record already.
    KeywordTaken,
    /// The reason why a step of an evaluation is bad.
    BadStep,
}

/// What a payment has, and another value that is named for it.
pub struct Mismatch {
    pub held: Value,
    pub named: Value,
}

impl Drop for Mismatch {
    fn drop(self) {
        let Mismatch { held: _, named: _ } = self;
    }
}

/// An element of a brand of which seats would not have as many after a change as before. The element of
/// a brand of whole numbers is the empty text.
pub struct Unkept {
    pub brand: u16,
    pub element: Key,
    pub before: i128,
    pub after: i128,
}

impl Drop for Unkept {
    fn drop(self) {
        let Unkept {
            brand: _,
            element: _,
            before: _,
            after: _,
        } = self;
    }
}

/// Why a line or a call is refused.
pub enum Refusal {
    /// It shows nothing.
    Bare(BareCode),
    /// It shows the number that the code says.
    Numbered(NumberCode, u32),
    /// It shows the text that the code says.
    Worded(TextCode, Text),
    /// The least key that two sets have in common.
    Overlap(Key),
    /// The value that is held, and the greater one that is asked for.
    NotEnough(Shortfall),
    /// What the sum would have, and the bound that it passes.
    TooMuch(i128, i128),
    /// The value that a payment has, and another that is named for it.
    WrongAmount(Mismatch),
    /// What a change would not keep: the element of a brand, and how many there are before and after.
    NotConserved(Unkept),
    /// The time of now, and the earlier one that was given.
    Backwards(u64, u64),
    /// Where a contract's text is refused, and the name of the reason.
    TextRefused(u32, Text),
}

impl Drop for Refusal {
    fn drop(self) {
        match self {
            Refusal::Bare(_) => {}
            Refusal::Numbered(_, _) => {}
            Refusal::Worded(_, _) => {}
            Refusal::Overlap(_) => {}
            Refusal::NotEnough(_) => {}
            Refusal::TooMuch(_, _) => {}
            Refusal::WrongAmount(_) => {}
            Refusal::NotConserved(_) => {}
            Refusal::Backwards(_, _) => {}
            Refusal::TextRefused(_, _) => {}
        }
    }
}

impl BareCode {
    /// The name of the code.
    pub fn name(self) -> &'static str
        ensures { result.now ≡ bare_name self }
    {
        match self {
            BareCode::BadLine => "BadLine",
            BareCode::Pending => "Pending",
            BareCode::LocalOnly => "LocalOnly",
            BareCode::BadValue => "BadValue",
            BareCode::BadExit => "BadExit",
            BareCode::OneSeat => "OneSeat",
        }
    }
}

impl NumberCode {
    /// The name of the code.
    pub fn name(self) -> &'static str
        ensures { result.now ≡ number_name self }
    {
        match self {
            NumberCode::Broken => "Broken",
            NumberCode::WrongObject => "WrongObject",
            NumberCode::BadArgs => "BadArgs",
            NumberCode::WrongBrand => "WrongBrand",
            NumberCode::DeadPayment => "DeadPayment",
            NumberCode::RepeatedPayment => "RepeatedPayment",
            NumberCode::NotInvitation => "NotInvitation",
            NumberCode::Closed => "Closed",
            NumberCode::NotOnDemand => "NotOnDemand",
            NumberCode::SeatExited => "SeatExited",
            NumberCode::NotOfferSafe => "NotOfferSafe",
            NumberCode::RepeatedSeat => "RepeatedSeat",
            NumberCode::StagedLeftOut => "StagedLeftOut",
            NumberCode::WrongInstance => "WrongInstance",
            NumberCode::PromiseCycle => "PromiseCycle",
            NumberCode::Limit => "Limit",
            NumberCode::Spent => "Spent",
        }
    }
}

impl TextCode {
    /// The name of the code.
    pub fn name(self) -> &'static str
        ensures { result.now ≡ text_name self }
    {
        match self {
            TextCode::BadField => "BadField",
            TextCode::BadLabel => "BadLabel",
            TextCode::BadKeyword => "BadKeyword",
            TextCode::UnknownName => "UnknownName",
            TextCode::NameTaken => "NameTaken",
            TextCode::NoMethod => "NoMethod",
            TextCode::KeywordMismatch => "KeywordMismatch",
            TextCode::KeywordTaken => "KeywordTaken",
            TextCode::BadStep => "BadStep",
        }
    }
}

impl Refusal {
    /// The name of its code.
    pub fn code(&self) -> &'static str
        ensures { result.now ≡ code_of self.now }
    {
        match self {
            Refusal::Bare(code) => code.name(),
            Refusal::Numbered(code, _) => code.name(),
            Refusal::Worded(code, _) => code.name(),
            Refusal::Overlap(_) => "Overlap",
            Refusal::NotEnough(_) => "NotEnough",
            Refusal::TooMuch(_, _) => "TooMuch",
            Refusal::WrongAmount(_) => "WrongAmount",
            Refusal::NotConserved(_) => "NotConserved",
            Refusal::Backwards(_, _) => "Backwards",
            Refusal::TextRefused(_, _) => "TextRefused",
        }
    }
}
