//! Why a text is no module.
ghost use Rattle.std.specs.Prelude.{◌≡◌};
ghost use Rattle.jessie_grammar.specs.Texts.{kind_name};
ghost use Rattle.jessie_grammar.specs.declared.jessie_texts.refusal.ReadError.TheVariants.{NoMemory};

use std::alloc::AllocError;

/// What is wrong with a text.
#[derive(Clone, Copy)]
pub enum Refusal {
    /// No rule goes on with a token, or with the end.
    Syntax,
    /// A number over 2^127 - 1.
    Wide,
    /// A name over 64 bytes, or a text over 65,536.
    TooLong,
    /// The 33rd open bracket.
    TooDeep,
    /// The name of function 257, of parameter 9 or of state variable 65.
    TooMany,
    /// A reserved word as a name.
    Reserved,
    /// A name for the second time in one block, parameter list, record or the module.
    Duplicate,
    /// A name that is not known.
    Unknown,
    /// A name that is assigned and may not be.
    AssignConst,
    /// No function `start`.
    NoStart,
}

/// Why a text is refused, and at which byte. The kinds are this project's own.
#[derive(Clone, Copy)]
pub struct TextRefusal {
    pub place: usize,
    pub kind: Refusal,
}

impl TextRefusal {
    /// The kind's name, as a refusal shows it.
    pub fn kind_name(&self) -> &'static str
        ensures { result.now ≡ kind_name self.now.kind }
    {
        match self.kind {
            Refusal::Syntax => "Syntax",
            Refusal::Wide => "Wide",
            Refusal::TooLong => "TooLong",
            Refusal::TooDeep => "TooDeep",
            Refusal::TooMany => "TooMany",
            Refusal::Reserved => "Reserved",
            Refusal::Duplicate => "Duplicate",
            Refusal::Unknown => "Unknown",
            Refusal::AssignConst => "AssignConst",
            Refusal::NoStart => "NoStart",
        }
    }
}

/// Why no module was read.
#[derive(Drop)]
pub enum ReadError {
    NoMemory,
    Refused(TextRefusal),
}

impl From<AllocError> for ReadError {
    ghost from_gives = { λ _ e. e ≡ NoMemory };

    fn from(_e: AllocError) -> ReadError {
        ReadError::NoMemory
    }
}
