//! Why a step of an evaluation is bad, and the data that shows it.

ghost use Rattle.std.specs.Prelude.{◌≡◌, ◌++◌, ◌∷◌, [], IfOk, OnOk};
ghost use Rattle.host_data.specs.Tree.{array, item, no_items, text};
ghost use Rattle.host_data.specs.View.{named_trees, tree};
ghost use Rattle.jessie_values.specs.Reasons.{bad_step, reason_text};
ghost use Rattle.jessie_values.specs.declared.reasons.ValueFault.TheVariants.{BadStep, NoMemory};

use host_data::data::Data;
use host_data::host_text_lib::text::Text;
use std::alloc::{AllocError, AllocFailed, Global};

/// Why a step of an evaluation is bad.
#[derive(Clone, Copy, PartialEq, Eq)]
pub enum Reason {
    /// A part of the wrong kind: `type`.
    WrongKind,
    /// A number beyond 128 signed bits: `range`.
    OutOfRange,
    /// A division by 0: `zero`.
    DivisionByZero,
    /// A field, or a place of an array, that isn't there: `field`.
    NoField,
    /// A call too deep within others: `depth`.
    TooDeep,
    /// A text over 65,536 bytes, or an array or a record that nests over 32 deep: `size`.
    TooLarge,
}

impl Reason {
    /// The word that a bad step shows.
    pub fn word(self) -> &'static str
        ensures { result.now ≡ reason_text self }
    {
        match self {
            Reason::WrongKind => "type",
            Reason::OutOfRange => "range",
            Reason::DivisionByZero => "zero",
            Reason::NoField => "field",
            Reason::TooDeep => "depth",
            Reason::TooLarge => "size",
        }
    }

    /// What is thrown: the record `{code, shown}`.
    pub fn data(self, alloc: Global) -> Result<Data, AllocError>
        ensures { IfOk result (λ made. tree made ≡ bad_step self) }
    {
        let mut fields = Vec::new(alloc);
        put(alloc, &mut fields, "code", text_data(alloc, "BadStep")?)?;
        put(alloc, &mut fields, "shown", one_text(alloc, self.word())?)?;
        Ok(Data::Record(fields))
    }
}

fn text_data(alloc: Global, shown: &str) -> Result<Data, AllocError>
    ensures { IfOk result (λ made. tree made ≡ text shown.now) }
{
    Ok(Data::Text(Text::from_str(alloc, shown)?))
}

/// An array of one text.
fn one_text(alloc: Global, shown: &str) -> Result<Data, AllocError>
    ensures { IfOk result (λ made. tree made ≡ array (item (text shown.now) no_items)) }
{
    let mut made = Vec::new(alloc);
    made.push(text_data(alloc, shown)?)?;
    Ok(Data::Array(made))
}

/// Puts a field at the end of a record that is being made.
fn put(
    alloc: Global,
    fields: &mut Vec<(Text, Data)>,
    name: &str,
    value: Data,
) -> Result<(), AllocError>
    ensures { OnOk result (named_trees fields.new.items
        ≡ named_trees fields.old.items ++ (name.now, tree value) ∷ []) }
{
    let name = Text::from_str(alloc, name)?;
    fields.push((name, value))?;
    Ok(())
}

/// Why a function that takes memory gives no value.
#[derive(Clone, Copy, PartialEq, Eq)]
pub enum ValueFault {
    NoMemory,
    BadStep(Reason),
}

impl From<AllocError> for ValueFault {
    ghost from_gives = { λ _ e. e ≡ NoMemory };

    fn from(_error: AllocError) -> ValueFault {
        ValueFault::NoMemory
    }
}

impl<T: Drop> From<AllocFailed<T>> for ValueFault {
    ghost from_gives = { λ _ e. e ≡ NoMemory };

    fn from(_error: AllocFailed<T>) -> ValueFault {
        ValueFault::NoMemory
    }
}

impl From<Reason> for ValueFault {
    ghost from_gives = { λ reason e. e ≡ BadStep reason };

    fn from(reason: Reason) -> ValueFault {
        ValueFault::BadStep(reason)
    }
}
