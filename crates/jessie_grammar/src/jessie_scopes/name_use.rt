//! What a text does with names, one use after another.
use host_text::text::Text;

/// What a name stands for.
#[derive(Clone, Copy)]
pub enum Binding {
    /// A value that stays: of a `const`, or the name of a `for`.
    Constant,
    /// A value that may be assigned: of a `let`, a parameter, the name of a `catch`, a state variable.
    Variable,
    /// A function of the module.
    Function,
}

/// What a text does with names, in its order. A place is that of the name's first byte.
pub enum NameUse {
    /// A block, a parameter list, a record, or what a `for` or a `catch` names, begins.
    Opens,
    /// The last one that began ends.
    Closes,
    /// A name of the module is declared. It is known everywhere.
    Defines(usize, Text, Binding),
    /// Another name is declared: it may not be reserved, nor stand there already.
    Declares(usize, Text),
    /// A declared name is known from here on, up to the end of what it stands in.
    Binds(Text, Binding),
    /// A name is read.
    Uses(usize, Text),
    /// A function is called by its name.
    Calls(usize, Text),
    /// A name is assigned.
    Assigns(usize, Text),
    /// A field of a record with a value of its own.
    Field(usize, Text),
    /// A field of a record that reads the name.
    Shorthand(usize, Text),
}

impl Drop for NameUse {
    fn drop(self) {
        match self {
            NameUse::Opens => {}
            NameUse::Closes => {}
            NameUse::Defines(_, _, _) => {}
            NameUse::Declares(_, _) => {}
            NameUse::Binds(_, _) => {}
            NameUse::Uses(_, _) => {}
            NameUse::Calls(_, _) => {}
            NameUse::Assigns(_, _) => {}
            NameUse::Field(_, _) => {}
            NameUse::Shorthand(_, _) => {}
        }
    }
}

/// What is wrong with a name.
#[derive(Clone, Copy)]
pub enum NameFault {
    /// A reserved word as a name.
    Reserved,
    /// A name for the second time in one block, parameter list, record or the module.
    Duplicate,
    /// A name that is not known.
    Unknown,
    /// A name that is assigned and may not be.
    AssignConst,
}
