//! What a text does with names, one use more each.
ghost use Rattle.std.specs.Prelude.{◌≡◌, OnOk};
ghost use Rattle.jessie_grammar.specs.Words.{also};

use jessie_grammar::jessie_lexer::token::Token;
use jessie_grammar::jessie_scopes::name_use::{Binding, NameUse};
use sqlite_items::Items;
use std::alloc::{AllocError, Global};

/// A name of the module is declared.
pub fn defines(
    alloc: Global,
    name: &Token,
    binding: Binding,
    name_uses: &mut Items<NameUse>,
) -> Result<(), AllocError>
    ensures { OnOk result
        (name_uses.new ≡ also name_uses.old (NameUse.Defines name.now.at name.now.text binding)) }
{
    let text = name.text.copy(alloc)?;
    name_uses.push(NameUse::Defines(name.at, text, binding))
}

/// Another name is declared.
pub fn declares(
    alloc: Global,
    name: &Token,
    name_uses: &mut Items<NameUse>,
) -> Result<(), AllocError>
    ensures { OnOk result
        (name_uses.new ≡ also name_uses.old (NameUse.Declares name.now.at name.now.text)) }
{
    let text = name.text.copy(alloc)?;
    name_uses.push(NameUse::Declares(name.at, text))
}

/// A declared name is known from here on.
pub fn binds(
    alloc: Global,
    name: &Token,
    binding: Binding,
    name_uses: &mut Items<NameUse>,
) -> Result<(), AllocError>
    ensures { OnOk result (name_uses.new ≡ also name_uses.old (NameUse.Binds name.now.text binding)) }
{
    let text = name.text.copy(alloc)?;
    name_uses.push(NameUse::Binds(text, binding))
}

/// A name is read.
pub fn uses(alloc: Global, name: &Token, name_uses: &mut Items<NameUse>) -> Result<(), AllocError>
    ensures { OnOk result (name_uses.new ≡ also name_uses.old (NameUse.Uses name.now.at name.now.text)) }
{
    let text = name.text.copy(alloc)?;
    name_uses.push(NameUse::Uses(name.at, text))
}

/// A function is called by its name.
pub fn calls(alloc: Global, name: &Token, name_uses: &mut Items<NameUse>) -> Result<(), AllocError>
    ensures { OnOk result (name_uses.new ≡ also name_uses.old (NameUse.Calls name.now.at name.now.text)) }
{
    let text = name.text.copy(alloc)?;
    name_uses.push(NameUse::Calls(name.at, text))
}

/// A name is assigned.
pub fn assigns(
    alloc: Global,
    name: &Token,
    name_uses: &mut Items<NameUse>,
) -> Result<(), AllocError>
    ensures { OnOk result (name_uses.new ≡ also name_uses.old (NameUse.Assigns name.now.at name.now.text)) }
{
    let text = name.text.copy(alloc)?;
    name_uses.push(NameUse::Assigns(name.at, text))
}

/// A field of a record with a value of its own.
pub fn fills(alloc: Global, name: &Token, name_uses: &mut Items<NameUse>) -> Result<(), AllocError>
    ensures { OnOk result (name_uses.new ≡ also name_uses.old (NameUse.Field name.now.at name.now.text)) }
{
    let text = name.text.copy(alloc)?;
    name_uses.push(NameUse::Field(name.at, text))
}

/// A field of a record that reads the name.
pub fn shortens(
    alloc: Global,
    name: &Token,
    name_uses: &mut Items<NameUse>,
) -> Result<(), AllocError>
    ensures { OnOk result
        (name_uses.new ≡ also name_uses.old (NameUse.Shorthand name.now.at name.now.text)) }
{
    let text = name.text.copy(alloc)?;
    name_uses.push(NameUse::Shorthand(name.at, text))
}
