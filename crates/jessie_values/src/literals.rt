//! The data that a text writes: a literal, and what a state variable holds at first.

ghost use Rattle.std.specs.Prelude.{◌≡◌, IfOk, map};
ghost use Rattle.host_data.specs.View.{named_trees, tree, trees};
ghost use Rattle.jessie_values.specs.Literals.{constant_tree, literal_tree};

use crate::records::in_order;
use host_data::data::Data;
use host_data::host_text_lib::text::Text;
use jessie_grammar::syntax::{Constant, Literal};
use std::alloc::{AllocError, Global};

/// The data that a literal stands for.
pub fn literal_data(alloc: Global, literal: &Literal) -> Result<Data, AllocError>
    ensures { IfOk result (λ made. tree made ≡ literal_tree literal.now) }
{
    match literal {
        Literal::Number(number) => Ok(Data::Number(*number)),
        Literal::Text(text) => Ok(Data::Text(text.copy(alloc)?)),
        Literal::Bool(truth) => Ok(Data::Bool(*truth)),
        Literal::Null => Ok(Data::Null),
    }
}

/// The data that a state variable holds at first. It goes down as deep as the constant nests.
#[cycle(constant)]
pub fn constant_data(alloc: Global, constant: &Constant) -> Result<Data, AllocError>
    ensures { IfOk result (λ made. tree made ≡ constant_tree constant.now) }
{
    match constant {
        Constant::Literal(literal) => literal_data(alloc, literal),
        Constant::Array(constants) => Ok(Data::Array(items_data(alloc, constants.as_slice())?)),
        Constant::Record(constants) => {
            let fields = fields_data(alloc, constants.as_slice())?;
            Ok(Data::Record(in_order(alloc, fields)?))
        }
    }
}

/// The parts of an array.
#[cycle(constant)]
fn items_data(alloc: Global, constants: &[Constant]) -> Result<Vec<Data>, AllocError>
    ensures { IfOk result (λ items. trees items.items ≡ map constant_tree constants.now) }
{
    let mut items = Vec::new(alloc);
    for constant in constants {
        items.push(constant_data(alloc, constant)?)?;
    }
    Ok(items)
}

/// The fields of a record, as the text writes them.
#[cycle(constant)]
fn fields_data(
    alloc: Global,
    constants: &[(Text, Constant)],
) -> Result<Vec<(Text, Data)>, AllocError>
    ensures { IfOk result (λ fields. named_trees fields.items
        ≡ map (λ c. (c.0, constant_tree c.1)) constants.now) }
{
    let mut fields = Vec::new(alloc);
    for (name, constant) in constants {
        let name = name.copy(alloc)?;
        fields.push((name, constant_data(alloc, constant)?))?;
    }
    Ok(fields)
}
