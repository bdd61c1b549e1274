//! Constants made of their parts.
ghost use Rattle.std.specs.Prelude.{◌≡◌, [], ◌∷◌, ◌++◌, IfOk, OnOk};

use jessie_grammar::host_text_lib::text::Text;
use jessie_grammar::jessie_lexer::token::Token;
use jessie_grammar::syntax::{Constant, Literal};
use sqlite_items::{Boxed, Items};
use std::alloc::{AllocError, Global};

pub fn literal_constant(alloc: Global, literal: Literal) -> Result<Boxed<Constant>, AllocError>
    ensures { IfOk result (λ tree. tree ≡ Constant.Literal literal) }
{
    Boxed::new(alloc, Constant::Literal(literal))
}

pub fn array_constant(alloc: Global, items: Items<Constant>) -> Result<Boxed<Constant>, AllocError>
    ensures { IfOk result (λ tree. tree ≡ Constant.Array items) }
{
    Boxed::new(alloc, Constant::Array(items))
}

pub fn record_constant(
    alloc: Global,
    fields: Items<(Text, Constant)>,
) -> Result<Boxed<Constant>, AllocError>
    ensures { IfOk result (λ tree. tree ≡ Constant.Record fields) }
{
    Boxed::new(alloc, Constant::Record(fields))
}

/// One constant more of a list.
pub fn add_constant(item: Boxed<Constant>, found: &mut Items<Constant>) -> Result<(), AllocError>
    ensures { OnOk result (found.new ≡ found.old ++ item ∷ []) }
{
    found.push(item.into_inner())
}

/// One field more of a record.
pub fn add_constant_field(
    alloc: Global,
    name: &Token,
    value: Boxed<Constant>,
    found: &mut Items<(Text, Constant)>,
) -> Result<(), AllocError>
    ensures { OnOk result (found.new ≡ found.old ++ (name.now.text, value) ∷ []) }
{
    let name = name.text.copy(alloc)?;
    found.push((name, value.into_inner()))
}
