//! The record that the promise of a start is settled with.

ghost use Rattle.std.specs.Prelude.{◌≡◌, ◌++◌, ◌∷◌, [], IfOk, OnOk};
ghost use Rattle.refusals.specs.host_data.View.{named_trees, tree};
ghost use Rattle.turn_records.specs.Settlements.{part, start_record};

use refusals::host_data_lib::data::{Data, Obj, ObjKind};
use std::alloc::{AllocError, Global};
use turn_rows::host_text_lib::text::Text;

/// A part of what a start answers; what is missing is null.
fn part_of(alloc: Global, answer: &Data, name: &str) -> Result<Data, AllocError>
    ensures { IfOk result (λ found. tree found ≡ part name.now (tree answer.now)) }
{
    match answer.field(name) {
        Some(found) => found.copy(alloc),
        None => Ok(Data::Null),
    }
}

/// Adds a field after the others.
fn add_field(
    alloc: Global,
    fields: &mut Vec<(Text, Data)>,
    name: &str,
    value: Data,
) -> Result<(), AllocError>
    ensures { OnOk result (named_trees fields.new.items
        ≡ named_trees fields.old.items ++ (name.now, tree value) ∷ []) }
{
    let name = Text::from_str(alloc, name)?;
    fields.push((name, value))?;
    Ok(())
}

/// Adds a part of what a start answers after the other fields.
fn add_part(
    alloc: Global,
    fields: &mut Vec<(Text, Data)>,
    name: &str,
    answer: &Data,
) -> Result<(), AllocError>
    ensures { OnOk result (named_trees fields.new.items
        ≡ named_trees fields.old.items ++ (name.now, part name.now (tree answer.now)) ∷ []) }
{
    let found = part_of(alloc, answer, name)?;
    add_field(alloc, fields, name, found)
}

/// The record that the promise of an instance's start is settled with, of what the start answered (Zoe's
/// startInstance): creatorFacet, creatorInvitation, instance and publicFacet, in this order. The instance is
/// the instance's object; the other three are the answer's fields of these names, or null where it has none
/// or is no record.
pub fn start_record(alloc: Global, instance: u32, answer: &Data) -> Result<Data, AllocError>
    ensures { IfOk result (λ made. tree made ≡ start_record instance (tree answer.now)) }
{
    let mut fields = Vec::new(alloc);
    add_part(alloc, &mut fields, "creatorFacet", answer)?;
    add_part(alloc, &mut fields, "creatorInvitation", answer)?;
    let started = Obj {
        kind: ObjKind::Instance,
        number: instance,
    };
    add_field(alloc, &mut fields, "instance", Data::Object(started))?;
    add_part(alloc, &mut fields, "publicFacet", answer)?;
    Ok(Data::Record(fields))
}
