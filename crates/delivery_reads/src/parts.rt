//! Arguments with what stands at their paths in their place, within so many parts in all.

ghost use Rattle.std.specs.Prelude.{◌≡◌, ◌+◌, ◌-◌, ◌++◌, ◌∷◌, [], IfOk, None, OnOk, Some, if◌then◌else◌, nat_le};
ghost use Rattle.delivery_turns.specs.Messages.{resolved, resolved_all, resolved_fields};
ghost use Rattle.host_data.specs.Tree.{fields_size, items_size, size};
ghost use Rattle.host_data.specs.View.{fields_of, items_of, named_trees, tree, trees};
ghost use Rattle.refusals.specs.Outcomes.{Gives};
ghost use Rattle.delivery_turns.specs.turn_records.Views.{field_parts_of, part_view, part_views, parts_of};
ghost use Rattle.delivery_reads.specs.Reads.{named_views, own_size, read_in};

use crate::paths::value_at;
use delivery_turns::actors_lib::Parties;
use delivery_turns::turn_records_lib::messages::Part;
use host_data::data::{Data, pay_bytes};
use refusals::host_text_lib::label::Label;
use refusals::host_text_lib::text::Text;
use refusals::stops::Stop;
use registers::promise_table::PromiseTable;
use std::alloc::{AllocError, Global};

/// Adds a field, last.
fn push_field(
    alloc: Global,
    fields: &mut Vec<(Text, Data)>,
    name: &Text,
    value: Data,
) -> Result<(), AllocError>
    ensures { OnOk result (fields.new.items ≡ fields.old.items ++ (name.now, value) ∷ []) }
{
    let name = name.copy(alloc)?;
    fields.push((name, value))?;
    Ok(())
}

/// What is left of so many parts behind those that a part counts itself, where there are enough.
fn pay_own(left: u64, part: &Part) -> Option<u64>
    ensures { result ≡ (if nat_le (own_size (part_view part.now)) left
        then Some (left - own_size (part_view part.now)) else None) }
{
    match part {
        Part::Text(text) => pay_bytes(left.checked_sub(1)?, text),
        Part::Path(_) => Some(left),
        _ => left.checked_sub(1),
    }
}

/// A part of a message with what stands at the party's paths in their place. The first path at which nothing stands is
/// refused. What is made is taken from the parts that are left before it is made: where there are too few, memory is
/// wanted.
#[cycle(resolve)]
pub(crate) fn resolve_part(
    alloc: Global,
    parties: &Parties,
    promises: &PromiseTable,
    party: &Label,
    part: &Part,
    left: &mut u64,
) -> Result<Data, Stop>
    ensures gives { Gives tree result (resolved
        (read_in parties.now promises.now) party.now (part_view part.now)) }
    ensures paid { IfOk result (λ made. left.old ≡ left.new + size (tree made)) }
{
    *left = pay_own(*left, part).ok_or(AllocError)?;
    match part {
        Part::Null => Ok(Data::Null),
        Part::Bool(truth) => Ok(Data::Bool(*truth)),
        Part::Number(number) => Ok(Data::Number(*number)),
        Part::Text(text) => Ok(Data::Text(text.copy(alloc)?)),
        Part::Array(parts) => Ok(Data::Array(resolve_parts(
            alloc,
            parties,
            promises,
            party,
            parts.as_slice(),
            left,
        )?)),
        Part::Record(fields) => Ok(Data::Record(resolve_fields(
            alloc,
            parties,
            promises,
            party,
            fields.as_slice(),
            left,
        )?)),
        Part::Path(path) => value_at(alloc, parties, promises, party, path, left),
    }
}

/// Each of them, in their order.
#[cycle(resolve)]
pub(crate) fn resolve_parts(
    alloc: Global,
    parties: &Parties,
    promises: &PromiseTable,
    party: &Label,
    parts: &[Part],
    left: &mut u64,
) -> Result<Vec<Data>, Stop>
    ensures gives { Gives (λ made. items_of (trees made.items)) result
        (resolved_all (read_in parties.now promises.now) party.now
        (parts_of (part_views parts.now))) }
    ensures paid { IfOk result (λ made. left.old
        ≡ left.new + items_size (items_of (trees made.items))) }
{
    let mut made = Vec::new(alloc);
    for part in parts {
        made.push(resolve_part(alloc, parties, promises, party, part, left)?)?;
    }
    Ok(made)
}

/// Each field, in their order.
#[cycle(resolve)]
fn resolve_fields(
    alloc: Global,
    parties: &Parties,
    promises: &PromiseTable,
    party: &Label,
    fields: &[(Text, Part)],
    left: &mut u64,
) -> Result<Vec<(Text, Data)>, Stop>
    ensures gives { Gives (λ made. fields_of (named_trees made.items)) result
        (resolved_fields (read_in parties.now promises.now) party.now
        (field_parts_of (named_views fields.now))) }
    ensures paid { IfOk result (λ made. left.old
        ≡ left.new + fields_size (fields_of (named_trees made.items))) }
{
    let mut made = Vec::new(alloc);
    for (name, part) in fields {
        *left = pay_bytes(*left, name).ok_or(AllocError)?;
        let data = resolve_part(alloc, parties, promises, party, part, left)?;
        push_field(alloc, &mut made, name, data)?;
    }
    Ok(made)
}
