//! The seats that transfers name.

ghost use Rattle.std.specs.Prelude.{◌≡◌, ◌++◌, ◌∷◌, [], IfOk, OnOk, filter, flat_map, map, not};
ghost use Rattle.host_data.specs.Amounts.{seen};
ghost use Rattle.host_data.specs.Tree.{is_null};
ghost use Rattle.host_data.specs.declared.data.ObjKind.TheVariants as kinds;
ghost use Rattle.call_arguments.specs.Lists.{objects_in};
ghost use Rattle.refusals.specs.Outcomes.{Gives};
ghost use Rattle.rules.specs.Rearranging.{seat_trees};
ghost use Rattle.share_transfers.specs.Views.{given_trees, parts_views, tree_at};

use crate::parts::GivenParts;
use call_arguments::places::object_in;
use host_data::data::{Data, ObjKind};
use refusals::codes::NumberCode;
use refusals::stops::Stop;
use std::alloc::{AllocError, Global};

/// Puts a part behind others, unless it is null or missing.
fn add_part<'a>(all: &mut Vec<&'a Data>, part: Option<&'a Data>) -> Result<(), AllocError>
    ensures { OnOk result (map tree_at all.new.items
        ≡ map tree_at all.old.items ++ given_trees (seen part.entry ∷ [])) }
{
    if let Some(part) = part {
        if !part.is_null() {
            all.push(part)?;
        }
    }
    Ok(())
}

/// The seats of transfers as they are given, each that gives before the one that gets.
fn seat_parts<'a>(alloc: Global, list: &[GivenParts<'a>]) -> Result<Vec<&'a Data>, AllocError>
    ensures { IfOk result (λ all. map tree_at all.items ≡ seat_trees (parts_views list.now)) }
{
    let mut all = Vec::new(alloc);
    for parts in list {
        add_part(&mut all, parts.from)?;
        add_part(&mut all, parts.to)?;
    }
    Ok(all)
}

/// The numbers of ZCF seats: else `WrongObject` 1.
#[tactic(auto, unfolding(call_arguments::specs::Lists::objects_in, refusals::specs::Outcomes::wanted))]
fn numbers(alloc: Global, parts: &[&Data]) -> Result<Vec<u32>, Stop>
    ensures { Gives (λ numbers. numbers.items) result
        (objects_in kinds.Zseat 1 (map tree_at parts.now)) }
{
    let mut numbers = Vec::new(alloc);
    for part in parts {
        let Some(number) = object_in(ObjKind::Zseat, part) else {
            return Err(Stop::numbered(NumberCode::WrongObject, 1));
        };
        numbers.push(number)?;
    }
    Ok(numbers)
}

/// The seats that transfers name, each that gives before the one that gets: else `WrongObject` 1 (Zoe).
pub fn seats_named(alloc: Global, list: &[GivenParts]) -> Result<Vec<u32>, Stop>
    ensures { Gives (λ seats. seats.items) result
        (objects_in kinds.Zseat 1 (seat_trees (parts_views list.now))) }
{
    let parts = seat_parts(alloc, list)?;
    numbers(alloc, parts.as_slice())
}
