//! A turn, from what lies between turns to what lies there then.

ghost use Rattle.std.specs.Prelude.{◌<◌, Some, length};
ghost use Rattle.host_turns.specs.TurnEnds.{IsEnded};
ghost use Rattle.host_turns.specs.HostStates.{IsKept, world_kept};
ghost use Rattle.host_turns.specs.TurnSteps.{IsTurned};
ghost use Rattle.front_turns.specs.host_world.Worlds.{kept_state, world_now};
ghost use Rattle.host_turns.specs.Totals.{TurnOf};
ghost use Rattle.front_turns.specs.vault.Drafts.{HandGoes, IsClean};
ghost use Rattle.front_turns.specs.world_state.Rights.{most_turns};

use crate::turn_sums::tell_turn;
use front_turns::contract_powers_lib::planner::Planner;
use front_turns::host_world_lib::{Ledger, World};
use front_turns::turn_records_lib::turns::TurnRecord;
use front_turns::turns::{Delivered, deliver};
use std::alloc::Global;

/// A turn is told to the running totals and kept, with its record. For want of memory it is undone.
fn end_turn(
    alloc: Global,
    world: World,
    delivered: Delivered,
    number: u32,
) -> (Ledger, Option<TurnRecord>)
    requires clean { IsClean world.draft }
    requires goes { HandGoes world.draft }
    requires waits { 0 < length (world_now world).waiting }
    requires told { TurnOf world.sums (world_now world).log }
    ensures { IsEnded number world delivered result.0 result.1 }
{
    let mut world = world;
    let Ok(sums) = tell_turn(&mut world.sums, alloc, world.registers.log.events()) else {
        drop(delivered);
        return (world.undo(), None);
    };
    let Delivered { reading, answer } = delivered;
    let (kept, turn) = world.commit(alloc, number, reading, answer, sums);
    (kept, Some(turn))
}

/// The turn of the delivery in front, and what lies between turns after it. For want of memory no turn is
/// made, and that is as before.
fn turn_of<P: Planner>(
    alloc: Global,
    kept: Ledger,
    meter: u32,
    turns: u32,
) -> (Ledger, Option<TurnRecord>)
    requires kept { IsKept (record { meter = meter; world = Some kept; turns = turns }) }
    requires early { turns < most_turns }
    requires waits { 0 < length (kept_state kept).waiting }
    ensures { IsTurned meter turns (Some kept) (Some result.0) result.1 }
{
    let world = kept.begin();
    world.draft.valid();
    let (world, delivered) = deliver::<P>(alloc, world, meter);
    match delivered {
        Some(delivered) => end_turn(alloc, world, delivered, turns + 1),
        None => (world.undo(), None),
    }
}

/// The turn of the delivery in front. For want of memory none is made, and all is as before.
pub(crate) fn run_turn<P: Planner>(
    alloc: Global,
    world: &mut Option<Ledger>,
    meter: u32,
    turns: u32,
) -> Option<TurnRecord>
    requires kept { IsKept (record { meter = meter; world = world.old; turns = turns }) }
    requires early { turns < most_turns }
    requires waits { 0 < length (world_kept world.old).waiting }
    ensures { IsTurned meter turns world.old world.new result }
{
    let Some(kept) = world.take() else {
        unreachable!()
    };
    let (kept, turn) = turn_of::<P>(alloc, kept, meter, turns);
    drop(std::mem::replace(world, Some(kept)));
    turn
}
