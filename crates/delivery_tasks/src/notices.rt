//! What a promise was settled with, as the function that is notified has it.

ghost use Rattle.std.specs.Prelude.{◌≡◌, ◌<◌, ◌++◌, ◌∷◌, [], IfOk, OnOk, codes};
ghost use Rattle.delivery_turns.specs.Tasks.{settlement_of};
ghost use Rattle.world_reads.specs.host_world.Worlds.{world_of};
ghost use Rattle.host_data.specs.Tree.{boolean, field, fields, no_fields};
ghost use Rattle.host_data.specs.View.{named_trees, tree};
ghost use Rattle.delivery_turns.specs.promise_store.States.{settlement_view};
ghost use Rattle.delivery_turns.specs.turn_records.Printed.{notice_tree, told_value};
ghost use Rattle.delivery_turns.specs.world_state.Worlds.{promises_made};

use delivery_turns::promise_store_lib::{Settlement, State};
use host_data::data::Data;
use refusals::host_text_lib::text::Text;
use std::alloc::{AllocError, Global};
use world_reads::host_world_lib::World;
use world_reads::record_data::put;

/// How deep data may nest inside a record of the most depth (our own).
const MOST_INSIDE: u32 = 31;

/// A copy of data, or null where the record around it would nest too deep.
fn told_value(alloc: Global, value: &Data) -> Result<Data, AllocError>
    ensures { IfOk result (λ told. tree told ≡ told_value (tree value.now)) }
{
    if value.nests_within(MOST_INSIDE) {
        value.copy(alloc)
    } else {
        Ok(Data::Null)
    }
}

/// Adds what is told of a value, last.
fn put_value(alloc: Global, fields: &mut Vec<(Text, Data)>, value: &Data) -> Result<(), AllocError>
    ensures { OnOk result (named_trees fields.new.items
        ≡ named_trees fields.old.items ++ (codes "value", told_value (tree value.now)) ∷ []) }
{
    let value = told_value(alloc, value)?;
    put(alloc, fields, "value", value)
}

/// The record `{ok, value}`.
fn ok_record(alloc: Global, is_ok: bool, value: &Data) -> Result<Data, AllocError>
    ensures { IfOk result (λ told. tree told ≡ fields (field (codes "ok") (boolean is_ok)
        (field (codes "value") (told_value (tree value.now)) no_fields))) }
{
    let mut fields = Vec::new(alloc);
    put(alloc, &mut fields, "ok", Data::Bool(is_ok))?;
    put_value(alloc, &mut fields, value)?;
    Ok(Data::Record(fields))
}

/// `{ok, value}`: what a promise was settled with.
pub fn notice_data(alloc: Global, settlement: &Settlement) -> Result<Data, AllocError>
    ensures { IfOk result (λ told. tree told ≡ notice_tree (settlement_view settlement.now)) }
{
    match settlement {
        Settlement::Ok(value) => ok_record(alloc, true, value),
        Settlement::Broken(reason) => ok_record(alloc, false, reason),
    }
}

fn copy_settlement(alloc: Global, settlement: &Settlement) -> Result<Settlement, AllocError>
    ensures { IfOk result (λ copy. settlement_view copy ≡ settlement_view settlement.now) }
{
    match settlement {
        Settlement::Ok(value) => Ok(Settlement::Ok(value.copy(alloc)?)),
        Settlement::Broken(reason) => Ok(Settlement::Broken(reason.copy(alloc)?)),
    }
}

/// A copy of what a promise was settled with. One that isn't settled counts as broken with null.
#[tactic(auto, using(crate::proofs::Settlements::settlement_is))]
pub fn settlement_of(alloc: Global, world: &World, promise: u32) -> Result<Settlement, AllocError>
    requires { promise < promises_made (world_of world.now) }
    ensures { IfOk result (λ copy. settlement_view copy
        ≡ settlement_of (world_of world.now) promise) }
{
    match world.registers.promises.state(promise) {
        State::Settled(settlement) => copy_settlement(alloc, settlement),
        State::Pending => Ok(Settlement::Broken(Data::Null)),
        State::Follows(_) => Ok(Settlement::Broken(Data::Null)),
    }
}
