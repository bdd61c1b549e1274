//! What stands at a path of a party's (eventual send; the form of paths is our own).

ghost use Rattle.std.specs.Prelude.{◌≡◌, ◌+◌, ◌-◌, IfOk, None, Some, if◌then◌else◌, nat_le};
ghost use Rattle.delivery_turns.specs.actors.Paths.{stands};
ghost use Rattle.delivery_turns.specs.Messages.{path_refusal, value_at};
ghost use Rattle.host_data.specs.Tree.{size};
ghost use Rattle.host_data.specs.View.{tree};
ghost use Rattle.refusals.specs.Outcomes.{Gives, Refuses};
ghost use Rattle.delivery_reads.specs.Reads.{read_in};

use delivery_turns::actors_lib::Parties;
use delivery_turns::actors_lib::paths::{ResolveFault, Stands};
use host_data::data::{Data, pay};
use refusals::codes::{BareCode, NumberCode, TextCode};
use refusals::host_text_lib::label::Label;
use refusals::host_text_lib::text::Text;
use refusals::stops::Stop;
use registers::promise_table::PromiseTable;
use std::alloc::{AllocError, Global};

/// Why nothing stands at a path, as the refusal that shows it. The path takes memory.
fn refuse_path(alloc: Global, path: &Text, fault: ResolveFault) -> Stop
    ensures { Refuses result (path_refusal path.now fault) }
{
    match fault {
        ResolveFault::UnknownName => Stop::worded(alloc, TextCode::UnknownName, path.as_str()),
        ResolveFault::Pending => Stop::bare(BareCode::Pending),
        ResolveFault::Broken(promise) => Stop::numbered(NumberCode::Broken, promise),
    }
}

/// What stands at a path of a party's, where it lies.
pub(crate) fn stands_at<'a>(
    alloc: Global,
    parties: &'a Parties,
    promises: &'a PromiseTable,
    party: &Label,
    path: &Text,
) -> Result<Stands<'a>, Stop>
    ensures { Gives stands result (value_at
        (read_in parties.now promises.now) party.now path.now) }
{
    let store = promises.promises();
    match parties.resolve(party, path, store) {
        Ok(there) => Ok(there),
        Err(fault) => Err(refuse_path(alloc, path, fault)),
    }
}

/// What is left of so many parts behind those of what stands somewhere, where there are enough.
fn pay_there(left: u64, there: Stands<'_>) -> Option<u64>
    ensures { result ≡ (if nat_le (size (stands there.entry)) left
        then Some (left - size (stands there.entry)) else None) }
{
    match there {
        Stands::Service(_) => left.checked_sub(1),
        Stands::Data(data) => pay(left, data),
    }
}

/// A copy of what stands at a path of a party's: each promise that is met, the last too, is followed to what it was
/// fulfilled with. Else `UnknownName` with the path, `Pending`, or `Broken` with the promise. Before the copy is made its
/// parts are taken from those that are left: where there are too few, memory is wanted.
pub(crate) fn value_at(
    alloc: Global,
    parties: &Parties,
    promises: &PromiseTable,
    party: &Label,
    path: &Text,
    left: &mut u64,
) -> Result<Data, Stop>
    ensures gives { Gives tree result (value_at
        (read_in parties.now promises.now) party.now path.now) }
    ensures paid { IfOk result (λ copy. left.old ≡ left.new + size (tree copy)) }
{
    let there = stands_at(alloc, parties, promises, party, path)?;
    *left = pay_there(*left, there).ok_or(AllocError)?;
    Ok(there.copy(alloc)?)
}
