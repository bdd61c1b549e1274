//! Messages, once their paths are resolved (eventual send).

ghost use Rattle.std.specs.Prelude.{◌≡◌, ◌≤◌, ◌^◌, IfOk, Some};
ghost use Rattle.delivery_turns.specs.actors.Paths.{stands};
ghost use Rattle.delivery_turns.specs.Messages.{addressed, gift_of, label_is_free, promise_states, sent_to};
ghost use Rattle.host_data.specs.Tree.{items_size, object_of, size};
ghost use Rattle.host_data.specs.View.{items_of, tree, trees};
ghost use Rattle.delivery_turns.specs.promise_store.Views.{state_view};
ghost use Rattle.refusals.specs.Outcomes.{Gives};
ghost use Rattle.delivery_turns.specs.turn_records.Views.{line_call_view, line_gift_view, send_view};
ghost use Rattle.delivery_reads.specs.Reads.{labels_in, object_met, object_of_promise, promises_in, read_in};
ghost use Rattle.delivery_reads.specs.MessageViews.{addressed_view};

use crate::parts::resolve_parts;
use crate::paths::{stands_at, value_at};
use delivery_turns::actors_lib::Parties;
use delivery_turns::actors_lib::paths::Stands;
use delivery_turns::promise_store_lib::{Settlement, State};
use delivery_turns::turn_records_lib::deliveries::Send;
use delivery_turns::turn_records_lib::messages::{LineCall, LineGift};
use host_data::data::{Data, Obj, ObjKind, all_within, copy_items};
use refusals::codes::{BareCode, NumberCode, TextCode};
use refusals::host_text_lib::label::Label;
use refusals::stops::Stop;
use registers::promise_table::PromiseTable;
use std::alloc::Global;

/// How deep the data that the host holds may nest (our own).
const MOST_NESTED: u32 = 32;

/// How many parts a line's arguments, or what it gives, may have with what stands at its paths: each value counts 1, and
/// so does each byte of a text or a name (our own).
const MOST_PARTS: u64 = 1 << 20;

/// An object with the arguments of a call.
#[derive(Drop)]
pub struct Addressed {
    pub target: Obj,
    pub arguments: Vec<Data>,
}

// ---- labels

/// That a label of a party isn't bound yet: else `NameTaken` with the label.
#[tactic(auto, unfolding(refusals::specs::Outcomes::need))]
fn check_label(alloc: Global, parties: &Parties, party: &Label, label: &Label) -> Result<(), Stop>
    ensures { Gives (λ _. tt) result
        (label_is_free (labels_in parties.now) party.now (Some label.now)) }
{
    if parties.is_bound(party, label) {
        return Err(Stop::worded(alloc, TextCode::NameTaken, label.as_str()));
    }
    Ok(())
}

/// That the label that is wanted for a call's answer isn't bound yet: else `NameTaken` with the label.
fn check_wanted(alloc: Global, parties: &Parties, call: &LineCall) -> Result<(), Stop>
    ensures { Gives (λ _. tt) result
        (label_is_free (labels_in parties.now) call.now.by call.now.label) }
{
    match &call.label {
        Some(label) => check_label(alloc, parties, &call.by, label),
        None => Ok(()),
    }
}

// ---- lines

/// The object that stands somewhere, where what stands there is one.
fn object_in(there: Stands<'_>) -> Option<Obj>
    ensures { result ≡ object_of (stands there.entry) }
{
    match there {
        Stands::Service(object) => Some(object),
        Stands::Data(data) => data.object(),
    }
}

/// The target and the arguments of a party's call (our own order): `NameTaken` with the label, then what is refused at
/// the path of the target and at those of the arguments, then `BadField` with `args` where they nest more than 32 deep,
/// then `WrongObject` with 0 where the target is no object. Past 2^20 parts memory is wanted.
#[tactic(auto, using(host_data::proofs::Views::listed_back), unfolding(delivery_turns::specs::Messages::addressed, refusals::specs::Outcomes::bind, refusals::specs::Outcomes::need, refusals::specs::Outcomes::wanted))]
pub fn addressed_call(
    alloc: Global,
    parties: &Parties,
    promises: &PromiseTable,
    call: &LineCall,
) -> Result<Addressed, Stop>
    ensures gives { Gives addressed_view result
        (addressed (read_in parties.now promises.now) (line_call_view call.now)) }
    ensures bounded { IfOk result (λ to. items_size (items_of (trees to.arguments.items)) ≤ 2 ^ 20) }
{
    check_wanted(alloc, parties, call)?;
    let on = stands_at(alloc, parties, promises, &call.by, &call.on)?;
    let mut left = MOST_PARTS;
    let arguments = resolve_parts(
        alloc,
        parties,
        promises,
        &call.by,
        call.arguments.as_slice(),
        &mut left,
    )?;
    if !all_within(MOST_NESTED, arguments.as_slice()) {
        return Err(Stop::worded(alloc, TextCode::BadField, "args"));
    }
    match object_in(on) {
        Some(target) => Ok(Addressed { target, arguments }),
        None => Err(Stop::numbered(NumberCode::WrongObject, 0)),
    }
}

/// What a party gives: `NameTaken` with the receiver's label, then what is refused at the path. Past 2^20 parts memory is
/// wanted.
#[tactic(auto, unfolding(delivery_turns::specs::Messages::gift_of, refusals::specs::Outcomes::bind))]
pub fn gift_of(
    alloc: Global,
    parties: &Parties,
    promises: &PromiseTable,
    gift: &LineGift,
) -> Result<Data, Stop>
    ensures gives { Gives tree result
        (gift_of (read_in parties.now promises.now) (line_gift_view gift.now)) }
    ensures bounded { IfOk result (λ given. size (tree given) ≤ 2 ^ 20) }
{
    check_label(alloc, parties, &gift.to, &gift.label)?;
    let mut left = MOST_PARTS;
    value_at(alloc, parties, promises, &gift.by, &gift.given, &mut left)
}

// ---- calls that were sent

/// What a promise is. One that wasn't made is pending.
#[tactic(auto, using(crate::proofs::PathStates::not_made, crate::proofs::PathStates::is_made))]
fn state_of(promises: &PromiseTable, promise: u32) -> State<'_>
    ensures { state_view result ≡ promise_states (promises_in promises.now) promise }
{
    if promises.made() <= promise {
        return State::Pending;
    }
    promises.state(promise)
}

/// The object that a promise was fulfilled with.
#[tactic(auto, unfolding(refusals::specs::Outcomes::bind, refusals::specs::Outcomes::wanted))]
fn fulfilled_with(promises: &PromiseTable, promise: u32) -> Result<Obj, Stop>
    ensures { Gives (λ object. object) result (object_of_promise (promises_in promises.now) promise) }
{
    match state_of(promises, promise) {
        State::Settled(Settlement::Ok(given)) => match given.object() {
            Some(object) => Ok(object),
            None => Err(Stop::numbered(NumberCode::WrongObject, 0)),
        },
        State::Settled(Settlement::Broken(_)) => Err(Stop::numbered(NumberCode::Broken, promise)),
        State::Pending => Err(Stop::bare(BareCode::Pending)),
        State::Follows(_) => Err(Stop::bare(BareCode::Pending)),
    }
}

/// An object, or the one that the promise that it is was fulfilled with.
#[tactic(auto, unfolding(refusals::specs::Outcomes::bind, refusals::specs::Outcomes::wanted))]
fn object_met(promises: &PromiseTable, target: Obj) -> Result<Obj, Stop>
    ensures { Gives (λ object. object) result (object_met (promises_in promises.now) target) }
{
    match target.kind {
        ObjKind::Promise => fulfilled_with(promises, target.number),
        _ => Ok(target),
    }
}

/// The target of a call that was sent, with its arguments: a promise is followed to the object that it was fulfilled
/// with. Else `Pending`, `Broken` with the promise, or `WrongObject` with 0.
#[tactic(auto, using(crate::proofs::SentCalls::sent_by), unfolding(refusals::specs::Outcomes::bind))]
pub fn sent_to(alloc: Global, promises: &PromiseTable, send: &Send) -> Result<Addressed, Stop>
    ensures { Gives addressed_view result (sent_to (promises_in promises.now) (send_view send.now)) }
{
    let target = object_met(promises, send.target)?;
    let arguments = copy_items(alloc, send.arguments.as_slice())?;
    Ok(Addressed { target, arguments })
}
