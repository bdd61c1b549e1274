//! Calls of the stores, where nobody wants back what they couldn't take.

ghost use Rattle.std.specs.Prelude.{◌≡◌, ◌<◌, ◌++◌, ◌∷◌, [], IfOk, IsTrue, OnErr, OnOk};
ghost use Rattle.world_state.specs.promise_store.Cascade.{Settles};
ghost use Rattle.world_state.specs.promise_store.States.{is_final, pending, settled, settlement_view};
ghost use Rattle.world_state.specs.promise_store.Turns.{AreSettledWith, state_at, with_request, with_settled};
ghost use Rattle.world_state.specs.promise_store.Views.{Becomes, links_now, now_of, promises_of};
ghost use Rattle.world_state.specs.turn_records.Logs.{log_of};
ghost use Rattle.world_state.specs.turn_records.Views.{event_view};

use std::alloc::AllocError;
use world_state::promise_store_lib::{Consequence, Promises, Settlement};
use world_state::turn_records_lib::deliveries::Notice;
use world_state::turn_records_lib::events;
use world_state::turn_records_lib::log::Log;

/// Adds an event, last. For want of memory all is as before.
pub fn log_event(log: &mut Log, event: events::Event) -> Result<(), AllocError>
    ensures ok { OnOk result (log_of log.new ≡ log_of log.old ++ event_view event ∷ []) }
    ensures err { OnErr result (log_of log.new ≡ log_of log.old) }
{
    log.push(event)?;
    Ok(())
}

/// Settles a promise, with all that follows it. For want of memory all is as before.
pub fn settle_promise(
    promises: &mut Promises<Notice>,
    promise: u32,
    settlement: Settlement,
) -> Result<Vec<Consequence>, AllocError>
    requires made { promise < (links_now promises.old).made }
    requires is_pending { state_at (now_of promises.old) promise ≡ pending }
    requires is_final { IsTrue (is_final (settlement_view settlement)) }
    ensures events { IfOk result (λ es. Settles (links_now promises.old) (promise ∷ []) es.items) }
    ensures ok { IfOk result (λ es. Becomes (with_settled es.items settlement) promises.old promises.new) }
    ensures settled { OnOk result
        (AreSettledWith (settled (settlement_view settlement)) promise (now_of promises.old) (now_of promises.new)) }
    ensures err { OnErr result (promises_of promises.new ≡ promises_of promises.old) }
{
    match promises.settle(promise, settlement) {
        Ok(events) => Ok(events),
        Err(back) => {
            drop(back);
            Err(AllocError)
        }
    }
}

/// One more request asks for a promise. For want of memory all is as before.
pub fn keep_request(
    promises: &mut Promises<Notice>,
    promise: u32,
    request: Notice,
) -> Result<(), AllocError>
    requires { promise < (links_now promises.old).made }
    ensures ok { OnOk result (Becomes (with_request promise request) promises.old promises.new) }
    ensures err { OnErr result (promises_of promises.new ≡ promises_of promises.old) }
{
    match promises.when(promise, request) {
        Ok(_) => Ok(()),
        Err(_) => Err(AllocError),
    }
}
