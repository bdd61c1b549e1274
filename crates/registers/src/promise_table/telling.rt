//! What comes of settling promises is told: settlements in the log, requests that are answered in the queue.

ghost use Rattle.std.specs.Prelude.{◌≡◌, ◌∷◌, [], OnOk, length};
ghost use Rattle.world_state.specs.promise_store.States.{settlement_view};
ghost use Rattle.world_state.specs.promise_store.Views.{now_of};
ghost use Rattle.world_state.specs.turn_records.Logs.{log_of};
ghost use Rattle.registers.specs.Books.{AreRequestsIn, queued, recorded};
ghost use Rattle.registers.specs.PromiseTables.{notice_views, waiting_of};

use crate::promise_table::calls::log_event;
use crate::promise_table::copies::{copy_notice, copy_settlement};
use crate::promise_table::waiting::queue_delivery;
use std::alloc::{AllocError, Global};
use world_state::promise_store_lib::{Consequence, Promises, Settlement};
use world_state::turn_records_lib::deliveries::{Delivery, Notice};
use world_state::turn_records_lib::events;
use world_state::turn_records_lib::log::Log;
use world_state::turn_stores_lib::turn_queue::TurnQueue;

/// Tells all of it, in order.
pub fn tell_all(
    alloc: Global,
    promises: &Promises<Notice>,
    happened: &[Consequence],
    settlement: &Settlement,
    queue: &mut TurnQueue<Delivery>,
    log: &mut Log,
) -> Result<(), AllocError>
    requires { AreRequestsIn (length (now_of promises.now).entries) happened.now }
    ensures queued { OnOk result (waiting_of queue.new.now
        ≡ queued (notice_views (now_of promises.now).entries) happened.now (waiting_of queue.old.now)) }
    ensures recorded { OnOk result (log_of log.new
        ≡ recorded (settlement_view settlement.now) happened.now (log_of log.old)) }
    ensures start { queue.new.start ≡ queue.old.start }
{
    for event in happened {
        tell(alloc, promises, *event, settlement, queue, log)?;
    }
    Ok(())
}

/// Tells one event of it.
fn tell(
    alloc: Global,
    promises: &Promises<Notice>,
    event: Consequence,
    settlement: &Settlement,
    queue: &mut TurnQueue<Delivery>,
    log: &mut Log,
) -> Result<(), AllocError>
    requires { AreRequestsIn (length (now_of promises.now).entries) (event ∷ []) }
    ensures queued { OnOk result (waiting_of queue.new.now
        ≡ queued (notice_views (now_of promises.now).entries) (event ∷ []) (waiting_of queue.old.now)) }
    ensures recorded { OnOk result (log_of log.new
        ≡ recorded (settlement_view settlement.now) (event ∷ []) (log_of log.old)) }
    ensures start { queue.new.start ≡ queue.old.start }
{
    match event {
        Consequence::Settled(promise) => {
            let copy = copy_settlement(alloc, settlement)?;
            log_event(log, events::Event::Settled(promise, copy))
        }
        Consequence::Notified { request, .. } => {
            let copy = copy_notice(alloc, promises.entry(request))?;
            queue_delivery(queue, Delivery::Notify(copy))
        }
    }
}
