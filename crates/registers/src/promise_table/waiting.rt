//! Deliveries that wait in the queue.

ghost use Rattle.std.specs.Prelude.{◌≡◌, ◌++◌, ◌∷◌, [], OnErr, OnOk};

use std::alloc::AllocError;
use world_state::turn_records_lib::deliveries::Delivery;
use world_state::turn_stores_lib::turn_queue::TurnQueue;

/// Appends a delivery. For want of memory all is as before.
pub fn queue_delivery(queue: &mut TurnQueue<Delivery>, delivery: Delivery) -> Result<(), AllocError>
    ensures ok { OnOk result (queue.new.now ≡ queue.old.now ++ delivery ∷ []) }
    ensures start { queue.new.start ≡ queue.old.start }
    ensures err { OnErr result (queue.new ≡ queue.old) }
{
    queue.push(delivery)?;
    Ok(())
}
