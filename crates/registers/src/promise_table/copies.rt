//! Copies of what is held for a function, and of what a promise was settled with.

ghost use Rattle.std.specs.Prelude.{◌≡◌, IfOk};
ghost use Rattle.world_state.specs.promise_store.States.{settlement_view};
ghost use Rattle.world_state.specs.turn_records.Views.{notice_view};

use std::alloc::{AllocError, Global};
use world_state::promise_store_lib::Settlement;
use world_state::turn_records_lib::deliveries::Notice;

/// A copy of a settlement.
pub fn copy_settlement(alloc: Global, settlement: &Settlement) -> Result<Settlement, AllocError>
    ensures { IfOk result (λ copy. settlement_view copy ≡ settlement_view settlement.now) }
{
    match settlement {
        Settlement::Ok(data) => Ok(Settlement::Ok(data.copy(alloc)?)),
        Settlement::Broken(data) => Ok(Settlement::Broken(data.copy(alloc)?)),
    }
}

/// A copy of a request.
pub fn copy_notice(alloc: Global, notice: &Notice) -> Result<Notice, AllocError>
    ensures { IfOk result (λ copy. notice_view copy ≡ notice_view notice.now) }
{
    let function = notice.function.copy(alloc)?;
    let held = notice.held.copy(alloc)?;
    Ok(Notice {
        instance: notice.instance,
        promise: notice.promise,
        function,
        held,
        answer: notice.answer,
    })
}
