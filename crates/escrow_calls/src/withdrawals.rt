//! What goes from a seat's slots to new payments.

ghost use Rattle.std.specs.Prelude.{◌≡◌, ◌<◌, ◌≤◌, ◌+◌, [], ◌∷◌, IfOk, length};
ghost use Rattle.ertp_calls.specs.call_outcomes.Lists.{IsEachShaped, effects_view};
ghost use Rattle.ertp_calls.specs.call_outcomes.CallOutcomes.{GivesOutcome, outcome_view};
ghost use Rattle.rules.specs.States.{changing};
ghost use Rattle.contract_reads.specs.Known.{AreKnown};
ghost use Rattle.rules.specs.ertp_mint.Stocks.{most_made};
ghost use Rattle.escrow_calls.specs.EscrowParts.{withdrawal_outcome, withdrawal_of_shares};
ghost use Rattle.escrow_calls.specs.SlotChanges.{IsOfSeat};
ghost use Rattle.ertp_calls.specs.host_world.Worlds.{world_of};
ghost use Rattle.host_data.specs.View.{trees};
ghost use Rattle.rules.specs.Zcf.{withdraw_from_seat};
ghost use Rattle.rules.specs.world_state.Good.{IsGoodWorld};
ghost use Rattle.rules.specs.world_state.Worlds.{payments_tree, payout_moves};

use crate::payouts::{payments_data, payout_moves};
use crate::slot_changes::slot_change;
use contract_reads::seat_changes::counts::{check_room, slots_after};
use contract_reads::seat_changes::effects::change_effects;
use contract_reads::seat_changes::safety::check_safe;
use ertp_calls::call_outcomes_lib::lists::Effects;
use ertp_calls::call_outcomes_lib::outcomes::CallOutcome;
use ertp_calls::draft_reads_lib::payment_reads::payments_made;
use ertp_calls::host_world_lib::World;
use host_data::data::Data;
use refusals::stops::Stop;
use rules::proposals_lib::allocations::Share;
use rules::rearrange_lib::slot_checks::check_losses;
use std::alloc::{AllocError, Global};

/// What shares say goes from their slots to new payments, of which the first has the number.
#[tactic(auto, using(crate::proofs::Transfers::payouts_apart))]
fn paying(alloc: Global, seat: u32, first: u32, shares: &[Share]) -> Result<Effects, AllocError>
    requires { first + length shares.now ≤ most_made }
    ensures effects { IfOk result (λ es.
        effects_view es ≡ changing (seat ∷ []) (payout_moves seat first shares.now)) }
    ensures shaped { IfOk result (λ es. IsEachShaped es) }
{
    let moves = payout_moves(alloc, seat, first, shares)?;
    change_effects(alloc, seat, moves)
}

/// The same, which answers the payments.
fn paying_out(
    alloc: Global,
    seat: u32,
    first: u32,
    shares: &[Share],
) -> Result<CallOutcome, AllocError>
    requires { first + length shares.now ≤ most_made }
    ensures plan { IfOk result (λ plan. outcome_view plan
        ≡ (payments_tree first shares.now, changing (seat ∷ []) (payout_moves seat first shares.now))) }
    ensures shaped { IfOk result (λ plan. IsEachShaped plan.effects) }
{
    let effects = paying(alloc, seat, first, shares)?;
    let answer = payments_data(alloc, first, shares)?;
    Ok(CallOutcome { answer, effects })
}

/// What is left of a withdrawal once the seat and the shares are read: that the shares can be taken from their slots,
/// that the seat's offer stays safe, and that there is room: else `NotEnough`, `NotOfferSafe`, then `Limit` (Zoe).
#[tactic(auto, unfolding(crate::specs::EscrowParts::withdrawal_of_shares, refusals::specs::Outcomes::bind))]
fn withdraw(
    alloc: Global,
    world: &World,
    seat: u32,
    slots: &[Share],
    shares: &[Share],
) -> Result<CallOutcome, Stop>
    requires good { IsGoodWorld (world_of world.now) }
    requires seat { IsOfSeat (world_of world.now) seat slots.now shares.now }
    ensures { GivesOutcome (withdrawal_of_shares (world_of world.now) seat slots.now shares.now) result }
{
    check_losses(slots, shares)?;
    check_safe(alloc, world, seat, slots, shares)?;
    check_room(world, slots.len(), slots_after(slots, shares), shares.len())?;
    Ok(paying_out(alloc, seat, payments_made(&world.draft), shares)?)
}

/// zcf.withdrawFromSeat(seat, amounts) (Zoe).
#[tactic(auto, using(crate::proofs::Steps::withdrawn_same), unfolding(crate::specs::EscrowParts::withdrawal_outcome, refusals::specs::Outcomes::bind))]
pub fn withdraw_from_seat(
    alloc: Global,
    world: &World,
    instance: u32,
    args: &[Data],
) -> Result<CallOutcome, Stop>
    requires good { IsGoodWorld (world_of world.now) }
    requires hosted { instance < length (world_of world.now).tables.instances }
    requires known { AreKnown (world_of world.now) (trees args.now) }
    ensures { GivesOutcome (withdraw_from_seat (world_of world.now) instance (trees args.now)) result }
{
    let change = slot_change(alloc, world, instance, args)?;
    withdraw(
        alloc,
        world,
        change.seat,
        change.slots.shares(),
        change.shares.as_slice(),
    )
}
