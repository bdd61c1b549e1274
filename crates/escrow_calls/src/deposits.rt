//! What goes from payments to a seat's slots.

ghost use Rattle.std.specs.Prelude.{◌≡◌, ◌<◌, [], ◌∷◌, IfOk, length};
ghost use Rattle.ertp_calls.specs.call_outcomes.Lists.{IsEachShaped};
ghost use Rattle.ertp_calls.specs.call_outcomes.CallOutcomes.{GivesOutcome, outcome_view};
ghost use Rattle.rules.specs.call_arguments.Numbers.{AreApart};
ghost use Rattle.contract_reads.specs.Known.{AreKnown};
ghost use Rattle.rules.specs.States.{changing};
ghost use Rattle.escrow_calls.specs.EscrowParts.{deposit_of_shares, deposit_outcome};
ghost use Rattle.ertp_calls.specs.host_world.Worlds.{world_of};
ghost use Rattle.host_data.specs.Tree.{null};
ghost use Rattle.host_data.specs.View.{trees};
ghost use Rattle.contract_reads.specs.Calls.{AreOfKinds, FitSlots};
ghost use Rattle.rules.specs.GivenPayments.{escrows_of};
ghost use Rattle.rules.specs.Zcf.{deposit_to_seat};
ghost use Rattle.rules.specs.world_state.Good.{IsGoodWorld};

use crate::payments::{escrows_of, given_payments};
use crate::slot_changes::slot_change;
use contract_reads::seat_changes::counts::{check_room, slots_after};
use contract_reads::seat_changes::effects::change_effects;
use ertp_calls::call_outcomes_lib::outcomes::CallOutcome;
use ertp_calls::host_world_lib::World;
use host_data::data::Data;
use refusals::stops::Stop;
use rules::proposals_lib::allocations::Share;
use rules::rearrange_lib::slot_checks::check_fit;
use std::alloc::{AllocError, Global};

/// Payments go to the slots of shares.
#[tactic(auto, using(crate::proofs::Transfers::escrows_apart))]
fn escrowing(
    alloc: Global,
    seat: u32,
    shares: &[Share],
    payments: &[u32],
) -> Result<CallOutcome, AllocError>
    requires { AreApart payments.now }
    ensures plan { IfOk result (λ plan. outcome_view plan
        ≡ (null, changing (seat ∷ []) (escrows_of seat shares.now payments.now))) }
    ensures shaped { IfOk result (λ plan. IsEachShaped plan.effects) }
{
    let escrows = escrows_of(alloc, seat, shares, payments)?;
    let effects = change_effects(alloc, seat, escrows)?;
    Ok(CallOutcome {
        answer: Data::Null,
        effects,
    })
}

/// What is left of a deposit once the seat and the shares are read: the payments at the third place, that the shares
/// can be added to their slots, and that these leave room: else `BadArgs` 3, `KeywordMismatch`, `WrongObject` 3,
/// `DeadPayment`, `RepeatedPayment`, `WrongAmount`, each over all payments before the next; then `Overlap`, `TooMuch`
/// of each share with its slot, then `Limit` (Zoe).
#[tactic(auto, unfolding(crate::specs::EscrowParts::deposit_of_shares, refusals::specs::Outcomes::bind))]
fn deposit(
    alloc: Global,
    world: &World,
    seat: u32,
    slots: &[Share],
    shares: &[Share],
    args: &[Data],
) -> Result<CallOutcome, Stop>
    requires good { IsGoodWorld (world_of world.now) }
    requires known { AreKnown (world_of world.now) (trees args.now) }
    requires fit { FitSlots slots.now shares.now }
    requires kinds { AreOfKinds (world_of world.now) shares.now }
    ensures { GivesOutcome
        (deposit_of_shares (world_of world.now) seat slots.now shares.now (trees args.now)) result }
{
    let payments = given_payments(alloc, world, shares, args)?;
    check_fit(slots, shares)?;
    check_room(world, slots.len(), slots_after(slots, shares), 0)?;
    Ok(escrowing(alloc, seat, shares, payments.as_slice())?)
}

/// zcf.depositToSeat(seat, amounts, payments) (Zoe).
#[tactic(auto, using(crate::proofs::Steps::deposited_same), unfolding(crate::specs::EscrowParts::deposit_outcome, refusals::specs::Outcomes::bind))]
pub fn deposit_to_seat(
    alloc: Global,
    world: &World,
    instance: u32,
    args: &[Data],
) -> Result<CallOutcome, Stop>
    requires good { IsGoodWorld (world_of world.now) }
    requires hosted { instance < length (world_of world.now).tables.instances }
    requires known { AreKnown (world_of world.now) (trees args.now) }
    ensures { GivesOutcome (deposit_to_seat (world_of world.now) instance (trees args.now)) result }
{
    let change = slot_change(alloc, world, instance, args)?;
    deposit(
        alloc,
        world,
        change.seat,
        change.slots.shares(),
        change.shares.as_slice(),
        args,
    )
}
