//! Burning what a seat has of a mint's brand.

ghost use Rattle.std.specs.Prelude.{◌≡◌, ◌<◌, [], ◌∷◌, IfOk, Ok, length, map};
ghost use Rattle.ertp_calls.specs.call_outcomes.CallOutcomes.{GivesOutcome};
ghost use Rattle.rules.specs.States.{changing};
ghost use Rattle.contract_reads.specs.Known.{AreKnown};
ghost use Rattle.ertp_calls.specs.host_world.Worlds.{world_of};
ghost use Rattle.host_data.specs.Tree.{null};
ghost use Rattle.host_data.specs.View.{trees};
ghost use Rattle.rules.specs.Zmint.{burn_losses, loss, minting};
ghost use Rattle.rules.specs.world_state.Good.{IsGoodWorld};
ghost use Rattle.escrow_calls.specs.MintParts.{burn_of_shares, burn_outcome};
ghost use Rattle.escrow_calls.specs.SlotChanges.{IsOfSeat};

use crate::slot_changes::slot_change_of_mint;
use contract_reads::seat_changes::counts::{check_room, slots_after};
use contract_reads::seat_changes::effects::change_effects;
use contract_reads::seat_changes::safety::check_safe;
use ertp_calls::call_outcomes_lib::outcomes::CallOutcome;
use ertp_calls::host_world_lib::World;
use host_data::data::Data;
use refusals::stops::Stop;
use rules::proposals_lib::allocations::Share;
use rules::rearrange_lib::slot_checks::check_losses;
use rules::rights_model_lib::{Holder, Movement};
use std::alloc::{AllocError, Global};

/// What a share says is burned of its slot.
fn loss(alloc: Global, seat: u32, share: &Share) -> Result<Movement, AllocError>
    ensures { IfOk result (λ m. m ≡ loss seat share.now) }
{
    let keyword = share.keyword.copy(alloc)?;
    let value = share.amount.value.copy()?;
    Ok(Movement {
        brand: share.amount.brand,
        from: Holder::Slot(seat, keyword),
        to: Holder::Outside,
        value,
    })
}

/// What shares say is burned of their slots.
fn losses(alloc: Global, seat: u32, shares: &[Share]) -> Result<Vec<Movement>, AllocError>
    ensures { IfOk result (λ ms. ms.items ≡ map (loss seat) shares.now) }
{
    let mut moves = Vec::new(alloc);
    for share in shares {
        moves.push(loss(alloc, seat, share)?)?;
    }
    Ok(moves)
}

/// The outcome by which that is burned.
#[tactic(auto, using(crate::proofs::Shapes::losses_apart))]
fn burn_plan(alloc: Global, seat: u32, shares: &[Share]) -> Result<CallOutcome, Stop>
    ensures { GivesOutcome (Ok (null, changing (seat ∷ []) (map (loss seat) shares.now))) result }
{
    let losses = losses(alloc, seat, shares)?;
    let effects = change_effects(alloc, seat, losses)?;
    Ok(CallOutcome {
        answer: Data::Null,
        effects,
    })
}

/// What is left of burning once the seat and the shares are read: else `NotEnough`, `NotOfferSafe`, `Limit` (Zoe).
#[tactic(auto, unfolding(crate::specs::MintParts::burn_of_shares, refusals::specs::Outcomes::bind))]
fn burn(
    alloc: Global,
    world: &World,
    seat: u32,
    slots: &[Share],
    shares: &[Share],
) -> Result<CallOutcome, Stop>
    requires good { IsGoodWorld (world_of world.now) }
    requires seat { IsOfSeat (world_of world.now) seat slots.now shares.now }
    ensures { GivesOutcome (burn_of_shares (world_of world.now) seat slots.now shares.now) result }
{
    check_losses(slots, shares)?;
    check_safe(alloc, world, seat, slots, shares)?;
    check_room(world, slots.len(), slots_after(slots, shares), 0)?;
    burn_plan(alloc, seat, shares)
}

/// zmint.burnLosses(record, seat) (Zoe).
#[tactic(auto, using(crate::proofs::Steps::burned_same), unfolding(crate::specs::MintParts::burn_outcome, refusals::specs::Outcomes::bind))]
pub fn burn_losses(
    alloc: Global,
    world: &World,
    brand: u16,
    args: &[Data],
) -> Result<CallOutcome, Stop>
    requires good { IsGoodWorld (world_of world.now) }
    requires made { brand < length (world_of world.now).makers }
    requires hosted { minting (world_of world.now) brand < length (world_of world.now).tables.instances }
    requires known { AreKnown (world_of world.now) (trees args.now) }
    ensures { GivesOutcome (burn_losses (world_of world.now) brand (trees args.now)) result }
{
    let change = slot_change_of_mint(alloc, world, brand, args)?;
    burn(
        alloc,
        world,
        change.seat,
        change.slots.shares(),
        change.shares.as_slice(),
    )
}
