//! Minting to a seat of an instance's own.

ghost use Rattle.std.specs.Prelude.{◌≡◌, ◌<◌, [], ◌∷◌, IfOk, Ok, length, map};
ghost use Rattle.host_data.specs.Amounts.{seen};
ghost use Rattle.ertp_calls.specs.call_outcomes.Lists.{IsEachShaped, effects_view};
ghost use Rattle.ertp_calls.specs.call_outcomes.CallOutcomes.{GivesOutcome};
ghost use Rattle.rules.specs.States.{changing};
ghost use Rattle.contract_reads.specs.Known.{AreKnown};
ghost use Rattle.ertp_calls.specs.host_world.Worlds.{world_of};
ghost use Rattle.host_data.specs.View.{trees};
ghost use Rattle.contract_reads.specs.Calls.{FitSlots};
ghost use Rattle.rules.specs.Zmint.{gain, mint_gains, minting};
ghost use Rattle.ertp_calls.specs.vault.Drafts.{IsClean};
ghost use Rattle.rules.specs.world_state.Good.{IsGoodWorld};
ghost use Rattle.escrow_calls.specs.MintParts.{mint_of_shares, mint_outcome};

use crate::slot_changes::slot_change_of_mint;
use crate::supply::check_comes_out;
use contract_reads::seat_changes::counts::{check_room, slots_after};
use contract_reads::seat_changes::effects::change_effects;
use ertp_calls::call_outcomes_lib::lists::Effects;
use ertp_calls::call_outcomes_lib::outcomes::CallOutcome;
use ertp_calls::host_world_lib::World;
use host_data::data::Data;
use refusals::stops::Stop;
use rules::call_arguments_lib::places::{argument, copy_of};
use rules::proposals_lib::allocations::Share;
use rules::rearrange_lib::slot_checks::check_gains;
use rules::rights_model_lib::{Holder, Movement};
use std::alloc::{AllocError, Global};

/// What a share says is minted to its slot.
fn gain(alloc: Global, seat: u32, share: &Share) -> Result<Movement, AllocError>
    ensures { IfOk result (λ m. m ≡ gain seat share.now) }
{
    let keyword = share.keyword.copy(alloc)?;
    let value = share.amount.value.copy()?;
    Ok(Movement {
        brand: share.amount.brand,
        from: Holder::Outside,
        to: Holder::Slot(seat, keyword),
        value,
    })
}

/// What shares say is minted to their slots.
fn gains(alloc: Global, seat: u32, shares: &[Share]) -> Result<Vec<Movement>, AllocError>
    ensures { IfOk result (λ ms. ms.items ≡ map (gain seat) shares.now) }
{
    let mut moves = Vec::new(alloc);
    for share in shares {
        moves.push(gain(alloc, seat, share)?)?;
    }
    Ok(moves)
}

/// What that does to the world.
#[tactic(auto, using(crate::proofs::Shapes::gains_apart))]
fn mint_effects(alloc: Global, seat: u32, shares: &[Share]) -> Result<Effects, AllocError>
    ensures effects { IfOk result (λ es. effects_view es
        ≡ changing (seat ∷ []) (map (gain seat) shares.now)) }
    ensures shaped { IfOk result (λ es. IsEachShaped es) }
{
    let gains = gains(alloc, seat, shares)?;
    change_effects(alloc, seat, gains)
}

/// The outcome by which that is minted, which answers what is given.
fn mint_plan(
    alloc: Global,
    seat: u32,
    shares: &[Share],
    given: Option<&Data>,
) -> Result<CallOutcome, Stop>
    ensures { GivesOutcome (Ok (seen given.entry, changing (seat ∷ []) (map (gain seat) shares.now))) result }
{
    let effects = mint_effects(alloc, seat, shares)?;
    let answer = copy_of(alloc, given)?;
    Ok(CallOutcome { answer, effects })
}

/// What is left of minting once the seat and the shares are read: else `Overlap`, `TooMuch` of all of them with what is
/// out, `TooMuch` of what was minted with them, `Overlap`, `TooMuch` of each with its slot, `Limit` (Zoe).
#[tactic(auto, unfolding(crate::specs::MintParts::mint_of_shares, refusals::specs::Outcomes::bind))]
fn mint(
    alloc: Global,
    world: &World,
    brand: u16,
    seat: u32,
    slots: &[Share],
    shares: &[Share],
    given: Option<&Data>,
) -> Result<CallOutcome, Stop>
    requires clean { IsClean world.now.draft }
    requires made { brand < length (world_of world.now).rights.out }
    requires fit { FitSlots slots.now shares.now }
    ensures { GivesOutcome
        (mint_of_shares (world_of world.now) brand seat slots.now shares.now (seen given.entry)) result }
{
    check_comes_out(alloc, &world.draft, brand, shares)?;
    check_gains(slots, shares)?;
    check_room(world, slots.len(), slots_after(slots, shares), 0)?;
    mint_plan(alloc, seat, shares, given)
}

/// zmint.mintGains(record, seat) (Zoe).
#[tactic(auto, using(crate::proofs::MintBrands::maker_supply, crate::proofs::Steps::minted_same), unfolding(crate::specs::MintParts::mint_outcome, refusals::specs::Outcomes::bind))]
pub fn mint_gains(
    alloc: Global,
    world: &World,
    brand: u16,
    args: &[Data],
) -> Result<CallOutcome, Stop>
    requires good { IsGoodWorld (world_of world.now) }
    requires clean { IsClean world.now.draft }
    requires made { brand < length (world_of world.now).makers }
    requires hosted { minting (world_of world.now) brand < length (world_of world.now).tables.instances }
    requires known { AreKnown (world_of world.now) (trees args.now) }
    ensures { GivesOutcome (mint_gains (world_of world.now) brand (trees args.now)) result }
{
    let change = slot_change_of_mint(alloc, world, brand, args)?;
    mint(
        alloc,
        world,
        brand,
        change.seat,
        change.slots.shares(),
        change.shares.as_slice(),
        argument(args, 2),
    )
}
