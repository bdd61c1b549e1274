//! Effects on rights alone, carried out on the world of a turn: purses, payments, movements, staging.
//! Its one contract: each makes of the world what the world's effect of that name makes of it; whatever
//! a call answers, the turn can be undone.

ghost use Rattle.std.specs.Prelude.{◌≡◌, List, Option, OnOk};
ghost use Rattle.world_laws.specs.proposals.declared.allocations.Share.{Share};
ghost use Rattle.register_effects.specs.call_outcomes.Moves.{HasShape, moves_view};
ghost use Rattle.register_effects.specs.call_outcomes.Views.{IsRightsShaped, rights_view};
ghost use Rattle.register_effects.specs.draft_reads.Views.{CanGoBack, HasNow, rights_in, seats_in, staging_in};
ghost use Rattle.register_effects.specs.host_world.Worlds.{IsUndoable, world_now, world_of};
ghost use Rattle.register_effects.specs.vault.Drafts.{IsClean};
ghost use Rattle.world_effects.specs.CarriedEffects.{IsCarried, IsInTurn};
ghost use Rattle.world_laws.specs.world_state.Good.{CanMakeEmpty, CanMoveTogether, CanOpenPurse};
ghost use Rattle.world_laws.specs.world_state.Good.{IsGoodEffect};
ghost use Rattle.world_laws.specs.world_state.Rights.{moved_together};
ghost use Rattle.world_laws.specs.world_state.Worlds as worlds;

use draft_effects::draft_openings::{empty_payment, open_purse};
use draft_effects::draft_rearrangements::rearrange;
use draft_effects::draft_staging::{end_staging, stage, unstage};
use draft_effects::movements::move_all;
use draft_effects::payment_combinations::combine;
use draft_effects::payment_splits::split;
use register_effects::beside_seats::log_moves;
use register_effects::call_outcomes_lib::effects::RightsEffect;
use register_effects::call_outcomes_lib::moves::Moves;
use register_effects::host_world_lib::World;
use register_effects::vault_lib::draft::Draft;
use std::alloc::AllocError;
use world_laws::proposals_lib::allocations::Allocation;
use world_laws::rights_model_lib::Movement;

/// An empty purse of a brand is opened.
fn new_purse(world: &mut World, brand: u16) -> Result<(), AllocError>
    requires turn { IsInTurn world.old }
    requires can { CanOpenPurse (world_of world.old) brand }
    ensures ok { OnOk result (IsCarried world.old world.new (worlds.new_purse brand)) }
    ensures back { IsUndoable world.old world.new }
{
    let kind = world.registers.brands.kind(brand);
    match open_purse(&mut world.draft, brand, kind) {
        Ok(_) => Ok(()),
        Err(fault) => Err(fault),
    }
}

/// A payment of nothing of a brand is made.
fn new_payment(world: &mut World, brand: u16) -> Result<(), AllocError>
    requires turn { IsInTurn world.old }
    requires can { CanMakeEmpty (world_of world.old) brand }
    ensures ok { OnOk result (IsCarried world.old world.new (worlds.empty_payment brand)) }
    ensures back { IsUndoable world.old world.new }
{
    let kind = world.registers.brands.kind(brand);
    match empty_payment(&mut world.draft, brand, kind) {
        Ok(_) => Ok(()),
        Err(fault) => Err(fault),
    }
}

/// Movements are made together in a draft, in their way.
fn move_in_draft(draft: &mut Draft, moves: &Moves) -> Result<(), AllocError>
    requires clean { IsClean draft.old }
    requires shape { HasShape moves.now }
    requires can { (staging : List (Option (List Share)))
        × CanMoveTogether (rights_in draft.old) (seats_in draft.old) staging (moves_view moves.now) }
    ensures ok { OnOk result (HasNow draft.new
        (moved_together (rights_in draft.old) (moves_view moves.now))
        (seats_in draft.old) (staging_in draft.old)) }
    ensures back { CanGoBack draft.old draft.new }
{
    match moves {
        Moves::Movements(list) => move_all(draft, list),
        Moves::Combination(list) => combine(draft, list),
        Moves::Split(list) => split(draft, list),
        Moves::Rearrangement(list) => rearrange(draft, list),
    }
}

/// The movements, as they are written.
fn movements_of(moves: Moves) -> Vec<Movement>
    ensures { result.items ≡ moves_view moves }
{
    match moves {
        Moves::Movements(moves) => moves,
        Moves::Combination(moves) => moves,
        Moves::Split(moves) => moves,
        Moves::Rearrangement(moves) => moves,
    }
}

/// Movements are made together, and told.
fn make_moves(world: &mut World, moves: Moves) -> Result<(), AllocError>
    requires turn { IsInTurn world.old }
    requires shape { HasShape moves }
    requires can { IsGoodEffect (world_of world.old) (worlds.moves (moves_view moves)) }
    ensures ok { OnOk result (IsCarried world.old world.new (worlds.moves (moves_view moves))) }
    ensures back { IsUndoable world.old world.new }
{
    move_in_draft(&mut world.draft, &moves)?;
    log_moves(&mut world.registers.log, movements_of(moves))
}

/// Shares are staged of an open seat.
fn stage_shares(world: &mut World, seat: u32, shares: Allocation) -> Result<(), AllocError>
    requires turn { IsInTurn world.old }
    requires can { IsGoodEffect (world_of world.old) (worlds.stage seat shares) }
    ensures ok { OnOk result (IsCarried world.old world.new (worlds.stage seat shares)) }
    ensures back { IsUndoable world.old world.new }
{
    stage(&mut world.draft, seat, shares)
}

/// What is staged of a seat is dropped.
fn drop_staging(world: &mut World, seat: u32)
    requires { IsInTurn world.old }
    ensures ok { IsCarried world.old world.new (worlds.unstage seat) }
    ensures back { IsUndoable world.old world.new }
{
    unstage(&mut world.draft, seat);
}

/// All staging ends.
fn drop_all_staging(world: &mut World)
    requires { IsInTurn world.old }
    ensures ok { IsCarried world.old world.new worlds.end_staging }
    ensures back { IsUndoable world.old world.new }
{
    end_staging(&mut world.draft);
}

/// An effect on rights alone.
pub fn carry_rights(world: &mut World, effect: RightsEffect) -> Result<(), AllocError>
    requires turn { IsInTurn world.old }
    requires shape { IsRightsShaped effect }
    requires can { IsGoodEffect (world_of world.old) (rights_view effect) }
    ensures ok { OnOk result (IsCarried world.old world.new (rights_view effect)) }
    ensures back { IsUndoable world.old world.new }
{
    match effect {
        RightsEffect::NewPurse(brand) => new_purse(world, brand),
        RightsEffect::EmptyPayment(brand) => new_payment(world, brand),
        RightsEffect::Moves(moves) => make_moves(world, moves),
        RightsEffect::Stage(seat, shares) => stage_shares(world, seat, shares),
        RightsEffect::Unstage(seat) => {
            drop_staging(world, seat);
            Ok(())
        }
        RightsEffect::EndStaging => {
            drop_all_staging(world);
            Ok(())
        }
    }
}
