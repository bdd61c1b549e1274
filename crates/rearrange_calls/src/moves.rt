//! All that a rearrangement moves.

ghost use Rattle.std.specs.Prelude.{◌≡◌, ◌++◌, [], ◌∷◌, if◌then◌else◌, All, IfOk, OnOk, flat_map, map};
ghost use Rattle.rules.specs.call_arguments.Numbers.{AreApart};
ghost use Rattle.rules.specs.world_state.Shapes.{IsRearrangement};
ghost use Rattle.rearrange.specs.Moves.{from_hand, gained_by, gains_in, if_some, losses_in, lost_by, moves_of, to_hand};
ghost use Rattle.rules.specs.proposals.OfferSafety.{MeetsSlot};
ghost use Rattle.rearrange_calls.specs.Met.{IsMet};

use crate::differences::{from_hand, gain_of, loss_of, to_hand};
use crate::seat_order::by_number;
use rearrange::rights_model_lib::Movement;
use rules::proposals_lib::allocations::Share;
use rules::proposals_lib::plans::Touched;
use std::alloc::{AllocError, Global};

/// Puts one last where that is wanted. It is generic, so that letting it go is proved once.
fn push_where<T: Drop>(all: &mut Vec<T>, wanted: bool, one: T) -> Result<(), AllocError>
    ensures { OnOk result (all.new.items ≡ all.old.items ++ (if wanted then one ∷ [] else [])) }
{
    if wanted {
        all.push(one)?;
    }
    Ok(())
}

/// Adds a movement, if it moves something.
#[tactic(auto, using(crate::proofs::Shaped::moves_none, crate::proofs::Shaped::moves_one))]
fn add(moves: &mut Vec<Movement>, movement: Movement) -> Result<(), AllocError>
    ensures { OnOk result (moves.new.items ≡ moves.old.items ++ if_some movement) }
{
    let moves_some = !movement.value.is_empty();
    push_where(moves, moves_some, movement)
}

/// Adds what a slot loses, if it loses something.
fn add_loss(
    alloc: Global,
    moves: &mut Vec<Movement>,
    seat: u32,
    before: &[Share],
    share: &Share,
) -> Result<(), AllocError>
    requires { MeetsSlot before.now share.now }
    ensures { OnOk result (moves.new.items
        ≡ moves.old.items ++ if_some (to_hand seat share.now (lost_by before.now share.now))) }
{
    let value = loss_of(alloc, before, share)?;
    add(moves, to_hand(alloc, seat, share, value)?)
}

/// Adds what a slot gains, if it gains something.
fn add_gain(
    alloc: Global,
    moves: &mut Vec<Movement>,
    seat: u32,
    before: &[Share],
    share: &Share,
) -> Result<(), AllocError>
    requires { MeetsSlot before.now share.now }
    ensures { OnOk result (moves.new.items
        ≡ moves.old.items ++ if_some (from_hand seat share.now (gained_by before.now share.now))) }
{
    let value = gain_of(alloc, before, share)?;
    add(moves, from_hand(alloc, seat, share, value)?)
}

/// Adds what a seat's slots lose.
fn add_losses(alloc: Global, moves: &mut Vec<Movement>, touched: &Touched) -> Result<(), AllocError>
    requires { IsMet touched.now }
    ensures { OnOk result (moves.new.items ≡ moves.old.items ++ losses_in touched.now) }
{
    for share in touched.after.shares() {
        add_loss(alloc, moves, touched.seat, touched.before.shares(), share)?;
    }
    Ok(())
}

/// Adds what a seat's slots gain.
fn add_gains(alloc: Global, moves: &mut Vec<Movement>, touched: &Touched) -> Result<(), AllocError>
    requires { IsMet touched.now }
    ensures { OnOk result (moves.new.items ≡ moves.old.items ++ gains_in touched.now) }
{
    for share in touched.after.shares() {
        add_gain(alloc, moves, touched.seat, touched.before.shares(), share)?;
    }
    Ok(())
}

/// What the slots of seats lose.
fn losses(alloc: Global, seats: &[&Touched]) -> Result<Vec<Movement>, AllocError>
    requires { All (λ t. IsMet t.now) seats.now }
    ensures { IfOk result (λ moves. moves.items ≡ flat_map losses_in (map (λ t. t.now) seats.now)) }
{
    let mut moves = Vec::new(alloc);
    for touched in seats {
        add_losses(alloc, &mut moves, touched)?;
    }
    Ok(moves)
}

/// Adds what the slots of seats gain.
fn add_all_gains(
    alloc: Global,
    moves: &mut Vec<Movement>,
    seats: &[&Touched],
) -> Result<(), AllocError>
    requires { All (λ t. IsMet t.now) seats.now }
    ensures { OnOk result (moves.new.items
        ≡ moves.old.items ++ flat_map gains_in (map (λ t. t.now) seats.now)) }
{
    for touched in seats {
        add_gains(alloc, moves, touched)?;
    }
    Ok(())
}

/// The movements of seats, in their order.
fn moves_in(alloc: Global, seats: &[&Touched]) -> Result<Vec<Movement>, AllocError>
    requires { All (λ t. IsMet t.now) seats.now }
    ensures { IfOk result (λ moves. moves.items
        ≡ flat_map losses_in (map (λ t. t.now) seats.now)
        ++ flat_map gains_in (map (λ t. t.now) seats.now)) }
{
    let mut moves = losses(alloc, seats)?;
    add_all_gains(alloc, &mut moves, seats)?;
    Ok(moves)
}

/// The movements of touched seats, of which no two are one, and each of whose slots keeps its brand and kind.
#[tactic(auto, using(crate::proofs::Shaped::halves), unfolding(rearrange::specs::Moves::moves_of))]
pub fn moves_of(alloc: Global, touched: &[Touched]) -> Result<Vec<Movement>, AllocError>
    requires apart { AreApart (map (λ t. t.seat) touched.now) }
    requires met { All IsMet touched.now }
    ensures moves { IfOk result (λ moves. moves.items ≡ moves_of touched.now) }
    ensures shape { IfOk result (λ moves. IsRearrangement moves.items) }
{
    let seats = by_number(alloc, touched)?;
    moves_in(alloc, seats.as_slice())
}
