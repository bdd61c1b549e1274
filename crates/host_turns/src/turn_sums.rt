//! The sums of a turn: the running totals are told of what happened in it, once, at its end, and the
//! sums of the brands that its movements name are read off. Its one contract: what was told is told of
//! the rights then, and the sums are those of the rights; for want of memory what was told is told
//! back.

pub mod laws;

ghost use Rattle.std.specs.Prelude.{◌≡◌, ◌≤◌, ◌+◌, ◌++◌, ℕ, List, length, map, IfOk, OnErr, OnOk};
ghost use Rattle.std.specs.Vec.{vec_capacity, vec_len};
ghost use Rattle.front_turns.specs.escrow.Told.{EscrowState, IsSame};
ghost use Rattle.front_turns.specs.escrow.Told.{sum_of as told_sum};
ghost use Rattle.front_turns.specs.rights_model.Totals.{brands_of};
ghost use Rattle.front_turns.specs.world_laws.Tables.{sum_of};
ghost use Rattle.front_turns.specs.turn_records.Views.{event_view, event_views};
ghost use Rattle.front_turns.specs.turn_records.Events.{moves_in};
ghost use Rattle.host_turns.specs.Totals.{AreSteps, CanTell, CanTellAll, IsRoomed, IsStep, IsTurn};
ghost use Rattle.host_turns.specs.Totals.{Tells, TurnOf, WasTold, WereTold, instances_in};
ghost use Rattle.front_turns.specs.world_state.Rights.{Rights};

use front_turns::escrow_lib::Escrow;
use front_turns::rights_model_lib::Sum;
use front_turns::turn_records_lib::events::Event;
use front_turns::turn_records_lib::turn_answers::brands_named;
use std::alloc::{AllocError, Global};

/// An event is told: that a seat was opened, or a movement.
fn tell(sums: &mut Escrow, event: &Event) -> Result<(), AllocError>
    requires { CanTell sums.old (event_view event.now) }
    ensures ok { OnOk result (IsStep sums.old sums.new (event_view event.now)) }
    ensures err { OnErr result (IsRoomed sums.old sums.new) }
{
    match event {
        Event::Opened(opening) => sums.opened(opening.seat, opening.instance),
        Event::Moved(movement) => sums.moved(movement),
        _ => Ok(()),
    }
}

/// Works `tell` backwards.
fn untell(sums: &mut Escrow, event: &Event)
    requires { (before : EscrowState) × WasTold before sums.old (event_view event.now) }
    ensures { (before : EscrowState) → WasTold before sums.old (event_view event.now)
        → IsRoomed before sums.new }
{
    match event {
        Event::Opened(_) => sums.undo_opened(),
        Event::Moved(movement) => sums.undo_moved(movement),
        _ => {}
    }
}

/// Works the telling of events backwards, from the last on.
fn untell_all(sums: &mut Escrow, events: &[Event])
    requires { (before : EscrowState) × WereTold before sums.old (event_views events.now) }
    ensures { (before : EscrowState) → WereTold before sums.old (event_views events.now)
        → IsSame before sums.new }
{
    let mut left = events.len();
    while left > 0 {
        left -= 1;
        untell(sums, &events[left]);
    }
}

/// All that happened in a turn is told, in order. For want of memory what was told is told back.
fn tell_all(sums: &mut Escrow, events: &[Event]) -> Result<(), AllocError>
    requires { CanTellAll sums.old (event_views events.now) }
    ensures ok { OnOk result (AreSteps sums.old sums.new (event_views events.now)) }
    ensures err { OnErr result (IsSame sums.old sums.new) }
{
    for told in 0..events.len() {
        match tell(sums, &events[told]) {
            Ok(()) => {}
            Err(fault) => {
                untell_all(sums, &events[..told]);
                return Err(fault);
            }
        }
    }
    Ok(())
}

/// Adds the sums of brands, in their order, in the room that there is.
fn add_sums(sums: &Escrow, brands: &[u16], made: &mut Vec<Sum>)
    requires { vec_len made.old + length brands.now ≤ vec_capacity made.old }
    ensures { made.new.items ≡ made.old.items ++ map (told_sum sums.now) brands.now }
{
    for brand in brands {
        made.push_reserved(sums.totals(*brand));
    }
}

/// The sums of the brands that the movements of a turn name, at its end: what happened in it is told. For
/// want of memory all that is read is as it was.
pub fn tell_turn(sums: &mut Escrow, alloc: Global, events: &[Event]) -> Result<Vec<Sum>, AllocError>
    requires { TurnOf sums.old (event_views events.now) }
    ensures sums { (start after : Rights) (instances : List ℕ)
        → IsTurn start after instances sums.old (event_views events.now)
        → IfOk result (λ made. made.items
        ≡ map (sum_of after) (brands_of (moves_in (event_views events.now)))) }
    ensures ok { (start after : Rights) (instances : List ℕ)
        → IsTurn start after instances sums.old (event_views events.now)
        → OnOk result (Tells after (instances ++ instances_in (event_views events.now)) sums.new) }
    ensures err { OnErr result (IsSame sums.old sums.new) }
    ensures still { (rights : Rights) (instances : List ℕ) → Tells rights instances sums.old
        → OnErr result (Tells rights instances sums.new) }
{
    let brands = brands_named(alloc, events)?;
    let mut made = Vec::new(alloc);
    made.reserve(brands.len())?;
    tell_all(sums, events)?;
    add_sums(sums, &brands, &mut made);
    Ok(made)
}
