//! Seats, by their numbers.

ghost use Rattle.std.specs.Prelude.{◌≡◌, ◌<◌, IfOk, is_none, length};
ghost use Rattle.world_laws.specs.Views.{rights_of, seats_of};
ghost use Rattle.world_laws.specs.world_state.Worlds.{seat_at};

use std::alloc::AllocError;
use vault::draft::Draft;
use world_laws::proposals_lib::allocations::Allocation;
use world_laws::proposals_lib::offers::Proposal;

/// How many seats were opened: the number that the next one gets.
#[tactic(auto, using(crate::proofs::WorldLists::seats_counted))]
pub fn seats_made(draft: &Draft) -> u32
    ensures { result ≡ length (seats_of draft.now.now) }
{
    draft.seats().made()
}

/// The instance of a seat.
#[tactic(auto, using(crate::proofs::WorldLists::seats_counted, crate::proofs::WorldLists::seat_read))]
pub fn seat_instance(draft: &Draft, seat: u32) -> u32
    requires { seat < length (seats_of draft.now.now) }
    ensures { result ≡ (seat_at (seats_of draft.now.now) seat).instance }
{
    draft.seats().instance(seat)
}

/// What a seat was opened for.
#[tactic(auto, using(crate::proofs::WorldLists::seats_counted, crate::proofs::WorldLists::seat_read))]
pub fn seat_proposal(draft: &Draft, seat: u32) -> &Proposal
    requires { seat < length (seats_of draft.now.now) }
    ensures { result.now ≡ (seat_at (seats_of draft.now.now) seat).proposal }
{
    draft.seats().proposal(seat)
}

/// Whether a seat is open.
#[tactic(auto, using(crate::proofs::WorldLists::seats_counted, crate::proofs::WorldLists::seat_read))]
pub fn is_open(draft: &Draft, seat: u32) -> bool
    requires { seat < length (seats_of draft.now.now) }
    ensures { result ≡ is_none (seat_at (seats_of draft.now.now) seat).last }
{
    draft.seats().is_open(seat)
}

/// What a seat had when it was left, once it was.
#[tactic(auto, using(crate::proofs::WorldLists::seats_counted, crate::proofs::WorldLists::seat_read, crate::proofs::WorldLists::last_allocated))]
pub fn last_allocation(draft: &Draft, seat: u32) -> Result<Option<Allocation>, AllocError>
    requires { seat < length (seats_of draft.now.now) }
    ensures { IfOk result (λ last. last ≡ (seat_at (seats_of draft.now.now) seat).last) }
{
    let seats = draft.seats();
    if seats.is_open(seat) {
        return Ok(None);
    }
    Ok(Some(seats.allocation(seat)?))
}
