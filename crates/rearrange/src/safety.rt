//! Offer safety of the seats that a change touches (Zoe).

ghost use Rattle.std.specs.Prelude.{◌↔◌, All, IfSome, IsTrue, MatchOption};
ghost use Rattle.rearrange.specs.Safety.{AreSafe, IsLeastUnsafe, IsSafeAfter, MeetProposal};
ghost use Rattle.rearrange.specs.Seats as given;
ghost use Rattle.rearrange.specs.Sums.{all_touched, touched_of};

use crate::seat_states::SeatStates;
use crate::seats::lesser;
use crate::sums::SeatShares;
use proposals::slots::is_offer_safe;

/// Whether what a seat has is safe for its proposal.
fn is_safe(states: &SeatStates, seat: &SeatShares) -> bool
    requires { IfSome (given.state_of states.now seat.now.seat)
        (MeetProposal seat.now.shares.items) }
    ensures { IsTrue result ↔ IsSafeAfter states.now (touched_of states.now seat.now) }
{
    match states.get(seat.seat) {
        Some(state) => is_offer_safe(&seat.shares, &state.proposal),
        None => true,
    }
}

/// The least seat that what it has isn't safe for, if there is one.
pub fn least_unsafe(states: &SeatStates, list: &[SeatShares]) -> Option<u32>
    requires { All (λ s. IfSome (given.state_of states.now s.seat) (MeetProposal s.shares.items))
        list.now }
    ensures { MatchOption result (AreSafe states.now (all_touched states.now list.now))
        (IsLeastUnsafe states.now (all_touched states.now list.now)) }
{
    let mut least = None;
    for seat in list {
        if !is_safe(states, seat) {
            least = Some(lesser(least, seat.seat));
        }
    }
    least
}
