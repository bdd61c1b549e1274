//! Why a change of allocations is refused, as calls show it. Its one contract: each fault is the
//! refusal that its definition says, of the same seats, keys and counts.

ghost use Rattle.std.specs.Prelude.{◌≡◌};
ghost use Rattle.rearrange.specs.Told.{plan_told, seats_told, unkept_told};

use crate::plans::PlanFault;
use crate::seats::SeatsFault;
use crate::sums as plans;
use refusals::codes::{BareCode, NumberCode, Refusal, Unkept};
use refusals::stops::Stop;

/// How many slots a seat may have, at most (Zoe's keywords; the number is our own).
const MOST_SLOTS: u32 = 64;

/// What a change would not keep, with its counts as they are shown.
pub fn unkept_told(unkept: plans::Unkept) -> Unkept
    ensures { result ≡ unkept_told unkept }
{
    Unkept {
        brand: unkept.brand,
        element: unkept.element,
        before: unkept.before.shown(),
        after: unkept.after.shown(),
    }
}

/// Why seats can't take part in a change: it shows the seat, and `OneSeat` nothing.
pub fn seats_told(fault: SeatsFault) -> Refusal
    ensures { result ≡ seats_told fault }
{
    match fault {
        SeatsFault::WrongInstance(seat) => Refusal::Numbered(NumberCode::WrongInstance, seat),
        SeatsFault::OneSeat => Refusal::Bare(BareCode::OneSeat),
        SeatsFault::RepeatedSeat(seat) => Refusal::Numbered(NumberCode::RepeatedSeat, seat),
        SeatsFault::SeatExited(seat) => Refusal::Numbered(NumberCode::SeatExited, seat),
        SeatsFault::StagedLeftOut(seat) => Refusal::Numbered(NumberCode::StagedLeftOut, seat),
    }
}

/// Why a change of allocations is refused.
pub fn plan_told(fault: PlanFault) -> Stop
    ensures { result ≡ plan_told fault }
{
    match fault {
        PlanFault::Seats(fault) => Stop::Refused(seats_told(fault)),
        PlanFault::NotConserved(unkept) => {
            Stop::Refused(Refusal::NotConserved(unkept_told(unkept)))
        }
        PlanFault::NotOfferSafe(seat) => Stop::numbered(NumberCode::NotOfferSafe, seat),
        PlanFault::Limit => Stop::numbered(NumberCode::Limit, MOST_SLOTS),
        PlanFault::NoMemory => Stop::NoMemory,
    }
}
