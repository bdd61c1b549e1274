//! Faults of values, sums and parts as the refusals that they are told by.

ghost use Rattle.std.specs.Prelude.{◌≡◌, pos};
ghost use Rattle.refusals.specs.Codes.{capped, too_much};
ghost use Rattle.refusals.specs.Told.{make_told, put_told};

use crate::codes::{BareCode, Refusal};
use crate::stops::Stop;
use host_data::amount_math_lib::{MakeFault, PutFault, TooMuch};

/// The greatest number that is shown of a sum.
const MOST_SHOWN: u128 = (1 << 127) - 1;

impl From<MakeFault> for Stop {
    ghost from_gives = { λ fault e. e ≡ make_told fault };

    fn from(fault: MakeFault) -> Stop {
        match fault {
            MakeFault::BadValue => Stop::bare(BareCode::BadValue),
            MakeFault::NoMemory => Stop::NoMemory,
        }
    }
}

/// A sum as it is shown: one that passes the greatest number that data can hold is shown as that.
pub fn capped(sum: u128) -> i128
    ensures { result ≡ pos (capped sum) }
{
    sum.min(MOST_SHOWN) as i128
}

/// A sum passes its bound.
pub fn too_much(over: TooMuch) -> Refusal
    ensures { result ≡ too_much over.sum over.bound }
{
    Refusal::TooMuch(capped(over.sum), capped(over.bound))
}

impl Stop {
    /// Why a value isn't added to another.
    pub fn of_put(fault: PutFault) -> Stop
        ensures { result ≡ put_told fault }
    {
        match fault {
            PutFault::Overlap(key) => Stop::Refused(Refusal::Overlap(key)),
            PutFault::TooMuch(over) => Stop::Refused(too_much(over)),
            PutFault::NoMemory => Stop::NoMemory,
        }
    }
}
