//! Why the work on a call ends before its answer.

ghost use Rattle.std.specs.Prelude.{◌≡◌};
ghost use Rattle.refusals.specs.Codes.{not_enough, wrong_amount};
ghost use Rattle.refusals.specs.Outcomes.{Refuses};
ghost use Rattle.refusals.specs.declared.stops.Stop.TheVariants.{NoMemory};

use crate::codes::{BareCode, Mismatch, NumberCode, Refusal, TextCode};
use host_data::amount_math_lib::Value;
use host_data::amount_math_lib::shortfall::Shortfall;
use host_data::host_text_lib::text::Text;
use std::alloc::{AllocError, AllocFailed, Global};

/// Why the work on a call ends before its answer.
#[derive(Drop)]
pub enum Stop {
    NoMemory,
    Refused(Refusal),
}

impl From<AllocError> for Stop {
    ghost from_gives = { λ _ e. e ≡ NoMemory };

    fn from(_error: AllocError) -> Stop {
        Stop::NoMemory
    }
}

impl<T: Drop> From<AllocFailed<T>> for Stop {
    ghost from_gives = { λ _ e. e ≡ NoMemory };

    fn from(_error: AllocFailed<T>) -> Stop {
        Stop::NoMemory
    }
}

// ---- refusals

impl Stop {
    /// A refusal that shows nothing.
    pub fn bare(code: BareCode) -> Stop
        ensures { result ≡ Stop.Refused (Refusal.Bare code) }
    {
        Stop::Refused(Refusal::Bare(code))
    }

    /// A refusal that shows a number.
    pub fn numbered(code: NumberCode, shown: u32) -> Stop
        ensures { result ≡ Stop.Refused (Refusal.Numbered code shown) }
    {
        Stop::Refused(Refusal::Numbered(code, shown))
    }

    /// A refusal that shows a text, which takes memory.
    pub fn worded(alloc: Global, code: TextCode, shown: &str) -> Stop
        ensures { Refuses result (Refusal.Worded code shown.now) }
    {
        match Text::from_str(alloc, shown) {
            Ok(shown) => Stop::Refused(Refusal::Worded(code, shown)),
            Err(_) => Stop::NoMemory,
        }
    }
}

/// Where a contract's text is refused, and the name of the reason, which takes memory.
pub fn text_refused(alloc: Global, place: u32, reason: &str) -> Stop
    ensures { Refuses result (Refusal.TextRefused place reason.now) }
{
    match Text::from_str(alloc, reason) {
        Ok(reason) => Stop::Refused(Refusal::TextRefused(place, reason)),
        Err(_) => Stop::NoMemory,
    }
}

/// Less is held than is asked for. The keys of values take memory.
pub fn not_enough(held: &Value, asked: &Value) -> Stop
    ensures { Refuses result (not_enough held.now asked.now) }
{
    let Ok(held) = held.copy() else {
        return Stop::NoMemory;
    };
    match asked.copy() {
        Ok(asked) => Stop::Refused(Refusal::NotEnough(Shortfall { held, asked })),
        Err(_) => Stop::NoMemory,
    }
}

/// A payment has another value than the one that is named for it. The keys of values take memory.
pub fn wrong_amount(held: &Value, named: &Value) -> Stop
    ensures { Refuses result (wrong_amount held.now named.now) }
{
    let Ok(held) = held.copy() else {
        return Stop::NoMemory;
    };
    match named.copy() {
        Ok(named) => Stop::Refused(Refusal::WrongAmount(Mismatch { held, named })),
        Err(_) => Stop::NoMemory,
    }
}
