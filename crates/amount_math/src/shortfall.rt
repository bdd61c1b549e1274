//! Less is held than is asked for: what a refusal shows of both.

ghost use Rattle.amount_math.specs.Content.{Contains};
ghost use Rattle.amount_math.specs.Shortfalls.{IsLossFault};
ghost use Rattle.amount_math.specs.ValueView.{IsValue};

use crate::{Holding, Value};

/// Less is held than is asked for: what is held, and what is asked for.
pub struct Shortfall {
    pub held: Value,
    pub asked: Value,
}

impl Drop for Shortfall {
    fn drop(self) {
        let Shortfall { held: _, asked: _ } = self;
    }
}

/// Why a part isn't taken out of what is held.
#[derive(Drop)]
pub enum LossFault {
    NotEnough(Shortfall),
    /// Memory is wanted for the part's keys, or for those that a shortfall shows.
    NoMemory,
}

/// That less is held than is asked for, with both. Their keys take memory.
pub fn show_shortfall(held: &Holding, asked: &Value) -> LossFault
    requires value { IsValue held.now.value.kind held.now.value.content }
    requires less { ¬ Contains held.now.value.content asked.now.content }
    ensures { IsLossFault held.now.value asked.now result }
{
    let Ok(held) = held.copy() else {
        return LossFault::NoMemory;
    };
    let Ok(asked) = asked.copy() else {
        return LossFault::NoMemory;
    };
    LossFault::NotEnough(Shortfall { held, asked })
}
