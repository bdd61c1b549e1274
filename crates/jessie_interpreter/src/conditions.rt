//! Conditions of an `if`, a `while` and a choice.
ghost use Rattle.jessie_machine.specs.jessie_semantics.Actions.{State};
ghost use Rattle.jessie_machine.specs.jessie_semantics.Rules.{worked};
ghost use Rattle.jessie_machine.specs.jessie_semantics.Runs.{Computes};
ghost use Rattle.jessie_machine.specs.Stops.{come};

use jessie_machine::jessie_values_lib::reasons::Reason;
use jessie_machine::stop::{Stop, bad};

/// A truth value, or a bad step.
#[inline(never)]
pub fn condition_value(given: Result<bool, Reason>) -> Result<bool, Stop>
    ensures { (s : State) → Computes (worked given) s (come (λ b. b) result) s }
{
    match given {
        Ok(holds) => Ok(holds),
        Err(reason) => Err(bad(reason)),
    }
}
