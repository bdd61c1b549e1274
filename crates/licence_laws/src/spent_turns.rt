//! The law of turns that spend their meter. The body is empty: what it states is proved of the
//! definitions.

ghost use Rattle.std.specs.Prelude.{IfSome};
ghost use Rattle.fair_laws.specs.delivery_laws.Hosts.{IsGoodHost};
ghost use Rattle.fair_laws.specs.delivery_turns.Hosts.{HostState, step_of};
ghost use Rattle.fair_laws.specs.rules.Zoe.{TextReader};
ghost use Rattle.licence_laws.specs.TakenBack.{SpentIsTakenBack};

/// Where the function that the step of a good host runs spends its meter, whichever kind of function
/// it is, the world is that at the turn's start with the delivery taken, but for the instance's halt,
/// its open seats, which are left with what their slots had, the promise of the delivery, which is
/// broken, and what these settlements bring.
pub fn spent_turns_are_taken_back()
    ensures step { (read : TextReader) (s : HostState)
        → IsGoodHost s → IfSome (step_of read s) (SpentIsTakenBack s) }
{}
