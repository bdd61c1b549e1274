//! Laws of what turns name, move and spend. The bodies are empty: what they state is proved of the definitions.

ghost use Rattle.std.specs.Prelude.{IfSome};
ghost use Rattle.fair_laws.specs.delivery_laws.Hosts.{IsGoodHost};
ghost use Rattle.fair_laws.specs.delivery_turns.Hosts.{HostState, step_of};
ghost use Rattle.fair_laws.specs.rules.Zoe.{ReadsModules, TextReader};
ghost use Rattle.licence_laws.specs.Steps.{IsLicensed, IsSpentByName};
ghost use Rattle.licence_laws.specs.WorkedSteps.{AreLicensed, AreNotLicensed};

/// In the step of a good host a function names only what its instance kept, what came with the delivery and what the
/// host answered to its calls so far; and each movement is by right: in the turn of an instance from its own slots,
/// the hand, payments that the call names, and its own mints, to its own slots, the hand, payments that are made then,
/// and its own mints.
pub fn steps_are_licensed()
    ensures step { (read : TextReader) (s : HostState)
        → ReadsModules read → IsGoodHost s
        → IfSome (step_of read s) (IsLicensed s) }
{}

/// No payment has less of an element after the step of a good host, but one that the turn or one of its calls names.
pub fn steps_spend_by_name()
    ensures step { (read : TextReader) (s : HostState)
        → ReadsModules read → IsGoodHost s
        → IfSome (step_of read s) (IsSpentByName s) }
{}

/// Steps that are licensed, and others that aren't, each for one thing alone.
pub fn worked_steps_are_told_apart()
    ensures licensed { AreLicensed }
    ensures unlicensed { AreNotLicensed }
{}
