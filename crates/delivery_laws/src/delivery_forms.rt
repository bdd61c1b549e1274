//! The law. The body is empty: what it states is proved of the definitions.

ghost use Rattle.std.specs.Prelude.{IfSome};
ghost use Rattle.delivery_laws.specs.Hosts.{IsGoodHost};
ghost use Rattle.delivery_turns.specs.Hosts.{HostState, step_of};
ghost use Rattle.delivery_turns.specs.rules.Zoe.{ReadsModules, TextReader};
ghost use Rattle.turn_writer.specs.Printing.{CanPrint};

/// The record of a turn that a good host's step makes can be printed: what was delivered and read for it, its
/// answer, and all that happened, of the kinds that such a turn may have.
pub fn turns_can_be_printed()
    ensures prints { (read : TextReader) (s : HostState)
        → ReadsModules read → IsGoodHost s
        → IfSome (step_of read s) (λ step. CanPrint step.turn) }
{}
