//! Laws of what a turn mints and withdraws. The bodies are empty: what they state is proved of the definitions.

ghost use Rattle.std.specs.Prelude.{IfSome};
ghost use Rattle.fair_laws.specs.delivery_laws.Hosts.{IsGoodHost};
ghost use Rattle.fair_laws.specs.delivery_turns.Hosts.{HostState, step_of};
ghost use Rattle.fair_laws.specs.rules.Zoe.{ReadsModules, TextReader};
ghost use Rattle.licence_laws.specs.Steps.{IsCalledFor};
ghost use Rattle.licence_laws.specs.Worked.{AreNotShown, AreShown};

/// In the step of a good host the supply count of no element rises, but of a brand that the step's turn shows to be
/// minted: by mintPayment of its mint, by mintGains of its ZCF mint or, of the brand of invitations, by makeInvitation.
/// No purse has less of an element after it, but one that the turn shows a withdrawal from.
pub fn steps_mint_where_it_is_called_for()
    ensures step { (read : TextReader) (s : HostState)
        → ReadsModules read → IsGoodHost s
        → IfSome (step_of read s) (IsCalledFor s) }
{}

/// Turns that are called for by what they show, and others that aren't.
pub fn worked_turns_are_told_apart()
    ensures shown { AreShown }
    ensures unshown { AreNotShown }
{}
