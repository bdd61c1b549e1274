//! Laws of deliveries' turns. The bodies are empty: what they state is proved of the definitions.

ghost use Rattle.std.specs.Prelude.{ℕ, List, IfSome};
ghost use Rattle.delivery_laws.specs.Hosts.{IsGoodHost};
ghost use Rattle.delivery_laws.specs.delivery_turns.Hosts.{HostState, step_of};
ghost use Rattle.fair_laws.specs.Turns.{IsTurnStep, StaysFair, StaysStrict, new_host};
ghost use Rattle.fair_rows.specs.SoFar.{nothing_so_far};
ghost use Rattle.fair_rows.specs.Steps.{Leaves, so_far_after};
ghost use Rattle.fair_rows.specs.Strict.{AreStrict};
ghost use Rattle.fair_rows.specs.Turns.{AreFair};
ghost use Rattle.fair_laws.specs.Views.{IsSteady, world_of};
ghost use Rattle.delivery_laws.specs.rules.Zoe.{ReadsModules, TextReader};
ghost use Rattle.fair_rows.specs.turn_rows.Editions.{written};
ghost use Rattle.fair_rows.specs.turn_rows.Turns.{Turn};

/// The turn of the delivery in front is a step of what makes turns fair, where the host is good and what is read of
/// texts are modules that can be installed; and the world stays steady: seats, instances, facets and purses have
/// numbers of 32 bits, and slots of seats that were left keep their names.
pub fn deliveries_are_steps()
    ensures step { (read : TextReader) (s : HostState)
        → ReadsModules read → IsGoodHost s → IsSteady s.world
        → IfSome (step_of read s) (IsTurnStep s) }
{}

/// No turn of a new host was told, and its world is steady.
pub fn new_hosts_leave_nothing()
    ensures leaves { (meter : ℕ) → Leaves nothing_so_far (world_of (new_host meter)) }
    ensures steady { (meter : ℕ) → IsSteady (new_host meter).world }
{}

/// Where turns are fair and leave the world of a host that is good and steady, with the turn of the delivery in
/// front they are fair too, and leave the world of the host after it, which is steady.
pub fn turns_of_deliveries_stay_fair()
    ensures step { (read : TextReader) (s : HostState) (ts : List Turn)
        → ReadsModules read → IsGoodHost s → IsSteady s.world
        → AreFair written ts → Leaves (so_far_after ts nothing_so_far) (world_of s)
        → IfSome (step_of read s) (StaysFair ts) }
{}

/// So it is with all that a host keeps to beyond fairness.
pub fn turns_of_deliveries_stay_strict()
    ensures step { (read : TextReader) (s : HostState) (ts : List Turn)
        → ReadsModules read → IsGoodHost s → IsSteady s.world
        → AreStrict ts → Leaves (so_far_after ts nothing_so_far) (world_of s)
        → IfSome (step_of read s) (StaysStrict ts) }
{}
