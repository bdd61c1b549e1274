//! The laws. The bodies are empty: what they state is proved of the definitions.

ghost use Rattle.std.specs.Prelude.{◌≡◌, ◌++◌, ℕ, List, Some};
ghost use Rattle.licence_laws.specs.delivery_turns.Hosts.{HostState, Step, step_of};
ghost use Rattle.run_laws.specs.Machines.{brought_by};
ghost use Rattle.run_laws.specs.Order.{AreInOrder};
ghost use Rattle.run_laws.specs.Runs.{first_host, host_machine, meanings_of};
ghost use Rattle.licence_laws.specs.rules.Zoe.{TextReader};
ghost use Rattle.licence_laws.specs.world_state.Worlds.{behind};

/// A step appends what its turn brings behind all that waits.
pub fn steps_append()
    ensures behind { (read : TextReader) (s : HostState) (step : Step) → step_of read s ≡ Some step
        → step.next.world.waiting
        ≡ (behind s.world).waiting
        ++ brought_by (host_machine read) (record { before = s; step = step }) }
{}

/// Deliveries have their turns first in, first out, whatever the input.
pub fn runs_are_in_order()
    ensures in_order { (read : TextReader) (meter most : ℕ) (input : List ℕ)
        → AreInOrder (host_machine read) (first_host meter) (meanings_of most input) }
{}
