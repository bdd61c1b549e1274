//! The functions of the language itself.
ghost use Rattle.std.specs.Prelude.{◌≡◌, List, ℕ, Result};
ghost use Rattle.jessie_semantics.specs.host_data.Tree.{Tree};
ghost use Rattle.jessie_semantics.specs.host_data.View.{tree, trees};
ghost use Rattle.jessie_index.specs.jessie_values.Outcomes.{Gives, seen};
ghost use Rattle.jessie_index.specs.jessie_values.declared.reasons.Reason.{Reason};
ghost use Rattle.jessie_semantics.specs.Actions.{State};
ghost use Rattle.jessie_semantics.specs.Rules.{worked, apply_built_in};
ghost use Rattle.jessie_semantics.specs.Runs.{Runs, Computes};
ghost use Rattle.jessie_machine.specs.Stops.{come};
ghost use Rattle.jessie_machine.specs.Machine.{state};

use crate::host::Powers;
use crate::machine::Machine;
use crate::stop::{Stop, bad, fault_stop};
use crate::when_far::{call_far, call_when};
use jessie_index::jessie_grammar_lib::syntax::BuiltIn;
use jessie_index::jessie_values_lib::built_ins::{harden, keys, len, push, put};
use jessie_index::jessie_values_lib::reasons::{Reason, ValueFault};
use jessie_semantics::host_data_lib::data::Data;
use std::alloc::Global;

/// A value, or a bad step.
fn value_or_bad(given: Result<Data, Reason>) -> Result<Data, Stop>
    ensures { (s : State) (r : Result Tree Reason) → seen tree given ≡ r → Computes (worked r) s (come tree result) s }
{
    match given {
        Ok(data) => Ok(data),
        Err(reason) => Err(bad(reason)),
    }
}

/// A value, a bad step, or want of memory.
fn value_or_fault(given: Result<Data, ValueFault>) -> Result<Data, Stop>
    ensures { (s : State) (r : Result Tree Reason) → Gives tree given r → Computes (worked r) s (come tree result) s }
{
    match given {
        Ok(data) => Ok(data),
        Err(fault) => Err(fault_stop(fault)),
    }
}

/// Calls a function of the language. A missing argument is null, a surplus one is dropped.
#[inline(never)]
pub fn call_built_in<P: Powers>(
    alloc: Global,
    powers: &mut P,
    machine: &mut Machine,
    function: BuiltIn,
    args: Vec<Data>,
) -> Result<Data, Stop>
    ensures { (names : List (List ℕ)) (values : List Tree) → Runs P.answers powers.old powers.new (apply_built_in function (trees args.items)) (state names values machine.old) (come tree result) (state names values machine.new) }
{
    match function {
        BuiltIn::When => call_when(alloc, powers, machine, args),
        BuiltIn::Far => call_far(alloc, powers, machine, args),
        BuiltIn::Harden => Ok(harden(args)),
        BuiltIn::Keys => value_or_fault(keys(alloc, args)),
        BuiltIn::Len => value_or_bad(len(args)),
        BuiltIn::Push => value_or_fault(push(args)),
        BuiltIn::Put => value_or_bad(put(args)),
    }
}
