//! Calls of methods, and sends to objects, of which the host is asked.
ghost use Rattle.std.specs.Prelude.{ℕ, List};
ghost use Rattle.jessie_semantics.specs.host_data.Tree.{Tree};
ghost use Rattle.jessie_semantics.specs.host_data.View.{tree, trees};
ghost use Rattle.jessie_semantics.specs.Rules.{host_call, host_send};
ghost use Rattle.jessie_semantics.specs.Runs.{Runs};
ghost use Rattle.jessie_machine.specs.Stops.{come};
ghost use Rattle.jessie_machine.specs.Machine.{state};

use crate::host::Powers;
use crate::machine::{Machine, settle, take_call};
use crate::stop::{Stop, bad};
use jessie_index::jessie_values_lib::reasons::Reason;
use jessie_semantics::host_data_lib::data::Data;
use jessie_semantics::host_text_lib::text::Text;
use std::alloc::Global;

/// Calls a method of an object of the host.
#[inline(never)]
pub fn call_method<P: Powers>(
    alloc: Global,
    powers: &mut P,
    machine: &mut Machine,
    target: &Data,
    method: &Text,
    args: Vec<Data>,
) -> Result<Data, Stop>
    ensures { (names : List (List ℕ)) (values : List Tree) → Runs P.answers powers.old powers.new (host_call (tree target.now) method.now (trees args.items)) (state names values machine.old) (come tree result) (state names values machine.new) }
{
    let Some(object) = target.object() else {
        return Err(bad(Reason::WrongKind));
    };
    take_call(machine, args.as_slice())?;
    let reply = powers.call(object, method.as_str(), args)?;
    settle(alloc, machine, reply)
}

/// Sends an object of the host a method's call.
#[inline(never)]
pub fn send_method<P: Powers>(
    alloc: Global,
    powers: &mut P,
    machine: &mut Machine,
    target: &Data,
    method: &Text,
    args: Vec<Data>,
) -> Result<Data, Stop>
    ensures { (names : List (List ℕ)) (values : List Tree) → Runs P.answers powers.old powers.new (host_send (tree target.now) method.now (trees args.items)) (state names values machine.old) (come tree result) (state names values machine.new) }
{
    let Some(receiver) = target.object() else {
        return Err(bad(Reason::WrongKind));
    };
    take_call(machine, args.as_slice())?;
    let reply = powers.send(receiver, method.as_str(), args)?;
    settle(alloc, machine, reply)
}
