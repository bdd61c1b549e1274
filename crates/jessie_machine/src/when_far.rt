//! `when` and `Far`, to which the host replies.
ghost use Rattle.std.specs.Prelude.{List, ℕ, Result, IfOk};
ghost use Rattle.jessie_semantics.specs.host_data.Tree.{Tree};
ghost use Rattle.jessie_semantics.specs.host_data.View.{tree, trees};
ghost use Rattle.jessie_index.specs.jessie_values.Requests.{when_call, far_call};
ghost use Rattle.jessie_index.specs.jessie_values.RequestViews.{when_view, far_view};
ghost use Rattle.jessie_semantics.specs.Actions.{State};
ghost use Rattle.jessie_semantics.specs.Rules.{worked, when_asks, far_asks, host_when, host_far};
ghost use Rattle.jessie_semantics.specs.Runs.{Runs, Computes};
ghost use Rattle.jessie_machine.specs.Host.{answered_with};
ghost use Rattle.jessie_machine.specs.Stops.{come};
ghost use Rattle.jessie_machine.specs.Machine.{state};

use crate::bills::{left_after, pay_bill};
use crate::host::{NoMemory, Powers, Reply};
use crate::machine::{Machine, settle};
use crate::stop::{Stop, bad, fault_stop};
use jessie_index::jessie_values_lib::requests::{FarArguments, WhenArguments, far_call, when_call};
use jessie_semantics::host_data_lib::data::Data;
use std::alloc::Global;

/// What the arguments of `when` ask for.
fn read_when(args: Vec<Data>) -> Result<WhenArguments, Stop>
    ensures { (s : State) → Computes (worked (when_call (trees args.items))) s (come when_view result) s }
{
    match when_call(args) {
        Ok(request) => Ok(request),
        Err(reason) => Err(bad(reason)),
    }
}

/// Asks the host that a function hear of a promise.
fn ask_when<P: Powers>(powers: &mut P, request: WhenArguments) -> Result<Reply, NoMemory>
    ensures { IfOk result (λ a. P.answers powers.old (answered_with (when_asks (when_view request)) a) powers.new) }
{
    let WhenArguments {
        promise,
        function,
        held,
    } = request;
    powers.when(promise, function.as_str(), held)
}

/// `when(promise, function, data)`: the function is to hear of the promise.
pub fn call_when<P: Powers>(
    alloc: Global,
    powers: &mut P,
    machine: &mut Machine,
    args: Vec<Data>,
) -> Result<Data, Stop>
    ensures { (names : List (List ℕ)) (values : List Tree) → Runs P.answers powers.old powers.new (host_when (trees args.items)) (state names values machine.old) (come tree result) (state names values machine.new) }
{
    let left = left_after(machine.meter, args.as_slice());
    let request = read_when(args)?;
    pay_bill(machine, left)?;
    let reply = ask_when(powers, request)?;
    settle(alloc, machine, reply)
}

/// What the arguments of `Far` ask for.
fn read_far(alloc: Global, args: Vec<Data>) -> Result<FarArguments, Stop>
    ensures { (s : State) → Computes (worked (far_call (trees args.items))) s (come far_view result) s }
{
    match far_call(alloc, args) {
        Ok(request) => Ok(request),
        Err(fault) => Err(fault_stop(fault)),
    }
}

/// Asks the host for a facet.
fn ask_far<P: Powers>(powers: &mut P, request: FarArguments) -> Result<Reply, NoMemory>
    ensures { IfOk result (λ a. P.answers powers.old (answered_with (far_asks (far_view request)) a) powers.new) }
{
    let FarArguments {
        name,
        methods,
        held,
    } = request;
    powers.far(name.as_str(), methods, held)
}

/// `Far(name, methods, data)`: a facet.
pub fn call_far<P: Powers>(
    alloc: Global,
    powers: &mut P,
    machine: &mut Machine,
    args: Vec<Data>,
) -> Result<Data, Stop>
    ensures { (names : List (List ℕ)) (values : List Tree) → Runs P.answers powers.old powers.new (host_far (trees args.items)) (state names values machine.old) (come tree result) (state names values machine.new) }
{
    let left = left_after(machine.meter, args.as_slice());
    let request = read_far(alloc, args)?;
    pay_bill(machine, left)?;
    let reply = ask_far(powers, request)?;
    settle(alloc, machine, reply)
}
