//! A whole evaluation of a function of a module.
ghost use Rattle.std.specs.Prelude.{◌≡◌, ◌<◌, length, option_map, IfOk, OnErr, Ok};
ghost use Rattle.jessie_machine.specs.host_data.View.{tree, trees};
ghost use Rattle.jessie_machine.specs.jessie_grammar.Syntax.{routines, variable_names};
ghost use Rattle.jessie_machine.specs.jessie_semantics.Play.{Follows};
ghost use Rattle.jessie_machine.specs.jessie_semantics.Rules.{play};
ghost use Rattle.jessie_machine.specs.jessie_semantics.Charges.{FitsMeter};
ghost use Rattle.jessie_machine.specs.jessie_semantics.Keeping.{Licensed, Within, AllHave, FunctionsKnown};
ghost use Rattle.jessie_machine.specs.jessie_semantics.Hosts.{Granted};
ghost use Rattle.jessie_machine.specs.Machine.{changes};
ghost use Rattle.jessie_interpreter.specs.Outcomes.{outcome, kept, kept_at};

use crate::run::invoke;
use jessie_machine::host::{NoMemory, Powers};
use jessie_machine::host_data_lib::data::Data;
use jessie_machine::host_text_lib::text::Text;
use jessie_machine::jessie_index_lib::jessie_module_index::IndexedModule;
use jessie_machine::jessie_index_lib::locals::Locals;
use jessie_machine::machine::Machine;
use jessie_machine::stop::Stop;
use std::alloc::{AllocError, Global};

/// How many calls stand within each other at most.
const DEEPEST_CALL: u32 = 32;

/// What an evaluation comes to.
#[derive(Drop)]
pub enum Outcome {
    Returned(Data),
    Threw(Data),
    /// The meter didn't have the next charge.
    Spent,
}

/// Gives the state variable at a place the value that it was given, if any.
fn keep_change(values: &mut Vec<Data>, place: usize, change: Option<Data>)
    requires { place < length values.old.items }
    ensures { trees values.new.items ≡ kept_at (trees values.old.items) place (option_map tree change) }
{
    let Some(data) = change else {
        return;
    };
    values[place] = data;
}

/// Gives each state variable the value that it was given, if any.
fn keep_changes(values: &mut Vec<Data>, changed: Vec<Option<Data>>)
    ensures { trees values.new.items ≡ kept (trees values.old.items) (changes changed.items) }
{
    let mut changed = changed.into_iter();
    let mut place = 0;
    'changes: while let Some(change) = changed.next() {
        if place >= values.len() {
            return;
        }
        keep_change(values, place, change);
        place += 1;
    }
}

/// Calls a function of the module, by its name, with these arguments. `state` holds the values of the
/// module's state variables: after Returned and Threw as they were assigned, after Spent and for want of
/// memory as they were.
pub fn evaluate<P: Powers>(
    alloc: Global,
    powers: &mut P,
    module: &IndexedModule,
    f: &Text,
    args: Vec<Data>,
    state: &mut Vec<Data>,
    meter: u64,
) -> Result<Outcome, NoMemory>
    requires { length state.old.items ≡ length (variable_names «module».now) }
    ensures follows { IfOk result (λ r. Follows P.answers (play (routines «module».now) (variable_names «module».now) f.now (trees args.items) (trees state.old.items) meter) powers.old powers.new (outcome r (trees state.new.items))) }
    ensures licensed { IfOk result (λ r. Licensed P.answers powers.old powers.new (trees args.items) (trees state.old.items) (length (variable_names «module».now)) (outcome r (trees state.new.items))) }
    ensures fits { IfOk result (λ r.
        FitsMeter P.answers powers.old powers.new meter (outcome r (trees state.new.items))) }
    ensures granted { FunctionsKnown (P.known powers.old) (routines «module».now) → AllHave (Within (P.known powers.old)) (trees args.items) → AllHave (Within (P.known powers.old)) (trees state.old.items) → IfOk result (λ r. Granted P.answers P.known powers.old powers.new (length (variable_names «module».now)) (outcome r (trees state.new.items))) }
    ensures spent { result ≡ Ok Outcome.Spent → state.new ≡ state.old }
    ensures memory { OnErr result (state.new ≡ state.old) }
    ensures count { length state.new.items ≡ length state.old.items }
{
    let locals = Locals::new(alloc);
    let changed = Vec::new(alloc);
    let mut machine = Machine {
        locals,
        changed,
        meter,
    };
    let values = state.as_slice();
    match invoke(
        alloc,
        powers,
        module,
        DEEPEST_CALL,
        values,
        &mut machine,
        f,
        args,
    ) {
        Ok(data) => {
            keep_changes(state, machine.changed);
            Ok(Outcome::Returned(data))
        }
        Err(stop) => match stop {
            Stop::Throws(thrown) => {
                let data = thrown.into_data(alloc)?;
                keep_changes(state, machine.changed);
                Ok(Outcome::Threw(data))
            }
            Stop::Spent => Ok(Outcome::Spent),
            Stop::NoMemory => Err(AllocError),
        },
    }
}
