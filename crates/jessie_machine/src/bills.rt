//! What a call of the host costs that is shown the first of some arguments.
ghost use Rattle.std.specs.Prelude.{◌≡◌, ◌≤◌, List, ℕ, take};
ghost use Rattle.jessie_semantics.specs.host_data.Tree.{Tree};
ghost use Rattle.jessie_semantics.specs.host_data.View.{trees};
ghost use Rattle.jessie_semantics.specs.Actions.{charge};
ghost use Rattle.jessie_semantics.specs.Runs.{Computes};
ghost use Rattle.jessie_machine.specs.Stops.{come};
ghost use Rattle.jessie_machine.specs.Machine.{state};
ghost use Rattle.jessie_machine.specs.Bills.{bill, left_after, Covers};

use crate::machine::Machine;
use crate::stop::Stop;
use jessie_semantics::host_data_lib::data::{Data, pay_items};

/// What a call of the host costs beside the sizes of what it is shown.
const CALL: u64 = 100;

/// The most arguments that `when` and `Far` show the host.
const SHOWN: usize = 3;

/// The arguments that the host is shown.
fn shown_arguments(args: &[Data]) -> &[Data]
    ensures { result.now ≡ take 3 args.now }
{
    if args.len() <= SHOWN {
        args
    } else {
        &args[..SHOWN]
    }
}

/// What is left of a meter after the bill of a call with these arguments, where it is enough.
pub fn left_after(meter: u64, args: &[Data]) -> Option<u64>
    ensures { result ≡ left_after (bill (trees args.now)) meter }
{
    if meter < CALL {
        return None;
    }
    pay_items(meter - CALL, shown_arguments(args))
}

/// Takes a bill off the meter, of which it is known what it leaves.
#[tactic(auto, unfolding(jessie_semantics::specs::Actions::charge))]
pub fn pay_bill(machine: &mut Machine, left: Option<u64>) -> Result<(), Stop>
    ensures does { (names : List (List ℕ)) (values : List Tree) (n : ℕ) → left ≡ left_after n machine.old.meter → Computes (charge n) (state names values machine.old) (come (λ u. u) result) (state names values machine.new) }
    ensures left { (n : ℕ) → left ≡ left_after n machine.old.meter → Covers result n machine.old.meter machine.new.meter }
    ensures kept { (n : ℕ) → left ≡ left_after n machine.old.meter → machine.new.meter ≤ machine.old.meter }
{
    match left {
        None => Err(Stop::Spent),
        Some(left) => {
            machine.meter = left;
            Ok(())
        }
    }
}
