//! What keeps an evaluation from coming to a value.
ghost use Rattle.std.specs.Prelude.{◌≡◌, IfOk};
ghost use Rattle.jessie_semantics.specs.host_data.View.{tree};
ghost use Rattle.jessie_index.specs.jessie_values.Reasons.{bad_step};
ghost use Rattle.jessie_semantics.specs.Runs.{throws};
ghost use Rattle.jessie_machine.specs.Stops.{IsThrown, fault_halt, halt, thrown_tree};
ghost use Rattle.jessie_machine.specs.declared.stop.Stop.TheVariants.{NoMemory};

use jessie_index::jessie_values_lib::reasons::{Reason, ValueFault};
use jessie_semantics::host_data_lib::data::Data;
use sqlite_items::Boxed;
use std::alloc::{AllocError, AllocFailed, Global};

/// What is thrown. A bad step is made into data only where it is caught. Data lies apart, so that a result
/// takes little room where nothing is thrown.
#[derive(Drop)]
pub enum Thrown {
    Data(Boxed<Data>),
    BadStep(Reason),
}

/// Why an evaluation doesn't go on.
#[derive(Drop)]
pub enum Stop {
    Throws(Thrown),
    /// The meter doesn't have the next charge.
    Spent,
    NoMemory,
}

impl From<AllocError> for Stop {
    ghost from_gives = { λ _ stop. stop ≡ NoMemory };

    fn from(_error: AllocError) -> Stop {
        Stop::NoMemory
    }
}

impl<T: Drop> From<AllocFailed<T>> for Stop {
    ghost from_gives = { λ _ stop. stop ≡ NoMemory };

    fn from(_error: AllocFailed<T>) -> Stop {
        Stop::NoMemory
    }
}

/// That of data that is thrown.
#[inline(never)]
pub fn throw_data(alloc: Global, data: Data) -> Stop
    ensures { IsThrown (tree «data») (halt result) }
{
    match Boxed::new(alloc, data) {
        Ok(data) => Stop::Throws(Thrown::Data(data)),
        Err(_) => Stop::NoMemory,
    }
}

/// That of a bad step.
pub fn bad(reason: Reason) -> Stop
    ensures { halt result ≡ throws (bad_step reason) }
{
    Stop::Throws(Thrown::BadStep(reason))
}

/// That of a function of values that gave no value.
pub fn fault_stop(fault: ValueFault) -> Stop
    ensures { halt result ≡ fault_halt fault }
{
    match fault {
        ValueFault::NoMemory => Stop::NoMemory,
        ValueFault::BadStep(reason) => bad(reason),
    }
}

impl Thrown {
    /// The data that is thrown.
    pub fn into_data(self, alloc: Global) -> Result<Data, AllocError>
        ensures { IfOk result (λ made. tree made ≡ thrown_tree self) }
    {
        match self {
            Thrown::Data(data) => Ok(data.into_inner()),
            Thrown::BadStep(reason) => reason.data(alloc),
        }
    }
}
