//! Why no row was read.

use std::alloc::AllocError;

/// Why no row was read.
#[derive(Clone, Copy, PartialEq, Eq)]
pub enum RowFault {
    /// The bytes are no row in form.
    BadRow,
    NoMemory,
}

impl From<AllocError> for RowFault {
    ghost use Rattle.std.specs.Prelude.{◌≡◌};
    ghost use Rattle.row_reader.specs.declared.fault.RowFault.TheVariants.{NoMemory};

    ghost from_gives = { λ _ fault. fault ≡ NoMemory };

    fn from(_error: AllocError) -> RowFault {
        RowFault::NoMemory
    }
}
