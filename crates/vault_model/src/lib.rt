//! What steps make of the lists of a vault, forwards and back, and what movements make together.
#![tactic(auto)]

pub mod laws;

/// What `holders` gives to those above.
pub mod holders_lib {
    pub mod payments {
        pub use holders::payments::{MakeFault, PaymentRef, Payments};
    }

    pub mod purses {
        pub use holders::purses::{OpenFault, Purses};
    }
}

/// What `proposals` gives to those above.
pub mod proposals_lib {
    pub mod allocations {
        pub use proposals::allocations::{Allocation, Share};
    }

    pub mod offers {
        pub use proposals::offers::{Exit, Proposal};
    }
}

/// What `rights_model` gives to those above.
pub mod rights_model_lib {
    pub use rights_model::{Holder, Movement, Sum};
}

pub use holders::ertp_mint_lib;
pub use proposals::host_data_lib;
pub use rights_model::{amount_math_lib, host_text_lib};

/// What is kept of a step of a turn, beside its movement, for working it backwards.
#[derive(Clone, Copy)]
pub enum Undo {
    /// A movement.
    Moves,
    /// A purse was opened.
    OpensPurse,
    /// A brand was taken in.
    AddsBrand,
    /// A seat was opened.
    OpensSeat,
    /// A further slot was opened in the seat of this number.
    OpensSlot(u32),
    /// The seat of this number was closed.
    ClosesSeat(u32),
}
