//! Seats with their slots and what is staged (Zoe): each call gives the whole new list, a closed
//! seat keeps its last allocation, and each change has one that works it backwards without memory.
#![tactic(auto)]

mod by_instance;
pub mod seat_slots;
pub mod seats;
mod staging;

/// What `proposals` gives to those above.
pub mod proposals_lib {
    pub mod allocations {
        pub use proposals::allocations::{Allocation, MOST_SHARES};
    }

    pub mod offers {
        pub use proposals::offers::{Exit, Proposal};
    }

    pub mod plans {
        pub use proposals::plans::{Plan, SeatState};
    }
}

pub use ertp_mint::amount_math_lib;
pub use proposals::host_text_lib;
