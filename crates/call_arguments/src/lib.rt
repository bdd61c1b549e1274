//! What calls are given (single arguments, records, lists, keywords, exit rules): each reader gives
//! what its definition reads, or the refusal that comes first.
#![tactic(auto)]

pub mod amounts;
pub mod exit_arguments;
pub mod keyword_arguments;
pub mod lists;
pub mod numbers;
pub mod places;
pub mod records;

/// What `proposals` gives to those above.
pub mod proposals_lib {
    pub mod allocations {
        pub use proposals::allocations::{Allocation, Share};
    }

    pub mod gains {
        pub use proposals::gains::{raised_slots, with_gains};
    }

    pub mod losses {
        pub use proposals::losses::lowered_slots;
    }

    pub mod offers {
        pub use proposals::offers::{Exit, Proposal};
    }

    pub mod plans {
        pub use proposals::plans::{Plan, SeatState, Touched};
    }

    pub mod slots {
        pub use proposals::slots::{amount_of, open_further};
    }
}

/// What `refusals` gives to those above.
pub mod refusals_lib {
    pub mod stops {
        pub use refusals::stops::{Stop, text_refused};
    }
}
