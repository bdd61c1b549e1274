//! What is delivered, answered and told in a turn, its record, and the printed form of these: a
//! turn of texts, numbers, values and data such as rows may have is printed in form.
#![tactic(auto)]

pub mod data_rows;
pub mod deliveries;
pub mod events;
pub mod laws;
pub mod log;
pub mod messages;
pub mod turn_answers;
pub mod turns;

/// What `promise_store` gives to those above.
pub mod promise_store_lib {
    pub use promise_store::{Consequence, FollowFault, MakeFault, Promises, Settlement, State};
}

/// What `proposals` gives to those above.
pub mod proposals_lib {
    pub mod allocations {
        pub use proposals::allocations::Share;
    }

    pub mod offers {
        pub use proposals::offers::Exit;
    }
}

/// What `refusals` gives to those above.
pub mod refusals_lib {
    pub mod codes {
        pub use refusals::codes::{BareCode, Refusal, TextCode, Unkept};
    }
}

pub use refusals::host_data_lib;
pub use turn_rows::host_text_lib;
