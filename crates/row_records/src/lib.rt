//! A row of a journal in code: what it says, as it was read.
#![tactic(auto)]

pub mod rows;

/// What `turn_records` gives to those above.
pub mod turn_records_lib {
    pub mod events {
        pub use turn_records::events::{Cause, How, Payout};
    }

    pub mod proposals_lib {
        pub mod offers {
            pub use turn_records::proposals_lib::offers::Exit;
        }
    }
}

/// What `turn_rows` gives to those above.
pub mod turn_rows_lib {
    pub mod editions {
        pub use turn_rows::editions::Edition;
    }

    pub mod rights_model_lib {
        pub use turn_rows::rights_model_lib::{Holder, Sum};
    }
}

pub use turn_rows::{amount_math_lib, host_text_lib};
