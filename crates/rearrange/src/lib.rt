//! Changes of several seats' allocations, planned before anything is carried out (Zoe): a plan
//! keeps what the seats have together and leaves each offer safe, or the first test that fails
//! refuses it.
#![tactic(auto)]

mod differences;
pub mod laws;
mod listed;
mod parts;
pub mod plan_refusals;
pub mod plans;
pub mod safety;
pub mod seat_states;
pub mod seats;
pub mod settled;
pub mod slot_checks;
pub mod staged;
pub mod sums;

/// What `rights_model` gives to those above.
pub mod rights_model_lib {
    pub use rights_model::{Holder, Movement};
}

/// What `value_tests` gives to those above.
pub mod value_tests_lib {
    pub mod holding_checks {
        pub use value_tests::holding_checks::{check_has, check_out, check_sum};
    }

    pub mod pairs {
        pub use value_tests::pairs::check_has;
    }

    pub mod value_differences {
        pub use value_tests::value_differences::difference;
    }

    pub mod value_sums {
        pub use value_tests::value_sums::whole_sum;
    }

    pub mod wholes {
        pub use value_tests::wholes::check_all_out;
    }
}

pub use value_tests::ertp_mint_lib;
