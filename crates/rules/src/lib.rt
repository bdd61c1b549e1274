//! The rules of all calls of the host (ERTP, Zoe, and what contracts ask): of each its tests in
//! order, each with its refusal, then the answer and the effects on the world, and what every call
//! owes.
#![tactic(auto)]

/// What `call_arguments` gives to those above.
pub mod call_arguments_lib {
    pub mod amounts {
        pub use call_arguments::amounts::{amount, check_held, check_same, value};
    }

    pub mod exit_arguments {
        pub use call_arguments::exit_arguments::exit;
    }

    pub mod keyword_arguments {
        pub use call_arguments::keyword_arguments::{check_same, field_names};
    }

    pub mod lists {
        pub use call_arguments::lists::{amounts_of, each_object, objects_in};
    }

    pub mod numbers {
        pub use call_arguments::numbers::{NumberTest, check_apart, check_brands, least};
    }

    pub mod places {
        pub use call_arguments::places::{
            argument, copy_of, filled_list_at, function_at, keyword_at, kind_at, list_at,
            number_at, object_at, object_in, record_at, text_at,
        };
    }

    pub mod records {
        pub use call_arguments::records::{GivenShare, check_names, objects_under, shares};
    }
}

/// What `rearrange` gives to those above.
pub mod rearrange_lib {
    pub mod slot_checks {
        pub use rearrange::slot_checks::{check_fit, check_gains, check_losses, is_safe};
    }
}

pub use call_arguments::{proposals_lib, refusals_lib};
pub use rearrange::{rights_model_lib, value_tests_lib};
pub use world_state::{
    actors_lib, brands_lib, jessie_grammar_lib, promise_store_lib, turn_records_lib,
    turn_stores_lib,
};
