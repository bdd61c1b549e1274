//! What a call plans: its answer and its effects in their order, each seen as the world's effect of
//! its name.
#![tactic(auto)]

pub mod effects;
pub mod lists;
pub mod moves;
pub mod outcomes;

/// What `registers` gives to those above.
pub mod registers_lib {
    pub use registers::Registers;

    pub mod brand_makers {
        pub use registers::brand_makers::Maker;
    }

    pub mod promise_table {
        pub mod waiting {
            pub use registers::promise_table::waiting::queue_delivery;
        }
    }

    pub mod time_effects {
        pub use registers::time_effects::{Timed, deliver_at, set_time};
    }
}
