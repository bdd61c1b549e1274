//! Laws of what a delivery comes to: its effects are good, the host stays good, and the record of
//! its turn can be printed.
#![tactic(auto)]

pub mod delivery_forms;
pub mod laws;

/// What `turn_writer` gives to those above.
pub mod turn_writer_lib {
    pub use turn_writer::{WRITTEN, write_close, write_turn};

    pub mod turn_form {
        pub use turn_writer::turn_form::is_in_form;
    }
}
