//! Why lines and calls are refused: the table of codes with what each shows, as plain data, and the
//! steps of the work on a call that a refusal ends.
#![tactic(auto)]

pub mod codes;
pub mod copies;
pub mod faults;
pub mod laws;
pub mod shown;
pub mod stops;

/// What `host_data` gives to those above.
pub mod host_data_lib {
    pub mod amounts {
        pub use host_data::amounts::{GivenAmount, amount_fields, read_value};
    }

    pub mod data {
        pub use host_data::data::{Data, Obj, ObjKind, copy_items, pay, pay_items, some_local};
    }

    pub mod values {
        pub use host_data::values::{amount_data, object_data, value_data};
    }
}

pub use host_data::{amount_math_lib, host_text_lib};
