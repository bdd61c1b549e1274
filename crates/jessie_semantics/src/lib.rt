//! The rules of evaluation of the contract language, AmountMath as its functions answer, and the
//! laws of these rules.
#![tactic(auto)]

pub mod amount_arguments;
pub mod functions;
pub mod laws;
mod worths;

/// What `host_data` gives to those above.
pub mod host_data_lib {
    pub mod data {
        pub use host_data::data::{Data, Obj, ObjKind, pay, pay_bytes, pay_items};
    }
}

/// What `jessie_values` gives to those above.
pub mod jessie_values_lib {
    pub mod accesses {
        pub use jessie_values::accesses::{field_at, index_at, list_items};
    }

    pub mod built_ins {
        pub use jessie_values::built_ins::{harden, keys, len, push, put};
    }

    pub mod dispatch {
        pub use jessie_values::dispatch::{operate, skips, unary};
    }

    pub mod literals {
        pub use jessie_values::literals::{constant_data, literal_data};
    }

    pub mod operators {
        pub use jessie_values::operators::truth;
    }

    pub mod reasons {
        pub use jessie_values::reasons::{Reason, ValueFault};
    }

    pub mod records {
        pub use jessie_values::records::{array_data, record_data};
    }

    pub mod requests {
        pub use jessie_values::requests::{FarArguments, WhenArguments, far_call, when_call};
    }
}

/// What `refusals` gives to those above.
pub mod refusals_lib {
    pub mod stops {
        pub use refusals::stops::Stop;
    }
}

pub use host_data::{amount_math_lib, host_text_lib};
pub use jessie_values::jessie_grammar_lib;
