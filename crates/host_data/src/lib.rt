//! The data of the contract language as finished trees, what holds at each of its nodes, and values
//! and amounts as data: each call says what it reads or makes of the tree, not where that lies in
//! memory.
#![tactic(auto)]

pub mod amounts;
pub mod data;
pub mod laws;
pub mod values;

/// What `amount_math` gives to those above.
pub mod amount_math_lib {
    pub use amount_math::{
        Amount, AmountKind, BagKind, COUNT_BOUND, Entry, Holding, Key, Kind, MINTED_BOUND,
        MakeFault, NAT_BOUND, PutFault, SetKind, TooMuch, Value,
    };

    pub mod shortfall {
        pub use amount_math::shortfall::Shortfall;
    }
}

/// What `host_text` gives to those above.
pub mod host_text_lib {
    pub mod keyword {
        pub use host_text::keyword::{Keyword, KeywordFault};
    }

    pub mod label {
        pub use host_text::label::Label;
    }

    pub mod number {
        pub use host_text::number::read_number;
    }

    pub mod text {
        pub use host_text::text::Text;
    }

    pub mod word {
        pub use host_text::word::is_field_name;
    }
}
