//! The code of the calls that bring goods to a contract's seats or take them out (deposits,
//! withdrawals, burns and mints of a ZCF mint), and the table of the methods of a ZCF mint: each
//! plans what its rule says.
#![tactic(auto)]

pub mod burns;
pub mod deposits;
pub mod mints;
mod payments;
mod payouts;
mod slot_changes;
mod supply;
pub mod withdrawals;
pub mod zmint;

/// What `contract_reads` gives to those above.
pub mod contract_reads_lib {
    pub mod contract_words {
        pub mod objects {
            pub use contract_reads::contract_words::objects::{
                brand_number, check_not_local, check_timer, issuer_number,
            };
        }
    }

    pub mod keywords {
        pub use contract_reads::keywords::keyword_of;
    }
}

/// What `ertp_calls` gives to those above.
pub mod ertp_calls_lib {
    pub mod brand {
        pub use ertp_calls::brand::{brand_data, get_asset_kind};
    }

    pub mod terms {
        pub use ertp_calls::terms::terms_data;
    }
}

pub use ertp_calls::{
    call_outcomes_lib, draft_reads_lib, host_world_lib, registers_lib, world_reads_lib,
};
