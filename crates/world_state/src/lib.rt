//! The state of the world that a turn works on, the effects that a call may have on it, what each
//! effect needs, and what holds of the world between effects.
#![tactic(auto)]

/// What `actors` gives to those above.
pub mod actors_lib {
    pub use actors::Parties;

    pub mod instance_store {
        pub use actors::instance_store::{Instances, Standing};

        pub mod facets {
            pub use actors::instance_store::facets::{Facet, Facets};
        }

        pub mod seat_promises {
            pub use actors::instance_store::seat_promises::{SeatPair, SeatPromises};
        }
    }

    pub mod paths {
        pub use actors::paths::{ResolveFault, Stands};
    }
}

/// What `turn_records` gives to those above.
pub mod turn_records_lib {
    pub mod deliveries {
        pub use turn_records::deliveries::{Delivery, Notice, Offer, Reading, Send, Start, Wakeup};
    }

    pub mod events {
        pub use turn_records::events::{Answer, Call, Cause, Event, How, Leaving, Opening, Payout};
    }

    pub mod log {
        pub use turn_records::log::Log;
    }

    pub mod messages {
        pub use turn_records::messages::{LineCall, LineGift, Part};
    }

    pub mod turn_answers {
        pub use turn_records::turn_answers::brands::brands_named;

        pub mod records {
            pub use turn_records::turn_answers::records::{Delivered, turn_of};
        }

        pub mod settlements {
            pub use turn_records::turn_answers::settlements::settlement_of;
        }
    }

    pub mod turns {
        pub use turn_records::turns::TurnRecord;
    }
}

pub use actors::{brands_lib, jessie_grammar_lib, turn_stores_lib};
pub use turn_records::promise_store_lib;
pub use vault_model::{
    amount_math_lib, ertp_mint_lib, host_data_lib, host_text_lib, proposals_lib, rights_model_lib,
};
