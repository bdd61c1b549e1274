//! What the code of calls reads of the world in common: what an instance may name, records as data,
//! the numbers of what is made next, and the plan of one movement.
#![tactic(auto)]

pub mod given;
pub mod known_data;
pub mod moves;
pub mod record_data;
pub mod words;

/// What `call_outcomes` gives to those above.
pub mod call_outcomes_lib {
    pub mod effects {
        pub use call_outcomes::effects::{
            Asking, Effect, InstancesEffect, LabelsEffect, Offering, PromisesEffect, RightsEffect,
            SeatsEffect, Sending, Starting,
        };
    }

    pub mod lists {
        pub use call_outcomes::lists::Effects;
    }

    pub mod moves {
        pub use call_outcomes::moves::Moves;
    }

    pub mod outcomes {
        pub use call_outcomes::outcomes::{CallOutcome, outcome_of_reading};
    }
}

/// What `host_world` gives to those above.
pub mod host_world_lib {
    pub use host_world::{Ledger, World};
}

pub use call_outcomes::registers_lib;
pub use host_world::{draft_reads_lib, escrow_lib, vault_lib};
