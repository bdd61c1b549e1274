//! Laws of a whole run on an input: what lines make of the first host, turns first in first out,
//! hosts that stay good, turns that are fair, and supply that rises only by a call that is shown.
#![tactic(auto)]

pub mod fair_run_laws;
pub mod good_runs;
pub mod host_runs;
pub mod line_laws;
pub mod run_licences;

/// What `message_lines` gives to those above.
pub mod message_lines_lib {
    pub mod lines {
        pub use message_lines::lines::{Lines, MAX_INPUT, has_long_line};
    }

    pub mod messages {
        pub use message_lines::messages::{Line, read_line};
    }
}

pub use licence_laws::turn_writer_lib;
