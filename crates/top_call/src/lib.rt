//! All that the program does, over whatever source, sink and planner it is given: what is written is
//! the journal of what was read, its turns fair and in order, and each status has its cause.
#![tactic(auto)]

pub mod run;
pub mod top;

/// What `command_words` gives to those above.
pub mod command_words_lib {
    pub mod words {
        pub use command_words::words::{usage, word_faults};
    }
}

/// What `host_io` gives to those above.
pub mod host_io_lib {
    pub mod flaky {
        pub use host_io::flaky::{FlakySink, FlakySource};
    }

    pub mod memory {
        pub use host_io::memory::{MemorySink, MemorySource};
    }

    pub use host_io::{Sink, Source};

    pub mod std_ends {
        pub use host_io::std_ends::{StdSink, StdSource};
    }
}

pub use host_turns::{call_outcomes_lib, contract_powers_lib, host_world_lib};
