//! How runs are to end, and how many did.

use crate::scripts::Script;
use top_call::top::Status;

/// How a run is to end: its status, and how many bytes of the undisturbed journal it is to leave.
#[derive(Clone, Copy)]
pub struct Ending {
    pub status: Status,
    pub bytes: usize,
}

impl Ending {
    /// Nothing fails.
    pub fn undisturbed(script: &Script) -> Ending {
        Ending {
            status: Status::Done,
            bytes: script.journal.len(),
        }
    }

    /// A read fails: nothing is written, since all is read before.
    pub fn after_read() -> Ending {
        Ending {
            status: Status::ReadFault,
            bytes: 0,
        }
    }

    /// A write fails behind so many bytes.
    pub fn after_write(bytes: usize) -> Ending {
        Ending {
            status: Status::WriteFault,
            bytes,
        }
    }

    /// The sink has room for so many bytes.
    pub fn with_room(script: &Script, bytes: usize) -> Ending {
        if bytes < script.journal.len() {
            Ending::after_write(bytes)
        } else {
            Ending::undisturbed(script)
        }
    }

    /// Whether the script's run, which ended with this status and wrote this, ended so.
    pub fn is_met(self, script: &Script, status: Status, written: &[u8]) -> bool {
        status == self.status && written.len() == self.bytes && script.journal.starts_with(written)
    }
}

/// How many runs ended as told, of how many.
#[derive(Clone, Copy)]
pub struct Tally {
    pub told: u64,
    pub tried: u64,
}

impl Tally {
    /// No run was tried.
    pub fn new() -> Tally {
        Tally { told: 0, tried: 0 }
    }

    /// Counts a run.
    pub fn count(&mut self, as_told: bool) {
        self.told = self.told.saturating_add(u64::from(as_told));
        self.tried = self.tried.saturating_add(1);
    }
}
