//! What a line was submitted as, and why no step is made.

/// What a line was submitted as.
#[derive(Clone, Copy, PartialEq, Eq)]
pub enum Submitted {
    /// It has spaces, tabs and carriage returns alone.
    Blank,
    /// Its delivery waits.
    Queued,
    /// At most so many deliveries are to be run at once. Nothing is changed by it.
    Run(u32),
}

/// Why no step is made.
#[derive(Clone, Copy, PartialEq, Eq)]
pub enum StepFault {
    /// The last turn that may be run was run, and a delivery is left.
    TurnLimit,
    /// Memory was wanted; nothing happened.
    NoMemory,
}
