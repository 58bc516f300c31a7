//! What there is instead of a job: a text that was asked for, or an error. `main` prints it.
use std::alloc::AllocError;

/// Why arguments give no job.
#[derive(Debug, PartialEq, Eq, Drop)]
pub enum WordsFault {
    /// They ask for this text: the help, or the version.
    Shown(String),
    /// They are a usage error, reported by this text.
    Bad(String),
    /// Out of memory.
    Memory,
}

impl From<AllocError> for WordsFault {
    fn from(_error: AllocError) -> WordsFault {
        WordsFault::Memory
    }
}
