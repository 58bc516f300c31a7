//! The error of a call whose request for memory was refused. Most calls that allocate return it; readers and runs have
//! a case of their own errors for it.
use std::alloc::{AllocError, AllocFailed};

/// Out of memory: a request was refused.
#[derive(Clone, Copy, Debug, PartialEq, Eq)]
pub struct OutOfMemory;

impl From<AllocError> for OutOfMemory {
    fn from(_refused: AllocError) -> OutOfMemory {
        OutOfMemory
    }
}

impl<T: Drop> From<AllocFailed<T>> for OutOfMemory {
    fn from(_refused: AllocFailed<T>) -> OutOfMemory {
        OutOfMemory
    }
}
