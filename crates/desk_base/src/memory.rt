//! Want of memory, the one error that no clause ties to a cause.

use std::alloc::{AllocError, AllocFailed};

/// There was not enough memory. The call has changed nothing that it was lent.
#[derive(Clone, Copy, Debug, PartialEq, Eq)]
pub struct Memory;

impl From<AllocError> for Memory {
    fn from(_: AllocError) -> Self {
        Memory
    }
}

impl<T: Drop> From<AllocFailed<T>> for Memory {
    fn from(_: AllocFailed<T>) -> Self {
        Memory
    }
}
