//! The want of memory, as an error.
use std::alloc::{AllocError, AllocFailed};
use thiserror::Error;

/// Memory ran out. It is the one refusal that any growth may give, and it says nothing else.
#[derive(Clone, Copy, Debug, Error)]
#[error("out of memory")]
pub struct Memory;

impl From<AllocError> for Memory {
    fn from(_e: AllocError) -> Memory {
        Memory
    }
}

impl<T: Drop> From<AllocFailed<T>> for Memory {
    fn from(_e: AllocFailed<T>) -> Memory {
        Memory
    }
}
