//! Why a case is not tried.
use plain_data::Memory;
use std::alloc::{AllocError, AllocFailed};

/// Why a case is not tried.
#[derive(Clone, Copy)]
pub enum Fault {
    /// Memory ran out.
    Memory,
    /// The text is no case, for this reason.
    Unread(&'static str),
}

impl From<AllocError> for Fault {
    fn from(_e: AllocError) -> Fault {
        Fault::Memory
    }
}

impl<T: Drop> From<AllocFailed<T>> for Fault {
    fn from(_e: AllocFailed<T>) -> Fault {
        Fault::Memory
    }
}

impl From<Memory> for Fault {
    fn from(_e: Memory) -> Fault {
        Fault::Memory
    }
}
