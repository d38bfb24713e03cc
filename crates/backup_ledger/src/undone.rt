use std::alloc::{AllocError, AllocFailed};
use vss_names::OutOfMemory;

/// Why a deed was not done.
#[derive(Clone, Copy, Debug, PartialEq, Eq)]
pub enum Undone {
    /// What was done so far does not allow it.
    NotNow,
    /// The copier failed.
    Failed,
    OutOfMemory,
}

impl From<OutOfMemory> for Undone {
    fn from(_refused: OutOfMemory) -> Undone {
        Undone::OutOfMemory
    }
}

impl From<AllocError> for Undone {
    fn from(_refused: AllocError) -> Undone {
        Undone::OutOfMemory
    }
}

impl<T: Drop> From<AllocFailed<T>> for Undone {
    fn from(_refused: AllocFailed<T>) -> Undone {
        Undone::OutOfMemory
    }
}
