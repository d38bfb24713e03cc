use crate::in_threads::TrialError;
use std::alloc::{AllocError, AllocFailed};
use std::io;
use std::num::ParseIntError;
use vss_names::{Failed, OutOfMemory};

/// A line names no call, a call may not be made as the line has it, or one failed that the further ones rest on.
#[derive(Clone, Copy, Debug, PartialEq, Eq)]
pub struct Stopped;

/// What is left of a call once its answer is shown.
pub type Done = Result<(), Stopped>;

impl From<OutOfMemory> for Stopped {
    fn from(_: OutOfMemory) -> Stopped {
        Stopped
    }
}

impl From<AllocError> for Stopped {
    fn from(_: AllocError) -> Stopped {
        Stopped
    }
}

impl<T: Drop> From<AllocFailed<T>> for Stopped {
    fn from(_: AllocFailed<T>) -> Stopped {
        Stopped
    }
}

impl From<io::Error> for Stopped {
    fn from(_: io::Error) -> Stopped {
        Stopped
    }
}

impl From<Failed> for Stopped {
    fn from(_: Failed) -> Stopped {
        Stopped
    }
}

impl From<ParseIntError> for Stopped {
    fn from(_: ParseIntError) -> Stopped {
        Stopped
    }
}

impl From<TrialError> for Stopped {
    fn from(_: TrialError) -> Stopped {
        Stopped
    }
}
