use scenario::Refused;
use std::alloc::{AllocError, AllocFailed};
use std::num::ParseIntError;
use std::{fmt, io};
use vss_names::{Failed, OutOfMemory};
use vss_play::{PlayFault, StepFault};

/// Why a trial was not made.
#[derive(Clone, Copy)]
pub enum TrialError {
    /// The words are none of this program's.
    Words,
    /// The standard input or output failed, or the input is too long.
    Streams,
    /// The input is no scenario, or none of those that are wanted.
    Scenario,
    /// A device was refused, or failed outside the moves.
    Device,
    OutOfMemory,
}

impl fmt::Display for TrialError {
    fn fmt<W: fmt::Write>(&self, f: &mut fmt::Formatter<W>) -> fmt::Result {
        match self {
            TrialError::Words => f.write_str("wrong words"),
            TrialError::Streams => f.write_str("the input or the output failed"),
            TrialError::Scenario => f.write_str("no scenario"),
            TrialError::Device => f.write_str("device fault"),
            TrialError::OutOfMemory => f.write_str("out of memory"),
        }
    }
}

impl From<ParseIntError> for TrialError {
    fn from(_: ParseIntError) -> TrialError {
        TrialError::Words
    }
}

impl From<AllocError> for TrialError {
    fn from(_: AllocError) -> TrialError {
        TrialError::OutOfMemory
    }
}

impl<T: Drop> From<AllocFailed<T>> for TrialError {
    fn from(_: AllocFailed<T>) -> TrialError {
        TrialError::OutOfMemory
    }
}

impl From<OutOfMemory> for TrialError {
    fn from(_: OutOfMemory) -> TrialError {
        TrialError::OutOfMemory
    }
}

impl From<io::Error> for TrialError {
    fn from(_: io::Error) -> TrialError {
        TrialError::Streams
    }
}

impl From<Failed> for TrialError {
    fn from(_: Failed) -> TrialError {
        TrialError::Streams
    }
}

impl From<Refused> for TrialError {
    fn from(refused: Refused) -> TrialError {
        match refused {
            Refused::Line { .. } => TrialError::Scenario,
            Refused::OutOfMemory => TrialError::OutOfMemory,
        }
    }
}

impl From<PlayFault> for TrialError {
    fn from(fault: PlayFault) -> TrialError {
        match fault {
            PlayFault::Failed => TrialError::Device,
            PlayFault::OutOfMemory => TrialError::OutOfMemory,
        }
    }
}

impl From<StepFault> for TrialError {
    fn from(_: StepFault) -> TrialError {
        TrialError::OutOfMemory
    }
}
