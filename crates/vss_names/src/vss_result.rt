ghost use Rattle.std.specs.Prelude.{◌≡◌, Some};
ghost use Rattle.std.specs.Fmt.{padded};
ghost use Rattle.vss_names.specs.Names.{IsLookUp};
ghost use Rattle.vss_names.specs.VssResult.{name_of, vss_result_of_name};
ghost use Rattle.vss_names.specs.declared.vss_result.VssResult.TheVariants.{Writer};

use crate::writer_error::WriterError;
use std::fmt;

/// What a call of the service answers by name: codes of the SDK, the five writer errors among them.
#[derive(Clone, Copy, Debug, PartialEq, Eq, Hash)]
pub enum VssResult {
    /// The error with which a writer vetoed an order of the set.
    Writer(WriterError),
    /// The call does not fit what was called before.
    BadState,
    ObjectNotFound,
    ObjectAlreadyExists,
    UnsupportedContext,
    SnapshotSetInProgress,
    MaximumNumberOfVolumesReached,
    MaximumNumberOfSnapshotsReached,
    /// An image of the set had to go, for want of slots.
    InsufficientStorage,
    /// Writes were held for longer than is allowed.
    HoldWritesTimeout,
    /// A writer did not answer in time.
    WriterNotResponding,
    /// A device failed under the provider.
    UnexpectedProviderError,
    /// The work goes on.
    AsyncPending,
    /// The work is done.
    AsyncFinished,
    /// The work was given up.
    AsyncCancelled,
}

impl VssResult {
    /// All results.
    pub const ALL: [VssResult; 19] = [
        VssResult::Writer(WriterError::InconsistentSnapshot),
        VssResult::Writer(WriterError::OutOfResources),
        VssResult::Writer(WriterError::Timeout),
        VssResult::Writer(WriterError::Retryable),
        VssResult::Writer(WriterError::NonRetryable),
        VssResult::BadState,
        VssResult::ObjectNotFound,
        VssResult::ObjectAlreadyExists,
        VssResult::UnsupportedContext,
        VssResult::SnapshotSetInProgress,
        VssResult::MaximumNumberOfVolumesReached,
        VssResult::MaximumNumberOfSnapshotsReached,
        VssResult::InsufficientStorage,
        VssResult::HoldWritesTimeout,
        VssResult::WriterNotResponding,
        VssResult::UnexpectedProviderError,
        VssResult::AsyncPending,
        VssResult::AsyncFinished,
        VssResult::AsyncCancelled,
    ];

    /// The SDK's name.
    pub fn name(self) -> &'static str
        ensures { result.now ≡ name_of self }
    {
        match self {
            VssResult::Writer(error) => error.name(),
            VssResult::BadState => "VSS_E_BAD_STATE",
            VssResult::ObjectNotFound => "VSS_E_OBJECT_NOT_FOUND",
            VssResult::ObjectAlreadyExists => "VSS_E_OBJECT_ALREADY_EXISTS",
            VssResult::UnsupportedContext => "VSS_E_UNSUPPORTED_CONTEXT",
            VssResult::SnapshotSetInProgress => "VSS_E_SNAPSHOT_SET_IN_PROGRESS",
            VssResult::MaximumNumberOfVolumesReached => "VSS_E_MAXIMUM_NUMBER_OF_VOLUMES_REACHED",
            VssResult::MaximumNumberOfSnapshotsReached =>
                "VSS_E_MAXIMUM_NUMBER_OF_SNAPSHOTS_REACHED",
            VssResult::InsufficientStorage => "VSS_E_INSUFFICIENT_STORAGE",
            VssResult::HoldWritesTimeout => "VSS_E_HOLD_WRITES_TIMEOUT",
            VssResult::WriterNotResponding => "VSS_E_WRITER_NOT_RESPONDING",
            VssResult::UnexpectedProviderError => "VSS_E_UNEXPECTED_PROVIDER_ERROR",
            VssResult::AsyncPending => "VSS_S_ASYNC_PENDING",
            VssResult::AsyncFinished => "VSS_S_ASYNC_FINISHED",
            VssResult::AsyncCancelled => "VSS_S_ASYNC_CANCELLED",
        }
    }

    /// The result with this name, if there is one.
    pub fn of_name(name: &[u8]) -> Option<VssResult>
        ensures value { result ≡ vss_result_of_name name.now }
        ensures row { IsLookUp name_of name.now result }
    {
        VssResult::ALL
            .iter()
            .find(|vss_result| vss_result.name().as_bytes() == name)
            .copied()
    }
}

/// Writes the name.
impl fmt::Display for VssResult {
    ghost output = { λ vss_result. Some (name_of vss_result) };

    ghost styled_output = { λ vss_result spec. Some (padded spec (name_of vss_result)) };

    fn fmt<W: fmt::Write>(&self, f: &mut fmt::Formatter<W>) -> fmt::Result {
        f.pad(self.name())
    }
}

/// A veto of a writer as the result of its set.
impl From<WriterError> for VssResult {
    ghost from_gives = { λ code vss_result. vss_result ≡ Writer code };

    fn from(code: WriterError) -> VssResult {
        VssResult::Writer(code)
    }
}
