ghost use Rattle.std.specs.Prelude.{◌≡◌, Some};
ghost use Rattle.std.specs.Fmt.{padded};
ghost use Rattle.vss_names.specs.Names.{IsLookUp};
ghost use Rattle.vss_names.specs.WriterState.{number_of, name_of, state_of_number, state_of_name};

use std::fmt;

/// What a writer is doing, as a requestor is told it: the SDK's `VSS_WRITER_STATE`.
#[derive(Clone, Copy, Debug, PartialEq, Eq, Hash)]
pub enum WriterState {
    /// Nothing is known of the writer yet.
    Unknown,
    /// The writer is at rest.
    Stable,
    /// It has prepared for the snapshot.
    WaitingForFreeze,
    /// It is frozen.
    WaitingForThaw,
    /// It is thawed again.
    WaitingForPostSnapshot,
    /// The snapshot is made; the backup goes on.
    WaitingForBackupComplete,
    FailedAtIdentify,
    FailedAtPrepareBackup,
    FailedAtPrepareSnapshot,
    FailedAtFreeze,
    FailedAtThaw,
    FailedAtPostSnapshot,
    FailedAtBackupComplete,
    FailedAtPreRestore,
    FailedAtPostRestore,
    FailedAtBackupShutdown,
}

impl WriterState {
    /// All states, in the order of their numbers.
    pub const ALL: [WriterState; 16] = [
        WriterState::Unknown,
        WriterState::Stable,
        WriterState::WaitingForFreeze,
        WriterState::WaitingForThaw,
        WriterState::WaitingForPostSnapshot,
        WriterState::WaitingForBackupComplete,
        WriterState::FailedAtIdentify,
        WriterState::FailedAtPrepareBackup,
        WriterState::FailedAtPrepareSnapshot,
        WriterState::FailedAtFreeze,
        WriterState::FailedAtThaw,
        WriterState::FailedAtPostSnapshot,
        WriterState::FailedAtBackupComplete,
        WriterState::FailedAtPreRestore,
        WriterState::FailedAtPostRestore,
        WriterState::FailedAtBackupShutdown,
    ];

    /// The SDK's number.
    pub fn number(self) -> u32
        ensures { result ≡ number_of self }
    {
        match self {
            WriterState::Unknown => 0,
            WriterState::Stable => 1,
            WriterState::WaitingForFreeze => 2,
            WriterState::WaitingForThaw => 3,
            WriterState::WaitingForPostSnapshot => 4,
            WriterState::WaitingForBackupComplete => 5,
            WriterState::FailedAtIdentify => 6,
            WriterState::FailedAtPrepareBackup => 7,
            WriterState::FailedAtPrepareSnapshot => 8,
            WriterState::FailedAtFreeze => 9,
            WriterState::FailedAtThaw => 10,
            WriterState::FailedAtPostSnapshot => 11,
            WriterState::FailedAtBackupComplete => 12,
            WriterState::FailedAtPreRestore => 13,
            WriterState::FailedAtPostRestore => 14,
            WriterState::FailedAtBackupShutdown => 15,
        }
    }

    /// The state with this number, if there is one.
    pub fn of_number(number: u32) -> Option<WriterState>
        ensures value { result ≡ state_of_number number }
        ensures row { IsLookUp number_of number result }
    {
        WriterState::ALL
            .iter()
            .find(|state| state.number() == number)
            .copied()
    }

    /// The SDK's name.
    pub fn name(self) -> &'static str
        ensures { result.now ≡ name_of self }
    {
        match self {
            WriterState::Unknown => "VSS_WS_UNKNOWN",
            WriterState::Stable => "VSS_WS_STABLE",
            WriterState::WaitingForFreeze => "VSS_WS_WAITING_FOR_FREEZE",
            WriterState::WaitingForThaw => "VSS_WS_WAITING_FOR_THAW",
            WriterState::WaitingForPostSnapshot => "VSS_WS_WAITING_FOR_POST_SNAPSHOT",
            WriterState::WaitingForBackupComplete => "VSS_WS_WAITING_FOR_BACKUP_COMPLETE",
            WriterState::FailedAtIdentify => "VSS_WS_FAILED_AT_IDENTIFY",
            WriterState::FailedAtPrepareBackup => "VSS_WS_FAILED_AT_PREPARE_BACKUP",
            WriterState::FailedAtPrepareSnapshot => "VSS_WS_FAILED_AT_PREPARE_SNAPSHOT",
            WriterState::FailedAtFreeze => "VSS_WS_FAILED_AT_FREEZE",
            WriterState::FailedAtThaw => "VSS_WS_FAILED_AT_THAW",
            WriterState::FailedAtPostSnapshot => "VSS_WS_FAILED_AT_POST_SNAPSHOT",
            WriterState::FailedAtBackupComplete => "VSS_WS_FAILED_AT_BACKUP_COMPLETE",
            WriterState::FailedAtPreRestore => "VSS_WS_FAILED_AT_PRE_RESTORE",
            WriterState::FailedAtPostRestore => "VSS_WS_FAILED_AT_POST_RESTORE",
            WriterState::FailedAtBackupShutdown => "VSS_WS_FAILED_AT_BACKUPSHUTDOWN",
        }
    }

    /// The state with this name, if there is one.
    pub fn of_name(name: &[u8]) -> Option<WriterState>
        ensures value { result ≡ state_of_name name.now }
        ensures row { IsLookUp name_of name.now result }
    {
        WriterState::ALL
            .iter()
            .find(|state| state.name().as_bytes() == name)
            .copied()
    }
}

/// Writes the name.
impl fmt::Display for WriterState {
    ghost output = { λ state. Some (name_of state) };

    ghost styled_output = { λ state spec. Some (padded spec (name_of state)) };

    fn fmt<W: fmt::Write>(&self, f: &mut fmt::Formatter<W>) -> fmt::Result {
        f.pad(self.name())
    }
}
