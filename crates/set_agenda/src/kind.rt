/// Which call of the requestor an agenda carries out.
#[derive(Clone, Copy, Debug, PartialEq, Eq)]
pub enum Kind {
    /// Identify, to gather the writers' metadata.
    Gather,
    /// PrepareBackup.
    Prepare,
    /// The groups of a snapshot, from PrepareSnapshot to PostSnapshot.
    Snapshot,
    /// BackupComplete.
    Complete,
}
