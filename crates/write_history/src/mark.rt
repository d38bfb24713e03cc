/// Whether a device failed in a move.
#[derive(Clone, Copy, Debug, PartialEq, Eq)]
pub enum Mark {
    Clean,
    Fault,
    /// A revert had restored so many blocks when a device failed.
    FaultAfter(u32),
}
