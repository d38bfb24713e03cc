use crate::entry::Entry;
use crate::why::Why;

/// Why a run has no report.
#[derive(Clone, Copy, Debug, PartialEq, Eq)]
pub enum Unplayed {
    /// This move of its order is the first that may not come.
    Halted { entry: Entry, why: Why },
    /// The maker or a device failed, and its count of faults rose.
    Failed,
    OutOfMemory,
}
