use crate::entry::Entry;
use crate::why::Why;

/// Why the moves of an order were not all made.
#[derive(Clone, Copy, Debug, PartialEq, Eq)]
pub enum Halted {
    /// This is the first whose move may not come.
    At { entry: Entry, why: Why },
    OutOfMemory,
}
