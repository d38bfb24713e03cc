use crate::entry::Entry;
use crate::why::Why;
use scenario::Reason;

/// How a call ended.
#[derive(Clone, Copy, Debug, PartialEq, Eq)]
pub enum Status {
    /// The report was written.
    Done,
    /// The text is no scenario: its first bad line, and why it is refused.
    ScenarioRefused { line: u32, reason: Reason },
    /// The text is no order: its first bad line, and why it is refused.
    OrderRefused { line: u32, reason: Reason },
    /// The order begins as a report, and this line is none of a report of the scenario.
    NoReport { line: u32 },
    /// This move of the order is the first that may not come.
    MayNotCome { entry: Entry, why: Why },
    /// A write of the output failed; a first part of the report is out.
    WriteFault,
    /// A device could not be made, or could not be read for the closing lines.
    DeviceFault,
    OutOfMemory,
}
