use scenario::Reason;

/// Why a text is no order.
#[derive(Clone, Copy, Debug, PartialEq, Eq)]
pub enum OrderFault {
    /// The first bad line, counted from 1, and the first check that it does not pass.
    Line { line: u32, reason: Reason },
    /// The text begins as a report, and this line is none of a report of the scenario.
    NoReport { line: u32 },
    OutOfMemory,
}
