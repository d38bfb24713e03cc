/// Why a report tells no trail.
#[derive(Clone, Copy, Debug, PartialEq, Eq)]
pub enum ReportFault {
    /// The first line that is not of the form, counted from 1. Where each line is of the form and none ends the moves, this is
    /// the line after the last.
    BadLine(u32),
    OutOfMemory,
}
