use crate::timeline::fault::Fault;

/// The first line of a report that is refused, and why.
#[derive(Clone, Copy, PartialEq, Eq)]
pub struct Refusal {
    /// The number of the line, from 1.
    pub line: u64,
    pub fault: Fault,
}
