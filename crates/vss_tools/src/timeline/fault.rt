/// Why a line of a report is refused.
#[derive(Clone, Copy, PartialEq, Eq)]
pub enum Fault {
    /// No report has such a line.
    NoLine,
    /// It has a name that the scenario does not declare.
    UnknownName,
    /// It is the move of a lane, by a line that the scenario does not have in that lane.
    OtherLine,
}
