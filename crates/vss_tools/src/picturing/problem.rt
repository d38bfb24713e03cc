use crate::reading::Unread;
use crate::timeline::Fault;
use scenario::Reason;
use std::fmt;

/// What is wrong with a text that was given.
#[derive(Clone, Copy)]
pub enum Problem {
    /// It was not read.
    Unread(Unread),
    /// The standard input could not be read.
    ReadFault,
    /// It is no UTF-8.
    NoText,
    /// It is no scenario.
    NoScenario(Reason),
    /// A line of the report is refused.
    Refused(Fault),
}

impl Problem {
    /// The status with which the program ends; the same as those of `vss`.
    pub fn code(self) -> u8 {
        match self {
            Problem::Unread(why) => why.code(),
            Problem::ReadFault => 4,
            _ => 3,
        }
    }
}

impl fmt::Display for Problem {
    fn fmt<W: fmt::Write>(&self, f: &mut fmt::Formatter<W>) -> fmt::Result {
        f.write_str(match self {
            Problem::Unread(why) => return write!(f, "{why}"),
            Problem::NoScenario(reason) => return write!(f, "{reason}"),
            Problem::ReadFault => "could not be read to its end: is it closed, or a folder?",
            Problem::NoText => "no text: is it a report, as the program wrote it?",
            Problem::Refused(Fault::NoLine) => "no line of a report",
            Problem::Refused(Fault::UnknownName) => "a name that the scenario does not declare",
            Problem::Refused(Fault::OtherLine) =>
                "a line that the scenario does not have in this lane",
        })
    }
}
