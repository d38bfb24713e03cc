use super::bad::Bad;
use crate::reading::WRITE_FAULT;
use crate::timeline::Span;
use std::fmt;

/// How the program ended.
#[derive(Clone, Copy)]
pub enum Status<'a> {
    /// The picture was written.
    Done,
    /// The words ask for nothing that it does.
    Usage,
    /// The words ask for moves of which there are none: the report has so many.
    NoMoves { span: Span, moves: u64 },
    WriteFault,
    OutOfMemory,
    /// A text that was given has no picture; nothing was written.
    Bad(Bad<'a>),
}

impl Status<'_> {
    /// The status with which the program ends; the same as those of `vss`.
    pub fn code(self) -> u8 {
        match self {
            Status::Done => 0,
            Status::Usage | Status::NoMoves { .. } => 2,
            Status::WriteFault => 5,
            Status::OutOfMemory => 7,
            Status::Bad(bad) => bad.problem.code(),
        }
    }

    /// Whether the picture was written.
    pub fn is_done(self) -> bool {
        matches!(self, Status::Done)
    }
}

impl fmt::Display for Status<'_> {
    fn fmt<W: fmt::Write>(&self, f: &mut fmt::Formatter<W>) -> fmt::Result {
        match self {
            Status::Done => f.write_str("done"),
            Status::Usage => {
                f.write_str(
                    "usage: timeline [--text] [--clock] [--overview] [--from N] [--to N] [SCENARIO REPORT]",
                )
            }
            Status::NoMoves { span, moves } if *moves < span.from => {
                write!(f, "--from {}: the report has {moves} moves", span.from)
            }
            Status::NoMoves { span, .. } => {
                write!(
                    f,
                    "--from {} --to {}: the first is above the last",
                    span.from, span.to
                )
            }
            Status::WriteFault => f.write_str(WRITE_FAULT),
            Status::OutOfMemory => f.write_str("out of memory"),
            Status::Bad(bad) => write!(f, "{bad}"),
        }
    }
}
