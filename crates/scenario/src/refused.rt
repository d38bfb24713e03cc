ghost use Rattle.std.specs.Prelude.{Bool, Some};
ghost use Rattle.scenario.specs.Messages.{message_of_refused};
ghost use Rattle.scenario.specs.Grammar.{Reading, IsRefused, IsUnreadAt};

use crate::reason::Reason;
use crate::unread::Unread;
use std::error::Error;
use std::fmt;

/// Why a text is no scenario.
#[derive(Clone, Copy, Debug, PartialEq, Eq)]
pub enum Refused {
    /// The first bad line, counted from 1, and the first check that it does not pass. Where no line is bad and there
    /// is no `scenario` line, this is the line after the last.
    Line { line: u32, reason: Reason },
    OutOfMemory,
}

impl Refused {
    /// Why a text is refused whose line of this number was not taken.
    pub(crate) fn at(line: u32, unread: Unread) -> Refused
        ensures { (reading : Reading) → (taken : Bool) →
            IsUnreadAt line reading taken unread → IsRefused reading taken result }
    {
        match unread {
            Unread::Bad(cause) => Refused::Line {
                line,
                reason: cause.reason,
            },
            Unread::OutOfMemory => Refused::OutOfMemory,
        }
    }
}

impl fmt::Display for Refused {
    ghost output = { λ refused. Some (message_of_refused refused) };

    fn fmt<W: fmt::Write>(&self, f: &mut fmt::Formatter<W>) -> fmt::Result {
        match self {
            Refused::Line { line, reason } => write!(f, "line {line}: {reason}"),
            Refused::OutOfMemory => f.write_str("out of memory"),
        }
    }
}

impl Error for Refused {}
