ghost use Rattle.std.specs.Prelude.{◌≡◌, Some};
ghost use Rattle.scenario.specs.Messages.{name_of_reason, number_of_reason};

use std::fmt;

/// Why a line of a scenario is refused: the first check that it does not pass.
#[derive(Clone, Copy, Debug, PartialEq, Eq)]
pub enum Reason {
    /// A byte that is no newline and not between 32 and 126.
    BadByte,
    /// The last line has no newline.
    NoNewline,
    /// The first word, or a fixed word, is none that may stand there.
    UnknownWord,
    /// The line may not stand at this place.
    Misplaced,
    /// No form of the word has so many fields.
    BadCount,
    /// A field is no number.
    BadNumber,
    OutOfRange,
    BadName,
    DoubleName,
    UnknownName,
    /// A writer's metadata document is refused.
    BadDocument,
    /// The line exceeds a limit on how many of its kind there may be.
    TooMany,
    /// There is no `scenario` line.
    Empty,
}

impl Reason {
    /// Its number, 1 to 13 in the order above.
    pub fn number(self) -> u32
        ensures { result ≡ number_of_reason self }
    {
        match self {
            Reason::BadByte => 1,
            Reason::NoNewline => 2,
            Reason::UnknownWord => 3,
            Reason::Misplaced => 4,
            Reason::BadCount => 5,
            Reason::BadNumber => 6,
            Reason::OutOfRange => 7,
            Reason::BadName => 8,
            Reason::DoubleName => 9,
            Reason::UnknownName => 10,
            Reason::BadDocument => 11,
            Reason::TooMany => 12,
            Reason::Empty => 13,
        }
    }
}

impl fmt::Display for Reason {
    ghost output = { λ reason. Some (name_of_reason reason) };

    fn fmt<W: fmt::Write>(&self, f: &mut fmt::Formatter<W>) -> fmt::Result {
        f.write_str(match self {
            Reason::BadByte => "BadByte",
            Reason::NoNewline => "NoNewline",
            Reason::UnknownWord => "UnknownWord",
            Reason::Misplaced => "Misplaced",
            Reason::BadCount => "BadCount",
            Reason::BadNumber => "BadNumber",
            Reason::OutOfRange => "OutOfRange",
            Reason::BadName => "BadName",
            Reason::DoubleName => "DoubleName",
            Reason::UnknownName => "UnknownName",
            Reason::BadDocument => "BadDocument",
            Reason::TooMany => "TooMany",
            Reason::Empty => "Empty",
        })
    }
}
