ghost use Rattle.std.specs.Prelude.{Some};

use std::fmt;

/// Why a backup keeps nothing. Writers are named by their numbers.
#[derive(Clone, Copy, Debug, PartialEq, Eq)]
pub enum Why {
    Cancelled,
    /// The hook of a writer has ended.
    Gone { writer: u32 },
    /// A writer did not say what it has, so its files would be read though nobody holds them.
    Unknown { writer: u32 },
    /// A writer did not stand frozen to its thaw.
    NotFrozen { writer: u32 },
    /// A thaw takes more than 60 seconds.
    LongThaw,
    /// The volumes could not be brought near their files.
    NotNear,
    /// A file could not be read whole, or be set aside.
    NotRead,
    /// A file changed while its writer was to stand still.
    Changed,
    /// The store could not keep the set.
    NotKept,
    /// The deeds so far do not allow the next one.
    NotAllowed,
    /// The set failed, as the report says.
    Failed,
}

impl Why {
    /// What is said of it, and the writer of which it is said.
    pub fn said(self) -> (&'static str, Option<u32>) {
        match self {
            Why::Cancelled => ("it was given up", None),
            Why::Gone { writer } => ("its hook has ended", Some(writer)),
            Why::Unknown { writer } => ("it did not say ok to identify", Some(writer)),
            Why::NotFrozen { writer } => ("it did not stand frozen to its thaw", Some(writer)),
            Why::LongThaw => ("a thaw takes more than 60 seconds", None),
            Why::NotNear => ("the volumes could not be brought near", None),
            Why::NotRead => ("a file could not be read whole, or be set aside", None),
            Why::Changed => ("a file changed while its writer was to stand still", None),
            Why::NotKept => ("the folder could not keep it", None),
            Why::NotAllowed => ("what was done does not allow it", None),
            Why::Failed => ("the set failed", None),
        }
    }
}
