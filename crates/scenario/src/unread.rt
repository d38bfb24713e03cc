ghost use Rattle.std.specs.Prelude.{◌≡◌};
ghost use Rattle.scenario.specs.declared.unread.Unread.TheVariants as unread;

use crate::cause::Cause;

/// Why a line is not taken.
#[derive(Clone, Copy)]
pub(crate) enum Unread {
    /// The first check that it does not pass.
    Bad(Cause),
    OutOfMemory,
}

impl From<Cause> for Unread {
    ghost from_gives = { λ cause it. it ≡ unread.Bad cause };

    fn from(cause: Cause) -> Unread {
        Unread::Bad(cause)
    }
}
