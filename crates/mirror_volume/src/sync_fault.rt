ghost use Rattle.std.specs.Prelude.{Some};
ghost use Rattle.mirror_volume.specs.Resync.{sync_message};

use std::error::Error;
use std::fmt;

/// Why a step of a mirror back into step with the primary was not made.
#[derive(Clone, Copy, Debug, PartialEq, Eq)]
pub enum SyncFault {
    /// The mirror holds the image of a set.
    HoldsImage { set: u32 },
    /// The primary's device or the mirror's failed.
    Volume,
}

impl fmt::Display for SyncFault {
    ghost output = { λ fault. Some (sync_message fault) };

    fn fmt<W: fmt::Write>(&self, f: &mut fmt::Formatter<W>) -> fmt::Result {
        match self {
            SyncFault::HoldsImage { set } => write!(f, "the mirror holds the image of set {set}"),
            SyncFault::Volume => f.write_str("a device failed"),
        }
    }
}

impl Error for SyncFault {}
