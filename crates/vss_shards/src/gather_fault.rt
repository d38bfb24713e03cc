ghost use Rattle.std.specs.Prelude.{Some};
ghost use Rattle.vss_shards.specs.Calls.{gather_message};

use crate::entry::Entry;
use std::error::Error;
use std::fmt;

/// Why shards and a journal are not one whole.
#[derive(Clone, Copy, Debug, PartialEq, Eq)]
pub enum GatherFault {
    /// The first shard that is held.
    Held {
        volume: u32,
    },
    /// No shard is held, and this is the first place, in order of shards and then of entries, where a shard's list differs from the
    /// journal's entries of its volume; None for the one that has ended there.
    Differs {
        volume: u32,
        at: u32,
        listed: Option<Entry>,
        journalled: Option<Entry>,
    },
}

impl fmt::Display for GatherFault {
    ghost output = { λ fault. Some (gather_message fault) };

    fn fmt<W: fmt::Write>(&self, f: &mut fmt::Formatter<W>) -> fmt::Result {
        match self {
            GatherFault::Held { volume } => write!(f, "volume {volume} is held for a cut"),
            GatherFault::Differs { volume, at, .. } => {
                write!(f, "volume {volume} differs from the journal at entry {at}")
            }
        }
    }
}

impl Error for GatherFault {}
