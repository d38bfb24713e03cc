ghost use Rattle.std.specs.Prelude.{Some};
ghost use Rattle.vss_shards.specs.Calls.{record_message};

use std::error::Error;
use std::fmt;

/// Why a cut was not recorded. The earlier of two causes that stand together is told. Nothing changed.
#[derive(Clone, Copy, Debug, PartialEq, Eq)]
pub enum RecordFault {
    /// The journal has 65,536 cuts.
    Full,
    /// The first part whose count is not the journal's number of entries of its volume.
    Differs {
        volume: u32,
        /// How many entries the volume's list has.
        listed: u32,
        /// How many entries of the volume the journal has.
        journalled: u32,
    },
    OutOfMemory,
}

impl fmt::Display for RecordFault {
    ghost output = { λ fault. Some (record_message fault) };

    fn fmt<W: fmt::Write>(&self, f: &mut fmt::Formatter<W>) -> fmt::Result {
        match self {
            RecordFault::Full => f.write_str("the journal takes no more cuts"),
            RecordFault::Differs {
                volume,
                listed,
                journalled,
            } => {
                write!(
                    f,
                    "volume {volume} lists {listed} entries, the journal {journalled}"
                )
            }
            RecordFault::OutOfMemory => f.write_str("out of memory"),
        }
    }
}

impl Error for RecordFault {}
