ghost use Rattle.std.specs.Prelude.{Some};
ghost use Rattle.vss_shards.specs.Calls.{shard_message};

use std::error::Error;
use std::fmt;

/// Why a shard was not written. The earlier of two causes that stand together is told. The list and the journal are as they were; the
/// images that went for a write whose device failed are gone all the same.
#[derive(Clone, Copy, Debug, PartialEq, Eq)]
pub enum ShardFault {
    /// The shard is held for a cut.
    Held,
    /// The volume has no such block.
    NoSuchBlock,
    /// The shard's list or the journal has 1,048,576 entries.
    Full,
    OutOfMemory,
    /// The volume's device failed, and its count of faults rose.
    Volume,
    /// The diff area's device failed, and its count of faults rose.
    Area,
}

impl fmt::Display for ShardFault {
    ghost output = { λ fault. Some (shard_message fault) };

    fn fmt<W: fmt::Write>(&self, f: &mut fmt::Formatter<W>) -> fmt::Result {
        f.write_str(match self {
            ShardFault::Held => "the shard is held for a cut",
            ShardFault::NoSuchBlock => "no such block",
            ShardFault::Full => "the shard or the journal takes no more entries",
            ShardFault::OutOfMemory => "out of memory",
            ShardFault::Volume => "the volume's device failed",
            ShardFault::Area => "the diff area's device failed",
        })
    }
}

impl Error for ShardFault {}
