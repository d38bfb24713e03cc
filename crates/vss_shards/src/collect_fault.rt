ghost use Rattle.std.specs.Prelude.{Some};
ghost use Rattle.vss_shards.specs.Calls.{collect_message};

use std::error::Error;
use std::fmt;

/// Why a shard was not collected. The earlier of two causes that stand together is told. Nothing changed.
#[derive(Clone, Copy, Debug, PartialEq, Eq)]
pub enum CollectFault {
    /// The shard is held for a cut already.
    Held,
    /// The shard has 512 images, or its last image has the greatest number that there is.
    Full,
    OutOfMemory,
}

impl fmt::Display for CollectFault {
    ghost output = { λ fault. Some (collect_message fault) };

    fn fmt<W: fmt::Write>(&self, f: &mut fmt::Formatter<W>) -> fmt::Result {
        f.write_str(match self {
            CollectFault::Held => "the shard is held for a cut",
            CollectFault::Full => "the shard takes no more images",
            CollectFault::OutOfMemory => "out of memory",
        })
    }
}

impl Error for CollectFault {}
