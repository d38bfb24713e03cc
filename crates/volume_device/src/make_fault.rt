ghost use Rattle.std.specs.Prelude.{◌≡◌, Some};
ghost use Rattle.volume_device.specs.Messages.{message_of};
ghost use Rattle.volume_device.specs.declared.make_fault.MakeFault.TheVariants.{OutOfMemory};

use std::error::Error;
use std::fmt;
use vss_names::OutOfMemory;

/// Why no device was made.
#[derive(Clone, Copy, Debug, PartialEq, Eq, Hash)]
pub enum MakeFault {
    /// The maker failed, and its count of faults rose.
    Failed,
    OutOfMemory,
}

impl fmt::Display for MakeFault {
    ghost output = { λ fault. Some (message_of fault) };

    fn fmt<W: fmt::Write>(&self, f: &mut fmt::Formatter<W>) -> fmt::Result {
        match self {
            MakeFault::Failed => f.write_str("the device could not be made"),
            MakeFault::OutOfMemory => f.write_str("out of memory"),
        }
    }
}

impl Error for MakeFault {}

impl From<OutOfMemory> for MakeFault {
    ghost from_gives = { λ _ fault. fault ≡ OutOfMemory };

    fn from(_error: OutOfMemory) -> MakeFault {
        MakeFault::OutOfMemory
    }
}
