ghost use Rattle.std.specs.Prelude.{Some};
ghost use Rattle.coordinator.specs.Coordinator.{message_of};

use std::error::Error;
use std::fmt;
use vss_names::OutOfMemory;

/// Why a writer is not registered. Nothing has changed.
#[derive(Clone, Copy, Debug, PartialEq, Eq)]
pub enum RegisterFault {
    /// A writer of this name is registered already, with this number.
    Double { at: u32 },
    OutOfMemory,
}

impl From<OutOfMemory> for RegisterFault {
    ghost use Rattle.std.specs.Prelude.{◌≡◌};
    ghost use Rattle.coordinator.specs.declared.register_fault.RegisterFault.TheVariants.{OutOfMemory as memory};

    ghost from_gives = { λ _ fault. fault ≡ memory };

    fn from(_error: OutOfMemory) -> RegisterFault {
        RegisterFault::OutOfMemory
    }
}

impl fmt::Display for RegisterFault {
    ghost output = { λ fault. Some (message_of fault) };

    fn fmt<W: fmt::Write>(&self, f: &mut fmt::Formatter<W>) -> fmt::Result {
        match self {
            RegisterFault::Double { at: _ } => f.write_str("a writer of this name is registered"),
            RegisterFault::OutOfMemory => f.write_str("out of memory"),
        }
    }
}

impl Error for RegisterFault {}
