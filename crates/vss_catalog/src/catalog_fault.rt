ghost use Rattle.std.specs.Prelude.{Some};
ghost use Rattle.vss_catalog.specs.Reading.{message_of};

use std::alloc::{AllocError, AllocFailed};
use std::error::Error;
use std::fmt;
use vss_names::OutOfMemory;

/// Why bytes are no catalog: the digest comes first, and then the first field that is not of the format, where volumes are
/// counted from 0 and `at` is the place of the first byte of the field.
#[derive(Clone, Copy, Debug, PartialEq, Eq)]
pub enum CatalogFault {
    /// There are fewer than 32 bytes, or the last 32 are not the SHA-256 of those before.
    Digest,
    /// The bytes do not begin with the eight letters.
    Magic,
    /// The number of volumes is out of range.
    Volumes { found: u32 },
    /// A field is cut off.
    Short { at: u32 },
    /// The name of this volume is none, or its length is out of range.
    Name { volume: u32 },
    /// The number of blocks of this volume is out of range.
    Blocks { volume: u32, found: u32 },
    /// The number of images of this volume is out of range.
    Images { volume: u32, found: u32 },
    /// A set of this volume is not above the one before it, or the first is not above 0.
    Order { volume: u32, at: u32 },
    /// Bytes are left before the digest.
    Rest { at: u32 },
    /// Memory was refused.
    OutOfMemory,
}

impl fmt::Display for CatalogFault {
    ghost output = { λ fault. Some (message_of fault) };

    fn fmt<W: fmt::Write>(&self, f: &mut fmt::Formatter<W>) -> fmt::Result {
        match self {
            CatalogFault::Digest => f.write_str("the digest is another"),
            CatalogFault::Magic => f.write_str("no catalog"),
            CatalogFault::Volumes { found } => write!(f, "{found} volumes"),
            CatalogFault::Short { at } => write!(f, "cut off at byte {at}"),
            CatalogFault::Name { volume } => write!(f, "volume {volume} has no name"),
            CatalogFault::Blocks { volume, found } => {
                write!(f, "volume {volume} has {found} blocks")
            }
            CatalogFault::Images { volume, found } => {
                write!(f, "volume {volume} has {found} images")
            }
            CatalogFault::Order { volume, at } => { write!(f, "volume {volume} at {at} falls") }
            CatalogFault::Rest { at } => write!(f, "more bytes at byte {at}"),
            CatalogFault::OutOfMemory => f.write_str("out of memory"),
        }
    }
}

impl Error for CatalogFault {}

impl From<OutOfMemory> for CatalogFault {
    ghost use Rattle.std.specs.Prelude.{◌≡◌};
    ghost use Rattle.vss_catalog.specs.declared.catalog_fault.CatalogFault.TheVariants.{OutOfMemory as memory};

    ghost from_gives = { λ _ fault. fault ≡ memory };

    fn from(_error: OutOfMemory) -> CatalogFault {
        CatalogFault::OutOfMemory
    }
}

impl From<AllocError> for CatalogFault {
    ghost use Rattle.std.specs.Prelude.{◌≡◌};
    ghost use Rattle.vss_catalog.specs.declared.catalog_fault.CatalogFault.TheVariants.{OutOfMemory as memory};

    ghost from_gives = { λ _ fault. fault ≡ memory };

    fn from(_error: AllocError) -> CatalogFault {
        CatalogFault::OutOfMemory
    }
}

impl<T: Drop> From<AllocFailed<T>> for CatalogFault {
    ghost use Rattle.std.specs.Prelude.{◌≡◌};
    ghost use Rattle.vss_catalog.specs.declared.catalog_fault.CatalogFault.TheVariants.{OutOfMemory as memory};

    ghost from_gives = { λ _ fault. fault ≡ memory };

    fn from(_error: AllocFailed<T>) -> CatalogFault {
        CatalogFault::OutOfMemory
    }
}
