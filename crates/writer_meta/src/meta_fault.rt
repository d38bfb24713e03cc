ghost use Rattle.std.specs.Prelude.{◌≡◌, Some};
ghost use Rattle.writer_meta.specs.Refusal.{message_of, number_of};

use crate::field::Field;
use crate::shown::Shown;
use std::alloc::{AllocError, AllocFailed};
use std::error::Error;
use std::fmt;
use vss_names::{OutOfMemory, Text};

/// Why a text is no metadata document. The first cause in the order of the format is told.
#[derive(Debug, Drop)]
pub enum MetaFault {
    /// The text is no JSON, or nests deeper than 127 levels.
    NotJson,
    MissingField(Field),
    /// The value is not as the format says: of another type, or out of range.
    WrongKind(Field),
    /// A member that the format does not have, the least of them in byte order.
    UnknownName(Text),
    /// The first full name that an earlier component has.
    DoubleComponent(Text),
    /// More than 1,024 components.
    TooMany,
    OutOfMemory,
}

impl MetaFault {
    /// Its number, 1 to 6 in the order of the format; out of memory has none.
    pub fn number(&self) -> Option<u32>
        ensures { result ≡ number_of self.now }
    {
        match self {
            MetaFault::NotJson => Some(1),
            MetaFault::MissingField(_) => Some(2),
            MetaFault::WrongKind(_) => Some(3),
            MetaFault::UnknownName(_) => Some(4),
            MetaFault::DoubleComponent(_) => Some(5),
            MetaFault::TooMany => Some(6),
            MetaFault::OutOfMemory => None,
        }
    }
}

impl fmt::Display for MetaFault {
    ghost output = { λ fault. Some (message_of fault) };

    fn fmt<W: fmt::Write>(&self, f: &mut fmt::Formatter<W>) -> fmt::Result {
        match self {
            MetaFault::NotJson => f.write_str("no JSON"),
            MetaFault::MissingField(field) => write!(f, "`{}` is missing", field.member()),
            MetaFault::WrongKind(field) => {
                write!(f, "`{}` has a value that is not allowed", field.member())
            }
            MetaFault::UnknownName(name) => {
                let shown = Shown {
                    bytes: name.bytes(),
                };
                write!(f, "unknown member `{shown}`")
            }
            MetaFault::DoubleComponent(name) => {
                let shown = Shown {
                    bytes: name.bytes(),
                };
                write!(f, "a second component `{shown}`")
            }
            MetaFault::TooMany => f.write_str("more than 1024 components"),
            MetaFault::OutOfMemory => f.write_str("out of memory"),
        }
    }
}

impl Error for MetaFault {}

impl From<OutOfMemory> for MetaFault {
    ghost use Rattle.std.specs.Prelude.{◌≡◌};
    ghost use Rattle.writer_meta.specs.declared.meta_fault.MetaFault.TheVariants.{OutOfMemory as memory};

    ghost from_gives = { λ _ fault. fault ≡ memory };

    fn from(_error: OutOfMemory) -> MetaFault {
        MetaFault::OutOfMemory
    }
}

impl From<AllocError> for MetaFault {
    ghost use Rattle.std.specs.Prelude.{◌≡◌};
    ghost use Rattle.writer_meta.specs.declared.meta_fault.MetaFault.TheVariants.{OutOfMemory as memory};

    ghost from_gives = { λ _ fault. fault ≡ memory };

    fn from(_error: AllocError) -> MetaFault {
        MetaFault::OutOfMemory
    }
}

impl<T: Drop> From<AllocFailed<T>> for MetaFault {
    ghost use Rattle.std.specs.Prelude.{◌≡◌};
    ghost use Rattle.writer_meta.specs.declared.meta_fault.MetaFault.TheVariants.{OutOfMemory as memory};

    ghost from_gives = { λ _ fault. fault ≡ memory };

    fn from(_error: AllocFailed<T>) -> MetaFault {
        MetaFault::OutOfMemory
    }
}
