ghost use Rattle.std.specs.Prelude.{Some};
ghost use Rattle.vss_recover.specs.Calls.{open_message};

use std::error::Error;
use std::fmt;

/// Why no window was opened. The first cause in this order is told, and nothing changed.
#[derive(Clone, Copy, Debug, PartialEq, Eq)]
pub enum OpenFault {
    /// No image of this set stands.
    NoSuchImage,
    /// The image of this set is newer.
    NotNewest { newest: u32 },
    /// The window of this set is open.
    AlreadyOpen { set: u32 },
    /// The window of this set was closed: the image is final.
    Final,
    /// The claim with this number, counted from 0, has no block, or one that the volume has not.
    BadRange { claim: u32 },
    /// Two claims have a block in common. The second is the first that meets an earlier one.
    Overlap { first: u32, second: u32 },
}

impl fmt::Display for OpenFault {
    ghost output = { λ fault. Some (open_message fault) };

    fn fmt<W: fmt::Write>(&self, f: &mut fmt::Formatter<W>) -> fmt::Result {
        match self {
            OpenFault::NoSuchImage => f.write_str("no such image"),
            OpenFault::NotNewest { newest } => write!(f, "the newest image is of set {newest}"),
            OpenFault::AlreadyOpen { set } => write!(f, "the window of set {set} is open"),
            OpenFault::Final => f.write_str("the image is final"),
            OpenFault::BadRange { claim } => write!(f, "claim {claim} is out of range"),
            OpenFault::Overlap { first, second } => {
                write!(f, "claims {first} and {second} overlap")
            }
        }
    }
}

impl Error for OpenFault {}
