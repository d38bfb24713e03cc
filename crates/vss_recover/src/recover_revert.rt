ghost use Rattle.std.specs.Prelude.{Some};
ghost use Rattle.vss_recover.specs.Calls.{revert_message};

use cow_volume::RevertFault;
use std::error::Error;
use std::fmt;

/// Why a volume was not brought back to an image.
#[derive(Clone, Copy, Debug, PartialEq, Eq)]
pub enum RecoverRevert {
    /// Writers changed so many blocks of the image: what the volume was at its point is not what it shows. Nothing changed.
    Recovered { blocks: u32 },
    /// What a volume without recovery writes answers.
    Other(RevertFault),
}

impl fmt::Display for RecoverRevert {
    ghost output = { λ fault. Some (revert_message fault) };

    fn fmt<W: fmt::Write>(&self, f: &mut fmt::Formatter<W>) -> fmt::Result {
        match self {
            RecoverRevert::Recovered { blocks } => {
                write!(f, "writers changed {blocks} blocks of the image")
            }
            RecoverRevert::Other(fault) => write!(f, "{fault}"),
        }
    }
}

impl Error for RecoverRevert {}
