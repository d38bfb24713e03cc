ghost use Rattle.std.specs.Prelude.{Some};
ghost use Rattle.vss_recover.specs.Calls.{recover_message};

use std::error::Error;
use std::fmt;

/// Why no recovery write was made. The first cause in this order is told, and the image shows what it showed.
#[derive(Clone, Copy, Debug, PartialEq, Eq)]
pub enum RecoverFault {
    /// The window of this set is not open.
    NotOpen,
    /// The volume has no such block.
    NoSuchBlock,
    /// The block is of another writer's claim, or of none.
    NotOwner { owner: Option<u32> },
    /// The block has no slot in the overlay, and all slots are used.
    Full,
    /// The overlay's device failed, and its count of faults rose. No slot was used up.
    Area,
}

impl fmt::Display for RecoverFault {
    ghost output = { λ fault. Some (recover_message fault) };

    fn fmt<W: fmt::Write>(&self, f: &mut fmt::Formatter<W>) -> fmt::Result {
        match self {
            RecoverFault::NotOpen => f.write_str("the window is not open"),
            RecoverFault::NoSuchBlock => f.write_str("no such block"),
            RecoverFault::NotOwner { owner: None } => f.write_str("no writer claims the block"),
            RecoverFault::NotOwner { owner: Some(owner) } => {
                write!(f, "writer {owner} claims the block")
            }
            RecoverFault::Full => f.write_str("the overlay is full"),
            RecoverFault::Area => f.write_str("the overlay's device failed"),
        }
    }
}

impl Error for RecoverFault {}
