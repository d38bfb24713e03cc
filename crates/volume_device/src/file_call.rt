ghost use Rattle.std.specs.Prelude.{◌≡◌, Some};
ghost use Rattle.volume_device.specs.Messages.{call_of};

use std::fmt;

/// A call on the file of a device. It is printed as what is said of one that failed, as `could not be read`.
#[derive(Clone, Copy, Debug, PartialEq, Eq)]
pub enum FileCall {
    Create,
    SetLength,
    Read,
    Write,
    Sync,
}

impl fmt::Display for FileCall {
    ghost output = { λ call. Some (call_of call) };

    fn fmt<W: fmt::Write>(&self, f: &mut fmt::Formatter<W>) -> fmt::Result {
        match self {
            FileCall::Create => f.write_str("could not be created"),
            FileCall::SetLength => f.write_str("could not be given its length"),
            FileCall::Read => f.write_str("could not be read"),
            FileCall::Write => f.write_str("could not be written"),
            FileCall::Sync => f.write_str("could not be synced"),
        }
    }
}
