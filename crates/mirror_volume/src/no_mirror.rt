ghost use Rattle.std.specs.Prelude.{Some};
ghost use Rattle.mirror_volume.specs.Resync.{no_mirror_message};

use std::error::Error;
use std::fmt;

/// Why an image was not cut: the volume was ready for none.
#[derive(Clone, Copy, Debug, PartialEq, Eq)]
pub struct NoMirror;

impl fmt::Display for NoMirror {
    ghost output = { λ fault. Some (no_mirror_message fault) };

    fn fmt<W: fmt::Write>(&self, f: &mut fmt::Formatter<W>) -> fmt::Result {
        f.write_str("no mirror is ready")
    }
}

impl Error for NoMirror {}
