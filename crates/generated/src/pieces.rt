//! Pieces of a text: each call appends one, or wants memory.

ghost use Rattle.std.specs.Prelude.{◌≡◌, ◌++◌, OnOk};
ghost use Rattle.std.specs.Fmt.{decimal};
ghost use Rattle.hex.specs.Hex.{encode_lower};

use itoa::Buffer;
use vss_names::{OutOfMemory, Text};

/// Appends a number in decimal digits.
pub fn add_number(out: &mut Text, n: u32) -> Result<(), OutOfMemory>
    ensures { OnOk result (out.new.bytes ≡ out.old.bytes ++ decimal n) }
{
    let mut buffer = Buffer::new();
    out.add(buffer.format(n).as_bytes())
}

/// Appends a digest in hexadecimal digits of lower case.
pub fn add_digest(out: &mut Text, digest: &[u8; 32]) -> Result<(), OutOfMemory>
    ensures { OnOk result (out.new.bytes ≡ out.old.bytes ++ encode_lower digest.now) }
{
    let mut digits = [0; 64];
    let _ = hex::encode_to_slice(*digest, &mut digits);
    out.add(&digits)
}
