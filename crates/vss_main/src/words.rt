//! Small writers: each appends one word to a text.

ghost use Rattle.std.specs.Prelude.{◌≡◌, ◌++◌, OnOk};
ghost use Rattle.std.specs.Fmt.{decimal};
ghost use Rattle.hex.specs.Hex.{encode_lower};
ghost use Rattle.block_data.specs.BlockBytes.{sha256};

use block_data::digest;
use itoa::Buffer;
use vss_names::{OutOfMemory, Text};

/// Appends a word, and a number in decimal digits.
pub fn add_number(out: &mut Text, word: &[u8], number: u32) -> Result<(), OutOfMemory>
    ensures { OnOk result (out.new.bytes ≡ out.old.bytes ++ word.now ++ decimal number) }
{
    out.add(word)?;
    let mut buffer = Buffer::new();
    out.add(buffer.format(number).as_bytes())
}

/// Appends the digest of a block, in hexadecimal digits of lower case.
pub fn add_digest(out: &mut Text, block: &[u8]) -> Result<(), OutOfMemory>
    ensures { OnOk result (out.new.bytes ≡ out.old.bytes ++ encode_lower (sha256 block.now)) }
{
    let mut digits = [0; 64];
    let _ = hex::encode_to_slice(digest(block), &mut digits);
    out.add(&digits)
}
