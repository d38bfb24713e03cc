//! Texts and numbers as they stand in a drawing.

ghost use Rattle.std.specs.Prelude.{◌≡◌, ◌++◌, OnOk};
ghost use Rattle.std.specs.Fmt.{decimal};
ghost use Rattle.vss_tools.specs.Drawn.{escaped, escaped_byte};

use itoa::Buffer;
use vss_names::{OutOfMemory, Text};

/// Appends a byte of a text.
fn add_escaped_byte(out: &mut Text, byte: u8) -> Result<(), OutOfMemory>
    ensures { OnOk result (out.new.bytes ≡ out.old.bytes ++ escaped_byte byte) }
{
    match byte {
        b'&' => out.add(b"&amp;"),
        b'<' => out.add(b"&lt;"),
        b'>' => out.add(b"&gt;"),
        b'\'' => out.add(b"&#39;"),
        b'"' => out.add(b"&quot;"),
        b' '..=b'~' => out.add(&[byte]),
        _ => out.add(b"?"),
    }
}

/// Appends a text as it stands in a drawing.
pub fn add_escaped(out: &mut Text, text: &[u8]) -> Result<(), OutOfMemory>
    ensures { OnOk result (out.new.bytes ≡ out.old.bytes ++ escaped text.now) }
{
    for byte in text {
        add_escaped_byte(out, *byte)?;
    }
    Ok(())
}

/// Appends a number in decimal digits.
pub fn add_number(out: &mut Text, number: u64) -> Result<(), OutOfMemory>
    ensures { OnOk result (out.new.bytes ≡ out.old.bytes ++ decimal number) }
{
    let mut buffer = Buffer::new();
    out.add(buffer.format(number).as_bytes())
}
