ghost use Rattle.std.specs.Prelude.{◌≡◌, Some};
ghost use Rattle.writer_meta.specs.Refusal.{printable, shown_text};

use std::fmt;

/// Bytes as a message shows them: the printable ASCII characters as they are, and `?` for each other byte.
#[derive(Drop)]
pub(crate) struct Shown<'a> {
    pub bytes: &'a [u8],
}

impl<'a> fmt::Display for Shown<'a> {
    ghost output = { λ text. Some (shown_text text.bytes.now) };

    fn fmt<W: fmt::Write>(&self, f: &mut fmt::Formatter<W>) -> fmt::Result {
        for byte in self.bytes {
            f.write_char(printable(*byte))?;
        }
        Ok(())
    }
}

fn printable(byte: u8) -> char
    ensures { result ≡ printable byte }
{
    if 32 <= byte && byte <= 126 {
        char::from(byte)
    } else {
        '?'
    }
}
