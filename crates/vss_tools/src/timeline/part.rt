ghost use Rattle.std.specs.Prelude.{◌≡◌, ◌++◌, OnOk};
ghost use Rattle.vss_tools.specs.Drawn.{IsDrawn, part_text, parts_text};

use crate::timeline::escaping::{add_escaped, add_number};
use vss_names::{OutOfMemory, Text};

/// A part of a drawing.
#[derive(Clone, Copy)]
pub enum Part<'a> {
    /// Markup, as it is.
    Markup(&'static str),
    /// A number in decimal digits.
    Number(u64),
    /// A text, of which each byte is escaped.
    Words(&'a [u8]),
}

impl Part<'_> {
    /// Appends it to a text.
    fn add_to(self, out: &mut Text) -> Result<(), OutOfMemory>
        ensures { OnOk result (out.new.bytes ≡ out.old.bytes ++ part_text self.entry) }
    {
        match self {
            Part::Markup(text) => out.add(text.as_bytes()),
            Part::Number(number) => add_number(out, number),
            Part::Words(text) => add_escaped(out, text),
        }
    }
}

/// Appends parts to a text, in order.
fn add_all(out: &mut Text, parts: &[Part<'_>]) -> Result<(), OutOfMemory>
    ensures { OnOk result (out.new.bytes ≡ out.old.bytes ++ parts_text parts.now) }
{
    for part in parts {
        part.add_to(out)?;
    }
    Ok(())
}

/// Appends parts to a drawing, in order.
pub fn add_parts(out: &mut Text, parts: &[Part<'_>]) -> Result<(), OutOfMemory>
    ensures { OnOk result (IsDrawn out.old.bytes → IsDrawn out.new.bytes) }
{
    add_all(out, parts)?;
    Ok(())
}
