//! Labels as bytes.

ghost use Rattle.std.specs.Prelude.{◌≤◌, IsTrue, length};

use crate::timeline::label::Label;
use vss_names::{OutOfMemory, Text};

/// How many bytes of a text that ends with a digest are not shown.
const HIDDEN: usize = 56;

/// How many bytes a digest has in hexadecimal digits.
const DIGEST: usize = 64;

fn is_hex_digit(byte: u8) -> bool {
    byte.is_ascii_digit() || (b'a' <= byte && byte <= b'f')
}

fn are_hex_digits(text: &[u8]) -> bool {
    text.iter().all(|byte| is_hex_digit(*byte))
}

/// Whether a digest stands at the end of a text.
fn has_digest(text: &[u8]) -> bool
    ensures { IsTrue result → 64 ≤ length text.now }
{
    DIGEST <= text.len() && are_hex_digits(&text[text.len() - DIGEST..])
}

/// How many bytes are shown of a text.
pub fn shown_length(text: &[u8]) -> usize {
    if has_digest(text) {
        text.len() - HIDDEN + 2
    } else {
        text.len()
    }
}

/// Appends so many bytes of a text, and two dots.
pub fn add_cut(out: &mut Text, text: &[u8], most: usize) -> Result<(), OutOfMemory>
    requires { most ≤ length text.now }
{
    out.add(&text[..most])?;
    out.add(b"..")
}

/// Appends a text, of a digest at its end eight digits and two dots.
fn add_shortened(out: &mut Text, text: &[u8]) -> Result<(), OutOfMemory> {
    if !has_digest(text) {
        return out.add(text);
    }
    add_cut(out, text, text.len() - HIDDEN)
}

fn add_colon(out: &mut Text, label: &Label<'_>) -> Result<(), OutOfMemory> {
    if label.asked.is_empty() || label.answer.is_empty() {
        return Ok(());
    }
    out.add(b": ")
}

/// Appends a label.
pub fn add_label(out: &mut Text, label: &Label<'_>) -> Result<(), OutOfMemory> {
    out.add(label.before.as_bytes())?;
    out.add(label.asked.as_bytes())?;
    add_colon(out, label)?;
    add_shortened(out, label.answer.as_bytes())
}
