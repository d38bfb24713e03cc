//! Bytes of a text as a person sees them.

use std::alloc::Global;
use vss_names::OutOfMemory;

/// How many bytes of a field or a value are shown.
const MOST_SHOWN: usize = 60;
/// How many bytes of a line are shown, and how many of them stand before what is marked.
const WIDTH: usize = 110;

const BEFORE: usize = 60;

fn letter_of(byte: u8) -> char {
    if 32 <= byte && byte <= 126 {
        char::from(byte)
    } else {
        '?'
    }
}

/// The bytes from one place of a text up to another, as far as the text has them.
pub fn part(text: &[u8], start: usize, end: usize) -> &[u8] {
    text.get(start..end).unwrap_or(&[])
}

/// Adds bytes, with `?` for what is not printable ASCII.
fn add_letters(shown: &mut String, bytes: &[u8]) -> Result<(), OutOfMemory> {
    for byte in bytes {
        shown.push(letter_of(*byte))?;
    }
    Ok(())
}

/// Adds the first bytes, with `?` for what is not printable ASCII, and dots where more follow.
pub fn add_shown(text: &mut String, bytes: &[u8]) -> Result<(), OutOfMemory> {
    let Some(first) = bytes.get(..MOST_SHOWN) else {
        return add_letters(text, bytes);
    };
    add_letters(text, first)?;
    Ok(text.push_str("..")?)
}

/// A line with its number, and below it a mark under the place `mark`, where there is one. Of a long line the part around the mark is
/// shown.
pub fn marked_line(
    alloc: Global,
    number: u32,
    line: &[u8],
    mark: Option<usize>,
) -> Result<String, OutOfMemory> {
    let at = mark.unwrap_or(0);
    let (start, dots) = if at > BEFORE && line.len() > WIDTH {
        (at.saturating_sub(BEFORE), "..")
    } else {
        (0, "")
    };
    let end = line.len().min(start.saturating_add(WIDTH));
    let mut shown = format!(in alloc; "{number:>6} | {dots}")?;
    add_letters(&mut shown, part(line, start, end))?;
    shown.push_str(if end < line.len() { "..\n" } else { "\n" })?;
    if mark.is_some() {
        shown.push_str("       | ")?;
        for _ in start..at.saturating_add(dots.len()) {
            shown.push(' ')?;
        }
        shown.push_str("^\n")?;
    }
    Ok(shown)
}
