//! Bytes that no line of a scenario has.

use super::notes::Notes;
use super::piece::Piece::{Number, Shown, Words};
use super::showing::part;
use crate::reading::line_at;
use std::alloc::Global;
use vss_names::OutOfMemory;

/// Of a line of another system.
const CARRIAGE_RETURN: &str =
    "the line ends in CR LF; here lines end in LF alone: tr -d '\\r' < FILE > NEW makes them so";

fn is_printable(byte: u8) -> bool {
    32 <= byte && byte <= 126
}

/// Says what the whole text is, where its first bytes are those of another kind of text.
fn say_encoding(notes: &mut Notes, text: &[u8]) -> Result<bool, OutOfMemory> {
    if text.starts_with(b"\xef\xbb\xbf") {
        notes.add(
            "the file begins with a byte order mark (BOM), which is no part of a line; save it as UTF-8 or ASCII without one",
        )?;
    } else if text.starts_with(b"\xff\xfe") || text.starts_with(b"\xfe\xff") {
        notes.add("the file is UTF-16; save it as ASCII")?;
    } else if part(text, 0, 2).contains(&0) {
        notes.add(
            "the file has zero bytes, as UTF-16 has and files that are no text; save it as ASCII",
        )?;
    } else if text.starts_with(b"VSSAREA1") {
        notes.add("this is a diff area and no scenario: ./vss inspect < FILE lists it")?;
    } else {
        return Ok(false);
    }
    Ok(true)
}

/// The number of the character that begins with these bytes, if they are UTF-8.
fn character(bytes: &[u8]) -> Option<u32> {
    let first = u32::from(*bytes.first()?);
    let more = if first < 0xc2 {
        return None;
    } else if first < 0xe0 {
        1usize
    } else if first < 0xf0 {
        2
    } else {
        3
    };
    let mut value = first & (0x3f >> more);
    for byte in bytes.get(1..more + 1)? {
        if *byte & 0xc0 != 0x80 {
            return None;
        }
        value = (value << 6) | u32::from(*byte & 0x3f);
    }
    Some(value)
}

/// What these bytes begin with.
fn name_of(alloc: Global, bytes: &[u8]) -> Result<String, OutOfMemory> {
    Ok(
        match (character(bytes), bytes.first().copied().unwrap_or(0)) {
            (Some(0xa0), _) => {
                String::from_str(alloc, "a no-break space (U+00A0), where a space stands")?
            }
            (Some(number), _) => {
                format!(in alloc; "U+{number:04X}; lines have ASCII alone, comments too")?
            }
            (None, b'\t') => String::from_str(alloc, "a tab; before each field stands one space")?,
            (None, 0) => String::from_str(alloc, "a zero byte")?,
            (None, byte) => format!(in alloc;
                "the byte 0x{byte:02X}; lines have printable ASCII alone, comments too"
            )?,
        },
    )
}

/// Says what stands at the place of a line, whose bytes follow.
fn say_byte(notes: &mut Notes, at: usize, bytes: &[u8]) -> Result<(), OutOfMemory> {
    let name = name_of(notes.alloc(), bytes)?;
    let place = Number(at.saturating_add(1) as u64);
    notes.say("character {} is {}", &[place, Words(name.as_str())])
}

/// Says which byte may not stand in a line, and answers its place.
pub fn say_bad_byte(
    notes: &mut Notes,
    text: &[u8],
    line: &[u8],
    is_first: bool,
) -> Result<Option<usize>, OutOfMemory> {
    let at = line.iter().take_while(|byte| is_printable(**byte)).count();
    if is_first && say_encoding(notes, text)? {
        return Ok(None);
    }
    let rest = part(line, at, line.len());
    if rest == b"\r".as_slice() {
        notes.add(CARRIAGE_RETURN)?;
    } else {
        say_byte(notes, at, rest)?;
    }
    Ok(Some(at))
}

/// Says what a text has in a line.
pub fn say_line(notes: &mut Notes, text: &[u8], line: u32) -> Result<(), OutOfMemory> {
    if text.is_empty() {
        return notes.add("it is empty");
    }
    let there = line_at(text, line);
    notes.say("it has `{}` there", &[Shown(there)])?;
    match there.last() {
        Some(b'\r') => notes.add(CARRIAGE_RETURN),
        _ => Ok(()),
    }
}
