//! A picture as lines for a terminal.

ghost use Rattle.std.specs.Prelude.{◌≡◌, ◌++◌, IfOk, OnOk};
ghost use Rattle.vss_tools.specs.Drawn.{AddsLines, IsLines, printable, printable_byte};

use crate::timeline::labels::add_label;
use crate::timeline::lines::is_effect;
use crate::timeline::mark::Mark;
use crate::timeline::picture::Picture;
use crate::timeline::row::Row;
use crate::timeline::shape::Shape;
use crate::timeline::words::{parted, rest_of, word_of};
use itoa::Buffer;
use std::alloc::Global;
use vss_names::{OutOfMemory, Text};

/// The most bytes of a line.
const WIDTH: usize = 100;

/// Appends a byte of a text.
fn add_printable_byte(out: &mut Text, byte: u8) -> Result<(), OutOfMemory>
    ensures { OnOk result (out.new.bytes ≡ out.old.bytes ++ printable_byte byte) }
{
    match byte {
        b' '..=b'~' => out.add(&[byte]),
        _ => out.add(b"?"),
    }
}

/// Appends a text as it stands on a terminal, where other bytes than these could be commands.
fn add_printable(out: &mut Text, text: &[u8]) -> Result<(), OutOfMemory>
    ensures { OnOk result (out.new.bytes ≡ out.old.bytes ++ printable text.now) }
{
    for byte in text {
        add_printable_byte(out, *byte)?;
    }
    Ok(())
}

/// Appends a line of printable bytes, in as many lines as it needs.
fn add_pieces(out: &mut Text, line: &[u8]) -> Result<(), OutOfMemory>
    ensures { OnOk result (AddsLines out.old.bytes out.new.bytes line.now) }
{
    let count = line.len() / WIDTH;
    for at in 0..count {
        out.add(&line[at * WIDTH..at * WIDTH + WIDTH])?;
        out.add(b"\n")?;
    }
    out.add(&line[count * WIDTH..])?;
    out.add(b"\n")?;
    Ok(())
}

/// Appends a line of the picture.
fn add_line(alloc: Global, out: &mut Text, line: &[u8]) -> Result<(), OutOfMemory>
    ensures { OnOk result (AddsLines out.old.bytes out.new.bytes (printable line.now)) }
{
    let mut shown = Text::new(alloc);
    add_printable(&mut shown, line)?;
    add_pieces(out, shown.bytes())?;
    Ok(())
}

/// Appends a line above the moves.
fn add_heading_line(alloc: Global, out: &mut Text, line: &[u8]) -> Result<(), OutOfMemory>
    ensures { OnOk result (IsLines out.old.bytes → IsLines out.new.bytes) }
{
    add_line(alloc, out, line)?;
    Ok(())
}

/// Appends a number with spaces before it, as many digits wide as `width` at least.
fn add_wide(line: &mut Text, number: u64, width: usize) -> Result<(), OutOfMemory> {
    let mut buffer = Buffer::new();
    let digits = buffer.format(number).as_bytes();
    for _ in digits.len()..width {
        line.add(b" ")?;
    }
    line.add(digits)
}

/// Appends what a row is of, and its name.
fn add_row(line: &mut Text, row: Row<'_>) -> Result<(), OutOfMemory> {
    line.add(row.kind.title().as_bytes())?;
    line.add(row.name.as_bytes())
}

/// Appends whose run it is, and what the letters of the states mean.
fn add_title(alloc: Global, out: &mut Text, name: &str) -> Result<(), OutOfMemory>
    ensures { OnOk result (IsLines out.old.bytes → IsLines out.new.bytes) }
{
    let mut line = Text::new(alloc);
    line.add(name.as_bytes())?;
    add_heading_line(alloc, out, line.bytes())?;
    add_heading_line(
        alloc,
        out,
        b"F: frozen; H: held; S, m: a set, an image in the making; 1 to 9 and +: so many images stand.",
    )
}

/// Appends a line for a row whose state is shown under a letter.
fn add_shown_row(alloc: Global, out: &mut Text, letter: u8, row: Row<'_>) -> Result<(), OutOfMemory>
    ensures { OnOk result (IsLines out.old.bytes → IsLines out.new.bytes) }
{
    let mut line = Text::new(alloc);
    line.add(b"    ")?;
    line.add(&[letter])?;
    line.add(b"  ")?;
    add_row(&mut line, row)?;
    add_heading_line(alloc, out, line.bytes())
}

/// Appends a line for each row whose state is shown: its letter, and what it is.
fn add_shown(alloc: Global, out: &mut Text, picture: &Picture<'_>) -> Result<(), OutOfMemory>
    ensures { OnOk result (IsLines out.old.bytes → IsLines out.new.bytes) }
{
    let (first, shown) = picture.stage().shown();
    let rows = picture.stage().cast().rows();
    let rows = rows.get(first..).unwrap_or(&[]);
    let mut letter = b'a';
    for row in rows.get(..shown).unwrap_or(&[]) {
        add_shown_row(alloc, out, letter, *row)?;
        letter = letter.saturating_add(1);
    }
    Ok(())
}

/// Appends the line above the moves.
fn add_heading(alloc: Global, out: &mut Text, shown: usize) -> Result<(), OutOfMemory>
    ensures { OnOk result (IsLines out.old.bytes → IsLines out.new.bytes) }
{
    let mut line = Text::new(alloc);
    let mut letter = b'a';
    line.add(b" move      clock  ")?;
    for _ in 0..shown {
        line.add(&[letter])?;
        letter = letter.saturating_add(1);
    }
    line.add(b"  who: what")?;
    add_heading_line(alloc, out, line.bytes())
}

/// Appends who makes the move of a mark, or the sign of an effect.
fn add_actor(line: &mut Text, mark: &Mark<'_>) -> Result<(), OutOfMemory> {
    if is_effect(mark.text) {
        return line.add(b"= ");
    }
    let (actor, said) = parted(rest_of(mark.text));
    match actor {
        "lane" | "writer" => {
            line.add(actor.as_bytes())?;
            line.add(b" ")?;
            line.add(word_of(said).as_bytes())?;
            line.add(b": ")
        }
        "provider" => line.add(b"provider: "),
        _ => line.add(b"time: "),
    }
}

/// Appends the number of a move and the clock after it, or as much room where they are not told.
fn add_number(line: &mut Text, mark: &Mark<'_>) -> Result<(), OutOfMemory> {
    if is_effect(mark.text) {
        return line.add(b"                  ");
    }
    add_wide(line, mark.moves, 5)?;
    add_wide(line, mark.place.clock, 11)?;
    line.add(b"  ")
}

/// What stands before the label of a mark: the move and the clock, how it stands with the rows, and who moves.
fn front_of(alloc: Global, mark: &Mark<'_>, letters: &[u8]) -> Result<Text, OutOfMemory> {
    let mut line = Text::new(alloc);
    match mark.shape {
        Shape::Closing => Ok(line),
        _ => {
            add_number(&mut line, mark)?;
            line.add(letters)?;
            line.add(b"  ")?;
            add_actor(&mut line, mark)?;
            Ok(line)
        }
    }
}

/// Appends the lines of a mark.
fn add_mark(
    alloc: Global,
    out: &mut Text,
    mark: &Mark<'_>,
    letters: &[u8],
) -> Result<(), OutOfMemory>
    ensures { OnOk result (IsLines out.old.bytes → IsLines out.new.bytes) }
{
    let mut line = front_of(alloc, mark, letters)?;
    add_label(&mut line, &mark.label)?;
    add_heading_line(alloc, out, line.bytes())
}

/// Appends the lines of all marks.
fn add_marks(
    alloc: Global,
    out: &mut Text,
    marks: &[Mark<'_>],
    letters: &[u8],
    shown: usize,
) -> Result<(), OutOfMemory>
    ensures { OnOk result (IsLines out.old.bytes → IsLines out.new.bytes) }
{
    let mut letters = letters;
    for mark in marks {
        let own = letters.get(..shown).unwrap_or(&[]);
        letters = letters.get(shown..).unwrap_or(&[]);
        add_mark(alloc, out, mark, own)?;
    }
    Ok(())
}

/// Appends all lines.
fn add_all(
    alloc: Global,
    out: &mut Text,
    name: &str,
    picture: &Picture<'_>,
) -> Result<(), OutOfMemory>
    ensures { OnOk result (IsLines out.old.bytes → IsLines out.new.bytes) }
{
    let (_, shown) = picture.stage().shown();
    add_title(alloc, out, name)?;
    add_shown(alloc, out, picture)?;
    add_heading(alloc, out, shown)?;
    add_marks(alloc, out, &picture.marks, picture.stage().letters(), shown)
}

/// The picture as lines: whose run it is, whose states are shown, and then those of each mark.
pub fn to_lines(alloc: Global, name: &str, picture: &Picture<'_>) -> Result<Text, OutOfMemory>
    ensures { IfOk result (λ text. IsLines text.bytes) }
{
    let mut out = Text::new(alloc);
    add_all(alloc, &mut out, name, picture)?;
    Ok(out)
}
