//! An overview of a run that fits a screen: who moves in which part of it, how much, and where something was refused.

use crate::explaining::notes::Notes;
use crate::explaining::piece::Piece::{Number, Words};
use crate::reading::is_move;
use crate::timeline::Span;
use std::alloc::Global;
use vss_names::OutOfMemory;

/// How many columns there are at most, how wide one is, and where the first begins, in pixels.
const COLUMNS: u64 = 120;

const WIDE: u64 = 8;

const LEFT: u64 = 170;

/// Where the first row begins, and how high all rows are together at most.
const TOP: u64 = 66;

const ROWS: u64 = 560;

/// What is counted of a row in a column.
#[derive(Clone, Copy)]
struct Cell {
    lines: u64,
    /// Whether something was refused, failed, lost or evicted.
    is_bad: bool,
}

/// The rows by name, and what is counted of them, one row after another.
#[derive(Drop)]
struct Overview<'a> {
    rows: Vec<&'a str>,
    cells: Vec<Cell>,
}

/// The name of the row of a line of a report: a lane's, a writer's, or the first word; none of the opening and of closing lines.
fn row_in(line: &str) -> Option<&str> {
    let (number, said) = line.split_once(' ')?;
    if number != "=" && !is_move(line) {
        return None;
    }
    let (word, rest) = said.split_once(' ').unwrap_or((said, ""));
    if word != "lane" && word != "writer" {
        return Some(word);
    }
    let name = rest.split_once(' ').map_or(rest, |parts| parts.0);
    said.get(..word.len().saturating_add(1).saturating_add(name.len()))
}

/// Whether a row's name has no other bytes than names have.
fn is_plain(name: &str) -> bool {
    let other = b"_-. ";
    name.as_bytes().iter().all(|byte| byte.is_ascii_alphanumeric() || other.contains(byte))
}

/// Whether something was refused, failed, lost or evicted in a line.
fn is_bad(line: &str) -> bool {
    line.contains("VSS_E_")
        || line.contains(" fault")
        || line.contains(" NOT_SELECTABLE")
        || line.contains(" failed ")
        || line.contains(" lost ")
        || line.starts_with("= evicted ")
}

impl<'a> Overview<'a> {
    /// The place of a row, which is added where it is a new one.
    fn place_of(&mut self, name: &'a str) -> Result<usize, OutOfMemory> {
        for (place, row) in self.rows.iter().enumerate() {
            if *row == name {
                return Ok(place);
            }
        }
        self.rows.push(name)?;
        for _ in 0..COLUMNS {
            self.cells.push(Cell {
                lines: 0,
                is_bad: false,
            })?;
        }
        Ok(self.rows.len().saturating_sub(1))
    }

    /// Counts a line of a row in a column.
    fn count(&mut self, name: &'a str, column: u64, is_bad: bool) -> Result<(), OutOfMemory> {
        let first = self.place_of(name)?.saturating_mul(COLUMNS as usize);
        if let Some(cell) = self.cells.get_mut(first.saturating_add(column as usize)) {
            cell.lines = cell.lines.saturating_add(1);
            cell.is_bad = cell.is_bad || is_bad;
        }
        Ok(())
    }

    /// Counts the lines of these moves of a report, so many moves in a column.
    fn read(&mut self, report: &'a str, span: Span, size: u64) -> Result<(), OutOfMemory> {
        let mut made = 0u64;
        for line in report.lines() {
            let Some(name) = row_in(line) else {
                continue;
            };
            made = made.saturating_add(u64::from(!line.starts_with("=")));
            if span.from <= made && made <= span.to && is_plain(name) {
                self.count(
                    name,
                    made.saturating_sub(span.from) / size.max(1),
                    is_bad(line),
                )?;
            }
        }
        Ok(())
    }

    /// How high a row is.
    fn step(&self) -> u64 {
        (ROWS / (self.rows.len() as u64).max(1)).min(24).max(4)
    }

    /// Draws a row below a height: its name, and in each column a bar that is the higher the more lines there are.
    fn draw_row(
        &self,
        notes: &mut Notes,
        row: usize,
        bottom: u64,
        size: u64,
    ) -> Result<(), OutOfMemory> {
        let high = self.step().saturating_sub(2);
        let name = Words(self.rows.get(row).copied().unwrap_or(""));
        if high >= 10 {
            notes.say("<text x='10' y='{}'>{}</text>", &[Number(bottom), name])?;
        }
        let cells = self.cells.iter().skip(row.saturating_mul(COLUMNS as usize));
        for (column, cell) in cells.take(COLUMNS as usize).enumerate() {
            let x = (column as u64).saturating_mul(WIDE).saturating_add(LEFT);
            let part = cell.lines.saturating_mul(high) / size.max(1);
            let height = part.max(2).min(high);
            let class = Words(if cell.is_bad { "bad" } else { "some" });
            if cell.lines > 0 {
                notes.say(
                    "<rect class='{}' x='{}' y='{}' width='7' height='{}'/>",
                    &[
                        class,
                        Number(x),
                        Number(bottom.saturating_sub(height)),
                        Number(height),
                    ],
                )?;
            }
        }
        Ok(())
    }
}

/// Draws the numbers of moves above each fifteenth column.
fn draw_numbers(notes: &mut Notes, span: Span, size: u64) -> Result<(), OutOfMemory> {
    for fifteenth in 0..COLUMNS / 15 {
        let column = fifteenth.saturating_mul(15);
        let first = column.saturating_mul(size).saturating_add(span.from);
        let x = column.saturating_mul(WIDE).saturating_add(LEFT);
        if first <= span.to {
            notes.say(
                "<text x='{}' y='{}'>{}</text>",
                &[Number(x), Number(TOP - 8), Number(first)],
            )?;
        }
    }
    Ok(())
}

/// An overview of these moves of a report, as a document of SVG.
pub fn overview_of(alloc: Global, report: &str, span: Span) -> Result<Notes, OutOfMemory> {
    let mut notes = Notes::new(alloc);
    let mut overview = Overview {
        rows: Vec::new(alloc),
        cells: Vec::new(alloc),
    };
    let moves = span.to.saturating_sub(span.from).saturating_add(1);
    let size = moves.div_ceil(COLUMNS);
    overview.read(report, span, size)?;
    let step = overview.step();
    let bottom = step
        .saturating_mul(overview.rows.len() as u64)
        .saturating_add(TOP);
    notes.say(
        "<svg xmlns='http://www.w3.org/2000/svg' width='1150' height='{}'>",
        &[Number(bottom.saturating_add(40))],
    )?;
    notes.add(
        "<style>text{font-family:monospace;font-size:11px}.some{fill:#0072b2}.bad{fill:#d55e00}</style>",
    )?;
    notes.add("<rect width='100%' height='100%' fill='#fff'/>")?;
    notes.say(
        "<text x='10' y='26'>moves {} to {}, {} in each column</text>",
        &[Number(span.from), Number(span.to), Number(size)],
    )?;
    draw_numbers(&mut notes, span, size)?;
    for row in 0..overview.rows.len() {
        let below = (row as u64).saturating_add(1).saturating_mul(step);
        overview.draw_row(&mut notes, row, below.saturating_add(TOP), size)?;
    }
    notes.say(
        "<text x='10' y='{}'>the higher the more lines; orange: one was refused, failed, lost or evicted; --from N --to M draws a part</text>",
        &[Number(bottom.saturating_add(24))],
    )?;
    notes.add("</svg>")?;
    Ok(notes)
}
