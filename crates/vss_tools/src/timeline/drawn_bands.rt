//! What a band of a drawing has beside the elements of marks: its rows, its columns, and what lasts.

use crate::timeline::band::Band;
use crate::timeline::band_row::BandRow;
use crate::timeline::bar::Bar;
use crate::timeline::frame::Frame;
use crate::timeline::layout::Layout;
use crate::timeline::mark::Mark;
use crate::timeline::part::Part;
use crate::timeline::picture::Picture;
use crate::timeline::shape::Shape;
use vss_names::OutOfMemory;

/// How wide the room of a time is at least that is told in words.
const TOLD: u64 = 60;

/// Nothing behind fixed words.
const NOTHING: Part<'static> = Part::Markup("");

/// Adds the stripes and the titles of the rows.
fn add_rows<'a>(
    frame: &mut Frame<'a>,
    picture: &Picture<'a>,
    rows: &[BandRow],
    width: u64,
) -> Result<(), OutOfMemory> {
    let mut is_even = true;
    for (row, at) in picture.stage().cast().rows().iter().zip(rows.iter()) {
        let height = at.bottom.saturating_sub(at.top);
        if height > 0 {
            if is_even {
                frame.rect("even", 0, at.top, width, height)?;
            }
            is_even = !is_even;
            let name = Part::Words(row.name.as_bytes());
            let y = at.top.saturating_add(17);
            frame.words("name", 10, y, row.kind.title(), name)?;
        }
    }
    Ok(())
}

/// The lower edge of the rows of a band.
fn bottom_of(rows: &[BandRow]) -> u64 {
    match rows.last() {
        Some(row) => row.bottom,
        None => 0,
    }
}

/// Adds the band of a mark in which the clock goes on.
fn add_passing(frame: &mut Frame<'_>, mark: &Mark<'_>, bottom: u64) -> Result<(), OutOfMemory> {
    if mark.place.passed == 0 {
        return Ok(());
    }
    let x = mark
        .place
        .x
        .saturating_sub(mark.place.gap.saturating_add(10));
    frame.rect("passing", x, 0, mark.place.gap, bottom)?;
    if mark.place.gap < TOLD {
        return Ok(());
    }
    let text = x.saturating_add(2);
    frame.words("small", text, 11, "+", Part::Number(mark.place.passed))?;
    frame.words("small", text, 22, "at ", Part::Number(mark.place.clock))
}

/// Adds the line of a cut through all rows, or the fine line of another mark.
fn add_upright(frame: &mut Frame<'_>, mark: &Mark<'_>, bottom: u64) -> Result<(), OutOfMemory> {
    let class = match mark.shape {
        Shape::Cut => "cutline",
        _ => "grid",
    };
    frame.upright(class, mark.place.x, bottom)
}

/// Adds what stands behind the marks of a band: each fifth move has its number, and the first one, but beside a fifth one of four digits.
fn add_columns(frame: &mut Frame<'_>, marks: &[Mark<'_>], bottom: u64) -> Result<(), OutOfMemory> {
    let mut last = 0;
    let mut is_first = true;
    for mark in marks {
        add_passing(frame, mark, bottom)?;
        add_upright(frame, mark, bottom)?;
        let is_free = mark.moves < 1000 || mark.moves % 5 != 4;
        let is_told = is_first && is_free || mark.moves % 5 == 0 && mark.moves != last;
        if is_told && mark.place.passed == 0 {
            frame.words("number", mark.place.x, 17, "", Part::Number(mark.moves))?;
        }
        is_first = false;
        last = mark.moves;
    }
    Ok(())
}

/// Where a bar lies from top to bottom.
fn height_of(bar: &Bar<'_>, rows: &[BandRow]) -> u64 {
    match rows.get(bar.row) {
        Some(row) if bar.kind.is_sign() => row.top.saturating_add(13),
        Some(row) => row
            .bars
            .saturating_add((bar.track as u64).saturating_mul(16)),
        None => 0,
    }
}

/// Adds a bar without its words, or a sign.
fn add_bar(frame: &mut Frame<'_>, bar: &Bar<'_>, y: u64) -> Result<(), OutOfMemory> {
    if bar.kind.is_sign() {
        return frame.sign(bar.kind.class(), bar.from, y);
    }
    if bar.kind.is_words() {
        return Ok(());
    }
    let width = bar.to.saturating_sub(bar.from).max(4);
    frame.rect(bar.class(), bar.from, y, width, 13)
}

/// Adds what a bar is.
fn add_name(frame: &mut Frame<'_>, bar: &Bar<'_>, y: u64) -> Result<(), OutOfMemory> {
    if bar.kind.is_sign() || bar.is_mute() {
        return Ok(());
    }
    let more = if bar.kind.has_number() {
        Part::Number(bar.number)
    } else {
        NOTHING
    };
    frame.words(
        bar.class_of_name(),
        bar.name_at(),
        y,
        bar.kind.words(),
        more,
    )
}

/// Adds how a bar ends, where it is not as it should or goes on.
fn add_ending<'a>(frame: &mut Frame<'a>, bar: &Bar<'a>, y: u64) -> Result<(), OutOfMemory> {
    let Some((sign, class)) = bar.ending.sign() else {
        return Ok(());
    };
    frame.sign(sign, bar.to, y.saturating_sub(4))?;
    let (words, result) = (bar.ending.words(), bar.ending.result());
    if words.is_empty() && result.is_empty() {
        return Ok(());
    }
    let result = Part::Words(result.as_bytes());
    frame.words(class, bar.ending_at(), y, words, result)
}

/// Adds what lasts in a band, and then its words, so that no bar hides the words of another.
fn add_bars<'a>(
    frame: &mut Frame<'a>,
    bars: &[Bar<'a>],
    rows: &[BandRow],
) -> Result<(), OutOfMemory> {
    for bar in bars {
        add_bar(frame, bar, height_of(bar, rows))?;
    }
    for bar in bars {
        let y = height_of(bar, rows).saturating_add(10);
        add_name(frame, bar, y)?;
        add_ending(frame, bar, y)?;
    }
    Ok(())
}

/// Adds the rows of a band with their titles.
fn add_titles<'a>(
    frame: &mut Frame<'a>,
    picture: &Picture<'a>,
    rows: &[BandRow],
    width: u64,
    top: u64,
) -> Result<(), OutOfMemory> {
    frame.group(0, top)?;
    add_rows(frame, picture, rows, width)?;
    frame.end()
}

/// Adds what stands behind the marks of a band, and what lasts in it.
fn add_content<'a>(
    frame: &mut Frame<'a>,
    picture: &Picture<'a>,
    rows: &[BandRow],
    band: &Band,
) -> Result<(), OutOfMemory> {
    let marks = picture.marks.get(band.marks.0..band.marks.1).unwrap_or(&[]);
    add_columns(frame, marks, bottom_of(rows))?;
    let bars = picture.stage().bars().done();
    let bars = bars.get(band.bars.0..band.bars.1).unwrap_or(&[]);
    add_bars(frame, bars, rows)
}

/// Adds the title of the closing lines.
fn add_closing(frame: &mut Frame<'_>, top: u64) -> Result<(), OutOfMemory> {
    let y = top.saturating_sub(14);
    frame.words("strong", 10, y, "At the end:", NOTHING)?;
    frame.group(10, top)
}

/// Adds a band up to the elements of its marks.
pub fn add_band<'a>(
    frame: &mut Frame<'a>,
    picture: &Picture<'a>,
    layout: &Layout,
    at: usize,
) -> Result<(), OutOfMemory> {
    let top = layout.band(at);
    let Some(band) = picture.stage().bands().get(at) else {
        return add_closing(frame, top);
    };
    let rows = layout.rows(at, picture.stage().cast().rows().len());
    add_titles(frame, picture, rows, layout.width, top)?;
    frame.group(layout.left, top)?;
    add_content(frame, picture, rows, band)
}
