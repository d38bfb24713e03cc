//! A picture as a drawing for a browser.

ghost use Rattle.std.specs.Prelude.{IfOk, OnOk};
ghost use Rattle.vss_tools.specs.Drawn.{IsDrawn};

use crate::timeline::drawn_bands::add_band;
use crate::timeline::drawn_marks::add_element;
use crate::timeline::frame::Frame;
use crate::timeline::layout::Layout;
use crate::timeline::mark::Mark;
use crate::timeline::part::{Part, add_parts};
use crate::timeline::picture::Picture;
use crate::timeline::sheet::STYLE;
use std::alloc::Global;
use vss_names::{OutOfMemory, Text};

/// What is drawn first: the head, what stands for all, and the title.
fn head<'a>(alloc: Global, name: &'a str, layout: &Layout) -> Result<Frame<'a>, OutOfMemory> {
    let mut frame = Frame::new(alloc);
    let name = Part::Words(name.as_bytes());
    frame.add(&[
        Part::Markup("<svg xmlns='http://www.w3.org/2000/svg' viewBox='0 0 "),
        Part::Number(layout.width),
        Part::Markup(" "),
        Part::Number(layout.height),
        Part::Markup("' width='"),
        Part::Number(layout.width),
        Part::Markup("' height='"),
        Part::Number(layout.height),
        Part::Markup("'>\n<title>"),
        name,
        Part::Markup("</title>\n"),
        Part::Markup(STYLE),
    ])?;
    frame.words("title", 10, 26, "", name)?;
    frame.sign("key", 10, 46)?;
    Ok(frame)
}

/// What is drawn between the mark before and this one, where so many bands are begun: the next one, if it is the mark's.
fn frame_before<'a>(
    alloc: Global,
    picture: &Picture<'a>,
    layout: &Layout,
    mark: &Mark<'_>,
    begun: usize,
) -> Result<Frame<'a>, OutOfMemory> {
    let mut frame = Frame::new(alloc);
    if mark.place.band < begun {
        return Ok(frame);
    }
    if begun > 0 {
        frame.end()?;
    }
    add_band(&mut frame, picture, layout, begun)?;
    Ok(frame)
}

/// What is drawn last, where so many bands are begun.
fn foot(alloc: Global, begun: usize) -> Result<Frame<'static>, OutOfMemory> {
    let mut frame = Frame::new(alloc);
    if begun > 0 {
        frame.end()?;
    }
    frame.add(&[Part::Markup("</svg>\n")])?;
    Ok(frame)
}

/// Appends a mark, where so many bands are begun.
fn add_piece(
    alloc: Global,
    out: &mut Text,
    picture: &Picture<'_>,
    mark: &Mark<'_>,
    layout: &Layout,
    begun: usize,
) -> Result<(), OutOfMemory>
    ensures { OnOk result (IsDrawn out.old.bytes → IsDrawn out.new.bytes) }
{
    let frame = frame_before(alloc, picture, layout, mark, begun)?;
    add_parts(out, &frame.parts)?;
    add_element(alloc, out, mark, layout)
}

/// Appends marks, and answers how many bands are begun.
fn add_marks(
    alloc: Global,
    out: &mut Text,
    picture: &Picture<'_>,
    marks: &[Mark<'_>],
    layout: &Layout,
) -> Result<usize, OutOfMemory>
    ensures { OnOk result (IsDrawn out.old.bytes → IsDrawn out.new.bytes) }
{
    let mut begun = 0usize;
    for mark in marks {
        add_piece(alloc, out, picture, mark, layout, begun)?;
        begun = begun.max(mark.place.band.min(begun).saturating_add(1));
    }
    Ok(begun)
}

/// Appends what is drawn first.
fn add_head(alloc: Global, out: &mut Text, name: &str, layout: &Layout) -> Result<(), OutOfMemory>
    ensures { OnOk result (IsDrawn out.old.bytes → IsDrawn out.new.bytes) }
{
    let head = head(alloc, name, layout)?;
    add_parts(out, &head.parts)
}

/// Appends what is drawn last, where so many bands are begun.
fn add_foot(alloc: Global, out: &mut Text, begun: usize) -> Result<(), OutOfMemory>
    ensures { OnOk result (IsDrawn out.old.bytes → IsDrawn out.new.bytes) }
{
    let foot = foot(alloc, begun)?;
    add_parts(out, &foot.parts)
}

/// Appends all that is drawn.
fn add_all(
    alloc: Global,
    out: &mut Text,
    name: &str,
    picture: &Picture<'_>,
    layout: &Layout,
) -> Result<(), OutOfMemory>
    ensures { OnOk result (IsDrawn out.old.bytes → IsDrawn out.new.bytes) }
{
    add_head(alloc, out, name, layout)?;
    let begun = add_marks(alloc, out, picture, &picture.marks, layout)?;
    add_foot(alloc, out, begun)
}

/// The drawing of a picture of this name, as a document of SVG: a mark's line is told where a pointer rests on it.
pub fn to_svg(alloc: Global, name: &str, picture: &Picture<'_>) -> Result<Text, OutOfMemory>
    ensures { IfOk result (λ text. IsDrawn text.bytes) }
{
    let layout = Layout::of(alloc, picture)?;
    let mut out = Text::new(alloc);
    add_all(alloc, &mut out, name, picture, &layout)?;
    Ok(out)
}
