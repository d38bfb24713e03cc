//! The elements of the marks in a drawing.

ghost use Rattle.std.specs.Prelude.{OnOk};
ghost use Rattle.vss_tools.specs.Drawn.{IsDrawn};

use crate::timeline::labels::{add_cut, add_label};
use crate::timeline::layout::Layout;
use crate::timeline::mark::Mark;
use crate::timeline::part::{Part, add_parts};
use crate::timeline::shape::Shape;
use std::alloc::Global;
use vss_names::{OutOfMemory, Text};

/// The most bytes of a label that are shown.
const LABEL: usize = 64;

/// Appends as much of a label as is shown, and two dots where that is not all.
fn add_front(out: &mut Text, label: &[u8]) -> Result<(), OutOfMemory> {
    if label.len() <= LABEL {
        return out.add(label);
    }
    add_cut(out, label, LABEL - 2)
}

/// As much of the label of a mark as is shown.
fn front(alloc: Global, mark: &Mark<'_>) -> Result<Text, OutOfMemory> {
    let mut label = Text::new(alloc);
    let mut front = Text::new(alloc);
    add_label(&mut label, &mark.label)?;
    add_front(&mut front, label.bytes())?;
    Ok(front)
}

/// Appends the sign of a mark at its place, with its line as what is told there.
fn add_sign(out: &mut Text, mark: &Mark<'_>, y: u64) -> Result<(), OutOfMemory>
    ensures { OnOk result (IsDrawn out.old.bytes → IsDrawn out.new.bytes) }
{
    add_parts(
        out,
        &[
            Part::Markup("<g transform='translate("),
            Part::Number(mark.place.x),
            Part::Markup(","),
            Part::Number(y),
            Part::Markup(")'><title>"),
            Part::Words(mark.text.as_bytes()),
            Part::Markup("</title><use href='#"),
            Part::Markup(mark.shape.name()),
            Part::Markup("'/></g><g transform='translate("),
            Part::Number(mark.place.x),
        ],
    )
}

/// Appends where the label of a mark begins.
fn add_label_place(out: &mut Text, shape: Shape, y: u64) -> Result<(), OutOfMemory>
    ensures { OnOk result (IsDrawn out.old.bytes → IsDrawn out.new.bytes) }
{
    match shape {
        Shape::Closing => add_parts(
            out,
            &[Part::Markup(","), Part::Number(y), Part::Markup(")")],
        ),
        _ => add_parts(out, &[Part::Markup(",0)rotate(-55)")]),
    }
}

/// Appends the label of a mark, of which so much is shown.
fn add_words(out: &mut Text, mark: &Mark<'_>, front: &[u8]) -> Result<(), OutOfMemory>
    ensures { OnOk result (IsDrawn out.old.bytes → IsDrawn out.new.bytes) }
{
    add_parts(
        out,
        &[
            Part::Markup("'><text class='"),
            Part::Markup(mark.shape.name()),
            Part::Markup("' x='12' y='4'>"),
            Part::Words(front),
            Part::Markup("</text></g>\n"),
        ],
    )
}

/// Appends the label of a mark.
fn add_mark_label(alloc: Global, out: &mut Text, mark: &Mark<'_>) -> Result<(), OutOfMemory>
    ensures { OnOk result (IsDrawn out.old.bytes → IsDrawn out.new.bytes) }
{
    let front = front(alloc, mark)?;
    add_words(out, mark, front.bytes())
}

/// Appends the element of a mark at a height.
fn add_element_at(alloc: Global, out: &mut Text, mark: &Mark<'_>, y: u64) -> Result<(), OutOfMemory>
    ensures { OnOk result (IsDrawn out.old.bytes → IsDrawn out.new.bytes) }
{
    add_sign(out, mark, y)?;
    add_label_place(out, mark.shape, y)?;
    add_mark_label(alloc, out, mark)
}

/// Appends the element of a mark.
pub fn add_element(
    alloc: Global,
    out: &mut Text,
    mark: &Mark<'_>,
    layout: &Layout,
) -> Result<(), OutOfMemory>
    ensures { OnOk result (IsDrawn out.old.bytes → IsDrawn out.new.bytes) }
{
    add_element_at(alloc, out, mark, layout.mark(mark.place.row))
}
