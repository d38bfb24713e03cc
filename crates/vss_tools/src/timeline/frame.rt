use crate::timeline::part::Part;
use std::alloc::Global;
use vss_names::OutOfMemory;

/// What is drawn beside the elements of marks. Places are in pixels.
#[derive(Drop)]
pub struct Frame<'a> {
    pub parts: Vec<Part<'a>>,
}

impl<'a> Frame<'a> {
    /// Nothing.
    pub fn new(alloc: Global) -> Frame<'a> {
        Frame {
            parts: Vec::new(alloc),
        }
    }

    /// Appends parts.
    pub fn add(&mut self, parts: &[Part<'a>]) -> Result<(), OutOfMemory> {
        for part in parts {
            self.parts.push(*part)?;
        }
        Ok(())
    }

    /// From here on places count from this one, until the group's end.
    pub fn group(&mut self, x: u64, y: u64) -> Result<(), OutOfMemory> {
        self.add(&[
            Part::Markup("<g transform='translate("),
            Part::Number(x),
            Part::Markup(","),
            Part::Number(y),
            Part::Markup(")'>\n"),
        ])
    }

    /// Ends a group.
    pub fn end(&mut self) -> Result<(), OutOfMemory> {
        self.add(&[Part::Markup("</g>\n")])
    }

    /// A rectangle of a class of the style sheet; units are those of the picture.
    pub fn rect(
        &mut self,
        class: &'static str,
        x: u64,
        y: u64,
        width: u64,
        height: u64,
    ) -> Result<(), OutOfMemory> {
        self.add(&[
            Part::Markup("<rect class='"),
            Part::Markup(class),
            Part::Markup("' x='"),
            Part::Number(x),
            Part::Markup("' y='"),
            Part::Number(y),
            Part::Markup("' width='"),
            Part::Number(width),
            Part::Markup("' height='"),
            Part::Number(height),
            Part::Markup("'/>\n"),
        ])
    }

    /// A line downwards through all rows.
    pub fn upright(&mut self, class: &'static str, x: u64, bottom: u64) -> Result<(), OutOfMemory> {
        self.add(&[
            Part::Markup("<path class='"),
            Part::Markup(class),
            Part::Markup("' d='M"),
            Part::Number(x),
            Part::Markup(" 0V"),
            Part::Number(bottom),
            Part::Markup("'/>\n"),
        ])
    }

    /// A sign of the legend, by name, with its corner at this place.
    pub fn sign(&mut self, name: &'static str, x: u64, y: u64) -> Result<(), OutOfMemory> {
        self.add(&[
            Part::Markup("<use href='#"),
            Part::Markup(name),
            Part::Markup("' x='"),
            Part::Number(x),
            Part::Markup("' y='"),
            Part::Number(y),
            Part::Markup("'/>\n"),
        ])
    }

    /// Words of a class: some that are fixed, and a text or a number behind them.
    pub fn words(
        &mut self,
        class: &'static str,
        x: u64,
        y: u64,
        fixed: &'static str,
        more: Part<'a>,
    ) -> Result<(), OutOfMemory> {
        self.add(&[
            Part::Markup("<text class='"),
            Part::Markup(class),
            Part::Markup("' x='"),
            Part::Number(x),
            Part::Markup("' y='"),
            Part::Number(y),
            Part::Markup("'>"),
            Part::Markup(fixed),
            more,
            Part::Markup("</text>\n"),
        ])
    }
}
