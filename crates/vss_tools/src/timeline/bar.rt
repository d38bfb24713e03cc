use crate::timeline::bar_kind::BarKind;
use crate::timeline::ending::Ending;
use crate::timeline::row_bars::MOST_TRACKS;

/// What lasts from one move to another within a band, or is noted at a move. Places from left to right are in pixels.
#[derive(Clone, Copy)]
pub struct Bar<'a> {
    pub kind: BarKind,
    /// The row in which it lies, from 0.
    pub row: usize,
    /// Its place within the row, from 0.
    pub track: usize,
    /// The set of an image or of a set; the context of a session; how many slots or images.
    pub number: u64,
    /// The line of the report by which an image was cut.
    pub cut: u64,
    pub from: u64,
    pub to: u64,
    pub ending: Ending<'a>,
}

impl Bar<'_> {
    /// The class of its drawing. An image of which nobody told when it went looks as one that is not sure.
    pub fn class(&self) -> &'static str {
        match self.ending {
            Ending::Unknown => BarKind::Making.class(),
            _ => self.kind.class(),
        }
    }

    /// Whether it is an image, made or being made.
    pub fn is_image(&self) -> bool {
        matches!(self.kind, BarKind::Making | BarKind::Image)
    }

    /// How many pixels the words take that say what it is.
    fn name_width(&self) -> u64 {
        let digits = if self.kind.has_number() {
            digits_of(self.number)
        } else {
            0
        };
        let letters = (self.kind.words().len() as u64).saturating_add(digits);
        letters.saturating_mul(LETTER)
    }

    /// Whether these words have room in it.
    fn has_room(&self) -> bool {
        self.from
            .saturating_add(LETTER)
            .saturating_add(self.name_width())
            < self.to
    }

    /// The class of these words: those on the full colour of an image are light.
    pub fn class_of_name(&self) -> &'static str {
        match self.kind {
            BarKind::Used => "used",
            BarKind::Image => if self.has_room() { "light" } else { "small" },
            _ => "small",
        }
    }

    /// Where these words begin: in it, or behind its end where they have no room in it.
    pub fn name_at(&self) -> u64 {
        if self.has_room() || self.kind.is_words() {
            self.from.saturating_add(LETTER)
        } else if self.ending.sign().is_none() {
            self.to.max(self.from.saturating_add(4)).saturating_add(3)
        } else {
            self.to.saturating_add(8)
        }
    }

    /// The first place on its right that is free of them.
    fn end_of_name(&self) -> u64 {
        self.name_at()
            .saturating_add(self.name_width())
            .saturating_add(LETTER)
    }

    /// Whether what is written in it is left out: it is of an image that is not drawn; or it has no room, and the image that goes on behind
    /// it has the same words.
    pub fn is_mute(&self) -> bool {
        if MOST_TRACKS <= self.track {
            return self.kind != BarKind::More;
        }
        self.kind == BarKind::Making
            && matches!(self.ending, Ending::Done)
            && self.to < self.end_of_name()
    }

    /// Where it is written how it ends: behind its end and what is written in it.
    pub fn ending_at(&self) -> u64 {
        self.to.saturating_add(8).max(self.end_of_name())
    }

    /// The first place on its right that is free of its words.
    pub fn end_of_words(&self) -> u64 {
        let words = self.ending.words().len();
        let words = words.saturating_add(self.ending.result().len());
        let width = (words as u64).saturating_mul(LETTER);
        self.ending_at()
            .saturating_add(width)
            .saturating_add(LETTER)
    }
}

/// How many digits a number has.
fn digits_of(number: u64) -> u64 {
    let mut left = number;
    let mut digits = 1u64;
    for _place in 0..19 {
        left /= 10;
        if left > 0 {
            digits = digits.saturating_add(1);
        }
    }
    digits
}

/// How many pixels a letter of a bar's words takes.
const LETTER: u64 = 6;
