use super::showing::part;
use scenario::{Refusal, Span, Word};

/// A refused line, with the text that it stands in.
#[derive(Clone, Copy)]
pub struct BadLine<'a> {
    pub text: &'a [u8],
    pub refusal: &'a Refusal,
    /// Its bytes, without the newline.
    pub bytes: &'a [u8],
    /// Where it begins in the text.
    pub start: usize,
}

/// How many bytes of this kind there are.
fn count_of(bytes: &[u8], kind: u8) -> usize {
    bytes.iter().filter(|byte| **byte == kind).count()
}

/// Where the line of this number begins, or the text ends.
fn start_of(text: &[u8], number: u32) -> usize {
    let mut line = 1u32;
    for (at, byte) in text.iter().enumerate() {
        if line == number {
            return at;
        }
        if *byte == b'\n' {
            line = line.saturating_add(1);
        }
    }
    text.len()
}

/// The bytes up to the first of this kind.
fn up_to(bytes: &[u8], last: u8) -> &[u8] {
    let len = bytes.iter().take_while(|byte| **byte != last).count();
    part(bytes, 0, len)
}

impl<'a> BadLine<'a> {
    /// The line of the text that the refusal names.
    pub fn of(text: &'a [u8], refusal: &'a Refusal) -> BadLine<'a> {
        let start = start_of(text, refusal.line);
        BadLine {
            text,
            refusal,
            bytes: up_to(part(text, start, text.len()), b'\n'),
            start,
        }
    }

    /// Its first word.
    pub fn first(&self) -> &'a [u8] {
        up_to(self.bytes, b' ')
    }

    /// The line's first word, if it is one of the language.
    pub fn word(&self) -> Option<Word> {
        Word::of(self.first())
    }

    /// The bytes of a part of the text.
    pub fn at(&self, span: Span) -> &'a [u8] {
        part(self.text, span.start as usize, span.end as usize)
    }

    /// The part that does not pass; all of it where it is the line as a whole.
    pub fn found(&self) -> &'a [u8] {
        match self.refusal.cause.found {
            Some(span) => self.at(span),
            None => self.bytes,
        }
    }

    /// Where in the line that part begins, where it is one.
    pub fn mark(&self) -> Option<usize> {
        let span = self.refusal.cause.found?;
        Some((span.start as usize).saturating_sub(self.start))
    }

    /// The number of the field that does not pass, from 1.
    pub fn field(&self) -> usize {
        count_of(part(self.bytes, 0, self.mark().unwrap_or(0)), b' ')
    }

    /// How many fields it has, where none is the rest of the line.
    pub fn fields(&self) -> usize {
        count_of(self.bytes, b' ')
    }

    /// The number of the line in which a part of the text stands.
    pub fn line_of(&self, span: Span) -> usize {
        count_of(part(self.text, 0, span.start as usize), b'\n').saturating_add(1)
    }

    /// The number of the first line above that begins with these bytes and a space.
    pub fn line_above(&self, beginning: &[u8]) -> Option<usize> {
        let mut number = 1usize;
        for line in part(self.text, 0, self.start).split(|byte| *byte == b'\n') {
            if line.starts_with(beginning) && line.get(beginning.len()) == Some(&b' ') {
                return Some(number);
            }
            number = number.saturating_add(1);
        }
        None
    }

    /// Where two spaces stand in a row, or the one at the end of the line.
    pub fn wrong_space(&self) -> Option<usize> {
        let mut last = b' ';
        for (at, byte) in self.bytes.iter().enumerate() {
            if *byte == b' ' && last == b' ' {
                return Some(at);
            }
            last = *byte;
        }
        if last == b' ' {
            return Some(self.bytes.len().saturating_sub(1));
        }
        None
    }
}
