//! Why a line of a scenario is refused: what stands there, and what its reader expected.

use super::bad_line::BadLine;
use super::byte_hint::say_bad_byte;
use super::document_hint::say_document;
use super::field_hint::{
    say_answered, say_code, say_codes, say_missing, say_new_name, say_number, say_order,
    say_undeclared,
};
use super::form_hint::{say_forms, words_at};
use super::near::say_nearest;
use super::notes::Notes;
use super::piece::Piece::{Number, Shown, Words};
use super::showing::marked_line;
use scenario::{Expected, Reason, Refusal, Word};
use std::alloc::Global;
use vss_names::OutOfMemory;

/// The words that lines begin with.
fn first_words(alloc: Global) -> Result<Vec<&'static [u8]>, OutOfMemory> {
    let mut words = Vec::new(alloc);
    for word in &Word::ALL {
        words.push(word.name().as_bytes())?;
    }
    Ok(words)
}

/// Says that no line begins so.
fn say_first_word(notes: &mut Notes, bad: &BadLine<'_>) -> Result<(), OutOfMemory> {
    let first = bad.first();
    if first.is_empty() {
        return notes.add("the line begins with a space; its word stands first");
    }
    if bad.bytes == b"report 1".as_slice() {
        return notes.add("this is a report of a run and no scenario: are two files swapped?");
    }
    if bad.bytes == b"job 1".as_slice() {
        return notes.add("this is a job of a backup: ./backup FOLDER JOB");
    }
    let words = first_words(notes.alloc())?;
    if !say_nearest(notes, "no line begins with `{}`{}", first, &words)? {
        notes.add("docs/FORMATS.md has all words, and examples/ scenarios to begin with")?;
    }
    Ok(())
}

/// Says what has to stand above the line, or must not.
fn say_place(notes: &mut Notes, bad: &BadLine<'_>) -> Result<(), OutOfMemory> {
    let word = Shown(bad.first());
    match bad.refusal.cause.expected {
        Expected::Opening if bad.text.is_empty() => notes.add(
            "the input is empty; a scenario begins with the line `scenario 1`",
        ),
        Expected::Opening if bad.refusal.cause.reason == Reason::Empty => notes.add(
            "there is no line `scenario 1`, with which a scenario begins",
        ),
        Expected::Opening => notes.say(
            "`scenario 1` comes first: put it into a line above `{}`",
            &[word],
        ),
        Expected::OneOpening => notes.add(
            "`scenario 1` stands once, as the first line that is neither empty nor a comment",
        ),
        Expected::NoLane => notes.say(
            "`{}` stands above the first lane, which begins in line {}",
            &[word, Number(bad.line_above(b"lane").unwrap_or(0) as u64)],
        ),
        _ => notes.say(
            "`{}` is a line of a lane, and there is no lane above: `lane NAME` begins one",
            &[word],
        ),
    }
}

/// Says which space is one too many.
fn say_space(notes: &mut Notes, bad: &BadLine<'_>, at: usize) -> Result<(), OutOfMemory> {
    let place = at.saturating_add(1);
    if place == bad.bytes.len() {
        return notes.add("a space stands at the end of the line");
    }
    notes.say(
        "character {} is a second space; before each field stands one",
        &[Number(place as u64)],
    )
}

/// Says that no form has so many fields.
fn say_count(notes: &mut Notes, bad: &BadLine<'_>, word: Word) -> Result<(), OutOfMemory> {
    if word.takes_rest() {
        notes.add("behind the name the rest of the line is missing")?;
    } else {
        notes.say(
            "no form of this line has so many fields, {}",
            &[Number(bad.fields() as u64)],
        )?;
    }
    for two in bad.bytes.windows(2) {
        if two == b" #".as_slice() {
            return notes.add("a comment is a line of its own, which begins with `#`");
        }
    }
    Ok(())
}

/// Says which word, or words, a form has there.
fn say_fixed_word(notes: &mut Notes, bad: &BadLine<'_>) -> Result<(), OutOfMemory> {
    let Some(word) = bad.word() else {
        return Ok(());
    };
    if say_missing(notes, bad)? {
        return match word {
            Word::Answer => say_codes(notes),
            _ => Ok(()),
        };
    }
    let words = words_at(notes.alloc(), word, bad.fields(), bad.field())?;
    notes.say(
        "`{}` stands where {} has to",
        &[Shown(bad.found()), Words(words.as_str())],
    )
}

/// The place of the space that is one too many, where it made the line be refused.
fn space_of(bad: &BadLine<'_>) -> Option<usize> {
    let word = bad.word()?;
    let is_its_doing = match bad.refusal.cause.expected {
        Expected::Form | Expected::Word => !word.takes_rest(),
        _ => bad.refusal.cause.found.is_some() && bad.found().is_empty(),
    };
    if is_its_doing {
        bad.wrong_space()
    } else {
        None
    }
}

/// Says what the reader expected of a line or its field.
fn say_expected(notes: &mut Notes, bad: &BadLine<'_>) -> Result<(), OutOfMemory> {
    match bad.refusal.cause.expected {
        Expected::Newline => notes.add(
            "the last line has no newline at its end: echo >> FILE adds one",
        ),
        Expected::FirstWord => say_first_word(notes, bad),
        Expected::Number {
            quantity,
            least,
            most,
        } => say_number(notes, bad, quantity, least, most),
        Expected::NewName { kind, taken } => say_new_name(notes, bad, kind, taken),
        Expected::Declared(kind) => say_undeclared(notes, bad, kind),
        Expected::Word => say_fixed_word(notes, bad),
        Expected::Order => say_order(notes, bad),
        Expected::Code => say_code(notes, bad),
        Expected::NewAnswer => say_answered(notes, bad),
        Expected::AtMost { what, most } => notes.say(
            "a scenario has at most {} {}",
            &[Number(most), Words(what)],
        ),
        Expected::Form => match bad.word() {
            Some(word) => say_count(notes, bad, word),
            None => Ok(()),
        },
        Expected::Printable | Expected::Document => Ok(()),
        Expected::Opening | Expected::OneOpening | Expected::NoLane | Expected::Lane => say_place(
            notes, bad,
        ),
    }
}

/// Whether the forms of the line's word help.
fn shows_forms(expected: Expected) -> bool {
    match expected {
        Expected::Form | Expected::Word => true,
        Expected::Number { .. } | Expected::NewName { .. } | Expected::Declared(_) => true,
        _ => false,
    }
}

/// Says why the line is refused, and answers the place in it to mark.
fn say_cause(notes: &mut Notes, bad: &BadLine<'_>) -> Result<Option<usize>, OutOfMemory> {
    let cause = bad.refusal.cause;
    if let Expected::Printable = cause.expected {
        return say_bad_byte(notes, bad.text, bad.bytes, bad.refusal.line == 1);
    }
    if let Expected::Document = cause.expected {
        let at = say_document(notes, bad.found())?;
        return Ok(at.map(|at| bad.mark().unwrap_or(0).saturating_add(at)));
    }
    let mut mark = bad.mark();
    match space_of(bad) {
        Some(at) => {
            say_space(notes, bad, at)?;
            mark = Some(at);
        }
        None => say_expected(notes, bad)?,
    }
    if let (Some(word), true) = (
        bad.word(),
        shows_forms(cause.expected)
            && cause.reason != Reason::DoubleName
            && cause.reason != Reason::OutOfRange,
    ) {
        say_forms(notes, word)?;
    }
    Ok(mark)
}

/// Says why a text is no scenario: its first bad line, and below it what is wrong there.
pub fn say_refusal(notes: &mut Notes, text: &[u8], refusal: &Refusal) -> Result<(), OutOfMemory> {
    let alloc = notes.alloc();
    let bad = BadLine::of(text, refusal);
    let mut said = Notes::new(alloc);
    let mark = say_cause(&mut said, &bad)?;
    if bad.start < text.len() {
        notes.put(marked_line(alloc, refusal.line, bad.bytes, mark)?.as_str())?;
    }
    notes.put(said.text())
}
