//! The tool `explain`: says what is wrong with what `vss` has refused.
//!
//! `explain scenario` reads the scenario from the standard input, and asks the reader of scenarios itself why it refuses it: what it
//! says of line and reason is what `vss` says. `explain words WORD..` says which of the words given to `vss` is wrong.
//! `explain forms` says all forms of lines. It writes lines to the standard output, or nothing where there is nothing to say.

mod bad_line;
pub mod byte_hint;
mod document_hint;
mod field_hint;
mod form_hint;
pub mod line_hint;
pub mod near;
pub mod notes;
pub mod piece;
mod showing;
pub mod word_hint;

use crate::words_given;
use form_hint::say_all_forms;
use io_edge::{InSource, ReadError, read_all};
use line_hint::say_refusal;
use notes::Notes;
use scenario::refusal_of;
use vss_names::OutOfMemory;
use word_hint::say_words;

/// The most bytes of a scenario that `vss` reads.
const MOST_BYTES: usize = 16_777_216;

/// Says why the scenario that comes by the standard input is refused.
fn say_scenario(rt: &HostRuntime, notes: &mut Notes) -> Result<(), OutOfMemory> {
    let mut source = InSource::new(rt.stdin());
    let text = match read_all(rt.alloc(), &mut source, MOST_BYTES) {
        Ok(text) => text,
        Err(ReadError::OutOfMemory) => return Err(OutOfMemory),
        Err(_) => return Ok(()),
    };
    match refusal_of(rt.alloc(), text.bytes())? {
        Some(refusal) => say_refusal(notes, text.bytes(), &refusal),
        None => Ok(()),
    }
}

/// Says what the words ask for.
fn explained(rt: &HostRuntime) -> Result<Notes, OutOfMemory> {
    let mut notes = Notes::new(rt.alloc());
    let words = match words_given(rt) {
        Ok(words) => words,
        Err(_) => return Err(OutOfMemory),
    };
    match words.first() {
        Some(first) if first.as_str() == "scenario" => say_scenario(rt, &mut notes)?,
        Some(first) if first.as_str() == "words" => {
            say_words(&mut notes, words.get(1..).unwrap_or(&[]))?
        }
        Some(first) if first.as_str() == "forms" => say_all_forms(&mut notes)?,
        _ => notes.add("usage: explain scenario < FILE, words WORD.., or forms")?,
    }
    Ok(notes)
}

/// Says what the words of the program ask for, and returns the status.
pub fn explain(rt: &HostRuntime) -> u8 {
    let Ok(notes) = explained(rt) else {
        return 7;
    };
    match rt.print(notes.text()) {
        Ok(()) => 0,
        Err(_) => 5,
    }
}
