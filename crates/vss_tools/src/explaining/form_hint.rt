//! The forms of lines, as the reader has them.

use super::notes::Notes;
use super::piece::Piece::Words;
use scenario::Word;
use std::alloc::Global;
use vss_names::OutOfMemory;

/// Adds a form: the word and its fields.
fn add_form(text: &mut String, word: Word, form: &[&str]) -> Result<(), OutOfMemory> {
    text.push_str(word.name())?;
    for field in form {
        text.push_str(" ")?;
        text.push_str(field)?;
    }
    Ok(())
}

/// Says which forms the lines of a word have.
pub fn say_forms(notes: &mut Notes, word: Word) -> Result<(), OutOfMemory> {
    let mut forms = String::new(notes.alloc());
    for form in word.forms() {
        forms.push_str(if forms.is_empty() { "`" } else { "` or `" })?;
        add_form(&mut forms, word, form)?;
    }
    let said = if word.forms().len() == 1 {
        "the form is {}`"
    } else {
        "the forms are {}`"
    };
    notes.say(said, &[Words(forms.as_str())])
}

/// The words that forms of so many fields have at this place, from 1.
pub fn words_at(
    alloc: Global,
    word: Word,
    fields: usize,
    place: usize,
) -> Result<String, OutOfMemory> {
    let mut words = String::new(alloc);
    for form in word.forms() {
        if let (true, Some(field)) = (form.len() == fields, form.get(place.saturating_sub(1))) {
            words.push_str(if words.is_empty() { "`" } else { " or `" })?;
            words.push_str(field)?;
            words.push_str("`")?;
        }
    }
    Ok(words)
}

/// Says all forms, a line each.
pub fn say_all_forms(notes: &mut Notes) -> Result<(), OutOfMemory> {
    let mut forms = String::new(notes.alloc());
    for word in &Word::ALL {
        for form in word.forms() {
            add_form(&mut forms, *word, form)?;
            forms.push_str("\n")?;
        }
    }
    notes.put(forms.as_str())
}
