use super::showing::add_shown;
use std::alloc::Global;
use vss_names::OutOfMemory;

/// How many names are listed.
const MOST_LISTED: usize = 12;

/// A piece of a line that is said.
#[derive(Clone, Copy)]
pub enum Piece<'a> {
    /// Words as they stand.
    Words(&'a str),
    /// Bytes that were given, as they are shown.
    Shown(&'a [u8]),
    /// A number in decimal digits.
    Number(u64),
    /// The question whether this word was meant, where there is one.
    Meant(Option<&'a [u8]>),
    /// The first of these names, with commas, and how many more there are.
    Listed(&'a [&'a [u8]]),
    /// Whose a member of a document is: of the component with this place, from 0, or of the document.
    Of(Option<usize>),
}

/// Adds a number in decimal digits.
fn add_number(text: &mut String, alloc: Global, number: u64) -> Result<(), OutOfMemory> {
    text.push_str(format!(in alloc; "{number}")?.as_str())?;
    Ok(())
}

/// Adds the first of these names, with commas, and how many more there are.
fn add_names(text: &mut String, alloc: Global, names: &[&[u8]]) -> Result<(), OutOfMemory> {
    let first = names.get(..MOST_LISTED).unwrap_or(names);
    for (place, name) in first.iter().enumerate() {
        text.push_str(if place == 0 { "" } else { ", " })?;
        add_shown(text, name)?;
    }
    let more = names.len().saturating_sub(first.len());
    if more > 0 {
        text.push_str(" and ")?;
        add_number(text, alloc, more as u64)?;
        text.push_str(" more")?;
    }
    Ok(())
}

impl Piece<'_> {
    /// Adds the piece to a text.
    pub fn add_to(self, text: &mut String, alloc: Global) -> Result<(), OutOfMemory> {
        match self {
            Piece::Words(words) => Ok(text.push_str(words)?),
            Piece::Shown(bytes) => add_shown(text, bytes),
            Piece::Number(number) => add_number(text, alloc, number),
            Piece::Listed(names) => add_names(text, alloc, names),
            Piece::Meant(None) | Piece::Of(None) => Ok(()),
            Piece::Meant(Some(word)) => {
                text.push_str("; did you mean `")?;
                add_shown(text, word)?;
                Ok(text.push_str("`?")?)
            }
            Piece::Of(Some(place)) => {
                text.push_str(" of component ")?;
                add_number(text, alloc, place.saturating_add(1) as u64)
            }
        }
    }
}
