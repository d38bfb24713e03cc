//! Why the words of a command are no command.

use super::near::say_nearest;
use super::notes::Notes;
use super::piece::Piece::{Number, Shown, Words};
use scenario::Reason;
use scenario::numbers::number_in;
use vss_names::OutOfMemory;

const COMMANDS: [&[u8]; 4] = [b"run", b"gen", b"inspect", b"help"];

/// Says of a word where `gen` has its number why it is none that it takes.
fn say_number(notes: &mut Notes, word: Option<&str>) -> Result<bool, OutOfMemory> {
    let Some(word) = word else {
        notes.add("behind `gen` a number is missing: 0 to 4294967295")?;
        return Ok(true);
    };
    let form = match number_in(word.as_bytes(), 0, 4_294_967_295) {
        Ok(_) => return Ok(false),
        Err(Reason::OutOfRange) => "`{}` is too large: the number is 0 to 4294967295",
        Err(_) => "`{}` is no number: 0 to 4294967295, in decimal digits without zeros before them",
    };
    notes.say(form, &[Shown(word.as_bytes())])?;
    Ok(true)
}

/// Says of the word where a folder may stand, and of those behind it, what is wrong.
fn say_folder(notes: &mut Notes, words: &[String]) -> Result<(), OutOfMemory> {
    match (words.first(), words.get(1)) {
        (Some(folder), _) if folder.starts_with("-") => notes.say(
            "`{}` begins with `-`, and there are no options; a folder of that name is `./{}`",
            &[Shown(folder.as_bytes()), Shown(folder.as_bytes())],
        ),
        (_, Some(more)) => notes.say(
            "`{}` is one word too many; a folder whose name has spaces stands in quotes",
            &[Shown(more.as_bytes())],
        ),
        (Some(folder), None) if folder.is_empty() => notes.add("the folder's name is empty"),
        _ => Ok(()),
    }
}

/// Says which of the words is wrong, and why.
pub fn say_words(notes: &mut Notes, words: &[String]) -> Result<(), OutOfMemory> {
    let Some(first) = words.first() else {
        return notes.add("a command is missing");
    };
    let rest = words.get(1..).unwrap_or(&[]);
    match first.as_str() {
        "run" => say_folder(notes, rest),
        "gen" => {
            if say_number(notes, rest.first().map(|word| word.as_str()))? {
                return Ok(());
            }
            say_folder(notes, rest.get(1..).unwrap_or(&[]))
        }
        "inspect" => notes.add(
            "behind `inspect` stands no word: the area is read from the standard input",
        ),
        _ => {
            say_nearest(notes, "`{}` is no command{}", first.as_bytes(), &COMMANDS)?;
            Ok(())
        }
    }
}

/// The word at a place, or none where it is missing, which is said.
pub fn word_at<'a>(
    notes: &mut Notes,
    words: &'a [String],
    at: usize,
    name: &str,
) -> Option<&'a str> {
    let word = words.get(at);
    if word.is_none() {
        let _ = notes.say("{} is missing", &[Words(name)]);
    }
    Some(word?.as_str())
}

/// The name of a file at a place, or none where that is no name, which is said.
pub fn file_at<'a>(
    notes: &mut Notes,
    words: &'a [String],
    at: usize,
    name: &'a str,
) -> Option<&'a str> {
    let word = word_at(notes, words, at, name)?;
    let form = if word.is_empty() {
        "{} is empty, and no name of a file"
    } else if word.starts_with("-") {
        "{} is `{}`: a file whose name begins with `-` is `./{}`"
    } else {
        return Some(word);
    };
    let _ = notes.say(form, &[Words(name), Words(word), Words(word)]);
    None
}

/// The number that a word is, or none where it is none from one to another, which is said.
pub fn number_of<'a>(
    notes: &mut Notes,
    name: &'a str,
    word: &'a str,
    least: u32,
    most: u32,
) -> Option<u32> {
    let (least, most) = (u64::from(least), u64::from(most));
    let form = match number_in(word.as_bytes(), least, most) {
        Ok(number) => return u32::try_from(number).ok(),
        Err(Reason::OutOfRange) => "{} is `{}`, and has to be {} to {}",
        Err(_) =>
            "{} is `{}`, and no number: {} to {}, in decimal digits without zeros before them",
    };
    let shown = Shown(word.as_bytes());
    let _ = notes.say(form, &[Words(name), shown, Number(least), Number(most)]);
    None
}
