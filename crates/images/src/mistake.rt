use std::fmt;

/// Why words ask for nothing: the first that is wrong, or what is missing.
#[derive(Clone, Copy)]
pub enum Mistake<'a> {
    Missing(&'a str),
    NoCommand(&'a str),
    /// It is no option of the first word.
    NoOption(&'a str),
    Twice(&'a str),
    /// What has to be a number, from which one on, and the word.
    NoNumber(&'a str, u32, &'a str),
    NoNote,
    NoPair(&'a str),
    TooMany(&'a str),
}

impl fmt::Display for Mistake<'_> {
    fn fmt<W: fmt::Write>(&self, f: &mut fmt::Formatter<W>) -> fmt::Result {
        let word = match *self {
            Mistake::Missing(what) => return write!(f, "{what} is missing"),
            Mistake::NoCommand(word) => return write!(f, "`{word}` is none of these"),
            Mistake::NoOption(word) => return write!(f, "`{word}` is no option of it"),
            Mistake::Twice(word) => return write!(f, "`{word}` is given twice"),
            Mistake::NoNote => return f.write_str("a note has at most 100 printable bytes"),
            Mistake::NoNumber(what, least, word) => {
                write!(
                    f,
                    "{what} is `{word}`, and has to be a number from {least} on, at most 4294967295"
                )?;
                word
            }
            Mistake::NoPair(word) => {
                write!(f, "`{word}` is not of the form NAME=FILE")?;
                word
            }
            Mistake::TooMany(word) => {
                write!(f, "`{word}` is one word too many")?;
                word
            }
        };
        match word.starts_with("--") {
            true => f.write_str("; options stand before F"),
            false => Ok(()),
        }
    }
}
