//! What the file of a volume was like as it was brought in: a line `KEY=NAME MODE SECONDS NANOS USER GROUP`, the mode in octal. KEY is the set of an
//! image (`dates`), and nothing for the volume as it is (`together`).

use crate::folder::Folder;
use crate::pair::set_of;
use crate::status::Status;
use crate::together::unless_damaged;
use std::alloc::AllocError;
use std::fmt;
use std::fs::Metadata;
use std::os::unix::fs::MetadataExt;

/// Who may do what with a file, when it was last written, since the year 1970, and whose it is.
#[derive(Clone, Copy)]
pub struct Source {
    pub mode: u32,
    pub seconds: u64,
    pub nanos: u32,
    pub user: u32,
    pub group: u32,
}

/// The bits of a mode that are kept: who may read, write and run it.
const RIGHTS: u32 = 0o777;

/// How many nanoseconds a second has.
const SECOND: u32 = 1_000_000_000;

impl Source {
    /// That of a file that was found.
    pub fn of(found: &Metadata) -> Source {
        Source {
            mode: found.mode() & RIGHTS,
            seconds: u64::try_from(found.mtime()).unwrap_or(0),
            nanos: u32::try_from(found.mtime_nsec()).unwrap_or(0),
            user: found.uid(),
            group: found.gid(),
        }
    }

    /// That which words say.
    fn parse(text: &str) -> Option<Source> {
        let mut words = text.split(' ');
        let source = Source {
            mode: u32::from_str_radix(words.next()?, 8).ok()? & RIGHTS,
            seconds: words.next()?.parse::<u64>().ok()?,
            nanos: words.next()?.parse::<u32>().ok()?,
            user: words.next()?.parse::<u32>().ok()?,
            group: words.next()?.parse::<u32>().ok()?,
        };
        (source.nanos < SECOND).then_some(source)
    }
}

impl fmt::Display for Source {
    fn fmt<W: fmt::Write>(&self, f: &mut fmt::Formatter<W>) -> fmt::Result {
        let Source {
            mode,
            seconds,
            nanos,
            user,
            group,
        } = *self;
        write!(f, "{mode:o} {seconds} {nanos} {user} {group}")
    }
}

/// The set of which a line is, none of the present, the name of its volume, and what it says.
pub fn keyed(line: &str) -> Option<(Option<u32>, &str, Source)> {
    let (word, text) = line.split_once(' ')?;
    let (key, name) = word.split_once('=')?;
    let set = match key {
        "" => None,
        key => Some(set_of(key)?),
    };
    Some((set, name, Source::parse(text)?))
}

/// What lines say of the file of the volume of a name, as it is or was at a set.
pub fn source_in(lines: &str, set: Option<u32>, name: &str) -> Option<Source> {
    for line in lines.lines() {
        match keyed(line) {
            Some((of, word, source)) if of == set && word == name => return Some(source),
            _ => {}
        }
    }
    None
}

/// Adds the line of the image that a set is cut of the volume of a name, if lines say what its file is like.
pub fn add_source(
    lines: &str,
    set: u32,
    name: &str,
    sources: &mut String,
) -> Result<(), AllocError> {
    match source_in(lines, None, name) {
        Some(source) => write!(sources, "{set}={name} {source}\n"),
        None => Ok(()),
    }
}

impl Folder {
    /// What is kept of the file of the volume of a name, as it is or was at a set. Of a list that is damaged that is said, and nothing is kept.
    pub fn source_of(&self, set: Option<u32>, name: &str) -> Result<Option<Source>, Status> {
        let lines = match set {
            Some(_) => self.dates(),
            None => self.lines_together(),
        };
        match unless_damaged(lines)? {
            Some(lines) => Ok(source_in(lines.as_str(), set, name)),
            None => Ok(None),
        }
    }
}
