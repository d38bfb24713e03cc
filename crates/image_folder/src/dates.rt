//! When sets were cut, and what was noted of them: a line `SET SECONDS NOTE` of each, by the clock since the year 1970. Behind it a line of the file of
//! each of its images (`source`).

use crate::folder::{DATES, Folder};
use crate::pair::set_of;
use crate::program::Program;
use crate::source::keyed;
use crate::status::Status;
use std::time::{SystemTime, UNIX_EPOCH};

/// The most bytes of a note.
pub const MOST_NOTE: usize = 100;

/// When a set was cut, in seconds since the year 1970, and what was noted of it.
#[derive(Clone, Copy)]
pub struct Dated<'a> {
    pub seconds: u64,
    pub note: &'a str,
}

/// Whether a text may be noted of a set: printable ASCII and spaces.
pub fn is_note(text: &str) -> bool {
    let bytes = text.as_bytes();
    bytes.len() <= MOST_NOTE && bytes.iter().all(|byte| (b' '..=b'~').contains(byte))
}

/// The seconds of the clock since the year 1970; 0 of one that cannot be read.
fn seconds_now(program: &Program) -> u64 {
    let Ok(now) = SystemTime::now(&program.rt) else {
        return 0;
    };
    match now.duration_since(UNIX_EPOCH) {
        Ok(since) => since.as_secs(),
        Err(_) => 0,
    }
}

/// The set that a line is of, and what it says.
fn parted(line: &str) -> Option<(u32, Dated<'_>)> {
    let (set, rest) = line.split_once(' ')?;
    let (seconds, note) = rest.split_once(' ')?;
    let seconds = seconds.parse::<u64>().ok()?;
    Some((set_of(set)?, Dated { seconds, note }))
}

/// The set that a line is of, be it of the set or of a file.
fn set_in(line: &str) -> Option<u32> {
    match keyed(line) {
        Some((set, _, _)) => set,
        None => Some(parted(line)?.0),
    }
}

/// What lines say of a set, if it was dated.
pub fn dated_in(lines: &str, set: u32) -> Option<Dated<'_>> {
    for line in lines.lines() {
        match parted(line) {
            Some((of, dated)) if of == set => return Some(dated),
            _ => {}
        }
    }
    None
}

/// Whether these are lines of sets, one at least.
fn are_dates(lines: &str) -> bool {
    lines.ends_with("\n") && lines.lines().all(|line| set_in(line).is_some())
}

impl Folder {
    /// The lines of all sets, if there are any: sets of an earlier program have none.
    pub fn dates(&self) -> Result<String, Status> {
        match self.list(DATES)? {
            None => Ok(String::new(self.program.alloc())),
            Some(lines) if are_dates(lines.as_str()) => Ok(lines),
            Some(_) => Err(self.no_list(DATES)),
        }
    }

    /// Notes when a set is cut, of which these are the lines of files, before it lasts. Of all others only those that stand, by rising numbers, keep their
    /// lines.
    pub fn note_date(
        &self,
        standing: &[u32],
        set: u32,
        note: &str,
        sources: &str,
    ) -> Result<(), Status> {
        let old = self.dates()?;
        let mut new = String::new(self.program.alloc());
        for line in old.lines() {
            match set_in(line) {
                Some(of) if of != set && standing.binary_search(&of).is_ok() => {
                    write!(new, "{line}\n")?;
                }
                _ => {}
            }
        }
        write!(new, "{set} {} {note}\n", seconds_now(&self.program))?;
        new.push_str(sources)?;
        self.put_list(DATES, new.as_str())
    }
}
