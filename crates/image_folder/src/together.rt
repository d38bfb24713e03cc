//! Which volumes were last brought to their files by one call: a line for each such call, of their names. Volumes of two lines may be of two moments.
//! Behind them a line of each file that was there (`source`).

use crate::folder::{Folder, TOGETHER};
use crate::source::{Source, keyed};
use crate::status::Status;
use vss_names::is_name;

/// A volume that a call brings to a file, and what that is like, if it is there.
#[derive(Clone, Copy)]
pub struct Brought<'a> {
    pub name: &'a str,
    pub source: Option<Source>,
}

/// Whether a line has all these names.
fn has_all(line: &str, names: &[&str]) -> bool {
    names
        .iter()
        .all(|name| line.split(' ').any(|other| other == *name))
}

/// Whether a name is one of these volumes.
fn has(brought: &[Brought<'_>], name: &str) -> bool {
    brought.iter().any(|of| of.name == name)
}

/// Adds a line with the names of a line, but for those of these volumes, if any is left.
fn add_others(line: &str, brought: &[Brought<'_>], new: &mut String) -> Result<(), Status> {
    let start = new.len();
    for name in line.split(' ') {
        if !has(brought, name) {
            if new.len() > start {
                new.push(' ')?;
            }
            new.push_str(name)?;
        }
    }
    if new.len() > start {
        new.push('\n')?;
    }
    Ok(())
}

/// Adds what a line says of other volumes than these.
fn add_rest(line: &str, brought: &[Brought<'_>], new: &mut String) -> Result<(), Status> {
    match keyed(line) {
        None => add_others(line, brought, new),
        Some((_, name, _)) if has(brought, name) => Ok(()),
        Some(_) => Ok(write!(new, "{line}\n")?),
    }
}

/// Adds a line of each file of these volumes that was there.
fn add_sources(brought: &[Brought<'_>], new: &mut String) -> Result<(), Status> {
    for Brought { name, source } in brought {
        if let Some(source) = source {
            write!(new, "={name} {source}\n")?;
        }
    }
    Ok(())
}

/// Adds a line of the names of these volumes, and one of each file.
fn add_lines(brought: &[Brought<'_>], new: &mut String) -> Result<(), Status> {
    for (place, of) in brought.iter().enumerate() {
        if place > 0 {
            new.push(' ')?;
        }
        new.push_str(of.name)?;
    }
    new.push('\n')?;
    add_sources(brought, new)
}

/// Whether this is a line of names, or one of a file.
fn is_line(line: &str) -> bool {
    keyed(line).is_some() || line.split(' ').all(|name| is_name(name.as_bytes()))
}

/// Whether these are such lines, if any.
fn are_lines(lines: &str) -> bool {
    (lines.is_empty() || lines.ends_with("\n")) && lines.lines().all(|line| is_line(line))
}

/// The lines of a list, or none of one that is damaged, of which that was said.
pub fn unless_damaged(lines: Result<String, Status>) -> Result<Option<String>, Status> {
    match lines {
        Ok(lines) => Ok(Some(lines)),
        Err(Status::Damaged) => Ok(None),
        Err(status) => Err(status),
    }
}

impl Folder {
    /// The lines; a folder of an earlier program has none. Of a list that is damaged nothing is answered.
    pub fn together(&self) -> Result<Option<String>, Status> {
        match self.list(TOGETHER)? {
            None => Ok(Some(String::new(self.program.alloc()))),
            Some(lines) => Ok(are_lines(lines.as_str()).then_some(lines)),
        }
    }

    /// The lines; of a list that is damaged that is said.
    pub fn lines_together(&self) -> Result<String, Status> {
        match self.together()? {
            Some(lines) => Ok(lines),
            None => Err(self.no_list(TOGETHER)),
        }
    }

    /// Whether its lists are whole. Of each that is not that is said.
    pub fn has_lists(&self) -> Result<bool, Status> {
        let together = unless_damaged(self.lines_together())?;
        let dates = unless_damaged(self.dates())?;
        Ok(together.is_some() && dates.is_some())
    }

    /// Whether it is known that volumes were last brought to their files by one call.
    pub fn are_together(&self, names: &[&str]) -> Result<bool, Status> {
        match unless_damaged(self.lines_together())? {
            Some(lines) => Ok(lines.lines().any(|line| has_all(line, names))),
            None => Ok(false),
        }
    }

    /// Makes the list anew with what it says of other volumes than these, and with these if they are together.
    fn put_together(&self, brought: &[Brought<'_>], are_together: bool) -> Result<(), Status> {
        let alloc = self.program.alloc();
        let old = unless_damaged(self.lines_together())?.unwrap_or(String::new(alloc));
        let mut new = String::new(alloc);
        for line in old.lines() {
            add_rest(line, brought, &mut new)?;
        }
        if are_together {
            add_lines(brought, &mut new)?;
        }
        if new.as_str() == old.as_str() {
            return Ok(());
        }
        self.put_list(TOGETHER, new.as_str())
    }

    /// Notes that a call brings these volumes to files.
    pub fn note_together(&self, brought: &[Brought<'_>]) -> Result<(), Status> {
        self.put_together(brought, true)
    }

    /// Notes that these volumes may have blocks of several moments.
    pub fn note_apart(&self, brought: &[Brought<'_>]) -> Result<(), Status> {
        self.put_together(brought, false)
    }
}
