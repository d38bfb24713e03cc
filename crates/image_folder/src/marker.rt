ghost use Rattle.std.specs.Prelude.{◌<◌, length};

use crate::naming::name_in;
use crate::opened::Files;
use crate::pair::number_of;
use crate::parts::{part_name, text_of};
use block_data::digest;
use std::alloc::{AllocError, Global};
use std::fmt;
use vss_catalog::Catalog;
use vss_names::{MOST_BLOCKS, MOST_VOLUMES, OutOfMemory, is_name};

/// The word before the digest in the first line of a marker or a list.
const DIGEST: &str = "sha256 ";

/// What a folder's marker says: the call that has it open or did not end, and the volumes whose present contents are in transit, a line each.
#[derive(Drop)]
pub struct Marker {
    /// Empty where the marker is not of the form; then each volume is in transit.
    text: String,
    /// The names of the further parts of the files that it names, a line each.
    parts: String,
}

/// The file of a marker, or of a list, with these lines: the digest of them comes first.
pub fn sealed(alloc: Global, lines: &str) -> Result<String, AllocError> {
    let digits = hex::encode(alloc, digest(lines.as_bytes()).as_slice())?;
    format!(in alloc; "{DIGEST}{digits}\n{lines}")
}

/// The lines below their digest, or else the text as it is: a file of an earlier form has no digest, and one that is damaged has no form.
pub fn lines_in(alloc: Global, text: &str) -> Result<&str, AllocError> {
    let (_, lines) = text.split_once('\n').unwrap_or(("", text));
    let is_whole = sealed(alloc, lines)?.as_str() == text;
    Ok(if is_whole { lines } else { text })
}

/// The name of a volume.
pub fn name_of(catalog: &Catalog, volume: u32) -> &str
    requires { volume < length catalog.now }
{
    std::str::from_utf8(catalog.name(volume).bytes()).unwrap_or("")
}

/// Whether a volume has this name.
pub fn is_volume(catalog: &Catalog, name: &str) -> bool {
    for volume in 0..catalog.volumes() {
        if name_of(catalog, volume) == name {
            return true;
        }
    }
    false
}

/// The blocks of the volume of a name, none if there is none.
fn blocks_named(catalog: &Catalog, name: &str) -> u32 {
    for volume in 0..catalog.volumes() {
        if name_of(catalog, volume) == name {
            return catalog.blocks(volume);
        }
    }
    0
}

/// Adds a line of the name of each further part of a file.
fn add_parts(
    alloc: Global,
    catalog: &Catalog,
    name: &str,
    parts: &mut String,
) -> Result<(), OutOfMemory> {
    if blocks_named(catalog, name) < MOST_BLOCKS {
        return Ok(());
    }
    for number in 1..MOST_VOLUMES {
        let part = part_name(alloc, name.as_bytes(), number)?;
        if !is_volume(catalog, text_of(&part)) {
            break;
        }
        write!(parts, "{}\n", text_of(&part))?;
    }
    Ok(())
}

/// The file that a line adds, takes away or gives more volumes, and of how many parts: of one if there is no number.
fn named_in(line: &str) -> Option<(&str, u32)> {
    let Some(("add" | "remove" | "grow", words)) = line.split_once(' ') else {
        return None;
    };
    let (name, parts) = match words.split_once(' ') {
        Some((name, parts)) => (name, number_of(parts)?),
        None => (words, 1),
    };
    (is_name(name.as_bytes()) && parts <= MOST_VOLUMES).then_some((name, parts))
}

/// The line of a call by which so many parts of a file come or go.
pub fn line_of_parts(
    alloc: Global,
    word: &str,
    name: &str,
    parts: usize,
) -> Result<String, AllocError> {
    if parts == 1 {
        return format!(in alloc; "{word} {name}\n");
    }
    format!(in alloc; "{word} {name} {parts}\n")
}

/// Whether the call that a line is has volumes in transit, if it is one that may leave a marker.
fn has_names(line: &str) -> Option<bool> {
    match line {
        "cut" | "delete" | "grow" => return Some(false),
        "update" | "revert" => return Some(true),
        _ => {}
    }
    named_in(line)?;
    Some(false)
}

/// Whether lines are a call that may leave a marker, and the volumes of the catalog that it has in transit: some, or none for one that leaves
/// all volumes as they are.
fn has_form(lines: &str, catalog: &Catalog) -> bool {
    let mut names = lines.lines();
    let Some(has_some) = has_names(names.next().unwrap_or("")) else {
        return false;
    };
    let mut count = 0u32;
    for name in names {
        if !is_volume(catalog, name) {
            return false;
        }
        count = count.saturating_add(1);
    }
    lines.ends_with("\n") && has_some == (count > 0)
}

impl Marker {
    /// What the bytes of a marker say, in a folder of these volumes.
    pub fn of(alloc: Global, bytes: &[u8], catalog: &Catalog) -> Result<Marker, OutOfMemory> {
        let text = std::str::from_utf8(bytes).unwrap_or("");
        let lines = lines_in(alloc, text)?;
        let lines = if has_form(lines, catalog) { lines } else { "" };
        let mut parts = String::new(alloc);
        for name in lines.lines().skip(1) {
            add_parts(alloc, catalog, name, &mut parts)?;
        }
        Ok(Marker {
            text: String::from_str(alloc, lines)?,
            parts,
        })
    }

    /// Whether files of the folder may be longer than they count.
    pub fn lets_grow(&self) -> bool {
        self.text.starts_with("grow")
    }

    /// Whether the area may end behind its last slot in use.
    pub fn lets_shrink(&self) -> bool {
        let call = self.text.lines().next().unwrap_or("");
        matches!(call, "delete" | "revert") || call.starts_with("remove ")
    }

    /// The file of which so many volumes may be there though they do not count.
    pub fn left(&self) -> Option<(&str, u32)> {
        named_in(self.text.lines().next()?)
    }

    /// Whether the present contents of a volume are in transit.
    pub fn has(&self, store: &Files, volume: u32) -> bool
        requires { volume < length store.now.group.area.volumes }
    {
        self.names(name_in(store, volume))
    }

    /// Whether those of the volume of a name are.
    pub fn names(&self, name: &str) -> bool {
        let mut names = self.text.lines().skip(1).chain(self.parts.lines());
        self.text.is_empty() || names.any(|other| other == name)
    }
}

/// What is before the lines of a marker as they are shown: the call, its first volume, and each other.
const BEFORE: [&str; 3] = ["", " of ", ", "];

impl fmt::Display for Marker {
    fn fmt<W: fmt::Write>(&self, f: &mut fmt::Formatter<W>) -> fmt::Result {
        if self.text.is_empty() {
            return f.write_str("a call");
        }
        for (place, line) in self.text.lines().enumerate() {
            f.write_str(BEFORE[place.min(2)])?;
            f.write_str(line)?;
        }
        Ok(())
    }
}
