//! `diff`: which blocks were written between the cuts of two sets, or since one. All others are the same in both.

ghost use Rattle.std.specs.Prelude.{◌<◌, length};

use crate::as_json::add_value;
use crate::sets::no_image;
use image_folder::{Files, Opened, Status, is_part, name_in, parts_in, sets_of, written_between};
use image_store::Which;
use serde_json::{Value, json};
use std::alloc::{AllocError, Global};
use vss_names::OutOfMemory;

/// A set, and another one or the present.
#[derive(Clone, Copy)]
pub struct Span {
    pub set: u32,
    pub other: Option<u32>,
}

/// What there is to say of a volume.
#[derive(Drop)]
enum Difference {
    /// How many blocks were written, and the first and the last of each run of them.
    Written {
        count: usize,
        runs: Vec<(usize, usize)>,
    },
    /// Of the two sets only this one has an image of it.
    Only(u32),
}

/// The marked blocks as runs of neighbours: the first and the last of each.
fn runs_of(alloc: Global, marks: &[bool]) -> Result<Vec<(usize, usize)>, AllocError> {
    let mut runs: Vec<(usize, usize)> = Vec::new(alloc);
    for (block, is_written) in marks.iter().enumerate() {
        match runs.last_mut() {
            _ if !*is_written => {}
            Some(run) if run.1.checked_add(1) == Some(block) => run.1 = block,
            _ => runs.push((block, block))?,
        }
    }
    Ok(runs)
}

/// Which blocks of a part of a file were written: all, if one of the sets is from before there was this part.
fn marks_of(store: &Files, alloc: Global, part: u32, span: Span) -> Result<Vec<bool>, AllocError>
    requires { part < length store.now.group.area.volumes }
{
    let images = store.images(part);
    let (other, has_other) = match span.other {
        Some(other) => (Which::Of(other), images.contains(&other)),
        None => (Which::Now, true),
    };
    if has_other && images.contains(&span.set) {
        return written_between(store, alloc, part, span.set, other);
    }
    vec![in alloc; true; store.blocks(part) as usize]
}

/// The blocks of a file that were written. The last one has its length: it counts as written if the last block of a part was.
fn written_in(
    store: &Files,
    alloc: Global,
    volume: u32,
    span: Span,
) -> Result<Difference, OutOfMemory>
    requires { volume < length store.now.group.area.volumes }
{
    let (mut marks, mut has_length) = (Vec::new(alloc), false);
    let parts = parts_in(store, alloc, volume)?;
    for (place, part) in parts.iter().enumerate() {
        if *part < store.volumes() {
            let mut more = marks_of(store, alloc, *part, span)?;
            if place.saturating_add(1) < parts.len() {
                has_length |= more.pop().unwrap_or(false);
            }
            marks.extend_from_slice(&more)?;
        }
    }
    if let Some(last) = marks.last_mut() {
        *last |= has_length;
    }
    let count = marks.iter().filter(|is_written| **is_written).count();
    let runs = runs_of(alloc, &marks)?;
    Ok(Difference::Written { count, runs })
}

/// What there is to say of a volume; none if neither set has an image of it.
fn difference_of(
    store: &Files,
    alloc: Global,
    volume: u32,
    span: Span,
) -> Result<Option<Difference>, OutOfMemory>
    requires { volume < length store.now.group.area.volumes }
{
    let images = store.images(volume);
    let has_one = images.contains(&span.set);
    Ok(match span.other {
        Some(other) if images.contains(&other) != has_one => {
            Some(Difference::Only(if has_one { span.set } else { other }))
        }
        _ if has_one => Some(written_in(store, alloc, volume, span)?),
        _ => None,
    })
}

/// Adds the line of a volume.
fn add_line(text: &mut String, name: &str, difference: &Difference) -> Result<(), AllocError> {
    let (count, runs) = match difference {
        Difference::Only(set) => return write!(text, "volume {name} only in set {set}\n"),
        Difference::Written { count, runs } => (count, runs),
    };
    write!(text, "volume {name} written {count}")?;
    for (place, (first, last)) in runs.iter().enumerate() {
        text.push_str(if place == 0 { ": " } else { "," })?;
        write!(text, "{first}")?;
        if last > first {
            write!(text, "-{last}")?;
        }
    }
    text.push('\n')
}

/// The value of a volume.
fn value_of(alloc: Global, name: &str, difference: &Difference) -> Result<Value, AllocError> {
    let (count, runs) = match difference {
        Difference::Only(set) => return json!(in alloc; { "name": name, "only": *set }),
        Difference::Written { count, runs } => (count, runs),
    };
    let mut values = Vec::new(alloc);
    for (first, last) in runs.iter() {
        values.push(json!(in alloc; [*first, *last])?)?;
    }
    json!(in alloc; { "name": name, "written": *count, "runs": Value::Array(values) })
}

/// Adds what there is to say of each volume, or of one alone: its line, or to the values its own.
fn add_volumes(
    opened: &mut Opened,
    span: Span,
    only: Option<u32>,
    values: &mut Option<Vec<Value>>,
) -> Result<(), Status> {
    let (alloc, store) = (opened.folder.program.alloc(), &opened.store);
    for volume in 0..store.volumes() {
        if only.unwrap_or(volume) != volume || is_part(store, alloc, volume)? {
            continue;
        }
        let Some(difference) = difference_of(store, alloc, volume, span)? else {
            continue;
        };
        let name = name_in(store, volume);
        match values {
            Some(values) => values.push(value_of(alloc, name, &difference)?)?,
            None => add_line(&mut opened.text, name, &difference)?,
        }
    }
    Ok(())
}

/// That there are images of the sets, on the volume of a name if there is one: it is answered.
fn check_sets(opened: &Opened, span: Span, name: Option<&str>) -> Result<Option<u32>, Status> {
    let sets = sets_of(&opened.store, opened.folder.program.alloc())?;
    let mut only = None;
    for set in [span.set, span.other.unwrap_or(span.set)] {
        match name {
            Some(name) => only = Some(opened.place_of_image(set, name)?),
            None if sets.contains(&set) => {}
            None => return Err(no_image(opened, set)),
        }
    }
    Ok(only)
}

/// `diff [--json] F SET [SET] [NAME]`: which blocks were written between two sets, or since a set.
pub fn diff(
    opened: &mut Opened,
    span: Span,
    name: Option<&str>,
    is_json: bool,
) -> Result<(), Status> {
    opened.note_transit()?;
    let only = check_sets(opened, span, name)?;
    let alloc = opened.folder.program.alloc();
    let mut values = is_json.then_some(Vec::new(alloc));
    add_volumes(opened, span, only, &mut values)?;
    let Some(values) = values else {
        return Ok(());
    };
    let other = match span.other {
        Some(other) => Value::from(other),
        None => Value::Null,
    };
    let value =
        json!(in alloc; { "set": span.set, "other": other, "volumes": Value::Array(values) })?;
    add_value(&mut opened.text, alloc, &value)
}
