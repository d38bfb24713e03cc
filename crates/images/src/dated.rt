//! `sets`: when each set was cut, and what it takes.

ghost use Rattle.std.specs.Prelude.{◌<◌, length};

use image_folder::{Files, Opened, Status, dated_in, is_part, sets_of, written_between};
use image_store::Which;
use jiff::Timestamp;
use std::alloc::{AllocError, Global};
use vss_names::OutOfMemory;

/// What a set takes.
#[derive(Clone, Copy)]
pub struct Sizes {
    pub images: u32,
    /// How many slots its images use.
    pub used: u32,
    /// How many of these are free once the set is deleted: those that no older image takes over.
    pub exclusive: u32,
}

/// How many of the slots of the image at a place, the oldest at 0, are free once it goes: those of blocks of which the next older image has
/// a copy too, or all if there is none.
fn exclusive_on(
    store: &Files,
    alloc: Global,
    volume: u32,
    place: usize,
    used: u32,
) -> Result<u32, AllocError>
    requires { volume < length store.now.group.area.volumes }
{
    let images = store.images(volume);
    let (Some(set), Some(older)) = (images.get(place), images.get(place.wrapping_sub(1))) else {
        return Ok(used);
    };
    let next = match images.get(place.saturating_add(1)) {
        Some(newer) => Which::Of(*newer),
        None => Which::Now,
    };
    let own = written_between(store, alloc, volume, *set, next)?;
    let before = written_between(store, alloc, volume, *older, Which::Of(*set))?;
    let both = own.iter().zip(before.iter()).filter(|(a, b)| **a && **b);
    Ok(u32::try_from(both.count()).unwrap_or(u32::MAX))
}

/// What a set takes.
pub fn sizes_of(store: &Files, alloc: Global, set: u32) -> Result<Sizes, OutOfMemory> {
    let (mut images, mut used, mut exclusive) = (0u32, 0u32, 0u32);
    for volume in 0..store.volumes() {
        let place = store.images(volume).iter().position(|image| *image == set);
        let (Some(place), Some(slots)) = (place, store.used_by(volume, set)) else {
            continue;
        };
        let own = exclusive_on(store, alloc, volume, place, slots)?;
        images = images.saturating_add(u32::from(!is_part(store, alloc, volume)?));
        used = used.saturating_add(slots);
        exclusive = exclusive.saturating_add(own);
    }
    Ok(Sizes {
        images,
        used,
        exclusive,
    })
}

/// Adds a moment in seconds since the year 1970.
fn add_moment(text: &mut String, seconds: u64) -> Result<(), Status> {
    let seconds = seconds.min(i64::MAX as u64) as i64;
    Ok(match Timestamp::from_second(seconds) {
        Ok(moment) => write!(text, "{moment}")?,
        Err(_) => text.push('-')?,
    })
}

/// Adds the line of a set.
fn add_set(opened: &mut Opened, lines: &str, set: u32) -> Result<(), Status> {
    let Sizes {
        images,
        used,
        exclusive,
    } = sizes_of(&opened.store, opened.folder.program.alloc(), set)?;
    let shared = used.saturating_sub(exclusive);
    let text = &mut opened.text;
    write!(text, "set {set} ")?;
    let dated = dated_in(lines, set);
    match dated {
        Some(dated) => add_moment(text, dated.seconds)?,
        None => text.push('-')?,
    }
    write!(
        text,
        " images {images} used {used} exclusive {exclusive} shared {shared}"
    )?;
    match dated {
        Some(dated) if !dated.note.is_empty() => write!(text, ": {}\n", dated.note)?,
        _ => text.push('\n')?,
    }
    Ok(())
}

/// `sets F`: a line of each set, the oldest first.
pub fn list_sets(opened: &mut Opened) -> Result<(), Status> {
    opened.note_transit()?;
    let lines = opened.folder.dates()?;
    let sets = sets_of(&opened.store, opened.folder.program.alloc())?;
    for set in &sets {
        add_set(opened, lines.as_str(), *set)?;
    }
    Ok(())
}
