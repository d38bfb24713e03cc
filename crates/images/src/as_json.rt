//! `list --json`: what `list` and `sets` print, as one JSON value in a line.

ghost use Rattle.std.specs.Prelude.{◌≡◌, ◌<◌, length};

use crate::dated::{Sizes, sizes_of};
use crate::list::{length_of_all, said_if_lost, size_of, unsettled};
use image_folder::{Opened, Status, dated_in, is_part, name_in, sets_of, which_at};
use image_store::Which;
use serde_json::{Value, json};
use std::alloc::{AllocError, Global};
use std::str;

/// A number that may be missing.
fn number_or_null(number: Option<u64>) -> Value {
    match number {
        Some(number) => Value::from(number),
        None => Value::Null,
    }
}

/// An image: its set, the bytes of its file, and the slots that it uses.
fn image_value(
    alloc: Global,
    set: u32,
    length: Option<u64>,
    used: u32,
) -> Result<Value, AllocError> {
    json!(in alloc; { "set": set, "length": number_or_null(length), "used": used })
}

/// A volume with its images.
fn volume_value(
    alloc: Global,
    name: &str,
    blocks: u32,
    length: Option<u64>,
    is_in_transit: bool,
    images: Vec<Value>,
) -> Result<Value, AllocError> {
    json!(in alloc; {
        "name": name,
        "blocks": blocks,
        "length": number_or_null(length),
        "in_transit": is_in_transit,
        "images": Value::Array(images),
    })
}

/// A set: the seconds from 1970 to its cut, its note, and what it takes.
fn set_value(
    alloc: Global,
    set: u32,
    seconds: Option<u64>,
    note: &str,
    sizes: Sizes,
) -> Result<Value, AllocError> {
    json!(in alloc; {
        "set": set,
        "seconds": number_or_null(seconds),
        "note": note,
        "images": sizes.images,
        "used": sizes.used,
        "exclusive": sizes.exclusive,
        "shared": sizes.used.saturating_sub(sizes.exclusive),
    })
}

/// The length of the file of a volume, or of its image; none too if it changes or is in transit, or cannot be read, which is kept.
fn length_or_none(
    opened: &mut Opened,
    volume: u32,
    which: Which,
    done: &mut Result<(), Status>,
) -> Result<Option<u64>, Status>
    requires { volume < length opened.old.store.group.area.volumes }
    ensures { opened.new.store.group.area.volumes ≡ opened.old.store.group.area.volumes }
{
    if unsettled(opened, volume, which).is_some() {
        return Ok(None);
    }
    match length_of_all(opened, volume, which) {
        Err(Status::DeviceFault) => {
            *done = Err(Status::DeviceFault);
            Ok(None)
        }
        length => length,
    }
}

/// Adds an image of a volume.
fn add_image(
    opened: &mut Opened,
    volume: u32,
    which: Which,
    images: &mut Vec<Value>,
    done: &mut Result<(), Status>,
) -> Result<(), Status>
    requires { volume < length opened.old.store.group.area.volumes }
    ensures { opened.new.store.group.area.volumes ≡ opened.old.store.group.area.volumes }
{
    let length = length_or_none(opened, volume, which, done)?;
    if let Which::Of(set) = which {
        let used = size_of(opened, volume, which)?;
        let alloc = opened.folder.program.alloc();
        images.push(image_value(alloc, set, length, used)?)?;
    }
    Ok(())
}

/// Adds the images of a volume.
fn add_images(
    opened: &mut Opened,
    volume: u32,
    images: &mut Vec<Value>,
    done: &mut Result<(), Status>,
) -> Result<(), Status>
    requires { volume < length opened.old.store.group.area.volumes }
    ensures { opened.new.store.group.area.volumes ≡ opened.old.store.group.area.volumes }
{
    for place in 1..=opened.store.images(volume).len() {
        let which = which_at(&opened.store, volume, place);
        add_image(opened, volume, which, images, done)?;
    }
    Ok(())
}

/// Adds a volume.
fn add_volume(
    opened: &mut Opened,
    volume: u32,
    volumes: &mut Vec<Value>,
    done: &mut Result<(), Status>,
) -> Result<(), Status>
    requires { volume < length opened.old.store.group.area.volumes }
    ensures { opened.new.store.group.area.volumes ≡ opened.old.store.group.area.volumes }
{
    let alloc = opened.folder.program.alloc();
    let mut images = Vec::new(alloc);
    let length = length_or_none(opened, volume, Which::Now, done)?;
    add_images(opened, volume, &mut images, done)?;
    let (name, blocks) = (
        name_in(&opened.store, volume),
        size_of(opened, volume, Which::Now)?,
    );
    let is_in_transit = opened.is_in_transit(volume);
    volumes.push(volume_value(alloc, name, blocks, length, is_in_transit, images)?)?;
    Ok(())
}

/// The volumes.
fn volumes_of(opened: &mut Opened, done: &mut Result<(), Status>) -> Result<Vec<Value>, Status> {
    let mut volumes = Vec::new(opened.folder.program.alloc());
    for volume in 0..opened.store.volumes() {
        if !is_part(&opened.store, opened.folder.program.alloc(), volume)? {
            add_volume(opened, volume, &mut volumes, done)?;
        }
    }
    Ok(volumes)
}

/// The sets, the oldest first.
fn dated_sets(opened: &Opened) -> Result<Vec<Value>, Status> {
    let alloc = opened.folder.program.alloc();
    let lines = opened.folder.dates()?;
    let mut sets = Vec::new(alloc);
    for set in &sets_of(&opened.store, alloc)? {
        let (seconds, note) = match dated_in(lines.as_str(), *set) {
            Some(dated) => (Some(dated.seconds), dated.note),
            None => (None, ""),
        };
        let sizes = sizes_of(&opened.store, alloc, *set)?;
        sets.push(set_value(alloc, *set, seconds, note, sizes)?)?;
    }
    Ok(sets)
}

/// Adds the line of a value.
pub fn add_value(text: &mut String, alloc: Global, value: &Value) -> Result<(), Status> {
    let bytes = value.to_vec(alloc)?;
    text.push_str(str::from_utf8(&bytes).unwrap_or(""))?;
    Ok(text.push('\n')?)
}

/// `list --json F`: the volumes with their images, the sets, and the slots. If a volume cannot be read the rest is printed.
pub fn list_as_json(opened: &mut Opened) -> Result<(), Status> {
    opened.note_transit()?;
    let alloc = opened.folder.program.alloc();
    let mut done = Ok(());
    let volumes = volumes_of(opened, &mut done)?;
    let sets = dated_sets(opened)?;
    let (used, slots, last) = (
        opened.store.used_all(),
        opened.store.slots(),
        opened.store.last(),
    );
    let value = json!(in alloc; {
        "volumes": Value::Array(volumes),
        "sets": Value::Array(sets),
        "used": used,
        "slots": slots,
        "last": last,
    })?;
    add_value(&mut opened.text, alloc, &value)?;
    said_if_lost(opened, done)
}
