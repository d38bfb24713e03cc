ghost use Rattle.std.specs.Prelude.{◌≡◌, ◌<◌, length};

use crate::show::{parts_shown, refusal};
use image_folder::{ABSENT, Opened, Status, blocks_of_file, is_part, name_in, say, which_at};
use image_store::{ShowFault, Which};

/// Why what there is of a volume has no length, if that is so: another process may change its present contents, or a call left them in transit.
pub fn unsettled(opened: &Opened, volume: u32, which: Which) -> Option<&'static str>
    requires { volume < length opened.now.store.group.area.volumes }
{
    match which {
        Which::Now if opened.folder.is_beside() => Some("changing"),
        Which::Now if opened.is_in_transit(volume) => Some("in transit"),
        _ => None,
    }
}

/// The length of the file of a volume, or of its image; none of a file that was not there.
pub fn length_of(opened: &mut Opened, volume: u32, which: Which) -> Result<Option<u64>, Status>
    requires { volume < length opened.old.store.group.area.volumes }
    ensures { opened.new.store.group.area.volumes ≡ opened.old.store.group.area.volumes }
{
    match opened.store.length(volume, which) {
        Ok(length) => Ok(Some(length)),
        Err(ShowFault::BadLength { found: ABSENT }) => Ok(None),
        Err(fault) => Err(refusal(opened, volume, which, fault)),
    }
}

/// The length of a file of which this volume has the name, or of its image: that of all its parts.
pub fn length_of_all(opened: &mut Opened, volume: u32, which: Which) -> Result<Option<u64>, Status>
    requires { volume < length opened.old.store.group.area.volumes }
    ensures { opened.new.store.group.area.volumes ≡ opened.old.store.group.area.volumes }
{
    let mut all = 0u64;
    for part in &parts_shown(opened, volume, which)? {
        if *part < opened.store.volumes() {
            match length_of(opened, *part, which)? {
                Some(length) => all = all.saturating_add(length),
                None => return Ok(None),
            }
        }
    }
    Ok(Some(all))
}

/// How many blocks a file has of which this volume has the name, or how many slots its image uses.
pub fn size_of(opened: &Opened, volume: u32, which: Which) -> Result<u32, Status>
    requires { volume < length opened.now.store.group.area.volumes }
{
    let (store, parts) = (&opened.store, parts_shown(opened, volume, which)?);
    let (mut used, mut last) = (0u32, 0u32);
    for part in &parts {
        if *part < store.volumes() {
            last = store.blocks(*part);
            if let Which::Of(set) = which {
                used = used.saturating_add(store.used_by(*part, set).unwrap_or(0));
            }
        }
    }
    Ok(match which {
        Which::Now => blocks_of_file(parts.len(), last),
        Which::Of(_) => used,
    })
}

/// The words of what there is of a volume: its length, or why it has none.
fn said_of(opened: &mut Opened, volume: u32, which: Which) -> Result<String, Status>
    requires { volume < length opened.old.store.group.area.volumes }
    ensures { opened.new.store.group.area.volumes ≡ opened.old.store.group.area.volumes }
{
    let alloc = opened.folder.program.alloc();
    if let Some(why) = unsettled(opened, volume, which) {
        return Ok(String::from_str(alloc, why)?);
    }
    match length_of_all(opened, volume, which)? {
        Some(length) => Ok(format!(in alloc; "length {length}")?),
        None => Ok(String::from_str(alloc, "absent")?),
    }
}

/// Adds the line of a volume, or of its image.
fn add_line(opened: &mut Opened, volume: u32, which: Which) -> Result<(), Status>
    requires { volume < length opened.old.store.group.area.volumes }
    ensures { opened.new.store.group.area.volumes ≡ opened.old.store.group.area.volumes }
{
    let said = said_of(opened, volume, which)?;
    let size = size_of(opened, volume, which)?;
    let (store, text) = (&opened.store, &mut opened.text);
    match which {
        Which::Now => {
            let name = name_in(store, volume);
            write!(text, "volume {name} blocks {size} {said}\n")?;
        }
        Which::Of(set) => write!(text, "image {set} {said} used {size}\n")?,
    }
    Ok(())
}

/// Adds the lines of a volume and of its images.
fn add_volume(opened: &mut Opened, volume: u32) -> Result<(), Status>
    requires { volume < length opened.old.store.group.area.volumes }
    ensures { opened.new.store.group.area.volumes ≡ opened.old.store.group.area.volumes }
{
    if is_part(&opened.store, opened.folder.program.alloc(), volume)? {
        return Ok(());
    }
    for place in 0..=opened.store.images(volume).len() {
        let which = which_at(&opened.store, volume, place);
        add_line(opened, volume, which)?;
    }
    Ok(())
}

/// `list F`: the volumes, their images, and the slots in use. If a volume cannot be read the others are printed.
pub fn list(opened: &mut Opened) -> Result<(), Status> {
    opened.note_transit()?;
    let mut done = Ok(());
    for volume in 0..opened.store.volumes() {
        match add_volume(opened, volume) {
            Ok(()) => {}
            Err(Status::DeviceFault) => done = Err(Status::DeviceFault),
            Err(status) => return Err(status),
        }
    }
    let store = &opened.store;
    let (used, slots, last) = (store.used_all(), store.slots(), store.last());
    write!(opened.text, "slots {used} of {slots}, last set {last}\n")?;
    said_if_lost(opened, done)
}

/// Prints what there is if a volume could not be read: then the end of the call says no more than that.
pub fn said_if_lost(opened: &Opened, done: Result<(), Status>) -> Result<(), Status> {
    if done.is_err() {
        say(&opened.folder.program, opened.text.as_str())?;
    }
    done
}
