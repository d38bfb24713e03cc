//! `check F`: all blocks were read as the folder was opened; a line is printed for each list that is damaged and each length that is wrong.

ghost use Rattle.std.specs.Prelude.{◌≡◌, ◌<◌, length};

use crate::list::length_of;
use image_folder::{Opened, Status, is_part, name_in, say, which_at};
use image_store::Which;

/// Whether a volume, if it is not in transit, or its image says a length that it has room for; if not, that was printed.
fn has_length(opened: &mut Opened, volume: u32, which: Which) -> Result<bool, Status>
    requires { volume < length opened.old.store.group.area.volumes }
    ensures { opened.new.store.group.area.volumes ≡ opened.old.store.group.area.volumes }
{
    if matches!(which, Which::Now) && opened.is_in_transit(volume) {
        return Ok(true);
    }
    match length_of(opened, volume, which) {
        Ok(_) => Ok(true),
        Err(Status::Damaged) => Ok(false),
        Err(status) => Err(status),
    }
}

/// Whether the lengths of a volume and its images are right.
fn check_volume(opened: &mut Opened, volume: u32) -> Result<bool, Status>
    requires { volume < length opened.old.store.group.area.volumes }
    ensures { opened.new.store.group.area.volumes ≡ opened.old.store.group.area.volumes }
{
    let mut is_whole = true;
    for place in 0..=opened.store.images(volume).len() {
        let which = which_at(&opened.store, volume, place);
        is_whole &= has_length(opened, volume, which)?;
    }
    Ok(is_whole)
}

/// Prints the volumes that are in transit.
fn say_volumes(opened: &Opened) -> Result<(), Status> {
    for volume in 0..opened.store.volumes() {
        let is_further = is_part(&opened.store, opened.folder.program.alloc(), volume)?;
        if opened.is_in_transit(volume) && !is_further {
            let name = name_in(&opened.store, volume);
            say(&opened.folder.program, format_args!("{name}: in transit\n"))?;
        }
    }
    Ok(())
}

/// Prints what is left to do of a folder in which volumes of these names are in transit, and that is whole else.
fn say_unclean(opened: &Opened, names: &str) -> Result<(), Status> {
    say_volumes(opened)?;
    let line = format_args!("whole but for{names}; an update of{names} ends it\n");
    say(&opened.folder.program, line)?;
    Err(Status::Unclean)
}

/// Prints the line of a folder that is whole.
fn say_whole(opened: &Opened) -> Result<(), Status> {
    let store = &opened.store;
    let (mut volumes, mut images) = (0u32, 0usize);
    for volume in 0..store.volumes() {
        if !is_part(store, opened.folder.program.alloc(), volume)? {
            volumes = volumes.saturating_add(1);
            images = images.saturating_add(store.images(volume).len());
        }
    }
    let (used, slots) = (store.used_all(), store.slots());
    let line = format_args!("whole: {volumes} volumes, {images} images, {used} of {slots} slots\n");
    say(&opened.folder.program, line)
}

/// Checks all lengths.
pub fn check(opened: &mut Opened) -> Result<(), Status> {
    let mut is_whole = opened.folder.has_lists()?;
    for volume in 0..opened.store.volumes() {
        is_whole &= check_volume(opened, volume)?;
    }
    if !is_whole {
        return Err(Status::Damaged);
    }
    let mut names = String::new(opened.folder.program.alloc());
    opened.add_in_transit(&[], &mut names)?;
    if names.is_empty() {
        say_whole(opened)
    } else {
        say_unclean(opened, names.as_str())
    }
}
