//! `cut`, `delete`, `prune` and `revert`: sets come and go.

ghost use Rattle.std.specs.Prelude.{◌≡◌, ◌≢◌, ◌<◌, length, OnOk};
ghost use Rattle.std.specs.List.{AllPairs};
ghost use Rattle.image_folder.specs.Parts.{AreVolumes};

use image_folder::{Brought, Files, Opened, Status, ended, is_part, name_in, note, sets_of};
use image_store::CutFault;
use vss_names::MOST_IMAGES;

/// Says why a set was not cut.
fn refusal(opened: &Opened, fault: CutFault) -> Status {
    let folder = opened.folder.path.as_str();
    match fault {
        CutFault::NoNextSet => {
            let last = u32::MAX;
            ended!(opened.folder.program, Refused; "{folder}: sets: {last} was given, there is no next")
        }
        CutFault::TooManyImages { volume } => {
            let name = if volume < opened.store.volumes() {
                name_in(&opened.store, volume)
            } else {
                ""
            };
            ended!(opened.folder.program, Refused; "{folder}: images of {name}: {MOST_IMAGES}, at most {MOST_IMAGES}; ./images prune deletes old ones")
        }
    }
}

/// Adds the volumes of these names.
fn add_places(opened: &Opened, names: &[String], volumes: &mut Vec<u32>) -> Result<(), Status>
    requires within { AreVolumes opened.now.store.group volumes.old.items }
    requires apart { AllPairs (λ u v. u ≢ v) volumes.old.items }
    ensures within { OnOk result (AreVolumes opened.now.store.group volumes.new.items) }
    ensures apart { OnOk result (AllPairs (λ u v. u ≢ v) volumes.new.items) }
{
    for name in names {
        opened.add_places(name.as_str(), volumes)?;
    }
    Ok(())
}

/// Whether it is known that volumes of these names were brought to their files by one call.
fn are_together(opened: &Opened, names: &[String]) -> Result<bool, Status> {
    let mut words = Vec::new(opened.folder.program.alloc());
    for name in names {
        words.push(name.as_str())?;
    }
    opened.folder.are_together(&words)
}

/// `cut F NAME ..`: one set over these volumes, with a note.
pub fn cut(opened: &mut Opened, note_of: &str, names: &[String]) -> Result<(), Status> {
    opened.check_transit(&[])?;
    let mut volumes = Vec::new(opened.folder.program.alloc());
    add_places(opened, names, &mut volumes)?;
    let are_together = are_together(opened, names)?;
    match opened.store.cut(&volumes) {
        Ok(set) => {
            write!(opened.text, "set {set}\n")?;
            opened.note_date(set, note_of)?;
            opened.commit_marked("cut\n")?;
            if !are_together {
                let (program, path) = (&opened.folder.program, opened.folder.path.as_str());
                note(
                    program,
                    format_args!(
                        "{path}: set {set}: its files are not known to be of one moment; they are if one update of all of them comes before the cut"
                    ),
                );
            }
            Ok(())
        }
        Err(fault) => Err(refusal(opened, fault)),
    }
}

/// Drops the image of a set from these volumes, or from each that has one. Of how many files they went is answered.
fn drop_images(opened: &mut Opened, set: u32, only: Option<&[u32]>) -> Result<u32, Status> {
    let (mut count, alloc) = (0u32, opened.folder.program.alloc());
    for volume in 0..opened.store.volumes() {
        let is_meant = match only {
            Some(volumes) => volumes.contains(&volume),
            None => true,
        };
        if is_meant && opened.store.drop_image(set, volume).is_ok() {
            let is_further = is_part(&opened.store, alloc, volume)?;
            count = count.saturating_add(u32::from(!is_further));
        }
    }
    Ok(count)
}

/// Says that there is no image of a set.
pub fn no_image(opened: &Opened, set: u32) -> Status {
    let folder = opened.folder.path.as_str();
    ended!(opened.folder.program, Refused; "{folder}: set {set}: there is no image of it; ./images sets shows all")
}

/// `delete F SET [NAME]`: the images of a set go.
pub fn delete(opened: &mut Opened, set: u32, name: Option<&str>) -> Result<(), Status> {
    opened.check_transit(&[])?;
    let only = match name {
        Some(name) => {
            opened.place_of_image(set, name)?;
            Some(opened.parts_of(name)?)
        }
        None => None,
    };
    let count = drop_images(opened, set, only.as_deref())?;
    if count == 0 {
        return Err(no_image(opened, set));
    }
    write!(opened.text, "deleted {count}\n")?;
    opened.commit_deletion()
}

/// `prune --keep N F`: the images of all sets but the N newest go.
pub fn prune(opened: &mut Opened, keep: u32) -> Result<(), Status> {
    opened.check_transit(&[])?;
    let sets = sets_of(&opened.store, opened.folder.program.alloc())?;
    let count = sets.len().saturating_sub(keep as usize);
    if count == 0 {
        return Ok(());
    }
    for set in sets.iter().take(count) {
        let images = drop_images(opened, *set, None)?;
        write!(opened.text, "deleted set {set}: {images}\n")?;
    }
    opened.commit_deletion()
}

/// The images of a volume that are newer than that of a set go, the newest first. So what is kept after it shows that image and the older
/// ones wherever a revert is broken off.
fn drop_newer(store: &mut Files, set: u32, volume: u32) {
    if volume >= store.volumes() {
        return;
    }
    for _image in 0..store.images(volume).len() {
        let newest = store.images(volume).last().copied().unwrap_or(0);
        if newest > set {
            let _ = store.drop_image(newest, volume);
        }
    }
}

/// That each volume of a file has an image of a set: it may have got some since.
fn check_images(opened: &Opened, set: u32, name: &str, volumes: &[u32]) -> Result<(), Status> {
    for volume in volumes {
        if *volume < opened.store.volumes() && !opened.store.images(*volume).contains(&set) {
            let folder = opened.folder.path.as_str();
            return Err(
                ended!(opened.folder.program, Refused; "{folder}: set {set}: {name} got more volumes since; ./images restore gives its file, and an update brings {name} to it"),
            );
        }
    }
    Ok(())
}

/// `revert F SET NAME`: the volumes of a file are brought back to their images of a set. In memory the newer images go first.
pub fn revert(opened: &mut Opened, set: u32, name: &str) -> Result<(), Status> {
    opened.check_transit(&[name])?;
    opened.place_of_image(set, name)?;
    let volumes = opened.parts_of(name)?;
    check_images(opened, set, name, &volumes)?;
    opened.settle()?;
    let lines = format!(in opened.folder.program.alloc(); "revert\n{name}\n")?;
    for volume in &volumes {
        drop_newer(&mut opened.store, set, *volume);
    }
    opened.revert(lines.as_str(), set, volumes)?;
    let source = opened.folder.source_of(Some(set), name)?;
    opened.folder.note_together(&[Brought { name, source }])
}
