//! `restore`: a file takes its place whole, or what is there stays.

use crate::list::{length_of_all, unsettled};
use crate::sets::no_image;
use crate::show::{refusal, show_into};
use crate::task::Shown;
use image_folder::{
    ABSENT, Folder, Opened, Program, Source, Status, ended, is_part, name_in, note, parent_of,
};
use image_store::{ShowFault, Which};
use std::alloc::AllocError;
use std::fs::{File, Metadata, Permissions};
use std::io::ErrorKind;
use std::os::unix::fs::{OpenOptionsExt, PermissionsExt, fchown};
use std::time::{Duration, UNIX_EPOCH};
use std::{fs, io};

/// Who may read and write a file until it is whole: its owner.
const MODE: u32 = 0o600;

/// The file that a restore makes, and whether it may take the place of one that is there.
#[derive(Clone, Copy)]
pub struct Target<'a> {
    pub path: &'a str,
    pub is_over: bool,
}

/// That a file does not lie in the folder of images itself. Where there is no folder for it none is made.
fn check_apart(folder: &Folder, path: &str) -> Result<(), Status> {
    match folder.has_in_it(path) {
        Ok(false) => Ok(()),
        Ok(true) => Err(ended!(folder.program, Refused; "{path}: lies in {}", folder.path)),
        Err(error) if error.kind() == ErrorKind::NotFound => Ok(()),
        Err(error) => Err(ended!(folder.program, Unread; "{path}: could not be read: {error}")),
    }
}

/// The file that is at the path of one that is restored; none if none is there.
fn found_at(folder: &Folder, path: &str) -> Result<Option<Metadata>, Status> {
    let program = folder.program;
    check_apart(folder, path)?;
    match fs::symlink_metadata(&program.rt, path) {
        Err(error) if error.kind() == ErrorKind::NotFound => Ok(None),
        Err(error) => Err(ended!(program, Unread; "{path}: could not be read: {error}")),
        Ok(found) if !found.is_file() => Err(
            ended!(program, Refused; "{path}: is no file; a folder, a link or a device is never replaced"),
        ),
        Ok(found) => Ok(Some(found)),
    }
}

/// The file that is there, if it may be replaced; none if none is there.
fn replaced(folder: &Folder, target: Target<'_>) -> Result<Option<Metadata>, Status> {
    match found_at(folder, target.path)? {
        Some(_) if !target.is_over => Err(
            ended!(folder.program, Refused; "{}: is there already; --over takes its place", target.path),
        ),
        found => Ok(found),
    }
}

/// That there was a file in what is shown, which would take the place of one.
fn check_was_there(opened: &mut Opened, of: Shown<'_>) -> Result<(), Status> {
    let (volume, which) = match of.set {
        None => (opened.place_of(of.name)?, Which::Now),
        Some(set) => (opened.place_of_image(set, of.name)?, Which::Of(set)),
    };
    if unsettled(opened, volume, which).is_some() {
        return Ok(());
    }
    match length_of_all(opened, volume, which)? {
        Some(_) => Ok(()),
        None => Err(refusal(
            opened,
            volume,
            which,
            ShowFault::BadLength { found: ABSENT },
        )),
    }
}

/// Makes the file beside the one that is restored, which is there until it is whole.
fn made_aside(program: &Program, aside: &str) -> Result<File, Status> {
    let made = File::options()
        .write(true)
        .create_new(true)
        .mode(MODE)
        .open(&program.rt, aside);
    match made {
        Ok(file) => Ok(file),
        Err(error) if error.kind() == ErrorKind::AlreadyExists => Err(
            ended!(*program, Refused; "{aside}: is left of a restore that did not end, or of another program; remove it"),
        ),
        Err(error) if error.kind() == ErrorKind::NotFound => Err(
            ended!(*program, WriteFault; "{aside}: could not be made: there is no such folder; make it first"),
        ),
        Err(error) => Err(ended!(*program, WriteFault; "{aside}: could not be made: {error}")),
    }
}

/// Gives a file the name that no file has, or where it may take the place of one, that name in any case.
fn rename(program: &Program, aside: &str, target: Target<'_>) -> io::Result<()> {
    if target.is_over {
        return fs::rename(&program.rt, aside, target.path);
    }
    fs::hard_link(&program.rt, aside, target.path)?;
    fs::remove_file(&program.rt, aside)
}

/// Sees that the name of a file lasts.
fn sync_name(program: &Program, path: &str) -> io::Result<()> {
    File::open(&program.rt, parent_of(path))?.sync_all()
}

/// Gives a file its name.
fn put(program: &Program, aside: &str, target: Target<'_>) -> Result<(), Status> {
    let path = target.path;
    match rename(program, aside, target) {
        Ok(()) => Ok(()),
        Err(error) => Err(ended!(*program, WriteFault; "{path}: could not be made: {error}")),
    }
}

/// Sees that the names of the files of a folder last, of which this is one.
fn settle(program: &Program, path: &str) -> Result<(), Status> {
    match sync_name(program, path) {
        Ok(()) => Ok(()),
        Err(error) => Err(
            ended!(*program, Unsettled; "{path}: is there, but its name could not be synced: {error}"),
        ),
    }
}

/// Gives a file the mode, the last write and, if the system lets it, the owner of its source. If these are not kept it gets the mode of the file
/// whose place it takes.
fn set_source(file: &File, source: Option<Source>, old: Option<Metadata>) -> io::Result<()> {
    match (source, old) {
        (Some(source), _) => {
            let _ = fchown(file, Some(source.user), Some(source.group));
            file.set_permissions(Permissions::from_mode(source.mode))?;
            let nanos = Duration::from_nanos(u64::from(source.nanos));
            let since = Duration::from_secs(source.seconds).saturating_add(nanos);
            match UNIX_EPOCH.checked_add(since) {
                Some(time) => file.set_modified(time),
                None => Ok(()),
            }
        }
        (None, Some(found)) => file.set_permissions(found.permissions()),
        (None, None) => Ok(()),
    }
}

/// Writes the file aside, with what is kept of its source, and sees that it lasts. If its mode or last write could not be set that is said.
fn fill(
    opened: &mut Opened,
    of: Shown<'_>,
    file: File,
    aside: &str,
    old: Option<Metadata>,
) -> Result<(), Status> {
    let program = opened.folder.program;
    let source = opened.folder.source_of(of.set, of.name)?;
    let file = show_into(opened, of, file, aside)?;
    if let Err(error) = set_source(&file, source, old) {
        note(
            &program,
            format_args!("{aside}: could not get its mode and its last write: {error}"),
        );
    }
    match file.sync_all() {
        Ok(()) => Ok(()),
        Err(error) => Err(ended!(program, WriteFault; "{aside}: could not be synced: {error}")),
    }
}

/// The path that a file has until it is whole. No volume has such a name, so no file of a set has this path.
fn path_aside(program: &Program, path: &str) -> Result<String, AllocError> {
    format!(in program.alloc(); "{path}~restored")
}

/// `restore F [SET] NAME FILE`: FILE has what the image, or the volume, has. If that fails, or no file was there, what is at FILE stays.
pub fn restore(opened: &mut Opened, of: Shown<'_>, target: Target<'_>) -> Result<(), Status> {
    let program = opened.folder.program;
    if found_at(&opened.folder, target.path)?.is_some() {
        check_was_there(opened, of)?;
    }
    let old = replaced(&opened.folder, target)?;
    let aside = path_aside(&program, target.path)?;
    let file = made_aside(&program, aside.as_str())?;
    let mut done = fill(opened, of, file, aside.as_str(), old);
    if done.is_ok() {
        done = opened.folder.end_beside();
    }
    if done.is_ok() {
        done = put(&program, aside.as_str(), target);
    }
    if done.is_err() {
        let _ = fs::remove_file(&program.rt, aside.as_str());
        return done;
    }
    settle(&program, target.path)
}

/// A file of a set: the name of its volume, and its path.
#[derive(Drop)]
struct Part {
    name: String,
    path: String,
}

/// The files of a set in a folder.
fn parts_of(opened: &Opened, set: u32, folder: &str) -> Result<Vec<Part>, Status> {
    let (program, folder) = (opened.folder.program, folder.trim_end_matches('/'));
    let mut parts = Vec::new(program.alloc());
    for volume in 0..opened.store.volumes() {
        let is_further = is_part(&opened.store, program.alloc(), volume)?;
        if opened.store.images(volume).contains(&set) && !is_further {
            let name = String::from_str(program.alloc(), name_in(&opened.store, volume))?;
            let path = format!(in program.alloc(); "{folder}/{name}")?;
            parts.push(Part { name, path })?;
        }
    }
    if parts.is_empty() {
        return Err(no_image(opened, set));
    }
    Ok(parts)
}

/// Makes the files of a set aside. Those that are made are added, which there is room for; of a file that was not there a line is printed.
fn fill_parts<'p>(
    opened: &mut Opened,
    set: u32,
    parts: &'p [Part],
    is_over: bool,
    made: &mut Vec<&'p str>,
) -> Result<(), Status> {
    let program = opened.folder.program;
    for Part { name, path } in parts {
        let (name, path) = (name.as_str(), path.as_str());
        let old = replaced(&opened.folder, Target { path, is_over })?;
        let aside = path_aside(&program, path)?;
        let file = made_aside(&program, aside.as_str())?;
        let set = Some(set);
        match fill(opened, Shown { set, name }, file, aside.as_str(), old) {
            Ok(()) => made.push(path)?,
            Err(status) => {
                let _ = fs::remove_file(&program.rt, aside.as_str());
                if !matches!(status, Status::Absent) {
                    return Err(status);
                }
            }
        }
    }
    Ok(())
}

/// Gives all files that were made their names.
fn put_parts(program: &Program, made: &[&str], is_over: bool) -> Result<(), Status> {
    for path in made {
        let aside = path_aside(program, path)?;
        put(program, aside.as_str(), Target { path, is_over })?;
    }
    match made {
        [path, ..] => settle(program, path),
        [] => Ok(()),
    }
}

/// That no file is there where the set's was not there.
fn check_part(opened: &mut Opened, set: u32, part: &Part) -> Result<(), Status> {
    let path = part.path.as_str();
    if found_at(&opened.folder, path)?.is_none() {
        return Ok(());
    }
    let volume = opened.place_of_image(set, part.name.as_str())?;
    match length_of_all(opened, volume, Which::Of(set))? {
        Some(_) => Ok(()),
        None => Err(
            ended!(opened.folder.program, Refused; "{path}: is there, and was not in set {set}; remove it first"),
        ),
    }
}

/// That the files of a set may be made. What stays whether or not others may be replaced is said first.
fn check_parts(opened: &mut Opened, set: u32, parts: &[Part], is_over: bool) -> Result<(), Status> {
    for part in parts {
        check_part(opened, set, part)?;
    }
    for Part { path, .. } in parts {
        let path = path.as_str();
        replaced(&opened.folder, Target { path, is_over })?;
    }
    Ok(())
}

/// `restore F SET FOLDER`: each file of the set gets the name of its volume there, once all are made. Before the first is made each name is
/// looked at. If it fails, what has no name yet goes.
pub fn restore_set(opened: &mut Opened, set: u32, target: Target<'_>) -> Result<(), Status> {
    let (program, is_over) = (opened.folder.program, target.is_over);
    let parts = parts_of(opened, set, target.path)?;
    check_parts(opened, set, &parts, is_over)?;
    let mut made = Vec::with_capacity(program.alloc(), parts.len())?;
    let mut done = fill_parts(opened, set, &parts, is_over, &mut made);
    if done.is_ok() {
        done = opened.folder.end_beside();
    }
    if done.is_ok() {
        done = put_parts(&program, &made, is_over);
    }
    if done.is_err() {
        for path in &made {
            let _ = fs::remove_file(&program.rt, path_aside(&program, path)?.as_str());
        }
    }
    done
}
