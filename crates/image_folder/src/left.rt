//! What a call left that did not end: the files of volumes that were to be added, or were taken away.

use crate::ended::of_folder;
use crate::folder::Folder;
use crate::marker::{Marker, is_volume};
use crate::parts::{part_name, text_of};
use crate::program::Program;
use crate::status::Status;
use std::io::ErrorKind;
use std::{fs, io};
use vss_catalog::Catalog;

/// Takes a file away, if it is there. If that fails nothing is said.
pub fn remove_in_silence(program: &Program, path: &str) -> io::Result<()> {
    match fs::remove_file(&program.rt, path) {
        Err(error) if error.kind() == ErrorKind::NotFound => Ok(()),
        done => done,
    }
}

/// Takes a file away, if it is there.
pub fn remove_file(program: &Program, path: &str) -> Result<(), Status> {
    let gone = remove_in_silence(program, path);
    of_folder(program, path, "could not be removed", gone)
}

/// Takes the files of so many parts of a file away that are none of these volumes. Whether there were any is answered.
fn remove_parts(
    folder: &Folder,
    name: &str,
    parts: u32,
    catalog: &Catalog,
) -> Result<bool, Status> {
    let mut is_any = false;
    for number in 0..parts {
        let part = part_name(folder.program.alloc(), name.as_bytes(), number)?;
        if !is_volume(catalog, text_of(&part)) {
            let path = folder.path_of_volume(text_of(&part))?;
            remove_file(&folder.program, path.as_str())?;
            is_any = true;
        }
    }
    Ok(is_any)
}

/// Takes the files of the volumes of a marker away that are none of these volumes, and sees that this lasts.
pub fn clear_left(
    folder: &Folder,
    marker: Option<&Marker>,
    catalog: &Catalog,
) -> Result<(), Status> {
    let Some(marker) = marker else {
        return Ok(());
    };
    match marker.left() {
        Some((name, parts)) if remove_parts(folder, name, parts, catalog)? => folder.sync(),
        _ => Ok(()),
    }
}
