//! The files of a folder: opened where no link is followed, and made where nobody but the owner may read them.

use crate::ended::of_folder;
use crate::program::Program;
use crate::status::Status;
use std::fs::{DirBuilder, File, Metadata};
use std::io::{ErrorKind, Read};
use std::os::unix::fs::{DirBuilderExt, MetadataExt, OpenOptionsExt, fchown};
use std::{fs, io};

/// Who may do what with a folder, and with a file of it: its owner alone.
const FOLDER_MODE: u32 = 0o700;

const FILE_MODE: u32 = 0o600;

/// Whether both are of one file.
pub fn is_same(one: &Metadata, other: &Metadata) -> bool {
    one.dev() == other.dev() && one.ino() == other.ino()
}

/// The folder in which a path lies.
pub fn parent_of(path: &str) -> &str {
    match path.rsplit_once('/') {
        None => ".",
        Some(("", _)) => "/",
        Some((parent, _)) => parent,
    }
}

/// How often a file is looked at whose name another file takes meanwhile.
const LOOKS: u32 = 100;

/// Opens a file of a folder, if it is one. A link is none.
pub fn own_at(program: &Program, path: &str, writes: bool) -> io::Result<Option<(File, Metadata)>> {
    for _look in 0..LOOKS {
        let named = fs::symlink_metadata(&program.rt, path)?;
        if !named.is_file() {
            break;
        }
        let file = File::options()
            .read(true)
            .write(writes)
            .open(&program.rt, path)?;
        let found = file.metadata()?;
        if is_same(&named, &found) {
            return Ok(Some((file, found)));
        }
    }
    Ok(None)
}

/// Opens a file of a folder. Of what cannot be opened, read or written, that is said in these words, as `could not be read`.
pub fn own_file(
    program: &Program,
    path: &str,
    writes: bool,
    what: &str,
) -> Result<(File, Metadata), Status> {
    match of_folder(program, path, what, own_at(program, path, writes))? {
        Some(found) => Ok(found),
        None => Err(ended!(*program, Damaged; "{path}: is no file")),
    }
}

/// All bytes of a file that was opened.
pub fn all_of(program: &Program, mut file: File) -> io::Result<Vec<u8>> {
    let mut bytes = Vec::new(program.alloc());
    file.read_to_end(&mut bytes)?;
    Ok(bytes)
}

/// Gives a file the owner and the group of the folder in which it lies, if that is another's: then the call is root's, and the owner has to read on.
fn give_to_owner(program: &Program, file: &File, path: &str) -> io::Result<()> {
    let (folder, found) = (
        fs::metadata(&program.rt, parent_of(path))?,
        file.metadata()?,
    );
    if folder.uid() == found.uid() {
        return Ok(());
    }
    fchown(file, Some(folder.uid()), Some(folder.gid()))
}

/// Makes a file of a folder, of the folder's owner. What had its name goes: a link there is not followed.
pub fn new_file(program: &Program, path: &str) -> io::Result<File> {
    match fs::remove_file(&program.rt, path) {
        Err(error) if error.kind() != ErrorKind::NotFound => return Err(error),
        _ => {}
    }
    let file = File::options()
        .read(true)
        .write(true)
        .create_new(true)
        .mode(FILE_MODE)
        .open(&program.rt, path)?;
    give_to_owner(program, &file, path)?;
    Ok(file)
}

/// Makes a folder.
pub fn new_folder(program: &Program, path: &str) -> io::Result<()> {
    DirBuilder::new()
        .mode(FOLDER_MODE)
        .create(&program.rt, path)
}
