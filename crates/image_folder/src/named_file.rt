//! A file that was named, or a block device: opened, and whether it is as it was found.

use crate::ended::note;
use crate::own_file::is_same;
use crate::program::Program;
use crate::source::Source;
use crate::status::Status;
use std::fs::{File, Metadata};
use std::io::{Seek, SeekFrom};
use std::os::unix::fs::{FileExt, FileTypeExt, MetadataExt};
use std::time::{Duration, SystemTime, UNIX_EPOCH};
use std::{fs, io, thread};

/// For how many milliseconds the system may give the same time to two changes of a file, and two more for what is rounded.
const TICK: u64 = 12;

/// The same on a file system that keeps whole seconds, or each second one.
const COARSE_TICK: u64 = 2000 + TICK;

/// A file that was named, as it was found at its path.
#[derive(Drop)]
pub struct NamedFile {
    file: File,
    found: Metadata,
    length: u64,
}

/// Whether it is a block device.
fn is_device(found: &Metadata) -> bool {
    found.file_type().is_block_device()
}

/// How many bytes a file has. Those of a block device end where the system says, which has no length of it.
fn length_of(mut file: &File, found: &Metadata) -> io::Result<u64> {
    if is_device(found) {
        return file.seek(SeekFrom::End(0));
    }
    Ok(found.len())
}

/// Whether a file was not changed since. The time of its change is the system's own, which no writer puts back. A block device has none of its
/// bytes.
fn is_unchanged(before: &Metadata, now: &Metadata) -> bool {
    is_device(before)
        || now.mtime() == before.mtime()
            && now.mtime_nsec() == before.mtime_nsec()
            && now.ctime() == before.ctime()
            && now.ctime_nsec() == before.ctime_nsec()
}

/// Milliseconds of seconds and nanoseconds.
fn millis_of(seconds: u64, nanos: u64) -> u64 {
    seconds
        .saturating_mul(1000)
        .saturating_add(nanos / 1_000_000)
}

/// For how many milliseconds two changes of a file may have the same time, by the time of its last one.
fn tick_of(found: &Metadata) -> u64 {
    if found.ctime_nsec() == 0 {
        COARSE_TICK
    } else {
        TICK
    }
}

/// Whether a file changed so short a time ago that the next change of it may have the same time.
fn is_fresh(program: &Program, found: &Metadata) -> bool {
    let Ok(now) = SystemTime::now(&program.rt) else {
        return true;
    };
    let Ok(now) = now.duration_since(UNIX_EPOCH) else {
        return true;
    };
    let now = millis_of(now.as_secs(), u64::from(now.subsec_nanos()));
    let changed = millis_of(
        u64::try_from(found.ctime()).unwrap_or(0),
        u64::try_from(found.ctime_nsec()).unwrap_or(0),
    );
    now.saturating_sub(changed) < tick_of(found) && changed.saturating_sub(now) < tick_of(found)
}

/// Says that there is something else than a file at a path.
fn no_file(program: &Program, path: &str) -> Status {
    match fs::metadata(&program.rt, path) {
        Ok(found) if found.is_dir() => {
            ended!(*program, Unread; "{path}: is no file, but a directory")
        }
        _ => ended!(*program, Unread; "{path}: is no file"),
    }
}

impl NamedFile {
    /// Opens a file that was named, if it is one, or a block device: nobody waits for the other end of a pipe.
    fn open(program: &Program, path: &str) -> io::Result<Option<NamedFile>> {
        let named = fs::metadata(&program.rt, path)?;
        if !named.is_file() && !is_device(&named) {
            return Ok(None);
        }
        let file = File::open(&program.rt, path)?;
        let found = file.metadata()?;
        let length = length_of(&file, &found)?;
        Ok(Some(NamedFile {
            file,
            found,
            length,
        }))
    }

    /// The file of a path.
    pub fn at(program: &Program, path: &str) -> Result<NamedFile, Status> {
        match NamedFile::open(program, path) {
            Ok(Some(found)) => Ok(found),
            Ok(None) => Err(no_file(program, path)),
            Err(error) => Err(ended!(*program, Unread; "{path}: could not be read: {error}")),
        }
    }

    /// How many bytes it had when it was opened.
    pub fn length(&self) -> u64 {
        self.length
    }

    /// What it was like when it was opened. What a block device is like says nothing of a file.
    pub fn source(&self) -> Option<Source> {
        (!is_device(&self.found)).then_some(Source::of(&self.found))
    }

    /// Whether it is the file of another path, or the block device on which that lies.
    pub fn is_at(&self, program: &Program, path: &str) -> bool {
        let found = &self.found;
        match fs::metadata(&program.rt, path) {
            Ok(other) => is_same(&other, found) || is_device(found) && found.rdev() == other.dev(),
            Err(_) => false,
        }
    }

    /// Whether it is at its path, and has not changed since it was opened; and if not, how long it is.
    pub fn look_again(&self, program: &Program, path: &str) -> io::Result<Option<u64>> {
        let now = self.file.metadata()?;
        let length = length_of(&self.file, &now)?;
        let is_same = self.is_at(program, path) && length == self.length;
        Ok((!is_same || !is_unchanged(&self.found, &now)).then_some(length))
    }

    /// Says of a block device that its changes are not seen.
    pub fn say_unseen(&self, program: &Program, path: &str) {
        if is_device(&self.found) {
            note(
                program,
                format_args!(
                    "{path}: is a block device: whether it changes while it is read cannot be seen; unmount it, or name a snapshot of it"
                ),
            );
        }
    }

    /// Waits until its next change has another time than the last one.
    pub fn wait_out(&self, program: &Program) {
        if !is_device(&self.found) && is_fresh(program, &self.found) {
            thread::sleep(&program.rt, Duration::from_millis(tick_of(&self.found)));
        }
    }

    /// Reads its bytes from a place on.
    pub fn read(&self, out: &mut [u8], place: u64) -> io::Result<()> {
        self.file.read_exact_at(out, place)
    }
}
