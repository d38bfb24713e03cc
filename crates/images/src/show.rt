//! `show` and `digest`, and what `restore` writes.

ghost use Rattle.std.specs.Prelude.{◌<◌, length};

use crate::shown_sink::ShownSink;
use crate::task::Shown;
use block_data::{BLOCK, Hasher};
use image_folder::{
    ABSENT, AREA, Opened, Program, Progress, Status, ended, name_in, parts_in, show_parts,
};
use image_store::{ShowFault, Which};
use std::fs::File;
use std::io;
use std::io::{Stdout, Write};

/// Says that the folder was left open. What is in transit is refused. Beside another process the marker is of a call that goes on.
fn check_marker(opened: &Opened, volume: u32, which: Which) -> Result<(), Status>
    requires { volume < length opened.now.store.group.area.volumes }
{
    let folder = &opened.folder;
    let Some(marker) = &opened.marker else {
        return Ok(());
    };
    if folder.is_beside() {
        return Ok(());
    }
    let status = ended!(folder.program, Unclean; "{}: left open by {marker}", folder.path);
    match which {
        Which::Now if marker.has(&opened.store, volume) => Err(status),
        _ => Ok(()),
    }
}

/// The volumes that have what is shown of a file, of which this one has the name. A set from before it grew has no images of further ones.
pub fn parts_shown(opened: &Opened, volume: u32, which: Which) -> Result<Vec<u32>, Status>
    requires { volume < length opened.now.store.group.area.volumes }
{
    let (store, alloc) = (&opened.store, opened.folder.program.alloc());
    let mut parts = parts_in(store, alloc, volume)?;
    if let Which::Of(set) = which {
        parts.retain(|part| *part < store.volumes() && store.images(*part).contains(&set));
    }
    Ok(parts)
}

/// What is shown of which volumes.
fn found(opened: &Opened, of: Shown<'_>) -> Result<(Vec<u32>, Which), Status> {
    let (volume, which) = match of.set {
        None => (opened.place_of(of.name)?, Which::Now),
        Some(set) => (opened.place_of_image(set, of.name)?, Which::Of(set)),
    };
    check_marker(opened, volume, which)?;
    Ok((parts_shown(opened, volume, which)?, which))
}

/// Says why a file was not shown.
pub fn refusal(opened: &Opened, volume: u32, which: Which, fault: ShowFault) -> Status {
    if volume >= opened.store.volumes() {
        return Status::DeviceFault;
    }
    let (folder, name) = (opened.folder.path.as_str(), name_in(&opened.store, volume));
    let size = u64::from(opened.store.blocks(volume)) * BLOCK as u64;
    match fault {
        ShowFault::BadLength { found: ABSENT } => match which {
            Which::Now =>
                ended!(opened.folder.program, Absent; "{folder}: {name}: its file was not there"),
            Which::Of(set) => {
                ended!(opened.folder.program, Absent; "{folder}: set {set} of {name}: its file was not there")
            }
        },
        ShowFault::BadLength { found } => match which {
            Which::Now => {
                ended!(opened.folder.program, Damaged; "{folder}/{name}.vol: length: {found} in {size} bytes")
            }
            Which::Of(set) => {
                ended!(opened.folder.program, Damaged; "{folder}/{AREA}: set {set} of {name}: length: {found} in {size} bytes")
            }
        },
        ShowFault::Sink =>
            ended!(opened.folder.program, WriteFault; "write fault; is the disk full, or a pipe closed?"),
        _ => Status::DeviceFault,
    }
}

/// How many blocks these volumes have.
fn blocks_of(opened: &Opened, volumes: &[u32]) -> u32 {
    let mut blocks = 0u32;
    for volume in volumes {
        if *volume < opened.store.volumes() {
            blocks = blocks.saturating_add(opened.store.blocks(*volume));
        }
    }
    blocks
}

/// Writes the file that these volumes have into a sink, and then takes its progress away; the word says what becomes of the blocks. If it fails the
/// volume is answered, too.
fn fill<W: Write + Drop>(
    opened: &mut Opened,
    volumes: &[u32],
    which: Which,
    word: &'static str,
    sink: &mut ShownSink<W>,
) -> Result<(), (u32, ShowFault)> {
    sink.progress = Progress::new(&opened.folder.program, word, blocks_of(opened, volumes));
    let done = show_parts(&mut opened.store, volumes, which, sink);
    sink.progress.clear();
    done
}

/// Writes a file to the standard output, or into a hasher.
fn show_in(
    opened: &mut Opened,
    of: Shown<'_>,
    word: &'static str,
    sink: &mut ShownSink<Stdout>,
) -> Result<(), Status> {
    let (volumes, which) = found(opened, of)?;
    match fill(opened, &volumes, which, word, sink) {
        Ok(()) => Ok(()),
        Err((volume, fault)) => Err(refusal(opened, volume, which, fault)),
    }
}

/// `show F [SET] NAME`: writes the file.
pub fn show(opened: &mut Opened, of: Shown<'_>) -> Result<(), Status> {
    let program = opened.folder.program;
    let mut sink = ShownSink::new(&program, program.rt.stdout(), None);
    show_in(opened, of, "shown", &mut sink)
}

/// `digest F [SET] NAME`: prints the SHA-256 of the file.
pub fn digest(opened: &mut Opened, of: Shown<'_>) -> Result<(), Status> {
    let program = opened.folder.program;
    let mut sink = ShownSink::new(&program, program.rt.stdout(), Some(Hasher::new()));
    show_in(opened, of, "digested", &mut sink)?;
    if let Some(hasher) = sink.hasher {
        let digits = hex::encode(program.alloc(), hasher.finish().as_slice())?;
        write!(opened.text, "{digits}\n")?;
    }
    Ok(())
}

/// Says why a file could not be written.
fn unwritten(program: &Program, path: &str, last: Option<io::Error>) -> Status {
    match last {
        Some(error) => ended!(*program, WriteFault; "{path}: could not be written: {error}"),
        None => ended!(*program, WriteFault; "{path}: could not be written"),
    }
}

/// Writes a file into another one, which is answered. What could not be written is said of its path.
pub fn show_into(
    opened: &mut Opened,
    of: Shown<'_>,
    file: File,
    path: &str,
) -> Result<File, Status> {
    let program = opened.folder.program;
    let (volumes, which) = found(opened, of)?;
    let mut sink = ShownSink::new(&program, file, None);
    match fill(opened, &volumes, which, "restored", &mut sink) {
        Ok(()) => Ok(sink.into_out()),
        Err((_, ShowFault::Sink)) => Err(unwritten(&program, path, sink.last)),
        Err((volume, fault)) => Err(refusal(opened, volume, which, fault)),
    }
}
