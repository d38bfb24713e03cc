ghost use Rattle.std.specs.Prelude.{◌≡◌, ◌<◌, ◌≤◌, None, length, OnOk};
ghost use Rattle.vss_names.specs.Faults.{HasCause};

use crate::named_file::NamedFile;
use crate::parts::Part;
use crate::program::Program;
use crate::progress::Progress;
use crate::status::Status;
use crate::together::Brought;
use block_data::BLOCK;
use byteorder::{ByteOrder, LittleEndian};
use image_store::PassFault;
use std::io::ErrorKind;
use std::{fs, io};
use volume_device::{Device, FileDevice};
use vss_names::Failed;

/// The word for a file that is not there.
pub const NONE: &str = "-";

/// What a volume has in place of the length of a file that was not there.
pub const ABSENT: u64 = u64::MAX;

/// How many bytes the length of a file has.
const LENGTH: usize = 8;

/// What is to be done of the writer of a file that changes.
const ADVICE: &str =
    "stop or freeze its writer, as SQLite's lock does: sqlite3 DATABASE '.timeout 5000' 'begin immediate' '.shell COMMAND' rollback";

/// A file that was named, or a part of it, as the blocks of a volume: its bytes, zeros, and its length in the last eight bytes
/// (`image_store/specs/FileBytes.antt`). It is read alone, and as long as it was when it was opened.
#[derive(Drop)]
pub struct FileInput<'a> {
    pub program: Program,
    /// The name of the volumes that are brought to it, and which part of it is the one's.
    pub name: &'a str,
    pub part: Part,
    path: &'a str,
    /// The file, if it is there.
    source: Option<NamedFile>,
    pub blocks: u32,
    count: u64,
    last: Option<io::Error>,
    /// How long it was when it was seen to have changed.
    changed: Option<u64>,
    pub progress: Progress,
    /// What was captured of it, as its blocks: then these are read in place of the file.
    pub spool: Option<FileDevice>,
}

/// Ends a block of which the first `have` bytes are the file's: zeros, and in the last block of the volume the file's length in bytes.
fn end_block(out: &mut [u8], have: usize, is_last: bool, file_length: u64)
    requires whole { length out.old ≡ BLOCK }
    requires part { have ≤ BLOCK }
{
    out[have..].fill(0);
    if is_last {
        LittleEndian::write_u64(&mut out[BLOCK - LENGTH..], file_length);
    }
}

/// Reads a block of what was captured, if it has so many.
fn read_spool(spool: &mut FileDevice, index: u32, out: &mut [u8]) -> io::Result<()>
    requires { length out.old ≡ BLOCK }
{
    if index < spool.blocks() && spool.read_into(index, out).is_ok() {
        return Ok(());
    }
    Err(io::Error::from(ErrorKind::UnexpectedEof))
}

impl<'a> FileInput<'a> {
    /// The file of a path, as yet of no blocks; `-` is a file that is not there.
    pub fn open(program: &Program, path: &'a str) -> Result<FileInput<'a>, Status> {
        let source = match path {
            NONE => None,
            _ => Some(NamedFile::at(program, path)?),
        };
        Ok(FileInput {
            program: *program,
            name: NONE,
            part: Part::WHOLE,
            path,
            source,
            blocks: 0,
            count: 0,
            last: None,
            changed: None,
            progress: Progress::new(program, "compared", 0),
            spool: None,
        })
    }

    /// The file of a path, as yet of no blocks. If nothing has this path it counts as a file that is not there.
    pub fn open_or_none(program: &Program, path: &'a str) -> Result<FileInput<'a>, Status> {
        match fs::metadata(&program.rt, path) {
            Err(error) if error.kind() == ErrorKind::NotFound => {
                let mut input = FileInput::open(program, NONE)?;
                input.path = path;
                Ok(input)
            }
            _ => FileInput::open(program, path),
        }
    }

    /// That there is still no file of this path.
    fn check_none(&mut self) -> Result<(), Status> {
        if self.path == NONE {
            return Ok(());
        }
        match fs::metadata(&self.program.rt, self.path) {
            Err(_) => Ok(()),
            Ok(now) => {
                self.changed = Some(now.len());
                Err(Status::InputChanged)
            }
        }
    }

    /// Gives it so many blocks, those of the file of this name in the folder, in which it has to have room with its length.
    pub fn fit(&mut self, name: &'a str, blocks: u32) -> Result<(), Status> {
        let room = (u64::from(blocks) * BLOCK as u64).saturating_sub(LENGTH as u64);
        let (path, length) = (self.path, self.length());
        if length > room {
            let needed = length.saturating_add(LENGTH as u64).div_ceil(BLOCK as u64);
            return Err(
                ended!(self.program, Refused; "{path}: length: {length} bytes, and {name} has room for {room}; it needs {needed} blocks"),
            );
        }
        (self.name, self.blocks) = (name, blocks);
        self.progress = Progress::new(&self.program, "compared", blocks);
        Ok(())
    }

    /// Makes it a part of its file, of so many blocks.
    pub fn take_part(&mut self, part: Part, blocks: u32) {
        (self.part, self.blocks) = (part, blocks);
        self.progress = Progress::new(&self.program, "compared", blocks);
    }

    /// Whether it is zeros alone: a further part of a file that is not there.
    pub fn is_none(&self) -> bool {
        self.source.is_none() && self.part.number > 0
    }

    /// How many bytes the file had when it was opened.
    pub fn length(&self) -> u64 {
        match &self.source {
            Some(file) => file.length(),
            None => 0,
        }
    }

    /// What the volume has as its length. That the file was not there is said in its first part.
    fn length_kept(&self) -> u64 {
        match &self.source {
            None if self.part.number == 0 => ABSENT,
            _ => self.part.length_in(self.length()),
        }
    }

    /// The volume that is brought to it, and what it was like when it was opened.
    pub fn brought(&self) -> Brought<'a> {
        let source = match &self.source {
            Some(file) => file.source(),
            None => None,
        };
        Brought {
            name: self.name,
            source,
        }
    }

    /// Whether it is the file of another path, or the block device on which that lies.
    pub fn is_at(&self, path: String) -> bool {
        match &self.source {
            Some(file) => file.is_at(&self.program, path.as_str()),
            None => false,
        }
    }

    /// Says of a block device, at its first part, that its changes are not seen.
    pub fn say_unseen(&self) {
        match &self.source {
            Some(file) if self.part.number == 0 => file.say_unseen(&self.program, self.path),
            _ => {}
        }
    }

    /// Waits until the next change of it has another time than the last one.
    pub fn wait_out(&self) {
        if let Some(file) = &self.source {
            file.wait_out(&self.program);
        }
    }

    /// That the file is at its path, and has not changed since it was opened. So all that was read of it is of one moment.
    pub fn check(&mut self) -> Result<(), Status> {
        let Some(file) = &self.source else {
            return self.check_none();
        };
        match file.look_again(&self.program, self.path) {
            Ok(None) => Ok(()),
            Ok(changed) => {
                self.changed = changed;
                Err(Status::InputChanged)
            }
            Err(error) => Err(self.unread(&error, "")),
        }
    }

    /// Says that the file changed, if it did, and what to do of its writer.
    pub fn say_changed(&self, more: &str) {
        if let Some(now) = self.changed {
            let (path, before) = (self.path, self.length());
            let _ =
                ended!(self.program, InputChanged; "{path}: changed while it was read: {before} bytes and then {now}{more}; {ADVICE}");
        }
    }

    /// Says that the file could not be read.
    fn unread(&self, error: &io::Error, more: &str) -> Status {
        ended!(self.program, Unread; "{}: could not be read: {error}{more}", self.path)
    }

    /// Ends a pass: what is said of one that failed, of a read of the file with this behind it, or of a device of the folder. A file that ends
    /// early changed.
    pub fn end(&mut self, fault: Option<PassFault>, more: &str) -> Result<(), Status>
        ensures { OnOk result (fault ≡ None) }
    {
        self.progress.clear();
        if fault.is_some() && self.spool.is_some() {
            return Err(Status::DeviceFault);
        }
        match (fault, &self.last) {
            (None, _) => Ok(()),
            (Some(PassFault::Input), Some(error)) if error.kind() != ErrorKind::UnexpectedEof => {
                Err(self.unread(error, more))
            }
            (Some(PassFault::Input), _) => {
                self.check()?;
                self.changed = Some(self.length());
                Err(Status::InputChanged)
            }
            _ => Err(Status::DeviceFault),
        }
    }

    /// Reads as much of the block as the part of the file has, and ends it.
    fn read_part(&self, index: u32, out: &mut [u8]) -> io::Result<()>
        requires in_range { index < self.now.blocks }
        requires whole { length out.old ≡ BLOCK }
    {
        let place = u64::from(index) * BLOCK as u64;
        let length = self.part.length_in(self.length());
        let have = length.saturating_sub(place).min(BLOCK as u64) as usize;
        if let Some(file) = &self.source {
            file.read(&mut out[..have], self.part.start().saturating_add(place))?;
        }
        end_block(out, have, index == self.blocks - 1, self.length_kept());
        Ok(())
    }

    /// What is told of a call. One that failed is counted and kept.
    fn outcome(&mut self, done: io::Result<()>) -> Result<(), Failed>
        ensures size { self.new.blocks ≡ self.old.blocks }
        ensures cause { HasCause self.old.count self.new.count result }
    {
        match done {
            Ok(()) => Ok(()),
            Err(error) => {
                self.count = self.count.saturating_add(1);
                self.last = Some(error);
                Err(Failed)
            }
        }
    }
}

impl<'a> Device for FileInput<'a> {
    ghost use Rattle.std.specs.Prelude.{None, false};

    ghost told = { λ d. None };

    ghost size = { λ d. d.blocks };

    ghost count = { λ d. d.count };

    ghost lending = { λ d. false };

    ghost lasting = { λ d. None };

    fn blocks(&self) -> u32 {
        self.blocks
    }

    fn read_into(&mut self, index: u32, out: &mut [u8]) -> Result<(), Failed> {
        self.progress.step(1);
        if let Some(spool) = &mut self.spool {
            let done = read_spool(spool, index, out);
            return self.outcome(done);
        }
        let done = self.read_part(index, out);
        self.outcome(done)
    }

    fn write(&mut self, _index: u32, _block: &[u8]) -> Result<(), Failed> {
        self.outcome(Err(io::Error::from(ErrorKind::Unsupported)))
    }

    fn flush(&mut self) -> Result<(), Failed> {
        Ok(())
    }

    fn lends(&self) -> bool {
        false
    }

    fn lend(&self, _index: u32) -> Option<&[u8]> {
        None
    }

    fn faults(&self) -> u64 {
        self.count
    }
}
