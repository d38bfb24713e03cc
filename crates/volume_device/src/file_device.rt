ghost use Rattle.std.specs.Prelude.{◌≡◌, IfOk, None, false};
ghost use Rattle.vss_names.specs.Faults.{HasCause};

use crate::device::Device;
use crate::file_call::FileCall;
use crate::file_fault::FileFault;
use crate::made_file::MadeFile;
use block_data::BLOCK;
use std::fs::File;
use std::os::unix::fs::FileExt;
use std::sync::atomic::AtomicI32;
use std::sync::atomic::Ordering::SeqCst;
use std::{fs, io};
use vss_names::Failed;

/// A device in a file, block after block, which keeps its last failed call. It tells nothing and lends nothing. Several
/// threads may read it, each at the place of its block.
#[derive(Debug, Drop)]
pub struct FileDevice {
    file: File,
    path: String,
    blocks: u32,
    count: u64,
    last: Option<(FileCall, io::Error)>,
    /// The system's number of a failure of `read_shared`, 0 for none. The next `read_into` fails with it.
    missed: AtomicI32,
}

/// Where a block begins in the file.
fn place_of(index: u32) -> u64 {
    u64::from(index) * BLOCK as u64
}

/// A new file of so many bytes, or the call that failed. Where it cannot be given its length it is removed.
fn new_file(rt: &HostRuntime, path: &str, bytes: u64) -> Result<File, (FileCall, io::Error)> {
    let file = match File::create_new(rt, path) {
        Ok(file) => file,
        Err(error) => return Err((FileCall::Create, error)),
    };
    if let Err(error) = file.set_len(bytes) {
        let _ = fs::remove_file(rt, path);
        return Err((FileCall::SetLength, error));
    }
    Ok(file)
}

impl FileDevice {
    /// A device over this file, which is taken to have so many blocks. The path is told of a call that fails.
    pub fn new(file: File, path: String, blocks: u32) -> FileDevice
        ensures size { ⟦<FileDevice as Device>⟧.size result ≡ blocks }
        ensures fresh { ⟦<FileDevice as Device>⟧.count result ≡ 0 }
    {
        FileDevice {
            file,
            path,
            blocks,
            count: 0,
            last: None,
            missed: AtomicI32::new(0),
        }
    }

    /// A device over a new file of so many zero blocks. A file that is there already is refused.
    pub fn create(rt: &HostRuntime, path: String, blocks: u32) -> Result<FileDevice, FileFault>
        ensures size { IfOk result (λ device. ⟦<FileDevice as Device>⟧.size device ≡ blocks) }
        ensures fresh { IfOk result (λ device. ⟦<FileDevice as Device>⟧.count device ≡ 0) }
    {
        match new_file(rt, path.as_str(), place_of(blocks)) {
            Ok(file) => Ok(FileDevice::new(file, path, blocks)),
            Err((call, error)) => Err(FileFault { path, call, error }),
        }
    }

    /// Which file it is over.
    pub fn made(&self) -> io::Result<MadeFile> {
        Ok(MadeFile::new(self.path.clone()?, &self.file.metadata()?))
    }

    /// Removes its file.
    pub fn remove(self, rt: &HostRuntime) {
        let _ = fs::remove_file(rt, self.path.as_str());
    }

    /// Its last failed call.
    pub fn into_fault(self) -> Option<FileFault> {
        let (call, error) = self.last?;
        Some(FileFault {
            path: self.path,
            call,
            error,
        })
    }

    /// What is told of a call on the file. One that failed is counted and kept.
    fn outcome(&mut self, call: FileCall, done: io::Result<()>) -> Result<(), Failed>
        ensures size { self.new.blocks ≡ self.old.blocks }
        ensures cause { HasCause self.old.count self.new.count result }
    {
        match done {
            Ok(()) => Ok(()),
            Err(error) => {
                self.count = self.count.saturating_add(1);
                self.last = Some((call, error));
                Err(Failed)
            }
        }
    }
}

impl Device for FileDevice {
    ghost told = { λ d. None };

    ghost size = { λ d. d.blocks };

    ghost count = { λ d. d.count };

    ghost lending = { λ d. false };

    ghost lasting = { λ d. None };

    fn blocks(&self) -> u32 {
        self.blocks
    }

    fn read_into(&mut self, index: u32, out: &mut [u8]) -> Result<(), Failed> {
        let missed = self.missed.swap(0, SeqCst);
        if missed != 0 {
            return self.outcome(FileCall::Read, Err(io::Error::from_raw_os_error(missed)));
        }
        let done = self.file.read_exact_at(out, place_of(index));
        self.outcome(FileCall::Read, done)
    }

    fn read_shared(&self, index: u32, out: &mut [u8]) -> bool {
        let Err(error) = self.file.read_exact_at(out, place_of(index)) else {
            return true;
        };
        if let Some(code) = error.raw_os_error() {
            self.missed.store(code, SeqCst);
        }
        false
    }

    fn write(&mut self, index: u32, block: &[u8]) -> Result<(), Failed> {
        let done = self.file.write_all_at(block, place_of(index));
        self.outcome(FileCall::Write, done)
    }

    fn flush(&mut self) -> Result<(), Failed> {
        let done = self.file.sync_data();
        self.outcome(FileCall::Sync, done)
    }

    fn lends(&self) -> bool {
        false
    }

    fn lend(&self, _index: u32) -> Option<&[u8]> {
        None
    }

    fn faults(&self) -> u64 {
        self.count
    }
}
