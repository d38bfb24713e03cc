//! What is shown of an update of the volumes of a folder, over the passes of `image_store`.

ghost use Rattle.std.specs.Prelude.{◌≡◌, ◌<◌, [], length};

use crate::device::StoreDevice;
use crate::ended::say;
use crate::file_input::FileInput;
use crate::folder::Folder;
use crate::job::sets_of;
use crate::naming::{is_part, name_in};
use crate::opened::Files;
use crate::program::Program;
use crate::progress::Progress;
use crate::status::Status;
use image_store::{Jobs, PassFault, Report};
use std::alloc::AllocError;
use write_history::Evicted;

/// How a program shows an update in the folder of this path, of which at least so many sets are to stay.
#[derive(Drop)]
pub struct FileReport {
    program: Program,
    path: String,
    least: u32,
    /// Whether a file that could not be read leaves its volume in transit.
    says_torn: bool,
}

impl FileReport {
    /// That of an update.
    pub fn new(folder: &Folder, least: u32, says_torn: bool) -> Result<FileReport, AllocError> {
        let program = folder.program;
        Ok(FileReport {
            program,
            path: String::from_str(program.alloc(), folder.path.as_str())?,
            least,
            says_torn,
        })
    }

    /// That of a call of which only how far it came is shown.
    pub fn none(program: Program) -> FileReport {
        FileReport {
            program,
            path: String::new(program.alloc()),
            least: 0,
            says_torn: false,
        }
    }
}

/// The jobs of a call that brings no volume to a file.
pub fn no_jobs<'a>(program: Program) -> Jobs<FileInput<'a>, FileReport>
    ensures { result.jobs.items ≡ [] }
{
    let alloc = program.alloc();
    Jobs::new(alloc, Vec::new(alloc), FileReport::none(program))
}

impl<'a> Report<StoreDevice, FileInput<'a>, Status> for FileReport {
    fn begin(&self, input: &mut FileInput<'a>, word: &'static str, blocks: u32) {
        input.progress = Progress::new(&self.program, word, blocks);
    }

    fn step(&self, input: &mut FileInput<'a>, blocks: u32) {
        input.progress.step(blocks);
    }

    fn stop(&self, input: &mut FileInput<'a>) {
        input.progress.clear();
    }

    fn end(&self, input: &mut FileInput<'a>, fault: Option<PassFault>) -> Result<(), Status> {
        if !self.says_torn {
            return input.end(fault, "");
        }
        let name = input.name;
        let more = format!(in self.program.alloc();
            "; {name} has a part of each: update it again"
        )?;
        input.end(fault, more.as_str())
    }

    /// That as many sets are left as there are to be.
    fn check_left(&self, store: &Files) -> Result<(), Status> {
        let left = sets_of(store, self.program.alloc())?.len();
        if left < self.least as usize {
            return Err(
                ended!(self.program, Refused; "{}: sets: {left} would be left, and {} are wanted at least", self.path, self.least),
            );
        }
        Ok(())
    }

    fn say_gone(&self, store: &Files, gone: &[Evicted]) -> Result<(), Status> {
        for one in gone {
            if one.volume < store.volumes() && !is_part(store, self.program.alloc(), one.volume)? {
                let name = name_in(store, one.volume);
                say(
                    &self.program,
                    format_args!("evicted set {} {name}\n", one.set),
                )?;
            }
        }
        Ok(())
    }
}
