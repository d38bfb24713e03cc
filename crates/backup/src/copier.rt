//! What moves the data: files are read into spools while their writers stand still, and volumes take the spools once all have said that they did.

ghost use Rattle.std.specs.Prelude.{◌≡◌, []};

use crate::folder_work::FolderWork;
use backup_ledger::{Copier, Deed};
use image_folder::Status;
use std::alloc::Global;
use vss_names::Failed;

/// The copier over a folder of images.
#[derive(Drop)]
pub struct FolderCopier<'a> {
    work: FolderWork<'a>,
    /// Why it failed first.
    failed: Option<Status>,
    done: Vec<Deed>,
}

impl<'a> FolderCopier<'a> {
    /// That of work of which nothing was done.
    pub fn new(alloc: Global, work: FolderWork<'a>) -> FolderCopier<'a>
        ensures { result.done.items ≡ [] }
    {
        FolderCopier {
            work,
            failed: None,
            done: Vec::new(alloc),
        }
    }

    /// Notes why it failed, if it is the first time.
    fn fail(&mut self, status: Status) -> Failed
        ensures { self.new.done ≡ self.old.done }
    {
        if self.failed.is_none() {
            self.failed = Some(status);
        }
        Failed
    }

    /// Ends the call on the folder.
    pub fn end(self) -> Result<(), Status> {
        let FolderCopier { work, failed, .. } = self;
        work.end(failed)
    }
}

impl<'a> Copier for FolderCopier<'a> {
    ghost done = { λ c. c.done.items };

    fn bring_near(&mut self) -> Result<(), Failed> {
        if self.done.reserve(1).is_err() {
            return Err(self.fail(Status::OutOfMemory));
        }
        match self.work.bring_all() {
            Ok(()) => {}
            Err(status) => return Err(self.fail(status)),
        }
        let _ = self.done.push(Deed::Near);
        Ok(())
    }

    fn capture(&mut self, volume: u32) -> Result<bool, Failed> {
        if self.done.reserve(1).is_err() {
            return Err(self.fail(Status::OutOfMemory));
        }
        let is_last = match self.work.read_part(volume) {
            Ok(is_last) => is_last,
            Err(status) => return Err(self.fail(status)),
        };
        let _ = self.done.push(Deed::Read { volume, is_last });
        Ok(is_last)
    }

    fn stood_still(&mut self) -> Result<(), Failed> {
        match self.work.check_all() {
            Ok(()) => Ok(()),
            Err(status) => Err(self.fail(status)),
        }
    }

    fn keep(&mut self) -> Result<u32, Failed> {
        if self.done.reserve(1).is_err() {
            return Err(self.fail(Status::OutOfMemory));
        }
        let set = match self.work.keep_all() {
            Ok(set) => set,
            Err(status) => return Err(self.fail(status)),
        };
        let _ = self.done.push(Deed::Kept { set });
        Ok(set)
    }
}
