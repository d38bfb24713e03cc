//! Who may work on a folder at a time: one alone who writes, or others who read. Images may be read beside one who writes.

use crate::folder::{Folder, STATE};
use crate::own_file::{is_same, own_file};
use crate::program::Program;
use crate::status::Status;
use crate::way::Way;
use std::fs::TryLockError;
use std::time::Duration;
use std::{fs, thread};

/// How long it waits between two looks at a lock, in milliseconds.
const PAUSE: u64 = 100;

/// That a folder has a state.
fn check_state(program: &Program, path: &str) -> Result<(), Status> {
    let state = format!(in program.alloc(); "{path}/{STATE}")?;
    match fs::symlink_metadata(&program.rt, state.as_str()) {
        Ok(_) => Ok(()),
        Err(error) => Err(
            ended!(*program, Refused; "{path}: no folder of images ({STATE}: {error}); ./images create makes one of a new name"),
        ),
    }
}

impl Folder {
    /// Opens a folder of images that is there, and locks it. For one that another process has it waits so many seconds.
    pub fn open(program: &Program, path: &str, way: Way, wait: u32) -> Result<Folder, Status> {
        check_state(program, path)?;
        let mut folder = Folder::hold(program, path)?;
        folder.wait(way, wait);
        folder.lock_or_read(way)?;
        Ok(folder)
    }

    /// Waits so many seconds for the lock, while another process has it.
    fn wait(&self, way: Way, seconds: u32) {
        for _time in 0..u64::from(seconds) * 10 {
            if !matches!(self.try_lock(way), Err(TryLockError::WouldBlock)) {
                break;
            }
            thread::sleep(&self.program.rt, Duration::from_millis(PAUSE));
        }
    }

    /// Locks it. One that another process has may be read beside it: then its state is opened.
    fn lock_or_read(&mut self, way: Way) -> Result<(), Status> {
        match (way, self.try_lock(way)) {
            (Way::Beside, Err(TryLockError::WouldBlock)) => {
                let (program, path) = (self.program, self.path_of(STATE)?);
                let (state, _) = own_file(&program, path.as_str(), false, "could not be opened")?;
                self.beside = Some(state);
                Ok(())
            }
            (_, locked) => self.check_lock(locked),
        }
    }

    /// Whether another process may write meanwhile.
    pub fn is_beside(&self) -> bool {
        self.beside.is_some()
    }

    /// Ends what is read beside another process: that the state is still the one that was found, so that all images that were read are right.
    pub fn end_beside(&mut self) -> Result<(), Status> {
        let Some(state) = self.beside.take() else {
            return Ok(());
        };
        let path = self.path_of(STATE)?;
        match (
            state.metadata(),
            fs::symlink_metadata(&self.program.rt, path.as_str()),
        ) {
            (Ok(found), Ok(now)) if is_same(&now, &found) => Ok(()),
            _ => Err(
                ended!(self.program, InputChanged; "{}: another process changed it while it was read; try again", self.path),
            ),
        }
    }

    /// Tries to lock it: alone to write, beside others to read.
    fn try_lock(&self, way: Way) -> Result<(), TryLockError> {
        match way {
            Way::Writing => self.held.try_lock(),
            _ => self.held.try_lock_shared(),
        }
    }

    /// Locks it.
    pub fn lock(&self, way: Way) -> Result<(), Status> {
        self.check_lock(self.try_lock(way))
    }

    /// That it was locked.
    fn check_lock(&self, locked: Result<(), TryLockError>) -> Result<(), Status> {
        match locked {
            Ok(()) => Ok(()),
            Err(TryLockError::WouldBlock) => {
                Err(
                    ended!(self.program, InUse; "{}: in use by another process; ./images waits for it with --wait SECONDS before F", self.path),
                )
            }
            Err(TryLockError::Error(error)) => {
                Err(
                    ended!(self.program, FolderFault; "{}: could not be locked: {error}", self.path),
                )
            }
        }
    }
}
