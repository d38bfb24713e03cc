//! What is printed.

use crate::program::Program;
use crate::status::Status;
use std::fmt::Display;
use std::io;
use volume_device::FileFault;

/// Prints a line to the standard error.
pub fn note<D: Display + Drop>(program: &Program, line: D) {
    let _ = eprintln!(program.rt; "{}: {line}", program.name);
}

/// Prints the line that says why a call ends so; its status is answered.
pub fn said<D: Display + Drop>(program: &Program, status: Status, line: D) -> Status {
    note(program, line);
    status
}

/// Prints a text.
pub fn say<D: Display + Drop>(program: &Program, text: D) -> Result<(), Status> {
    match program.rt.print(text) {
        Ok(()) => Ok(()),
        Err(_) => Err(said(
            program,
            Status::WriteFault,
            "write fault; is the disk full, or a pipe closed?",
        )),
    }
}

/// What a call on a file of the folder gave. Of one that failed this is said, as `could not be read`.
pub fn of_folder<T: Drop>(
    program: &Program,
    path: &str,
    what: &str,
    done: io::Result<T>,
) -> Result<T, Status> {
    match done {
        Ok(value) => Ok(value),
        Err(error) => Err(ended!(*program, FolderFault; "{path}: {what}: {error}")),
    }
}

/// Says the failed call of a device, if one failed.
pub fn by_device(program: &Program, fault: Option<FileFault>) -> Status {
    match fault {
        Some(FileFault { path, call, error }) =>
            ended!(*program, FolderFault; "{path}: {call}: {error}"),
        None => Status::DeviceFault,
    }
}
