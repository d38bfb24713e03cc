//! The program `backup`: one coordinated backup of real files into a folder of images.
//!
//!     backup FOLDER JOB [RECORD]
//!
//! It reads what happens as lines, and writes orders as lines: `./backup` starts the hooks of the writers and carries the lines. It keeps one set
//! of the folder if each writer that takes part stood still while its files were read, and has said so at its thaw. Else it keeps nothing.
#![tactic(auto)]

mod capture;
mod chosen;
mod copier;
mod driving;
mod folder_work;
mod record;
mod refused_job;
mod shown;

use crate::driving::{Backup, Happened, Job, Next, Setting};
use chosen::Chosen;
use copier::FolderCopier;
use folder_work::{FolderWork, since};
use image_folder::{Program, ProgramName, Status, ended};
use refused_job::{refused_setting, refused_text};
use shown::Shown;
use std::io::{BufRead, BufReader};
use std::process::ExitCode;
use std::thread::Threads;
use std::time::{Duration, Instant};
use std::{env, fs, io};
use vss_play::StepFault;

/// The status of a backup that keeps nothing.
const NOTHING: u8 = 13;

/// How many times a backup that is given up goes on at most.
const MOST_ENDINGS: u32 = 1000;

/// The words after the program's name.
fn words_given(program: &Program) -> io::Result<Vec<String>> {
    let mut words = Vec::new(program.alloc());
    for word in env::args(&program.rt)?.skip(1) {
        words.push(word)?;
    }
    Ok(words)
}

/// Why a backup does not go on.
fn stopped(program: &Program, fault: StepFault) -> Status {
    match fault {
        StepFault::OutOfMemory => Status::OutOfMemory,
        StepFault::TrailFull => ended!(*program, Refused; "too many moves"),
    }
}

/// Takes what happened, and shows what came of it.
fn take(
    program: &Program,
    backup: &mut Backup<FolderCopier<'_>>,
    shown: &mut Shown<'_>,
    ms: u32,
    happened: Happened,
) -> Result<Next, Status> {
    let next = match backup.take(ms, happened) {
        Ok(next) => next,
        Err(fault) => return Err(stopped(program, fault)),
    };
    shown.show(program, backup);
    if let Next::GoesOn = next {
        let _ = println!(program.rt; "again");
    }
    Ok(next)
}

/// The moment so many milliseconds later: what is below a millisecond counts for the next time.
fn later(then: Option<Instant>, ms: u32) -> Option<Instant> {
    then?.checked_add(Duration::from_millis(u64::from(ms)))
}

/// Reads lines and takes what they say, to the end of the backup. The end of the lines gives it up.
fn talk(
    program: &Program,
    backup: &mut Backup<FolderCopier<'_>>,
    shown: &mut Shown<'_>,
) -> Result<(), Status> {
    let Ok(input) = BufReader::new(program.alloc(), program.rt.reader()) else {
        return Err(Status::OutOfMemory);
    };
    let mut last = Instant::now(&program.rt).ok();
    if let Next::Over = take(program, backup, shown, 0, Happened::Time)? {
        return Ok(());
    }
    for line in input.lines(program.alloc()) {
        let Ok(line) = line else {
            break;
        };
        let ms = since(program, last);
        last = later(last, ms);
        let happened = Happened::of(line.as_str(), shown.names());
        if let Next::Over = take(program, backup, shown, ms, happened)? {
            return Ok(());
        }
    }
    for _time in 0..MOST_ENDINGS {
        if let Next::Over = take(program, backup, shown, 0, Happened::Cancelled)? {
            return Ok(());
        }
    }
    Ok(())
}

/// Makes a backup to its end, and writes its record: how the first went, and the second.
fn make<R: Threads + Sync>(
    rt: &R,
    program: &Program,
    job: &Job<'_>,
    backup: &mut Backup<FolderCopier<'_>>,
    record: Option<&str>,
) -> (Result<(), Status>, Result<(), Status>) {
    let Ok(mut shown) = Shown::new(program.alloc(), job) else {
        return (Err(Status::OutOfMemory), Ok(()));
    };
    let done = talk(program, backup, &mut shown);
    let recorded = match record {
        Some(name) => record::write(rt, program, name, backup),
        None => Ok(()),
    };
    (done, recorded)
}

/// Makes the backup of a job by the work on an open folder. Whether a set is kept is answered.
fn back_up_by<R: Threads + Sync>(
    rt: &R,
    program: &Program,
    job: &Job<'_>,
    setting: Setting,
    work: FolderWork<'_>,
    record: Option<&str>,
) -> Result<bool, Status> {
    let alloc = program.alloc();
    let copier = FolderCopier::new(alloc, work);
    let Ok(mut backup) = Backup::new(alloc, job, setting, copier) else {
        return Err(Status::OutOfMemory);
    };
    let (done, recorded) = make(rt, program, job, &mut backup, record);
    let is_kept = backup.ledger().is_kept();
    let ended = backup.into_copier().end();
    done?;
    ended?;
    recorded?;
    Ok(is_kept)
}

/// Makes the backup of a job. Whether a set is kept is answered.
fn back_up<R: Threads + Sync>(
    rt: &R,
    program: &Program,
    folder: &str,
    path: &str,
    text: &str,
    record: Option<&str>,
) -> Result<bool, Status> {
    let alloc = program.alloc();
    let job = match Job::read(alloc, text) {
        Ok(job) => job,
        Err(fault) => return Err(refused_text(program, path, text, fault)),
    };
    let setting = match Setting::of(alloc, &job) {
        Ok(setting) => setting,
        Err(fault) => return Err(refused_setting(program, path, &job, fault)),
    };
    let chosen = Chosen::of(alloc, &job.volumes, &setting.members.volumes)?;
    let work = FolderWork::open(program, folder, job.least.unwrap_or(0), chosen)?;
    back_up_by(rt, program, &job, setting, work, record)
}

/// Says that a job could not be read.
fn unread(program: &Program, path: &str, error: &io::Error) -> Status {
    ended!(*program, Unread; "{path}: could not be read: {error}")
}

/// Does what words ask for. Of those that could not be read as text there are none. Whether a set is kept is answered.
fn answer<R: Threads + Sync>(
    rt: &R,
    program: &Program,
    words: io::Result<Vec<String>>,
) -> Result<bool, Status> {
    let words = match words {
        Ok(words) => words,
        Err(error) if error.kind() == io::ErrorKind::InvalidData => Vec::new(program.alloc()),
        Err(_) => return Err(Status::OutOfMemory),
    };
    let (folder, path, record) = match words.as_slice() {
        [folder, path] => (folder.as_str(), path.as_str(), None),
        [folder, path, record] => (folder.as_str(), path.as_str(), Some(record.as_str())),
        _ => return Err(ended!(*program, Usage; "usage: FOLDER JOB [RECORD]")),
    };
    match fs::read_to_string(&program.rt, path) {
        Ok(text) => back_up(rt, program, folder, path, text.as_str(), record),
        Err(error) => Err(unread(program, path, &error)),
    }
}

fn main(rt: HostRuntime) -> ExitCode {
    let program = Program {
        rt,
        name: ProgramName::Backup,
    };
    let code = match answer(&rt, &program, words_given(&program)) {
        Ok(true) => 0,
        Ok(false) => NOTHING,
        Err(status) => status.code(),
    };
    let _ = println!(rt; "end {code}");
    ExitCode::from(code)
}
