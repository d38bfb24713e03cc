//! Volumes are brought to files: the blocks that differ are found, and then `image_order` has the order of the calls.

use crate::file_input::FileInput;
use crate::folder::{AREA, DATES, STATE, TOGETHER};
use crate::job::{
    Job, before_try, brought_of, check_all, compare, say_changed, say_unseen, wait_out_all,
};
use crate::naming::{check_once, name_in};
use crate::opened::Opened;
use crate::pair::Pair;
use crate::parts::{Part, blocks_of_file};
use crate::program::Program;
use crate::status::Status;
use crate::together::Brought;

/// Whether this is a file of the folder.
pub fn is_own(opened: &Opened, input: &FileInput<'_>) -> Result<bool, Status> {
    let folder = &opened.folder;
    for volume in 0..opened.store.volumes() {
        if input.is_at(folder.path_of_volume(name_in(&opened.store, volume))?) {
            return Ok(true);
        }
    }
    Ok(
        input.is_at(folder.path_of(AREA)?)
            || input.is_at(folder.path_of(STATE)?)
            || input.is_at(folder.path_of(TOGETHER)?)
            || input.is_at(folder.path_of(DATES)?),
    )
}

/// That the file that is opened for the first part of a file of the folder is none of the folder itself, nor the device on which that lies.
pub fn check_own(opened: &Opened, file: &str, input: &FileInput<'_>) -> Result<(), Status> {
    if is_own(opened, input)? {
        let folder = opened.folder.path.as_str();
        return Err(
            ended!(opened.folder.program, Refused; "{file}: is a file of {folder}, or the device on which it lies"),
        );
    }
    Ok(())
}

/// How many blocks a file has that these volumes keep.
fn blocks_in_all(opened: &Opened, volumes: &[u32]) -> u32 {
    match volumes.last() {
        Some(last) if *last < opened.store.volumes() => {
            blocks_of_file(volumes.len(), opened.store.blocks(*last))
        }
        _ => 0,
    }
}

/// Opens a file, which may be missing if that is allowed.
fn input_of<'a>(program: &Program, file: &'a str, may_lack: bool) -> Result<FileInput<'a>, Status> {
    if may_lack {
        return FileInput::open_or_none(program, file);
    }
    FileInput::open(program, file)
}

/// Fits the file that is opened for a volume to that: it keeps the part of this number of the file of this name, which these volumes keep.
fn fit_part<'a>(
    opened: &Opened,
    name: &'a str,
    volumes: &[u32],
    (number, volume): (usize, u32),
    input: &mut FileInput<'a>,
) -> Result<(), Status> {
    input.fit(name, blocks_in_all(opened, volumes))?;
    if volume < opened.store.volumes() {
        let part = Part::of(number, volumes.len());
        input.take_part(part, opened.store.blocks(volume));
    }
    Ok(())
}

/// Adds the jobs of the volumes of a name, which are brought to a file: one of each, which reads its part. A file that is not there may be missing.
pub fn add_jobs<'a>(
    opened: &Opened,
    name: &'a str,
    file: &'a str,
    may_lack: bool,
    jobs: &mut Vec<Job<'a>>,
) -> Result<(), Status> {
    let (program, volumes) = (opened.folder.program, opened.parts_of(name)?);
    for (number, volume) in volumes.iter().enumerate() {
        let mut input = input_of(&program, file, may_lack)?;
        if number == 0 {
            check_own(opened, file, &input)?;
        }
        fit_part(opened, name, &volumes, (number, *volume), &mut input)?;
        jobs.push(Job::new(program.alloc(), *volume, input)?)?;
    }
    Ok(())
}

/// The lines of the marker, with the names of the volumes.
fn lines_of(opened: &Opened, jobs: &[Job<'_>]) -> Result<String, Status> {
    let mut text = String::from_str(opened.folder.program.alloc(), "update\n")?;
    for Brought { name, .. } in &brought_of(opened.folder.program.alloc(), jobs)? {
        write!(text, "{name}\n")?;
    }
    Ok(text)
}

/// Notes that the volumes of jobs are brought to their files together.
fn note(opened: &Opened, jobs: &[Job<'_>]) -> Result<(), Status> {
    let brought = brought_of(opened.folder.program.alloc(), jobs)?;
    opened.folder.note_together(&brought)
}

/// The second and the third pass, under a marker.
fn write_all(opened: &mut Opened, jobs: &mut Vec<Job<'_>>) -> Result<(), Status> {
    let lines = lines_of(opened, jobs)?;
    opened.overwrite(Some(lines.as_str()), jobs)?;
    note(opened, jobs)?;
    check_all(jobs)
}

/// Sees that volumes in which no block differs last, and that what an earlier call took away stays away: it may have been killed before it synced
/// the names. Where a flush fails the volumes are in transit: what was not synced counts as not kept.
fn flush_all(opened: &mut Opened, jobs: &[Job<'_>]) -> Result<(), Status> {
    for job in jobs {
        if job.volume < opened.store.volumes() && opened.store.flush(job.volume).is_err() {
            let lines = lines_of(opened, jobs)?;
            opened.mark(lines.as_str())?;
            return Err(Status::DeviceFault);
        }
    }
    note(opened, jobs)?;
    opened.folder.sync()
}

/// How many blocks of the volumes of a name were written by jobs, and copied.
fn counts_of(jobs: &[Job<'_>], name: &str) -> (u32, u32) {
    let (mut written, mut copied) = (0u32, 0u32);
    for job in jobs {
        if job.input.name == name {
            written = written.saturating_add(job.written);
            copied = copied.saturating_add(job.copied);
        }
    }
    (written, copied)
}

/// All passes over the volumes of jobs, and the lines of what was written and copied.
pub fn update_by(opened: &mut Opened, jobs: &mut Vec<Job<'_>>) -> Result<(), Status> {
    let mut is_changed = opened.marker.is_some() || opened.is_marked;
    for job in jobs.iter_mut() {
        compare(job, &mut opened.store)?;
        is_changed |= job.written > 0;
    }
    check_all(jobs)?;
    opened.check_room(jobs)?;
    if is_changed {
        write_all(opened, jobs)?;
    } else {
        flush_all(opened, jobs)?;
    }
    for job in jobs.iter().filter(|job| job.input.part.number == 0) {
        let name = job.input.name;
        let (written, copied) = counts_of(jobs, name);
        write!(opened.text, "{name} written {written} copied {copied}\n")?;
    }
    Ok(())
}

/// Brings the volumes of pairs to their files, by the jobs, which are none yet.
fn update_pairs<'a>(
    opened: &mut Opened,
    pairs: &[Pair<'a>],
    jobs: &mut Vec<Job<'a>>,
) -> Result<(), Status> {
    for pair in pairs {
        add_jobs(opened, pair.name, pair.file, false, jobs)?;
    }
    wait_out_all(jobs);
    update_by(opened, jobs)
}

/// That each pair has a volume, and a volume of its own, and that none is in transit that none of them has.
fn check_pairs(opened: &Opened, pairs: &[Pair<'_>]) -> Result<(), Status> {
    let folder = &opened.folder;
    let mut names = Vec::new(folder.program.alloc());
    for (place, pair) in pairs.iter().enumerate() {
        opened.place_of(pair.name)?;
        check_once(
            &folder.program,
            folder.path.as_str(),
            *pair,
            &pairs[..place],
        )?;
        names.push(pair.name)?;
    }
    opened.check_transit(&names)
}

/// Brings the volume of each pair to its file. While a file changes it is tried so often. Volumes in transit are brought to their files, too.
pub fn update(opened: &mut Opened, pairs: &[Pair<'_>], tries: u32) -> Result<(), Status> {
    check_pairs(opened, pairs)?;
    opened.settle()?;
    let program = opened.folder.program;
    let mut jobs = Vec::new(program.alloc());
    let mut done = update_pairs(opened, pairs, &mut jobs);
    for number in 1..tries {
        if !matches!(done, Err(Status::InputChanged)) {
            break;
        }
        before_try(&program, &mut jobs, number);
        done = update_pairs(opened, pairs, &mut jobs);
    }
    let more = if opened.is_torn {
        "; the volumes are in transit until an update"
    } else {
        ""
    };
    say_changed(&jobs, more);
    if done.is_ok() {
        say_unseen(&jobs);
    }
    done
}
