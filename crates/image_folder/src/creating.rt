//! A folder is made under another name, filled, synced, and renamed.

ghost use Rattle.std.specs.Prelude.{◌<◌, ◌≤◌, OnOk};

use crate::device::SumTable;
use crate::ended::of_folder;
use crate::file_input::FileInput;
use crate::folder::Folder;
use crate::job::{
    Job, before_try, brought_of, check_all, compare, overwrite, say_changed, say_unseen,
    wait_out_all,
};
use crate::naming::{check_once, may_name};
use crate::new_store::{blocks_of, new_store, sum_of};
use crate::opened::{Files, close, take_apart};
use crate::own_file::{new_folder, parent_of};
use crate::pair::Pair;
use crate::parts::{MOST_OF_FILE, Part, blocks_of_part, check_parts, parts_for};
use crate::program::Program;
use crate::status::Status;
use crate::way::Way;
use block_data::BLOCK;
use std::fs;
use std::io::ErrorKind;
use std::sync::Arc;
use vss_names::{MOST_BLOCKS, MOST_SLOTS, MOST_VOLUMES, Text};

/// What is refused of the words of one volume, beside those before it.
fn check_pair(
    program: &Program,
    path: &str,
    pair: Pair<'_>,
    earlier: &[Pair<'_>],
) -> Result<(), Status> {
    may_name(program, pair.name)?;
    check_once(program, path, pair, earlier)?;
    let name = pair.name;
    match pair.blocks {
        Some(blocks) => check_of_file(program, name, blocks),
        None => Ok(()),
    }
}

/// That a file may have so many blocks.
pub fn check_of_file(program: &Program, name: &str, blocks: u32) -> Result<(), Status>
    ensures some { OnOk result (0 < blocks) }
{
    if blocks == 0 || blocks > MOST_OF_FILE {
        return Err(
            ended!(*program, Refused; "{name}: blocks: {blocks}, and a file has 1 to {MOST_OF_FILE}"),
        );
    }
    check_parts(program, name, blocks)
}

/// That a volume may have so many blocks.
pub fn check_blocks(program: &Program, name: &str, blocks: u32) -> Result<(), Status>
    ensures some { OnOk result (0 < blocks) }
    ensures few { OnOk result (blocks ≤ 65536) }
{
    if blocks == 0 || blocks > MOST_BLOCKS {
        return Err(
            ended!(*program, Refused; "{name}: blocks: {blocks}, and a volume has 1 to {MOST_BLOCKS}"),
        );
    }
    Ok(())
}

/// That an area may have so many slots.
pub fn check_slots(program: &Program, slots: u32) -> Result<(), Status>
    ensures { OnOk result (slots ≤ MOST_SLOTS) }
{
    if slots > MOST_SLOTS {
        return Err(ended!(*program, Refused; "SLOTS {slots}: at most {MOST_SLOTS}"));
    }
    Ok(())
}

/// That a folder may have so many volumes.
fn check_count(program: &Program, volumes: usize) -> Result<(), Status> {
    if volumes > MOST_VOLUMES as usize {
        return Err(ended!(*program, Refused; "volumes: {volumes}, at most {MOST_VOLUMES}"));
    }
    Ok(())
}

/// What is refused of the words alone.
fn check_words(program: &Program, path: &str, slots: u32, pairs: &[Pair<'_>]) -> Result<(), Status>
    ensures { OnOk result (slots ≤ MOST_SLOTS) }
{
    for (place, pair) in pairs.iter().enumerate() {
        check_pair(program, path, *pair, &pairs[..place])?;
    }
    check_slots(program, slots)?;
    check_count(program, pairs.len())
}

/// How many blocks the file of a pair has: those that were given, or as many as it needs, with its length.
pub fn blocks_for(program: &Program, pair: Pair<'_>, length: u64) -> Result<u32, Status> {
    if let Some(blocks) = pair.blocks {
        return Ok(blocks);
    }
    let blocks = length.saturating_add(8).div_ceil(BLOCK as u64);
    if blocks <= u64::from(MOST_OF_FILE) {
        check_parts(program, pair.name, blocks as u32)?;
        return Ok(blocks as u32);
    }
    let (file, most) = (pair.file, u64::from(MOST_OF_FILE) * BLOCK as u64 - 8);
    Err(ended!(*program, Refused; "{file}: length: {length} bytes, and a file has at most {most}"))
}

/// The file of a pair, opened for the part of this number that the folder keeps of it. The pair has its blocks from then on.
fn input_of<'a>(
    program: &Program,
    pair: &mut Pair<'a>,
    number: u32,
) -> Result<FileInput<'a>, Status> {
    let mut input = FileInput::open(program, pair.file)?;
    let blocks = blocks_for(program, *pair, input.length())?;
    input.fit(pair.name, blocks)?;
    pair.blocks = Some(blocks);
    let part = Part::of(number as usize, parts_for(blocks) as usize);
    input.take_part(part, blocks_of_part(blocks, number));
    Ok(input)
}

/// The file of a pair, opened once for each part that the folder keeps of it. If it has no blocks yet it gets as many as it needs.
pub fn inputs_of<'a>(program: &Program, pair: Pair<'a>) -> Result<Vec<FileInput<'a>>, Status> {
    let (mut inputs, mut pair) = (Vec::new(program.alloc()), pair);
    let mut parts = 1;
    for number in 0..MOST_VOLUMES {
        if number >= parts {
            break;
        }
        inputs.push(input_of(program, &mut pair, number)?)?;
        parts = parts_for(pair.blocks.unwrap_or(0));
    }
    Ok(inputs)
}

/// That a file is not the block device on which a folder is to lie.
fn check_place(
    program: &Program,
    path: &str,
    file: &str,
    input: &FileInput<'_>,
) -> Result<(), Status> {
    if input.is_at(String::from_str(program.alloc(), parent_of(path))?) {
        return Err(ended!(*program, Refused; "{file}: is the device on which {path} would lie"));
    }
    Ok(())
}

/// Adds the job of a file that was opened, of the next new volume of a folder.
fn add_job<'a>(
    program: &Program,
    path: &str,
    file: &str,
    input: FileInput<'a>,
    jobs: &mut Vec<Job<'a>>,
) -> Result<(), Status> {
    check_place(program, path, file, &input)?;
    let volume = u32::try_from(jobs.len()).unwrap_or(u32::MAX);
    Ok(jobs.push(Job::new(program.alloc(), volume, input)?)?)
}

/// Adds the jobs of a pair, of the new volumes of a folder behind those of the jobs that there are.
fn add_jobs<'a>(
    program: &Program,
    path: &str,
    pair: Pair<'a>,
    jobs: &mut Vec<Job<'a>>,
) -> Result<(), Status> {
    for input in inputs_of(program, pair)? {
        add_job(program, path, pair.file, input, jobs)?;
    }
    check_count(program, jobs.len())
}

/// Brings all new volumes to their files. No block of zeros is written. The head of the store is answered.
fn put_all(program: &Program, store: &mut Files, jobs: &mut [Job<'_>]) -> Result<Text, Status> {
    let mut gone = Vec::new(program.alloc());
    for job in jobs.iter_mut() {
        compare(job, store)?;
        overwrite(job, store, &mut gone)?;
    }
    check_all(jobs)?;
    Ok(store.head(program.alloc())?)
}

/// Commits what a new folder has, by the head of its store.
fn commit_new(folder: &Folder, head: &Text, slots: u32, jobs: &[Job<'_>]) -> Result<(), Status>
    requires { slots ≤ MOST_SLOTS }
{
    folder.note_together(&brought_of(folder.program.alloc(), jobs)?)?;
    folder.commit(head.bytes(), slots)
}

/// Fills a new folder, and sees that it lasts.
fn fill(folder: &Folder, slots: u32, jobs: &mut [Job<'_>]) -> Result<(), Status>
    requires { slots ≤ MOST_SLOTS }
{
    let mut store = new_store(folder, slots, jobs)?;
    let program = &folder.program;
    match put_all(program, &mut store, jobs) {
        Err(status) => Err(take_apart(program, store, status)),
        Ok(head) => {
            close(program, store)?;
            commit_new(folder, &head, slots, jobs)
        }
    }
}

/// Fills a folder that is held under its new name, and gives it its own.
fn make(folder: &Folder, path: &str, slots: u32, jobs: &mut [Job<'_>]) -> Result<(), Status>
    requires { slots ≤ MOST_SLOTS }
{
    folder.lock(Way::Writing)?;
    fill(folder, slots, jobs)?;
    let (program, new) = (&folder.program, folder.path.as_str());
    of_folder(
        program,
        new,
        "could not be renamed",
        fs::rename(&program.rt, new, path),
    )?;
    Folder::hold(program, parent_of(path))?.sync()
}

/// Makes the folder under its new name.
fn create_new(program: &Program, new: &str) -> Result<(), Status> {
    let made = new_folder(program, new);
    if let Err(error) = &made {
        if error.kind() == ErrorKind::AlreadyExists {
            return Err(
                ended!(*program, Refused; "{new}: is left of a create that did not end; remove it"),
            );
        }
    }
    of_folder(program, new, "could not be created", made)
}

/// Fills the folder that was made under its new name, of which these are the sums, and gives it its own.
fn make_in(
    program: &Program,
    new: &str,
    path: &str,
    sums: SumTable,
    slots: u32,
    jobs: &mut [Job<'_>],
) -> Result<(), Status>
    requires { slots ≤ MOST_SLOTS }
{
    let mut folder = Folder::hold(program, new)?;
    folder.sums = Some(Arc::new(program.alloc(), sums)?);
    make(&folder, path, slots, jobs)
}

/// Makes a folder of the volumes of these jobs, which are those of its numbers from 0 on. Where it fails, nothing of it is left.
pub fn make_new(
    program: &Program,
    path: &str,
    slots: u32,
    jobs: &mut [Job<'_>],
) -> Result<(), Status>
    requires { slots ≤ MOST_SLOTS }
{
    let blocks = blocks_of(program, jobs)?;
    let sums = SumTable::new(
        program.alloc(),
        (sum_of(&blocks) as usize).saturating_add(slots as usize),
    )?;
    let new = format!(in program.alloc(); "{path}.new")?;
    create_new(program, new.as_str())?;
    let made = make_in(program, new.as_str(), path, sums, slots, jobs);
    if made.is_err() {
        let _ = fs::remove_dir_all(&program.rt, new.as_str());
    }
    made
}

/// Makes a folder of the volumes of these pairs, by the jobs, which are none yet.
fn create_by<'a>(
    program: &Program,
    path: &str,
    slots: u32,
    pairs: &[Pair<'a>],
    jobs: &mut Vec<Job<'a>>,
) -> Result<(), Status>
    requires { slots ≤ MOST_SLOTS }
{
    for pair in pairs {
        add_jobs(program, path, *pair, jobs)?;
    }
    wait_out_all(jobs);
    make_new(program, path, slots, jobs.as_mut_slice())
}

/// Tries to make a folder up to so many times, while a file changes.
fn create_in_tries(
    program: &Program,
    path: &str,
    slots: u32,
    pairs: &[Pair<'_>],
    tries: u32,
) -> Result<(), Status>
    requires { slots ≤ MOST_SLOTS }
{
    let mut jobs = Vec::new(program.alloc());
    let mut done = create_by(program, path, slots, pairs, &mut jobs);
    for number in 1..tries {
        if !matches!(done, Err(Status::InputChanged)) {
            break;
        }
        before_try(program, &mut jobs, number);
        done = create_by(program, path, slots, pairs, &mut jobs);
    }
    say_changed(&jobs, "");
    if done.is_ok() {
        say_unseen(&jobs);
    }
    done
}

/// Makes the folder of a path, with a diff area of so many slots, and a volume for the file of each pair. While a file changes it is tried so
/// often.
pub fn create(
    program: &Program,
    path: &str,
    slots: u32,
    pairs: &[Pair<'_>],
    tries: u32,
) -> Result<(), Status> {
    let path = match path.trim_end_matches('/') {
        "" => path,
        trimmed => trimmed,
    };
    check_words(program, path, slots, pairs)?;
    if fs::symlink_metadata(&program.rt, path).is_ok() {
        return Err(
            ended!(*program, Refused; "{path}: is there already; create takes a new name, and ./images update a folder of images"),
        );
    }
    create_in_tries(program, path, slots, pairs, tries)
}
