//! The program `images`: keeps files as volumes in a folder, cuts images of several of them together, and gives each version back.
//!
//!     images create [--tries N] F SLOTS NAME[:BLOCKS]=FILE ..   makes the folder F: a volume for each file, and a diff area of so many slots
//!     images cut F NAME ..                          cuts one set over these volumes, and prints its number
//!     images update [--tries N] [--keep N] F NAME=FILE ..   brings each volume to the file's contents; prints what was evicted, written and copied
//!     images update --dry-run F NAME=FILE ..        prints what that would write and copy, and which sets would go; changes nothing
//!     images list F                                 prints the volumes, their images, and the slots in use
//!     images diff [--json] F SET [SET] [NAME]       prints which blocks were written between two sets, or since one
//!     images show F [SET] NAME                      writes the file that the image, or the volume, has
//!     images restore [--over] F [SET] NAME FILE     makes FILE of it, whole or not at all
//!     images restore [--over] F SET FOLDER          makes each file of the set in FOLDER, by the name of its volume
//!     images digest F [SET] NAME                    prints its SHA-256
//!     images delete F SET [NAME]                    deletes the images of a set, or that of one volume
//!     images prune --keep N F                       deletes the images of all sets but the N newest
//!     images revert F SET NAME                      brings a volume back to its image of a set
//!     images grow F SLOTS                           makes room for so many old blocks in all
//!     images grow F NAME=BLOCKS                     gives a volume so many blocks
//!     images add [--tries N] F NAME[:BLOCKS]=FILE   adds a volume for the file
//!     images remove F NAME                          takes a volume away, with its images
//!     images check F                                reads everything, and prints what is wrong
//!     images WORD --help                            prints the form of a word, and an example
//!
//! `--wait SECONDS` before F waits for a folder that another process has. For a status other than 0 it prints one line to the standard error: the file, the field and what was found.
#![tactic(auto)]

mod as_json;
mod check;
mod dated;
mod diff;
mod forecast;
mod help;
mod list;
mod mistake;
mod options;
mod request;
mod restoring;
mod sets;
mod show;
mod shown_sink;
mod task;

use image_folder::{
    Opened, Program, ProgramName, Status, add, create, ended, grow_slots, grow_volume, open,
    pairs_of, remove, set_of, update,
};
use mistake::Mistake;
use request::{Request, form_of, takes_set};
use std::process::ExitCode;
use std::{env, io};
use task::Task;

/// The words after the program's name.
fn words_given(program: &Program) -> io::Result<Vec<String>> {
    let mut words = Vec::new(program.alloc());
    for word in env::args(&program.rt)?.skip(1) {
        words.push(word)?;
    }
    Ok(words)
}

/// Does a task on an open folder.
fn call_on(opened: &mut Opened, task: Task<'_>) -> Result<(), Status> {
    match task {
        Task::Cut { note, names } => sets::cut(opened, note, names),
        Task::Update { tries, keep, pairs } => {
            opened.least = keep;
            let pairs = pairs_of(opened.folder.program.alloc(), pairs)?;
            update(opened, &pairs, tries)
        }
        Task::Forecast { keep, pairs } => {
            opened.least = keep;
            let pairs = pairs_of(opened.folder.program.alloc(), pairs)?;
            forecast::forecast(opened, &pairs)
        }
        Task::List { is_json: false } => list::list(opened),
        Task::List { is_json: true } => as_json::list_as_json(opened),
        Task::Sets => dated::list_sets(opened),
        Task::Diff {
            span,
            name,
            is_json,
        } => diff::diff(opened, span, name, is_json),
        Task::Show(of) => show::show(opened, of),
        Task::Digest(of) => show::digest(opened, of),
        Task::Restore { of, target } => restoring::restore(opened, of, target),
        Task::RestoreSet { set, target } => restoring::restore_set(opened, set, target),
        Task::Prune { keep } => sets::prune(opened, keep),
        Task::Delete { set, name } => sets::delete(opened, set, name),
        Task::Revert { set, name } => sets::revert(opened, set, name),
        Task::Check => check::check(opened),
        Task::Create { .. } | Task::Add { .. } => Ok(()),
        Task::GrowSlots(_) | Task::GrowVolume { .. } | Task::Remove(_) => Ok(()),
    }
}

/// Does what is asked for.
fn run(program: &Program, request: Request<'_>) -> Result<(), Status> {
    if let Task::Create {
        tries,
        slots,
        pairs,
    } = request.task
    {
        let pairs = pairs_of(program.alloc(), pairs)?;
        return create(program, request.folder, slots, &pairs, tries);
    }
    let (folder, wait) = (request.folder, request.wait);
    if let Task::Add { tries, pair } = request.task {
        return add(program, folder, wait, pair, tries);
    }
    let mut opened = open(program, folder, request.task.way(), wait)?;
    match request.task {
        Task::GrowSlots(slots) => grow_slots(opened, slots),
        Task::GrowVolume { name, blocks } => grow_volume(opened, name, blocks),
        Task::Remove(name) => remove(opened, name),
        task => {
            let done = call_on(&mut opened, task);
            opened.end(done)
        }
    }
}

/// Says which form the words should have, and what is wrong with them, or that the last two of them should change places.
fn usage(program: &Program, words: &[String], mistake: Mistake<'_>) -> Status {
    let form = form_of(words);
    match words {
        [word, folder, name, set] if takes_set(word.as_str()) && set_of(set.as_str()).is_some() => {
            ended!(*program, Usage; "usage: {form}; did you mean `{word} {folder} {set} {name}`?")
        }
        _ => ended!(*program, Usage; "usage: {form}; {mistake}"),
    }
}

/// Does what words ask for. Of those that could not be read as text there are none.
fn answer(program: &Program, words: io::Result<Vec<String>>) -> Result<(), Status> {
    let words = match words {
        Ok(words) => words,
        Err(error) if error.kind() == io::ErrorKind::InvalidData => Vec::new(program.alloc()),
        Err(_) => return Err(Status::OutOfMemory),
    };
    if help::help(program, &words)? {
        return Ok(());
    }
    match Request::of(&words) {
        Ok(request) => run(program, request),
        Err(mistake) => Err(usage(program, &words, mistake)),
    }
}

fn main(rt: HostRuntime) -> ExitCode {
    let program = Program {
        rt,
        name: ProgramName::Images,
    };
    let words = words_given(&program);
    match answer(&program, words) {
        Ok(()) => ExitCode::from(0),
        Err(status) => ExitCode::from(status.code()),
    }
}
