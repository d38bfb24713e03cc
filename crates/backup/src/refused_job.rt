//! What is said of a job that is refused: the place, what stands there, and why.

use crate::driving::{Job, JobFault, JobReason, SettingFault};
use image_folder::{Program, Status, ended};
use vss_names::{MOST_VOLUMES, MOST_WRITERS};
use writer_meta::{MetaFault, Metadata};

/// What a name has to be.
const NAME: &str = "a name has 1 to 32 letters, digits, `_`, `-` and `.`, a letter first";

/// Of a component that the metadata do not have.
const NO_COMPONENT: &str = "the writer's document has no component of this full name";

/// Refuses a job for its line of this word and of these two fields.
fn refused(
    program: &Program,
    path: &str,
    word: &str,
    (name, more): (&str, &str),
    why: &str,
) -> Status {
    ended!(*program, Refused; "{path}: {word} {name} {more}: {why}")
}

/// Says what is wrong with a line, by its number.
fn refused_line(program: &Program, path: &str, text: &str, line: u32, reason: JobReason) -> Status {
    let place = (line as usize).saturating_sub(1);
    let whole = text.lines().nth(place).unwrap_or("end");
    let word = whole.split(' ').next().unwrap_or("");
    let shown = match whole.split(' ').nth(reason.field() as usize) {
        Some("") | None => "an empty field",
        Some(field) => field,
    };
    let why = reason.said(word);
    ended!(*program, Refused; "{path}: line {line}: {shown}: {why}")
}

/// Says why a text is no job.
pub fn refused_text(program: &Program, path: &str, text: &str, fault: JobFault) -> Status {
    match fault {
        JobFault::OutOfMemory => Status::OutOfMemory,
        JobFault::Line { line, reason } => refused_line(program, path, text, line, reason),
    }
}

/// Says what is wrong with a volume.
fn refused_volume(program: &Program, path: &str, job: &Job<'_>, volume: u32) -> Status {
    let fields = match job.volumes.get(volume as usize) {
        Some(volume) => (volume.name, volume.file),
        None => ("", ""),
    };
    let why = if job.volumes.len() > MOST_VOLUMES as usize {
        "a job has at most 128 volumes"
    } else {
        NAME
    };
    refused(program, path, "volume", fields, why)
}

/// Says what is wrong with a writer.
fn refused_writer(program: &Program, path: &str, job: &Job<'_>, writer: u32) -> Status {
    let (name, document) = match job.writers.get(writer as usize) {
        Some(writer) => (writer.name, writer.document),
        None => ("", ""),
    };
    if job.writers.len() > MOST_WRITERS as usize {
        return refused(
            program,
            path,
            "writer",
            (name, ".."),
            "a job has at most 64 writers",
        );
    }
    match Metadata::from_json(program.alloc(), document.as_bytes()) {
        Ok(_) => refused(program, path, "writer", (name, ".."), NAME),
        Err(MetaFault::OutOfMemory) => Status::OutOfMemory,
        Err(fault) =>
            ended!(*program, Refused; "{path}: writer {name}: its document: {fault}; docs/FORMATS.md has the members"),
    }
}

/// The name of a writer.
fn writer_name<'a>(job: &Job<'a>, writer: u32) -> &'a str {
    match job.writers.get(writer as usize) {
        Some(writer) => writer.name,
        None => "",
    }
}

/// Says why a component may not be taken.
fn refused_taken(program: &Program, path: &str, job: &Job<'_>, taken: u32, why: &str) -> Status {
    let fields = match job.taken.get(taken as usize) {
        Some(taken) => (writer_name(job, taken.writer), taken.component),
        None => ("", ""),
    };
    refused(program, path, "take", fields, why)
}

/// Says that a component that has files is none.
fn refused_files(program: &Program, path: &str, job: &Job<'_>, holding: u32) -> Status {
    let fields = match job.holdings.get(holding as usize) {
        Some(holding) => (writer_name(job, holding.writer), holding.component),
        None => ("", ""),
    };
    refused(program, path, "files", fields, NO_COMPONENT)
}

/// Says why a job has no setting.
pub fn refused_setting(
    program: &Program,
    path: &str,
    job: &Job<'_>,
    fault: SettingFault,
) -> Status {
    match fault {
        SettingFault::OutOfMemory => Status::OutOfMemory,
        SettingFault::Volume { volume } => refused_volume(program, path, job, volume),
        SettingFault::Writer { writer } => refused_writer(program, path, job, writer),
        SettingFault::Files { holding } => refused_files(program, path, job, holding),
        SettingFault::NotFound { taken } => refused_taken(program, path, job, taken, NO_COMPONENT),
        SettingFault::NotSelectable { taken } => {
            let why = "its document has `selectable` false: it comes with the one above it";
            refused_taken(program, path, job, taken, why)
        }
        SettingFault::TakenTwice { taken } => {
            refused_taken(program, path, job, taken, "a line above takes it")
        }
    }
}
