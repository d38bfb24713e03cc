//! The record of a run: a scenario, and the report of a legal and complete run of it that begins with the moves that were made.

use crate::copier::FolderCopier;
use crate::driving::Backup;
use image_folder::{Program, Status, ended};
use orders::{MOST_BYTES, report_of_told};
use std::alloc::Global;
use std::fs;
use std::thread::Threads;
use vss_names::Text;

/// Writes a file of the record.
fn write_file(program: &Program, path: &str, bytes: &[u8]) -> Result<(), Status> {
    match fs::write(&program.rt, path, bytes) {
        Ok(()) => Ok(()),
        Err(error) => Err(ended!(*program, WriteFault; "{path}: could not be written: {error}")),
    }
}

/// Says that a run has no report.
fn no_report(program: &Program, path: &str) -> Status {
    ended!(*program, WriteFault; "{path}: the run has no report")
}

/// The report of a run of a scenario that begins with the lines that are told, if there is one.
fn report_of<R: Threads + Sync>(rt: &R, alloc: Global, text: &[u8], told: &[u8]) -> Option<Text> {
    if text.len() > MOST_BYTES {
        return None;
    }
    if told.len() > MOST_BYTES {
        return None;
    }
    let Ok(report) = report_of_told(rt, alloc, text, told) else {
        return None;
    };
    if report.bytes().starts_with(told) {
        Some(report)
    } else {
        None
    }
}

/// Writes the record of a backup that is over, as NAME.scenario and NAME.report.
pub fn write<R: Threads + Sync>(
    rt: &R,
    program: &Program,
    name: &str,
    backup: &Backup<FolderCopier<'_>>,
) -> Result<(), Status> {
    let alloc = program.alloc();
    let scenario = backup.scenario()?;
    let path = format!(in alloc; "{name}.scenario")?;
    write_file(program, path.as_str(), scenario.bytes())?;
    let path = format!(in alloc; "{name}.report")?;
    match report_of(rt, alloc, scenario.bytes(), backup.report()) {
        Some(report) => write_file(program, path.as_str(), report.bytes()),
        None => Err(no_report(program, path.as_str())),
    }
}
