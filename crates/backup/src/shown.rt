use crate::copier::FolderCopier;
use crate::driving::{Backup, Job};
use backup_ledger::Deed;
use image_folder::{Program, Status};
use std::alloc::Global;

/// What was printed of a backup: so many bytes of its report, and so many deeds.
#[derive(Drop)]
pub struct Shown<'a> {
    names: Vec<&'a str>,
    bytes: usize,
    deeds: usize,
    is_ended: bool,
}

impl<'a> Shown<'a> {
    /// Of a backup of which nothing was printed.
    pub fn new(alloc: Global, job: &Job<'a>) -> Result<Shown<'a>, Status> {
        let mut names = Vec::new(alloc);
        for writer in &job.writers {
            names.push(writer.name)?;
        }
        Ok(Shown {
            names,
            bytes: 0,
            deeds: 0,
            is_ended: false,
        })
    }

    /// The names of the writers.
    pub fn names(&self) -> &[&'a str] {
        &self.names
    }

    /// The name of a writer.
    fn name(&self, writer: u32) -> &'a str {
        match self.names.get(writer as usize) {
            Some(name) => name,
            None => "",
        }
    }

    /// Prints the lines of the report that came, but for those by which time went by.
    fn show_report(&mut self, program: &Program, report: &[u8]) {
        let Some(new) = report.get(self.bytes..) else {
            return;
        };
        for line in std::str::from_utf8(new).unwrap_or("").lines() {
            if !line.contains(" lane clock ") {
                // if nobody hears it, the input ends too
                let _ = println!(program.rt; "{line}");
            }
        }
        self.bytes = report.len();
    }

    /// Prints what a deed says to a writer.
    fn show_deed(&self, program: &Program, deed: Deed) {
        match deed {
            Deed::Said {
                writer,
                number,
                order,
                nth,
            } => {
                let (name, word) = (self.name(writer), order.name());
                let _ = println!(program.rt; "order {name} {number} {word} {nth}");
            }
            Deed::ToldAbort { writer } => {
                let _ = println!(program.rt; "abort {}", self.name(writer));
            }
            Deed::Kept { set } => {
                let _ = println!(program.rt; "set {set} kept");
            }
            Deed::Heard { .. } | Deed::Near | Deed::Read { .. } => {}
        }
    }

    /// Prints why nothing is kept, once.
    fn show_why(&mut self, program: &Program, backup: &Backup<FolderCopier<'_>>) {
        let Some(why) = backup.why() else {
            return;
        };
        if self.is_ended {
            return;
        }
        self.is_ended = true;
        let _ = match why.said() {
            (said, Some(writer)) => {
                println!(program.rt; "nothing is kept: {}: {said}", self.name(writer))
            }
            (said, None) => println!(program.rt; "nothing is kept: {said}"),
        };
    }

    /// Prints what is new of a backup.
    pub fn show(&mut self, program: &Program, backup: &Backup<FolderCopier<'_>>) {
        self.show_report(program, backup.report());
        let deeds = backup.ledger().deeds();
        for place in self.deeds..deeds.len() {
            if let Some(deed) = deeds.get(place) {
                self.show_deed(program, *deed);
            }
        }
        self.deeds = deeds.len();
        self.show_why(program, backup);
    }
}
