use crate::driving::job_fault::{JobFault, JobReason};
use crate::driving::place::number_of;
use std::alloc::{AllocFailed, Global};

/// A volume of the folder, and the file that it is brought to.
#[derive(Clone, Copy)]
pub struct JobVolume<'a> {
    /// The line that declares it, counted from 1.
    pub line: u32,
    pub name: &'a str,
    pub file: &'a str,
    /// Whether a file that is not there counts as empty.
    pub may_lack: bool,
}

/// A writer with its metadata document.
#[derive(Clone, Copy)]
pub struct JobWriter<'a> {
    pub name: &'a str,
    pub document: &'a str,
}

/// A component of a writer has files in a volume.
#[derive(Clone, Copy)]
pub struct Holding<'a> {
    pub writer: u32,
    pub component: &'a str,
    pub volume: u32,
}

/// The backup takes this component of a writer.
#[derive(Clone, Copy)]
pub struct Taken<'a> {
    pub writer: u32,
    pub component: &'a str,
}

/// What a job says. Its commands of hooks are for others. Writers and volumes have numbers in the order of their lines.
#[derive(Drop)]
pub struct Job<'a> {
    pub volumes: Vec<JobVolume<'a>>,
    pub writers: Vec<JobWriter<'a>>,
    pub holdings: Vec<Holding<'a>>,
    /// The components that are taken; if there are none, all are.
    pub taken: Vec<Taken<'a>>,
    /// The backup gives up before the folder is left with fewer sets.
    pub least: Option<u32>,
}

/// What reading a line came to.
#[derive(Drop)]
enum Stopped {
    Reason(JobReason),
    OutOfMemory,
}

impl<T: Drop> From<AllocFailed<T>> for Stopped {
    fn from(_refused: AllocFailed<T>) -> Stopped {
        Stopped::OutOfMemory
    }
}

/// Refuses a line for this reason.
fn refuse<T>(reason: JobReason) -> Result<T, Stopped> {
    Err(Stopped::Reason(reason))
}

/// The two parts of the fields of a line.
fn halves(rest: &str) -> Result<(&str, &str), Stopped> {
    let Some((first, second)) = rest.split_once(' ') else {
        return refuse(JobReason::Fields);
    };
    if first.is_empty() || second.is_empty() {
        return refuse(JobReason::Fields);
    }
    Ok((first, second))
}

impl<'a> Job<'a> {
    /// The number of the writer of a name.
    fn writer_of(&self, name: &str) -> Result<u32, Stopped> {
        for (place, writer) in self.writers.iter().enumerate() {
            if writer.name == name {
                return Ok(number_of(place));
            }
        }
        refuse(JobReason::NoSuchWriter)
    }

    /// The number of the volume of a name.
    fn volume_of(&self, name: &str) -> Option<u32> {
        for (place, volume) in self.volumes.iter().enumerate() {
            if volume.name == name {
                return Some(number_of(place));
            }
        }
        None
    }

    /// Whether a component has a volume.
    fn is_held(&self, volume: u32) -> bool {
        self.holdings.iter().any(|holding| holding.volume == volume)
    }

    /// `volume NAME FILE`, `volume NAME FILE or-none`
    fn add_volume(&mut self, line: u32, rest: &'a str) -> Result<(), Stopped> {
        let (name, rest) = halves(rest)?;
        if self.volume_of(name).is_some() {
            return refuse(JobReason::Twice { field: 1 });
        }
        let (file, may_lack) = match rest.strip_suffix(" or-none") {
            Some(file) => (file, true),
            None => (rest, false),
        };
        self.volumes.push(JobVolume {
            line,
            name,
            file,
            may_lack,
        })?;
        Ok(())
    }

    /// `writer NAME DOCUMENT`
    fn add_writer(&mut self, rest: &'a str) -> Result<(), Stopped> {
        let (name, document) = halves(rest)?;
        if self.writer_of(name).is_ok() {
            return refuse(JobReason::Twice { field: 1 });
        }
        self.writers.push(JobWriter { name, document })?;
        Ok(())
    }

    /// `files WRITER COMPONENT NAME ..`
    fn add_files(&mut self, rest: &'a str) -> Result<(), Stopped> {
        let (name, rest) = halves(rest)?;
        let writer = self.writer_of(name)?;
        let (component, names) = halves(rest)?;
        for (place, name) in names.split(' ').enumerate() {
            let field = number_of(place).saturating_add(3);
            let Some(volume) = self.volume_of(name) else {
                return refuse(JobReason::NoSuchVolume { field });
            };
            self.holdings.push(Holding {
                writer,
                component,
                volume,
            })?;
        }
        Ok(())
    }

    /// `take WRITER COMPONENT`
    fn add_taken(&mut self, rest: &'a str) -> Result<(), Stopped> {
        let (name, component) = halves(rest)?;
        let writer = self.writer_of(name)?;
        self.taken.push(Taken { writer, component })?;
        Ok(())
    }

    /// `least N`
    fn set_least(&mut self, rest: &str) -> Result<(), Stopped> {
        if self.least.is_some() {
            return refuse(JobReason::Twice { field: 0 });
        }
        match rest.parse::<u32>() {
            Ok(least) => {
                self.least = Some(least);
                Ok(())
            }
            Err(_) => refuse(JobReason::Fields),
        }
    }

    /// `hook WRITER COMMAND ..`
    fn check_hook(&self, rest: &str) -> Result<(), Stopped> {
        let (name, _command) = halves(rest)?;
        self.writer_of(name).map(|_writer| ())
    }

    /// Takes a line behind the first, of this number.
    fn add(&mut self, number: u32, line: &'a str) -> Result<(), Stopped> {
        if line.is_empty() || line.starts_with('#') {
            return Ok(());
        }
        let (word, rest) = line.split_once(' ').unwrap_or((line, ""));
        match word {
            "volume" => self.add_volume(number, rest),
            "writer" => self.add_writer(rest),
            "files" => self.add_files(rest),
            "take" => self.add_taken(rest),
            "least" => self.set_least(rest),
            "hook" => self.check_hook(rest),
            _ => refuse(JobReason::UnknownWord),
        }
    }

    /// What is wrong with the job as a whole, whose last line has this number.
    fn fault(&self, last: u32) -> Option<JobFault> {
        let line = last.saturating_add(1);
        if last == 0 {
            let reason = JobReason::NotJob;
            return Some(JobFault::Line { line, reason });
        }
        if self.volumes.is_empty() {
            let reason = JobReason::NoVolume;
            return Some(JobFault::Line { line, reason });
        }
        if self.writers.is_empty() {
            let reason = JobReason::NoWriter;
            return Some(JobFault::Line { line, reason });
        }
        for (place, volume) in self.volumes.iter().enumerate() {
            if !self.is_held(number_of(place)) {
                let (line, reason) = (volume.line, JobReason::NobodyHolds);
                return Some(JobFault::Line { line, reason });
            }
        }
        None
    }

    /// The job of a text.
    pub fn read(alloc: Global, text: &'a str) -> Result<Job<'a>, JobFault> {
        let mut job = Job {
            volumes: Vec::new(alloc),
            writers: Vec::new(alloc),
            holdings: Vec::new(alloc),
            taken: Vec::new(alloc),
            least: None,
        };
        let mut number = 0u32;
        for line in text.lines() {
            number = number.saturating_add(1);
            let done = match number {
                1 if line == "job 1" => Ok(()),
                1 => refuse(JobReason::NotJob),
                _ => job.add(number, line),
            };
            match done {
                Ok(()) => {}
                Err(Stopped::OutOfMemory) => return Err(JobFault::OutOfMemory),
                Err(Stopped::Reason(reason)) => {
                    return Err(JobFault::Line {
                        line: number,
                        reason,
                    });
                }
            }
        }
        match job.fault(number) {
            None => Ok(job),
            Some(fault) => Err(fault),
        }
    }
}
