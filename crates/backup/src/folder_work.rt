ghost use Rattle.std.specs.Prelude.{◌≢◌, OnOk};
ghost use Rattle.std.specs.List.{AllPairs};
ghost use Rattle.image_folder.specs.Parts.{AreVolumes};

use crate::capture::{Capture, check_all, fault_of, overwrite, read_part, take_all};
use crate::chosen::Chosen;
use crate::driving::JobVolume;
use image_folder::{
    FileInput, Job as Passes, Opened, Program, Status, Way, add_jobs, compare, ended, goes_up_to,
    open, say, sets_of, want_of,
};
use std::mem;
use std::time::Instant;

/// The longest time that is told, in seconds.
const MOST_SECONDS: u64 = 4_000_000;

/// The work of a backup on a folder of images and on the files of its job.
#[derive(Drop)]
pub struct FolderWork<'a> {
    program: Program,
    opened: Opened,
    /// The volumes of the job, by their numbers there.
    volumes: Vec<JobVolume<'a>>,
    /// The volumes of the set, and their names.
    chosen: Vec<u32>,
    names: Vec<&'a str>,
    captures: Vec<Capture<'a>>,
    /// When the first block was read while all stood still.
    since: Option<Instant>,
}

/// Milliseconds since a moment.
pub fn since(program: &Program, then: Option<Instant>) -> u32 {
    match (Instant::now(&program.rt), then) {
        (Ok(now), Some(then)) => {
            let spent = now.duration_since(then);
            let seconds = spent.as_secs().min(MOST_SECONDS) as u32;
            seconds
                .saturating_mul(1000)
                .saturating_add(spent.subsec_millis())
        }
        _ => 0,
    }
}

/// That all names of a job are those of volumes of the folder, and takes over what a call left in transit, if all of it is in the set.
fn take_over(opened: &mut Opened, chosen: &Chosen<'_>) -> Result<(), Status> {
    for volume in &chosen.volumes {
        opened.place_of(volume.name)?;
    }
    opened.check_transit(&chosen.names)?;
    opened.settle()
}

/// Adds the volumes of these names.
fn add_places(opened: &Opened, names: &[&str], places: &mut Vec<u32>) -> Result<(), Status>
    requires within { AreVolumes opened.now.store.group places.old.items }
    requires apart { AllPairs (λ u v. u ≢ v) places.old.items }
    ensures within { OnOk result (AreVolumes opened.now.store.group places.new.items) }
    ensures apart { OnOk result (AllPairs (λ u v. u ≢ v) places.new.items) }
{
    for name in names {
        opened.add_places(name, places)?;
    }
    Ok(())
}

/// Whether a set would go for copies of the blocks of the volumes of a file that differ.
fn takes_sets(opened: &Opened, passes: &[Passes<'_>]) -> Result<bool, Status> {
    let alloc = opened.folder.program.alloc();
    let mut wants = Vec::new(alloc);
    for one in passes {
        wants.push(want_of(&opened.store, alloc, one)?)?;
    }
    let sets = sets_of(&opened.store, alloc)?;
    Ok(goes_up_to(&opened.store, &sets, &wants) > 0)
}

impl<'a> FolderWork<'a> {
    /// That on an open folder, of which nothing was done.
    fn new(opened: Opened, chosen: Chosen<'a>) -> FolderWork<'a> {
        let program = opened.folder.program;
        let alloc = program.alloc();
        let Chosen {
            volumes,
            places,
            names,
        } = chosen;
        FolderWork {
            program,
            opened,
            volumes,
            chosen: places,
            names,
            captures: Vec::new(alloc),
            since: None,
        }
    }

    /// Opens a folder for the volumes of a job. At least so many sets stay in it.
    pub fn open(
        program: &Program,
        folder: &str,
        least: u32,
        chosen: Chosen<'a>,
    ) -> Result<FolderWork<'a>, Status> {
        let mut opened = open(program, folder, Way::Writing, 0)?;
        opened.least = least;
        take_over(&mut opened, &chosen)?;
        Ok(FolderWork::new(opened, chosen))
    }

    /// The passes of a volume of the job over its file: of each volume of the folder that keeps a part of it, of as many blocks.
    fn passes(&self, volume: u32) -> Result<Vec<Passes<'a>>, Status> {
        let Some(of) = self.volumes.get(volume as usize) else {
            return Err(Status::DeviceFault);
        };
        let mut passes = Vec::new(self.program.alloc());
        add_jobs(&self.opened, of.name, of.file, of.may_lack, &mut passes)?;
        Ok(passes)
    }

    /// Makes the marker of an update of the volumes of the set, unless it is there.
    fn mark(&mut self) -> Result<(), Status> {
        if self.opened.is_marked {
            return Ok(());
        }
        let mut text = String::from_str(self.program.alloc(), "update\n")?;
        for name in &self.names {
            write!(text, "{name}\n")?;
        }
        self.opened.mark(text.as_str())
    }

    /// Says that the file of passes was not there, if it was not.
    fn say_none(&self, volume: u32, input: &FileInput<'_>) -> Result<(), Status> {
        let path = match self.volumes.get(volume as usize) {
            Some(of) => String::from_str(self.program.alloc(), of.file)?,
            None => return Ok(()),
        };
        if input.length() > 0 || input.is_at(path) {
            return Ok(());
        }
        let name = input.name;
        say(
            &self.program,
            format_args!("near {name}: its file was not there\n"),
        )
    }

    /// Brings a volume near its file, if no set goes for it.
    fn bring_one(&mut self, volume: u32) -> Result<(), Status> {
        let mut jobs = self.passes(volume)?;
        let Some(first) = jobs.first() else {
            return Ok(());
        };
        let name = first.input.name;
        self.say_none(volume, &first.input)?;
        let then = Instant::now(&self.program.rt).ok();
        let brought = first.input.brought();
        let (mut blocks, mut all) = (0u32, 0u32);
        for passes in jobs.iter_mut() {
            compare(passes, &mut self.opened.store)?;
            blocks = blocks.saturating_add(passes.written);
            all = all.saturating_add(passes.input.blocks);
        }
        if takes_sets(&self.opened, &jobs)? {
            self.opened.check_room(&jobs)?;
            return say(
                &self.program,
                format_args!(
                    "near {name}: {blocks} of {all} blocks wait, as a set would go for them\n"
                ),
            );
        }
        if blocks > 0 {
            self.opened.folder.note_apart(&[brought])?;
            overwrite(&mut self.opened, &mut jobs)?;
        }
        let ms = since(&self.program, then);
        say(
            &self.program,
            format_args!("near {name}: {blocks} of {all} blocks written, in {ms} ms\n"),
        )
    }

    /// Brings all volumes of the set near their files, if the set may be dated. A file that was cut off meanwhile is read once its writer stands still.
    pub fn bring_all(&mut self) -> Result<(), Status> {
        self.opened.folder.dates()?;
        self.mark()?;
        for place in 0..self.chosen.len() {
            let volume = self.chosen.get(place).copied().unwrap_or(0);
            match self.bring_one(volume) {
                Ok(()) | Err(Status::InputChanged) => {}
                Err(status) => return Err(status),
            }
        }
        Ok(())
    }

    /// Begins to read the file of a volume while its writer stands still, unless it has begun.
    fn begin(&mut self, volume: u32) -> Result<(), Status> {
        if self.captures.iter().any(|capture| capture.volume == volume) {
            return Ok(());
        }
        for passes in self.passes(volume)? {
            let (name, blocks) = (passes.input.name, passes.input.blocks);
            let spool = self.opened.folder.spool(name, blocks)?;
            self.captures.push(Capture::new(volume, passes, spool))?;
        }
        if self.since.is_none() {
            self.since = Instant::now(&self.program.rt).ok();
        }
        Ok(())
    }

    /// Reads the next part of the file of a volume. Whether it was the last is answered.
    pub fn read_part(&mut self, volume: u32) -> Result<bool, Status> {
        self.begin(volume)?;
        read_part(
            &self.program,
            &mut self.opened.store,
            &mut self.captures,
            volume,
        )
    }

    /// That no file has changed, and how long reading took.
    pub fn check_all(&mut self) -> Result<(), Status> {
        let (all, differ) = check_all(&self.program, &mut self.captures)?;
        let ms = since(&self.program, self.since);
        say(
            &self.program,
            format_args!("read while all stood still: {all} blocks in {ms} ms; {differ} differ\n"),
        )
    }

    /// Cuts one set over the volumes.
    fn cut(&mut self) -> Result<u32, Status> {
        let mut places = Vec::new(self.program.alloc());
        add_places(&self.opened, &self.names, &mut places)?;
        match self.opened.store.cut(&places) {
            Ok(set) => Ok(set),
            Err(_) => {
                let folder = self.opened.folder.path.as_str();
                Err(
                    ended!(self.program, Refused; "{folder}: no further set may be cut; delete some"),
                )
            }
        }
    }

    /// The volumes take their spools, and the set is cut and committed.
    pub fn keep_all(&mut self) -> Result<u32, Status> {
        self.mark()?;
        let captures = mem::replace(&mut self.captures, Vec::new(self.program.alloc()));
        take_all(&mut self.opened, captures)?;
        let set = self.cut()?;
        self.opened.note_date(set, "")?;
        self.opened.commit()?;
        Ok(set)
    }

    /// Ends the call on the folder: what is kept lasts, and the marker goes. If the folder failed what is committed counts.
    pub fn end(self, failed: Option<Status>) -> Result<(), Status> {
        let FolderWork {
            program,
            mut opened,
            captures,
            ..
        } = self;
        let failed = match failed {
            Some(Status::DeviceFault) => Some(fault_of(&program, captures)),
            failed => failed,
        };
        let done = match failed {
            None | Some(Status::InputChanged | Status::Unread | Status::Refused) => Ok(()),
            Some(status) => Err(status),
        };
        let done = opened.or_unmark(done);
        opened.end(done)
    }
}
