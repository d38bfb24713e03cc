//! An open folder, and what a call on it leaves to be done at its end.

ghost use Rattle.std.specs.Prelude.{◌≡◌, ◌<◌, length};

use crate::device::{StoreDevice, SumTable};
use crate::device_file::Opening;
use crate::ended::{note, say};
use crate::folder::{Folder, MARKER, STATE};
use crate::job::{Job, sets_of};
use crate::jobs::{FileReport, no_jobs};
use crate::left::clear_left;
use crate::marker::Marker;
use crate::naming::{is_part, name_in};
use crate::program::Program;
use crate::source::add_source;
use crate::state::{State, blocks_in};
use crate::status::Status;
use crate::sum_fault::{fault_of, say_other};
use crate::way::Way;
use diff_area::AreaFault;
use image_order::{StateFolder, commit, mark, overwrite_marked};
use image_store::{
    Head, Jobs, OpenFault, Refused, Store, keep_in_order, settle_in_order, update_in_order,
};
use std::mem;
use std::sync::Arc;

/// The volumes and images of a folder, over its files.
pub type Files = Store<StoreDevice>;

/// An open folder, its store, and the marker that a call left there which did not end.
#[derive(Drop)]
pub struct Opened {
    pub folder: Folder,
    pub store: Files,
    pub marker: Option<Marker>,
    /// What is printed once the call is done.
    pub text: String,
    /// Whether the marker of this call is there. Then the store is closed and the marker goes before anything is printed.
    pub is_marked: bool,
    /// Whether this call began to overwrite a volume: the marker stays if it is not done.
    pub is_torn: bool,
    /// How many sets are left at least: sooner a call gives up.
    pub least: u32,
}

/// Says the failed call of an area, if it is known.
fn fault_of_area(program: &Program, area: Option<StoreDevice>) -> Status {
    match area {
        Some(area) => fault_of(program, area).unwrap_or(Status::DeviceFault),
        None => Status::DeviceFault,
    }
}

/// Says why devices are no store. Where there are too few, of each that is not there a line was printed.
fn refusal(folder: &Folder, refused: Refused<StoreDevice>) -> Status {
    let Refused { fault, area } = refused;
    match fault {
        OpenFault::OutOfMemory => Status::OutOfMemory,
        OpenFault::Devices { .. } => Status::Damaged,
        OpenFault::Area(AreaFault::Device) => fault_of_area(&folder.program, area),
        fault => ended!(folder.program, Damaged; "{}/{STATE}: {fault}", folder.path),
    }
}

/// Takes up what these devices and the head of a state are.
fn take_up(
    folder: &Folder,
    devices: Vec<StoreDevice>,
    area: StoreDevice,
    head: &Head,
) -> Result<Files, Status> {
    match Store::open(folder.program.alloc(), devices, area, head) {
        Ok(store) => Ok(store),
        Err(refused) => Err(refusal(folder, refused)),
    }
}

/// The store of a folder that is opened.
fn store_of(opening: Opening<'_>) -> Result<Files, Status> {
    opening.note_lack();
    let mut devices = Vec::new(opening.folder.program.alloc());
    opening.add_devices(&mut devices)?;
    let area = opening.area_device(&devices)?;
    take_up(opening.folder, devices, area, &opening.state.head)
}

/// Says the first block of devices and their area with another sum, if there is one.
fn say_first_other(
    program: &Program,
    devices: &[StoreDevice],
    area: &StoreDevice,
) -> Option<Status> {
    for device in devices {
        if let Some(index) = device.other_sum() {
            return Some(say_other(program, device, index, devices));
        }
    }
    Some(say_other(program, area, area.other_sum()?, devices))
}

/// Says the first device that failed; a block with another sum comes first.
pub fn first_fault(program: &Program, devices: Vec<StoreDevice>, area: StoreDevice) -> Status {
    if let Some(status) = say_first_other(program, &devices, &area) {
        return status;
    }
    for device in devices {
        if let Some(status) = fault_of(program, device) {
            return status;
        }
    }
    fault_of(program, area).unwrap_or(Status::DeviceFault)
}

/// Says the device that failed, if one did: what is left to say of a call that was not done.
pub fn take_apart(program: &Program, store: Files, status: Status) -> Status {
    let Status::DeviceFault = status else {
        return status;
    };
    let (devices, area) = store.into_devices();
    first_fault(program, devices, area)
}

/// Closes a store.
pub fn close(program: &Program, store: Files) -> Result<(), Status> {
    let closed = store.close();
    match closed.outcome {
        Ok(()) => Ok(()),
        Err(_) => Err(first_fault(program, closed.devices, closed.area)),
    }
}

/// Ends a call that was done and has a marker. If blocks of volumes were written, their sums are committed first.
fn end_marked(folder: &mut Folder, store: &mut Files, is_torn: bool) -> Result<(), Status> {
    let none = no_jobs(folder.program);
    if is_torn {
        commit(folder, store, &none)?;
    }
    settle_in_order(folder, store, &none)
}

/// The table of sums of a folder that is opened to be written.
fn table_of(program: &Program, state: &State) -> Result<SumTable, Status> {
    let sums = blocks_in(state.head.catalog()).saturating_add(state.slots() as usize);
    let table = SumTable::new(program.alloc(), sums)?;
    table.take(&state.sums);
    Ok(table)
}

/// The marker that a call left in a folder of this state which did not end.
fn marker_in(folder: &Folder, state: &State) -> Result<Option<Marker>, Status> {
    let (alloc, catalog) = (folder.program.alloc(), state.head.catalog());
    match folder.small(MARKER)? {
        Some(bytes) => Ok(Some(Marker::of(alloc, &bytes, catalog)?)),
        None => Ok(None),
    }
}

/// Clears away what a call left which did not end, and gives a folder its table of sums.
fn begin_writing(
    folder: &mut Folder,
    state: &State,
    marker: Option<&Marker>,
) -> Result<(), Status> {
    clear_left(folder, marker, state.head.catalog())?;
    let table = table_of(&folder.program, state)?;
    folder.sums = Some(Arc::new(folder.program.alloc(), table)?);
    Ok(())
}

/// The store of a folder, and its marker.
fn found_in(folder: &mut Folder, way: Way) -> Result<(Files, Option<Marker>), Status> {
    let state = State::read(folder)?;
    let marker = marker_in(folder, &state)?;
    if let Way::Writing = way {
        begin_writing(folder, &state, marker.as_ref())?;
    }
    let store = store_of(Opening {
        folder,
        state: &state,
        way,
        marker: marker.as_ref(),
    })?;
    Ok((store, marker))
}

/// Opens a folder. For one that another process has it waits so many seconds.
pub fn open(program: &Program, path: &str, way: Way, wait: u32) -> Result<Opened, Status> {
    let mut folder = Folder::open(program, path, way, wait)?;
    let (store, marker) = found_in(&mut folder, way)?;
    Ok(Opened {
        folder,
        store,
        marker,
        text: String::new(program.alloc()),
        is_marked: false,
        is_torn: false,
        least: 0,
    })
}

impl Opened {
    /// The folder and the store.
    pub(crate) fn apart(self) -> (Folder, Files) {
        let Opened { folder, store, .. } = self;
        (folder, store)
    }

    /// Whether the present contents of a volume are in transit, by the marker that was found.
    pub fn is_in_transit(&self, volume: u32) -> bool
        requires { volume < length self.now.store.group.area.volumes }
    {
        match &self.marker {
            Some(marker) => marker.has(&self.store, volume),
            None => false,
        }
    }

    /// Adds the names of the volumes in transit, but for those of a list, each with a space before it.
    pub fn add_in_transit(&self, but: &[&str], names: &mut String) -> Result<(), Status> {
        for volume in 0..self.store.volumes() {
            let (name, alloc) = (name_in(&self.store, volume), self.folder.program.alloc());
            let is_named = (&*but).contains(&name) || is_part(&self.store, alloc, volume)?;
            if self.is_in_transit(volume) && !is_named {
                write!(names, " {name}")?;
            }
        }
        Ok(())
    }

    /// What is to be said of a folder in which volumes are in transit, but for those of these names. Beside another process nothing is.
    fn said_of_transit(&self, but: &[&str]) -> Result<Option<String>, Status> {
        let (path, alloc) = (self.folder.path.as_str(), self.folder.program.alloc());
        let mut names = String::new(alloc);
        self.add_in_transit(but, &mut names)?;
        match &self.marker {
            Some(marker) if !names.is_empty() && !self.folder.is_beside() => {
                let mut all = String::new(alloc);
                self.add_in_transit(&[], &mut all)?;
                Ok(Some(format!(in alloc;
                    "{path}: left open by {marker}; an update of{all} ends it, and ./images check {path} says what is whole"
                )?))
            }
            _ => Ok(None),
        }
    }

    /// Refuses a call on a folder in which volumes are in transit that it does not bring to other contents: those of these names it does.
    pub fn check_transit(&self, brought: &[&str]) -> Result<(), Status> {
        match self.said_of_transit(brought)? {
            Some(line) => Err(ended!(self.folder.program, Unclean; "{line}")),
            None => Ok(()),
        }
    }

    /// Says that volumes are in transit, if some are: the images of all are right.
    pub fn note_transit(&self) -> Result<(), Status> {
        if let Some(line) = self.said_of_transit(&[])? {
            note(&self.folder.program, line);
        }
        Ok(())
    }

    /// Makes the marker of this call.
    pub fn mark(&mut self, text: &str) -> Result<(), Status>
        ensures { self.new.store ≡ self.old.store }
    {
        mark(&mut self.folder, text)?;
        self.is_marked = true;
        Ok(())
    }

    /// Makes what the store is what the next opening finds: its copies are synced, and then its state takes the place of the one before.
    pub fn commit(&mut self) -> Result<(), Status> {
        let none = no_jobs(self.folder.program);
        commit(&mut self.folder, &mut self.store, &none)
    }

    /// Brings volumes to the files of jobs, under a marker of these lines, or else under that of this call, which is there.
    pub fn overwrite<'a>(
        &mut self,
        lines: Option<&str>,
        jobs: &mut Vec<Job<'a>>,
    ) -> Result<(), Status> {
        let (was_torn, alloc) = (self.is_torn, self.folder.program.alloc());
        let report = FileReport::new(&self.folder, self.least, lines.is_some())?;
        let mut all = Jobs::new(alloc, mem::replace(jobs, Vec::new(alloc)), report);
        self.is_marked = true;
        let (folder, store) = (&mut self.folder, &mut self.store);
        let done = match lines {
            Some(lines) => update_in_order(folder, store, &mut all, lines, was_torn),
            None => overwrite_marked(folder, store, &mut all),
        };
        self.is_torn = was_torn || all.is_torn;
        *jobs = all.jobs;
        done
    }

    /// Ends what was done up to here, where the volumes have what they had. If it failed, and what is committed is known, that is as before
    /// too, but for evictions. So the marker goes, unless volumes were in transit before.
    pub fn or_unmark(&mut self, done: Result<(), Status>) -> Result<(), Status> {
        match done {
            Ok(()) | Err(Status::Unsettled) => {}
            Err(_) if self.is_torn => {}
            Err(_) => self.folder.unmark_in_silence(),
        }
        done
    }

    /// Commits, under a marker of this text, what leaves the volumes with what they had.
    pub fn commit_marked(&mut self, text: &str) -> Result<(), Status> {
        let (none, was_torn) = (no_jobs(self.folder.program), self.is_torn);
        self.is_marked = true;
        keep_in_order(&mut self.folder, &mut self.store, &none, text, was_torn)
    }

    /// Commits, under a marker, that images went; then the space of their slots comes back.
    pub fn commit_deletion(&mut self) -> Result<(), Status> {
        self.commit_marked("delete\n")?;
        self.folder.give_back()
    }

    /// Notes when a set was cut and what for, before it is committed.
    pub fn note_date(&mut self, set: u32, note: &str) -> Result<(), Status>
        ensures { self.new.store ≡ self.old.store }
    {
        let alloc = self.folder.program.alloc();
        let (standing, mut sources) = (sets_of(&self.store, alloc)?, String::new(alloc));
        let lines = self.folder.together()?.unwrap_or(String::new(alloc));
        for volume in 0..self.store.volumes() {
            if self.store.images(volume).contains(&set) {
                let name = name_in(&self.store, volume);
                add_source(lines.as_str(), set, name, &mut sources)?;
            }
        }
        self.folder
            .note_date(&standing, set, note, sources.as_str())
    }

    /// Ends what a call did: what it changed lasts and the marker is gone.
    fn settle_end(&mut self, done: Result<(), Status>) -> Result<(), Status> {
        match done {
            Ok(()) if self.is_marked => {
                end_marked(&mut self.folder, &mut self.store, self.is_torn)
            }
            Ok(()) | Err(Status::DeviceFault) => self.folder.end_beside().and(done),
            done => done,
        }
    }

    /// Says the device that failed, if one did.
    fn say_fault(self, status: Status) -> Status {
        let (program, store) = (self.folder.program, self.store);
        take_apart(&program, store, status)
    }

    /// Ends a call: what it changed lasts and the marker is gone before anything is printed.
    pub fn end(self, done: Result<(), Status>) -> Result<(), Status> {
        let mut opened = self;
        match opened.settle_end(done) {
            Ok(()) => say(&opened.folder.program, opened.text.as_str()),
            Err(status) => Err(opened.say_fault(status)),
        }
    }
}
