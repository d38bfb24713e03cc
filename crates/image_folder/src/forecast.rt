//! What an update needs of the slots, before a block is written: how many blocks it copies, and which sets go for them.

ghost use Rattle.std.specs.Prelude.{◌<◌, length};

use crate::job::{Job, sets_of};
use crate::opened::{Files, Opened};
use crate::status::Status;
use image_store::Which;
use std::alloc::{AllocError, Global};

/// What an update needs for the images of a volume.
#[derive(Clone, Copy)]
pub struct Want {
    /// The newest image, 0 if there is none.
    pub newest: u32,
    /// How many blocks are copied for it.
    pub copied: u32,
}

/// The blocks of a volume that were written between the cuts of two sets, or since one.
pub fn written_between(
    store: &Files,
    alloc: Global,
    volume: u32,
    set: u32,
    other: Which,
) -> Result<Vec<bool>, AllocError>
    requires { volume < length store.now.group.area.volumes }
{
    let mut marks = vec![in alloc; false; store.blocks(volume) as usize]?;
    store.mark_written(volume, set, other, &mut marks);
    Ok(marks)
}

/// What a job needs, which was compared: a copy of each block that differs, and of which the newest image has none.
pub fn want_of(store: &Files, alloc: Global, job: &Job<'_>) -> Result<Want, AllocError> {
    let none = Want {
        newest: 0,
        copied: 0,
    };
    if job.volume >= store.volumes() {
        return Ok(none);
    }
    let Some(newest) = store.images(job.volume).last().copied() else {
        return Ok(none);
    };
    let has = written_between(store, alloc, job.volume, newest, Which::Now)?;
    let both = job.differs.iter().zip(has.iter());
    let lacking = both.filter(|(differs, has)| **differs && !**has).count();
    let copied = u32::try_from(lacking).unwrap_or(u32::MAX);
    Ok(Want { newest, copied })
}

/// How many slots are used, and needed, once the sets up to one are gone. A volume whose newest image went needs none.
fn needed_above(store: &Files, wants: &[Want], up_to: u32) -> u32 {
    let mut needed = 0u32;
    for want in wants {
        if want.newest > up_to {
            needed = needed.saturating_add(want.copied);
        }
    }
    for volume in 0..store.volumes() {
        for set in store.images(volume) {
            if *set > up_to {
                needed = needed.saturating_add(store.used_by(volume, *set).unwrap_or(0));
            }
        }
    }
    needed
}

/// The set up to which all go, the oldest first, until there is room for all copies; 0 if none goes.
pub fn goes_up_to(store: &Files, sets: &[u32], wants: &[Want]) -> u32 {
    let mut up_to = 0;
    for set in sets {
        if needed_above(store, wants, up_to) <= store.slots() {
            break;
        }
        up_to = *set;
    }
    up_to
}

impl Opened {
    /// That as many sets are left by jobs, which were compared, as there are to be.
    pub fn check_room(&self, jobs: &[Job<'_>]) -> Result<(), Status> {
        if self.least == 0 {
            return Ok(());
        }
        let alloc = self.folder.program.alloc();
        let mut wants = Vec::new(alloc);
        for job in jobs {
            wants.push(want_of(&self.store, alloc, job)?)?;
        }
        let sets = sets_of(&self.store, alloc)?;
        let up_to = goes_up_to(&self.store, &sets, &wants);
        let left = sets.iter().filter(|set| **set > up_to).count();
        if up_to == 0 || left >= self.least as usize {
            return Ok(());
        }
        let (path, least) = (self.folder.path.as_str(), self.least);
        Err(
            ended!(self.folder.program, Refused; "{path}: sets: {left} would be left, and {least} are wanted at least"),
        )
    }
}
