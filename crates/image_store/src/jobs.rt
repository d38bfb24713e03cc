ghost use Rattle.std.specs.Prelude.{◌≡◌, ◌≢◌, ◌<◌, ◌≤◌, ℕ, [], Some, false, length, slice_get, IfOk, IsTrue, OnOk};
ghost use Rattle.image_order.specs.declared.copied.Copied.{Copied as CopiedOf};
ghost use Rattle.image_store.specs.Ordering.{AreAtTheirEnd, AreCopiedSoFar, aims_of, AllLast, AreApart, AreOverwritten, IsCopyPass};
ghost use Rattle.image_store.specs.PowerLoss.{IsStillUnderWay};
ghost use Rattle.image_store.specs.StoreValue.{StandsStill};

use crate::job::Job;
use crate::report::Report;
use crate::store::Store;
use image_order::Copied;
use std::alloc::{AllocError, Global};
use volume_device::Device;
use vss_names::Failed;
use write_history::Evicted;

/// The volumes that an update brings to other devices, and what the program shows of it.
#[derive(Drop)]
pub struct Jobs<I: Device, R: Drop> {
    pub jobs: Vec<Job<I>>,
    pub report: R,
    pub alloc: Global,
    /// The images that went in the last pass of copying.
    pub gone: Vec<Evicted>,
    /// Whether it began to overwrite a volume.
    pub is_torn: bool,
}

impl<I: Device, R: Drop> Jobs<I, R> {
    /// These jobs, of which none has begun.
    pub fn new(alloc: Global, jobs: Vec<Job<I>>, report: R) -> Jobs<I, R>
        ensures jobs { result.jobs ≡ jobs }
        ensures torn { result.is_torn ≡ false }
    {
        Jobs {
            jobs,
            report,
            alloc,
            gone: Vec::new(alloc),
            is_torn: false,
        }
    }
}

/// Whether a volume is that of one of the first of these jobs.
fn is_of_first<I: Device>(jobs: &Vec<Job<I>>, count: usize, volume: u32) -> bool
    requires { count ≤ length jobs.now.items }
    ensures { result ≡ false → (i : ℕ) (job : _) → i < count → slice_get jobs.now.items i ≡ Some job → job.volume ≢ volume }
{
    for place in 0..count {
        if jobs[place].volume == volume {
            return true;
        }
    }
    false
}

/// Whether each of these jobs has a volume of its own.
pub fn are_apart<I: Device>(jobs: &Vec<Job<I>>) -> bool
    ensures { IsTrue result → AreApart (aims_of I.told jobs.now.items) }
{
    for place in 0..jobs.len() {
        if is_of_first(jobs, place, jobs[place].volume) {
            return false;
        }
    }
    true
}

/// The second pass of each job, until images have to go.
pub fn copy_jobs<
    D: Device,
    I: Device,
    R: Report<D, I, E>,
    E: From<Failed> + From<AllocError> + Drop,
>(
    store: &mut Store<D>,
    jobs: &mut Vec<Job<I>>,
    gone: &mut Vec<Evicted>,
    report: &R,
) -> Result<Copied, E>
    ensures aims { aims_of I.told jobs.new.items ≡ aims_of I.told jobs.old.items }
    ensures pass { IsCopyPass D.told store.old store.new result }
    ensures copied { AreCopiedSoFar store.old.group jobs.old.items
        → AreCopiedSoFar store.new.group jobs.new.items }
    ensures whole { IfOk result (λ copied. copied ≡ CopiedOf.All → AreAtTheirEnd jobs.new.items) }
    ensures some { IfOk result (λ copied. copied ≡ CopiedOf.UntilEvicted → jobs.old.items ≢ []) }
{
    'each: for job in jobs.iter_mut() {
        match job.copy_ahead(store, gone, report) {
            Err(fault) => return Err(fault),
            Ok(Copied::UntilEvicted) => return Ok(Copied::UntilEvicted),
            Ok(Copied::All) => {}
        }
    }
    Ok(Copied::All)
}

/// The third pass of each job.
pub fn overwrite_jobs<
    D: Device,
    I: Device,
    R: Report<D, I, E>,
    E: From<Failed> + From<AllocError> + Drop,
>(
    store: &mut Store<D>,
    jobs: &mut Vec<Job<I>>,
    gone: &mut Vec<Evicted>,
    report: &R,
) -> Result<(), E>
    ensures written { AreOverwritten D.told (aims_of I.told jobs.old.items) store.old store.new result }
{
    'each: for job in jobs.iter_mut() {
        match job.overwrite(store, gone, report) {
            Err(fault) => return Err(fault),
            Ok(()) => {}
        }
    }
    Ok(())
}

/// Brings the area and then each volume to where they last.
pub fn flush_all<D: Device>(store: &mut Store<D>) -> Result<(), Failed>
    ensures last { OnOk result (AllLast D.told D.lasting store.new.group) }
    ensures under_way { IsStillUnderWay D.told store.old.group store.new.group }
    ensures still { StandsStill D.told store.old store.new }
    ensures images { store.new.group.images ≡ store.old.group.images }
{
    let Ok(()) = store.sync() else {
        return Err(Failed);
    };
    for volume in 0..store.volumes() {
        let Ok(()) = store.flush(volume) else {
            return Err(Failed);
        };
    }
    store.has_volumes();
    Ok(())
}
