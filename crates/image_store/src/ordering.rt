//! The passes of an update of volumes, and the calls that commit, in the order of `image_order`.

ghost use Rattle.std.specs.Prelude.{◌≡◌, ◌⊎◌, false, ℕ, List, [], Option, Some, None, IfErr, IsTrue, OnOk};
ghost use Rattle.image_order.specs.Found.{AreAll};
ghost use Rattle.image_order.specs.Order.{IsKnownIfGone};
ghost use Rattle.image_order.specs.declared.name.Name.{Name as NameOf};
ghost use Rattle.image_store.specs.Ordering.{AreBegun, aims_of, AllLast, AreBrought, FoundBut, HasBut, IsHeadOf, OfAll};
ghost use Rattle.image_store.specs.Plain.{PlainStore};
ghost use Rattle.image_store.specs.PowerLoss.{IsUnderWay};
ghost use Rattle.image_store.specs.StoreValue.{StoreValue, StandsAs, StandsStill};

use crate::jobs::{Jobs, are_apart, copy_jobs, flush_all, overwrite_jobs};
use crate::report::Report;
use crate::store::Store;
use image_order::{Copied, Passes, StateFolder, commit_in_order, end_in_order, overwrite_in_order};
use std::alloc::{AllocError, Global};
use volume_device::Device;
use vss_names::{Failed, OutOfMemory, Text};

impl<
    D: Device,
    I: Device,
    R: Report<D, I, E>,
    E: From<Failed> + From<OutOfMemory> + From<AllocError> + Drop,
> Passes<E, Jobs<I, R>> for Store<D> {
    ghost use Rattle.std.specs.Prelude.{IsTrue};
    ghost use Rattle.image_store.specs.Ordering.{AreAtTheirEnd, AreCopiedSoFar, aims_of, AllLast, AreApart, AreBrought, CoversBut, HasBut, HoldsBut, MayOverwrite, OfAll, OpensBut};
    ghost use Rattle.image_store.specs.Head.{head_of};

    ghost head = { λ store. head_of store };

    ghost stands = { λ jobs first now. AreCopiedSoFar now.group jobs.jobs.items
        × OfAll D.told first (MayOverwrite D.told (aims_of I.told jobs.jobs.items) now) };

    ghost is_before = { λ first now. OfAll D.told first (HasBut D.told now) };

    ghost opens = { λ first now h. OfAll D.told first (OpensBut D.told now h) };

    ghost holds = { λ first now h. OfAll D.told first (HoldsBut D.told now h) };

    ghost covers = { λ jobs first now h. OfAll D.told first (CoversBut D.told (aims_of I.told jobs.jobs.items) now h) };

    ghost is_copied = { λ jobs. AreApart (aims_of I.told jobs.jobs.items)
        × AreAtTheirEnd jobs.jobs.items };

    ghost is_torn = { λ jobs. IsTrue jobs.is_torn };

    ghost is_brought = { λ jobs first now. OfAll D.told first
        (AreBrought D.told (aims_of I.told jobs.jobs.items) now) };

    ghost lasts = { λ jobs now. AllLast D.told D.lasting now.group };

    fn copy(&mut self, jobs: &mut Jobs<I, R>) -> Result<Copied, E> {
        if !are_apart(&jobs.jobs) {
            return Err(E::from(Failed));
        }
        match copy_jobs(self, &mut jobs.jobs, &mut jobs.gone, &jobs.report) {
            Err(fault) => Err(fault),
            Ok(Copied::All) => Ok(Copied::All),
            Ok(Copied::UntilEvicted) => match jobs.report.check_left(self) {
                Ok(()) => Ok(Copied::UntilEvicted),
                Err(fault) => Err(fault),
            },
        }
    }

    fn say_gone(&self, jobs: &Jobs<I, R>) -> Result<(), E> {
        jobs.report.say_gone(self, &jobs.gone)
    }

    fn sync(&mut self, _jobs: &Jobs<I, R>) -> Result<(), E> {
        match self.sync() {
            Ok(()) => Ok(()),
            Err(_) => Err(E::from(Failed)),
        }
    }

    fn head(&self, jobs: &Jobs<I, R>) -> Result<Text, E> {
        Ok(self.head(jobs.alloc)?)
    }

    fn slots(&self) -> u32 {
        self.slots()
    }

    fn overwrite(&mut self, jobs: &mut Jobs<I, R>) -> Result<(), E> {
        jobs.is_torn = true;
        overwrite_jobs(self, &mut jobs.jobs, &mut jobs.gone, &jobs.report)
    }

    fn finish(&mut self, _jobs: &Jobs<I, R>) -> Result<(), E> {
        match flush_all(self) {
            Ok(()) => Ok(()),
            Err(_) => Err(E::from(Failed)),
        }
    }

    ghost held_open = { λ first now h held p stands. (held p stands).opens };

    ghost covered_open = { λ jobs first now h covered p stands. (covered p stands).holds.opens };
}

/// Brings volumes to other devices under a marker of these lines: their old bytes are copied, that is committed, and then they are overwritten.
///
/// Whether or not a call fails, and so at every moment (`image_order`): if the folder has the store's committed head as this begins, each head
/// that may be found opens to the images from before the call, whatever has lasted of the blocks that were written. An image that is not found
/// is gone from memory, too. A marker of other lines may be found only while no block of a volume was written.
///
/// If the call is accepted, the volume of each job has what its device told of the blocks that differ, and else what it had.
pub fn update_in_order<
    F: StateFolder<E>,
    D: Device,
    I: Device,
    R: Report<D, I, E>,
    E: From<Failed> + From<OutOfMemory> + From<AllocError> + Drop,
>(
    folder: &mut F,
    store: &mut Store<D>,
    jobs: &mut Jobs<I, R>,
    lines: &str,
    was_torn: bool,
) -> Result<(), E>
    ensures found { AreAll (IsHeadOf D.told store.old) (F.found folder.old NameOf.State)
        → AreBegun D.told I.told store.old jobs.old.jobs.items
        → OfAll D.told store.old (λ p. AreAll (FoundBut D.told store.new p)
        (F.found folder.new NameOf.State)) }
    ensures brought { OnOk result (AreBegun D.told I.told store.old jobs.old.jobs.items
        → OfAll D.told store.old
        (AreBrought D.told (aims_of I.told jobs.old.jobs.items) store.new)) }
    ensures transit { (file : Option (List ℕ)) → F.found folder.new NameOf.Marker file → (file ≡ Some lines.now)
        ⊎ (OfAll D.told store.old (HasBut D.told store.new) × (F.found folder.old NameOf.Marker file ⊎ ((file ≡ None) × (was_torn ≡ false)))) }
    ensures marked { OnOk result ((file : Option (List ℕ)) → F.found folder.new NameOf.Marker file → file ≡ Some lines.now) }
    ensures known { IfErr result (IsKnownIfGone F.StateFolder folder.old folder.new) }
    ensures torn { IsTrue jobs.new.is_torn ⊎ OfAll D.told store.old (HasBut D.told store.new) }
{
    overwrite_in_order(folder, store, jobs, lines, was_torn)
}

/// Commits, under a marker of these lines, what leaves the volumes with what they had, as a cut or a deletion.
///
/// Whether or not a call fails, and so at every moment: if the folder has the committed head of the store as it was before that cut or deletion,
/// each head that may be found opens to the images from before it, or to those from after it. If the call is accepted it is those from after
/// it, so a set that was cut lasts.
pub fn keep_in_order<
    F: StateFolder<E>,
    D: Device,
    I: Device,
    R: Report<D, I, E>,
    E: From<Failed> + From<OutOfMemory> + From<AllocError> + Drop,
>(
    folder: &mut F,
    store: &mut Store<D>,
    none: &Jobs<I, R>,
    lines: &str,
    was_torn: bool,
) -> Result<(), E>
    requires { none.now.jobs.items ≡ [] }
    ensures found { (before : StoreValue D) → AreAll (IsHeadOf D.told before) (F.found folder.old NameOf.State)
        → IsUnderWay D.told before.group store.old.group
        → (p q : PlainStore) → StandsAs D.told before p → StandsAs D.told store.old q
        → AreAll (λ h. FoundBut D.told store.new p h ⊎ FoundBut D.told store.new q h) (F.found folder.new NameOf.State) }
    ensures lasts { OnOk result (OfAll D.told store.old (λ q. AreAll (FoundBut D.told store.new q) (F.found folder.new NameOf.State))) }
    ensures known { IfErr result (IsKnownIfGone F.StateFolder folder.old folder.new) }
    ensures stands { StandsStill D.told store.old store.new }
{
    commit_in_order(folder, store, none, lines, was_torn)
}

/// Ends a call: its volumes last, and then the marker goes.
pub fn settle_in_order<
    F: StateFolder<E>,
    D: Device,
    I: Device,
    R: Report<D, I, E>,
    E: From<Failed> + From<OutOfMemory> + From<AllocError> + Drop,
>(folder: &mut F, store: &mut Store<D>, jobs: &Jobs<I, R>) -> Result<(), E>
    ensures transit { (file : Option (List ℕ)) → F.found folder.new NameOf.Marker file → F.found folder.old NameOf.Marker file
        ⊎ ((file ≡ None) × AllLast D.told D.lasting store.new.group) }
    ensures gone { OnOk result ((file : Option (List ℕ)) → F.found folder.new NameOf.Marker file
        → (file ≡ None) × AllLast D.told D.lasting store.new.group) }
{
    end_in_order(folder, store, jobs)
}
