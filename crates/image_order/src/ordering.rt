//! The order of the calls that replace what is committed.

ghost use Rattle.std.specs.Prelude.{ℕ, ◌≡◌, ◌⊎◌, true, List, Option, Some, None, IfErr, IfOk, OnOk};
ghost use Rattle.image_order.specs.Found.{AreAll, AreAmong, AreOnly, AreWithinBut, Is};
ghost use Rattle.image_order.specs.Order.{IsNamed, IsReplaced, IsCovered, IsGone, KeepsImages};
ghost use Rattle.image_order.specs.Order.{AreBrought, CoversAsNow, HoldsAsNow, IsGoneOn, OpensAsNow};
ghost use Rattle.image_order.specs.Order.{IsKnownIfGone, SaysTorn, StaysBrought, StaysSettled};
ghost use Rattle.image_order.specs.Order.{StillStands, WritesNone};
ghost use Rattle.image_order.specs.declared.name.Name.{Name as NameOf};

use crate::copied::Copied;
use crate::name::Name;
use crate::passes::Passes;
use crate::reverts::Reverts;
use crate::state_folder::StateFolder;
use vss_names::Failed;

/// Gives the file that was written aside for a name its name, once its bytes last, and sees that this lasts.
fn put<E: Drop, F: StateFolder<E>>(folder: &mut F, name: Name) -> Result<(), E>
    ensures found { AreWithinBut name (F.written folder.old name)
        (F.found folder.old) (F.found folder.new) }
    ensures lasts { OnOk result (AreAmong (F.written folder.old name) (F.found folder.new name)) }
{
    folder.sync_aside(name)?;
    folder.rename(name)?;
    folder.sync_names()
}

/// Makes a marker of these lines, and sees that it lasts.
pub fn mark<E: Drop, F: StateFolder<E>>(folder: &mut F, lines: &str) -> Result<(), E>
    ensures found { AreWithinBut NameOf.Marker (Is (Some lines.now))
        (F.found folder.old) (F.found folder.new) }
    ensures lasts { OnOk result (AreOnly (Some lines.now) (F.found folder.new NameOf.Marker)) }
{
    folder.write_marker(lines)?;
    put(folder, Name::Marker)
}

/// Takes the marker away, and sees that this lasts.
pub fn unmark<E: Drop, F: StateFolder<E>>(folder: &mut F) -> Result<(), E>
    ensures found { AreWithinBut NameOf.Marker (Is None) (F.found folder.old) (F.found folder.new) }
    ensures gone { OnOk result (AreOnly None (F.found folder.new NameOf.Marker)) }
{
    folder.remove_marker()?;
    folder.sync_names()
}

/// Makes what the passes have in memory what the next opening finds: all copies are synced, and then the state takes the place of the one before.
/// A state that may be found opens as before the call, or to what is in memory.
pub fn commit<E: Drop, F: StateFolder<E>, J: Drop, P: Passes<E, J>>(
    folder: &mut F,
    passes: &mut P,
    jobs: &J,
) -> Result<(), E>
    ensures states { IsReplaced F.StateFolder P.Passes
        jobs.now folder.old passes.old folder.new passes.new }
    ensures committed { OnOk result (HoldsAsNow F.StateFolder P.Passes
        jobs.now passes.old folder.new passes.new) }
    ensures covered { OnOk result (CoversAsNow F.StateFolder P.Passes
        jobs.now passes.old folder.new passes.new) }
    ensures marker { AreAmong (F.found folder.old NameOf.Marker)
        (F.found folder.new NameOf.Marker) }
    ensures stands { StillStands P.Passes jobs.now passes.old passes.new }
    ensures brought { StaysBrought P.Passes passes.old passes.new }
    ensures before { WritesNone P.Passes passes.old passes.new }
{
    passes.sync(jobs)?;
    let head = passes.head(jobs)?;
    folder.write_state(head.bytes(), passes.slots())?;
    put(folder, Name::State)
}

/// Copies old bytes until all are copied or images have to go, and commits that. Whether all are copied is answered.
fn copy_once<E: Drop, F: StateFolder<E>, J: Drop, P: Passes<E, J>>(
    folder: &mut F,
    passes: &mut P,
    jobs: &mut J,
) -> Result<bool, E>
    ensures states { KeepsImages F.StateFolder P.Passes
        jobs.old folder.old passes.old folder.new passes.new }
    ensures settled { OnOk result (StaysSettled F.StateFolder P.Passes
        jobs.old folder.old passes.old jobs.new folder.new passes.new) }
    ensures covered { IfOk result (λ is_done. is_done ≡ true → IsCovered F.StateFolder P.Passes
        jobs.old folder.old passes.old jobs.new folder.new passes.new) }
    ensures copied { IfOk result (λ is_done. is_done ≡ true → P.is_copied jobs.new) }
    ensures on { IsGoneOn P.Passes jobs.old passes.old jobs.new passes.new }
    ensures before { WritesNone P.Passes passes.old passes.new }
    ensures marker { AreAmong (F.found folder.old NameOf.Marker)
        (F.found folder.new NameOf.Marker) }
{
    let copied = passes.copy(jobs)?;
    commit(folder, passes, jobs)?;
    match copied {
        Copied::All => Ok(true),
        Copied::UntilEvicted => {
            passes.say_gone(jobs)?;
            Ok(false)
        }
    }
}

/// Copies all old bytes, and commits that. Where images have to go, the state without them is committed before a slot of theirs is used.
fn copy_all<E: From<Failed> + Drop, F: StateFolder<E>, J: Drop, P: Passes<E, J>>(
    folder: &mut F,
    passes: &mut P,
    jobs: &mut J,
) -> Result<(), E>
    ensures states { KeepsImages F.StateFolder P.Passes
        jobs.old folder.old passes.old folder.new passes.new }
    ensures covered { OnOk result (IsCovered F.StateFolder P.Passes
        jobs.old folder.old passes.old jobs.new folder.new passes.new) }
    ensures copied { OnOk result (P.is_copied jobs.new) }
    ensures on { IsGoneOn P.Passes jobs.old passes.old jobs.new passes.new }
    ensures before { WritesNone P.Passes passes.old passes.new }
    ensures marker { AreAmong (F.found folder.old NameOf.Marker)
        (F.found folder.new NameOf.Marker) }
{
    'rounds: for _round in 0..u32::MAX {
        if copy_once(folder, passes, jobs)? {
            return Ok(());
        }
    }
    Err(E::from(Failed))
}

/// Brings volumes to other contents under a marker of these lines: their old bytes are copied, that is committed, and then they are overwritten.
/// The marker stays, unless nothing was overwritten. `was_torn` says that volumes were in transit before: then it stays in any case.
///
/// Each call of the folder and of the passes may fail, also from some call on each of them, without an effect. So what the clauses say of the end
/// of a call that failed is what a loss of power at that moment leaves.
pub fn overwrite_in_order<E: From<Failed> + Drop, F: StateFolder<E>, J: Drop, P: Passes<E, J>>(
    folder: &mut F,
    passes: &mut P,
    jobs: &mut J,
    lines: &str,
    was_torn: bool,
) -> Result<(), E>
    ensures images { KeepsImages F.StateFolder P.Passes
        jobs.old folder.old passes.old folder.new passes.new }
    ensures transit { IsNamed F.StateFolder P.Passes
        lines.now was_torn folder.old passes.old folder.new passes.new }
    ensures brought { OnOk result (AreBrought P.Passes jobs.old passes.old passes.new) }
    ensures marked { OnOk result (AreOnly (Some lines.now) (F.found folder.new NameOf.Marker)) }
    ensures known { IfErr result (IsKnownIfGone F.StateFolder folder.old folder.new) }
    ensures torn { SaysTorn P.Passes jobs.new passes.old passes.new }
{
    mark(folder, lines)?;
    if let Err(fault) = copy_all(folder, passes, jobs) {
        if !was_torn && folder.may_unmark(&fault) {
            folder.unmark_in_silence();
        }
        return Err(fault);
    }
    passes.overwrite(jobs)
}

/// As `overwrite_in_order`, under a marker that is there and stays: a call may bring volumes to other contents several times under one.
pub fn overwrite_marked<E: From<Failed> + Drop, F: StateFolder<E>, J: Drop, P: Passes<E, J>>(
    folder: &mut F,
    passes: &mut P,
    jobs: &mut J,
) -> Result<(), E>
    ensures images { KeepsImages F.StateFolder P.Passes
        jobs.old folder.old passes.old folder.new passes.new }
    ensures marker { AreAmong (F.found folder.old NameOf.Marker)
        (F.found folder.new NameOf.Marker) }
    ensures brought { OnOk result (AreBrought P.Passes jobs.old passes.old passes.new) }
    ensures torn { SaysTorn P.Passes jobs.new passes.old passes.new }
{
    copy_all(folder, passes, jobs)?;
    passes.overwrite(jobs)
}

/// Commits under a marker what leaves the volumes with what they had, as a cut or a deletion.
pub fn commit_in_order<E: Drop, F: StateFolder<E>, J: Drop, P: Passes<E, J>>(
    folder: &mut F,
    passes: &mut P,
    jobs: &J,
    lines: &str,
    was_torn: bool,
) -> Result<(), E>
    ensures states { IsReplaced F.StateFolder P.Passes
        jobs.now folder.old passes.old folder.new passes.new }
    ensures lasts { OnOk result (OpensAsNow F.StateFolder P.Passes
        jobs.now passes.old folder.new passes.new) }
    ensures covered { OnOk result (CoversAsNow F.StateFolder P.Passes
        jobs.now passes.old folder.new passes.new) }
    ensures transit { IsNamed F.StateFolder P.Passes
        lines.now was_torn folder.old passes.old folder.new passes.new }
    ensures marked { OnOk result (AreOnly (Some lines.now) (F.found folder.new NameOf.Marker)) }
    ensures known { IfErr result (IsKnownIfGone F.StateFolder folder.old folder.new) }
    ensures stands { StillStands P.Passes jobs.now passes.old passes.new }
    ensures before { WritesNone P.Passes passes.old passes.new }
{
    mark(folder, lines)?;
    let done = commit(folder, passes, jobs);
    if let Err(fault) = &done {
        if !was_torn && folder.may_unmark(fault) {
            folder.unmark_in_silence();
        }
    }
    done
}

/// Brings a volume back to an image under a marker of these lines. In memory the newer images are gone: that is committed, and then the volume is
/// overwritten. Once it lasts, the slots are committed as free that it does not need any more. The marker stays, unless nothing was overwritten.
pub fn revert_in_order<E: Drop, F: StateFolder<E>, J: Drop, P: Reverts<E, J>>(
    folder: &mut F,
    passes: &mut P,
    jobs: &J,
    lines: &str,
    was_torn: bool,
) -> Result<(), E>
    ensures states { P.is_copied jobs.now
        → IsReplaced F.StateFolder P.Passes jobs.now folder.old passes.old folder.new passes.new }
    ensures lasts { OnOk result (P.is_copied jobs.now
        → OpensAsNow F.StateFolder P.Passes jobs.now passes.old folder.new passes.new) }
    ensures transit { IsNamed F.StateFolder P.Passes
        lines.now was_torn folder.old passes.old folder.new passes.new }
    ensures marked { OnOk result (AreOnly (Some lines.now) (F.found folder.new NameOf.Marker)) }
    ensures brought { OnOk result (AreBrought P.Passes jobs.now passes.old passes.new) }
{
    commit_in_order(folder, passes, jobs, lines, was_torn)?;
    passes.restore(jobs)?;
    passes.settle(jobs)?;
    commit(folder, passes, jobs)
}

/// Ends a call: its volumes last, and then the marker goes.
pub fn end_in_order<E: Drop, F: StateFolder<E>, J: Drop, P: Passes<E, J>>(
    folder: &mut F,
    passes: &mut P,
    jobs: &J,
) -> Result<(), E>
    ensures images { (first : P) → AreAll (P.opens first passes.old)
        (F.found folder.old NameOf.State)
        → AreAll (P.opens first passes.new) (F.found folder.new NameOf.State) }
    ensures transit { (file : Option (List ℕ)) → F.found folder.new NameOf.Marker file
        → F.found folder.old NameOf.Marker file ⊎ IsGone P.Passes jobs.now passes.new file }
    ensures brought { StaysBrought P.Passes passes.old passes.new }
    ensures gone { OnOk result (AreAmong (IsGone P.Passes
        jobs.now passes.new) (F.found folder.new NameOf.Marker)) }
{
    passes.finish(jobs)?;
    unmark(folder)
}
