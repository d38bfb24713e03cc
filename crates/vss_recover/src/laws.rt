//! What holds of every list of calls that change something, and of a volume that is taken up again: functions that do nothing, or make
//! just the calls of which they speak, and whose contracts are the laws.

ghost use Rattle.std.specs.Prelude.{◌≡◌, ◌<◌, ◌≤◌, ◌++◌, ◌∷◌, ℕ, true, List, Some, None, length, IfErr, IfOk};
ghost use Rattle.write_history.specs.History.{sets_of};
ghost use Rattle.cow_volume.specs.Calls.{is_among};
ghost use Rattle.cow_volume.specs.declared.resume_fault.ResumeFault.TheVariants.{OutOfMemory};
ghost use Rattle.vss_recover.specs.Steps.{owner_of, Step, AreAllowed, after_all, made_since_cut, last_window, of_volume, IsMadeIn};
ghost use Rattle.vss_recover.specs.Recoveries.{Recovery, Recovering, IsOfImages, recovered};
ghost use Rattle.vss_recover.specs.RecoverValue.{StandsFor};
ghost use Rattle.vss_recover.specs.Syncing.{unopened};

use crate::recover_volume::RecoverVolume;
use cow_volume::ResumeFault;
use std::alloc::Global;
use volume_device::Device;

/// The recovery writes that an image shows are those that the calls since its cut made of it, in their order. Where no cut of it is
/// among the calls, those that it had come first.
pub fn images_show_what_was_made_since_the_cut()
    ensures { (n set : ℕ) (h : Recovering) (steps : List Step) → IsOfImages (sets_of h.volume.images) h → AreAllowed n h steps → is_among set (sets_of (after_all n h steps).volume.images) ≡ true
        → recovered set (after_all n h steps).recoveries ≡ made_since_cut set (recovered set h.recoveries) steps }
{}

/// Each recovery write was made in the window of its image, by the writer whose claim for that window has its block.
pub fn recoveries_are_made_in_the_window()
    ensures { (n : ℕ) (h : Recovering) (before later : List Step) (r : Recovery) → h.window ≡ None → AreAllowed n h (before ++ Step.Recovered r ∷ later) → IsMadeIn (last_window None before) r }
{}

/// The volume's history and its images, and so the slots that they use, are those without any window or recovery write.
pub fn recoveries_leave_the_volume()
    ensures { (n : ℕ) (h : Recovering) (steps : List Step) → (after_all n h steps).volume ≡ (after_all n h (of_volume steps)).volume }
{}

/// A volume that is taken apart, and taken up again with its final sets, stands for what it stood for, with no open window. Only for
/// want of memory is it not taken up.
pub fn what_is_taken_apart_is_taken_up<D: Device>(
    alloc: Global,
    volume: RecoverVolume<D>,
    finals: &[u32],
) -> Result<RecoverVolume<D>, ResumeFault>
    requires same { finals.now ≡ volume.final }
    requires few { length finals.now ≤ 512 }
    ensures stands { IfOk result (λ again. (h : Recovering) → StandsFor D.told volume h
        → StandsFor D.told again (unopened h)) }
    ensures memory { IfErr result (λ fault. (h : Recovering) → StandsFor D.told volume h
        → fault ≡ OutOfMemory) }
{
    let (beneath, overlay) = volume.into_parts();
    let _facts = overlay.slots();
    RecoverVolume::resume(alloc, beneath, overlay, finals)
}
