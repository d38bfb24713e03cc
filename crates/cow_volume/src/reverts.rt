//! A volume is brought back to an image.

ghost use Rattle.std.specs.Prelude.{ℕ, ◌≡◌, ◌<◌, ◌≤◌, true, false, List, Some, length, map, slice_get, All, Contains, IfSome, IsNone, is_some};
ghost use Rattle.write_history.specs.History.{History, dropped};
ghost use Rattle.cow_volume.specs.StandsFor.{StandsFor};
ghost use Rattle.cow_volume.specs.Calls.{IsRevert, StopsAfter, NeverFails, counted_as, blocks_at, is_among, changed_at};
ghost use Rattle.cow_volume.specs.CopiesAfter.{images_on, after_merge};
ghost use Rattle.cow_volume.specs.Parts.{group_of, blocks_on, CopiesValue};
ghost use Rattle.cow_volume.specs.Changes.{IsFirstCopy, HasNoCopy};
ghost use Rattle.cow_volume.specs.Restoring.{IsMergedTo, IsOneRestored, IsRestoring, KeepsCopies, merged_as};

use crate::calling::write_device;
use crate::cause::Cause;
use crate::copies::Copies;
use crate::reads::has_image;
use crate::revert_fault::RevertFault;
use block_data::BlockBuf;
use volume_device::Device;

/// The newest image of a volume, where it is newer than that of a set.
fn newer_than<D: Device>(copies: &Copies<D>, v: u32, set: u32) -> Option<u32>
    requires { v < length copies.now.area.volumes }
    ensures newer { IfSome result (λ newest. set < newest) }
    ensures image { IfSome result (Contains (images_on copies.now v)) }
    ensures none { IsNone result → All (λ s. s ≤ set) (images_on copies.now v) }
{
    match copies.images(v).last() {
        Some(&newest) if newest > set => Some(newest),
        _ => None,
    }
}

/// The image of a set goes from a volume, and its copies are handed down.
pub(crate) fn merge_image<D: Device>(copies: &mut Copies<D>, v: u32, set: u32)
    requires volume { v < length copies.old.area.volumes }
    requires image { Contains (images_on copies.old v) set }
    ensures merged { copies.new ≡ after_merge copies.old v set }
    ensures stands { (devices : List D) (hs : List History) → StandsFor D.told (group_of devices copies.old) hs → StandsFor D.told (group_of devices copies.new) (changed_at v (dropped set) hs) }
{
    let _facts = copies.slots();
    copies.merge(v, set);
}

/// The images of a volume that are newer than that of a set go, the newest first, and their copies are handed down.
fn drop_newer<D: Device>(copies: &mut Copies<D>, v: u32, set: u32)
    requires volume { v < length copies.old.area.volumes }
    requires above_zero { 0 < set }
    requires image { is_among set (images_on copies.old v) ≡ true }
    ensures { IsMergedTo D.told copies.old copies.new v set }
{
    let _facts = copies.volumes();
    let _facts = copies.slots();
    while let Some(newest) = newer_than(copies, v, set) {
        merge_image(copies, v, newest);
    }
}

/// Restores a block from the copy that the image of a set shows, and says whether there is one. `buffer` takes the bytes if the area's
/// device does not lend them.
fn restore_block<D: Device>(
    devices: &mut Vec<D>,
    copies: &mut Copies<D>,
    buffer: &mut BlockBuf,
    v: u32,
    set: u32,
    block: u32,
) -> Result<bool, Cause>
    requires volume { v < length copies.old.area.volumes }
    requires devices { map D.size devices.old.items ≡ copies.old.area.volumes }
    requires above_zero { 0 < set }
    requires in_range { block < blocks_on copies.old v }
    ensures { IsOneRestored D.Device (group_of devices.old.items copies.old) (group_of devices.new.items copies.new) v set block result }
{
    let Some(slot) = copies.find(v, set, block) else {
        return Ok(false);
    };
    if let Some(bytes) = copies.lend_slot(slot) {
        return match write_device(devices, v, block, bytes) {
            Ok(()) => Ok(true),
            Err(_) => Err(Cause::Volume),
        };
    }
    if copies.read_slot(slot, buffer.bytes_mut()).is_err() {
        return Err(Cause::Area);
    }
    if write_device(devices, v, block, buffer.bytes()).is_err() {
        return Err(Cause::Volume);
    }
    Ok(true)
}

/// The slot of a block that is to be restored next, where so many are and that is after how many to stop.
fn slot_at_stop<D: Device>(
    copies: &Copies<D>,
    v: u32,
    set: u32,
    block: u32,
    restored: u32,
    stop: Option<u32>,
) -> Option<u32>
    requires volume { v < length copies.now.area.volumes }
    requires above_zero { 0 < set }
    ensures stops { IfSome result (λ slot. (stop ≡ Some restored) × IsFirstCopy copies.now.area.records v set block slot) }
    ensures goes_on { IsNone result → stop ≡ Some restored → HasNoCopy copies.now.area.records v set block }
{
    let most = stop?;
    if most != restored {
        return None;
    }
    copies.find(v, set, block)
}

/// Restores the blocks of which the image of a set shows a copy, in ascending order. It stops after so many where there are more,
/// as if a device failed. The newer images still stand; what is left is told as if they had been merged down before.
fn restore_blocks<D: Device>(
    devices: &mut Vec<D>,
    copies: &mut Copies<D>,
    buffer: &mut BlockBuf,
    v: u32,
    set: u32,
    stop: Option<u32>,
) -> Result<(), RevertFault>
    requires volume { v < length copies.old.area.volumes }
    requires devices { map D.size devices.old.items ≡ copies.old.area.volumes }
    requires above_zero { 0 < set }
    ensures restored { (mid : CopiesValue D) → IsMergedTo D.told copies.old mid v set → IsRestoring (counted_as D.Device (is_some stop)) (group_of devices.old.items (merged_as mid copies.old)) (group_of devices.new.items (merged_as mid copies.new)) v set result }
    ensures keeps { KeepsCopies (counted_as D.Device (is_some stop)) (group_of devices.old.items copies.old) (group_of devices.new.items copies.new) }
    ensures stops { NeverFails D.count → (k : ℕ) → stop ≡ Some k → (mid : CopiesValue D) → IsMergedTo D.told copies.old mid v set → StopsAfter D.told (group_of devices.old.items (merged_as mid copies.old)) v set k result }
{
    let mut restored = 0;
    for block in 0..copies.blocks(v) {
        if let Some(_slot) = slot_at_stop(copies, v, set, block, restored, stop) {
            let cause = Cause::Volume;
            return Err(RevertFault::Fault { restored, cause });
        }
        let has_copy = match restore_block(devices, copies, buffer, v, set, block) {
            Ok(has_copy) => has_copy,
            Err(cause) => return Err(RevertFault::Fault { restored, cause }),
        };
        restored += u32::from(has_copy);
    }
    Ok(())
}

/// Brings a volume back to the image of a set, which stays. The newer images go at once when all blocks are restored; where a
/// device fails, or it stops after so many blocks, they are merged down. `buffer` takes the bytes of each block that is restored.
pub(crate) fn revert<D: Device>(
    devices: &mut Vec<D>,
    copies: &mut Copies<D>,
    buffer: &mut BlockBuf,
    v: u32,
    set: u32,
    stop: Option<u32>,
) -> Result<(), RevertFault>
    requires volume { v < length copies.old.area.volumes }
    requires devices { map D.size devices.old.items ≡ copies.old.area.volumes }
    ensures revert { IsRevert (counted_as D.Device (is_some stop)) (group_of devices.old.items copies.old) (group_of devices.new.items copies.new) v set result }
    ensures stops { NeverFails D.count → (k : ℕ) → stop ≡ Some k → StopsAfter D.told (group_of devices.old.items copies.old) v set k result }
{
    if !has_image(copies, v, set) {
        return Err(RevertFault::NoSuchImage);
    }
    let _facts = copies.volumes();
    let _facts = copies.slots();
    match restore_blocks(devices, copies, buffer, v, set, stop) {
        Ok(()) => {
            copies.clear_from(v, set);
            Ok(())
        }
        Err(fault) => {
            drop_newer(copies, v, set);
            Err(fault)
        }
    }
}
