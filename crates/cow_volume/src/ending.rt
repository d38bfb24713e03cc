//! What was written is brought to where it lasts.

ghost use Rattle.std.specs.Prelude.{ℕ, ◌≡◌, ◌≢◌, ◌<◌, List, Some, length, slice_get, IfErr, OnOk};
ghost use Rattle.cow_volume.specs.Parts.{CopiesValue, group_of};
ghost use Rattle.cow_volume.specs.Calls.{IsQuiet, IsUnfailed, VolumeRose};
ghost use Rattle.cow_volume.specs.Ending.{IsSync, IsTable};
ghost use Rattle.cow_volume.specs.declared.cause.Cause.TheVariants.{Volume};

use crate::calling::flush_device;
use crate::cause::Cause;
use crate::copies::Copies;
use volume_device::Device;

/// Writes the records of the copies to the area's device, and brings all that was written to it to where it lasts.
pub(crate) fn sync_all<D: Device>(copies: &mut Copies<D>) -> Result<(), Cause>
    ensures lasts { OnOk result (D.lasting copies.new.area.device ≡ D.told copies.new.area.device) }
    ensures table { (devices : List D) → IsTable D.told (group_of devices copies.old) (group_of devices copies.new) result }
    ensures sync { (devices : List D) → IsSync D.Device (group_of devices copies.old) (group_of devices copies.new) result }
{
    let _facts = copies.slots();
    let _facts = copies.volumes();
    match copies.sync() {
        Err(_) => Err(Cause::Area),
        Ok(()) => match copies.flush() {
            Err(_) => Err(Cause::Area),
            Ok(()) => Ok(()),
        },
    }
}

/// Brings all accepted writes of a volume's device to where they last.
pub(crate) fn flush_one<D: Device>(devices: &mut Vec<D>, v: u32) -> Result<(), Cause>
    requires { v < length devices.old.items }
    ensures quiet { (copies : CopiesValue D) → IsQuiet D.Device (group_of devices.old.items copies) (group_of devices.new.items copies) }
    ensures same { OnOk result ((copies : CopiesValue D) → IsUnfailed D.count (group_of devices.old.items copies) (group_of devices.new.items copies)) }
    ensures lasts { OnOk result ((d : D) → slice_get devices.new.items v ≡ Some d → D.lasting d ≡ D.told d) }
    ensures others { (u : ℕ) → u ≢ v → slice_get devices.new.items u ≡ slice_get devices.old.items u }
    ensures cause { IfErr result (λ cause. cause ≡ Volume) }
    ensures rose { IfErr result (λ cause. (copies : CopiesValue D) → VolumeRose D.count v (group_of devices.old.items copies) (group_of devices.new.items copies)) }
{
    match flush_device(devices, v) {
        Ok(()) => Ok(()),
        Err(_) => Err(Cause::Volume),
    }
}
