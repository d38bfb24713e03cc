//! The devices of a store that is closed are flushed one after another.

ghost use Rattle.std.specs.Prelude.{◌≡◌, map, IfErr, OnErr, OnOk};
ghost use Rattle.image_store.specs.Closing.{OneRose};

use cow_volume::Cause;
use volume_device::Device;

/// Brings all accepted writes of each device to where they last.
pub fn flush_each<D: Device>(devices: &mut [D]) -> Result<(), Cause>
    ensures lasts { OnOk result (map D.lasting devices.new ≡ map D.told devices.old) }
    ensures told { map D.told devices.new ≡ map D.told devices.old }
    ensures same { OnOk result (map D.count devices.new ≡ map D.count devices.old) }
    ensures volume { IfErr result (λ cause. cause ≡ Cause.Volume) }
    ensures rose { OnErr result (OneRose (map D.count devices.old) (map D.count devices.new)) }
{
    for device in devices.iter_mut() {
        let Ok(()) = device.flush() else {
            return Err(Cause::Volume);
        };
    }
    Ok(())
}
