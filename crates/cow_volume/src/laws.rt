//! What holds of every group that is taken up again.

ghost use Rattle.std.specs.Prelude.{◌≡◌, List, IfOk, IfErr, Ok, is_some, true};
ghost use Rattle.write_history.specs.History.{History};
ghost use Rattle.write_history.specs.Slots.{Copy};
ghost use Rattle.diff_area.specs.AreaValue.{AreaValue};
ghost use Rattle.diff_area.specs.Copies.{AreStored, AreHeld};
ghost use Rattle.cow_volume.specs.Ending.{IsSync, AllTell};
ghost use Rattle.cow_volume.specs.StandsFor.{GroupValue, StandsFor};
ghost use Rattle.cow_volume.specs.Resuming.{AreKept};

use crate::cow_group::CowGroup;
use crate::resume_fault::ResumeFault;
use std::alloc::Global;
use volume_device::Device;
use vss_names::Numbers;

/// A group that is taken apart, and taken up again with the lists of its images, is the group that it was. No image is lacking.
pub fn what_is_taken_apart_is_taken_up<D: Device>(
    alloc: Global,
    group: CowGroup<D>,
    images: &[Numbers],
) -> Result<CowGroup<D>, ResumeFault>
    requires { images.now ≡ group.images }
    ensures same { IfOk result (λ again. again ≡ group) }
    ensures memory { IfErr result (λ fault. fault ≡ ResumeFault.OutOfMemory) }
{
    let _facts = group.volumes();
    let (devices, area) = group.into_parts();
    CowGroup::resume(alloc, devices, area, images)
}

/// What a group leaves once a sync answered Ok stands for what the group stood for: its devices, the area that is loaded from its
/// area's device, and the lists of its images. So `resume` gives a group that stands for that.
pub fn what_is_synced_is_kept<D: Device>()
    ensures { (old new : GroupValue D) (area : AreaValue D) (hs : List History) → IsSync D.Device old new (Ok tt) → StandsFor D.told old hs → AllTell D.told old.devices → is_some (D.told old.area.device) ≡ true
        → area.volumes ≡ new.area.volumes → D.told area.device ≡ D.told new.area.device → ((copies : List Copy) → AreStored (D.told new.area.device) copies → AreHeld (D.told area.device) area.records copies)
        → AreKept D.told new.devices area new.images hs }
{}
