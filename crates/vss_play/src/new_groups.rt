ghost use Rattle.std.specs.Prelude.{◌≡◌, ◌≤◌, ◌⊎◌, length, OnOk, IfOk, IsErrOf};
ghost use Rattle.vss_names.specs.Faults.{Rose};
ghost use Rattle.vss_play.specs.Played.{AreNamed, IsDropped, IsUndone, device_names};
ghost use Rattle.provider.specs.Groups.{devices_of};
ghost use Rattle.vss_world.specs.Quiet.{AreNew};

use crate::devices::make_devices;
use crate::groups::open_groups;
use crate::play_fault::PlayFault;
use cow_volume::CowGroup;
use scenario::Scenario;
use std::alloc::Global;
use volume_device::{Device, Maker, Store};

/// The groups of a scenario over devices that the maker makes, as for a run: those of the volumes, and then those of the
/// areas. If one is refused, the maker gets back the others. If memory is refused once all are made, they are dropped.
pub fn open_new<D: Device, M: Maker<Made = D>>(
    alloc: Global,
    scenario: &Scenario,
    store: &Store,
    maker: &mut M,
) -> Result<Vec<CowGroup<D>>, PlayFault>
    ensures new { IfOk result (λ groups. AreNew D.told scenario.now groups.items) }
    ensures tells { M.tells maker.new ≡ M.tells maker.old }
    ensures named { OnOk result (AreNamed (device_names scenario.now)
        (M.named maker.old) (M.named maker.new)) }
    ensures kept { OnOk result (M.kept maker.new ≡ M.kept maker.old) }
    ensures undone { IsErrOf result PlayFault.Failed → IsUndone D.count scenario.now
        (M.named maker.old) (M.named maker.new) (M.kept maker.old) (M.kept maker.new) }
    ensures wanting { IsErrOf result PlayFault.OutOfMemory → IsUndone D.count scenario.now
        (M.named maker.old) (M.named maker.new) (M.kept maker.old) (M.kept maker.new)
        ⊎ IsDropped scenario.now
        (M.named maker.old) (M.named maker.new) (M.kept maker.old) (M.kept maker.new) }
    ensures places { IfOk result (λ groups. length (devices_of groups.items) ≤ M.places maker.new) }
    ensures later { M.count maker.old ≤ M.count maker.new }
    ensures unfailed { OnOk result (M.count maker.new ≡ M.count maker.old) }
    ensures unmade { IsErrOf result PlayFault.OutOfMemory → M.count maker.new ≡ M.count maker.old }
    ensures rose { IsErrOf result PlayFault.Failed → Rose (M.count maker.old) (M.count maker.new) }
{
    let _facts = scenario.lanes();
    let devices = make_devices(alloc, scenario, store, maker)?;
    match open_groups(alloc, scenario, devices) {
        Ok(groups) => Ok(groups),
        Err(_) => Err(PlayFault::OutOfMemory),
    }
}
