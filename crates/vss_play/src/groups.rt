//! The groups of volumes of a run, opened over devices that were just made.

ghost use Rattle.std.specs.Prelude.{ℕ, List, ◌≡◌, ◌<◌, ◌≤◌, ◌+◌, ◌++◌, ◌∷◌, [], Some, All, length, map, slice_get, replicate, IfOk};
ghost use Rattle.diff_area.specs.Format.{blocks_for, AreVolumes};
ghost use Rattle.scenario.specs.Plan.{GroupPlan};
ghost use Rattle.scenario.specs.Places.{blocks_in_group};
ghost use Rattle.vss_play.specs.Played.{device_sizes};
ghost use Rattle.vss_play.specs.Made.{IsZero, IsOpened, AreOpened, AreSorted, in_group, groups_of_devices};

use cow_volume::CowGroup;
use diff_area::Area;
use scenario::Scenario;
use std::alloc::Global;
use volume_device::Device;
use vss_names::{MOST_SLOTS, OutOfMemory};

/// The group of the device that is made in its turn, counted from 0: of the volumes, and then of the areas.
fn group_of(scenario: &Scenario, place: u32) -> u32
    requires { place < length scenario.now.volumes + length scenario.now.groups }
    ensures groups { slice_get (groups_of_devices scenario.now) place ≡ Some result }
    ensures in_range { result < length scenario.now.groups }
{
    let volumes = scenario.volumes();
    if place < volumes {
        return scenario.volume(place).group;
    }
    place - volumes
}

/// So many lists without a device.
fn empty_lists<D: Device>(alloc: Global, count: u32) -> Result<Vec<Vec<D>>, OutOfMemory>
    ensures { IfOk result (λ lists. map (λ v. v.items) lists.items ≡ replicate count []) }
{
    let mut lists = Vec::new(alloc);
    for _list in 0..count {
        lists.push(Vec::new(alloc))?;
    }
    Ok(lists)
}

/// The devices of each group, in order: its volumes', and its area's last.
fn sort_devices<D: Device>(
    alloc: Global,
    scenario: &Scenario,
    devices: Vec<D>,
) -> Result<Vec<Vec<D>>, OutOfMemory>
    requires { length devices.items ≡ length scenario.now.volumes + length scenario.now.groups }
    ensures many { IfOk result (λ sorted. length sorted.items ≡ length scenario.now.groups) }
    ensures each { IfOk result (λ sorted. AreSorted scenario.now (map (λ v. v.items) sorted.items) devices.items) }
{
    let _facts = scenario.volumes();
    let mut sorted = empty_lists(alloc, scenario.groups())?;
    let mut place = 0;
    for device in devices {
        let group = group_of(scenario, place);
        sorted[group as usize].push(device)?;
        place += 1;
    }
    Ok(sorted)
}

/// The numbers of blocks of the volumes of a group.
fn blocks_of_group(alloc: Global, scenario: &Scenario, group: u32) -> Result<Vec<u32>, OutOfMemory>
    ensures { IfOk result (λ blocks. blocks.items ≡ blocks_in_group group scenario.now.volumes) }
{
    let mut blocks = Vec::new(alloc);
    for volume in 0..scenario.volumes() {
        let row = scenario.volume(volume);
        if row.group == group {
            blocks.push(row.blocks)?;
        }
    }
    Ok(blocks)
}

/// Opens a group over devices of zeros, the last of which is its area's.
fn open_over<D: Device>(
    alloc: Global,
    slots: u32,
    blocks: &[u32],
    devices: Vec<D>,
) -> Result<CowGroup<D>, OutOfMemory>
    requires few { slots ≤ MOST_SLOTS }
    requires volumes { AreVolumes blocks.now }
    requires sizes { map D.size devices.items ≡ blocks.now ++ blocks_for slots ∷ [] }
    requires zeros { All (IsZero D.Device) devices.items }
    ensures { IfOk result (IsOpened D.told blocks.now slots devices.items) }
{
    let mut volumes = devices;
    let Some(last) = volumes.pop() else {
        return Err(OutOfMemory);
    };
    match Area::open_new(alloc, last, slots, blocks) {
        Ok(area) => CowGroup::new(alloc, volumes, area),
        Err(_unopened) => Err(OutOfMemory),
    }
}

/// Opens a group of the scenario over its devices.
fn open_group<D: Device>(
    alloc: Global,
    scenario: &Scenario,
    group: u32,
    devices: Vec<D>,
) -> Result<CowGroup<D>, OutOfMemory>
    requires group { group < length scenario.now.groups }
    requires sizes { map D.size devices.items ≡ in_group group (groups_of_devices scenario.now) (device_sizes scenario.now) }
    requires zeros { All (IsZero D.Device) devices.items }
    ensures { IfOk result (λ opened. (p : GroupPlan) → slice_get scenario.now.groups group ≡ Some p → IsOpened D.told (blocks_in_group group scenario.now.volumes) p.slots devices.items opened) }
{
    let _facts = scenario.volumes();
    let blocks = blocks_of_group(alloc, scenario, group)?;
    open_over(alloc, scenario.group_slots(group), &blocks, devices)
}

/// Opens the groups of the scenario, each over the list of its devices.
fn open_sorted<D: Device>(
    alloc: Global,
    scenario: &Scenario,
    sorted: Vec<Vec<D>>,
) -> Result<Vec<CowGroup<D>>, OutOfMemory>
    requires many { length sorted.items ≡ length scenario.now.groups }
    requires sizes { (g : ℕ) (ds : List D) → slice_get (map (λ v. v.items) sorted.items) g ≡ Some ds → map D.size ds ≡ in_group g (groups_of_devices scenario.now) (device_sizes scenario.now) }
    requires zeros { (g : ℕ) (ds : List D) → slice_get (map (λ v. v.items) sorted.items) g ≡ Some ds → All (IsZero D.Device) ds }
    ensures { IfOk result (λ groups. (devices : List D) → AreSorted scenario.now (map (λ v. v.items) sorted.items) devices → AreOpened D.told scenario.now.volumes (groups_of_devices scenario.now) devices 0 scenario.now.groups groups.items) }
{
    let _facts = scenario.volumes();
    let mut groups = Vec::new(alloc);
    let mut group = 0;
    for list in sorted {
        let opened = open_group(alloc, scenario, group, list)?;
        groups.push(opened)?;
        group += 1;
    }
    Ok(groups)
}

/// Opens the groups of the scenario over the devices that were made for it. Where memory is refused they are dropped.
pub fn open_groups<D: Device>(
    alloc: Global,
    scenario: &Scenario,
    devices: Vec<D>,
) -> Result<Vec<CowGroup<D>>, OutOfMemory>
    requires sizes { map D.size devices.items ≡ device_sizes scenario.now }
    requires zeros { All (IsZero D.Device) devices.items }
    ensures { IfOk result (λ groups. AreOpened D.told scenario.now.volumes (groups_of_devices scenario.now) devices.items 0 scenario.now.groups groups.items) }
{
    let sorted = sort_devices(alloc, scenario, devices)?;
    open_sorted(alloc, scenario, sorted)
}
