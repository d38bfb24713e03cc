//! What volumes are made of: devices of zeros in memory, and areas of free slots.

ghost use Rattle.std.specs.Prelude.{◌≡◌, ◌<◌, ◌≤◌, All, IfOk, IsTrue, length, map, replicate};
ghost use Rattle.block_data.specs.BlockBytes.{zeros};
ghost use Rattle.write_history.specs.History.{fresh};
ghost use Rattle.diff_area.specs.Format.{AreVolumes, free};
ghost use Rattle.volume_device.specs.InMemory.{blocks_of};
ghost use Rattle.cow_volume.specs.OneVolume.{StandsForOne, blocks_of as volume_blocks};
ghost use Rattle.trials.specs.Devices.{IsZeroed, size_of};

use crate::plan::Plan;
use crate::stopped::Stopped;
use cow_volume::{CowGroup, CowVolume};
use diff_area::{Area, pages_for};
use std::alloc::Global;
use volume_device::{Device, MemDevice};
use vss_names::{MOST_BLOCKS, MOST_IMAGES, MOST_SLOTS, MOST_VOLUMES};

/// A device of so many zero blocks, with the calls failing that are planned for its name.
pub fn device(alloc: Global, plan: &mut Plan, name: &str, blocks: u32) -> Result<MemDevice, Stopped>
    ensures size { IfOk result (λ d. size_of d ≡ blocks) }
    ensures zeros { IfOk result (λ d. blocks_of d ≡ replicate blocks zeros) }
{
    let row = plan.row(name)?;
    Ok(MemDevice::new(alloc, blocks)?.failing(row.reads, row.writes, row.flushes))
}

/// The devices of volumes with these numbers of blocks: `volume0` and so on.
fn devices(alloc: Global, plan: &mut Plan, blocks: &[u32]) -> Result<Vec<MemDevice>, Stopped>
    ensures { IfOk result (λ ds. All IsZeroed ds.items) }
{
    let mut devices = Vec::new(alloc);
    for place in 0..blocks.len() {
        let name = format!(in alloc; "volume{place}")?;
        let made = device(alloc, plan, name.as_str(), blocks[place])?;
        devices.push(made)?;
    }
    Ok(devices)
}

/// The devices of 1 to 8 mirrors of a primary: `mirror0` and so on.
pub fn mirrors(
    alloc: Global,
    plan: &mut Plan,
    primary: &MemDevice,
    count: u32,
) -> Result<Vec<MemDevice>, Stopped>
    ensures some { IfOk result (λ ds. 0 < length ds.items) }
    ensures few { IfOk result (λ ds. length ds.items ≤ 8) }
    ensures fits { IfOk result (λ ds. All (λ d. size_of d ≡ size_of primary.now) ds.items) }
    ensures zeros { IfOk result (λ ds. All IsZeroed ds.items) }
{
    if count == 0 || count > 8 {
        return Err(Stopped);
    }
    let mut mirrors = Vec::new(alloc);
    for place in 0..count {
        let name = format!(in alloc; "mirror{place}")?;
        let made = device(alloc, plan, name.as_str(), primary.blocks())?;
        mirrors.push(made)?;
    }
    Ok(mirrors)
}

/// Whether these are the numbers of blocks of 1 to 128 volumes.
fn are_blocks(blocks: &[u32]) -> bool
    ensures { IsTrue result → AreVolumes blocks.now }
{
    if blocks.is_empty() || blocks.len() > MOST_VOLUMES as usize {
        return false;
    }
    blocks.iter().all(|n| 1 <= *n && *n <= MOST_BLOCKS)
}

/// An area of so many free slots for volumes with these numbers of blocks.
pub fn area(
    alloc: Global,
    plan: &mut Plan,
    name: &str,
    slots: u32,
    blocks: &[u32],
) -> Result<Area<MemDevice>, Stopped>
    ensures volumes { IfOk result (λ area. area.volumes ≡ blocks.now) }
    ensures free { IfOk result (λ area. area.records ≡ replicate (length area.records) free) }
{
    if slots > MOST_SLOTS || !are_blocks(blocks) {
        return Err(Stopped);
    }
    let under = device(alloc, plan, name, 1 + pages_for(slots) + slots)?;
    match Area::open_new(alloc, under, slots, blocks) {
        Ok(area) => Ok(area),
        Err(_) => Err(Stopped),
    }
}

/// A volume by itself of so many blocks, over the device `volume` and so many slots of the device `area`.
pub fn volume(
    alloc: Global,
    plan: &mut Plan,
    blocks: u32,
    slots: u32,
) -> Result<CowVolume<MemDevice>, Stopped>
    ensures stands { IfOk result (λ volume. StandsForOne ⟦<MemDevice as Device>⟧.told volume fresh) }
    ensures blocks { IfOk result (λ volume. volume_blocks volume ≡ blocks) }
{
    let device = device(alloc, plan, "volume", blocks)?;
    let area = area(alloc, plan, "area", slots, &[blocks])?;
    Ok(CowVolume::new(alloc, device, area)?)
}

/// Whether devices have the blocks of the volumes of an area.
pub fn fit(devices: &[MemDevice], area: &Area<MemDevice>) -> bool
    ensures { IsTrue result → map size_of devices.now ≡ area.now.volumes }
{
    if devices.len() != area.volumes() as usize {
        return false;
    }
    for v in 0..area.volumes() {
        if devices[v as usize].blocks() != area.blocks(v) {
            return false;
        }
    }
    true
}

/// A group of volumes with these numbers of blocks, over the devices `volume0` and so on and so many slots of the device `area`.
pub fn group(
    alloc: Global,
    plan: &mut Plan,
    slots: u32,
    blocks: &[u32],
) -> Result<CowGroup<MemDevice>, Stopped> {
    let devices = devices(alloc, plan, blocks)?;
    let area = area(alloc, plan, "area", slots, blocks)?;
    if !fit(&devices, &area) {
        return Err(Stopped);
    }
    Ok(CowGroup::new(alloc, devices, area)?)
}

/// Whether an image of this set may be cut of a volume with images of these sets.
pub fn may_cut(images: &[u32], set: u32) -> bool
    ensures room { IsTrue result → length images.now < 512 }
    ensures above_zero { IsTrue result → 0 < set }
    ensures newest { IsTrue result → All (λ s. s < set) images.now }
{
    if images.len() >= MOST_IMAGES || set == 0 {
        return false;
    }
    images.iter().all(|image| *image < set)
}
