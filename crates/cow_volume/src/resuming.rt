//! The maps and the pool of a group, taken up from the records of its area.

ghost use Rattle.std.specs.Prelude.{◌≡◌, ◌<◌, [], false, true, length, map, slice_get, slice_set, All, IfOk, IfErr, OnOk};
ghost use Rattle.diff_area.specs.Format.{is_free};
ghost use Rattle.diff_map.specs.Groups.{map_at, with_images};
ghost use Rattle.diff_map.specs.Copies.{AreImages};
ghost use Rattle.cow_volume.specs.Calls.{is_among, sets_in};
ghost use Rattle.cow_volume.specs.Resuming.{HasImage, AllHaveImages, IsResumeFault, AreTakenUp, unused, used};

use crate::resume_fault::ResumeFault;
use diff_area::{Area, Record};
use diff_map::GroupMap;
use slot_pool::SlotPool;
use std::alloc::Global;
use volume_device::Device;
use vss_names::{Numbers, OutOfMemory};

/// The maps of the volumes with their images, and without copies.
pub(crate) fn maps_of<D: Device>(
    alloc: Global,
    area: &Area<D>,
    images: &[Numbers],
) -> Result<GroupMap, OutOfMemory>
    requires lists { length images.now ≡ length area.now.volumes }
    requires rise { All AreImages images.now }
    ensures { IfOk result (λ maps. AreTakenUp area.now.volumes area.now.records images.now 0 (length area.now.volumes) maps) }
{
    let mut maps = GroupMap::new(alloc, area.sizes(), area.slots())?;
    for v in 0..area.volumes() {
        let sets = images[v as usize].items();
        add_images(&mut maps, v, sets);
        let _facts = maps.images(v);
    }
    Ok(maps)
}

/// Adds the images of these sets, the oldest first, to a volume that has none.
fn add_images(maps: &mut GroupMap, v: u32, sets: &[u32])
    requires volume { v < length maps.old }
    requires none { (map_at maps.old v).images ≡ [] }
    requires rise { AreImages sets.now }
    ensures { maps.new ≡ slice_set maps.old v (with_images sets.now (map_at maps.old v)) }
{
    for set in sets {
        maps.add_image(v, *set);
    }
}

/// Whether a set is among these.
fn has_set(sets: &[u32], set: u32) -> bool
    ensures { result ≡ is_among set sets.now }
{
    sets.contains(&set)
}

/// Whether a record is not free and lacks its image.
fn lacks_image(images: &[Numbers], row: Record) -> bool
    requires { is_free row ≡ false → row.volume < length images.now }
    ensures lacks { result ≡ true → (is_free row ≡ false) × (is_among row.set (sets_in (slice_get images.now row.volume)) ≡ false) }
    ensures has { result ≡ false → HasImage images.now row }
{
    if row.is_free() {
        return false;
    }
    !has_set(images[row.volume as usize].items(), row.set)
}

/// Notes the slots of the records in the maps of their volumes, up to the first record that lacks its image.
pub(crate) fn note_copies<D: Device>(
    maps: &mut GroupMap,
    area: &Area<D>,
    images: &[Numbers],
) -> Result<(), ResumeFault>
    requires lists { length images.now ≡ length area.now.volumes }
    requires begun { AreTakenUp area.now.volumes area.now.records images.now 0 (length area.now.volumes) maps.old }
    ensures noted { OnOk result (AreTakenUp area.now.volumes area.now.records images.now (length area.now.records) (length area.now.volumes) maps.new) }
    ensures all { OnOk result (AllHaveImages area.now.records images.now) }
    ensures fault { IfErr result (IsResumeFault area.now.records images.now) }
{
    for slot in 0..area.slots() {
        let row = area.record_at(slot);
        if lacks_image(images, row) {
            let set = row.set;
            return Err(ResumeFault::NoImage { slot, set });
        }
        if !row.is_free() {
            maps.note_for(row.volume, row.set, row.block, slot);
            let _facts = maps.images(row.volume);
        }
    }
    Ok(())
}

/// Takes all slots of an area.
fn take_slots<D: Device>(pool: &mut SlotPool, area: &Area<D>)
    requires { pool.old ≡ map unused area.now.records }
    ensures { pool.new ≡ map used area.now.records }
{
    for _slot in 0..area.slots() {
        let _ = pool.take();
    }
}

/// Gives back the slots whose records are free.
fn give_free_slots<D: Device>(pool: &mut SlotPool, area: &Area<D>)
    requires { pool.old ≡ map used area.now.records }
    ensures { pool.new ≡ map is_free area.now.records }
{
    for slot in 0..area.slots() {
        if area.record_at(slot).is_free() {
            pool.give(slot);
        }
    }
}

/// A pool in which the slots of the free records of an area are free.
pub fn pool_of<D: Device>(alloc: Global, area: &Area<D>) -> Result<SlotPool, OutOfMemory>
    ensures { IfOk result (λ pool. pool ≡ map is_free area.now.records) }
{
    let mut pool = SlotPool::new(alloc, area.slots())?;
    take_slots(&mut pool, area);
    give_free_slots(&mut pool, area);
    Ok(pool)
}
