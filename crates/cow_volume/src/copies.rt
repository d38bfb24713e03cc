ghost use Rattle.std.specs.Prelude.{◌≡◌, ◌<◌, [], true, List, Some, length, replicate, IfOk, slice_get, slice_set, slice_index, map, option_map, is_some, All, Contains, IfSome, IfErr, IsNone, OnOk, OnErr, ◌↔◌};
ghost use Rattle.vss_names.specs.Faults.{HasCause};
ghost use Rattle.volume_device.specs.InMemory.{AreBlocks};
ghost use Rattle.write_history.specs.Slots.{Copy};
ghost use Rattle.slot_pool.specs.Slots.{IsLowestFree};
ghost use Rattle.diff_map.specs.Copies.{AreImages, newest};
ghost use Rattle.diff_area.specs.AreaValue.{AreInPart, KeepsTable, with_first, table_blocks};
ghost use Rattle.diff_area.specs.Copies.{AreStored, AreHeld};
ghost use Rattle.diff_area.specs.Format.{blocks_for, place_of_slot, AreVolumes, AreRecords, free, is_free, used_in};
ghost use Rattle.cow_volume.specs.Changes.{IsFirstCopy, HasNoCopy, count_on, count_of};
ghost use Rattle.cow_volume.specs.Room.{lacks_copy, lacks_slot, is_full, lesser, IsFirstToFree, IsOldestOn, IsRoomMade};
ghost use Rattle.cow_volume.specs.Resuming.{AllHaveImages, IsResumeFault};
ghost use Rattle.cow_volume.specs.Parts.{AreOfImages};
ghost use Rattle.cow_volume.specs.CopiesAfter.{images_on, after_cut, after_note, after_merge, after_clear, after_gone, after_gone_on};

use crate::renewing::{free_copies, merge_copies};
use crate::resume_fault::ResumeFault;
use crate::resuming::{maps_of, note_copies, pool_of};
use block_data::{BLOCK, BlockView};
use diff_area::{Area, AreaFault, Record};
use diff_map::{Going, GroupMap};
use slot_pool::SlotPool;
use std::alloc::Global;
use std::marker::Model;
use volume_device::Device;
use vss_names::{Numbers, OutOfMemory};

/// The copies of a group: the area that holds them, the maps of its volumes that find them, and the pool of free slots.
/// Contracts see the area and the images of each volume: what the maps and the pool hold follows from the records.
#[derive(Drop)]
pub(crate) struct Copies<D: Device> {
    area: Area<D>,
    maps: GroupMap,
    pool: SlotPool,
}

impl<D: Device> Model for Copies<D> {
    ghost use Rattle.cow_volume.specs.Parts.{CopiesValue, AreTied, images_of};

    ghost Value = { CopiesValue D };

    ghost view = { λ c. record { area = c.area; images = images_of c.maps } };

    ghost invariant = { λ c. AreTied c.area.volumes c.area.records c.maps c.pool };
}

impl<D: Device> Copies<D> {
    /// The copies in an area whose slots are free: none, and no image.
    pub(crate) fn new(alloc: Global, area: Area<D>) -> Result<Copies<D>, OutOfMemory>
        requires { area.records ≡ replicate (length area.records) free }
        ensures { IfOk result (λ copies. copies ≡ record { area = area; images = map (λ n. []) area.volumes }) }
    {
        let maps = GroupMap::new(alloc, area.sizes(), area.slots())?;
        let pool = SlotPool::new(alloc, area.slots())?;
        Ok(Copies { area, maps, pool })
    }

    /// The copies that stand in an area, with the images of these sets on each volume.
    pub(crate) fn resume(
        alloc: Global,
        area: Area<D>,
        images: &[Numbers],
    ) -> Result<Copies<D>, ResumeFault>
        requires lists { length images.now ≡ length area.volumes }
        requires rise { All AreImages images.now }
        ensures value { IfOk result (λ copies. copies ≡ record { area = area; images = images.now }) }
        ensures all { OnOk result (AllHaveImages area.records images.now) }
        ensures fault { IfErr result (IsResumeFault area.records images.now) }
    {
        let Ok(maps) = maps_of(alloc, &area, images) else {
            return Err(ResumeFault::OutOfMemory);
        };
        let Ok(pool) = pool_of(alloc, &area) else {
            return Err(ResumeFault::OutOfMemory);
        };
        let mut maps = maps;
        note_copies(&mut maps, &area, images)?;
        Ok(Copies { area, maps, pool })
    }

    /// The area, as it is.
    pub(crate) fn area(&self) -> &Area<D>
        ensures { result.now ≡ self.now.area }
    {
        &self.area
    }

    /// How many slots the area has.
    pub(crate) fn slots(&self) -> u32
        ensures slots { result ≡ length self.now.area.records }
        ensures valid { AreRecords self.now.area.volumes self.now.area.records }
        ensures fits { D.size self.now.area.device ≡ blocks_for (length self.now.area.records) }
        ensures whole { IfSome (D.told self.now.area.device) (AreBlocks (D.size self.now.area.device)) }
    {
        self.area.slots()
    }

    /// How many volumes the group has.
    pub(crate) fn volumes(&self) -> u32
        ensures volumes { result ≡ length self.now.area.volumes }
        ensures images { length self.now.images ≡ length self.now.area.volumes }
        ensures valid { AreVolumes self.now.area.volumes }
        ensures of_images { AreOfImages self.now.area.records self.now.images }
    {
        self.area.volumes()
    }

    /// How many blocks a volume has.
    pub(crate) fn blocks(&self, v: u32) -> u32
        requires { v < length self.now.area.volumes }
        ensures { slice_get self.now.area.volumes v ≡ Some result }
    {
        self.maps.blocks(v)
    }

    /// The sets of the images of a volume, the oldest first.
    pub(crate) fn images(&self, v: u32) -> &[u32]
        requires { v < length self.now.area.volumes }
        ensures images { slice_get self.now.images v ≡ Some result.now }
        ensures valid { AreImages result.now }
    {
        self.maps.images(v)
    }

    /// How many slots hold copies.
    pub(crate) fn used(&self) -> u32
        ensures { result ≡ used_in self.now.area.records }
    {
        self.pool.used()
    }

    /// How many slots hold copies of the volume.
    pub(crate) fn used_on(&self, v: u32) -> u32
        requires { v < length self.now.area.volumes }
        ensures { result ≡ count_on v self.now.area.records }
    {
        self.maps.used(v)
    }

    /// How many slots hold copies for the image of a set on the volume.
    pub(crate) fn used_of(&self, v: u32, set: u32) -> u32
        requires volume { v < length self.now.area.volumes }
        requires image { Contains (images_on self.now v) set }
        ensures { result ≡ count_of v set self.now.area.records }
    {
        let _facts = self.maps.images(v);
        self.maps.used_by(v, set)
    }

    /// The oldest image of the volume that has a copy.
    fn oldest_used(&self, v: u32) -> Option<u32>
        requires { v < length self.now.area.volumes }
        ensures { IsOldestOn self.now.area.records v result }
    {
        self.maps.oldest_used(v)
    }

    /// Whether an image of the volume stands, and the newest has no copy of the block.
    pub(crate) fn lacks_copy(&self, v: u32, block: u32) -> bool
        requires { v < length self.now.area.volumes }
        ensures { result ≡ lacks_copy self.now.area.records v (images_on self.now v) block }
    {
        if self.maps.images(v).is_empty() {
            return false;
        }
        !self.maps.newest_has(v, block)
    }

    /// Whether a write of the block needs a slot for a copy, and none is free.
    pub(crate) fn lacks_slot(&self, v: u32, block: u32) -> bool
        requires { v < length self.now.area.volumes }
        ensures { result ≡ lacks_slot self.now.area.records v (images_on self.now v) block }
    {
        self.pool.free() == 0 && self.lacks_copy(v, block)
    }

    /// The slot whose copy the image of a set shows of a block; None where the volume itself has what it shows.
    pub(crate) fn find(&self, v: u32, set: u32, block: u32) -> Option<u32>
        requires volume { v < length self.now.area.volumes }
        requires set { 0 < set }
        ensures found { IfSome result (IsFirstCopy self.now.area.records v set block) }
        ensures within { IfSome result (λ slot. slot < length self.now.area.records) }
        ensures none { IsNone result ↔ HasNoCopy self.now.area.records v set block }
    {
        self.maps.find(v, set, block)
    }

    /// The lowest free slot.
    pub(crate) fn free_slot(&self) -> Option<u32>
        ensures lowest { IfSome result (IsLowestFree (map is_free self.now.area.records)) }
        ensures none { IsNone result ↔ (is_full self.now.area.records ≡ true) }
    {
        self.pool.lowest()
    }

    /// An image is cut, the newest of the volume. It has no copies yet.
    pub(crate) fn add_image(&mut self, v: u32, set: u32)
        requires volume { v < length self.old.area.volumes }
        requires room { length (images_on self.old v) < 512 }
        requires above_zero { 0 < set }
        requires newest { All (λ image. image < set) (images_on self.old v) }
        ensures { self.new ≡ after_cut self.old v set }
    {
        self.maps.add_image(v, set);
        let _facts = self.maps.images(v);
    }

    /// Notes the lowest free slot for a block of the newest image of the volume, which lacks a copy of it.
    pub(crate) fn note(&mut self, v: u32, block: u32, slot: u32)
        requires volume { v < length self.old.area.volumes }
        requires lacks { lacks_copy self.old.area.records v (images_on self.old v) block ≡ true }
        requires in_range { block < slice_index self.old.area.volumes v }
        requires lowest { IsLowestFree (map is_free self.old.area.records) slot }
        ensures { self.new ≡ after_note self.old v block slot }
    {
        let _taken = self.pool.take();
        let set = newest(self.maps.images(v));
        self.maps.note(v, block, slot);
        let _facts = self.maps.images(v);
        let row = Record {
            set,
            block,
            volume: v,
        };
        self.area.set_record(slot, row);
    }

    /// Copies a block into a slot. Where that fails, the slot is as it was.
    pub(crate) fn copy_in(&mut self, slot: u32, view: BlockView<'_>) -> Result<(), AreaFault>
        requires { slot < length self.old.area.records }
        ensures copied { OnOk result (D.told self.new.area.device ≡ option_map (λ blocks. slice_set blocks (place_of_slot (length self.old.area.records) slot) view.entry) (D.told self.old.area.device)) }
        ensures kept { OnErr result (D.told self.new.area.device ≡ D.told self.old.area.device) }
        ensures table { KeepsTable D.size D.lending self.old.area self.new.area }
        ensures images { self.new.images ≡ self.old.images }
        ensures cause { HasCause (D.count self.old.area.device) (D.count self.new.area.device) result }
    {
        self.area.copy_in(slot, view)
    }

    /// Reads the block of a slot into `out`, which after a failed read holds any bytes.
    pub(crate) fn read_slot(&mut self, slot: u32, out: &mut [u8]) -> Result<(), AreaFault>
        requires slot { slot < length self.old.area.records }
        requires whole { length out.old ≡ BLOCK }
        ensures block { OnOk result (IfSome (D.told self.old.area.device) (λ blocks. slice_get blocks (place_of_slot (length self.old.area.records) slot) ≡ Some out.new)) }
        ensures told { D.told self.new.area.device ≡ D.told self.old.area.device }
        ensures lasting { D.lasting self.new.area.device ≡ D.lasting self.old.area.device }
        ensures table { KeepsTable D.size D.lending self.old.area self.new.area }
        ensures images { self.new.images ≡ self.old.images }
        ensures cause { HasCause (D.count self.old.area.device) (D.count self.new.area.device) result }
    {
        self.area.read_slot(slot, out)
    }

    /// Lends the block of a slot in place, which cannot fail.
    pub(crate) fn lend_slot(&self, slot: u32) -> Option<&[u8]>
        requires { slot < length self.now.area.records }
        ensures lends { is_some result ≡ D.lending self.now.area.device }
        ensures block { IfSome result (λ block. IfSome (D.told self.now.area.device) (λ blocks. slice_get blocks (place_of_slot (length self.now.area.records) slot) ≡ Some block.now)) }
        ensures whole { IfSome result (λ block. length block.now ≡ BLOCK) }
    {
        self.area.lend_slot(slot)
    }

    /// Fills `out` with the block of a slot, while other threads may read too. False if that cannot be, or failed.
    pub(crate) fn read_slot_shared(&self, slot: u32, out: &mut [u8]) -> bool
        requires slot { slot < length self.now.area.records }
        requires whole { length out.old ≡ BLOCK }
        ensures { result ≡ true → IfSome (D.told self.now.area.device) (λ blocks. slice_get blocks (place_of_slot (length self.now.area.records) slot) ≡ Some out.new) }
    {
        self.area.read_slot_shared(slot, out)
    }

    /// Writes the records of the copies to the area's device. Where that fails, those already written stand there.
    pub(crate) fn sync(&mut self) -> Result<(), AreaFault>
        ensures written { OnOk result (D.told self.new.area.device ≡ option_map (with_first (table_blocks self.old.area.volumes self.old.area.records)) (D.told self.old.area.device)) }
        ensures stands { OnOk result ((copies : List Copy) → AreHeld (D.told self.old.area.device) self.old.area.records copies → AreStored (D.told self.new.area.device) copies) }
        ensures in_part { OnErr result (AreInPart (table_blocks self.old.area.volumes self.old.area.records) (D.told self.old.area.device) (D.told self.new.area.device)) }
        ensures table { KeepsTable D.size D.lending self.old.area self.new.area }
        ensures images { self.new.images ≡ self.old.images }
        ensures cause { HasCause (D.count self.old.area.device) (D.count self.new.area.device) result }
    {
        self.area.sync()
    }

    /// Brings what was written to the area's device to where it lasts.
    pub(crate) fn flush(&mut self) -> Result<(), AreaFault>
        ensures lasts { OnOk result (D.lasting self.new.area.device ≡ D.told self.new.area.device) }
        ensures lasting { OnErr result (D.lasting self.new.area.device ≡ D.lasting self.old.area.device) }
        ensures told { D.told self.new.area.device ≡ D.told self.old.area.device }
        ensures table { KeepsTable D.size D.lending self.old.area self.new.area }
        ensures images { self.new.images ≡ self.old.images }
        ensures cause { HasCause (D.count self.old.area.device) (D.count self.new.area.device) result }
    {
        self.area.flush()
    }

    /// The area, as it is.
    pub(crate) fn into_area(self) -> Area<D>
        ensures { result ≡ self.area }
    {
        self.area
    }

    /// The set up to which images have to go for a write of the block, 0 where none has to.
    pub(crate) fn goes_up_to(&self, v: u32, block: u32) -> u32
        requires { v < length self.now.area.volumes }
        ensures { IsRoomMade self.now.area.records self.now.images v block result }
    {
        let _facts = self.volumes();
        let _facts = self.slots();
        if !self.lacks_slot(v, block) {
            return 0;
        }
        self.first_to_free(v)
    }

    /// The least set up to which images have to go, where all slots are used, before the volume has a slot for a copy or no
    /// image: the least that has a copy, or the volume's newest. Each volume tells its oldest image that has one.
    fn first_to_free(&self, v: u32) -> u32
        requires volume { v < length self.now.area.volumes }
        requires some { 0 < length (images_on self.now v) }
        requires full { is_full self.now.area.records ≡ true }
        ensures { IsFirstToFree self.now.area.records (images_on self.now v) result }
    {
        let _facts = self.slots();
        let mut least = newest(self.images(v));
        for u in 0..self.volumes() {
            least = lesser(least, self.oldest_used(u));
        }
        least
    }

    /// The images up to a set go from all volumes, with their copies.
    pub(crate) fn drop_up_to(&mut self, set: u32)
        ensures { self.new ≡ after_gone self.old set }
    {
        let _facts = self.volumes();
        let _facts = self.slots();
        if set == 0 {
            return;
        }
        for v in 0..self.volumes() {
            self.drop_up_to_on(v, set);
        }
    }

    /// The images up to a set go from the volume, with their copies.
    fn drop_up_to_on(&mut self, v: u32, set: u32)
        requires { v < length self.old.area.volumes }
        ensures { self.new ≡ after_gone_on self.old v set }
    {
        let going = Going::UpTo(set);
        free_copies(&mut self.area, &mut self.maps, &mut self.pool, v, going);
        self.maps.forget_up_to(v, set);
        let _facts = self.maps.images(v);
    }

    /// The image of a set goes from the volume. Its copies go to the next older image, where that lacks them.
    pub(crate) fn merge(&mut self, v: u32, set: u32)
        requires volume { v < length self.old.area.volumes }
        requires image { Contains (images_on self.old v) set }
        ensures { self.new ≡ after_merge self.old v set }
    {
        let _facts = self.maps.images(v);
        merge_copies(&mut self.area, &mut self.maps, &mut self.pool, v, set);
        self.maps.forget(v, set);
        let _facts = self.maps.images(v);
    }

    /// The images of the volume that are newer than that of a set go, and all copies from that set on.
    pub(crate) fn clear_from(&mut self, v: u32, set: u32)
        requires volume { v < length self.old.area.volumes }
        requires image { Contains (images_on self.old v) set }
        ensures { self.new ≡ after_clear self.old v set }
    {
        let _facts = self.maps.images(v);
        let going = Going::From(set);
        free_copies(&mut self.area, &mut self.maps, &mut self.pool, v, going);
        self.maps.forget_newer(v, set);
        let _facts = self.maps.images(v);
    }
}

/// The newest of these images.
fn newest(images: &[u32]) -> u32
    requires { 0 < length images.now }
    ensures { result ≡ newest images.now }
{
    images[images.len() - 1]
}

/// The lesser of a set and of another, where there is another.
pub(crate) fn lesser(set: u32, other: Option<u32>) -> u32
    ensures { result ≡ lesser set other }
{
    match other {
        Some(other) if other < set => other,
        _ => set,
    }
}
