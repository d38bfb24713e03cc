ghost use Rattle.std.specs.Prelude.{◌≡◌, ◌<◌, false, List, IfSome, IsNone, IfOk, OnOk, Some, length, replicate, map, slice_get, slice_set};
ghost use Rattle.vss_names.specs.Faults.{HasCause};
ghost use Rattle.volume_device.specs.InMemory.{AreBlocks};
ghost use Rattle.block_data.specs.BlockBytes.{payload_bytes};
ghost use Rattle.slot_pool.specs.Slots.{IsLowestFree};
ghost use Rattle.write_history.specs.Slots.{Copy};
ghost use Rattle.diff_area.specs.AreaValue.{KeepsTable};
ghost use Rattle.diff_area.specs.Copies.{AreHeld, AreStored};
ghost use Rattle.diff_area.specs.Format.{blocks_for, place_of_slot, AreRecords, IsUsed, free, is_free, used_in};
ghost use Rattle.cow_volume.specs.StandsFor.{record_of};
ghost use Rattle.cow_volume.specs.Changes.{has_record};
ghost use Rattle.cow_volume.specs.CopiesAfter.{with_records};
ghost use Rattle.vss_recover.specs.OverlayCalls.{IsPut, IsWrittenIn, count_in, kept_records};
ghost use Rattle.vss_recover.specs.Syncing.{IsOverlayTable, KeepsSlots};

use crate::entries::{entries_of, free_gone, is_at, note_used, place_from};
use crate::recover_fault::RecoverFault;
use block_data::{BLOCK, BlockBuf, BlockView, Payload};
use cow_volume::pool_of;
use diff_area::{Area, AreaFault, Record};
use diff_map::Entry;
use slot_pool::SlotPool;
use std::alloc::Global;
use std::marker::Model;
use volume_device::Device;
use vss_names::OutOfMemory;

/// The overlay: an area of one volume whose slots hold the blocks that recovery writes changed, one slot for a block of an image.
/// Contracts see the area: which slot a block has, and which are free, follows from its records.
#[derive(Drop)]
pub(crate) struct Overlay<D: Device> {
    area: Area<D>,
    /// The used slots, in order of block and then of set.
    entries: Vec<Entry>,
    pool: SlotPool,
}

impl<D: Device> Model for Overlay<D> {
    ghost use Rattle.diff_area.specs.AreaValue.{AreaValue};
    ghost use Rattle.vss_recover.specs.RecoverValue.{KeepsOverlay};

    ghost Value = { AreaValue D };

    ghost view = { λ o. o.area };

    ghost invariant = { λ o. KeepsOverlay o.area.volumes o.area.records o.entries o.pool };
}

impl<D: Device> Overlay<D> {
    /// The overlay in an area whose slots are free. It takes all memory that the overlay ever needs.
    pub(crate) fn new(alloc: Global, area: Area<D>) -> Result<Overlay<D>, OutOfMemory>
        requires one { length area.volumes ≡ 1 }
        requires free { area.records ≡ replicate (length area.records) free }
        ensures { IfOk result (λ overlay. overlay ≡ area) }
    {
        let slots = area.slots();
        let entries = Vec::with_capacity(alloc, slots as usize)?;
        let pool = SlotPool::new(alloc, slots)?;
        Ok(Overlay {
            area,
            entries,
            pool,
        })
    }

    /// The overlay in an area with the blocks that its records say. It takes all memory that the overlay ever needs.
    pub(crate) fn resume(alloc: Global, area: Area<D>) -> Result<Overlay<D>, OutOfMemory>
        requires { length area.volumes ≡ 1 }
        ensures value { IfOk result (λ overlay. overlay ≡ area) }
        ensures valid { AreRecords area.volumes area.records }
        ensures fits { D.size area.device ≡ blocks_for (length area.records) }
        ensures whole { IfSome (D.told area.device) (AreBlocks (D.size area.device)) }
    {
        let _facts = area.slots();
        let pool = pool_of(alloc, &area)?;
        let mut entries = Vec::with_capacity(alloc, area.slots() as usize)?;
        note_used(&mut entries, &area);
        Ok(Overlay {
            area,
            entries,
            pool,
        })
    }

    /// Writes the records to the area's device, and brings all that was written to it to where it lasts.
    pub(crate) fn sync(&mut self) -> Result<(), AreaFault>
        ensures stored { OnOk result ((copies : List Copy) → AreHeld (D.told self.old.device) self.old.records copies → AreStored (D.told self.new.device) copies) }
        ensures lasts { OnOk result (D.lasting self.new.device ≡ D.told self.new.device) }
        ensures kept { KeepsSlots D.Device self.old self.new }
        ensures table { IsOverlayTable D.told self.old self.new result }
        ensures cause { HasCause (D.count self.old.device) (D.count self.new.device) result }
    {
        let _facts = self.area.slots();
        self.area.sync()?;
        self.area.flush()
    }

    /// The area, as it is.
    pub(crate) fn into_area(self) -> Area<D>
        ensures { result ≡ self }
    {
        self.area
    }

    /// How many slots there are.
    pub(crate) fn slots(&self) -> u32
        ensures slots { result ≡ length self.now.records }
        ensures valid { AreRecords self.now.volumes self.now.records }
        ensures fits { D.size self.now.device ≡ blocks_for (length self.now.records) }
        ensures whole { IfSome (D.told self.now.device) (AreBlocks (D.size self.now.device)) }
    {
        self.area.slots()
    }

    /// How many slots are used.
    pub(crate) fn used(&self) -> u32
        ensures { result ≡ used_in self.now.records }
    {
        self.pool.used()
    }

    /// How many slots blocks of the image of a set use. It goes through the used slots.
    pub(crate) fn used_by(&self, set: u32) -> u32
        ensures { result ≡ count_in set self.now.records }
    {
        let _valid = self.area.slots();
        entries_of(&self.entries, set)
    }

    /// The slot of a block of the image of a set.
    pub(crate) fn find(&self, set: u32, block: u32) -> Option<u32>
        ensures found { IfSome result (λ slot. slice_get self.now.records slot ≡ Some (record_of 0 set block)) }
        ensures none { IsNone result → 0 < set → has_record self.now.records (record_of 0 set block) ≡ false }
    {
        let at = place_from(&self.entries, block, set);
        if at == self.entries.len() {
            return None;
        }
        let entry = self.entries[at];
        if is_at(entry, block, set) {
            Some(entry.slot)
        } else {
            None
        }
    }

    /// Reads the block of a slot into `out`, which after a failed read holds any bytes.
    pub(crate) fn read_slot(&mut self, slot: u32, out: &mut [u8]) -> Result<(), AreaFault>
        requires slot { slot < length self.old.records }
        requires whole { length out.old ≡ BLOCK }
        ensures block { OnOk result (IfSome (D.told self.old.device) (λ blocks. slice_get blocks (place_of_slot (length self.old.records) slot) ≡ Some out.new)) }
        ensures told { D.told self.new.device ≡ D.told self.old.device }
        ensures table { KeepsTable D.size D.lending self.old self.new }
        ensures cause { HasCause (D.count self.old.device) (D.count self.new.device) result }
    {
        self.area.read_slot(slot, out)
    }

    /// Puts bytes into the slot of a block of the image of a set, or into the lowest free one, which is the block's from then on.
    pub(crate) fn put(&mut self, set: u32, block: u32, bytes: &[u8]) -> Result<(), RecoverFault>
        requires used { IsUsed self.old.volumes (record_of 0 set block) }
        requires whole { length bytes.now ≡ BLOCK }
        ensures { IsPut D.Device self.old self.new set block bytes.now result }
    {
        match self.find(set, block) {
            Some(slot) => self.write_slot(slot, bytes),
            None => self.put_new(set, block, bytes),
        }
    }

    /// Puts bytes into the lowest free slot, which is from then on that of a block of the image of a set that had none.
    fn put_new(&mut self, set: u32, block: u32, bytes: &[u8]) -> Result<(), RecoverFault>
        requires used { IsUsed self.old.volumes (record_of 0 set block) }
        requires lacks { has_record self.old.records (record_of 0 set block) ≡ false }
        requires whole { length bytes.now ≡ BLOCK }
        ensures { IsPut D.Device self.old self.new set block bytes.now result }
    {
        let Some(slot) = self.pool.lowest() else {
            return Err(RecoverFault::Full);
        };
        match self.write_slot(slot, bytes) {
            Ok(()) => {
                self.note(set, block, slot);
                Ok(())
            }
            Err(fault) => Err(fault),
        }
    }

    /// Writes bytes into a slot. Where that fails, the slot is as it was.
    fn write_slot(&mut self, slot: u32, bytes: &[u8]) -> Result<(), RecoverFault>
        requires slot { slot < length self.old.records }
        requires whole { length bytes.now ≡ BLOCK }
        ensures { IsWrittenIn D.Device self.old self.new slot bytes.now result }
    {
        match self.area.copy_in(slot, BlockView::new(bytes)) {
            Ok(()) => Ok(()),
            Err(_) => Err(RecoverFault::Area),
        }
    }

    /// Notes the lowest free slot for a block of the image of a set that has none.
    fn note(&mut self, set: u32, block: u32, slot: u32)
        requires used { IsUsed self.old.volumes (record_of 0 set block) }
        requires lacks { has_record self.old.records (record_of 0 set block) ≡ false }
        requires lowest { IsLowestFree (map is_free self.old.records) slot }
        ensures { self.new ≡ with_records (slice_set self.old.records slot (record_of 0 set block)) self.old }
    {
        let at = place_from(&self.entries, block, set);
        let _ = self.entries.insert(at, Entry { block, set, slot });
        let _taken = self.pool.take();
        let row = Record {
            set,
            block,
            volume: 0,
        };
        self.area.set_record(slot, row);
    }

    /// The images that are not among these give their slots back. It goes through the used slots.
    pub(crate) fn keep(&mut self, images: &[u32])
        ensures { self.new ≡ with_records (kept_records images.now self.old.records) self.old }
    {
        let _valid = self.area.slots();
        free_gone(&mut self.area, &mut self.pool, &self.entries, images);
        self.entries.retain(|entry| images.contains(&entry.set));
    }
}

/// Puts the bytes of a payload, by `scratch`, into the slot of a block of the image of a set, or into a free one.
pub(crate) fn put_payload<D: Device>(
    overlay: &mut Overlay<D>,
    scratch: &mut BlockBuf,
    set: u32,
    block: u32,
    payload: &Payload,
) -> Result<(), RecoverFault>
    requires { IsUsed overlay.old.volumes (record_of 0 set block) }
    ensures { IsPut D.Device overlay.old overlay.new set block (payload_bytes payload.now) result }
{
    payload.fill_into(scratch.bytes_mut());
    overlay.put(set, block, scratch.bytes())
}
