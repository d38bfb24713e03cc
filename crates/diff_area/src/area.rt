ghost use Rattle.std.specs.Prelude.{◌≡◌, true, ◌<◌, ◌≤◌, ℕ, List, Some, length, replicate, slice_get, slice_index, slice_set, option_map, is_some, IfOk, IfErr, IfSome, OnOk, OnErr};
ghost use Rattle.vss_names.specs.Faults.{HasCause};
ghost use Rattle.volume_device.specs.InMemory.{AreBlocks};
ghost use Rattle.write_history.specs.Slots.{Copy};
ghost use Rattle.diff_area.specs.AreaValue.{AreInPart, KeepsTable, with_first, table_blocks};
ghost use Rattle.diff_area.specs.Copies.{AreStored, AreHeld};
ghost use Rattle.diff_area.specs.Loading.{IsLoaded, AreRefused, IsReadAlone};
ghost use Rattle.diff_area.specs.Format.{blocks_for, place_of_slot, free, AreVolumes, AreRecords, IsUsed};

use crate::area_fault::AreaFault;
use crate::layout::{PAGE_RECORDS, place_of_slot};
use crate::loading::read_tables;
use crate::table_record::Record;
use crate::tables::Tables;
use crate::unopened::Unopened;
use crate::writing::write_table;
use block_data::{BLOCK, BlockView};
use std::alloc::Global;
use std::marker::Model;
use volume_device::Device;
use vss_names::{Failed, MOST_SLOTS, OutOfMemory};

/// The diff area of a group of volumes: slots of one block each, and a record for each slot that says of which copy
/// it is.
///
/// The blocks of the slots are read and written on the device. The records are kept in memory; `sync` writes them.
#[derive(Drop)]
pub struct Area<D: Device> {
    device: D,
    volumes: Vec<u32>,
    records: Vec<Record>,
    changed: Vec<bool>,
    page: Vec<u8>,
}

impl<D: Device> Model for Area<D> {
    ghost use Rattle.diff_area.specs.AreaValue.{AreaValue, KeepsArea};

    ghost Value = { AreaValue D };

    ghost view = { λ a. record { device = a.device; volumes = a.volumes.items; records = a.records.items } };

    ghost invariant = { λ a. KeepsArea D.told D.size a.device a.volumes.items a.records.items a.changed.items a.page };
}

impl<D: Device> Area<D> {
    /// An area of free slots for a group of volumes with these numbers of blocks. Nothing is written to the device
    /// before the first `sync`, for which every page counts as changed.
    pub fn open_new(
        alloc: Global,
        device: D,
        slots: u32,
        blocks: &[u32],
    ) -> Result<Area<D>, Unopened<D>>
        requires few { slots ≤ MOST_SLOTS }
        requires volumes { AreVolumes blocks.now }
        requires fits { D.size device ≡ blocks_for slots }
        ensures opened { IfOk result (λ area. area ≡ record { device = device; volumes = blocks.now; records = replicate slots free }) }
        ensures unopened { IfErr result (λ unopened. unopened ≡ record { device = device; fault = AreaFault.OutOfMemory }) }
    {
        match Tables::of_free_slots(alloc, slots, blocks) {
            Err(OutOfMemory) => Err(Unopened {
                device,
                fault: AreaFault::OutOfMemory,
            }),
            Ok(tables) => {
                let Tables {
                    volumes,
                    records,
                    changed,
                    page,
                } = tables;
                Ok(Area {
                    device,
                    volumes,
                    records,
                    changed,
                    page,
                })
            }
        }
    }

    /// The area that stands on a device, in either layout. The device is read alone: no block of it is written before
    /// the next `sync`, for which every page counts as changed, and which brings an area of the first layout into the
    /// second. Equal records are found by an ordered set of those before.
    pub fn load(alloc: Global, device: D) -> Result<Area<D>, Unopened<D>>
        ensures loaded { IfOk result (IsLoaded D.Device device) }
        ensures copies { IfOk result (λ area. (copies : List Copy) → AreStored (D.told device) copies → AreHeld (D.told area.device) area.records copies) }
        ensures alone { IfErr result (λ unopened. IsReadAlone D.Device device unopened.device) }
        ensures refused { IfErr result (λ unopened. AreRefused (D.told device) (D.count device) (D.count unopened.device) unopened.fault) }
    {
        let mut device = device;
        match read_tables(alloc, &mut device) {
            Err(fault) => Err(Unopened { device, fault }),
            Ok(tables) => {
                let Tables {
                    volumes,
                    records,
                    changed,
                    page,
                } = tables;
                Ok(Area {
                    device,
                    volumes,
                    records,
                    changed,
                    page,
                })
            }
        }
    }

    /// How many slots there are.
    pub fn slots(&self) -> u32
        ensures slots { result ≡ length self.now.records }
        ensures valid { AreRecords self.now.volumes self.now.records }
        ensures fits { D.size self.now.device ≡ blocks_for (length self.now.records) }
        ensures whole { IfSome (D.told self.now.device) (AreBlocks (D.size self.now.device)) }
    {
        self.device.blocks() - 1 - self.changed.len() as u32
    }

    /// How many volumes the group has.
    pub fn volumes(&self) -> u32
        ensures volumes { result ≡ length self.now.volumes }
        ensures valid { AreVolumes self.now.volumes }
    {
        self.volumes.len() as u32
    }

    /// How many blocks each volume of the group has.
    pub fn sizes(&self) -> &[u32]
        ensures { result.now ≡ self.now.volumes }
    {
        &self.volumes
    }

    /// How many blocks a volume of the group has.
    pub fn blocks(&self, volume: u32) -> u32
        requires { volume < length self.now.volumes }
        ensures { result ≡ slice_index self.now.volumes volume }
    {
        self.volumes[volume as usize]
    }

    /// The record of a slot.
    pub fn record_at(&self, slot: u32) -> Record
        requires { slot < length self.now.records }
        ensures { slice_get self.now.records slot ≡ Some result }
    {
        self.records[slot as usize]
    }

    /// Copies a block into a slot. Where that fails, the slot is as it was.
    pub fn copy_in(&mut self, slot: u32, view: BlockView<'_>) -> Result<(), AreaFault>
        requires { slot < length self.old.records }
        ensures copied { OnOk result (D.told self.new.device ≡ option_map (λ blocks. slice_set blocks (place_of_slot (length self.old.records) slot) view.entry) (D.told self.old.device)) }
        ensures kept { OnErr result (D.told self.new.device ≡ D.told self.old.device) }
        ensures table { KeepsTable D.size D.lending self.old self.new }
        ensures cause { HasCause (D.count self.old.device) (D.count self.new.device) result }
        ensures fault { IfErr result (λ fault. fault ≡ AreaFault.Device) }
    {
        let place = place_of_slot(self.records.len() as u32, slot);
        match self.device.write(place, view.bytes()) {
            Ok(()) => Ok(()),
            Err(_) => Err(AreaFault::Device),
        }
    }

    /// Reads the block of a slot into `out`, which after a failed read holds any bytes.
    pub fn read_slot(&mut self, slot: u32, out: &mut [u8]) -> Result<(), AreaFault>
        requires slot { slot < length self.old.records }
        requires whole { length out.old ≡ BLOCK }
        ensures block { OnOk result (IfSome (D.told self.old.device) (λ blocks. slice_get blocks (place_of_slot (length self.old.records) slot) ≡ Some out.new)) }
        ensures told { D.told self.new.device ≡ D.told self.old.device }
        ensures lasting { D.lasting self.new.device ≡ D.lasting self.old.device }
        ensures table { KeepsTable D.size D.lending self.old self.new }
        ensures cause { HasCause (D.count self.old.device) (D.count self.new.device) result }
        ensures fault { IfErr result (λ fault. fault ≡ AreaFault.Device) }
    {
        let place = place_of_slot(self.records.len() as u32, slot);
        match self.device.read_into(place, out) {
            Ok(()) => Ok(()),
            Err(_) => Err(AreaFault::Device),
        }
    }

    /// Lends the block of a slot in place, which cannot fail.
    pub fn lend_slot(&self, slot: u32) -> Option<&[u8]>
        requires { slot < length self.now.records }
        ensures lends { is_some result ≡ D.lending self.now.device }
        ensures block { IfSome result (λ block. IfSome (D.told self.now.device) (λ blocks. slice_get blocks (place_of_slot (length self.now.records) slot) ≡ Some block.now)) }
        ensures whole { IfSome result (λ block. length block.now ≡ BLOCK) }
    {
        let place = place_of_slot(self.records.len() as u32, slot);
        self.device.lend(place)
    }

    /// Fills `out` with the block of a slot, while other threads may read too. False if that cannot be, or failed.
    pub fn read_slot_shared(&self, slot: u32, out: &mut [u8]) -> bool
        requires slot { slot < length self.now.records }
        requires whole { length out.old ≡ BLOCK }
        ensures { result ≡ true → IfSome (D.told self.now.device) (λ blocks. slice_get blocks (place_of_slot (length self.now.records) slot) ≡ Some out.new) }
    {
        let place = place_of_slot(self.records.len() as u32, slot);
        self.device.read_shared(place, out)
    }

    /// Notes a slot for a copy, in memory alone.
    pub fn set_record(&mut self, slot: u32, row: Record)
        requires slot { slot < length self.old.records }
        requires used { IsUsed self.old.volumes row }
        requires once { (other : ℕ) → slice_get self.old.records other ≡ Some row → other ≡ slot }
        ensures { self.new ≡ record self.old { records = slice_set self.old.records slot row } }
    {
        self.records[slot as usize] = row;
        self.changed[(slot / PAGE_RECORDS) as usize] = true;
    }

    /// Notes that a slot is free, in memory alone.
    pub fn clear_record(&mut self, slot: u32)
        requires { slot < length self.old.records }
        ensures { self.new ≡ record self.old { records = slice_set self.old.records slot free } }
    {
        self.records[slot as usize] = Record::FREE;
        self.changed[(slot / PAGE_RECORDS) as usize] = true;
    }

    /// Writes the header and the changed pages of the table, in the newest layout. Where that fails, the pages still
    /// count as changed, and those already written stand on the device.
    pub fn sync(&mut self) -> Result<(), AreaFault>
        ensures written { OnOk result (D.told self.new.device ≡ option_map (with_first (table_blocks self.old.volumes self.old.records)) (D.told self.old.device)) }
        ensures stands { OnOk result ((copies : List Copy) → AreHeld (D.told self.old.device) self.old.records copies → AreStored (D.told self.new.device) copies) }
        ensures in_part { OnErr result (AreInPart (table_blocks self.old.volumes self.old.records) (D.told self.old.device) (D.told self.new.device)) }
        ensures table { KeepsTable D.size D.lending self.old self.new }
        ensures cause { HasCause (D.count self.old.device) (D.count self.new.device) result }
        ensures fault { IfErr result (λ fault. fault ≡ AreaFault.Device) }
    {
        match write_table(
            &mut self.device,
            &mut self.page,
            &self.volumes,
            &self.records,
            &self.changed,
        ) {
            Ok(()) => {
                self.changed.fill(false);
                Ok(())
            }
            Err(Failed) => Err(AreaFault::Device),
        }
    }

    /// Brings what was written to where it lasts.
    pub fn flush(&mut self) -> Result<(), AreaFault>
        ensures lasts { OnOk result (D.lasting self.new.device ≡ D.told self.new.device) }
        ensures lasting { OnErr result (D.lasting self.new.device ≡ D.lasting self.old.device) }
        ensures told { D.told self.new.device ≡ D.told self.old.device }
        ensures table { KeepsTable D.size D.lending self.old self.new }
        ensures cause { HasCause (D.count self.old.device) (D.count self.new.device) result }
        ensures fault { IfErr result (λ fault. fault ≡ AreaFault.Device) }
    {
        match self.device.flush() {
            Ok(()) => Ok(()),
            Err(_) => Err(AreaFault::Device),
        }
    }

    /// The device, as it is.
    pub fn into_device(self) -> D
        ensures { result ≡ self.device }
    {
        self.device
    }
}
