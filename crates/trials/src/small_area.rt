//! A small area: its slots, its records and its syncs, and what is read of its bytes.

ghost use Rattle.std.specs.Prelude.{◌≡◌, ◌<◌, ℕ, false, Some, length, slice_get};

use crate::call::Call;
use crate::content::{buffer, filled_with};
use crate::making::device;
use crate::page::Page;
use crate::plan::Plan;
use crate::stopped::{Done, Stopped};
use block_data::{BLOCK, BlockBuf, BlockView, Payload};
use diff_area::{Area, AreaView, Record};
use std::alloc::Global;
use volume_device::{Device, MemDevice};

/// A new area of 2 slots for a volume of 4 blocks, over this device of 4 blocks.
fn open(alloc: Global, device: MemDevice) -> Result<Area<MemDevice>, Stopped> {
    if device.blocks() != 4 {
        return Err(Stopped);
    }
    match Area::open_new(alloc, device, 2, &[4]) {
        Ok(area) => Ok(area),
        Err(_) => Err(Stopped),
    }
}

/// Whether this slot is another, and has this record.
fn is_elsewhere(area: &Area<MemDevice>, other: u32, slot: u32, row: Record) -> bool
    requires { other < length area.now.records }
    ensures { result ≡ false → slice_get area.now.records other ≡ Some row → other ≡ slot }
{
    if other == slot {
        return false;
    }
    area.record_at(other) == row
}

/// Whether another slot has this record.
fn stands_elsewhere(area: &Area<MemDevice>, slot: u32, row: Record) -> bool
    ensures { result ≡ false → (other : ℕ) → slice_get area.now.records other ≡ Some row → other ≡ slot }
{
    for other in 0..area.slots() {
        if is_elsewhere(area, other, slot, row) {
            return true;
        }
    }
    false
}

/// Notes slot 1 for the copy of block 2 of set 3.
fn set_record(area: &mut Area<MemDevice>) -> Done {
    let row = Record {
        set: 3,
        block: 2,
        volume: 0,
    };
    if area.slots() < 2 || area.volumes() == 0 {
        return Err(Stopped);
    }
    if area.blocks(0) <= 2 || stands_elsewhere(area, 1, row) {
        return Err(Stopped);
    }
    area.set_record(1, row);
    Ok(())
}

/// Copies nines into slot 1, and reads them.
fn show_slot(page: &mut Page, area: &mut Area<MemDevice>) -> Done {
    let mut block = BlockBuf::zeroed(page.alloc())?;
    Payload::Fill(9).fill_into(block.bytes_mut());
    if area.slots() < 2 {
        return Err(Stopped);
    }
    page.show("copied", &area.copy_in(1, BlockView::new(block.bytes())));
    let mut out = buffer(page.alloc())?;
    page.show("read", &area.read_slot(1, out.bytes_mut()));
    page.show("filled", &filled_with(out.bytes()));
    Ok(())
}

/// Notes slot 1, syncs and flushes twice: what failed is made good by the second.
fn show_syncs(page: &mut Page, area: &mut Area<MemDevice>) -> Done {
    set_record(area)?;
    page.show("sync", &area.sync());
    page.show("sync", &area.sync());
    page.show("flush", &area.flush());
    page.show("flush", &area.flush());
    Ok(())
}

/// Puts a number into a block of a device.
fn spoil(alloc: Global, device: &mut MemDevice, block: u32, at: usize, number: u32) -> Done {
    if block >= device.blocks() || at > BLOCK - 4 {
        return Err(Stopped);
    }
    let mut bytes = BlockBuf::zeroed(alloc)?;
    device.read_into(block, bytes.bytes_mut())?;
    bytes.bytes_mut()[at..at + 4].copy_from_slice(number.to_le_bytes().as_slice());
    Ok(device.write(block, bytes.bytes())?)
}

/// Adds the bytes of a block, which is read into a buffer.
fn add_block(
    device: &mut MemDevice,
    index: u32,
    block: &mut BlockBuf,
    bytes: &mut Vec<u8>,
) -> Done {
    if index >= device.blocks() {
        return Err(Stopped);
    }
    device.read_into(index, block.bytes_mut())?;
    bytes.extend_from_slice(block.bytes())?;
    Ok(())
}

/// Shows the record of slot 1 as a view of the area's bytes lends it, or why they are none.
fn show_view(page: &mut Page, device: &mut MemDevice) -> Done {
    let mut block = BlockBuf::zeroed(page.alloc())?;
    let mut bytes = Vec::new(page.alloc());
    for index in 0..device.blocks() {
        add_block(device, index, &mut block, &mut bytes)?;
    }
    match AreaView::new(page.alloc(), &bytes) {
        Ok(view) if view.slots() == 2 => page.show("viewed", &view.record_at(1)),
        Ok(_) => return Err(Stopped),
        Err(fault) => page.show("viewed", &fault),
    }
    Ok(())
}

/// Shows both records of the area as it is loaded, or why it is none.
fn show_loaded(page: &mut Page, device: MemDevice) -> Done {
    match Area::load(page.alloc(), device) {
        Ok(area) if area.slots() == 2 => {
            page.show("loaded", &area.record_at(0));
            page.show("loaded", &area.record_at(1));
        }
        Ok(_) => return Err(Stopped),
        Err(unopened) => page.show("loaded", &unopened.fault),
    }
    Ok(())
}

/// The area is made on the device `area` and synced, and read again, after a number was put into a block where the line has `BLOCK AT NUMBER`.
pub fn show_area(page: &mut Page, plan: &mut Plan, call: Call<'_>) -> Done {
    let device = device(page.alloc(), plan, "area", 4)?;
    plan.clear();
    let mut area = open(page.alloc(), device)?;
    show_slot(page, &mut area)?;
    show_syncs(page, &mut area)?;
    let mut device = area.into_device();
    page.show("faults", &device.faults());
    if let [block, at, number] = call.numbers {
        spoil(page.alloc(), &mut device, *block, *at as usize, *number)?;
    }
    show_view(page, &mut device)?;
    show_loaded(page, device)
}
