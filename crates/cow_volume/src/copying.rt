//! The steps of a write: a block of a volume is copied into a slot of the area, and is written.

ghost use Rattle.std.specs.Prelude.{◌≡◌, ◌<◌, length};
ghost use Rattle.cow_volume.specs.Steps.{IsCopy, IsSlotCopy, IsPutOn};
ghost use Rattle.block_data.specs.BlockBytes.{payload_bytes};

use crate::cause::Cause;
use crate::copies::Copies;
use block_data::{BLOCK, BlockBuf, BlockView, Payload};
use volume_device::Device;

/// Copies a block into a slot, in place where the device lends it, and else by `scratch`.
pub(crate) fn copy_block<D: Device>(
    device: &mut D,
    copies: &mut Copies<D>,
    scratch: &mut BlockBuf,
    block: u32,
    slot: u32,
) -> Result<(), Cause>
    requires block { block < D.size device.old }
    requires slot { slot < length copies.old.area.records }
    ensures { IsCopy D.Device device.old device.new copies.old copies.new block slot result }
{
    if let Some(bytes) = device.lend(block) {
        return copy_bytes(copies, bytes, slot);
    }
    match device.read_into(block, scratch.bytes_mut()) {
        Ok(()) => copy_bytes(copies, scratch.bytes(), slot),
        Err(_) => Err(Cause::Volume),
    }
}

/// Copies these bytes into a slot.
fn copy_bytes<D: Device>(copies: &mut Copies<D>, bytes: &[u8], slot: u32) -> Result<(), Cause>
    requires whole { length bytes.now ≡ BLOCK }
    requires slot { slot < length copies.old.area.records }
    ensures { IsSlotCopy D.Device copies.old copies.new slot bytes.now result }
{
    match copies.copy_in(slot, BlockView::new(bytes)) {
        Ok(()) => Ok(()),
        Err(_) => Err(Cause::Area),
    }
}

/// Writes a block by `scratch`.
pub(crate) fn put_block<D: Device>(
    device: &mut D,
    scratch: &mut BlockBuf,
    block: u32,
    payload: &Payload,
) -> Result<(), Cause>
    requires { block < D.size device.old }
    ensures { IsPutOn D.Device device.old device.new block (payload_bytes payload.now) result }
{
    payload.fill_into(scratch.bytes_mut());
    match device.write(block, scratch.bytes()) {
        Ok(()) => Ok(()),
        Err(_) => Err(Cause::Volume),
    }
}
